// The replay of an order's bytes, from a state on.
ghost use Rattle.std.specs.Prelude.{◌≡◌};
ghost use Rattle.notation.specs.Checked.{mapped};
ghost use Rattle.taskfile.specs.Code.Refusals.{number_of, outcome};
ghost use Rattle.order_states.specs.Code.ReplayParts.{end_in};
ghost use Rattle.order_states.specs.Code.SnapshotSteps.{slip_in, replay_in};
ghost use Rattle.order_states.specs.Code.StateBytes.{snapshot_in};
ghost use Rattle.order_replay.specs.Code.Reaching.{left_in};

use crate::ends::{failed_in, finished};
use machine::End;
use notation::bytes::bytes_at;
use order_states::{Lent, STORE_AT, State, VALUES};
use order_steps::step;
use order_turns::turns::turn_of;
use taskfile::Task;
use taskfile::refusals::{Refusal, Refused};

// How an order ends at a state.
fn end_at(s: &State) -> End
    ensures { result ≡ end_in (snapshot_in s.now.bytes) }
{
    let store = bytes_at(&s.bytes, STORE_AT);
    let failed = failed_in(&s.bytes);
    End { store, failed }
}

// Why a byte is no step, in a table with so many tasks: its task is none of them, or has no turn, or else its value is
// not on offer.
fn slip(lent: &Lent, tasks: u8, s: &State, byte: u8) -> Refusal
    ensures { number_of result ≡ slip_in lent.now.program lent.now.waits lent.now.locks tasks
        (snapshot_in s.now.bytes) byte }
{
    let i = Task(byte / VALUES);
    if tasks <= i.0 {
        return Refusal::Task;
    }
    match turn_of(lent, s, i) {
        None => Refusal::Step,
        Some(_) => Refusal::Offer,
    }
}

// The replay of an order's bytes from a state on, in a table with so many tasks. It leaves the state that it
// reached, where the order is at fault too.
pub fn replay_from(
    lent: &Lent,
    tasks: u8,
    s: &mut State,
    order: &[u8],
) -> Result<End, Refused<usize>>
    ensures came { outcome result ≡ mapped end_in (replay_in lent.now.program lent.now.waits lent.now.locks tasks
        (snapshot_in s.old.bytes) 0 order.now) }
    ensures left { snapshot_in s.new.bytes ≡ left_in lent.now.program lent.now.waits lent.now.locks
        (snapshot_in s.old.bytes) order.now }
{
    for (index, byte) in order.iter().enumerate() {
        if finished(&lent.program, &s.bytes) {
            return Err(Refusal::Extra.at(index));
        }
        if !step(lent, s, *byte) {
            return Err(slip(lent, tasks, s, *byte).at(index));
        }
    }
    if finished(&lent.program, &s.bytes) {
        Ok(end_at(s))
    } else {
        Err(Refusal::Short.at(order.len()))
    }
}
