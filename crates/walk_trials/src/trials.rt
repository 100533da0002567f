// The walk of a state and the trial of its moves, which call each other.
ghost use Rattle.std.specs.Prelude.{◌-◌, ◌≤◌, ◌<◌};
ghost use Rattle.walk_trials.specs.Code.Outcomes.{outcome_of};
ghost use Rattle.order_states.specs.Code.StateBytes.{snapshot_in};
ghost use Rattle.walk_trials.specs.Code.Trials.{Left, WalksAs, TriesAs};
ghost use Rattle.order.specs.Orders.{most_steps};

use crate::{Trial, ended};
use order_replay::ends::finished;
use order_states::{LAST_STEP, Lent, ORDER_ROOM, State};
use order_steps::make_move;
use order_turns::precedence::level;
use taskfile::Task;
use walk_moves::{first_move, next_move, running_task, start_from};

// The walk of a state, on a path with room for `left` more bytes, when `count` moves were made before. It leaves the
// moves made, and the end state of an order that it found.
#[cycle(trial_walk)]
pub fn walk(
    lent: &Lent,
    s: &mut State,
    left: usize,
    allowance: u64,
    count: &mut u64,
    path: &mut [u8; ORDER_ROOM],
) -> Trial
    requires { (left ≤ most_steps) × (count.old ≤ allowance) }
    ensures room { Left (most_steps - left) allowance path.old path.new count.new }
    ensures came { WalksAs lent.now.program lent.now.waits lent.now.locks (snapshot_in s.old.bytes)
        left count.old allowance path.old path.new
        (outcome_of result count.new (snapshot_in s.new.bytes)) }
{
    if finished(&lent.program, &s.bytes) {
        return ended(&s.bytes, ORDER_ROOM - left);
    }
    if left == 0 {
        return Trial::Held;
    }
    trial(lent, s, left - 1, allowance, count, path)
}

// The trial of a state's moves, each with room for `left` bytes after it. All but the last are made on a copy of the
// state, the last on the state itself.
#[cycle(trial_walk)]
pub fn trial(
    lent: &Lent,
    s: &mut State,
    left: usize,
    allowance: u64,
    count: &mut u64,
    path: &mut [u8; ORDER_ROOM],
) -> Trial
    requires { (left < most_steps) × (count.old ≤ allowance) }
    ensures room { Left (511 - left) allowance path.old path.new count.new }
    ensures came { TriesAs lent.now.program lent.now.waits lent.now.locks (snapshot_in s.old.bytes)
        left count.old allowance path.old path.new
        (outcome_of result count.new (snapshot_in s.new.bytes)) }
{
    let top = running_task(&lent.program, s);
    let low = level(lent, s);
    let start = start_from(lent, s, low, Task(low));
    let mut at = first_move(&lent.program, s, top, start);
    while let Some(byte) = at {
        if allowance <= *count {
            return Trial::Stopped;
        }
        *count += 1;
        path[LAST_STEP - left] = byte;
        let after = next_move(lent, s, top, low, start, byte);
        if let None = after {
            make_move(&lent.program, s, top, byte);
            return walk(lent, s, left, allowance, count, path);
        }
        let mut next = *s;
        make_move(&lent.program, &mut next, top, byte);
        match walk(lent, &mut next, left, allowance, count, path) {
            Trial::Held => at = after,
            Trial::Stopped => return Trial::Stopped,
            Trial::Found(length) => {
                *s = next;
                return Trial::Found(length);
            }
        }
    }
    Trial::Held
}
