// Which job of a task may start at a state.
ghost use Rattle.std.specs.Prelude.{◌≡◌, ◌<◌};
ghost use Rattle.order_states.specs.Code.SnapshotSteps.{nobody, starts_above, start_turn, start_in};
ghost use Rattle.order_states.specs.Code.StateBytes.{snapshot_in};
ghost use Rattle.taskfile.specs.Chains.{most_tasks};

use crate::precedence::{level, must_wait};
use crate::programs::owned_by;
use machine_locals::registers::fresh_local;
use order::Frame;
use order_states::{DEPTH_AT, Due, Lent, STATE_BYTES, State, UNENDED_AT};
use taskfile::Task;
use taskfile::limits::MOST_TASKS;
use timing::{Job, ListedJob};

// May task i's first job not yet ended start, if its base is not below the level `low`?
pub fn may_start(lent: &Lent, s: &State, low: u8, i: Task) -> bool
    ensures { result ≡ starts_above lent.now.program lent.now.waits low (snapshot_in s.now.bytes) i.0 }
{
    if MOST_TASKS <= i.0 || i.0 < low || MOST_TASKS <= s.bytes[DEPTH_AT] {
        return false;
    }
    let y = s.bytes[UNENDED_AT + (i.0 as usize)];
    owned_by(&lent.program, i, Job(y)) && !must_wait(&lent.waits, &s.bytes, ListedJob { number: y })
}

// It is nobody's turn.
pub fn no_turn() -> Option<Due>
    ensures { result ≡ nobody }
{
    None
}

// The turn of task i's first job not yet ended, which starts.
pub fn start_turn(s: &[u8; STATE_BYTES], i: Task) -> Due
    requires { i.0 < most_tasks }
    ensures { result ≡ start_turn (snapshot_in s.now) i.0 }
{
    Due {
        frame: Frame {
            job: Job(s[UNENDED_AT + (i.0 as usize)]),
            local: fresh_local(),
        },
        under: s[DEPTH_AT],
    }
}

// The start of task i's first job not yet ended, if it may start.
pub fn start_of(lent: &Lent, s: &State, i: Task) -> Option<Due>
    ensures { result ≡ start_in lent.now.program lent.now.waits lent.now.locks
        (snapshot_in s.now.bytes) i.0 }
{
    let low = level(lent, s);
    if may_start(lent, s, low, i) {
        Some(start_turn(&s.bytes, i))
    } else {
        no_turn()
    }
}
