// Whose turn it is at a state, and what it may take.
ghost use Rattle.std.specs.Prelude.{◌≡◌, ◌≤◌, ◌<◌, IfSome};
ghost use Rattle.order_states.specs.Code.SnapshotSteps.{top_turn, turn_in, runs_in, offered_in};
ghost use Rattle.order_states.specs.Code.StateBytes.{snapshot_in};
ghost use Rattle.taskfile.specs.Chains.{most_tasks};
ghost use Rattle.timing.specs.Accepted.{most_jobs};

use crate::programs::{instruction_at, owned_by};
use crate::starts::start_of;
use machine::POSITIONS;
use machine_locals::values::on_offer;
use order::Frame;
use order_states::states::frame_at;
use order_states::{DEPTH_AT, Due, FRAME_BYTES, Lent, PROGRAM, STACK_AT, State};
use taskfile::Task;
use taskfile::limits::MOST_TASKS;
use timing::Job;

// Is the active job started last one of task i? Tasks are below 8, so that no other number is taken for an index.
pub fn runs(program: &[u8; PROGRAM], s: &State, i: Task) -> bool
    ensures { result ≡ runs_in program.now (snapshot_in s.now.bytes) i.0 }
{
    let depth = s.bytes[DEPTH_AT];
    if MOST_TASKS <= i.0 || depth == 0 {
        return false;
    }
    let top = (depth - 1) as usize;
    owned_by(program, i, Job(s.bytes[STACK_AT + FRAME_BYTES * top]))
}

// The turn of the active job started last.
pub fn top_turn(s: &State) -> Due
    requires { 1 ≤ (snapshot_in s.now.bytes).depth }
    ensures { result ≡ top_turn (snapshot_in s.now.bytes) }
{
    let top = s.bytes[DEPTH_AT] - 1;
    Due {
        frame: frame_at(&s.bytes, top),
        under: top,
    }
}

// The turn that a byte of task i takes: the active job started last, if it is of that task, else a start.
pub fn turn_of(lent: &Lent, s: &State, i: Task) -> Option<Due>
    ensures turn { result ≡ turn_in lent.now.program lent.now.waits lent.now.locks
        (snapshot_in s.now.bytes) i.0 }
    ensures bounds { IfSome result (λ d. (d.under < most_tasks) × (d.frame.job.0 < most_jobs)) }
{
    if runs(&lent.program, s, i) {
        Some(top_turn(s))
    } else {
        start_of(lent, s, i)
    }
}

// May the job in the frame, of task i, take a step with the value v?
pub fn offered(program: &[u8; PROGRAM], f: Frame, i: Task, v: u8) -> bool
    requires { i.0 < most_tasks }
    ensures { result ≡ offered_in program.now f i.0 v }
{
    let next = f.local.next;
    next < POSITIONS && on_offer(instruction_at(program, i, next), v)
}
