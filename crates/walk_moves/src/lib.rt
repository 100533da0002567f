// The moves of a state, one after the other.
#![tactic(auto)]

ghost use Rattle.std.specs.Prelude.{◌≡◌, true, List, ℕ, ◌+◌, ◌*◌, ◌≤◌, ◌<◌};
ghost use Rattle.taskfile.specs.declared.Ceilings.{Ceilings};
ghost use Rattle.order_states.specs.Code.SnapshotSteps.{level_in, step_in};
ghost use Rattle.order_states.specs.Code.StateBytes.{snapshot_in};
ghost use Rattle.walk_moves.specs.Code.MoveParts.{FoundBelow, NextStep, FirstStart, StepOf, first_from, position_in};
ghost use Rattle.walk_moves.specs.Code.MoveParts.{running_task};
ghost use Rattle.taskfile.specs.Chains.{most_tasks};

use machine::POSITIONS;
use machine_locals::values::{highest, lowest};
use machine_performing::parts::next_in;
use order_states::{
    DEPTH_AT, FRAME_BYTES, LAST_VALUE, Lent, NO_TASK, OWNERS_AT, PROGRAM, STACK_AT, State, VALUES,
};
use order_turns::programs::instruction_at;
use order_turns::starts::may_start;
use taskfile::limits::{MOST_JOBS, MOST_TASKS};
use taskfile::{Instruction, Task};
use timing::Job;

// The first value from v on that is on offer at an instruction. None above 15 fits an order's byte.
pub fn first_from(o: Instruction, v: u8) -> Option<u8>
    ensures { FoundBelow 16 (λ w. w ≡ first_from o v) result }
{
    let first = v.max(lowest(o));
    if highest(o) < first || LAST_VALUE < first {
        return None;
    }
    Some(first)
}

// The first byte of task i from the value v on that is a step, where its job whose turn it is stands at this position;
// or none of the task's is.
pub fn byte_from(program: &[u8; PROGRAM], i: Task, position: u16, v: u8) -> Option<u8>
    requires { i.0 < most_tasks }
    ensures { FoundBelow 128 (λ m. StepOf program.now i.0 position v m) result }
{
    if POSITIONS <= position {
        return None;
    }
    let first = first_from(instruction_at(program, i, position), v)?;
    Some(VALUES * i.0 + first)
}

// The task of the active job started last, or `Task(NO_TASK)`.
pub fn running_task(program: &[u8; PROGRAM], s: &State) -> Task
    ensures { result.0 ≡ running_task program.now (snapshot_in s.now.bytes) }
{
    let depth = s.bytes[DEPTH_AT];
    if depth == 0 {
        return Task(NO_TASK);
    }
    let x = Job(s.bytes[STACK_AT + FRAME_BYTES * ((depth - 1) as usize)]);
    if MOST_JOBS <= x.0 {
        return Task(NO_TASK);
    }
    Task(program[OWNERS_AT + (x.0 as usize)])
}

// Where the job stands whose turn task i's is: the running job, if `top` is that task, or else one that starts.
pub fn position_of(s: &State, top: Task, i: Task) -> u16
    requires { i.0 ≡ top.0 → 1 ≤ (snapshot_in s.now.bytes).depth }
    ensures { result ≡ position_in (snapshot_in s.now.bytes) top.0 i.0 }
{
    if i.0 == top.0 {
        return next_in(&s.bytes, s.bytes[DEPTH_AT] - 1);
    }
    0
}

// The first byte of a task from i on that is a start, where `low` is the level that a start must reach.
pub fn start_from(lent: &Lent, s: &State, low: u8, i: Task) -> Option<u8>
    requires { i.0 ≤ most_tasks }
    ensures { (locks : Ceilings) → low ≡ level_in lent.now.program locks (snapshot_in s.now.bytes)
        → low ≤ i.0
        → FoundBelow 128 (λ m. NextStep lent.now.program lent.now.waits locks (snapshot_in s.now.bytes) (16 * i.0) m)
        result }
{
    for k in i.0..MOST_TASKS {
        if may_start(lent, s, low, Task(k)) {
            if let Some(m) = byte_from(&lent.program, Task(k), 0, 0) {
                return Some(m);
            }
        }
    }
    None
}

// The first move of a state, where `top` is the running job's task and `start` the first start. The two
// are found once for a state.
pub fn first_move(program: &[u8; PROGRAM], s: &State, top: Task, start: Option<u8>) -> Option<u8>
    requires { top.0 ≡ running_task program.now (snapshot_in s.now.bytes) }
    ensures { (waits : List ℕ) (locks : Ceilings)
        → FoundBelow 128 (λ m. FirstStart program.now waits locks (snapshot_in s.now.bytes) m) start
        → FoundBelow 128 (λ m. NextStep program.now waits locks (snapshot_in s.now.bytes) 0 m) result }
{
    if MOST_TASKS <= top.0 {
        return start;
    }
    if let Some(m) = byte_from(program, top, position_of(s, top, top), 0) {
        return Some(m);
    }
    start
}

// The move after the one of this byte: the next value on offer, or the next start.
pub fn next_move(
    lent: &Lent,
    s: &State,
    top: Task,
    low: u8,
    start: Option<u8>,
    byte: u8,
) -> Option<u8>
    requires { (byte < 128) × (top.0 ≡ running_task lent.now.program (snapshot_in s.now.bytes)) }
    ensures { (locks : Ceilings) → low ≡ level_in lent.now.program locks (snapshot_in s.now.bytes)
        → FoundBelow 128 (λ m. FirstStart lent.now.program lent.now.waits locks (snapshot_in s.now.bytes) m) start
        → (step_in lent.now.program lent.now.waits locks (snapshot_in s.now.bytes) byte).allowed ≡ true
        → FoundBelow 128 (λ m. NextStep lent.now.program lent.now.waits locks (snapshot_in s.now.bytes) (byte + 1) m)
        result }
{
    let i = Task(byte / VALUES);
    if let Some(m) = byte_from(&lent.program, i, position_of(s, top, i), byte % VALUES + 1) {
        return Some(m);
    }
    if i.0 == top.0 {
        return start;
    }
    start_from(lent, s, low, Task(i.0 + 1))
}
