// What the steps of an order read of an accepted table, in lent arrays of numbers.
ghost use Rattle.std.specs.Prelude.{◌≡◌, ◌<◌};
ghost use Rattle.order_states.specs.Code.SnapshotSteps.{instruction_in, before_in, preempts_in, owned_by};
ghost use Rattle.taskfile.specs.Chains.{most_instructions, most_tasks};

use order_states::{BODY_BYTES, INSTRUCTION_BYTES, LATEST_AT, OWNERS_AT, PROGRAM, TIMES};
use taskfile::limits::MOST_JOBS;
use taskfile::{Instruction, Task};
use timing::{Job, ListedJob};

// The instruction at a position of a task's body.
pub fn instruction_at(program: &[u8; PROGRAM], i: Task, p: u16) -> Instruction
    requires { (i.0 < most_tasks) × (p < most_instructions) }
    ensures { result ≡ instruction_in program.now i.0 p }
{
    let at = BODY_BYTES * (i.0 as usize) + INSTRUCTION_BYTES * (p as usize);
    Instruction {
        operation: program[at],
        a: program[at + 1],
        b: program[at + 2],
        c: program[at + 3],
    }
}

// Is job x one of task k?
pub fn owned_by(program: &[u8; PROGRAM], k: Task, x: Job) -> bool
    ensures { result ≡ owned_by program.now k.0 x.0 }
{
    x.0 < MOST_JOBS && program[OWNERS_AT + (x.0 as usize)] == k.0
}

// Does job x come before job y, another job?
pub fn comes_before(
    program: &[u8; PROGRAM],
    times: &[u64; TIMES],
    x: ListedJob,
    y: ListedJob,
) -> bool
    ensures { result ≡ before_in program.now times.now x.number y.number }
{
    let first = x.number as usize;
    let second = y.number as usize;
    let arrival = times[second];
    times[LATEST_AT + first] <= arrival
        || times[first] <= arrival && program[OWNERS_AT + second] <= program[OWNERS_AT + first]
}

// May job y preempt job x?
pub fn may_preempt(
    program: &[u8; PROGRAM],
    times: &[u64; TIMES],
    y: ListedJob,
    x: ListedJob,
) -> bool
    ensures { result ≡ preempts_in program.now times.now y.number x.number }
{
    let lower = x.number as usize;
    let upper = y.number as usize;
    let arrival = times[upper];
    program[OWNERS_AT + lower] < program[OWNERS_AT + upper]
        && times[lower] < arrival
        && arrival < times[LATEST_AT + lower]
}
