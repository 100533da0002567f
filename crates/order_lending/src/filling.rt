// An accepted table in the arrays that are lent to the steps.
ghost use Rattle.std.specs.Prelude.{◌*◌, ◌≤◌};
ghost use Rattle.taskfile.specs.Code.JudgingParts.{Shaped};
ghost use Rattle.order_states.specs.Code.Lent.{BodiesTo, OwnersTo, TimesTo};
ghost use Rattle.timing.specs.Accepted.{most_jobs};

use order_states::{INSTRUCTION_BYTES, LATEST_AT, NO_TASK, OWNERS_AT, PROGRAM, TIMES};
use taskfile::Table;
use taskfile::limits::INSTRUCTIONS;
use timing::{JobList, ListedTable};

// The bodies of the table's tasks, and no job's task.
pub fn bodies_of(t: &Table) -> [u8; PROGRAM]
    requires { Shaped t.now }
    ensures { BodiesTo t.now (16 * t.now.tasks) result }
{
    let most = INSTRUCTIONS * (t.tasks as usize);
    let mut program = [NO_TASK; PROGRAM];
    for n in 0..most {
        let o = t.entries[n / INSTRUCTIONS].body[n % INSTRUCTIONS];
        program[INSTRUCTION_BYTES * n] = o.operation;
        program[INSTRUCTION_BYTES * n + 1] = o.a;
        program[INSTRUCTION_BYTES * n + 2] = o.b;
        program[INSTRUCTION_BYTES * n + 3] = o.c;
    }
    program
}

// The program of a table: the bodies and the task of each job.
pub fn program_of(listed: &ListedTable) -> [u8; PROGRAM]
    ensures { OwnersTo listed.now.table listed.now.list listed.now.list.count result }
{
    let mut program = bodies_of(&listed.table);
    for x in 0..usize::from(listed.list.count) {
        program[OWNERS_AT + x] = listed.list.jobs[x].task.0;
    }
    program
}

// The arrival and the latest finish of each job.
pub fn times_of(list: &JobList) -> [u64; TIMES]
    requires { list.now.count ≤ most_jobs }
    ensures { TimesTo list.now list.now.count result }
{
    let mut times = [0u64; TIMES];
    for x in 0..usize::from(list.count) {
        times[x] = list.jobs[x].arrival;
        times[LATEST_AT + x] = list.jobs[x].latest;
    }
    times
}
