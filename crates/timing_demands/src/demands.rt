// The demand of a task: the tasks' times in an array to be lent, interference, and demand.
ghost use Rattle.std.specs.Prelude.{◌≡◌, ◌^◌, ◌<◌};
ghost use Rattle.taskfile.specs.declared.Table.{Table};
ghost use Rattle.timing.specs.Response.{tasks_above, interference, demand};
ghost use Rattle.timing.specs.Code.BoundedTimes.{BoundedTimes};
ghost use Rattle.timing.specs.Code.ResponseParts.{Timeable, TimesOf, NeedOf};

use taskfile::limits::TASKS;
use taskfile::{Table, Task};
use timing::{TaskTimes, Timing};
use timing_rounding::rounded_up;

// A task's response equation: the times of the tasks of its table, and what the task needs beside interference.
#[derive(Clone, Copy)]
pub struct Equation<'a> {
    pub times: &'a TaskTimes<'a>,
    pub task: Task,
    pub own: u64,
    pub ghost inside: { task.0 < times.now.table.now.tasks },
    pub ghost need: { NeedOf times.now.table.now task own },
}

// The execution times and periods of a table's tasks, to be lent.
pub fn times_of<'a>(t: &'a Table) -> TaskTimes<'a>
    requires { Timeable t.now }
    ensures { result.table ≡ t.entry }
{
    let mut timings = [Timing {
        execution: 0,
        period: 0,
    }; TASKS];
    for (k, e) in t.entries[..t.tasks as usize].iter().enumerate() {
        timings[k] = Timing {
            execution: u64::from(e.execution),
            period: u64::from(e.period),
        };
    }
    TaskTimes { table: t, timings }
}

// How long tasks above task i keep the processor in an interval of length r.
pub fn interference_of(timings: &[Timing; TASKS], tasks: u8, i: Task, r: u64) -> u64
    requires { BoundedTimes timings.now tasks × (i.0 < tasks) × (r < 2 ^ 32) }
    ensures { (result < 2 ^ 36) × ((t : Table) → t.tasks ≡ tasks → TimesOf t timings.now
        → result ≡ interference (tasks_above t i) r) }
{
    let mut total = 0;
    for k in i.0 as usize + 1..tasks as usize {
        let Timing { execution, period } = timings[k];
        total += rounded_up(r, period) * execution;
    }
    total
}

// The demand in an interval of length r: the task's own need and the interference of the tasks above.
pub fn demand_of(equation: &Equation, r: u64) -> u64
    requires { r < 2 ^ 32 }
    ensures { result ≡ demand equation.now.times.now.table.now equation.now.task r }
{
    let times = equation.times;
    equation.own + interference_of(&times.timings, times.table.tasks, equation.task, r)
}
