// Where the tasks above a task meet their periods: the test whether an interval is long enough, by Bini and Buttazzo's
// scheduling points, and the search for the response time by halving.
ghost use Rattle.std.specs.Prelude.{◌≡◌, ◌&&◌, ◌^◌, ◌≤◌, ◌<◌, drop};
ghost use Rattle.taskfile.specs.declared.Table.{Table};
ghost use Rattle.taskfile.specs.Tables.{tasks_of};
ghost use Rattle.timing.specs.Response.{tasks_above, response_of};
ghost use Rattle.timing.specs.Code.BoundedTimes.{BoundedTimes};
ghost use Rattle.timing.specs.Code.ResponseParts.{TimesOf, bound_of, LowerBound, AllFit, fits_from, fits_alone};

use taskfile::Task;
use taskfile::limits::TASKS;
use timing::Timing;
use timing_demands::demands::{Equation, demand_of};
use timing_rounding::rounded_up;

// Whether, in some interval of length 1 to b, base and the tasks from j on are done. Only b itself and the last
// multiple of each period before it need a look, if each of those tasks meets its own period. It calls itself on the
// next task. j is a position among the tasks and no task's number: past the last task there is none.
pub fn fits_from(timings: &[Timing; TASKS], tasks: u8, j: u8, base: u64, b: u64) -> bool
    requires { BoundedTimes timings.now tasks × (j ≤ tasks) × (base < 2 ^ 34) × (b < 2 ^ 32) }
    ensures { (t : Table) → t.tasks ≡ tasks → TimesOf t timings.now
        → result ≡ fits_from (drop j (tasks_of t)) base b }
{
    if b < base {
        return false;
    }
    if j == tasks {
        return true;
    }
    let Timing { execution, period } = timings[j as usize];
    let windows = rounded_up(b, period);
    let done = base + windows * execution;
    let whole = windows * period;
    if whole == b {
        return fits_from(timings, tasks, j + 1, done, b);
    }
    fits_from(timings, tasks, j + 1, done, b)
        || fits_from(timings, tasks, j + 1, done - execution, whole - period)
}

// Whether task i meets its period where it waits for no lock, and `above`, that those above it do. Then a holding
// time that makes a task late does not take the search by halving from the tasks below.
pub fn fits_alone(timings: &[Timing; TASKS], tasks: u8, i: Task, above: bool) -> bool
    requires { BoundedTimes timings.now tasks × (i.0 < tasks) }
    ensures { (t : Table) → t.tasks ≡ tasks → TimesOf t timings.now
        → result ≡ (above && fits_alone t i) }
{
    let Timing { execution, period } = timings[i.0 as usize];
    above && fits_from(timings, tasks, i.0 + 1, execution, period)
}

// The response time from a lower bound, where every task above meets its period: found by halving between the lower
// bound and the period.
pub fn search(equation: &Equation, start: u64) -> Option<u64>
    requires { LowerBound equation.now.times.now.table.now equation.now.task start
        × AllFit (tasks_above equation.now.times.now.table.now equation.now.task) }
    ensures { result ≡ bound_of (response_of equation.now.times.now.table.now equation.now.task) }
{
    let times = equation.times;
    let tasks = times.table.tasks;
    let i = equation.task;
    let own = equation.own;
    let period = times.timings[i.0 as usize].period;
    if period < start {
        return None;
    }
    if demand_of(equation, start) == start {
        return Some(start);
    }
    if !fits_from(&times.timings, tasks, i.0 + 1, own, period) {
        return None;
    }
    let mut lo = start;
    let mut hi = period;
    while lo < hi {
        let mid = lo + (hi - lo) / 2;
        if fits_from(&times.timings, tasks, i.0 + 1, own, mid) {
            hi = mid;
        } else {
            lo = mid + 1;
        }
    }
    Some(lo)
}
