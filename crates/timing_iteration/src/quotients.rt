// The interference of the tasks above, from quotients that are kept from one interval to a longer one.
ghost use Rattle.std.specs.Prelude.{◌≡◌, ◌^◌, ◌≤◌, ◌<◌};
ghost use Rattle.taskfile.specs.declared.Table.{Table};
ghost use Rattle.timing.specs.Response.{tasks_above, interference};
ghost use Rattle.timing.specs.Code.BoundedTimes.{BoundedTimes};
ghost use Rattle.timing.specs.Code.ResponseParts.{TimesOf};
ghost use Rattle.timing_iteration.specs.Code.Kept.{Kept};

use taskfile::Task;
use taskfile::limits::TASKS;
use timing::Timing;
use timing_rounding::rounded_up;

// What is kept of a task's quotient: where so many of its periods end, and how long it is busy in them.
#[derive(Clone, Copy)]
pub struct Quotient {
    pub end: u64,
    pub busy: u64,
}

// 1 if an end comes before r, else 0.
pub fn passed(end: u64, r: u64) -> u64
    ensures { (result ≤ 1) × (1 ≤ result → end < r) × (end < r → 1 ≤ result) }
{
    u64::from(end < r)
}

// How long tasks above task i keep the processor in an interval of length r. A task whose kept periods end before r
// gets one more, without a branch, and only where that is not enough it divides.
pub fn kept_interference(
    timings: &[Timing; TASKS],
    tasks: u8,
    i: Task,
    r: u64,
    kept: &mut [Quotient; TASKS],
) -> u64
    requires { BoundedTimes timings.now tasks × (i.0 < tasks) × (r < 2 ^ 32) × Kept timings.now tasks r kept.old }
    ensures upper_bound { (result < 2 ^ 36) × ((t : Table) → t.tasks ≡ tasks → TimesOf t timings.now
        → result ≡ interference (tasks_above t i) r) }
    ensures kept { Kept timings.now tasks r kept.new }
{
    let mut total = 0;
    for k in i.0 as usize + 1..tasks as usize {
        let Timing { execution, period } = timings[k];
        let mut one = kept[k];
        let more = passed(one.end, r);
        one.end += more * period;
        one.busy += more * execution;
        if one.end < r {
            let n = rounded_up(r, period);
            one.end = n * period;
            one.busy = n * execution;
        }
        kept[k] = one;
        total += one.busy;
    }
    total
}
