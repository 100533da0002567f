// The iteration to the least solution of the response equation from a lower bound of every solution.
ghost use Rattle.std.specs.Prelude.{◌≡◌};
ghost use Rattle.timing.specs.Response.{response_of};
ghost use Rattle.timing.specs.Code.ResponseParts.{bound_of, LowerBound};

use crate::quotients::{Quotient, kept_interference};
use taskfile::limits::TASKS;
use timing_demands::demands::{Equation, demand_of};

// Iterates from a lower bound of every solution to the least solution, or past the period. Of each task above, the
// periods that begin in the interval are kept from turn to turn, until the interval passes their end.
pub fn iterate(equation: &Equation, start: u64) -> Option<u64>
    requires { LowerBound equation.now.times.now.table.now equation.now.task start }
    ensures { result ≡ bound_of (response_of equation.now.times.now.table.now equation.now.task) }
{
    let times = equation.times;
    let period = times.timings[equation.task.0 as usize].period;
    let mut kept = [Quotient { end: 0, busy: 0 }; TASKS];
    let mut r = start;
    while r <= period {
        let busy = kept_interference(
            &times.timings,
            times.table.tasks,
            equation.task,
            r,
            &mut kept,
        );
        let next = equation.own + busy;
        if next == r {
            return Some(r);
        }
        r = next;
    }
    None
}

// At most `turns` turns of the iteration from a lower bound.
pub fn iterate_some(equation: &Equation, start: u64, turns: u8) -> u64
    requires { LowerBound equation.now.times.now.table.now equation.now.task start }
    ensures { LowerBound equation.now.times.now.table.now equation.now.task result }
{
    let period = equation.times.timings[equation.task.0 as usize].period;
    let mut r = start;
    for _ in 0..turns {
        if period < r {
            return r;
        }
        let next = demand_of(equation, r);
        if next == r {
            return r;
        }
        r = next;
    }
    r
}
