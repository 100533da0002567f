// The utilisation that the tasks above a task need at least.
ghost use Rattle.std.specs.Prelude.{◌^◌, ◌≤◌, ◌<◌};
ghost use Rattle.std.specs.Int.{◌∣◌};
ghost use Rattle.timing.specs.Response.{tasks_above};
ghost use Rattle.timing.specs.Code.ResponseParts.{SumFits, WithTask, UtilisationOf};

use timing::{Timing, Utilisation};
use timing_demands::demands::Equation;
use timing_rounding::wide_rounded_up;

// The greatest common divisor, by Euclid's algorithm.
pub fn common_divisor(a: u64, b: u64) -> u64
    requires { 1 ≤ a }
    ensures { (1 ≤ result) × (result ∣ a) × (result ∣ b) }
{
    let mut x = a;
    let mut y = b;
    while y != 0 {
        let rest = x % y;
        x = y;
        y = rest;
    }
    x
}

// The utilisation with a task more that needs c of every p, rounded down to a number of parts of which c times as
// many fit.
pub fn with_rounded(s: Utilisation, c: u64, p: u64, cap: u64) -> Utilisation
    requires { SumFits s c p cap }
    ensures { WithTask s c p cap result }
{
    let unit = wide_rounded_up(s.whole, u64::MAX / c);
    let whole = wide_rounded_up(s.whole, unit);
    let kept = s.part / unit;
    let added = c * whole / p;
    Utilisation {
        part: kept + added,
        whole,
    }
}

// The utilisation with a task more that needs c of every p: the exact sum while that has at most cap parts.
pub fn with_task(s: Utilisation, c: u64, p: u64, cap: u64) -> Utilisation
    requires { SumFits s c p cap }
    ensures { WithTask s c p cap result }
{
    let divisor = common_divisor(s.whole, p);
    let times = p / divisor;
    if cap / times < s.whole {
        return with_rounded(s, c, p, cap);
    }
    let kept = s.part * times;
    let added = c * (s.whole / divisor);
    Utilisation {
        part: kept + added,
        whole: s.whole * times,
    }
}

// A utilisation that the tasks above the equation's task need at least, in at most cap parts.
pub fn utilisation_above(equation: &Equation, cap: u64) -> Utilisation
    requires { (1 ≤ cap) × (cap < 2 ^ 63) }
    ensures { UtilisationOf (tasks_above equation.now.times.now.table.now equation.now.task) cap result }
{
    let times = equation.times;
    let mut s = Utilisation { part: 0, whole: 1 };
    for k in equation.task.0 as usize + 1..times.table.tasks as usize {
        if s.whole <= s.part {
            return s;
        }
        let Timing { execution, period } = times.timings[k];
        s = with_task(s, execution, period, cap);
    }
    s
}
