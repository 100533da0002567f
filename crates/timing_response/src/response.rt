// The response times of a table's tasks, or number 10 at the lowest task that has none.
ghost use Rattle.std.specs.Prelude.{◌≡◌, true, ◌<◌};
ghost use Rattle.notation.specs.Checked.{mapped};
ghost use Rattle.notation.specs.Lists.{padded};
ghost use Rattle.taskfile.specs.Code.Refusals.{outcome};
ghost use Rattle.taskfile.specs.Judgement.{task_numbers};
ghost use Rattle.timing.specs.Accepted.{responses_of};
ghost use Rattle.timing.specs.Response.{tasks_above, response_of};
ghost use Rattle.timing.specs.Code.ResponseParts.{Timeable, bound_of, AllFit};

use crate::scheduling_points::{fits_alone, search};
use taskfile::limits::TASKS;
use taskfile::refusals::{Refusal, Refused};
use taskfile::{Site, Table, Task};
use timing::TaskTimes;
use timing_demands::blocking::blocking_of;
use timing_demands::demands::{Equation, times_of};
use timing_iteration::iteration::{iterate, iterate_some};
use timing_iteration::utilisation::utilisation_above;
use timing_rounding::wide_rounded_up;

// A utilisation has so few parts that an execution time of them stays below 2^63.
const MOST_PARTS: u64 = u64::MAX / 2;

// How many turns of the iteration come before the search by halving.
const SHORT_ITERATION: u8 = 16;

// The response time of task i, if it is at most the period. No interval shorter than the start can be a solution:
// each solution R has R × (whole − part) ≥ own × whole, where the tasks above need part of whole.
// Where `fit` says that the tasks above all meet their periods where none waits, what a short iteration leaves is
// found by halving.
pub fn response_of(times: &TaskTimes, i: Task, fit: bool) -> Option<u64>
    requires { (i.0 < times.now.table.now.tasks) × (fit ≡ true → AllFit (tasks_above times.now.table.now i)) }
    ensures { result ≡ bound_of (response_of times.now.table.now i) }
{
    let own = times.timings[i.0 as usize].execution + blocking_of(times.table, i);
    let equation = Equation {
        times,
        task: i,
        own,
    };
    let s = utilisation_above(&equation, MOST_PARTS / own);
    if s.whole <= s.part {
        return None;
    }
    let start = wide_rounded_up(own * s.whole, s.whole - s.part);
    if fit {
        let higher = iterate_some(&equation, start, SHORT_ITERATION);
        return search(&equation, higher);
    }
    iterate(&equation, start)
}

// The response times of all tasks, or 10 at the lowest task that has none. From the highest task down, so that
// whether the tasks above all meet their periods where none waits is known.
pub fn responses_of(t: &Table) -> Result<[u64; TASKS], Refused<Site>>
    requires { Timeable t.now }
    ensures { outcome result ≡ mapped (padded 8 0) (responses_of t.now (task_numbers t.now)) }
{
    let times = times_of(t);
    let mut responses = [0; TASKS];
    let mut fit = true;
    let mut late = None;
    for i in (0..t.tasks).rev() {
        match response_of(&times, Task(i), fit) {
            Some(r) => responses[i as usize] = r,
            None => {
                late = Some(Task(i));
                fit = fits_alone(&times.timings, t.tasks, Task(i), fit);
            }
        }
    }
    match late {
        Some(i) => Err(Refusal::Overload.at(Site::AtTask(i))),
        None => Ok(responses),
    }
}
