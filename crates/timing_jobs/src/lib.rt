// The jobs of a table, by task, then by arrival.
#![tactic(auto)]

ghost use Rattle.std.specs.Prelude.{◌≡◌, List, [], ◌++◌, map, ◌+◌, ◌^◌, ◌≤◌, ◌<◌};
ghost use Rattle.notation.specs.Lists.{up_to};
ghost use Rattle.timing.specs.declared.JobRecord.{JobRecord};
ghost use Rattle.timing.specs.Jobs.{jobs_within, job_count, job_of, jobs_of};
ghost use Rattle.timing.specs.Code.JobParts.{job_list_of, WithinPeriods};
ghost use Rattle.timing.specs.Code.ResponseParts.{Timeable};
ghost use Rattle.timing.specs.Accepted.{most_jobs};

use taskfile::limits::{JOBS, TASKS};
use taskfile::{Table, Task, TaskEntry};
use timing::{JobList, JobRecord};
use timing_rounding::rounded_up;

// How many jobs of a task arrive before the window ends.
pub fn jobs_within(window: u32, e: TaskEntry) -> u64
    requires { 1 ≤ e.period }
    ensures { (result ≡ jobs_within window e) × (result < 2 ^ 32) }
{
    rounded_up(
        u64::from(window.saturating_sub(e.arrival)),
        u64::from(e.period),
    )
}

// How many jobs the table has.
pub fn job_total(t: &Table) -> u64
    requires { Timeable t.now }
    ensures { result ≡ job_count t.now }
{
    let mut total = 0;
    for e in &t.entries[..t.tasks as usize] {
        total += jobs_within(t.window, *e);
    }
    total
}

// A list with no job.
pub fn no_jobs() -> JobList
    ensures { result ≡ job_list_of [] }
{
    let none = JobRecord {
        task: Task(0),
        arrival: 0,
        latest: 0,
    };
    JobList {
        count: 0,
        jobs: [none; JOBS],
    }
}

// Adds the first n jobs of task i at the list's end, where `response` is the task's response time.
pub fn add_jobs(list: &mut JobList, i: Task, e: &TaskEntry, response: u64, n: u64)
    requires { (list.old.count + n ≤ most_jobs) × (response ≤ e.now.period) }
    ensures counted { list.new.count ≡ list.old.count + n }
    ensures added { (l : List JobRecord) → list.old ≡ job_list_of l
        → list.new ≡ job_list_of (l ++ map (job_of i e.now response) (up_to n)) }
{
    let first = u64::from(e.arrival);
    let period = u64::from(e.period);
    for k in 0..n {
        let arrival = first + k * period;
        list.jobs[list.count as usize] = JobRecord {
            task: i,
            arrival,
            latest: arrival + response,
        };
        list.count += 1;
    }
}

// All jobs of the table, where `times` are the response times.
pub fn jobs_of(t: &Table, times: &[u64; TASKS]) -> JobList
    requires { Timeable t.now × (job_count t.now ≤ most_jobs) × WithinPeriods t.now times.now }
    ensures { result ≡ job_list_of (jobs_of t.now times.now) }
{
    let mut list = no_jobs();
    for i in 0..t.tasks {
        let e = &t.entries[i as usize];
        let n = jobs_within(t.window, *e);
        add_jobs(&mut list, Task(i), e, times[i as usize], n);
    }
    list
}
