// Response times and jobs: what a job is, what each entry has of a file, and the job list. Document 01, "Response times
// and jobs" and "Numbers by who causes them".
#![tactic(auto)]

ghost use Rattle.std.specs.Prelude.{◌≤◌, ◌<◌};
ghost use Rattle.taskfile.specs.Code.JudgingParts.{Shaped};
ghost use Rattle.timing.specs.Accepted.{most_jobs};
ghost use Rattle.timing.specs.Code.ResponseParts.{TimesOf};

use taskfile::limits::{JOBS, TASKS};
use taskfile::{Table, Task};

// A job's number, by task, then by arrival, from 0.
#[derive(Clone, Copy)]
pub struct Job(pub u8);

// The number of a job in the list: below 32.
#[derive(Clone, Copy)]
pub struct ListedJob {
    pub number: u8,
    pub ghost below: { number < most_jobs },
}

// A job's record in the job list: its task, its arrival and its latest finish. Arrival and response time
// are below 2^32 each, so their sum wants more than 32 bits. A caller of the C interface lends such records.
#[repr(C)]
#[derive(Clone, Copy)]
pub struct JobRecord {
    pub task: Task,
    pub arrival: u64,
    pub latest: u64,
}

// The jobs of a table, the first `count` of the 32.
#[derive(Clone, Copy)]
pub struct JobList {
    pub count: u8,
    pub jobs: [JobRecord; JOBS],
}

// A table with its job list, as every entry has them of a file that is accepted: the table's arrays are full, and the
// list has no more jobs than its array.
#[derive(Clone, Copy)]
pub struct ListedTable {
    pub table: Table,
    pub list: JobList,
    pub ghost shaped: { Shaped table },
    pub ghost few: { list.count ≤ most_jobs },
}

// What a task asks of the processor: so much time in each of its periods.
#[derive(Clone, Copy)]
pub struct Timing {
    pub execution: u64,
    pub period: u64,
}

// A table whose times can be worked out, and what each of its tasks asks of the processor, by task number.
#[derive(Clone, Copy)]
pub struct TaskTimes<'a> {
    pub table: &'a Table,
    pub timings: [Timing; TASKS],
    pub ghost times_of: { TimesOf table.now timings },
}

// A fraction of the processor, part of whole, that tasks need at least.
#[derive(Clone, Copy)]
pub struct Utilisation {
    pub part: u64,
    pub whole: u64,
}

// What every entry has of a file that is accepted: its table, the response times and the jobs.
#[derive(Clone, Copy)]
pub struct AcceptedFile {
    pub table: Table,
    pub responses: [u64; TASKS],
    pub list: JobList,
}

// What the reader's entry answers: number and place, the response times (0 past the last task) and the
// number of jobs.
#[derive(Clone, Copy)]
pub struct ReadAnswer {
    pub number: u8,
    pub place: u32,
    pub responses: [u64; TASKS],
    pub jobs: u8,
}

// What the job list's entry answers: number and place, and how many records it wrote.
#[derive(Clone, Copy)]
pub struct ListAnswer {
    pub number: u8,
    pub place: u32,
    pub jobs: u8,
}
