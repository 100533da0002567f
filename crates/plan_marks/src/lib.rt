// Round plans, as their code keeps them: the steps of each job and the stores of the rounds, in arrays of fixed length.
#![tactic(auto)]

ghost use Rattle.plan_marks.specs.Code.IsMarks.{IsMarks};

pub mod rounds;

use machine::End;
use plan::Round;
use taskfile::limits::{INSTRUCTIONS, JOBS, VARIABLES};

// Steps of all jobs, at most.
pub const STEPS: usize = INSTRUCTIONS * JOBS;

// ---- A plan in bytes.

// Where the guesses start, after the number of jobs.
pub const GUESSES: usize = 1;

// Bytes of a step: its round and its value.
pub const STEP_BYTES: usize = 2;

// Bytes of a plan, at most: the room that a buffer has for one.
pub const PLAN_ROOM: usize = GUESSES + VARIABLES * JOBS + STEP_BYTES * STEPS;

// ---- The stores of the rounds, eight bytes each.

pub const STORES: usize = VARIABLES * JOBS;

// ---- The marks of the jobs' steps, sixteen places for each job.

// A step that a job has made: its round, its value, and the job's priority after it.
#[derive(Clone, Copy)]
pub struct StepMark {
    pub round: Round,
    pub value: u8,
    pub priority: u8,
}

// How many steps each job has, and their marks: that of step n of job x stands at 16 * x + n.
#[derive(Clone, Copy)]
pub struct Marks {
    pub counts: [u8; JOBS],
    pub steps: [StepMark; STEPS],
    pub ghost is_marks: { IsMarks counts steps },
}

// ---- What the functions yield.

// What a job's run comes to: the offset after its steps, and whether an assertion of it failed.
#[derive(Clone, Copy)]
pub struct JobRan {
    pub offset: usize,
    pub failed: bool,
}

// What the run of all jobs comes to: the offset after the steps, and the failed jobs.
#[derive(Clone, Copy)]
pub struct JobsRan {
    pub offset: usize,
    pub failed: [bool; JOBS],
}

// What a plan's run comes to: the failed jobs, the stores left in the rounds, and the marks of the steps.
#[derive(Clone, Copy)]
pub struct PlanRan {
    pub failed: [bool; JOBS],
    pub stores: [u8; STORES],
    pub marks: Marks,
}

// What the check of a legal plan comes to: its end, and the marks of the steps.
#[derive(Clone, Copy)]
pub struct PlanChecked {
    pub end: End,
    pub marks: Marks,
}
