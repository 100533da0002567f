// Orders of steps, as their code keeps them: how a state, a program, the times and the wait table stand in arrays of
// fixed length, whose turn it is, and what a replay comes to.
#![tactic(auto)]

pub mod states;

ghost use Rattle.std.specs.Prelude.{◌≤◌};
ghost use Rattle.taskfile.specs.Chains.{most_locks};
ghost use Rattle.order_states.specs.Code.StateBytes.{IsState};

use order::Frame;
use taskfile::Ceilings;
use taskfile::limits::{INSTRUCTIONS, JOBS, MOST_JOBS, MOST_TASKS, TASKS, VARIABLES};

// ---- An order.

// Bytes of an order, at most: the room that a buffer has for one.
pub const ORDER_ROOM: usize = 512;

// The place of the last byte in that room.
pub const LAST_STEP: usize = ORDER_ROOM - 1;

// An order byte is so many times the task, and the value.
pub const VALUES: u8 = 16;

// The highest value.
pub const LAST_VALUE: u8 = VALUES - 1;

// ---- A state in bytes.

// Where the store stands.
pub const STORE_AT: usize = 0;

// Where the first job not yet ended of each task stands.
pub const UNENDED_AT: usize = STORE_AT + VARIABLES;

// Where the flag of each job stands, 1 if it has failed.
pub const FAILED_AT: usize = UNENDED_AT + TASKS;

// Where the number of active jobs stands.
pub const DEPTH_AT: usize = FAILED_AT + JOBS;

// Where the active jobs stand, in the order in which they started.
pub const STACK_AT: usize = 64;

// Bytes of an active job.
pub const FRAME_BYTES: usize = 16;

// Where the held locks stand among them.
pub const HELD_AT: usize = 8;

// Bytes of a state.
pub const STATE_BYTES: usize = STACK_AT + FRAME_BYTES * TASKS;

// A state of an order.
#[derive(Clone, Copy)]
pub struct State {
    pub bytes: [u8; STATE_BYTES],
    pub ghost whole: { IsState bytes },
}

// ---- A table in the arrays that are lent to the steps.

// Bytes of an instruction.
pub const INSTRUCTION_BYTES: usize = 4;

// Bytes of a task's body.
pub const BODY_BYTES: usize = INSTRUCTION_BYTES * INSTRUCTIONS;

// Where the task of each job stands in a program.
pub const OWNERS_AT: usize = BODY_BYTES * TASKS;

// Bytes of a program.
pub const PROGRAM: usize = OWNERS_AT + JOBS;

// Bytes of a wait table: one for each job and task.
pub const WAITS: usize = JOBS * TASKS;

// Where the latest finish of each job stands among the times, after the arrivals.
pub const LATEST_AT: usize = JOBS;

// How many times there are.
pub const TIMES: usize = LATEST_AT + JOBS;

// What is lent to steps: the program, the wait table, the ceilings, and the state that an order starts from.
#[derive(Clone, Copy)]
pub struct Lent {
    pub program: [u8; PROGRAM],
    pub waits: [u8; WAITS],
    pub locks: Ceilings,
    pub start: State,
    pub ghost few: { locks.count ≤ most_locks },
}

// What is lent to the runs of a plan: the program, the times and the ceilings.
#[derive(Clone, Copy)]
pub struct LentTimes {
    pub program: [u8; PROGRAM],
    pub times: [u64; TIMES],
    pub locks: Ceilings,
    pub ghost few: { locks.count ≤ most_locks },
}

// ---- What stands for nothing.

// No task's number.
pub const NO_TASK: u8 = MOST_TASKS;

// No job's number.
pub const NO_JOB: u8 = MOST_JOBS;

// No move's byte.
pub const NO_MOVE: u8 = VALUES * MOST_TASKS;

// Whose turn a byte of a task is: the job that steps, and how many active jobs are under it.
#[derive(Clone, Copy)]
pub struct Due {
    pub frame: Frame,
    pub under: u8,
}
