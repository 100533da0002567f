// Instructions: what a job keeps of its own while it runs, and what one instruction does. Document 01, "Instructions".
#![tactic(auto)]

use taskfile::limits::{INSTRUCTIONS, JOBS, LOCKS, REGISTERS, VARIABLES};

// The position of a running job's next instruction is below this.
pub const POSITIONS: u16 = INSTRUCTIONS as u16;

// A job's own state: the position of its next instruction, registers 0 to 3, and what it holds of each lock, as
// `Held` says.
#[derive(Clone, Copy)]
pub struct Local {
    pub next: u16,
    pub registers: [u8; REGISTERS],
    pub held: [u8; LOCKS],
}

// What an instruction leaves: the job's own state, the store, whether an assertion failed, whether the job
// has ended.
#[derive(Clone, Copy)]
pub struct Effect {
    pub local: Local,
    pub store: [u8; VARIABLES],
    pub failed: bool,
    pub ended: bool,
}

// How an order or a plan ends: with the store left and the failed jobs.
#[derive(Clone, Copy)]
pub struct End {
    pub store: [u8; VARIABLES],
    pub failed: [bool; JOBS],
}

// What the replay of an order, the check of a plan and both conversions answer: number and place, the end
// store, the failed jobs, and how many bytes were written to the lent buffer.
#[derive(Clone, Copy)]
pub struct RunAnswer {
    pub number: u8,
    pub place: u32,
    pub store: [u8; VARIABLES],
    pub failed: [bool; JOBS],
    pub length: u32,
}
