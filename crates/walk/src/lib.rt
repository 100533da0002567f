// The walk: the first complete order that fails, if there is one. Document 01, "Orders of steps" and "Numbers by who
// causes them".
#![tactic(auto)]

use taskfile::limits::{JOBS, VARIABLES};

// Whether some complete order fails, by the number that a caller in C reads. A walk that was refused has no verdict.
#[derive(Clone, Copy)]
pub enum Verdict {
    None = 0,
    Holds = 1,
    Fails = 2,
}

// What the walk's entry answers: number and place, the verdict and the count of moves; of a walk that fails
// also the first failing order's length, end store and failed jobs.
#[derive(Clone, Copy)]
pub struct WalkAnswer {
    pub number: u8,
    pub place: u32,
    pub verdict: Verdict,
    pub count: u64,
    pub length: u32,
    pub store: [u8; VARIABLES],
    pub failed: [bool; JOBS],
}
