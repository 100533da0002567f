// What a job keeps of its own: its state at its start, its held locks, the values that its next instruction offers;
// and what runs answer.
#![tactic(auto)]

pub mod answers;
pub mod held;
pub mod registers;
pub mod run_answers;
pub mod values;
