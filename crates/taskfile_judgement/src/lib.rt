// A table judged as a whole, numbers 7 to 9.
#![tactic(auto)]

pub mod faults;
pub mod judgement;
