// From a plan to an order: the plan's steps, round by round and in each round job by job; and the entry.
#![tactic(auto)]

pub mod entries;
pub mod rows;
