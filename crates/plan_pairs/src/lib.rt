// The round rules of pairs of jobs, numbers 43 and 44.
#![tactic(auto)]

pub mod pair_rules;
pub mod pairs;
