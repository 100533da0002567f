// The check of a plan: its run, the rules of pairs, the guesses; and the entry.
#![tactic(auto)]

pub mod entries;
pub mod legality;
