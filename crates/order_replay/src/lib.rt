// The replay of an order, numbers 30 to 34: how a state ends, the replay of bytes, the entry.
#![tactic(auto)]

pub mod ends;
pub mod entries;
pub mod replaying;
