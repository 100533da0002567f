// The table that the chains of a file spell, and the record of each site in it.
#![tactic(auto)]

pub mod sites;
pub mod tables;
