// The words that the definitions of every section use: lists, checks and texts, with their laws. It names nothing of
// document 01.
#![tactic(auto)]

pub mod bytes;
pub mod characters;
