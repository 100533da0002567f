// The table that the lines of a text spell.
#![tactic(auto)]

pub mod line_parts;
pub mod text_reader;
