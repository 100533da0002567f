// A table's text written: one line, and all of them.
#![tactic(auto)]

pub mod all_lines;
pub mod one_line;
