// A line of a text read: its words and numerals, its form, what it says.
#![tactic(auto)]

pub mod line_forms;
pub mod line_reading;
pub mod numerals;
