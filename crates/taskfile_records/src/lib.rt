// Records of a task file: their bytes, and number 4 at one record.
#![tactic(auto)]

pub mod fields;
pub mod records;
