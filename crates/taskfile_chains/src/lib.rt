// Chains of records, numbers 2 to 6: an index followed, a chain, the whole walk of records.
#![tactic(auto)]

pub mod chains;
pub mod every_record;
pub mod links;
