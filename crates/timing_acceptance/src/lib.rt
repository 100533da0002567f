// The reader's entry whole, 1 to 11: the table with its response times and its jobs; and the job list.
#![tactic(auto)]

pub mod entries;
pub mod job_list;
