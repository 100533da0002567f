// The run of a plan, numbers 40 to 42: one step, one job, the whole plan.
#![tactic(auto)]

pub mod job_runs;
pub mod plan_steps;
pub mod whole_runs;
