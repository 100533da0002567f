// Response times, number 10: by scheduling points, or by iteration from a lower bound.
#![tactic(auto)]

pub mod response;
pub mod scheduling_points;
