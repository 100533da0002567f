// Response times by iteration, from a lower bound of every solution: the utilisation, the quotients kept from turn to
// turn, the iteration.
#![tactic(auto)]

pub mod iteration;
pub mod quotients;
pub mod utilisation;
