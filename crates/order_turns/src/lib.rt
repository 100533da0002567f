// Whose turn it is: the lent program, who must wait, who may start, the turn of an order's byte.
#![tactic(auto)]

pub mod precedence;
pub mod programs;
pub mod starts;
pub mod turns;
