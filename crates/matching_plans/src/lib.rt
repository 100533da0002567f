// From an order to a plan: the order run once more with its rounds noted, the plan written; and the entry.
#![tactic(auto)]

pub mod columns;
pub mod entries;
pub mod tracing;

use order_states::State;
use plan::Round;
use plan_marks::{Marks, STORES};

// Where a traced order stands: its state, its round, the marks of its steps and the guesses so far.
#[derive(Clone, Copy)]
pub struct Trace {
    pub state: State,
    pub round: Round,
    pub marks: Marks,
    pub guesses: [u8; STORES],
}
