// Round plans: a round's number. Document 01, "Round plans".
// A round's number, from 0. It counts rounds, and never jobs or tasks.
#![tactic(auto)]

#[derive(Clone, Copy)]
pub struct Round(pub u8);
