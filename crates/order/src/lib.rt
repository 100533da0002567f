// Orders of steps: an active job. Document 01, "Orders of steps".
#![tactic(auto)]

use machine::Local;
use timing::Job;

// An active job: its number and its own state.
#[derive(Clone, Copy)]
pub struct Frame {
    pub job: Job,
    pub local: Local,
}
