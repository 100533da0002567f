// What a task needs: its own time, the time of the tasks above it, and its wait for a lower task's lock.
#![tactic(auto)]

pub mod blocking;
pub mod demands;
