// Lines: one that passed the check, and one that runs.
#![tactic(auto)]

pub mod calls;
pub mod cells;
pub mod check;
pub mod passed;
pub mod perform;
pub mod queue;
pub mod running;
mod steps;
