// The line file: a chart of events, and the bodies of the line's components.
#![tactic(auto)]

pub mod bank;
pub mod chart;
mod components;
mod contents;
