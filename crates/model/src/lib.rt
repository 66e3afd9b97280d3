// The words that every other crate uses: replies, kinds of events, sets of events, components, faults.
#![tactic(auto)]

pub mod component;
pub mod fault;
pub mod kind;
pub mod next;
pub mod set;
