// What is reported of a line file.
#![tactic(auto)]

pub mod verdict;
pub mod worked;
