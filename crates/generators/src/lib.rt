// Generators, and banks of them.
#![tactic(auto)]

pub mod bank;
pub mod generator;
pub mod pile;
pub mod selfloop;
