// The sizes of a line's walks, over any bank.
#![tactic(auto)]

pub mod sizes;
