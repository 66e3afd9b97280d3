// The guide's answer for one state of a line, over any bank.
#![tactic(auto)]

pub mod advice;
