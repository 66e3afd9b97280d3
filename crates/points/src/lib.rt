// The examination of a line by the ten points, over any bank, in lent work cells.
#![tactic(auto)]

mod alphabets;
mod answers;
mod condition;
mod conditions;
pub mod examination;
mod fitted;
mod fitting;
mod flags;
mod judged;
mod levels;
mod loss;
mod marking;
mod numbers;
mod offer;
mod whole;
