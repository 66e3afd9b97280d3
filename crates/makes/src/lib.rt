// The makes of generators: each is read from the bytes of a body, and is a generator.
#![tactic(auto)]

mod bytes;
mod fits;
pub mod generator;
pub mod law;
pub mod make;
#[cfg(test)]
mod tests;
