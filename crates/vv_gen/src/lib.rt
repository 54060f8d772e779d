//! Scripts for trying an array, each made from a number.
#![tactic(auto)]

mod line;
mod numbers;
mod script;
#[cfg(test)]
mod tests;

pub use line::Line;
pub use script::generate;
