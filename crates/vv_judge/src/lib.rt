//! How a change is answered over the tables of an array: it is refused, it would change nothing durable, or it is accepted.
#![tactic(auto)]

mod answer;
mod blocks;
mod checks;
mod copies;
mod differences;
mod events;
mod hosts;
mod stamps;
mod tasks;
#[cfg(test)]
mod tests;
mod volumes;

pub use answer::{Refusal, Verdict};
pub use blocks::touched_chunks;
pub use events::{judge, judge_record};
