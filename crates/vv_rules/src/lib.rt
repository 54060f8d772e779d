//! What the rules of tables ask of all numbers and of all entries together, told by sorting.
#![tactic(auto)]

mod numbers;
mod pairs;
mod rows;
mod sharing;
mod standing;
mod sums;

pub use numbers::{Numbers, all_rising};
pub use pairs::{Pair, distinct_count, pairs_differ};
pub use rows::{Row, sooner};
pub use sharing::{least_apart, used_count};
pub use standing::StandingEntry;
pub use sums::is_sum_within;

#[cfg(test)]
mod tests;
