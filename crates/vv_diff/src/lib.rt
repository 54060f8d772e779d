//! Differences between volumes, as pieces that a task holds and puts.
#![tactic(auto)]

mod differing;
mod pieces;
mod putting;
#[cfg(test)]
mod tests;

pub use differing::difference;
pub use pieces::Pieces;
pub use putting::{apply, forget};
pub use vv_pool::Steps;
