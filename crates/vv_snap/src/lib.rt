//! Whole copies of volumes: snapshots, fast clones, and volumes that go back to a snapshot.
#![tactic(auto)]

mod copies;
mod heads;
#[cfg(test)]
mod tests;

pub use copies::{fast_clone, revert, snapshot};
pub use heads::copy_head;
