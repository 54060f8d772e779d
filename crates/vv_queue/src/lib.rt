//! The commands that a host has submitted and that are not served yet.
#![tactic(auto)]

mod queue;

pub use queue::{HostQueue, QueueFull};

#[cfg(test)]
mod tests;
