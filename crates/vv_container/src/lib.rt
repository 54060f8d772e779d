//! The storage containers of an array, as one table that takes all its memory when it is made.
#![tactic(auto)]

mod container;
mod row;
mod rows;
mod table;
#[cfg(test)]
mod tests;

pub use container::{Container, OverQuota};
pub use table::ContainerTable;
