//! Tables in memory that are made of the raw tables of an image's area, and a reader of an area that ends with them.
#![tactic(auto)]

mod containers;
mod heads;
mod hosts;
mod reading;
mod restoring;
mod running;
mod tasks;
mod volumes;

pub use reading::{TablesReader, read_tables};
pub use restoring::restore;

#[cfg(test)]
mod tests;
