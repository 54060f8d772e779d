//! The bytes of chunks: each place of the pool has its own range of the disk.
#![tactic(auto)]

mod chunk;
#[cfg(test)]
mod tests;

pub use chunk::{read_chunk, read_part, write_chunk};
