//! The bitmaps of volumes: which chunks are allocated, and which are unshared against a base. No bytes are compared, only
//! stamps, and where both volumes share a page not even these.
#![tactic(auto)]

mod bits;
mod part;
#[cfg(test)]
mod tests;

pub use bits::{allocated, unshared, unshared_count};
