//! Copies of names, and of lists of them: each takes memory, and is the same as what it copies.
#![tactic(auto)]

mod copies;
#[cfg(test)]
mod tests;

pub use copies::{copy_endpoints, copy_key, copy_needs, copy_note, copy_offers};
