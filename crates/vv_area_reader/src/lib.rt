//! The area of an image read in pieces.
#![tactic(auto)]

mod begun;
mod heads;
mod pieces;
mod reader;
mod stage;
mod steps;

pub use pieces::read_pieces;
pub use reader::RawReader;

#[cfg(test)]
mod tests;
