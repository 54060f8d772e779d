//! What a logical unit answers to a SCSI command, before any block is moved.
#![tactic(auto)]

mod actions;
mod answers;
mod attentions;
mod commands;
mod decision;
mod senses;
mod short_bytes;
#[cfg(test)]
mod tests;
mod unit;

pub use attentions::Attentions;
pub use decision::decide;
pub use short_bytes::ShortBytes;
pub use unit::{Action, Unit};
