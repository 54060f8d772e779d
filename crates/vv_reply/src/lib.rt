//! Replies, and the lines that are written for them.
#![tactic(auto)]

mod answers;
mod buffer;
mod fields;
mod laws;
mod lists;
mod names;
mod refusals;
mod reply;

pub use buffer::ReplyBuffer;
pub use laws::the_names_of_every_reply_rise;
pub use reply::{Answer, BitList, Refusal, Reply, ScsiReply};

#[cfg(test)]
mod tests;
