//! The array on a disk: made, opened, and served call by call, so that every stop leaves an array from before a call or after it.
#![tactic(auto)]

mod area;
mod array;
mod block_reads;
mod chunks;
mod copying;
mod ended;
mod executing;
mod fault;
mod formatting;
mod journaling;
mod opening;
mod payloads;
mod putting;
mod reading;
mod recording;
mod reopening;
mod serving;
mod slots;
mod switching;
mod telling;
mod writing;

pub use array::Array;
pub use executing::Served;
pub use fault::ArrayFault;

#[cfg(test)]
mod tests;
