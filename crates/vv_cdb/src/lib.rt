//! Command descriptor blocks of SCSI, parameter lists of UNMAP, and sense data.
#![tactic(auto)]

mod cdb;
mod command;
mod sense;
#[cfg(test)]
mod tests;
mod unmaps;

pub use cdb::decode;
pub use command::{Command, data_len};
pub use sense::{Sense, sense_bytes};
pub use unmaps::Unmaps;
