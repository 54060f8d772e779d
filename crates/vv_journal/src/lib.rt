//! The journal of a disk image: tables, and records behind them. A crash at any moment leaves what stood before a call
//! or what stands after it.
#![tactic(auto)]

mod append;
mod fresh;
mod half;
mod journal;
mod laws;
mod layout;
mod numbers;
mod opening;
mod reading;
mod slot;
mod steps;
mod switch;

pub use fresh::format;
pub use journal::Journal;
pub use laws::{
    a_bad_slot_leaves_no_log, a_closed_slot_ends_the_records, a_faulty_image_holds_no_log,
    payloads_are_read_in_order,
};
pub use layout::disk_len;
pub use opening::{LogHead, OpenFault, open_log};
pub use reading::SlotRead;
pub use switch::Switching;

#[cfg(test)]
mod tests;
