//! Lists of entries over counted pages, together with the pool whose places the entries name.
#![tactic(auto)]

mod entry;
mod entry_store;
mod places;
#[cfg(test)]
mod tests;
mod writing;

pub use entry::Entry;
pub use entry_store::EntryStore;
