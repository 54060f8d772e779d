//! Disks: what a read gives, what a crash may leave, and two disks that keep to it.
#![tactic(auto)]

mod disk;
mod file_disk;
mod mem_disk;
mod plan;
mod record;
mod span;

pub use disk::Disk;
pub use file_disk::{FileDisk, MakeFault};
pub use mem_disk::{Keep, MemDisk};

#[cfg(test)]
mod tests;
