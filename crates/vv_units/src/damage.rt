//! What is wrong with a disk or an image.

/// A disk failed at a read, or at a write or a sync. Its counts of faults show it.
#[derive(Clone, Copy, Debug, PartialEq, Eq)]
pub enum DiskFault {
    Read,
    Write,
}

/// A part of an image, in the order in which they are looked at.
#[derive(Clone, Copy, Debug, PartialEq, Eq)]
pub enum Part {
    Gate,
    Header,
    Length,
    Area,
    Rule,
    Slot,
    Record,
}

/// The first thing that is wrong with an image: in which part, at which place, and what was found there.
#[derive(Clone, Copy, Debug, PartialEq, Eq)]
pub struct Damage {
    pub part: Part,
    pub place: u64,
    pub found: u64,
}
