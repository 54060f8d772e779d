//! Failures that have nothing to tell but that they came.

/// A source, a sink or a disk failed. Its count of faults shows it.
#[derive(Clone, Copy, Debug, PartialEq, Eq)]
pub struct Failed;

/// There was no memory.
#[derive(Clone, Copy, Debug, PartialEq, Eq)]
pub struct NoMemory;
