//! Where the bytes of a script come from, and where the bytes of its replies go.
#![tactic(auto)]

mod line_answer;
mod line_reader;
mod memory;
mod standard;
mod streams;

pub use line_answer::Next;
pub use line_reader::LineReader;
pub use memory::{MemSink, MemSource};
pub use standard::{StdSink, StdSource};
pub use streams::{Sink, Source};

#[cfg(test)]
mod line_tests;
#[cfg(test)]
mod tests;
