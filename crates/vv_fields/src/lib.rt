//! Fields of bytes, big endian: records and tables of a disk image are written and read by them.
#![tactic(auto)]

mod laws;
mod reader;
mod writer;

pub use laws::{
    a_number_has_its_length, a_number_that_is_read_stands_there, a_written_number_is_read,
    nothing_is_read_where_too_few_are_left, taken_bytes_stand_there, written_bytes_are_taken,
};
pub use reader::Reader;
pub use vv_units::NoMemory;
pub use writer::Writer;

#[cfg(test)]
mod tests;
