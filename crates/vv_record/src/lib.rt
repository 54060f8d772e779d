//! The records of a journal as bytes.
#![tactic(auto)]

mod fields;
mod kinds;
mod laws;
mod lists;
mod reading;
mod record;
mod writing;

pub use fields::Fields;
pub use laws::{a_record_that_is_read_is_spelled_so, a_spelled_record_is_read};
pub use lists::{endpoints, needs, offers};
pub use reading::decode;
pub use record::{
    ChunkCopy, ChunkRange, CopyList, EndpointList, Event, PlaceList, RangeList, Record, RecordFault,
};
pub use writing::encode;

#[cfg(test)]
mod tests;
