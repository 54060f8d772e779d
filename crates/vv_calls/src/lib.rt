//! The calls of an array's clients, read from lines of JSON.
#![tactic(auto)]

mod call;
mod copies;
#[cfg(test)]
mod field_tests;
mod fields;
mod forms;
mod hexadecimal;
mod hosts;
mod line;
mod lists;
mod payload;
mod queries;
#[cfg(test)]
mod tests;
mod volumes;

pub use call::{Call, EndpointList, LineFault, ScsiCall};
pub use line::{LINE_LIMIT, read_line};
