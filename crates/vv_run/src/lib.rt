//! The top call: an image is made or opened, and a script's lines are answered one after another, each before the next is read;
//! or a script is generated, and written or served.
#![tactic(auto)]

mod beginning;
mod buffers;
mod generating;
mod line;
mod loading;
mod reading;
mod serving;
mod status;
mod summary;
mod tally;
#[cfg(test)]
mod tests;
mod top_call;
mod walking;
mod words;
mod writing;

pub use buffers::Buffers;
pub use line::serve_line;
pub use serving::serve_script;
pub use status::Status;
pub use top_call::run;
pub use words::{Wanted, disk_wanted};
