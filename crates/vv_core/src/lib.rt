//! The core of an array: its tables, queues and attentions in memory. What a call is planned to do, and what a call with its
//! event, a record of a log, a restart and an interruption do to them; and its tables as the area of an image.
#![tactic(auto)]

mod area;
mod array_core;
mod attending;
mod doing;
mod entries;
mod event_forms;
mod fitting;
mod judging;
mod places;
mod placing;
mod planned;
mod planning;
mod planning_changes;
mod planning_commands;
mod reader;
mod replay;
mod replaying;
mod restarting;
mod room;
mod settling;
mod step;
#[cfg(test)]
mod tests;
mod turns;

pub use array_core::Core;
pub use planned::{Fill, Planned};
pub use reader::AreaReader;
pub use replay::Replayed;
pub use room::Room;
