//! The durable tables of an array in memory: its volumes, containers, bindings and tasks, and the lists of running tasks.
#![tactic(auto)]

mod charges;
mod clone_room;
mod copied;
mod counts;
mod ended;
mod filling;
mod fresh;
mod giving;
mod hosts;
mod made;
mod piece_counts;
mod putting;
mod questions_for_judge;
mod questions_for_spelling;
mod restored;
mod rows;
mod space;
mod started;
mod started_copies;
mod tables;
mod tasks;
#[cfg(test)]
mod tests;
mod turn_room;
mod turned;
mod unmapping;
mod volumes;
mod write_room;
mod written;

pub use clone_room::CloneRoom;
pub use giving::GivenPiece;
pub use restored::Restored;
pub use tables::Tables;
pub use turn_room::TurnRoom;
pub use write_room::WriteRoom;
