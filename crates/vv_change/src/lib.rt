//! What a record of the journal does to the tables in memory: its memory is taken first, and then it is done.
#![tactic(auto)]

mod doing;
mod giving_up;
mod preparing;
mod room;

pub use doing::apply;
pub use giving_up::give_up;
pub use preparing::prepare;
pub use room::Room;
