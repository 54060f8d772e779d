//! The volumes of an array and the lists that its tasks hold.
#![tactic(auto)]

mod head;
mod held;
mod held_rows;
mod laws;
mod map_full;
mod map_room;
mod row;
mod rows;
mod shelf;
mod shelf_close;
mod shelf_copies;
mod shelf_held;
mod shelf_pages;
mod shelf_places;
#[cfg(test)]
mod tests;

pub use head::Head;
pub use held::Held;
pub use laws::{
    a_copied_volume_shares, a_deletion_shares, a_dropped_list_shares, a_fresh_place_shares,
    a_grown_volume_shares, a_held_list_shares, a_made_volume_shares, a_reverted_volume_shares,
    an_entry_that_stands_shares, an_unmapped_chunk_shares, used_places_are_the_named_and_the_fresh,
};
pub use map_full::MapFull;
pub use map_room::MapRoom;
pub use shelf::Shelf;
