//! The area of an image: its tables as bytes, and the nine rules that tables keep.
#![tactic(auto)]

mod bindings;
mod fault;
mod laws;
mod lists;
mod metadata;
mod rows;
mod rules;
mod runs;
mod tables;
mod tasks;

pub use bindings::binding;
pub use fault::AreaFault;
pub use laws::{
    a_piece_is_cut, a_spelling_belongs_to_one_table, a_spelling_has_its_length,
    items_have_their_lengths, items_of_one_length_have_their_places, sections_have_their_lengths,
    spelled_tables_are_read, spelled_tables_have_their_form, tables_that_are_read_are_spelled_so,
    well_formed_tables_fit_an_area,
};
pub use lists::{container, context, reverted, volume_kind, volume_number};
pub use metadata::{entry, metadata_pairs};
pub use rows::{
    ChunkEntry, EntryList, PairRows, PieceList, RawBinding, RawClone, RawContainer, RawContext,
    RawCopy, RawJob, RawPiece, RawTask, RawVolume,
};
pub use runs::{is_clone, is_running, piece};
pub use tables::RawTables;
pub use tasks::task;

#[cfg(test)]
mod rule_tests;
#[cfg(test)]
mod tests;
