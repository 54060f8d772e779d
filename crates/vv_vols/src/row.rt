//! The rows of a shelf.

use crate::head::Head;
use vv_entries::Entry;
use vv_map::{PageRoom, PagedMap};
use vv_units::VolumeId;

/// A volume: its head, its list, and how many chunks of it are allocated.
pub(crate) struct VolumeRow {
    pub(crate) id: VolumeId,
    pub(crate) head: Head,
    pub(crate) map: PagedMap<Entry>,
    pub(crate) allocated: u32,
}

/// A list that a task holds: its number, its list, the index of each entry, and how many of its entries are allocated. An
/// image is the list that a volume had; any other has its pages for itself.
pub(crate) struct HeldRow {
    pub(crate) number: u64,
    pub(crate) map: PagedMap<Entry>,
    pub(crate) indexes: HeldIndexes,
    pub(crate) is_image: bool,
    pub(crate) allocated: u32,
}

/// The indexes of the entries of a held list: all from 0 on, or listed ones.
#[derive(Drop)]
pub(crate) enum HeldIndexes {
    FromZero,
    Listed(ListedIndexes),
}

/// The indexes of the entries of a held list that grows, with memory for as many as they have room for, and for the pages
/// of those entries.
#[derive(Drop)]
pub(crate) struct ListedIndexes {
    pub(crate) indexes: Vec<u32>,
    pub(crate) room: PageRoom<Entry>,
}
