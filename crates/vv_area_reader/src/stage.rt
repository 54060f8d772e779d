//! What comes next in the reading of an area.

use vv_area::{EntryList, PieceList, RawClone, RawVolume};
use vv_units::TaskId;

/// What comes next in the reading of an area. `left` is how many items of a list are left, and `next` the place of the
/// task that comes next.
#[derive(Drop)]
pub(crate) enum Stage {
    /// Nothing was read.
    Start,
    Containers {
        left: u8,
    },
    Volumes {
        left: u16,
    },
    /// The entries of a volume, and then so many volumes.
    VolumeEntries {
        head: RawVolume,
        entries: EntryList,
        left: u32,
        volumes: u16,
    },
    Contexts {
        left: u8,
    },
    Bindings {
        left: u16,
    },
    Tasks {
        left: u16,
    },
    /// What the tasks from this place on hold, if they run.
    Runs {
        next: usize,
    },
    /// The image of a running clone.
    Image {
        head: RawClone,
        entries: EntryList,
        left: u32,
        next: usize,
    },
    /// The target of a running clone.
    Target {
        head: RawClone,
        entries: EntryList,
        left: u32,
        next: usize,
    },
    /// The pieces of a running copy.
    Pieces {
        number: TaskId,
        pieces: PieceList,
        left: u32,
        next: usize,
    },
}
