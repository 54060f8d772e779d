//! What a record says, and why bytes are no record.
use std::alloc::AllocFailed;
use vv_units::{
    ContainerId, EndpointId, HostId, ItemList, Key, NeedList, NoMemory, Note, OfferList, Place,
    Secondary, TaskId, VolumeId, VvolType,
};

/// The places of a write's chunks, in order.
pub type PlaceList = ItemList<Place>;

/// The ranges of an unmap, in order.
pub type RangeList = ItemList<ChunkRange>;

/// The endpoints of a host, in order.
pub type EndpointList = ItemList<EndpointId>;

/// The copies of a turn, in order.
pub type CopyList = ItemList<ChunkCopy>;

/// Chunks one behind the other: the index of the first, and how many they are.
#[derive(Clone, Copy, Debug, PartialEq, Eq)]
pub struct ChunkRange {
    pub first_chunk: u32,
    pub chunks: u32,
}

/// A chunk that was copied: its index, and the place of the copy.
#[derive(Clone, Copy, Debug, PartialEq, Eq)]
pub struct ChunkCopy {
    pub index: u32,
    pub place: Place,
}

/// What changed an array durably, with the places that new chunks took.
#[derive(Debug, Drop)]
pub enum Event {
    MakeContainer {
        quota: u64,
        offers: OfferList,
    },
    MakeVolume {
        container: ContainerId,
        vtype: VvolType,
        chunks: u32,
        needs: NeedList,
    },
    DeleteVolume {
        volume: VolumeId,
    },
    /// The volume has so many chunks from then on.
    GrowVolume {
        volume: VolumeId,
        chunks: u32,
    },
    /// Where there is no note the key is gone from then on.
    SetMetadata {
        volume: VolumeId,
        key: Key,
        note: Option<Note>,
    },
    Snapshot {
        volume: VolumeId,
    },
    FastClone {
        volume: VolumeId,
    },
    Revert {
        volume: VolumeId,
        snapshot: VolumeId,
    },
    Write {
        volume: VolumeId,
        first_block: u64,
        blocks: u32,
        places: PlaceList,
    },
    Unmap {
        volume: VolumeId,
        ranges: RangeList,
    },
    SetEndpoints {
        host: HostId,
        endpoints: EndpointList,
    },
    Bind {
        host: HostId,
        volume: VolumeId,
    },
    Unbind {
        host: HostId,
        endpoint: EndpointId,
        secondary: Secondary,
    },
    UnbindAll {
        host: HostId,
    },
    StartClone {
        volume: VolumeId,
    },
    StartCopy {
        source: VolumeId,
        base: VolumeId,
        target: VolumeId,
    },
    Turn {
        task: TaskId,
        copies: CopyList,
    },
    Cancel {
        task: TaskId,
    },
}

/// An event of the journal.
#[derive(Debug, Drop)]
pub struct Record {
    /// Whether it is the first event after the journal was opened.
    pub first_after_open: bool,
    pub event: Event,
}

/// Why bytes are not read as a record.
#[derive(Clone, Copy, Debug, PartialEq, Eq)]
pub enum RecordFault {
    /// They are the spelling of no record, as the field at this place shows.
    Bad { at: usize },
    /// There was no memory to read them.
    NoMemory,
}

impl From<NoMemory> for RecordFault {
    ghost use Rattle.std.specs.Prelude.{◌≡◌};
    ghost use Rattle.vv_record.specs.declared.record.RecordFault.TheVariants as fault;

    ghost from_gives = { λ _ e. e ≡ fault.NoMemory };

    fn from(_none: NoMemory) -> RecordFault {
        RecordFault::NoMemory
    }
}

impl<T: Drop> From<AllocFailed<T>> for RecordFault {
    ghost use Rattle.std.specs.Prelude.{◌≡◌};
    ghost use Rattle.vv_record.specs.declared.record.RecordFault.TheVariants as fault;

    ghost from_gives = { λ _ e. e ≡ fault.NoMemory };

    fn from(_none: AllocFailed<T>) -> RecordFault {
        RecordFault::NoMemory
    }
}
