//! The items of raw tables. Contracts see each as the item of the array's state that it stands for.
use std::marker::Model;
use vv_record::EndpointList;
use vv_units::{
    ContainerId, EndpointId, HostId, ItemList, Key, NeedList, Note, OfferList, Place, Secondary,
    TaskId, TaskState, VolumeId, VolumeKind, VvolType,
};

/// The metadata of a volume: keys and notes, in order.
pub type PairRows = ItemList<(Key, Note)>;

/// The entries of a list of chunks, in order.
pub type EntryList = ItemList<ChunkEntry>;

/// The pieces of a difference copy, in order.
pub type PieceList = ItemList<RawPiece>;

/// A storage container.
#[derive(Debug, Drop)]
pub struct RawContainer {
    pub number: ContainerId,
    pub quota: u64,
    pub offers: OfferList,
}

impl Model for RawContainer {
    ghost use Rattle.vv_flat.specs.State.{Container};

    ghost Value = { Container };

    ghost view = { λ a. record { number = a.number.0; quota = a.quota; offers = a.offers } };
}

/// Where a chunk's bytes are, and its stamp.
#[derive(Debug, Drop)]
pub struct ChunkEntry {
    pub place: Option<Place>,
    pub stamp: u64,
}

impl Model for ChunkEntry {
    ghost use Rattle.vv_flat.specs.Chunks.{Entry};
    ghost use Rattle.vv_area.specs.Places.{place_number};

    ghost Value = { Entry };

    ghost view = { λ a. record { place = place_number a.place; stamp = a.stamp } };
}

/// A volume with its own list of entries.
#[derive(Debug, Drop)]
pub struct RawVolume {
    pub number: VolumeId,
    pub container: ContainerId,
    pub vtype: VvolType,
    pub kind: VolumeKind,
    /// The log number of the last revert, or 0.
    pub reverted: u64,
    pub needs: NeedList,
    pub metadata: PairRows,
    pub entries: EntryList,
}

impl Model for RawVolume {
    ghost use Rattle.vv_flat.specs.State.{Volume};
    ghost use Rattle.vv_flat.specs.Chunks.{Entry};

    ghost Value = { Volume Entry };

    ghost view = { λ a. record { number = a.number.0; container = a.container.0; vtype = a.vtype; kind = a.kind; reverted = a.reverted; needs = a.needs; metadata = a.metadata; chunks = a.entries } };
}

/// A host's context that was set.
#[derive(Debug, Drop)]
pub struct RawContext {
    pub host: HostId,
    pub endpoints: EndpointList,
}

impl Model for RawContext {
    ghost use Rattle.vv_flat.specs.State.{Context};
    ghost use Rattle.vv_area.specs.Forms.{endpoint_numbers};

    ghost Value = { Context };

    ghost view = { λ a. record { host = a.host.0; endpoints = endpoint_numbers a.endpoints } };
}

/// A volume bound at an address.
#[derive(Debug, Drop)]
pub struct RawBinding {
    pub host: HostId,
    pub endpoint: EndpointId,
    pub secondary: Secondary,
    pub volume: VolumeId,
    pub count: u16,
}

impl Model for RawBinding {
    ghost use Rattle.vv_flat.specs.State.{Binding};

    ghost Value = { Binding };

    ghost view = { λ a. record { address = record { host = a.host.0; endpoint = a.endpoint.0; secondary = a.secondary.0 }; volume = a.volume.0; count = a.count } };
}

/// What a task does.
#[derive(Clone, Copy, Debug, PartialEq, Eq)]
pub enum RawJob {
    /// A full clone of a volume.
    Clone {
        volume: VolumeId,
    },
    /// A copy into a target of what differs between source and base.
    Copy {
        source: VolumeId,
        base: VolumeId,
        target: VolumeId,
    },
}

/// The record of a task.
#[derive(Debug, Drop)]
pub struct RawTask {
    pub number: TaskId,
    pub job: RawJob,
    pub state: TaskState,
    pub done: u32,
    pub total: u32,
}

impl Model for RawTask {
    ghost use Rattle.vv_flat.specs.State.{Task};
    ghost use Rattle.vv_area.specs.Jobs.{job_of};

    ghost Value = { Task };

    ghost view = { λ a. record { number = a.number.0; job = job_of a.job; state = a.state; done = a.done; total = a.total } };
}

/// A full clone that runs, by the number of its task.
#[derive(Debug, Drop)]
pub struct RawClone {
    pub number: TaskId,
    pub container: ContainerId,
    pub vtype: VvolType,
    pub needs: NeedList,
    pub metadata: PairRows,
    pub image: EntryList,
    pub target: EntryList,
}

impl Model for RawClone {
    ghost use Rattle.vv_flat.specs.State.{RunningClone};
    ghost use Rattle.vv_flat.specs.Chunks.{Entry};

    ghost Value = { RunningClone Entry };

    ghost view = { λ a. record { number = a.number.0; container = a.container.0; vtype = a.vtype; needs = a.needs; metadata = a.metadata; image = a.image; target = a.target } };
}

/// An entry that a copy will put at an index of its target.
#[derive(Debug, Drop)]
pub struct RawPiece {
    pub index: u32,
    pub entry: ChunkEntry,
}

impl Model for RawPiece {
    ghost use Rattle.vv_flat.specs.State.{Piece};
    ghost use Rattle.vv_flat.specs.Chunks.{Entry};

    ghost Value = { Piece Entry };

    ghost view = { λ a. record { index = a.index; chunk = a.entry } };
}

/// A difference copy that runs, by the number of its task.
#[derive(Debug, Drop)]
pub struct RawCopy {
    pub number: TaskId,
    pub pieces: PieceList,
}

impl Model for RawCopy {
    ghost use Rattle.vv_flat.specs.State.{RunningCopy};
    ghost use Rattle.vv_flat.specs.Chunks.{Entry};

    ghost Value = { RunningCopy Entry };

    ghost view = { λ a. record { number = a.number.0; pieces = a.pieces } };
}
