//! What a volume is: its type, its kind, and what it asks of its container.
use crate::{ItemList, Name, VolumeId};

/// The types of vvol of VASA 2.0.
#[derive(Clone, Copy, Debug, PartialEq, Eq)]
pub enum VvolType {
    Config,
    Data,
    Swap,
    Memory,
    Other,
}

/// How a volume came to be.
#[derive(Clone, Copy, Debug, PartialEq, Eq)]
pub enum VolumeKind {
    Plain,
    SnapshotOf(VolumeId),
    FastCloneOf(VolumeId),
    FullCloneOf(VolumeId),
}

/// A capability that a container offers, with its value.
#[derive(Debug, Drop)]
pub struct Offer {
    pub name: Name,
    pub value: u64,
}

/// A capability that a volume's profile asks for, with the value that it needs.
#[derive(Debug, Drop)]
pub struct Need {
    pub name: Name,
    pub value: u64,
}

/// What a container offers, in order.
pub type OfferList = ItemList<Offer>;

/// What a profile asks for, in order.
pub type NeedList = ItemList<Need>;

/// Why a need is not met.
#[derive(Clone, Copy, Debug, PartialEq, Eq)]
pub enum Why {
    /// No capability has that name.
    Unknown,
    /// The container doesn't offer it.
    NotOffered,
    /// The container's value doesn't admit it.
    TooLittle,
}

/// How a task stands.
#[derive(Clone, Copy, Debug, PartialEq, Eq)]
pub enum TaskState {
    Running,
    Success,
    Cancelled,
    Interrupted,
}
