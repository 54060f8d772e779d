//! The record of a task.
use vv_units::{TaskId, TaskState, VolumeId};

/// What a task does.
#[derive(Clone, Copy, Debug, PartialEq, Eq)]
pub enum Job {
    /// It makes a full clone of a volume.
    Clone {
        volume: VolumeId,
    },
    /// It copies into a target what differs between source and base.
    Copy {
        source: VolumeId,
        base: VolumeId,
        target: VolumeId,
    },
}

/// A task, of whose chunks or pieces so many are done.
#[derive(Clone, Copy, Debug, PartialEq, Eq)]
pub struct Task {
    pub id: TaskId,
    pub job: Job,
    pub state: TaskState,
    pub done: u32,
    pub total: u32,
}
