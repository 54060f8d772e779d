//! Questions on volumes.
ghost use Rattle.std.specs.Prelude.{◌≡◌, [], length, IsSome};
ghost use Rattle.std.specs.Option.{option_map, option_copied};
ghost use Rattle.vv_units.specs.Pairs.{note_of};
ghost use Rattle.vv_flat.specs.State.{Volume, volume_of};
ghost use Rattle.vv_flat.specs.Chunks.{Entry, shape_of_tables};
ghost use Rattle.vv_flat.specs.Bindings.{is_bound};
ghost use Rattle.vv_flat.specs.Tasks.{is_busy};
ghost use Rattle.vv_flat.specs.Changes.{size_of, allocated_of, metadata_of, home_of, is_snapshot, is_snapshot_of, is_snapshot_kind, is_snapshot_of_kind, has_note};
ghost use Rattle.vv_vols.specs.Rows.{volume_with};

use crate::counts::pairs_in;
use crate::tables::Tables;
use crate::tasks::is_target;
use vv_units::{ContainerId, Key, Note, VolumeId, VolumeKind};
use vv_vols::Head;

impl Tables {
    /// What a volume is beside its chunks, if it stands.
    pub fn volume(&self, id: VolumeId) -> Option<&Head>
        ensures { option_map (λ head. volume_with id.0 head.now []) result ≡ option_map (λ (v : Volume Entry). record v { chunks = [] }) (volume_of self.now.durable id.0) }
    {
        self.shelf.volume(id)
    }

    /// How many chunks a volume has: none where there is no such volume.
    pub fn size(&self, id: VolumeId) -> u32
        ensures { result ≡ size_of (shape_of_tables self.now.durable) id.0 }
    {
        match self.shelf.volume(id) {
            Some(_) => self.shelf.entries(id),
            None => 0,
        }
    }

    /// How many chunks of a volume are allocated: none where there is no such volume.
    pub fn allocated(&self, id: VolumeId) -> u32
        ensures { result ≡ allocated_of (shape_of_tables self.now.durable) id.0 }
    {
        match self.shelf.volume(id) {
            Some(_) => self.shelf.allocated_count(id),
            None => 0,
        }
    }

    /// The container of a volume: container 0 where there is no such volume.
    pub fn home_of(&self, id: VolumeId) -> ContainerId
        ensures { result.0 ≡ home_of (shape_of_tables self.now.durable) id.0 }
    {
        match self.shelf.volume(id) {
            Some(head) => head.container,
            None => ContainerId(0),
        }
    }

    /// Whether a volume is a snapshot.
    pub fn is_snapshot(&self, id: VolumeId) -> bool
        ensures { result ≡ is_snapshot (shape_of_tables self.now.durable) id.0 }
    {
        match self.shelf.volume(id) {
            Some(head) => is_snapshot_kind(head.kind),
            None => false,
        }
    }

    /// Whether a volume is a snapshot of another one.
    pub fn is_snapshot_of(&self, snapshot: VolumeId, id: VolumeId) -> bool
        ensures { result ≡ is_snapshot_of (shape_of_tables self.now.durable) snapshot.0 id.0 }
    {
        match self.shelf.volume(snapshot) {
            Some(head) => is_kind_of(head.kind, id),
            None => false,
        }
    }

    /// How many metadata pairs a volume has: none where there is no such volume.
    pub fn pairs(&self, id: VolumeId) -> u32
        ensures { result ≡ length (metadata_of (shape_of_tables self.now.durable) id.0) }
    {
        pairs_in(&self.shelf, id)
    }

    /// The note at a key of a volume's metadata.
    pub fn note(&self, id: VolumeId, key: &Key) -> Option<&Note>
        ensures { option_copied result ≡ note_of (metadata_of (shape_of_tables self.now.durable) id.0) key.now }
    {
        match self.shelf.volume(id) {
            Some(head) => head.metadata.get(key),
            None => None,
        }
    }

    /// Whether setting a note at a key of a volume's metadata, or removing it, changes nothing.
    pub fn has_note(&self, id: VolumeId, key: &Key, note: Option<&Note>) -> bool
        ensures { result ≡ has_note (metadata_of (shape_of_tables self.now.durable) id.0) key.now (option_copied note.entry) }
    {
        match (self.note(id, key), note) {
            (Some(old), Some(note)) => old.items() == note.items(),
            (None, None) => true,
            _ => false,
        }
    }

    /// Whether a volume is bound for any host.
    pub fn is_bound(&self, id: VolumeId) -> bool
        ensures { result ≡ is_bound self.now.durable.bindings id.0 }
    {
        self.bindings.bound(id)
    }

    /// Whether a running copy is to change a volume.
    pub fn is_busy(&self, id: VolumeId) -> bool
        ensures { result ≡ is_busy self.now.durable id.0 }
    {
        is_target(&self.tasks, id)
    }
}

/// Whether a kind is that of a snapshot.
fn is_snapshot_kind(kind: VolumeKind) -> bool
    ensures { result ≡ is_snapshot_kind kind }
{
    matches!(kind, VolumeKind::SnapshotOf(_))
}

/// Whether a kind is that of a snapshot of a volume.
fn is_kind_of(kind: VolumeKind, id: VolumeId) -> bool
    ensures { result ≡ is_snapshot_of_kind id.0 kind }
{
    match kind {
        VolumeKind::SnapshotOf(volume) => volume.0 == id.0,
        _ => false,
    }
}
