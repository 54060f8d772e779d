//! Copies of volumes: snapshots, fast clones, and volumes that go back to a snapshot.
ghost use Rattle.std.specs.Prelude.{◌≡◌, ◌+◌, ◌-◌, ◌^◌, ◌<◌, ◌≤◌, [], IsSome, IsTrue, IfOk, OnOk, OnErr};
ghost use Rattle.vv_map.specs.Pages.{pages_for};
ghost use Rattle.vv_flat.specs.State.{volume_of};
ghost use Rattle.vv_flat.specs.Replay.{fits, replayed};
ghost use Rattle.vv_flat.specs.Changes.{FastClone, Revert, Snapshot};
ghost use Rattle.vv_container.specs.Table.{row_of, with_charge};
ghost use Rattle.vv_vols.specs.Rows.{IsListRoom};
ghost use Rattle.vv_vols.specs.Shelf.{volume_in, chunks_in, allocated_of};
ghost use Rattle.vv_tables.specs.CopyRooms.{size_in_tables, IsCopyRoom};
ghost use Rattle.vv_tables.specs.Homes.{home_in, charge_in};

use crate::tables::Tables;
use std::alloc::Global;
use std::sync::ledger::Ledger;
use vv_container::ContainerTable;
use vv_pool::Steps;
use vv_snap::copy_head;
use vv_units::{ContainerId, NoMemory, VolumeId};
use vv_vols::{MapRoom, Shelf};

impl Tables {
    /// Takes memory for a copy of a volume: for its list, with a copy of its head. Where memory runs out the tables stay as
    /// they were.
    pub fn reserve_copy(&mut self, alloc: Global, volume: VolumeId) -> Result<MapRoom, NoMemory>
        requires { IsSome (volume_of self.old.durable volume.0) }
        ensures room { IfOk result (λ room. IsCopyRoom self.old volume.0 room) }
        ensures ok { OnOk result (self.new ≡ record self.old { rooms = self.old.rooms + 1 }) }
        ensures err { OnErr result (self.new ≡ self.old) }
    {
        let head = copy_head(alloc, &self.shelf, volume)?;
        let chunks = self.shelf.entries(volume);
        let room = self.shelf.reserve_list(chunks)?;
        Ok(room.with_head(head))
    }

    /// Adds a snapshot of a volume, whose number is the new log number. It takes the memory of the room, and as many steps as
    /// the volume has pages.
    pub fn snapshot<L: Ledger>(&mut self, volume: VolumeId, room: MapRoom, steps: &mut Steps<L>)
        requires fits { IsTrue (fits self.old.durable (Snapshot volume.0) []) }
        requires room { IsCopyRoom self.old volume.0 room }
        requires rows { 1 ≤ self.old.rooms }
        ensures durable { self.new.durable ≡ replayed self.old.durable (Snapshot volume.0) [] }
        ensures rooms { self.new.rooms + 1 ≡ self.old.rooms }
        ensures steps { steps.new ≡ steps.old + pages_for (size_in_tables self.old.durable volume.0) }
    {
        let id = VolumeId(self.lsn + 1);
        charge_copy(&self.shelf, &mut self.containers, volume);
        vv_snap::snapshot(&mut self.shelf, volume, id, room, steps);
        self.lsn += 1;
    }

    /// Adds a fast clone of a volume, whose number is the new log number. It takes the memory of the room, and as many steps as
    /// the volume has pages.
    pub fn fast_clone<L: Ledger>(&mut self, volume: VolumeId, room: MapRoom, steps: &mut Steps<L>)
        requires fits { IsTrue (fits self.old.durable (FastClone volume.0) []) }
        requires room { IsCopyRoom self.old volume.0 room }
        requires rows { 1 ≤ self.old.rooms }
        ensures durable { self.new.durable ≡ replayed self.old.durable (FastClone volume.0) [] }
        ensures rooms { self.new.rooms + 1 ≡ self.old.rooms }
        ensures steps { steps.new ≡ steps.old + pages_for (size_in_tables self.old.durable volume.0) }
    {
        let id = VolumeId(self.lsn + 1);
        charge_copy(&self.shelf, &mut self.containers, volume);
        vv_snap::fast_clone(&mut self.shelf, volume, id, room, steps);
        self.lsn += 1;
    }

    /// Gives a volume the chunks of a snapshot of it, and notes the new log number as that of its last revert. It takes the
    /// memory of the room, and as many steps as the snapshot has pages.
    pub fn revert<L: Ledger>(
        &mut self,
        volume: VolumeId,
        snapshot: VolumeId,
        room: MapRoom,
        steps: &mut Steps<L>,
    )
        requires fits { IsTrue (fits self.old.durable (Revert volume.0 snapshot.0) []) }
        requires room { IsListRoom (size_in_tables self.old.durable snapshot.0) room }
        requires rows { 1 ≤ self.old.rooms }
        ensures durable { self.new.durable ≡ replayed self.old.durable (Revert volume.0 snapshot.0) [] }
        ensures rooms { self.new.rooms + 1 ≡ self.old.rooms }
        ensures steps { steps.new ≡ steps.old + pages_for (size_in_tables self.old.durable snapshot.0) }
    {
        let lsn = self.lsn + 1;
        charge_revert(&self.shelf, &mut self.containers, volume, snapshot);
        vv_snap::revert(&mut self.shelf, volume, snapshot, room, steps);
        self.shelf.set_reverted(volume, lsn);
        self.lsn = lsn;
    }
}

/// Charges the container of a volume for its allocated chunks once more.
pub(crate) fn charge_copy(shelf: &Shelf, containers: &mut ContainerTable, volume: VolumeId)
    requires standing { IsSome (volume_in shelf.now.shelf volume.0) }
    requires home { IsSome (row_of containers.old (home_in shelf.now.shelf volume.0)) }
    requires fits { charge_in containers.old (home_in shelf.now.shelf volume.0) + allocated_of (chunks_in shelf.now.shelf volume.0) < 2 ^ 64 }
    ensures { containers.new ≡ with_charge containers.old (home_in shelf.now.shelf volume.0)
        (charge_in containers.old (home_in shelf.now.shelf volume.0) + allocated_of (chunks_in shelf.now.shelf volume.0)) }
{
    let home = home_in(shelf, volume);
    let more = u64::from(shelf.allocated_count(volume));
    let charged = containers.charge(home);
    containers.set_charge(home, charged + more);
}

/// Charges the container of a volume for the allocated chunks of a snapshot in place of the volume's.
fn charge_revert(
    shelf: &Shelf,
    containers: &mut ContainerTable,
    volume: VolumeId,
    snapshot: VolumeId,
)
    requires standing { IsSome (volume_in shelf.now.shelf volume.0) }
    requires source { IsSome (volume_in shelf.now.shelf snapshot.0) }
    requires home { IsSome (row_of containers.old (home_in shelf.now.shelf volume.0)) }
    requires small { charge_in containers.old (home_in shelf.now.shelf volume.0) < 2 ^ 32 }
    requires counted { allocated_of (chunks_in shelf.now.shelf volume.0)
        ≤ charge_in containers.old (home_in shelf.now.shelf volume.0) + allocated_of (chunks_in shelf.now.shelf snapshot.0) }
    ensures { containers.new ≡ with_charge containers.old (home_in shelf.now.shelf volume.0)
        (charge_in containers.old (home_in shelf.now.shelf volume.0) + allocated_of (chunks_in shelf.now.shelf snapshot.0)
        - allocated_of (chunks_in shelf.now.shelf volume.0)) }
{
    let home = home_in(shelf, volume);
    let less = u64::from(shelf.allocated_count(volume));
    let more = u64::from(shelf.allocated_count(snapshot));
    let charged = containers.charge(home);
    containers.set_charge(home, charged + more - less);
}

/// The container of a volume that stands.
pub(crate) fn home_in(shelf: &Shelf, volume: VolumeId) -> ContainerId
    requires { IsSome (volume_in shelf.now.shelf volume.0) }
    ensures { result.0 ≡ home_in shelf.now.shelf volume.0 }
{
    match shelf.volume(volume) {
        Some(head) => head.container,
        None => unreachable!(),
    }
}
