//! Changes of the chunks of a volume.
ghost use Rattle.std.specs.Prelude.{◌≡◌, ◌+◌, ◌*◌, ◌≤◌, [], IfOk, IsSome, IsTrue, length};
ghost use Rattle.vv_flat.specs.State.{volume_of};
ghost use Rattle.vv_flat.specs.Chunks.{shape_of_tables, volume_blocks};
ghost use Rattle.vv_flat.specs.Changes.{Unmap, Write, size_of, stamps_of};
ghost use Rattle.vv_flat.specs.Replay.{fits, replayed};
ghost use Rattle.vv_laws.specs.Counts.{unmaps_count};
ghost use Rattle.vv_tables.specs.Unmapping.{range_pairs};
ghost use Rattle.vv_tables.specs.Putting.{place_numbers};
ghost use Rattle.vv_tables.specs.Rooms.{IsChangeRoomOf, IsWriteRoom};

use crate::charges::recharge;
use crate::putting::put_places;
use crate::tables::Tables;
use crate::unmapping::unmap_ranges;
use crate::write_room::WriteRoom;
use std::alloc::Global;
use std::sync::ledger::Ledger;
use vv_pool::{FreshList, Steps};
use vv_record::ChunkRange;
use vv_units::{NoMemory, Place, VolumeId, touched};
use vv_vols::MapRoom;

impl Tables {
    /// Takes memory for changes in a range of chunks of a volume. The tables stay as they were.
    pub fn reserve_change(
        &mut self,
        volume: VolumeId,
        first: u32,
        count: u32,
    ) -> Result<MapRoom, NoMemory>
        requires standing { IsSome (volume_of self.old.durable volume.0) }
        requires within { first + count ≤ size_of (shape_of_tables self.old.durable) volume.0 }
        ensures room { IfOk result (λ room. IsChangeRoomOf self.old volume.0 first count room) }
        ensures same { self.new ≡ self.old }
    {
        self.shelf.reserve_change(volume, first, count)
    }

    /// Takes memory for a write of blocks of a volume. The tables stay as they were.
    pub fn reserve_write(
        &mut self,
        alloc: Global,
        volume: VolumeId,
        first_block: u64,
        blocks: u32,
    ) -> Result<WriteRoom, NoMemory>
        requires standing { IsSome (volume_of self.old.durable volume.0) }
        requires some { 1 ≤ blocks }
        requires within { first_block + blocks ≤ volume_blocks self.old.durable.geometry.chunk_blocks (stamps_of (shape_of_tables self.old.durable) volume.0) }
        ensures room { IfOk result (λ room. IsWriteRoom self.old volume.0 first_block blocks room) }
        ensures same { self.new ≡ self.old }
    {
        let taken = FreshList::new(alloc, 1)?;
        let (first, count) = touched(first_block, blocks, self.geometry.chunk_blocks);
        match self.shelf.reserve_change(volume, first, count) {
            Ok(change) => Ok(WriteRoom { change, taken }),
            Err(error) => {
                taken.close();
                Err(error)
            }
        }
    }

    /// Writes blocks of a volume: the chunks that they touch get these places, in rising order, where the bytes of each chunk
    /// after the write stand. It takes no memory, and can't fail.
    pub fn write<L: Ledger>(
        &mut self,
        volume: VolumeId,
        first_block: u64,
        blocks: u32,
        places: &[Place],
        room: WriteRoom,
        steps: &mut Steps<L>,
    )
        requires fits { IsTrue (fits self.old.durable (Write volume.0 first_block blocks) (place_numbers places.now)) }
        requires room { IsWriteRoom self.old volume.0 first_block blocks room }
        ensures durable { self.new.durable ≡ replayed self.old.durable (Write volume.0 first_block blocks) (place_numbers places.now) }
        ensures rooms { self.new.rooms ≡ self.old.rooms }
        ensures steps { steps.new ≤ steps.old + 64 * length places.now }
    {
        let WriteRoom {
            mut change,
            mut taken,
        } = room;
        let home = self.home_of(volume);
        let (first, _) = touched(first_block, blocks, self.geometry.chunk_blocks);
        let before = self.shelf.allocated_count(volume);
        self.lsn += 1;
        put_places(
            &mut self.shelf,
            volume,
            first,
            places,
            self.lsn,
            &mut change,
            &mut taken,
            steps,
        );
        let after = self.shelf.allocated_count(volume);
        recharge(&mut self.containers, home, before, after);
        taken.close();
    }

    /// Unmaps the allocated chunks of a volume in these ranges. It takes no memory, and can't fail.
    pub fn unmap<L: Ledger>(
        &mut self,
        volume: VolumeId,
        ranges: &[ChunkRange],
        room: MapRoom,
        steps: &mut Steps<L>,
    )
        requires fits { IsTrue (fits self.old.durable (Unmap volume.0 (range_pairs ranges.now)) []) }
        requires room { IsChangeRoomOf self.old volume.0 0 (size_of (shape_of_tables self.old.durable) volume.0) room }
        ensures durable { self.new.durable ≡ replayed self.old.durable (Unmap volume.0 (range_pairs ranges.now)) [] }
        ensures rooms { self.new.rooms ≡ self.old.rooms }
        ensures steps { steps.new ≤ steps.old + 64 * unmaps_count (range_pairs ranges.now) (stamps_of (shape_of_tables self.old.durable) volume.0) }
    {
        let mut room = room;
        let home = self.home_of(volume);
        let before = self.shelf.allocated_count(volume);
        self.lsn += 1;
        unmap_ranges(&mut self.shelf, volume, ranges, &mut room, steps);
        let after = self.shelf.allocated_count(volume);
        recharge(&mut self.containers, home, before, after);
    }
}
