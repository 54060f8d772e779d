//! Chunks of a volume of a shelf that are unmapped.
ghost use Rattle.std.specs.Prelude.{ℕ, ◌≡◌, ◌+◌, ◌*◌, ◌≤◌, ◌<◌, ◌^◌, ◌∷◌, [], IsSome, IsTrue};
ghost use Rattle.vv_vols.specs.Shelf.{volume_in, size_in, chunks_in, allocated_of};
ghost use Rattle.vv_vols.specs.Rows.{KeepsOwn, IsChangeRoom};
ghost use Rattle.vv_vols.specs.Rooms.{AreGood, for_change};
ghost use Rattle.vv_tables.specs.Unmapping.{range_pairs, are_inside, with_unmapped};

use std::sync::ledger::Ledger;
use vv_pool::Steps;
use vv_record::ChunkRange;
use vv_units::VolumeId;
use vv_vols::{MapRoom, Shelf};

/// Unmaps a chunk of a volume, if it is allocated.
fn unmap_chunk<L: Ledger>(
    shelf: &mut Shelf,
    volume: VolumeId,
    index: u32,
    room: &mut MapRoom,
    steps: &mut Steps<L>,
)
    requires standing { IsSome (volume_in shelf.old.shelf volume.0) }
    requires within { index < size_in shelf.old.shelf volume.0 }
    requires room { IsChangeRoom shelf.old volume.0 index 1 room.old }
    ensures shelf { shelf.new.shelf ≡ with_unmapped shelf.old.shelf volume.0 ((index, 1) ∷ []) }
    ensures rooms { shelf.new.rooms ≡ shelf.old.rooms }
    ensures kept { KeepsOwn shelf.old shelf.new }
    ensures good { (first count : ℕ) → first ≤ index → index < first + count → AreGood shelf.old (for_change volume.0 first count room.old ∷ [])
        → AreGood shelf.new (for_change volume.0 first count room.new ∷ []) }
    ensures steps { steps.new + 64 * allocated_of (chunks_in shelf.new.shelf volume.0) ≤ steps.old + 64 * allocated_of (chunks_in shelf.old.shelf volume.0) }
{
    if shelf.entry(volume, index).stamp != 0 {
        shelf.unmap(volume, index, room, steps);
    }
}

/// Unmaps the allocated chunks of a volume in a range.
fn unmap_range<L: Ledger>(
    shelf: &mut Shelf,
    volume: VolumeId,
    range: ChunkRange,
    room: &mut MapRoom,
    steps: &mut Steps<L>,
)
    requires standing { IsSome (volume_in shelf.old.shelf volume.0) }
    requires within { range.first_chunk + range.chunks ≤ size_in shelf.old.shelf volume.0 }
    requires few { size_in shelf.old.shelf volume.0 < 2 ^ 32 }
    requires room { AreGood shelf.old (for_change volume.0 0 (size_in shelf.old.shelf volume.0) room.old ∷ []) }
    ensures shelf { shelf.new.shelf ≡ with_unmapped shelf.old.shelf volume.0 ((range.first_chunk, range.chunks) ∷ []) }
    ensures rooms { shelf.new.rooms ≡ shelf.old.rooms }
    ensures kept { KeepsOwn shelf.old shelf.new }
    ensures room { AreGood shelf.new (for_change volume.0 0 (size_in shelf.old.shelf volume.0) room.new ∷ []) }
    ensures steps { steps.new + 64 * allocated_of (chunks_in shelf.new.shelf volume.0) ≤ steps.old + 64 * allocated_of (chunks_in shelf.old.shelf volume.0) }
{
    for index in range.first_chunk..range.first_chunk + range.chunks {
        unmap_chunk(shelf, volume, index, room, steps);
    }
}

/// Unmaps the allocated chunks of a volume in some ranges.
pub(crate) fn unmap_ranges<L: Ledger>(
    shelf: &mut Shelf,
    volume: VolumeId,
    ranges: &[ChunkRange],
    room: &mut MapRoom,
    steps: &mut Steps<L>,
)
    requires standing { IsSome (volume_in shelf.old.shelf volume.0) }
    requires inside { IsTrue (are_inside (size_in shelf.old.shelf volume.0) (range_pairs ranges.now)) }
    requires few { size_in shelf.old.shelf volume.0 < 2 ^ 32 }
    requires room { IsChangeRoom shelf.old volume.0 0 (size_in shelf.old.shelf volume.0) room.old }
    ensures shelf { shelf.new.shelf ≡ with_unmapped shelf.old.shelf volume.0 (range_pairs ranges.now) }
    ensures rooms { shelf.new.rooms ≡ shelf.old.rooms }
    ensures kept { KeepsOwn shelf.old shelf.new }
    ensures steps { steps.new + 64 * allocated_of (chunks_in shelf.new.shelf volume.0) ≤ steps.old + 64 * allocated_of (chunks_in shelf.old.shelf volume.0) }
{
    for range in ranges {
        unmap_range(shelf, volume, *range, room, steps);
    }
}
