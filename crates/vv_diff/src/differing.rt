//! The difference of two volumes.
ghost use Rattle.std.specs.Prelude.{◌≡◌, ◌+◌, ◌-◌, ◌≤◌, false, map, length, slice_index, IsSome, None};
ghost use Rattle.vv_flat.specs.Chunks.{Entry as SeenEntry};
ghost use Rattle.vv_vols.specs.Shelf.{volume_in, held_in, chunks_in, shelf_entries, next_held, held_size, left_in, is_image_in};
ghost use Rattle.vv_vols.specs.Calls.{with_held, new_held};
ghost use Rattle.vv_vols.specs.Conditions.{IsAbove, Stands};
ghost use Rattle.vv_vols.specs.Rows.{KeepsOwn, IsListRoom, seen_entry};
ghost use Rattle.vv_diff.specs.Pieces.{difference_in, with_piece_more};

use crate::pieces::Pieces;
use std::sync::ledger::Ledger;
use vv_entries::Entry;
use vv_pool::Steps;
use vv_units::VolumeId;
use vv_vols::{Held, MapRoom, Shelf};

/// Holds the entries of a volume at the indexes where its stamps differ from those of a base, which has stamp 0 past its end.
pub fn difference<L: Ledger>(
    shelf: &mut Shelf,
    src: VolumeId,
    base: VolumeId,
    room: MapRoom,
    steps: &mut Steps<L>,
) -> Pieces
    requires source { IsSome (volume_in shelf.old.shelf src.0) }
    requires base { IsSome (volume_in shelf.old.shelf base.0) }
    requires room { IsListRoom room.indexes room }
    requires enough { length (difference_in shelf.old.shelf src.0 base.0) ≤ room.indexes }
    requires few { shelf_entries shelf.old.shelf + length (difference_in shelf.old.shelf src.0 base.0) ≤ shelf.old.shelf.geometry.map_chunks }
    requires rows { 1 ≤ shelf.old.rooms }
    ensures pieces { result ≡ record { number = next_held shelf.old.shelf; len = length (difference_in shelf.old.shelf src.0 base.0) } }
    ensures unused { held_in shelf.old.shelf result.number ≡ None }
    ensures shelf { let pieces = difference_in shelf.old.shelf src.0 base.0 in
        shelf.new.shelf ≡ with_held shelf.old.shelf (new_held shelf.old.shelf pieces false (room.indexes - length pieces)) }
    ensures rooms { shelf.new.rooms + 1 ≡ shelf.old.rooms }
    ensures kept { KeepsOwn shelf.old shelf.new }
    ensures rise { steps.old ≤ steps.new }
    ensures steps { steps.new ≤ steps.old + length (difference_in shelf.old.shelf src.0 base.0) }
{
    let mut held = shelf.hold_none(room);
    for index in 0..shelf.entries(src) {
        let entry = shelf.entry(src, index);
        if entry.stamp != stamp_in(shelf, base, index) {
            hold_piece(shelf, &mut held, index, entry, steps);
        }
    }
    Pieces::of_held(held)
}

/// The stamp of a chunk of a volume, which is 0 past its end.
fn stamp_in(shelf: &Shelf, volume: VolumeId, index: u32) -> u64
    requires { IsSome (volume_in shelf.now.shelf volume.0) }
    ensures { result ≡ slice_index (map (λ (e : SeenEntry). e.stamp) (chunks_in shelf.now.shelf volume.0)) index }
{
    if index < shelf.entries(volume) {
        shelf.entry(volume, index).stamp
    } else {
        0
    }
}

/// Appends an entry that stands at its index to a held list.
fn hold_piece<L: Ledger>(
    shelf: &mut Shelf,
    held: &mut Held,
    index: u32,
    entry: Entry,
    steps: &mut Steps<L>,
)
    requires standing { IsSome (held_in shelf.old.shelf held.old.number) }
    requires target { is_image_in shelf.old.shelf held.old.number ≡ false }
    requires left { 1 ≤ left_in shelf.old.shelf held.old.number }
    requires above { IsAbove shelf.old.shelf held.old.number index }
    requires len { held.old.len ≡ held_size shelf.old.shelf held.old.number }
    requires few { shelf_entries shelf.old.shelf + 1 ≤ shelf.old.shelf.geometry.map_chunks }
    requires stands { Stands shelf.old.shelf (record { index = index; chunk = seen_entry entry }) }
    ensures held { held.new ≡ record held.old { len = held.old.len + 1 } }
    ensures shelf { shelf.new.shelf ≡ with_piece_more shelf.old.shelf held.old.number index (seen_entry entry) }
    ensures rooms { shelf.new.rooms ≡ shelf.old.rooms }
    ensures kept { KeepsOwn shelf.old shelf.new }
    ensures rise { steps.old ≤ steps.new }
    ensures steps { steps.new ≤ steps.old + 1 }
{
    shelf.keeps_sharing();
    let at = held.len();
    shelf.hold_unmapped(held, index);
    if let Some(place) = entry.place {
        shelf.share_held(held, at, place, entry.stamp, steps);
    }
}
