//! Places that are put into a volume of a shelf.
ghost use Rattle.std.specs.Prelude.{ℕ, ◌≡◌, ◌+◌, ◌*◌, ◌≤◌, ◌<◌, ◌^◌, [], ◌∷◌, length, IsSome, IsTrue};
ghost use Rattle.vv_flat.specs.Lists.{numbers_from, put_at};
ghost use Rattle.vv_flat.specs.Chunks.{placed_entries};
ghost use Rattle.vv_vols.specs.Shelf.{volume_in, size_in, is_shelf_free};
ghost use Rattle.vv_vols.specs.Calls.{with_chunks, with_entry, placed_at};
ghost use Rattle.vv_vols.specs.Conditions.{is_new_stamp};
ghost use Rattle.vv_vols.specs.Places.{shelf_free};
ghost use Rattle.vv_vols.specs.Rows.{KeepsOwn, IsChangeRoom};
ghost use Rattle.vv_vols.specs.Rooms.{AreGood, for_change};
ghost use Rattle.vv_tables.specs.Putting.{place_numbers, MayPut};

use std::sync::ledger::Ledger;
use vv_pool::{FreshList, Steps};
use vv_units::{Place, VolumeId};
use vv_vols::{MapRoom, Shelf};

/// Puts a free place at an index of a volume, in a range for whose changes there is memory.
fn put_place<L: Ledger>(
    shelf: &mut Shelf,
    volume: VolumeId,
    index: u32,
    place: Place,
    stamp: u64,
    room: &mut MapRoom,
    taken: &mut FreshList,
    steps: &mut Steps<L>,
)
    requires standing { IsSome (volume_in shelf.old.shelf volume.0) }
    requires within { index < size_in shelf.old.shelf volume.0 }
    requires free { IsTrue (is_shelf_free shelf.old.shelf place.0) }
    requires some { 1 ≤ shelf_free shelf.old.shelf }
    requires fresh { shelf.old.shelf.fresh ≡ [] }
    requires empty { taken.old.places ≡ [] }
    requires memory { 1 ≤ taken.old.capacity }
    requires stamp { IsTrue (is_new_stamp shelf.old.shelf index stamp) }
    requires room { IsChangeRoom shelf.old volume.0 index 1 room.old }
    ensures shelf { shelf.new.shelf ≡ with_entry shelf.old.shelf volume.0 index (placed_at place.0 stamp) }
    ensures rooms { shelf.new.rooms ≡ shelf.old.rooms }
    ensures kept { KeepsOwn shelf.old shelf.new }
    ensures taken { taken.new ≡ taken.old }
    ensures enough { shelf_free shelf.old.shelf ≤ shelf_free shelf.new.shelf + 1 }
    ensures good { (first count : ℕ) → first ≤ index → index < first + count → AreGood shelf.old (for_change volume.0 first count room.old ∷ [])
        → AreGood shelf.new (for_change volume.0 first count room.new ∷ []) }
    ensures steps { steps.new ≤ steps.old + 64 }
{
    shelf.keeps_sharing();
    if !shelf.take_at(place, taken) {
        unreachable!();
    }
    match taken.next() {
        Some(fresh) => shelf.put_fresh(volume, index, fresh, stamp, room, steps),
        None => unreachable!(),
    }
    shelf.keeps_sharing();
}

/// Puts free places into a volume, from an index on.
pub(crate) fn put_places<L: Ledger>(
    shelf: &mut Shelf,
    volume: VolumeId,
    first: u32,
    places: &[Place],
    stamp: u64,
    room: &mut MapRoom,
    taken: &mut FreshList,
    steps: &mut Steps<L>,
)
    requires may { MayPut shelf.old.shelf volume.0 first stamp (place_numbers places.now) }
    requires few { first + length places.now < 2 ^ 32 }
    requires empty { taken.old.places ≡ [] }
    requires memory { 1 ≤ taken.old.capacity }
    requires room { IsChangeRoom shelf.old volume.0 first (length places.now) room.old }
    ensures shelf { shelf.new.shelf ≡ with_chunks shelf.old.shelf volume.0 (put_at (numbers_from first (length places.now)) (placed_entries (place_numbers places.now) stamp)) }
    ensures rooms { shelf.new.rooms ≡ shelf.old.rooms }
    ensures kept { KeepsOwn shelf.old shelf.new }
    ensures taken { taken.new ≡ taken.old }
    ensures steps { steps.new ≤ steps.old + 64 * length places.now }
{
    let mut index = first;
    for place in places {
        put_place(shelf, volume, index, *place, stamp, room, taken, steps);
        index += 1;
    }
}
