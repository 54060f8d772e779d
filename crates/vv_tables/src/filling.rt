//! Free places that are put into the targets of running clones.
ghost use Rattle.std.specs.Prelude.{◌≡◌, ◌+◌, ◌-◌, ◌≤◌, [], false, IsSome, IsTrue, Some};
ghost use Rattle.vv_flat.specs.Chunks.{unmapped_entry};
ghost use Rattle.vv_vols.specs.Shelf.{held_in, is_image_in, entry_at, index_at, is_shelf_free, shelf_used};
ghost use Rattle.vv_vols.specs.Calls.{with_piece, with_reserve, placed_at};
ghost use Rattle.vv_vols.specs.Conditions.{is_new_stamp};
ghost use Rattle.vv_vols.specs.Rows.{KeepsOwn};
ghost use Rattle.vv_tables.specs.Filling.{MayFill, with_filled, copy_indexes, copy_places};

use vv_pool::FreshList;
use vv_record::ChunkCopy;
use vv_units::Place;
use vv_vols::{Held, Shelf};

/// Puts a free place at an index of a held list, in place of a reserved one.
fn fill_place(
    shelf: &mut Shelf,
    target: &mut Held,
    index: u32,
    place: Place,
    stamp: u64,
    taken: &mut FreshList,
)
    requires standing { IsSome (held_in shelf.old.shelf target.old.number) }
    requires target { is_image_in shelf.old.shelf target.old.number ≡ false }
    requires unmapped { entry_at shelf.old.shelf target.old.number index ≡ Some unmapped_entry }
    requires free { IsTrue (is_shelf_free shelf.old.shelf place.0) }
    requires some { 1 ≤ shelf.old.shelf.reserved }
    requires within { shelf_used shelf.old.shelf + shelf.old.shelf.reserved ≤ shelf.old.shelf.geometry.pool_chunks }
    requires fresh { shelf.old.shelf.fresh ≡ [] }
    requires empty { taken.old.places ≡ [] }
    requires memory { 1 ≤ taken.old.capacity }
    requires stamp { IsTrue (is_new_stamp shelf.old.shelf (index_at shelf.old.shelf target.old.number index) stamp) }
    ensures target { target.new ≡ target.old }
    ensures shelf { shelf.new.shelf ≡ with_reserve (with_piece shelf.old.shelf target.old.number index (placed_at place.0 stamp)) (shelf.old.shelf.reserved - 1) }
    ensures within { shelf_used shelf.new.shelf + shelf.new.shelf.reserved ≤ shelf.new.shelf.geometry.pool_chunks }
    ensures rooms { shelf.new.rooms ≡ shelf.old.rooms }
    ensures taken { taken.new ≡ taken.old }
{
    shelf.keeps_sharing();
    shelf.unreserve(1);
    if !shelf.take_at(place, taken) {
        unreachable!();
    }
    match taken.next() {
        Some(fresh) => shelf.put_held(target, index, fresh, stamp),
        None => unreachable!(),
    }
    shelf.keeps_sharing();
}

/// Puts free places into a held list at the indexes of copies, each in place of a reserved one.
pub(crate) fn fill_places(
    shelf: &mut Shelf,
    target: &mut Held,
    copies: &[ChunkCopy],
    stamp: u64,
    taken: &mut FreshList,
)
    requires may { MayFill shelf.old.shelf target.old.number stamp (copy_indexes copies.now) (copy_places copies.now) }
    requires empty { taken.old.places ≡ [] }
    requires memory { 1 ≤ taken.old.capacity }
    ensures target { target.new ≡ target.old }
    ensures shelf { shelf.new.shelf ≡ with_filled shelf.old.shelf target.old.number stamp (copy_indexes copies.now) (copy_places copies.now) }
    ensures rooms { shelf.new.rooms ≡ shelf.old.rooms }
    ensures taken { taken.new ≡ taken.old }
{
    for copy in copies {
        fill_place(shelf, target, copy.index, copy.place, stamp, taken);
    }
}
