//! Held lists that are filled with given entries, as where tables are put together again.
ghost use Rattle.std.specs.Prelude.{◌≡◌, ◌+◌, ◌≤◌, ◌<◌, ◌^◌, [], ◌∷◌, ◌++◌, true, false, length, map, IsSome, IsTrue, IfOk, OnOk, OnErr, None};
ghost use Rattle.std.specs.Bool.{OnTrue, OnFalse};
ghost use Rattle.vv_pool.specs.FreshPlaces.{appended};
ghost use Rattle.vv_flat.specs.State.{Piece, indexed};
ghost use Rattle.vv_flat.specs.Lists.{all_rising};
ghost use Rattle.vv_flat.specs.Chunks.{Entry as SeenEntry};
ghost use Rattle.vv_vols.specs.Conditions.{IsAbove};
ghost use Rattle.vv_flat.specs.Sharing.{shares_places};
ghost use Rattle.vv_vols.specs.Shelf.{is_shelf_free, volume_in, held_in, is_image_in, left_in, held_size, next_held, shelf_entries, shelf_pieces};
ghost use Rattle.vv_vols.specs.Calls.{with_piece, with_appended, placed_at, with_held, with_made, new_held};
ghost use Rattle.vv_vols.specs.Places.{with_taken};
ghost use Rattle.vv_vols.specs.Rows.{seen_entry, seen_entries, volume_with};
ghost use Rattle.vv_tables.specs.Restored.{with_image, with_clone};
ghost use Rattle.vv_tables.specs.Giving.{MayGiveOne, MayGive, with_given, seen_pieces, with_some};

use std::sync::ledger::Ledger;
use vv_entries::Entry;
use vv_pool::{FreshList, Steps};
use vv_units::{NoMemory, Place, VolumeId};
use vv_vols::{Head, Held, Shelf};

/// An entry at the index of its chunk.
#[derive(Clone, Copy, Debug, PartialEq, Eq)]
pub struct GivenPiece {
    pub index: u32,
    pub entry: Entry,
}

/// Takes this place, if it is free, where none is reserved.
fn take_free(shelf: &mut Shelf, place: Place, taken: &mut FreshList) -> bool
    requires fresh { shelf.old.shelf.fresh ≡ [] }
    requires reserved { shelf.old.shelf.reserved ≡ 0 }
    requires memory { length taken.old.places + 1 ≤ taken.old.capacity }
    ensures free { result ≡ is_shelf_free shelf.old.shelf place.0 }
    ensures taken { OnTrue result (shelf.new ≡ record shelf.old { shelf = with_taken shelf.old.shelf (place.0 ∷ []) }) }
    ensures out { OnTrue result (taken.new ≡ appended taken.old (place.0 ∷ [])) }
    ensures refused { OnFalse result (shelf.new ≡ shelf.old) }
    ensures refused_out { OnFalse result (taken.new ≡ taken.old) }
{
    shelf.keeps_sharing();
    if shelf.free() == 0 {
        return false;
    }
    shelf.take_at(place, taken)
}

/// Puts a place at a position of a held list: one that is free, or that an entry with the same index and stamp names.
fn give_place<L: Ledger>(
    shelf: &mut Shelf,
    held: &mut Held,
    at: u32,
    place: Place,
    stamp: u64,
    taken: &mut FreshList,
    steps: &mut Steps<L>,
)
    requires may { MayGiveOne shelf.old.shelf held.old.number at (placed_at place.0 stamp) }
    requires empty { taken.old.places ≡ [] }
    requires memory { 1 ≤ taken.old.capacity }
    ensures held { held.new ≡ held.old }
    ensures shelf { shelf.new.shelf ≡ with_piece shelf.old.shelf held.old.number at (placed_at place.0 stamp) }
    ensures rooms { shelf.new.rooms ≡ shelf.old.rooms }
    ensures taken { taken.new ≡ taken.old }
{
    shelf.keeps_sharing();
    if take_free(shelf, place, taken) {
        match taken.next() {
            Some(fresh) => shelf.put_held(held, at, fresh, stamp),
            None => unreachable!(),
        }
    } else {
        shelf.share_held(held, at, place, stamp, steps);
    }
}

/// Puts an entry at a position of a held list, where the list is unmapped.
fn give_entry<L: Ledger>(
    shelf: &mut Shelf,
    held: &mut Held,
    at: u32,
    entry: Entry,
    taken: &mut FreshList,
    steps: &mut Steps<L>,
)
    requires may { MayGiveOne shelf.old.shelf held.old.number at (seen_entry entry) }
    requires empty { taken.old.places ≡ [] }
    requires memory { 1 ≤ taken.old.capacity }
    ensures held { held.new ≡ held.old }
    ensures shelf { shelf.new.shelf ≡ with_piece shelf.old.shelf held.old.number at (seen_entry entry) }
    ensures rooms { shelf.new.rooms ≡ shelf.old.rooms }
    ensures taken { taken.new ≡ taken.old }
{
    if let Some(place) = entry.place {
        give_place(shelf, held, at, place, entry.stamp, taken, steps);
    }
}

/// Puts entries into a held list that is as long and unmapped, from the first position on.
pub(crate) fn give_entries<L: Ledger>(
    shelf: &mut Shelf,
    held: &mut Held,
    entries: &[Entry],
    taken: &mut FreshList,
    steps: &mut Steps<L>,
)
    requires may { MayGive shelf.old.shelf held.old.number (seen_entries entries.now) }
    requires few { length entries.now < 2 ^ 32 }
    requires empty { taken.old.places ≡ [] }
    requires memory { 1 ≤ taken.old.capacity }
    ensures held { held.new ≡ held.old }
    ensures shelf { shelf.new.shelf ≡ with_given shelf.old.shelf held.old.number (seen_entries entries.now) }
    ensures rooms { shelf.new.rooms ≡ shelf.old.rooms }
    ensures taken { taken.new ≡ taken.old }
{
    for (i, entry) in entries.iter().enumerate() {
        give_entry(shelf, held, i as u32, *entry, taken, steps);
    }
}

/// Holds a list of these entries, with the indexes from 0 on. Want of memory leaves the shelf as it was.
pub(crate) fn hold_entries<L: Ledger>(
    shelf: &mut Shelf,
    entries: &[Entry],
    taken: &mut FreshList,
    steps: &mut Steps<L>,
) -> Result<Held, NoMemory>
    requires short { length entries.now < 2 ^ 32 }
    requires few { shelf_entries shelf.old.shelf + length entries.now ≤ shelf.old.shelf.geometry.map_chunks }
    requires shares { IsTrue (shares_places shelf.old.shelf.geometry.pool_chunks (shelf_pieces shelf.old.shelf ++ indexed (seen_entries entries.now))) }
    requires fresh { shelf.old.shelf.fresh ≡ [] }
    requires reserved { shelf.old.shelf.reserved ≡ 0 }
    requires empty { taken.old.places ≡ [] }
    requires memory { 1 ≤ taken.old.capacity }
    ensures held { IfOk result (λ held. held ≡ record { number = next_held shelf.old.shelf; len = length entries.now }) }
    ensures unused { IfOk result (λ held. held_in shelf.old.shelf held.number ≡ None) }
    ensures shelf { OnOk result (shelf.new.shelf ≡ with_held shelf.old.shelf (new_held shelf.old.shelf (indexed (seen_entries entries.now)) false 0)) }
    ensures rooms { shelf.new.rooms ≡ shelf.old.rooms }
    ensures err { OnErr result (shelf.new ≡ shelf.old) }
    ensures taken { taken.new ≡ taken.old }
{
    let room = shelf.reserve_list(entries.len() as u32)?;
    let mut held = shelf.hold_target(entries.len() as u32, room);
    give_entries(shelf, &mut held, entries, taken, steps);
    Ok(held)
}

/// Makes a volume of these entries. Want of memory leaves the lists as they were.
pub(crate) fn make_entries<L: Ledger>(
    shelf: &mut Shelf,
    id: VolumeId,
    head: Head,
    entries: &[Entry],
    taken: &mut FreshList,
    steps: &mut Steps<L>,
) -> Result<(), NoMemory>
    requires unused { volume_in shelf.old.shelf id.0 ≡ None }
    requires short { length entries.now < 2 ^ 32 }
    requires few { shelf_entries shelf.old.shelf + length entries.now ≤ shelf.old.shelf.geometry.map_chunks }
    requires shares { IsTrue (shares_places shelf.old.shelf.geometry.pool_chunks (shelf_pieces shelf.old.shelf ++ indexed (seen_entries entries.now))) }
    requires fresh { shelf.old.shelf.fresh ≡ [] }
    requires reserved { shelf.old.shelf.reserved ≡ 0 }
    requires empty { taken.old.places ≡ [] }
    requires memory { 1 ≤ taken.old.capacity }
    ensures ok { OnOk result (shelf.new.shelf ≡ with_made shelf.old.shelf (volume_with id.0 head (seen_entries entries.now))) }
    ensures rooms { shelf.new.rooms ≡ shelf.old.rooms }
    ensures err { OnErr result (shelf.new ≡ shelf.old) }
    ensures taken { taken.new ≡ taken.old }
{
    let held = hold_entries(shelf, entries, taken, steps)?;
    shelf.make_held(id, head, held);
    Ok(())
}

/// Holds an image of these entries, with the indexes from 0 on. For a moment a volume with this head has them, by a number
/// that no other has. Want of memory leaves the lists as they were.
pub(crate) fn hold_image<L: Ledger>(
    shelf: &mut Shelf,
    id: VolumeId,
    head: Head,
    entries: &[Entry],
    taken: &mut FreshList,
    steps: &mut Steps<L>,
) -> Result<Held, NoMemory>
    requires unused { volume_in shelf.old.shelf id.0 ≡ None }
    requires short { length entries.now < 2 ^ 32 }
    requires few { shelf_entries shelf.old.shelf + length entries.now + length entries.now ≤ shelf.old.shelf.geometry.map_chunks }
    requires shares { IsTrue (shares_places shelf.old.shelf.geometry.pool_chunks (shelf_pieces shelf.old.shelf ++ indexed (seen_entries entries.now))) }
    requires fresh { shelf.old.shelf.fresh ≡ [] }
    requires reserved { shelf.old.shelf.reserved ≡ 0 }
    requires empty { taken.old.places ≡ [] }
    requires memory { 1 ≤ taken.old.capacity }
    ensures held { IfOk result (λ held. held ≡ record { number = next_held shelf.old.shelf; len = length entries.now }) }
    ensures unused { IfOk result (λ held. held_in shelf.old.shelf held.number ≡ None) }
    ensures shelf { OnOk result (shelf.new.shelf ≡ with_held shelf.old.shelf (new_held shelf.old.shelf (indexed (seen_entries entries.now)) true 0)) }
    ensures err { OnErr result (shelf.new.shelf ≡ shelf.old.shelf) }
    ensures taken { taken.new ≡ taken.old }
{
    let room = shelf.reserve_list(entries.len() as u32)?;
    let Ok(()) = make_entries(shelf, id, head, entries, taken, steps) else {
        shelf.give_up_list(room);
        return Err(NoMemory);
    };
    let held = shelf.hold_image(id, room, steps);
    shelf.delete(id);
    Ok(held)
}

/// The lists of a running clone.
pub(crate) struct CloneLists {
    pub(crate) image: Held,
    pub(crate) target: Held,
}

/// Holds the image and the target of a running clone, of these entries. For a moment a volume with this head has the image,
/// by a number that no other has. Want of memory leaves the lists as they were.
pub(crate) fn hold_clone<L: Ledger>(
    shelf: &mut Shelf,
    id: VolumeId,
    head: Head,
    image: &[Entry],
    target: &[Entry],
    taken: &mut FreshList,
    steps: &mut Steps<L>,
) -> Result<CloneLists, NoMemory>
    requires unused { volume_in shelf.old.shelf id.0 ≡ None }
    requires short { length image.now < 2 ^ 32 }
    requires size { length target.now ≡ length image.now }
    requires few { shelf_entries shelf.old.shelf + length image.now + length target.now ≤ shelf.old.shelf.geometry.map_chunks }
    requires shares { IsTrue (shares_places shelf.old.shelf.geometry.pool_chunks (shelf_pieces shelf.old.shelf ++ (indexed (seen_entries image.now) ++ indexed (seen_entries target.now)))) }
    requires fresh { shelf.old.shelf.fresh ≡ [] }
    requires reserved { shelf.old.shelf.reserved ≡ 0 }
    requires empty { taken.old.places ≡ [] }
    requires memory { 1 ≤ taken.old.capacity }
    ensures image { IfOk result (λ lists. lists.image.number ≡ next_held shelf.old.shelf) }
    ensures target { IfOk result (λ lists. lists.target.number ≡ next_held (with_image shelf.old.shelf (seen_entries image.now))) }
    ensures shelf { OnOk result (shelf.new.shelf ≡ with_clone shelf.old.shelf (seen_entries image.now) (seen_entries target.now)) }
    ensures err { OnErr result (shelf.new.shelf ≡ shelf.old.shelf) }
    ensures taken { taken.new ≡ taken.old }
{
    let image = hold_image(shelf, id, head, image, taken, steps)?;
    let Ok(target) = hold_entries(shelf, target, taken, steps) else {
        shelf.drop_image(image);
        return Err(NoMemory);
    };
    Ok(CloneLists { image, target })
}

/// Appends an entry, with an index above the last one, to a held list that has memory for it.
fn give_piece<L: Ledger>(
    shelf: &mut Shelf,
    held: &mut Held,
    piece: GivenPiece,
    taken: &mut FreshList,
    steps: &mut Steps<L>,
)
    requires standing { IsSome (held_in shelf.old.shelf held.old.number) }
    requires target { is_image_in shelf.old.shelf held.old.number ≡ false }
    requires left { 1 ≤ left_in shelf.old.shelf held.old.number }
    requires above { IsAbove shelf.old.shelf held.old.number piece.index }
    requires len { held.old.len ≡ held_size shelf.old.shelf held.old.number }
    requires few { shelf_entries shelf.old.shelf + 1 ≤ shelf.old.shelf.geometry.map_chunks }
    requires may { MayGiveOne (with_appended shelf.old.shelf held.old.number piece.index) held.old.number held.old.len (seen_entry piece.entry) }
    requires empty { taken.old.places ≡ [] }
    requires memory { 1 ≤ taken.old.capacity }
    ensures held { held.new ≡ record held.old { len = held.old.len + 1 } }
    ensures shelf { shelf.new.shelf ≡ with_piece (with_appended shelf.old.shelf held.old.number piece.index) held.old.number held.old.len (seen_entry piece.entry) }
    ensures rooms { shelf.new.rooms ≡ shelf.old.rooms }
    ensures taken { taken.new ≡ taken.old }
{
    let at = held.len();
    shelf.hold_unmapped(held, piece.index);
    give_entry(shelf, held, at, piece.entry, taken, steps);
}

/// Holds a list of these entries at rising indexes. Want of memory leaves the shelf as it was.
pub(crate) fn hold_pieces<L: Ledger>(
    shelf: &mut Shelf,
    pieces: &[GivenPiece],
    taken: &mut FreshList,
    steps: &mut Steps<L>,
) -> Result<Held, NoMemory>
    requires short { length pieces.now < 2 ^ 32 }
    requires few { shelf_entries shelf.old.shelf + length pieces.now ≤ shelf.old.shelf.geometry.map_chunks }
    requires rising { IsTrue (all_rising (map (λ (a : Piece SeenEntry). a.index) (seen_pieces pieces.now))) }
    requires shares { IsTrue (shares_places shelf.old.shelf.geometry.pool_chunks (shelf_pieces shelf.old.shelf ++ seen_pieces pieces.now)) }
    requires fresh { shelf.old.shelf.fresh ≡ [] }
    requires reserved { shelf.old.shelf.reserved ≡ 0 }
    requires empty { taken.old.places ≡ [] }
    requires memory { 1 ≤ taken.old.capacity }
    ensures held { IfOk result (λ held. held ≡ record { number = next_held shelf.old.shelf; len = length pieces.now }) }
    ensures shelf { OnOk result (shelf.new.shelf ≡ with_some shelf.old.shelf (seen_pieces pieces.now) 0) }
    ensures err { OnErr result (shelf.new ≡ shelf.old) }
    ensures taken { taken.new ≡ taken.old }
{
    let room = shelf.reserve_list(pieces.len() as u32)?;
    let mut held = shelf.hold_none(room);
    for piece in pieces {
        give_piece(shelf, &mut held, *piece, taken, steps);
    }
    Ok(held)
}
