//! Differences of volumes of other lengths: one is put into a third volume, one is forgotten.
ghost use Rattle.std.specs.Prelude.{◌≡◌, ◌+◌, ◌<◌, ◌≤◌, [], ◌∷◌, IsSome, IsTrue, IfOk, IfSome};
ghost use Rattle.std.specs.List.{Contains};
ghost use Rattle.vv_flat.specs.Chunks.{unmapped_entry};
ghost use Rattle.vv_vols.specs.Shelf.{volume_in, size_in, chunks_in, shelf_entries};
ghost use Rattle.vv_vols.specs.Calls.{with_entry, placed_at};
ghost use Rattle.vv_vols.specs.Conditions.{is_new_stamp};
ghost use Rattle.vv_vols.specs.Rows.{IsListRoom, empty_view};

use crate::{apply, difference, forget};
use std::alloc::Global;
use std::marker::Brand;
use std::sync::ledger::{Blank, Ledger};
use std::test::Fail;
use vv_entries::Entry;
use vv_pool::{Fresh, FreshList, Steps};
use vv_units::{
    ContainerId, Geometry, NeedList, NoMemory, PairList, Place, VolumeId, VolumeKind, VvolType,
};
use vv_vols::{Head, MapRoom, Shelf};

/// The head of a plain volume.
fn plain(alloc: Global) -> Head {
    Head {
        container: ContainerId(0),
        vtype: VvolType::Data,
        kind: VolumeKind::Plain,
        reverted: 0,
        needs: NeedList::of(Vec::new(alloc)),
        metadata: PairList::new(alloc),
    }
}

/// Takes a place, if it is free.
fn take_place(shelf: &mut Shelf, out: &mut FreshList, place: u32) -> Option<Fresh>
    requires none { out.old.places ≡ [] }
    requires room { 1 ≤ out.old.capacity }
    ensures out { out.new ≡ out.old }
    ensures shelf { shelf.new ≡ record shelf.old { shelf = record shelf.old.shelf { fresh = shelf.new.shelf.fresh } } }
    ensures fresh { IfSome result (λ fresh. Contains shelf.new.shelf.fresh fresh) }
    ensures place { IfSome result (λ fresh. fresh ≡ place) }
{
    if shelf.free() == 0 {
        return None;
    }
    if !shelf.take_at(Place(place), out) {
        return None;
    }
    match out.next() {
        Some(fresh) => Some(fresh),
        None => unreachable!(),
    }
}

/// Puts a place at an index of volume 1, if it is free.
fn put<L: Ledger>(
    shelf: &mut Shelf,
    out: &mut FreshList,
    place: u32,
    index: u32,
    stamp: u64,
    room: &mut MapRoom,
    steps: &mut Steps<L>,
) -> bool
    requires standing { IsSome (volume_in shelf.old.shelf 1) }
    requires within { index < size_in shelf.old.shelf 1 }
    requires stamp { IsTrue (is_new_stamp shelf.old.shelf index stamp) }
    requires none { out.old.places ≡ [] }
    requires places { 1 ≤ out.old.capacity }
    requires room { 1 ≤ room.old.pages }
    ensures out { out.new ≡ out.old }
    ensures room { room.old.pages ≤ room.new.pages + 1 }
    ensures rooms { shelf.new.rooms ≡ shelf.old.rooms }
    ensures shelf { IsTrue result → shelf.new.shelf ≡ record (with_entry shelf.old.shelf 1 index (placed_at place stamp)) { fresh = shelf.new.shelf.fresh } }
{
    let Some(fresh) = take_place(shelf, out, place) else {
        return false;
    };
    shelf.put_fresh(VolumeId(1), index, fresh, stamp, room, steps);
    true
}

/// Makes volume 1 of four chunks, of which the second and the third are allocated, and of unmapped chunks volume 2 of two and
/// volume 3 of four. Says whether there were places.
fn make_three<L: Ledger>(
    alloc: Global,
    shelf: &mut Shelf,
    out: &mut FreshList,
    steps: &mut Steps<L>,
) -> Result<bool, NoMemory>
    requires empty { shelf.old ≡ empty_view shelf.old.shelf.geometry }
    requires none { out.old.places ≡ [] }
    requires places { 1 ≤ out.old.capacity }
    ensures out { out.new ≡ out.old }
    ensures geometry { IfOk result (λ made. IsTrue made → shelf.new.shelf.geometry ≡ shelf.old.shelf.geometry) }
    ensures stands { IfOk result (λ made. IsTrue made → IsSome (volume_in shelf.new.shelf 1)) }
    ensures base_stands { IfOk result (λ made. IsTrue made → IsSome (volume_in shelf.new.shelf 2)) }
    ensures target_stands { IfOk result (λ made. IsTrue made → IsSome (volume_in shelf.new.shelf 3)) }
    ensures one { IfOk result (λ made. IsTrue made → chunks_in shelf.new.shelf 1 ≡ unmapped_entry ∷ placed_at 0 3 ∷ placed_at 1 4 ∷ unmapped_entry ∷ []) }
    ensures two { IfOk result (λ made. IsTrue made → chunks_in shelf.new.shelf 2 ≡ unmapped_entry ∷ unmapped_entry ∷ []) }
    ensures three { IfOk result (λ made. IsTrue made → size_in shelf.new.shelf 3 ≡ 4) }
    ensures held { IfOk result (λ made. IsTrue made → shelf.new.shelf.held ≡ []) }
    ensures entries { IfOk result (λ made. IsTrue made → shelf_entries shelf.new.shelf ≡ 10) }
{
    let room = shelf.reserve_list(4)?;
    shelf.make(VolumeId(1), plain(alloc), 4, room);
    let room = shelf.reserve_list(2)?;
    shelf.make(VolumeId(2), plain(alloc), 2, room);
    let room = shelf.reserve_list(4)?;
    shelf.make(VolumeId(3), plain(alloc), 4, room);
    let mut room = shelf.reserve_list(256)?;
    if !put(shelf, out, 0, 1, 3, &mut room, steps) {
        return Ok(false);
    }
    Ok(put(shelf, out, 1, 2, 4, &mut room, steps))
}

/// Forgets the difference of volume 2 to volume 1, which is longer. Gives how many pieces it has, the index of the first one
/// and its entry.
fn forget_one<L: Ledger>(
    shelf: &mut Shelf,
    room: MapRoom,
    steps: &mut Steps<L>,
) -> (u32, u32, Entry)
    requires source { IsSome (volume_in shelf.old.shelf 2) }
    requires base { IsSome (volume_in shelf.old.shelf 1) }
    requires one { chunks_in shelf.old.shelf 1 ≡ unmapped_entry ∷ placed_at 0 3 ∷ placed_at 1 4 ∷ unmapped_entry ∷ [] }
    requires two { chunks_in shelf.old.shelf 2 ≡ unmapped_entry ∷ unmapped_entry ∷ [] }
    requires held { shelf.old.shelf.held ≡ [] }
    requires entries { shelf_entries shelf.old.shelf ≡ 10 }
    requires room { IsListRoom room.indexes room }
    requires enough { 4 ≤ room.indexes }
    requires rows { 1 ≤ shelf.old.rooms }
    ensures shelf { shelf.new.shelf ≡ shelf.old.shelf }
    ensures rooms { shelf.new.rooms + 1 ≡ shelf.old.rooms }
{
    let pieces = difference(shelf, VolumeId(2), VolumeId(1), room, steps);
    let seen = (
        pieces.len(),
        shelf.held_index(pieces.held(), 0),
        shelf.held_entry(pieces.held(), 0),
    );
    forget(shelf, pieces);
    seen
}

/// Puts the difference of volume 1 to volume 2, which is shorter, into volume 3. Gives how many pieces it has, and the indexes
/// of the first two.
fn copy_two<L: Ledger>(
    shelf: &mut Shelf,
    room: MapRoom,
    change: MapRoom,
    steps: &mut Steps<L>,
) -> (u32, u32, u32)
    requires source { IsSome (volume_in shelf.old.shelf 1) }
    requires base { IsSome (volume_in shelf.old.shelf 2) }
    requires target { IsSome (volume_in shelf.old.shelf 3) }
    requires one { chunks_in shelf.old.shelf 1 ≡ unmapped_entry ∷ placed_at 0 3 ∷ placed_at 1 4 ∷ unmapped_entry ∷ [] }
    requires two { chunks_in shelf.old.shelf 2 ≡ unmapped_entry ∷ unmapped_entry ∷ [] }
    requires three { size_in shelf.old.shelf 3 ≡ 4 }
    requires held { shelf.old.shelf.held ≡ [] }
    requires entries { shelf_entries shelf.old.shelf ≡ 10 }
    requires room { IsListRoom room.indexes room }
    requires enough { 4 ≤ room.indexes }
    requires change { 1 ≤ change.pages }
    requires rows { 1 ≤ shelf.old.rooms }
    ensures { IsSome (volume_in shelf.new.shelf 3) }
{
    let pieces = difference(shelf, VolumeId(1), VolumeId(2), room, steps);
    let seen = (
        pieces.len(),
        shelf.held_index(pieces.held(), 0),
        shelf.held_index(pieces.held(), 1),
    );
    apply(shelf, VolumeId(3), pieces, change, steps);
    seen
}

/// What is seen of the differences, and how many chunks of volume 3 are allocated in the end.
#[derive(Clone, Copy)]
struct Seen {
    forgotten: (u32, u32, Entry),
    copied: (u32, u32, u32),
    allocated: u32,
}

/// Makes the volumes, and takes both differences.
fn make_and_copy<L: Ledger>(
    alloc: Global,
    shelf: &mut Shelf,
    out: &mut FreshList,
    blank: Blank,
) -> Result<Option<Seen>, NoMemory>
    requires name { blank.name ≡ L.name }
    requires parts { blank.parts ≡ L.parts }
    requires some { 0 < blank.parts }
    requires empty { shelf.old ≡ empty_view shelf.old.shelf.geometry }
    requires none { out.old.places ≡ [] }
    requires places { 1 ≤ out.old.capacity }
    ensures { out.new ≡ out.old }
{
    let mut steps: Steps<L> = Steps::new(blank);
    if !make_three(alloc, shelf, out, &mut steps)? {
        return Ok(None);
    }
    let room = shelf.reserve_list(4)?;
    let forgotten = forget_one(shelf, room, &mut steps);
    let room = shelf.reserve_list(4)?;
    let change = shelf.reserve_list(4)?;
    let copied = copy_two(shelf, room, change, &mut steps);
    Ok(Some(Seen {
        forgotten,
        copied,
        allocated: shelf.allocated_count(VolumeId(3)),
    }))
}

/// The same with a list for one fresh place.
fn made_and_copied<L: Ledger>(
    alloc: Global,
    shelf: &mut Shelf,
    blank: Blank,
) -> Result<Option<Seen>, NoMemory>
    requires name { blank.name ≡ L.name }
    requires parts { blank.parts ≡ L.parts }
    requires some { 0 < blank.parts }
    requires empty { shelf.old ≡ empty_view shelf.old.shelf.geometry }
{
    let mut out = FreshList::new(alloc, 1)?;
    let seen = make_and_copy::<L>(alloc, shelf, &mut out, blank);
    out.close();
    seen
}

#[test]
fn two_unshared_chunks_are_copied(rt: HostRuntime) -> Result<(), Fail> {
    let geometry = Geometry::new(8, 256, 1024).ok_or("a geometry")?;
    let mut shelf = Shelf::new(rt.alloc(), geometry)?;
    let seen = made_and_copied::<Brand>(rt.alloc(), &mut shelf, Blank::new(1));
    let counts = (shelf.used(), shelf.total_entries());
    shelf.close();
    let seen = seen?.ok_or("places for all")?;
    assert_eq!(rt; seen.forgotten, (1, 1, Entry::unmapped()));
    assert_eq!(rt; seen.copied, (2, 1, 2));
    assert_eq!(rt; seen.allocated, 2);
    assert_eq!(rt; counts, (2, 10));
    Ok(())
}
