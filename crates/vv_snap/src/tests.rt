//! Copies of volumes with chunks: a write behind a snapshot, reverts to a longer and a shorter snapshot, ten snapshots.
ghost use Rattle.std.specs.Prelude.{ℕ, ◌≡◌, ◌≢◌, ◌+◌, ◌*◌, ◌<◌, ◌≤◌, [], IfSome, IsSome, None};
ghost use Rattle.std.specs.List.{Contains};
ghost use Rattle.vv_flat.specs.State.{Piece};
ghost use Rattle.vv_flat.specs.Chunks.{Entry as SeenEntry};
ghost use Rattle.vv_vols.specs.Shelf.{volume_in, size_in, shelf_entries, shelf_pieces};
ghost use Rattle.vv_vols.specs.Rows.{IsListRoom, empty_view};
ghost use Rattle.vv_snap.specs.Copies.{IsHeadOf, with_copy};
ghost use Rattle.vv_units.specs.declared.volume.VolumeKind.TheVariants.{SnapshotOf};

use crate::{copy_head, fast_clone, revert, snapshot};
use std::alloc::Global;
use std::marker::Brand;
use std::sync::ledger::{Blank, Ledger};
use std::test::Fail;
use vv_entries::Entry;
use vv_pool::{Fresh, FreshList, Steps};
use vv_units::{
    ContainerId, Geometry, ItemList, NoMemory, PairList, Place, VolumeId, VolumeKind, VvolType,
};
use vv_vols::{Head, MapRoom, Shelf};

/// The head of a volume that asks for nothing.
fn plain_head(alloc: Global) -> Head {
    Head {
        container: ContainerId(1),
        vtype: VvolType::Data,
        kind: VolumeKind::Plain,
        reverted: 7,
        needs: ItemList::of(Vec::new(alloc)),
        metadata: PairList::new(alloc),
    }
}

/// Takes a place, if it is free.
fn take_place(shelf: &mut Shelf, out: &mut FreshList, place: u32) -> Option<Fresh>
    requires none { out.old.places ≡ [] }
    requires room { 1 ≤ out.old.capacity }
    ensures out { out.new ≡ out.old }
    ensures shelf { shelf.new ≡ record shelf.old { shelf = record shelf.old.shelf { fresh = shelf.new.shelf.fresh } } }
    ensures fresh { IfSome result (λ fresh. Contains shelf.new.shelf.fresh fresh) }
{
    if shelf.free() == 0 {
        return None;
    }
    if !shelf.take_at(Place(place), out) {
        return None;
    }
    match out.next() {
        Some(fresh) => Some(fresh),
        None => unreachable!(),
    }
}

/// Puts fresh places at the first indexes of volume 1, which has no chunk yet. Says whether there were as many.
fn fill<L: Ledger>(
    shelf: &mut Shelf,
    out: &mut FreshList,
    chunks: u32,
    room: &mut MapRoom,
    steps: &mut Steps<L>,
) -> bool
    requires standing { IsSome (volume_in shelf.old.shelf 1) }
    requires within { chunks ≤ size_in shelf.old.shelf 1 }
    requires unmapped { (a : Piece SeenEntry) → Contains (shelf_pieces shelf.old.shelf) a → a.chunk.stamp ≤ 0 }
    requires none { out.old.places ≡ [] }
    requires places { 1 ≤ out.old.capacity }
    requires room { chunks < room.old.pages }
    ensures standing { IsSome (volume_in shelf.new.shelf 1) }
    ensures size { size_in shelf.new.shelf 1 ≡ size_in shelf.old.shelf 1 }
    ensures others { (m : ℕ) → m ≢ 1 → volume_in shelf.new.shelf m ≡ volume_in shelf.old.shelf m }
    ensures entries { shelf_entries shelf.new.shelf ≡ shelf_entries shelf.old.shelf }
    ensures rooms { shelf.new.rooms ≡ shelf.old.rooms }
    ensures geometry { shelf.new.shelf.geometry ≡ shelf.old.shelf.geometry }
    ensures stamps { (a : Piece SeenEntry) → Contains (shelf_pieces shelf.new.shelf) a → a.chunk.stamp ≤ chunks }
    ensures out { out.new ≡ out.old }
    ensures room { 1 ≤ room.new.pages }
{
    for index in 0..chunks {
        let Some(fresh) = take_place(shelf, out, index) else {
            return false;
        };
        shelf.put_fresh(VolumeId(1), index, fresh, u64::from(index) + 1, room, steps);
    }
    true
}

/// Takes a snapshot of the 256 chunks of volume 1: four steps.
fn snapshot_in_four_steps<L: Ledger>(shelf: &mut Shelf, room: MapRoom, steps: &mut Steps<L>)
    requires standing { IsSome (volume_in shelf.old.shelf 1) }
    requires size { size_in shelf.old.shelf 1 ≡ 256 }
    requires unused { volume_in shelf.old.shelf 2 ≡ None }
    requires few { shelf_entries shelf.old.shelf + 256 ≤ shelf.old.shelf.geometry.map_chunks }
    requires room { IsListRoom 256 room }
    requires rows { 1 ≤ shelf.old.rooms }
    requires put_in { IsSome room.head }
    requires head { IfSome room.head (λ head. IsHeadOf shelf.old.shelf 1 head) }
    ensures shelf { shelf.new.shelf ≡ with_copy shelf.old.shelf 1 2 (SnapshotOf (record { 0 = 1 })) }
    ensures steps { steps.new ≡ steps.old + 4 }
{
    snapshot(shelf, VolumeId(1), VolumeId(2), room, steps);
}

/// Fills 200 of 256 chunks, takes a snapshot, and writes once more. Gives the allocated chunks of both volumes, and the
/// entry of the chunk in both.
fn write_behind_a_snapshot<L: Ledger>(
    alloc: Global,
    shelf: &mut Shelf,
    out: &mut FreshList,
    blank: Blank,
) -> Result<Option<Written>, NoMemory>
    requires name { blank.name ≡ L.name }
    requires parts { blank.parts ≡ L.parts }
    requires some { 0 < blank.parts }
    requires empty { shelf.old ≡ empty_view shelf.old.shelf.geometry }
    requires sized { 1024 ≤ shelf.old.shelf.geometry.map_chunks }
    requires none { out.old.places ≡ [] }
    requires places { 1 ≤ out.old.capacity }
    ensures { out.new ≡ out.old }
{
    let mut steps: Steps<L> = Steps::new(blank);
    let volume = VolumeId(1);
    let room = shelf.reserve_list(256)?;
    shelf.make(volume, plain_head(alloc), 256, room);
    let mut room = shelf.reserve_list(16384)?;
    let spare = shelf.reserve_list(256)?;
    if !fill(shelf, out, 200, &mut room, &mut steps) {
        return Ok(None);
    }
    let head = copy_head(alloc, shelf, volume)?;
    snapshot_in_four_steps(shelf, spare.with_head(head), &mut steps);
    let Some(fresh) = take_place(shelf, out, 200) else {
        return Ok(None);
    };
    shelf.put_fresh(volume, 70, fresh, 201, &mut room, &mut steps);
    Ok(Some(Written {
        allocated: shelf.allocated_count(volume),
        before: shelf.entry(VolumeId(2), 70),
        after: shelf.entry(volume, 70),
    }))
}

/// What is seen of a volume that was written behind its snapshot.
#[derive(Clone, Copy)]
struct Written {
    allocated: u32,
    before: Entry,
    after: Entry,
}

/// The same with a list for one fresh place.
fn written_behind_a_snapshot<L: Ledger>(
    alloc: Global,
    shelf: &mut Shelf,
    blank: Blank,
) -> Result<Option<Written>, NoMemory>
    requires name { blank.name ≡ L.name }
    requires parts { blank.parts ≡ L.parts }
    requires some { 0 < blank.parts }
    requires empty { shelf.old ≡ empty_view shelf.old.shelf.geometry }
    requires sized { 1024 ≤ shelf.old.shelf.geometry.map_chunks }
{
    let mut out = FreshList::new(alloc, 1)?;
    let written = write_behind_a_snapshot::<L>(alloc, shelf, &mut out, blank);
    out.close();
    written
}

#[test]
fn a_snapshot_stays_where_its_volume_is_written(rt: HostRuntime) -> Result<(), Fail> {
    let geometry = Geometry::new(8, 256, 1024).ok_or("a geometry")?;
    let mut shelf = Shelf::new(rt.alloc(), geometry)?;
    let written = written_behind_a_snapshot::<Brand>(rt.alloc(), &mut shelf, Blank::new(1));
    let used = shelf.used();
    shelf.close();
    let written = written?.ok_or("places for all")?;
    assert_eq!(rt; used, 201);
    assert_eq!(rt; written.allocated, 200);
    assert_eq!(rt; written.before, Entry::placed(Place(70), 71));
    assert_eq!(rt; written.after, Entry::placed(Place(200), 201));
    Ok(())
}

/// Volume 1 has 8 chunks at its first snapshot and 70 at its second. Gives how many it has after a revert to the one and
/// after one to the other, and how many entries there are then.
fn go_back_twice<L: Ledger>(
    alloc: Global,
    shelf: &mut Shelf,
    blank: Blank,
) -> Result<(u32, u32, u32), NoMemory>
    requires name { blank.name ≡ L.name }
    requires parts { blank.parts ≡ L.parts }
    requires some { 0 < blank.parts }
    requires empty { shelf.old ≡ empty_view shelf.old.shelf.geometry }
    requires sized { 1024 ≤ shelf.old.shelf.geometry.map_chunks }
{
    let mut steps: Steps<L> = Steps::new(blank);
    let volume = VolumeId(1);
    let room = shelf.reserve_list(8)?;
    shelf.make(volume, plain_head(alloc), 8, room);
    let room = shelf.reserve_list(8)?;
    let head = copy_head(alloc, shelf, volume)?;
    snapshot(shelf, volume, VolumeId(2), room.with_head(head), &mut steps);
    let room = shelf.reserve_list(70)?;
    shelf.grow(volume, 70, room, &mut steps);
    let room = shelf.reserve_list(70)?;
    let head = copy_head(alloc, shelf, volume)?;
    snapshot(shelf, volume, VolumeId(3), room.with_head(head), &mut steps);
    let room = shelf.reserve_list(8)?;
    revert(shelf, volume, VolumeId(2), room, &mut steps);
    let shorter = shelf.entries(volume);
    let room = shelf.reserve_list(70)?;
    revert(shelf, volume, VolumeId(3), room, &mut steps);
    Ok((shorter, shelf.entries(volume), shelf.total_entries()))
}

#[test]
fn a_volume_goes_back_to_a_shorter_and_a_longer_snapshot(rt: HostRuntime) -> Result<(), Fail> {
    let geometry = Geometry::new(8, 256, 1024).ok_or("a geometry")?;
    let mut shelf = Shelf::new(rt.alloc(), geometry)?;
    let sizes = go_back_twice::<Brand>(rt.alloc(), &mut shelf, Blank::new(1));
    shelf.close();
    assert_eq!(rt; sizes?, (8, 70, 148));
    Ok(())
}

/// Takes ten snapshots of volume 1, which has 8 chunks, and a fast clone.
fn copy_often<L: Ledger>(
    alloc: Global,
    shelf: &mut Shelf,
    steps: &mut Steps<L>,
) -> Result<(), NoMemory>
    requires standing { IsSome (volume_in shelf.old.shelf 1) }
    requires size { size_in shelf.old.shelf 1 ≡ 8 }
    requires alone { (m : ℕ) → m ≢ 1 → volume_in shelf.old.shelf m ≡ None }
    requires entries { shelf_entries shelf.old.shelf ≡ 8 }
    requires sized { 1024 ≤ shelf.old.shelf.geometry.map_chunks }
{
    for number in 2..12u64 {
        let room = shelf.reserve_list(8)?;
        let head = copy_head(alloc, shelf, VolumeId(1))?;
        snapshot(
            shelf,
            VolumeId(1),
            VolumeId(number),
            room.with_head(head),
            steps,
        );
    }
    let room = shelf.reserve_list(8)?;
    let head = copy_head(alloc, shelf, VolumeId(1))?;
    fast_clone(
        shelf,
        VolumeId(1),
        VolumeId(12),
        room.with_head(head),
        steps,
    );
    Ok(())
}

/// Fills a volume of 8 chunks, and copies it. Says whether there were places for it.
fn fill_and_copy<L: Ledger>(
    alloc: Global,
    shelf: &mut Shelf,
    out: &mut FreshList,
    blank: Blank,
) -> Result<bool, NoMemory>
    requires name { blank.name ≡ L.name }
    requires parts { blank.parts ≡ L.parts }
    requires some { 0 < blank.parts }
    requires empty { shelf.old ≡ empty_view shelf.old.shelf.geometry }
    requires sized { 1024 ≤ shelf.old.shelf.geometry.map_chunks }
    requires none { out.old.places ≡ [] }
    requires places { 1 ≤ out.old.capacity }
    ensures { out.new ≡ out.old }
{
    let mut steps: Steps<L> = Steps::new(blank);
    let room = shelf.reserve_list(8)?;
    shelf.make(VolumeId(1), plain_head(alloc), 8, room);
    let mut room = shelf.reserve_list(1024)?;
    if !fill(shelf, out, 8, &mut room, &mut steps) {
        return Ok(false);
    }
    copy_often(alloc, shelf, &mut steps)?;
    Ok(true)
}

/// The same with a list for one fresh place.
fn filled_and_copied<L: Ledger>(
    alloc: Global,
    shelf: &mut Shelf,
    blank: Blank,
) -> Result<bool, NoMemory>
    requires name { blank.name ≡ L.name }
    requires parts { blank.parts ≡ L.parts }
    requires some { 0 < blank.parts }
    requires empty { shelf.old ≡ empty_view shelf.old.shelf.geometry }
    requires sized { 1024 ≤ shelf.old.shelf.geometry.map_chunks }
{
    let mut out = FreshList::new(alloc, 1)?;
    let copied = fill_and_copy::<L>(alloc, shelf, &mut out, blank);
    out.close();
    copied
}

#[test]
fn ten_snapshots_take_no_place(rt: HostRuntime) -> Result<(), Fail> {
    let geometry = Geometry::new(8, 256, 1024).ok_or("a geometry")?;
    let mut shelf = Shelf::new(rt.alloc(), geometry)?;
    let copied = filled_and_copied::<Brand>(rt.alloc(), &mut shelf, Blank::new(1));
    let used = shelf.used();
    let entries = shelf.total_entries();
    let last = shelf
        .volume(VolumeId(11))
        .map(|head| (head.kind, head.reverted));
    let clone = shelf.volume(VolumeId(12)).map(|head| head.kind);
    shelf.close();
    assert!(rt; copied?);
    assert_eq!(rt; used, 8);
    assert_eq!(rt; entries, 96);
    assert_eq!(rt; last, Some((VolumeKind::SnapshotOf(VolumeId(1)), 7)));
    assert_eq!(rt; clone, Some(VolumeKind::FastCloneOf(VolumeId(1))));
    Ok(())
}
