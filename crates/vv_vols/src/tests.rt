//! Volumes and places, with ample memory.
ghost use Rattle.std.specs.Prelude.{◌≡◌, ◌+◌, ◌<◌, ◌≤◌, [], ◌∷◌, IsSome, IsTrue, IfSome, IfNone, IfOk, length};
ghost use Rattle.std.specs.List.{Contains};
ghost use Rattle.vv_flat.specs.Chunks.{unmapped_entry};
ghost use Rattle.vv_vols.specs.Shelf.{volume_in, size_in, shelf_entries};
ghost use Rattle.vv_vols.specs.Places.{with_taken};
ghost use Rattle.vv_vols.specs.Calls.{with_made, with_put, placed_at};
ghost use Rattle.vv_vols.specs.Conditions.{is_new_stamp};
ghost use Rattle.vv_vols.specs.Rows.{IsListRoom, IsChangeRoom, empty_view, volume_with};

use crate::{Head, MapRoom, Shelf};
use std::alloc::Global;
use std::marker::Brand;
use std::sync::ledger::{Blank, Ledger};
use std::test::Fail;
use vv_entries::Entry;
use vv_pool::{Fresh, FreshList, Full, Steps};
use vv_units::{
    ContainerId, Geometry, NeedList, NoMemory, PairList, Place, VolumeId, VolumeKind, VvolType,
};

/// The head of a plain volume.
fn plain(alloc: Global) -> Head {
    Head {
        container: ContainerId(0),
        vtype: VvolType::Data,
        kind: VolumeKind::Plain,
        reverted: 0,
        needs: NeedList::of(Vec::new(alloc)),
        metadata: PairList::new(alloc),
    }
}

/// Puts a fresh place at index 1 of volume 1, with stamp 3.
fn put_once<L: Ledger>(shelf: &mut Shelf, fresh: Fresh, room: &mut MapRoom, blank: Blank)
    requires name { blank.name ≡ L.name }
    requires parts { blank.parts ≡ L.parts }
    requires some { 0 < blank.parts }
    requires standing { IsSome (volume_in shelf.old.shelf 1) }
    requires within { 1 < size_in shelf.old.shelf 1 }
    requires fresh { Contains shelf.old.shelf.fresh fresh }
    requires stamp { IsTrue (is_new_stamp shelf.old.shelf 1 3) }
    requires room { IsChangeRoom shelf.old 1 1 1 room.old }
    ensures { shelf.new.shelf ≡ with_put shelf.old.shelf 1 1 fresh 3 }
{
    let mut steps: Steps<L> = Steps::new(blank);
    shelf.put_fresh(VolumeId(1), 1, fresh, 3, room, &mut steps);
}

/// Takes the lowest free place.
fn take_one(shelf: &mut Shelf, out: FreshList) -> Option<Fresh>
    requires empty { out.places ≡ [] }
    requires room { 1 ≤ out.capacity }
    ensures some { IfSome result (λ fresh. shelf.new ≡ record shelf.old { shelf = with_taken shelf.old.shelf (fresh ∷ []) }) }
    ensures none { IfNone result (shelf.new ≡ shelf.old) }
{
    let mut out = out;
    match shelf.take(1, &mut out) {
        Ok(()) => {
            let fresh = next(&mut out);
            out.close();
            Some(fresh)
        }
        Err(_) => {
            out.close();
            None
        }
    }
}

/// Gives volume 1 two chunks more.
fn grow_once<L: Ledger>(shelf: &mut Shelf, room: MapRoom, blank: Blank)
    requires name { blank.name ≡ L.name }
    requires parts { blank.parts ≡ L.parts }
    requires some { 0 < blank.parts }
    requires standing { IsSome (volume_in shelf.old.shelf 1) }
    requires size { size_in shelf.old.shelf 1 ≡ 4 }
    requires few { shelf_entries shelf.old.shelf + 2 ≤ shelf.old.shelf.geometry.map_chunks }
    requires room { IsListRoom 6 room }
    requires rows { 1 ≤ shelf.old.rooms }
{
    let mut steps: Steps<L> = Steps::new(blank);
    shelf.grow(VolumeId(1), 6, room, &mut steps);
}

/// The first of a list that has one.
fn next(list: &mut FreshList) -> Fresh
    requires { 0 < length list.old.places }
    ensures { list.old ≡ record list.new { places = result ∷ list.new.places } }
{
    match list.next() {
        Some(fresh) => fresh,
        None => unreachable!(),
    }
}

#[test]
fn a_place_is_taken_and_given_back(rt: HostRuntime) -> Result<(), Fail> {
    let geometry = Geometry::new(8, 16, 64).expect(&rt, "these are sizes");
    let mut shelf = Shelf::new(rt.alloc(), geometry).expect(&rt, "there is memory");
    assert_eq!(rt; shelf.reserve(3), Ok(()));
    assert_eq!(rt;
        shelf.reserve(14),
        Err(Full {
            free: 13,
            asked: 14
        })
    );
    let out = FreshList::new(rt.alloc(), 1).expect(&rt, "there is memory");
    let fresh = take_one(&mut shelf, out).expect(&rt, "a place is free");
    assert_eq!(rt; (shelf.used(), shelf.free()), (1, 12));
    shelf.give_back(fresh);
    assert_eq!(rt; (shelf.used(), shelf.free()), (0, 13));
    shelf.close();
    Ok(())
}

/// A shelf with one volume of 4 chunks.
fn with_volume(alloc: Global, geometry: Geometry) -> Result<Shelf, NoMemory>
    ensures standing { IfOk result (λ shelf. IsSome (volume_in shelf.shelf 1)) }
    ensures size { IfOk result (λ shelf. size_in shelf.shelf 1 ≡ 4) }
    ensures stamp { IfOk result (λ shelf. IsTrue (is_new_stamp shelf.shelf 1 3)) }
    ensures few { IfOk result (λ shelf. shelf_entries shelf.shelf + 2 ≤ shelf.shelf.geometry.map_chunks) }
{
    let mut shelf = Shelf::new(alloc, geometry)?;
    match shelf.reserve_list(4) {
        Ok(room) => {
            shelf.make(VolumeId(1), plain(alloc), 4, room);
            Ok(shelf)
        }
        Err(NoMemory) => {
            shelf.close();
            Err(NoMemory)
        }
    }
}

#[test]
fn a_deleted_volume_frees_its_places(rt: HostRuntime) -> Result<(), Fail> {
    let geometry = Geometry::new(8, 16, 64).expect(&rt, "these are sizes");
    let mut shelf = with_volume(rt.alloc(), geometry).expect(&rt, "there is memory");
    let mut room = shelf
        .reserve_change(VolumeId(1), 1, 1)
        .expect(&rt, "there is memory");
    let out = FreshList::new(rt.alloc(), 1).expect(&rt, "there is memory");
    let fresh = take_one(&mut shelf, out).expect(&rt, "a place is free");
    put_once::<Brand>(&mut shelf, fresh, &mut room, Blank::new(1));
    assert_eq!(rt;
        (shelf.used(), shelf.free(), shelf.total_entries()),
        (1, 15, 4)
    );
    assert_eq!(rt; shelf.allocated_count(VolumeId(1)), 1);
    shelf.delete(VolumeId(1));
    assert_eq!(rt;
        (shelf.used(), shelf.free(), shelf.total_entries()),
        (0, 16, 0)
    );
    shelf.close();
    Ok(())
}

#[test]
fn a_volume_grows(rt: HostRuntime) -> Result<(), Fail> {
    let geometry = Geometry::new(8, 16, 64).expect(&rt, "these are sizes");
    let mut shelf = with_volume(rt.alloc(), geometry).expect(&rt, "there is memory");
    let room = shelf.reserve_list(6).expect(&rt, "there is memory");
    grow_once::<Brand>(&mut shelf, room, Blank::new(1));
    assert_eq!(rt; (shelf.used(), shelf.total_entries()), (0, 6));
    shelf.close();
    Ok(())
}

/// Fills the first entry of a list of two that a task holds, and makes the list volume 2. Gives the index of its second entry, and the first entry.
fn make_filled(shelf: &mut Shelf, room: MapRoom, fresh: Fresh, head: Head) -> (u32, Entry)
    requires shelf { shelf.old.shelf ≡ record (empty_view shelf.old.shelf.geometry).shelf { fresh = shelf.old.shelf.fresh } }
    requires fresh { Contains shelf.old.shelf.fresh fresh }
    requires room { IsListRoom 2 room }
    requires rows { 1 ≤ shelf.old.rooms }
    ensures shelf { shelf.new.shelf ≡ record (with_made (empty_view shelf.old.shelf.geometry).shelf (volume_with 2 head (placed_at fresh 5 ∷ unmapped_entry ∷ []))) { fresh = shelf.new.shelf.fresh } }
    ensures rooms { shelf.new.rooms + 1 ≡ shelf.old.rooms }
{
    let mut held = shelf.hold_target(2, room);
    shelf.put_held(&mut held, 0, fresh, 5);
    let index = shelf.held_index(&held, 1);
    let entry = shelf.held_entry(&held, 0);
    shelf.make_held(VolumeId(2), head, held);
    (index, entry)
}

/// Deletes volume 2, which has two chunks, while an image of it is held. Gives how many places are used and how many entries
/// there are then, and once the image is dropped.
fn drop_image_of_deleted<L: Ledger>(
    shelf: &mut Shelf,
    room: MapRoom,
    blank: Blank,
) -> [(u32, u32); 2]
    requires name { blank.name ≡ L.name }
    requires parts { blank.parts ≡ L.parts }
    requires some { 0 < blank.parts }
    requires standing { IsSome (volume_in shelf.old.shelf 2) }
    requires size { size_in shelf.old.shelf 2 ≡ 2 }
    requires none { shelf.old.shelf.held ≡ [] }
    requires few { shelf_entries shelf.old.shelf + 2 ≤ shelf.old.shelf.geometry.map_chunks }
    requires room { IsListRoom 2 room }
    requires rows { 1 ≤ shelf.old.rooms }
{
    let mut steps: Steps<L> = Steps::new(blank);
    let image = shelf.hold_image(VolumeId(2), room, &mut steps);
    shelf.delete(VolumeId(2));
    let while_held = (shelf.used(), shelf.total_entries());
    shelf.drop_image(image);
    [while_held, (shelf.used(), shelf.total_entries())]
}

#[test]
fn an_image_keeps_its_places_until_it_is_dropped(rt: HostRuntime) -> Result<(), Fail> {
    let geometry = Geometry::new(8, 16, 64).expect(&rt, "these are sizes");
    let mut shelf = Shelf::new(rt.alloc(), geometry).expect(&rt, "there is memory");
    let target = shelf.reserve_list(2).expect(&rt, "there is memory");
    let image = shelf.reserve_list(2).expect(&rt, "there is memory");
    let out = FreshList::new(rt.alloc(), 1).expect(&rt, "there is memory");
    let fresh = take_one(&mut shelf, out).expect(&rt, "a place is free");
    let filled = make_filled(&mut shelf, target, fresh, plain(rt.alloc()));
    assert_eq!(rt; filled, (1, Entry::placed(Place(0), 5)));
    assert_eq!(rt; shelf.allocated_count(VolumeId(2)), 1);
    let counts = drop_image_of_deleted::<Brand>(&mut shelf, image, Blank::new(1));
    assert_eq!(rt; counts, [(1, 2), (0, 0)]);
    shelf.close();
    Ok(())
}
