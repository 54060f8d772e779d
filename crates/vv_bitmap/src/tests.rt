//! Each call, over two volumes of other lengths, of which one has a chunk.
ghost use Rattle.std.specs.Prelude.{◌≡◌, ◌+◌, ◌<◌, ◌≤◌, [], ◌∷◌, IsSome, IsTrue, OnOk, IfOk, IfSome, IfNone, length};
ghost use Rattle.std.specs.List.{Contains};
ghost use Rattle.vv_vols.specs.Shelf.{volume_in, size_in};
ghost use Rattle.vv_vols.specs.Places.{with_taken};
ghost use Rattle.vv_vols.specs.Conditions.{is_new_stamp};
ghost use Rattle.vv_vols.specs.Rows.{IsChangeRoom, empty_view};

use crate::{allocated, unshared, unshared_count};
use std::alloc::Global;
use std::marker::Brand;
use std::sync::ledger::{Blank, Ledger};
use std::test::Fail;
use vv_pool::{Fresh, FreshList, Steps};
use vv_units::{
    ContainerId, Geometry, NeedList, NoMemory, PairList, VolumeId, VolumeKind, VvolType,
};
use vv_vols::{Head, MapRoom, Shelf};

/// The head of a plain volume.
fn plain(alloc: Global) -> Head {
    Head {
        container: ContainerId(0),
        vtype: VvolType::Data,
        kind: VolumeKind::Plain,
        reverted: 0,
        needs: NeedList::of(Vec::new(alloc)),
        metadata: PairList::new(alloc),
    }
}

/// Makes volume 1 of 60 chunks and volume 2 of 4.
fn make_both(alloc: Global, shelf: &mut Shelf) -> Result<(), NoMemory>
    requires empty { shelf.old ≡ empty_view shelf.old.shelf.geometry }
    ensures standing { OnOk result (IsSome (volume_in shelf.new.shelf 1)) }
    ensures size { OnOk result (size_in shelf.new.shelf 1 ≡ 60) }
    ensures stamp { OnOk result (IsTrue (is_new_stamp shelf.new.shelf 1 3)) }
{
    let room = shelf.reserve_list(60)?;
    shelf.make(VolumeId(1), plain(alloc), 60, room);
    let room = shelf.reserve_list(4)?;
    shelf.make(VolumeId(2), plain(alloc), 4, room);
    Ok(())
}

/// A shelf with a volume of 60 chunks and one of 4.
fn with_volumes(alloc: Global, geometry: Geometry) -> Result<Shelf, NoMemory>
    ensures standing { IfOk result (λ shelf. IsSome (volume_in shelf.shelf 1)) }
    ensures size { IfOk result (λ shelf. size_in shelf.shelf 1 ≡ 60) }
    ensures stamp { IfOk result (λ shelf. IsTrue (is_new_stamp shelf.shelf 1 3)) }
{
    let mut shelf = Shelf::new(alloc, geometry)?;
    match make_both(alloc, &mut shelf) {
        Ok(()) => Ok(shelf),
        Err(NoMemory) => {
            shelf.close();
            Err(NoMemory)
        }
    }
}

/// The first of a list that has one.
fn next(list: &mut FreshList) -> Fresh
    requires { 0 < length list.old.places }
    ensures { list.old ≡ record list.new { places = result ∷ list.new.places } }
{
    match list.next() {
        Some(fresh) => fresh,
        None => unreachable!(),
    }
}

/// Takes the lowest free place.
fn take_one(shelf: &mut Shelf, out: FreshList) -> Option<Fresh>
    requires empty { out.places ≡ [] }
    requires room { 1 ≤ out.capacity }
    ensures some { IfSome result (λ fresh. shelf.new ≡ record shelf.old { shelf = with_taken shelf.old.shelf (fresh ∷ []) }) }
    ensures none { IfNone result (shelf.new ≡ shelf.old) }
{
    let mut out = out;
    match shelf.take(1, &mut out) {
        Ok(()) => {
            let fresh = next(&mut out);
            out.close();
            Some(fresh)
        }
        Err(_) => {
            out.close();
            None
        }
    }
}

/// Puts a fresh place at index 1 of volume 1, with stamp 3.
fn put_once<L: Ledger>(shelf: &mut Shelf, fresh: Fresh, room: &mut MapRoom, blank: Blank)
    requires name { blank.name ≡ L.name }
    requires parts { blank.parts ≡ L.parts }
    requires some { 0 < blank.parts }
    requires standing { IsSome (volume_in shelf.old.shelf 1) }
    requires within { 1 < size_in shelf.old.shelf 1 }
    requires fresh { Contains shelf.old.shelf.fresh fresh }
    requires stamp { IsTrue (is_new_stamp shelf.old.shelf 1 3) }
    requires room { IsChangeRoom shelf.old 1 1 1 room.old }
{
    let mut steps: Steps<L> = Steps::new(blank);
    shelf.put_fresh(VolumeId(1), 1, fresh, 3, room, &mut steps);
}

/// Whether a volume stands and has at least 4 chunks.
fn has_four(shelf: &Shelf, id: VolumeId) -> bool
    ensures standing { IsTrue result → IsSome (volume_in shelf.now.shelf id.0) }
    ensures size { IsTrue result → 4 ≤ size_in shelf.now.shelf id.0 }
{
    match shelf.volume(id) {
        Some(_) => shelf.entries(id) >= 4,
        None => false,
    }
}

/// The bits of the first 4 chunks of a volume against a base, and how many of its chunks are unshared in all.
fn against(shelf: &Shelf, volume: VolumeId, base: VolumeId) -> Option<([bool; 4], u32)> {
    if !has_four(shelf, volume) || !has_four(shelf, base) {
        return None;
    }
    let mut bits = [true; 4];
    unshared(shelf, volume, base, 0, &mut bits);
    Some((bits, unshared_count(shelf, volume, base)))
}

/// The allocated bits of two chunks from the second on.
fn second_and_third(shelf: &Shelf, volume: VolumeId) -> Option<[bool; 2]> {
    if !has_four(shelf, volume) {
        return None;
    }
    let mut bits = [false; 2];
    allocated(shelf, volume, 1, &mut bits);
    Some(bits)
}

#[test]
fn one_chunk_is_allocated_and_unshared(rt: HostRuntime) -> Result<(), Fail> {
    let geometry = Geometry::new(8, 16, 64).expect(&rt, "these are sizes");
    let mut shelf = with_volumes(rt.alloc(), geometry).expect(&rt, "there is memory");
    let mut room = shelf
        .reserve_change(VolumeId(1), 1, 1)
        .expect(&rt, "there is memory");
    let out = FreshList::new(rt.alloc(), 1).expect(&rt, "there is memory");
    let fresh = take_one(&mut shelf, out).expect(&rt, "a place is free");
    put_once::<Brand>(&mut shelf, fresh, &mut room, Blank::new(1));
    assert_eq!(rt; second_and_third(&shelf, VolumeId(1)), Some([true, false]));
    assert_eq!(rt;
        against(&shelf, VolumeId(1), VolumeId(1)),
        Some(([false; 4], 0))
    );
    let second = Some(([false, true, false, false], 1));
    assert_eq!(rt; against(&shelf, VolumeId(1), VolumeId(2)), second);
    assert_eq!(rt; against(&shelf, VolumeId(2), VolumeId(1)), second);
    shelf.close();
    Ok(())
}
