//! Each call once, with ample memory.
ghost use Rattle.std.specs.Prelude.{◌≡◌, ◌-◌, ◌^◌, ◌<◌, ◌≤◌, ℕ, length, slice_index};
ghost use Rattle.vv_map.specs.Pages.{IsMapOf, count_at, pages_for};

use crate::{ChunkMap, EndedPages, PageRoom, PageStore, PagedMap, Steps};
use std::marker::Brand;
use std::sync::ledger::{Blank, Ledger};
use std::test::Fail;

#[test]
fn each_call_of_a_plain_list(rt: HostRuntime) -> Result<(), Fail> {
    let mut list = ChunkMap::new_filled(rt.alloc(), 2, 5u64)?;
    list.set(1, 6);
    list.grow(3, 7)?;
    let copy = list.copy(rt.alloc())?;
    list.set(0, 8);
    assert_eq!(rt; copy.len(), 3);
    assert_eq!(rt; copy.get(0), 5);
    assert_eq!(rt; copy.get(1), 6);
    assert_eq!(rt; copy.get(2), 7);
    Ok(())
}

#[test]
fn each_call_of_a_store(rt: HostRuntime) -> Result<(), Fail> {
    let mut store = PageStore::new(rt.alloc());
    let room = store.reserve(2)?;
    let mut spare = store.reserve(3)?;
    let mut map = store.make(100, 7u64, room);
    assert!(rt; !store.unshare(&mut map, 70, &mut spare));
    store.set(&mut map, 70, 9);
    store.grow(&mut map, 130, 8, &mut spare);
    assert_eq!(rt; store.len(&map), 130);
    assert_eq!(rt; store.get(&map, 69), 7);
    assert_eq!(rt; store.get(&map, 70), 9);
    assert_eq!(rt; store.get(&map, 129), 8);
    assert_eq!(rt; count(store.release(map)), 130);
    Ok(())
}

#[test]
fn a_shared_list_ends_with_its_last_name(rt: HostRuntime) -> Result<(), Fail> {
    let mut store = PageStore::new(rt.alloc());
    let room = store.reserve(2)?;
    let more = store.reserve(2)?;
    let map = store.make(65, 1u64, room);
    assert_eq!(rt;
        share_once::<Brand>(&mut store, map, more, Blank::new(1)),
        (0, 65)
    );
    Ok(())
}

/// Shares a list, ends it, and then its equal. Says how many entries ended each time.
fn share_once<L: Ledger>(
    store: &mut PageStore<u64>,
    map: PagedMap<u64>,
    room: PageRoom<u64>,
    blank: Blank,
) -> (u64, u64)
    requires name { blank.name ≡ L.name }
    requires parts { blank.parts ≡ L.parts }
    requires some { 0 < blank.parts }
    requires of { IsMapOf store.old map }
    requires room { pages_for map.len ≤ room.numbers }
    requires small { (i : ℕ) → i < length map.numbers → count_at store.old (slice_index map.numbers i) < 2 ^ 32 - 1 }
{
    let mut steps: Steps<L> = Steps::new(blank);
    let same = store.share(&map, room, &mut steps);
    let first = count(store.release(map));
    let last = count(store.release(same));
    (first, last)
}

/// How many entries ended.
fn count(ended: EndedPages<u64>) -> u64 {
    let mut ended = ended;
    let mut count = 0u64;
    while let Some(_entry) = ended.next() {
        count = count.wrapping_add(1);
    }
    ended.close();
    count
}
