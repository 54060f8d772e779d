//! Each call once, with ample memory.
ghost use Rattle.std.specs.Prelude.{◌≡◌, ◌<◌};

use crate::{Entry, EntryStore};
use std::marker::Brand;
use std::sync::ledger::{Blank, Ledger};
use std::test::Fail;
use vv_pool::{FreshList, Steps};

#[test]
fn a_list_is_made_and_ends(rt: HostRuntime) -> Result<(), Fail> {
    let mut entries = EntryStore::new(rt.alloc(), 4, 8)?;
    let room = entries.room(2)?;
    let map = entries.make(100, room);
    assert_eq!(rt; entries.get(&map, 99), Entry::unmapped());
    entries.release(map);
    Ok(())
}

#[test]
fn places_are_reserved(rt: HostRuntime) -> Result<(), Fail> {
    let mut entries = EntryStore::new(rt.alloc(), 4, 8)?;
    assert!(rt; entries.reserve(3).is_ok());
    entries.unreserve(1);
    assert_eq!(rt; entries.pool().free(), 2);
    Ok(())
}
