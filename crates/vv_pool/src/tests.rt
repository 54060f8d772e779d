//! Each call once, with ample memory.

ghost use Rattle.std.specs.Prelude.{◌≡◌, ◌+◌, ◌-◌, ◌^◌, ◌<◌, ◌≤◌, ◌∷◌, length};
ghost use Rattle.vv_pool.specs.Pool.{count_of, with_count};

use crate::{Fresh, FreshList, Full, Pool, Steps};
use std::marker::Brand;
use std::sync::ledger::{Blank, Ledger};
use std::test::Fail;
use vv_units::Place;

/// Raises a place's count once, and counts the step in a ledger of its own.
fn raise_once<L: Ledger>(pool: &mut Pool, place: Place, blank: Blank)
    requires name { blank.name ≡ L.name }
    requires parts { blank.parts ≡ L.parts }
    requires some { 0 < blank.parts }
    requires counted { 1 ≤ count_of pool.old place.0 }
    requires small { count_of pool.old place.0 < 2 ^ 32 - 1 }
    ensures { pool.new ≡ with_count pool.old place.0 (count_of pool.old place.0 + 1) }
{
    let mut steps: Steps<L> = Steps::new(blank);
    pool.raise(place, &mut steps);
}

#[test]
fn each_call_once(rt: HostRuntime) -> Result<(), Fail> {
    let mut pool = Pool::new(rt.alloc(), 4)?;
    let mut out = FreshList::new(rt.alloc(), 4)?;
    assert_eq!(rt; pool.reserve(1), Ok(()));
    assert_eq!(rt; pool.room(4), Err(Full { free: 3, asked: 4 }));
    assert_eq!(rt; pool.take(1, &mut out), Ok(()));
    assert!(rt; pool.take_at(Place(3), &mut out));
    assert_eq!(rt; pool.lowest(0), Some(Place(1)));
    pool.take_reserved(1, &mut out);
    assert_eq!(rt; pool.used(), 3);
    assert_eq!(rt; pool.free(), 1);
    let first = next(&mut out);
    let place = pool.publish(first);
    assert_eq!(rt; place, Place(0));
    raise_once::<Brand>(&mut pool, place, Blank::new(1));
    pool.lower(place);
    let second = next(&mut out);
    pool.give_back(second);
    let third = next(&mut out);
    pool.give_back(third);
    out.close();
    assert_eq!(rt; pool.used(), 1);
    assert_eq!(rt; pool.reserve(1), Ok(()));
    pool.unreserve(1);
    assert_eq!(rt; pool.free(), 3);
    Ok(())
}

/// The first of a list that has one.
fn next(list: &mut FreshList) -> Fresh
    requires { 0 < length list.old.places }
    ensures { list.old ≡ record list.new { places = result ∷ list.new.places } }
{
    match list.next() {
        Some(fresh) => fresh,
        None => unreachable!(),
    }
}
