//! Small lists, with what is told of them.
use crate::{
    Numbers, Pair, StandingEntry, distinct_count, is_sum_within, least_apart, pairs_differ,
    used_count,
};
use std::alloc::{AllocError, Global};
use std::test::Fail;

#[test]
fn numbers_are_found(rt: HostRuntime) -> Result<(), Fail> {
    let numbers = Numbers::of(Vec::from_slice(rt.alloc(), &[5, 3, 9])?)?;
    assert_eq!(rt; numbers.has(3), true);
    assert_eq!(rt; numbers.has(4), false);
    assert_eq!(rt; numbers.are_different(), true);
    let twice = Numbers::of(Vec::from_slice(rt.alloc(), &[5, 3, 5])?)?;
    assert_eq!(rt; twice.are_different(), false);
    Ok(())
}

fn pairs(alloc: Global) -> Result<Vec<Pair>, AllocError> {
    let first = Pair {
        first: 1,
        second: 2,
    };
    let other = Pair {
        first: 0,
        second: 2,
    };
    Vec::from_slice(alloc, &[first, other, first])
}

#[test]
fn pairs_are_counted_once(rt: HostRuntime) -> Result<(), Fail> {
    assert_eq!(rt; distinct_count(pairs(rt.alloc())?)?, 2);
    assert_eq!(rt; pairs_differ(pairs(rt.alloc())?)?, false);
    Ok(())
}

/// An entry of a volume at place 3 and index 0.
fn entry(stamp: u64) -> StandingEntry {
    StandingEntry {
        target_of: None,
        index: 0,
        place: Some(3),
        stamp,
    }
}

#[test]
fn a_place_with_two_stamps_is_found(rt: HostRuntime) -> Result<(), Fail> {
    let mut entries = Vec::new(rt.alloc());
    entries.push(entry(4))?;
    entries.push(entry(4))?;
    assert_eq!(rt; least_apart(rt.alloc(), &entries)?, None);
    entries.push(entry(5))?;
    assert_eq!(rt; least_apart(rt.alloc(), &entries)?, Some(3));
    assert_eq!(rt; used_count(rt.alloc(), &entries)?, 2);
    Ok(())
}

#[test]
fn a_sum_at_its_limit_is_within(rt: HostRuntime) {
    assert_eq!(rt; is_sum_within(&[2, 3], 5), true);
    assert_eq!(rt; is_sum_within(&[2, 3], 4), false);
}
