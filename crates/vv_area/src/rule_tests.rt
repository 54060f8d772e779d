//! Tables that keep all rules, and those that break one of them, with what is found.
use crate::{AreaFault, RawContext, RawTables};
use std::alloc::{AllocError, Global};
use std::test::Fail;
use vv_units::{EndpointId, Geometry, HostId, ItemList};

/// The tables of an array as it was formatted.
static EMPTY: [u8; 33] = [
    0, 0, 0, 0, 0, 0, 0, 0, 1, 0, 0, 0, 0, 0, 0, 0, 0, 0, 0, 0, 0, 255, 255, 255, 255, 0, 0, 0, 0,
    0, 0, 0, 0,
];

/// Containers 0 and 1, volume 2 in the one and volume 7 in the other, volume 2 bound for host 7, a clone of volume 2 that
/// has copied its one chunk, and a copy of one piece into volume 7.
static TABLES: [u8; 315] = [
    0, 0, 0, 0, 0, 0, 0, 20, 2, 0, 0, 0, 0, 0, 0, 0, 0, 0, 0, 0, 0, 255, 255, 255, 255, 0, 0, 0, 0,
    0, 0, 0, 0, 1, 0, 0, 0, 0, 0, 0, 0, 5, 0, 0, 2, 0, 0, 0, 0, 0, 0, 0, 2, 0, 0, 0, 0, 0, 0, 0, 0,
    1, 0, 0, 0, 0, 0, 0, 0, 0, 0, 0, 0, 0, 0, 0, 0, 0, 0, 0, 0, 0, 0, 0, 1, 0, 0, 0, 3, 0, 0, 0, 0,
    0, 0, 0, 4, 0, 0, 0, 0, 0, 0, 0, 7, 0, 0, 0, 0, 0, 0, 0, 1, 1, 0, 0, 0, 0, 0, 0, 0, 0, 0, 0, 0,
    0, 0, 0, 0, 0, 0, 0, 0, 0, 0, 0, 2, 0, 0, 0, 5, 0, 0, 0, 0, 0, 0, 0, 8, 255, 255, 255, 255, 0,
    0, 0, 0, 0, 0, 0, 0, 0, 0, 1, 0, 0, 0, 7, 0, 1, 0, 1, 0, 0, 0, 0, 0, 0, 0, 2, 0, 1, 0, 2, 0, 0,
    0, 0, 0, 0, 0, 9, 1, 0, 0, 0, 0, 0, 0, 0, 2, 0, 0, 0, 0, 1, 0, 0, 0, 1, 0, 0, 0, 0, 0, 0, 0,
    11, 2, 0, 0, 0, 0, 0, 0, 0, 2, 0, 0, 0, 0, 0, 0, 0, 7, 0, 0, 0, 0, 0, 0, 0, 7, 0, 0, 0, 0, 0,
    0, 0, 0, 1, 0, 0, 0, 0, 0, 0, 0, 0, 1, 0, 0, 0, 0, 0, 1, 0, 0, 0, 3, 0, 0, 0, 0, 0, 0, 0, 4, 0,
    0, 0, 1, 0, 0, 0, 6, 0, 0, 0, 0, 0, 0, 0, 9, 0, 0, 0, 1, 0, 0, 0, 0, 0, 0, 0, 3, 0, 0, 0, 0, 0,
    0, 0, 4,
];

/// A byte in place of another, the rule that is broken then, and what is found.
static BREAKS: [(usize, u8, u64, u64); 16] = [
    // A task above the log number.
    (7, 10, 1, 0),
    // A container that is missing.
    (112, 2, 2, 0),
    // A charge above the quota.
    (41, 0, 5, 0),
    // One place with two stamps.
    (140, 3, 6, 3),
    // An image of another stamp.
    (278, 6, 6, 3),
    // One index and stamp at two places.
    (270, 2, 6, 2),
    // A stamp without a place.
    (160, 1, 6, 4294967295),
    // A place without a stamp.
    (148, 0, 6, 5),
    // A place behind the pool.
    (140, 16, 6, 16),
    // A stamp above the log number.
    (148, 21, 6, 5),
    // An endpoint that the host has not.
    (169, 2, 7, 0),
    // The target of a copy is bound.
    (179, 7, 7, 0),
    // A clone of two chunks.
    (209, 2, 8, 0),
    // A stamp of the target.
    (294, 10, 8, 0),
    // A copy of two pieces.
    (251, 2, 9, 0),
    // More done than all.
    (247, 2, 9, 0),
];

fn geometry(chunk_blocks: u32) -> Result<Geometry, Fail> {
    let geometry = Geometry::new(chunk_blocks, 16, 256).ok_or("a geometry")?;
    Ok(geometry)
}

fn read(alloc: Global, chunk_blocks: u32, bytes: &[u8]) -> Result<RawTables, Fail> {
    let geometry = geometry(chunk_blocks)?;
    let tables = RawTables::read(alloc, geometry, bytes, 2).map_err(|_| "tables")?;
    Ok(tables)
}

fn changed(alloc: Global, at: usize, byte: u8) -> Result<Vec<u8>, AllocError> {
    let mut bytes = Vec::from_slice(alloc, &TABLES)?;
    if at < bytes.len() {
        bytes[at] = byte;
    }
    Ok(bytes)
}

#[test]
fn empty_tables_keep_all_rules(rt: HostRuntime) -> Result<(), Fail> {
    let tables = read(rt.alloc(), 2048, &EMPTY)?;
    assert_eq!(rt; tables.rules(rt.alloc()), Ok(()));
    Ok(())
}

#[test]
fn tables_keep_all_rules(rt: HostRuntime) -> Result<(), Fail> {
    let tables = read(rt.alloc(), 2048, &TABLES)?;
    assert_eq!(rt; tables.rules(rt.alloc()), Ok(()));
    Ok(())
}

#[test]
fn changed_tables_break_a_rule(rt: HostRuntime) -> Result<(), Fail> {
    for (at, byte, rule, found) in BREAKS.iter() {
        let bytes = changed(rt.alloc(), *at, *byte)?;
        let tables = read(rt.alloc(), 2048, &bytes)?;
        let fault = AreaFault::Rule {
            rule: *rule,
            found: *found,
        };
        assert_eq!(rt; tables.rules(rt.alloc()), Err(fault));
    }
    Ok(())
}

#[test]
fn nine_endpoints_break_rule_3(rt: HostRuntime) -> Result<(), Fail> {
    let mut tables = read(rt.alloc(), 2048, &TABLES)?;
    let mut endpoints = Vec::new(rt.alloc());
    for endpoint in 1..10u16 {
        endpoints.push(EndpointId(endpoint))?;
    }
    let mut contexts = Vec::new(rt.alloc());
    contexts.push(RawContext {
        host: HostId(7),
        endpoints: ItemList::of(endpoints),
    })?;
    tables.contexts = ItemList::of(contexts);
    let fault = AreaFault::Rule { rule: 3, found: 0 };
    assert_eq!(rt; tables.rules(rt.alloc()), Err(fault));
    Ok(())
}

#[test]
fn a_part_of_an_mb_breaks_rule_4(rt: HostRuntime) -> Result<(), Fail> {
    let tables = read(rt.alloc(), 512, &TABLES)?;
    let fault = AreaFault::Rule { rule: 4, found: 0 };
    assert_eq!(rt; tables.rules(rt.alloc()), Err(fault));
    Ok(())
}
