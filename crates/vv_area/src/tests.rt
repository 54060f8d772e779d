//! Tables with every section in use, damages of them with the places of their faults, and the empty tables.
use crate::{AreaFault, RawTables};
use std::alloc::{AllocError, Global};
use std::test::Fail;
use vv_units::{Geometry, VolumeId, VolumeKind};

/// The tables of an array as it was formatted.
static EMPTY: [u8; 33] = [
    0, 0, 0, 0, 0, 0, 0, 0, 1, 0, 0, 0, 0, 0, 0, 0, 0, 0, 0, 0, 0, 255, 255, 255, 255, 0, 0, 0, 0,
    0, 0, 0, 0,
];

/// Two containers, a volume and its snapshot, a context, two bindings, a clone and a copy that run, in spelling 2.
static TABLES: [u8; 389] = [
    0, 0, 0, 0, 0, 0, 0, 9, 2, 0, 0, 0, 0, 0, 0, 0, 0, 0, 0, 0, 0, 255, 255, 255, 255, 0, 0, 0, 0,
    0, 0, 0, 0, 1, 0, 0, 0, 0, 0, 0, 0, 100, 2, 4, 114, 97, 105, 100, 0, 0, 0, 0, 0, 0, 0, 5, 4,
    114, 97, 105, 110, 0, 0, 0, 0, 0, 0, 0, 7, 0, 2, 0, 0, 0, 0, 0, 0, 0, 2, 0, 0, 0, 0, 0, 0, 0,
    0, 1, 0, 0, 0, 0, 0, 0, 0, 0, 0, 0, 0, 0, 0, 0, 0, 0, 0, 0, 2, 1, 97, 2, 110, 111, 1, 98, 0, 0,
    0, 0, 2, 0, 0, 0, 0, 0, 0, 0, 0, 0, 0, 0, 3, 255, 255, 255, 255, 0, 0, 0, 0, 0, 0, 0, 0, 0, 0,
    0, 0, 0, 0, 0, 4, 0, 0, 0, 0, 0, 0, 0, 1, 0, 1, 0, 0, 0, 0, 0, 0, 0, 2, 0, 0, 0, 0, 0, 0, 0, 5,
    1, 4, 114, 97, 105, 100, 0, 0, 0, 0, 0, 0, 0, 5, 0, 0, 0, 0, 1, 0, 0, 0, 0, 0, 0, 0, 0, 0, 0,
    0, 3, 1, 0, 0, 0, 7, 2, 0, 3, 0, 1, 0, 2, 0, 0, 0, 7, 0, 3, 0, 1, 0, 0, 0, 0, 0, 0, 0, 2, 0, 1,
    0, 0, 0, 7, 0, 3, 0, 2, 0, 0, 0, 0, 0, 0, 0, 4, 0, 1, 0, 2, 0, 0, 0, 0, 0, 0, 0, 6, 1, 0, 0, 0,
    0, 0, 0, 0, 2, 0, 0, 0, 0, 0, 0, 0, 0, 1, 0, 0, 0, 0, 0, 0, 0, 8, 2, 0, 0, 0, 0, 0, 0, 0, 2, 0,
    0, 0, 0, 0, 0, 0, 4, 0, 0, 0, 0, 0, 0, 0, 2, 0, 0, 0, 0, 0, 0, 0, 0, 1, 0, 0, 0, 0, 0, 0, 0, 0,
    1, 0, 0, 0, 0, 0, 1, 0, 0, 0, 0, 0, 0, 0, 0, 0, 0, 0, 3, 0, 0, 0, 1, 255, 255, 255, 255, 0, 0,
    0, 0, 0, 0, 0, 0, 0, 0, 0, 1, 0, 0, 0, 1, 0, 0, 0, 0, 0, 0, 0, 0, 0, 0, 0, 3,
];

/// The same in spelling 1.
static FIRST_TABLES: [u8; 373] = [
    0, 0, 0, 0, 0, 0, 0, 9, 2, 0, 0, 0, 0, 0, 0, 0, 0, 0, 0, 0, 0, 255, 255, 255, 255, 0, 0, 0, 0,
    0, 0, 0, 0, 1, 0, 0, 0, 0, 0, 0, 0, 100, 2, 4, 114, 97, 105, 100, 0, 0, 0, 0, 0, 0, 0, 5, 4,
    114, 97, 105, 110, 0, 0, 0, 0, 0, 0, 0, 7, 0, 2, 0, 0, 0, 0, 0, 0, 0, 2, 0, 0, 0, 0, 0, 0, 0,
    0, 1, 0, 0, 0, 0, 0, 0, 0, 0, 0, 0, 2, 1, 97, 2, 110, 111, 1, 98, 0, 0, 0, 0, 2, 0, 0, 0, 0, 0,
    0, 0, 0, 0, 0, 0, 3, 255, 255, 255, 255, 0, 0, 0, 0, 0, 0, 0, 0, 0, 0, 0, 0, 0, 0, 0, 4, 0, 0,
    0, 0, 0, 0, 0, 1, 0, 1, 0, 0, 0, 0, 0, 0, 0, 2, 1, 4, 114, 97, 105, 100, 0, 0, 0, 0, 0, 0, 0,
    5, 0, 0, 0, 0, 1, 0, 0, 0, 0, 0, 0, 0, 0, 0, 0, 0, 3, 1, 0, 0, 0, 7, 2, 0, 3, 0, 1, 0, 2, 0, 0,
    0, 7, 0, 3, 0, 1, 0, 0, 0, 0, 0, 0, 0, 2, 0, 1, 0, 0, 0, 7, 0, 3, 0, 2, 0, 0, 0, 0, 0, 0, 0, 4,
    0, 1, 0, 2, 0, 0, 0, 0, 0, 0, 0, 6, 1, 0, 0, 0, 0, 0, 0, 0, 2, 0, 0, 0, 0, 0, 0, 0, 0, 1, 0, 0,
    0, 0, 0, 0, 0, 8, 2, 0, 0, 0, 0, 0, 0, 0, 2, 0, 0, 0, 0, 0, 0, 0, 4, 0, 0, 0, 0, 0, 0, 0, 2, 0,
    0, 0, 0, 0, 0, 0, 0, 1, 0, 0, 0, 0, 0, 0, 0, 0, 1, 0, 0, 0, 0, 0, 1, 0, 0, 0, 0, 0, 0, 0, 0, 0,
    0, 0, 3, 0, 0, 0, 1, 255, 255, 255, 255, 0, 0, 0, 0, 0, 0, 0, 0, 0, 0, 0, 1, 0, 0, 0, 1, 0, 0,
    0, 0, 0, 0, 0, 0, 0, 0, 0, 3,
];

/// A byte in place of another, and the place of the fault.
static DAMAGES: [(usize, u8, usize); 40] = [
    // No container.
    (8, 0, 8),
    // Container 0 is second.
    (16, 1, 9),
    // Containers that stand still.
    (33, 0, 26),
    // A quota of 2^32.
    (37, 1, 34),
    // 17 offers.
    (42, 17, 42),
    // A name with an upper letter.
    (44, 82, 44),
    // A name of no character.
    (43, 0, 43),
    // A name twice.
    (60, 100, 57),
    // Volumes that stand still.
    (150, 2, 143),
    // Volumes that fall.
    (150, 1, 143),
    // Type 5.
    (87, 5, 87),
    // Kind 4.
    (88, 4, 88),
    // A plain volume of another.
    (96, 2, 89),
    // 9 needs.
    (177, 9, 177),
    // 65 pairs.
    (106, 65, 106),
    // A key twice.
    (113, 97, 113),
    // A key with a quote.
    (108, 34, 108),
    // A note with a backslash.
    (111, 92, 110),
    // A note of 97 characters.
    (109, 97, 109),
    // Host 0.
    (212, 0, 209),
    // Host 65.
    (212, 65, 209),
    // 9 endpoints.
    (213, 9, 213),
    // Endpoint 0.
    (215, 0, 214),
    // An endpoint twice.
    (217, 3, 216),
    // A binding of host 0.
    (223, 0, 220),
    // A lower host.
    (241, 6, 238),
    // A lower endpoint.
    (243, 2, 242),
    // The same address.
    (245, 1, 244),
    // A lower address.
    (245, 0, 244),
    // Tasks that stand still.
    (291, 6, 284),
    // Job 0.
    (266, 0, 266),
    // Job 3.
    (292, 3, 292),
    // State 4.
    (275, 4, 275),
    // A clone of type 5.
    (334, 5, 334),
    // 9 needs of a clone.
    (335, 9, 335),
    // 65 pairs of a clone.
    (336, 65, 336),
    // One piece more.
    (372, 2, 389),
    // One piece fewer.
    (372, 0, 373),
    // A copy that doesn't run.
    (317, 1, 369),
    // One entry more of the last volume.
    (195, 2, 233),
];

fn geometry() -> Option<Geometry> {
    Geometry::new(2048, 16, 256)
}

/// The place of the fault of these bytes, if they have one.
fn place_of_fault(alloc: Global, bytes: &[u8], spelling: u8) -> Option<usize> {
    match RawTables::read(alloc, geometry()?, bytes, spelling) {
        Err(AreaFault::Bad { at }) => Some(at),
        _ => None,
    }
}

fn damaged(alloc: Global, at: usize, byte: u8) -> Result<Vec<u8>, AllocError> {
    let mut bytes = Vec::from_slice(alloc, &TABLES)?;
    if at < bytes.len() {
        bytes[at] = byte;
    }
    Ok(bytes)
}

#[test]
fn damages_have_their_places(rt: HostRuntime) -> Result<(), Fail> {
    for (at, byte, place) in DAMAGES.iter() {
        let bytes = damaged(rt.alloc(), *at, *byte)?;
        assert_eq!(rt; place_of_fault(rt.alloc(), &bytes, 2), Some(*place));
    }
    Ok(())
}

#[test]
fn an_end_within_a_field_is_the_place(rt: HostRuntime) {
    for n in 0..TABLES.len() {
        assert_eq!(rt; place_of_fault(rt.alloc(), &TABLES[..n], 2), Some(n));
    }
}

#[test]
fn a_byte_after_the_end_is_the_place(rt: HostRuntime) -> Result<(), Fail> {
    let mut bytes = Vec::from_slice(rt.alloc(), &TABLES)?;
    bytes.push(0)?;
    assert_eq!(rt; place_of_fault(rt.alloc(), &bytes, 2), Some(389));
    Ok(())
}

#[test]
fn empty_tables_are_read(rt: HostRuntime) -> Result<(), Fail> {
    let geometry = geometry().ok_or("a geometry")?;
    let tables = RawTables::read(rt.alloc(), geometry, &EMPTY, 2).map_err(|_| "tables")?;
    assert_eq!(rt; tables.lsn, 0);
    let containers = tables.containers.items();
    assert_eq!(rt; containers.len(), 1);
    let first = &containers[0];
    assert_eq!(rt; first.quota, 4_294_967_295);
    assert_eq!(rt; tables.volumes.items().len(), 0);
    Ok(())
}

#[test]
fn volumes_are_read(rt: HostRuntime) -> Result<(), Fail> {
    let geometry = geometry().ok_or("a geometry")?;
    let tables = RawTables::read(rt.alloc(), geometry, &TABLES, 2).map_err(|_| "tables")?;
    let volumes = tables.volumes.items();
    assert_eq!(rt; volumes.len(), 2);
    let snapshot = &volumes[1];
    assert_eq!(rt; snapshot.kind, VolumeKind::SnapshotOf(VolumeId(2)));
    assert_eq!(rt; snapshot.reverted, 5);
    assert_eq!(rt; snapshot.entries.items().len(), 1);
    Ok(())
}

#[test]
fn spelling_1_has_no_revert(rt: HostRuntime) -> Result<(), Fail> {
    let geometry = geometry().ok_or("a geometry")?;
    let tables = RawTables::read(rt.alloc(), geometry, &FIRST_TABLES, 1).map_err(|_| "tables")?;
    let volumes = tables.volumes.items();
    assert_eq!(rt; volumes.len(), 2);
    let snapshot = &volumes[1];
    assert_eq!(rt; snapshot.reverted, 0);
    assert_eq!(rt; tables.copies.items().len(), 1);
    Ok(())
}

#[test]
fn spelling_1_has_16_pairs_at_most(rt: HostRuntime) -> Result<(), Fail> {
    let mut bytes = Vec::from_slice(rt.alloc(), &FIRST_TABLES)?;
    assert_eq!(rt; bytes.len(), 373);
    bytes[98] = 17;
    assert_eq!(rt; place_of_fault(rt.alloc(), &bytes, 1), Some(98));
    Ok(())
}
