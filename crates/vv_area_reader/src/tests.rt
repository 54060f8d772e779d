//! An area with every section in use, cut at each place, and a long one in pieces of 1, 7 and 4096 bytes.
use crate::RawReader;
use std::alloc::{AllocError, Global};
use std::test::Fail;
use vv_area::{AreaFault, RawTables};
use vv_units::Geometry;

/// Two containers, a volume and its snapshot, a context, two bindings, a clone and a copy that run, in spelling 2.
static TABLES: [u8; 376] = [
    0, 0, 0, 0, 0, 0, 0, 9, 2, 0, 0, 0, 0, 0, 0, 0, 0, 0, 0, 0, 0, 255, 255, 255, 255, 0, 0, 0, 0,
    0, 0, 0, 0, 1, 0, 0, 0, 0, 0, 0, 0, 100, 1, 4, 114, 97, 105, 100, 0, 0, 0, 0, 0, 0, 0, 5, 0, 2,
    0, 0, 0, 0, 0, 0, 0, 2, 0, 0, 0, 0, 0, 0, 0, 0, 1, 0, 0, 0, 0, 0, 0, 0, 0, 0, 0, 0, 0, 0, 0, 0,
    0, 0, 0, 2, 1, 97, 2, 110, 111, 1, 98, 0, 0, 0, 0, 2, 0, 0, 0, 0, 0, 0, 0, 0, 0, 0, 0, 3, 255,
    255, 255, 255, 0, 0, 0, 0, 0, 0, 0, 0, 0, 0, 0, 0, 0, 0, 0, 4, 0, 0, 0, 0, 0, 0, 0, 1, 0, 1, 0,
    0, 0, 0, 0, 0, 0, 2, 0, 0, 0, 0, 0, 0, 0, 5, 1, 4, 114, 97, 105, 100, 0, 0, 0, 0, 0, 0, 0, 5,
    0, 0, 0, 0, 1, 0, 0, 0, 0, 0, 0, 0, 0, 0, 0, 0, 3, 1, 0, 0, 0, 7, 2, 0, 3, 0, 1, 0, 2, 0, 0, 0,
    7, 0, 3, 0, 1, 0, 0, 0, 0, 0, 0, 0, 2, 0, 1, 0, 0, 0, 7, 0, 3, 0, 2, 0, 0, 0, 0, 0, 0, 0, 4, 0,
    1, 0, 2, 0, 0, 0, 0, 0, 0, 0, 6, 1, 0, 0, 0, 0, 0, 0, 0, 2, 0, 0, 0, 0, 0, 0, 0, 0, 1, 0, 0, 0,
    0, 0, 0, 0, 8, 2, 0, 0, 0, 0, 0, 0, 0, 2, 0, 0, 0, 0, 0, 0, 0, 4, 0, 0, 0, 0, 0, 0, 0, 2, 0, 0,
    0, 0, 0, 0, 0, 0, 1, 0, 0, 0, 0, 0, 0, 0, 0, 1, 0, 0, 0, 0, 0, 1, 0, 0, 0, 0, 0, 0, 0, 0, 0, 0,
    0, 3, 0, 0, 0, 1, 255, 255, 255, 255, 0, 0, 0, 0, 0, 0, 0, 0, 0, 0, 0, 1, 0, 0, 0, 1, 0, 0, 0,
    0, 0, 0, 0, 0, 0, 0, 0, 3,
];

/// One volume, up to its entries: a log number, container 0, and the volume's fields.
static FRONT: [u8; 64] = [
    0, 0, 0, 0, 0, 0, 0, 9, 1, 0, 0, 0, 0, 0, 0, 0, 0, 0, 0, 0, 0, 255, 255, 255, 255, 0, 0, 1, 0,
    0, 0, 0, 0, 0, 0, 2, 0, 0, 0, 0, 0, 0, 0, 0, 1, 0, 0, 0, 0, 0, 0, 0, 0, 0, 0, 0, 0, 0, 0, 0, 0,
    5, 0, 0,
];

/// The count of its entries, and one of them.
static ENTRIES: [u8; 4] = [0, 0, 7, 208];

static ENTRY: [u8; 12] = [0, 0, 0, 3, 0, 0, 0, 0, 0, 0, 0, 4];

/// An area with 2000 entries, and nothing after them but empty tables. It is 24,073 bytes long.
fn long_area(alloc: Global) -> Result<Vec<u8>, AllocError> {
    let mut area = Vec::from_slice(alloc, &FRONT)?;
    area.extend_from_slice(&ENTRIES)?;
    for _ in 0..2000 {
        area.extend_from_slice(&ENTRY)?;
    }
    area.extend_from_slice(&[0, 0, 0, 0, 0])?;
    Ok(area)
}

fn geometry() -> Option<Geometry> {
    Geometry::new(2048, 16, 256)
}

/// The tables of an area in pieces of so many bytes.
fn read(alloc: Global, area: &[u8], length: usize) -> Result<RawTables, AreaFault> {
    let geometry = geometry().ok_or(AreaFault::NoMemory)?;
    let mut reader = RawReader::new(alloc, geometry, 2).map_err(|_| AreaFault::NoMemory)?;
    let mut rest = area;
    for _ in 0..area.len() {
        let (front, behind) = rest.split_at(rest.len().min(length));
        reader.feed(front)?;
        rest = behind;
    }
    reader.finish()
}

/// The tables of an area in two pieces.
fn read_cut(alloc: Global, area: &[u8], at: usize) -> Result<RawTables, AreaFault> {
    let geometry = geometry().ok_or(AreaFault::NoMemory)?;
    let mut reader = RawReader::new(alloc, geometry, 2).map_err(|_| AreaFault::NoMemory)?;
    let (front, behind) = area.split_at(area.len().min(at));
    reader.feed(front)?;
    reader.feed(behind)?;
    reader.finish()
}

fn place_of(told: Result<RawTables, AreaFault>) -> Option<usize> {
    match told {
        Err(AreaFault::Bad { at }) => Some(at),
        _ => None,
    }
}

#[test]
fn cut_at_each_place(rt: HostRuntime) -> Result<(), Fail> {
    for at in 0..376 {
        let tables = read_cut(rt.alloc(), &TABLES, at).map_err(|_| "tables")?;
        assert_eq!(rt; tables.lsn, 9);
        assert_eq!(rt; tables.containers.items().len(), 2);
        assert_eq!(rt; tables.volumes.items().len(), 2);
        assert_eq!(rt; tables.bindings.items().len(), 2);
        assert_eq!(rt; tables.clones.items().len(), 1);
        assert_eq!(rt; tables.copies.items().len(), 1);
    }
    Ok(())
}

#[test]
fn an_end_within_a_field_is_the_place(rt: HostRuntime) {
    for n in 0..376 {
        assert_eq!(rt;
            place_of(read_cut(rt.alloc(), &TABLES[..n], n / 2)),
            Some(n)
        );
    }
}

#[test]
fn pieces_give_the_whole(rt: HostRuntime) -> Result<(), Fail> {
    let area = long_area(rt.alloc())?;
    for length in [1, 7, 4096] {
        let tables = read(rt.alloc(), &area, length).map_err(|_| "tables")?;
        let volumes = tables.volumes.items();
        assert_eq!(rt; volumes.len(), 1);
        let volume = &volumes[0];
        assert_eq!(rt; volume.reverted, 5);
        let entries = volume.entries.items();
        assert_eq!(rt; entries.len(), 2000);
        let last = &entries[1999];
        assert_eq!(rt; last.stamp, 4);
    }
    Ok(())
}

#[test]
fn pieces_give_the_fault(rt: HostRuntime) -> Result<(), Fail> {
    let mut area = long_area(rt.alloc())?;
    area.push(0)?;
    for length in [1, 7, 4096] {
        assert_eq!(rt; place_of(read(rt.alloc(), &area, length)), Some(24_073));
    }
    assert_eq!(rt; area.len(), 24_074);
    area[24_068] = 1;
    for length in [1, 7, 4096] {
        assert_eq!(rt; place_of(read(rt.alloc(), &area, length)), Some(24_069));
    }
    Ok(())
}
