//! The tables of an array with every section in use, restored whole and in pieces; a rule that is broken, and an area that
//! is cut off.
ghost use Rattle.std.specs.Prelude.{IfOk, ◌++◌};
ghost use Rattle.vv_restore.specs.Reading.{IsReading};

use crate::{TablesReader, read_tables};
use std::alloc::{AllocError, Global};
use std::test::Fail;
use vv_area::AreaFault;
use vv_tables::Tables;
use vv_units::Geometry;

/// Containers 0 and 1, volume 2 in the one and volume 7 in the other, volume 2 bound for host 7, a clone of volume 2 that
/// has copied its one chunk, and a copy of one piece into volume 7.
static TABLES: [u8; 315] = [
    0, 0, 0, 0, 0, 0, 0, 20, 2, 0, 0, 0, 0, 0, 0, 0, 0, 0, 0, 0, 0, 255, 255, 255, 255, 0, 0, 0, 0,
    0, 0, 0, 0, 1, 0, 0, 0, 0, 0, 0, 0, 5, 0, 0, 2, 0, 0, 0, 0, 0, 0, 0, 2, 0, 0, 0, 0, 0, 0, 0, 0,
    1, 0, 0, 0, 0, 0, 0, 0, 0, 0, 0, 0, 0, 0, 0, 0, 0, 0, 0, 0, 0, 0, 0, 1, 0, 0, 0, 3, 0, 0, 0, 0,
    0, 0, 0, 4, 0, 0, 0, 0, 0, 0, 0, 7, 0, 0, 0, 0, 0, 0, 0, 1, 1, 0, 0, 0, 0, 0, 0, 0, 0, 0, 0, 0,
    0, 0, 0, 0, 0, 0, 0, 0, 0, 0, 0, 2, 0, 0, 0, 5, 0, 0, 0, 0, 0, 0, 0, 8, 255, 255, 255, 255, 0,
    0, 0, 0, 0, 0, 0, 0, 0, 0, 1, 0, 0, 0, 7, 0, 1, 0, 1, 0, 0, 0, 0, 0, 0, 0, 2, 0, 1, 0, 2, 0, 0,
    0, 0, 0, 0, 0, 9, 1, 0, 0, 0, 0, 0, 0, 0, 2, 0, 0, 0, 0, 1, 0, 0, 0, 1, 0, 0, 0, 0, 0, 0, 0,
    11, 2, 0, 0, 0, 0, 0, 0, 0, 2, 0, 0, 0, 0, 0, 0, 0, 7, 0, 0, 0, 0, 0, 0, 0, 7, 0, 0, 0, 0, 0,
    0, 0, 0, 1, 0, 0, 0, 0, 0, 0, 0, 0, 1, 0, 0, 0, 0, 0, 1, 0, 0, 0, 3, 0, 0, 0, 0, 0, 0, 0, 4, 0,
    0, 0, 1, 0, 0, 0, 6, 0, 0, 0, 0, 0, 0, 0, 9, 0, 0, 0, 1, 0, 0, 0, 0, 0, 0, 0, 3, 0, 0, 0, 0, 0,
    0, 0, 4,
];

fn geometry() -> Result<Geometry, Fail> {
    let geometry = Geometry::new(2048, 16, 256).ok_or("a geometry")?;
    Ok(geometry)
}

fn changed(alloc: Global, at: usize, byte: u8) -> Result<Vec<u8>, AllocError> {
    let mut bytes = Vec::from_slice(alloc, &TABLES)?;
    if at < bytes.len() {
        bytes[at] = byte;
    }
    Ok(bytes)
}

/// How many volumes, bindings, tasks, entries of an image and pieces tables have.
fn rows_of(told: Result<Tables, AreaFault>) -> Result<[u32; 5], AreaFault> {
    let tables = told?;
    let rows = [
        tables.standing_volumes(),
        tables.binding_count(),
        tables.task_count(),
        tables.image_len_at(0),
        tables.piece_count_at(0),
    ];
    tables.close();
    Ok(rows)
}

#[test]
fn an_area_is_restored(rt: HostRuntime) -> Result<(), Fail> {
    let told = read_tables(rt.alloc(), geometry()?, &TABLES, 2);
    assert_eq!(rt; rows_of(told), Ok([2, 1, 2, 1, 1]));
    Ok(())
}

#[test]
fn a_broken_rule_is_told(rt: HostRuntime) -> Result<(), Fail> {
    // A charge above the quota.
    let bytes = changed(rt.alloc(), 41, 0)?;
    let told = read_tables(rt.alloc(), geometry()?, &bytes, 2);
    let fault = AreaFault::Rule { rule: 5, found: 0 };
    assert_eq!(rt; rows_of(told), Err(fault));
    Ok(())
}

/// A reader to which both parts of an area were fed.
fn fed_reader(
    alloc: Global,
    geometry: Geometry,
    front: &[u8],
    back: &[u8],
) -> Result<TablesReader, AreaFault>
    ensures { IfOk result (λ reader. IsReading reader geometry 2 (front.now ++ back.now)) }
{
    let Ok(mut reader) = TablesReader::new(alloc, geometry, 2) else {
        return Err(AreaFault::NoMemory);
    };
    reader.feed(front)?;
    reader.feed(back)?;
    Ok(reader)
}

/// The tables of an area in two pieces.
fn read_parts(
    alloc: Global,
    geometry: Geometry,
    front: &[u8],
    back: &[u8],
) -> Result<Tables, AreaFault> {
    let reader = fed_reader(alloc, geometry, front, back)?;
    reader.finish(alloc)
}

#[test]
fn an_area_in_pieces_is_restored(rt: HostRuntime) -> Result<(), Fail> {
    let (front, back) = TABLES.split_at(120);
    let told = read_parts(rt.alloc(), geometry()?, front, back);
    assert_eq!(rt; rows_of(told), Ok([2, 1, 2, 1, 1]));
    Ok(())
}

#[test]
fn an_area_that_is_cut_off_is_bad(rt: HostRuntime) -> Result<(), Fail> {
    let (front, _) = TABLES.split_at(120);
    let told = read_tables(rt.alloc(), geometry()?, front, 2);
    assert_eq!(rt; rows_of(told), Err(AreaFault::Bad { at: 120 }));
    Ok(())
}
