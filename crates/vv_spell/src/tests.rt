//! The area of a new array, in pieces.
use crate::{area_len, area_piece};
use std::test::Fail;
use vv_tables::Tables;
use vv_units::Geometry;

/// A pool of 16 chunks of 8 blocks, and 64 entries.
fn small() -> Geometry {
    Geometry {
        chunk_blocks: 8,
        pool_chunks: 16,
        map_chunks: 64,
    }
}

/// A new array's area: the log number, container 0 with its quota of 2^32 - 1 and no offer, and five tables without a row.
#[test]
fn a_new_array_is_spelled_in_33_bytes(rt: HostRuntime) -> Result<(), Fail> {
    let tables = Tables::new(rt.alloc(), small())?;
    assert_eq!(rt; area_len(&tables), 33);
    tables.close();
    Ok(())
}

#[test]
fn the_first_bytes_are_the_log_number_and_a_count(rt: HostRuntime) -> Result<(), Fail> {
    let tables = Tables::new(rt.alloc(), small())?;
    let mut piece = [7; 9];
    if area_len(&tables) == 33 {
        area_piece(&tables, 0, &mut piece);
    }
    assert_eq!(rt; piece, [0, 0, 0, 0, 0, 0, 0, 0, 1]);
    tables.close();
    Ok(())
}

#[test]
fn a_piece_begins_inside_a_field(rt: HostRuntime) -> Result<(), Fail> {
    let tables = Tables::new(rt.alloc(), small())?;
    let mut piece = [7; 8];
    if area_len(&tables) == 33 {
        area_piece(&tables, 20, &mut piece);
    }
    assert_eq!(rt; piece, [0, 255, 255, 255, 255, 0, 0, 0]);
    tables.close();
    Ok(())
}
