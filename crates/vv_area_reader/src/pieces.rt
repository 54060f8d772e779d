//! A whole area that is there in pieces.
ghost use Rattle.std.specs.List.{concat};
ghost use Rattle.vv_area.specs.Area.{Tells, tables_in};

use crate::reader::RawReader;
use std::alloc::Global;
use vv_area::{AreaFault, RawTables};
use vv_units::{ByteList, Geometry};

/// The tables of an area that is cut into these pieces, or the fault: those of the whole, however it is cut.
pub fn read_pieces(
    alloc: Global,
    geometry: Geometry,
    spelling: u8,
    pieces: &[ByteList],
) -> Result<RawTables, AreaFault>
    ensures { Tells result (tables_in geometry spelling (concat pieces.now)) }
{
    let mut reader = RawReader::new(alloc, geometry, spelling).map_err(|_| AreaFault::NoMemory)?;
    for piece in pieces {
        reader.feed(piece.items())?;
    }
    reader.finish()
}
