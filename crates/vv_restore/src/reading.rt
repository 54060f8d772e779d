//! Areas read up to their tables in memory.
ghost use Rattle.std.specs.Prelude.{ℕ, ◌≡◌, List, [], ◌++◌, Ok, IfOk, IfErr, OnOk};
ghost use Rattle.vv_units.specs.declared.geometry.Geometry.{Geometry as GeometryState};
ghost use Rattle.vv_fields.specs.Fields.{AreBytes};
ghost use Rattle.vv_area.specs.Area.{tables_of, tables_in, IsFaultOf};
ghost use Rattle.vv_restore.specs.Restoring.{TellsTables};
ghost use Rattle.vv_restore.specs.Reading.{IsReading, TellsArea};

use crate::restoring::restore;
use std::alloc::Global;
use std::marker::Model;
use vv_area::{AreaFault, RawTables};
use vv_area_reader::RawReader;
use vv_tables::Tables;
use vv_units::{Geometry, NoMemory};

/// The tables in memory that the bytes of a whole area stand for, in spelling 1 or else in spelling 2. Where they spell none,
/// the fault tells at which place, and where these break a rule, which.
pub fn read_tables(
    alloc: Global,
    geometry: Geometry,
    area: &[u8],
    spelling: u8,
) -> Result<Tables, AreaFault>
    ensures { TellsArea result (tables_in geometry spelling area.now) }
{
    look_at(area);
    let raw = RawTables::read(alloc, geometry, area, spelling)?;
    restore_read(alloc, &raw)
}

/// Reads an area that comes in pieces, up to its tables in memory.
#[derive(Drop)]
pub struct TablesReader {
    reader: RawReader,
}

impl Model for TablesReader {
    ghost use Rattle.vv_area_reader.specs.Told.{AreaReading};

    ghost Value = { AreaReading };

    ghost view = { λ a. a.reader };
}

impl TablesReader {
    /// A reader to which nothing was fed, of tables in spelling 1 or else in spelling 2.
    pub fn new(alloc: Global, geometry: Geometry, spelling: u8) -> Result<TablesReader, NoMemory>
        ensures { IfOk result (λ reader. IsReading reader geometry spelling []) }
    {
        let reader = RawReader::new(alloc, geometry, spelling)?;
        Ok(TablesReader { reader })
    }

    /// Reads on in the area, whose next bytes these are. A fault is the one that is told in the end, whatever comes; the
    /// reader is given up then.
    pub fn feed(&mut self, piece: &[u8]) -> Result<(), AreaFault>
        ensures ok { OnOk result ((geometry : GeometryState) → (spelling : ℕ) → (area : List ℕ)
            → IsReading self.old geometry spelling area → IsReading self.new geometry spelling (area ++ piece.now)) }
        ensures fault { IfErr result (λ fault. (geometry : GeometryState) → (spelling : ℕ) → (area : List ℕ)
            → IsReading self.old geometry spelling area
            → (coming : List ℕ) → IsFaultOf fault (tables_in geometry spelling (area ++ (piece.now ++ coming)))) }
    {
        look_at(piece);
        self.reader.feed(piece)
    }

    /// The tables in memory, if the area ends here; else the fault, or the first rule that fails.
    pub fn finish(self, alloc: Global) -> Result<Tables, AreaFault>
        requires set { (geometry : GeometryState) × (spelling : ℕ) × (area : List ℕ) × IsReading self geometry spelling area }
        ensures { (geometry : GeometryState) → (spelling : ℕ) → (area : List ℕ)
            → IsReading self geometry spelling area → TellsArea result (tables_in geometry spelling area) }
    {
        let TablesReader { reader } = self;
        let raw = reader.finish()?;
        restore_read(alloc, &raw)
    }
}

/// The tables in memory that raw tables stand for, which were read of bytes; else the first rule that fails.
fn restore_read(alloc: Global, raw: &RawTables) -> Result<Tables, AreaFault>
    requires read { (geometry : GeometryState) × (spelling : ℕ) × (area : List ℕ) × AreBytes area
        × (tables_in geometry spelling area ≡ Ok (tables_of raw.now)) }
    ensures { TellsTables result (tables_of raw.now) }
{
    restore(alloc, raw)
}

/// Looks at each of these bytes, and so tells that they are bytes.
fn look_at(bytes: &[u8])
    ensures { AreBytes bytes.now }
{
    for byte in bytes {
        let _byte = *byte;
    }
}
