//! Cores from the areas of images, whole or in pieces.
ghost use Rattle.std.specs.Prelude.{◌≡◌, ℕ, List, [], ◌++◌, IfOk, OnOk, IfErr};
ghost use Rattle.vv_units.specs.declared.geometry.Geometry.{Geometry as GeometryState};
ghost use Rattle.vv_flat.specs.State.{empty_volatile};
ghost use Rattle.vv_area.specs.declared.fault.AreaFault.TheVariants as AreaFault;
ghost use Rattle.vv_area.specs.Area.{tables_in, IsFaultOf};
ghost use Rattle.vv_core.specs.Areas.{IsReading, TellsCore};

use crate::array_core::Core;
use std::alloc::Global;
use std::marker::Model;
use vv_area::AreaFault;
use vv_restore::{TablesReader, read_tables};
use vv_tables::Tables;
use vv_units::{Geometry, NoMemory};
use vv_waiting::Waiting;

/// Reads an area that comes in pieces, up to the core of its tables.
#[derive(Drop)]
pub struct AreaReader {
    reader: TablesReader,
}

impl Model for AreaReader {
    ghost use Rattle.vv_area_reader.specs.Told.{AreaReading};

    ghost Value = { AreaReading };

    ghost view = { λ a. a.reader };
}

impl AreaReader {
    /// A reader to which nothing was fed, of tables in spelling 1 or else in spelling 2.
    pub fn new(alloc: Global, geometry: Geometry, spelling: u8) -> Result<AreaReader, NoMemory>
        ensures { IfOk result (λ reader. IsReading reader geometry spelling []) }
    {
        let reader = TablesReader::new(alloc, geometry, spelling)?;
        Ok(AreaReader { reader })
    }

    /// Reads on in the area, whose next bytes these are. A fault is the one that is told in the end, whatever comes; the
    /// reader is given up then.
    pub fn feed(&mut self, piece: &[u8]) -> Result<(), AreaFault>
        ensures ok { OnOk result ((geometry : GeometryState) → (spelling : ℕ) → (area : List ℕ) → IsReading self.old geometry spelling area
            → IsReading self.new geometry spelling (area ++ piece.now)) }
        ensures fault { IfErr result (λ fault. (geometry : GeometryState) → (spelling : ℕ) → (area : List ℕ) → IsReading self.old geometry spelling area
            → (coming : List ℕ) → IsFaultOf fault (tables_in geometry spelling (area ++ (piece.now ++ coming)))) }
    {
        self.reader.feed(piece)
    }

    /// The core of the tables of the area, if it ends here; else the fault, or the first rule that fails.
    pub fn finish(self, alloc: Global) -> Result<Core, AreaFault>
        requires set { (geometry : GeometryState) × (spelling : ℕ) × (area : List ℕ) × IsReading self geometry spelling area }
        ensures { (geometry : GeometryState) → (spelling : ℕ) → (area : List ℕ) → IsReading self geometry spelling area → TellsCore result (tables_in geometry spelling area) }
    {
        let AreaReader { reader } = self;
        match reader.finish(alloc) {
            Ok(tables) => core_of(alloc, tables),
            Err(fault) => Err(fault),
        }
    }
}

impl Core {
    /// The core of the tables that the bytes of an area spell, in spelling 1 or else in spelling 2. Where they spell none, the
    /// fault tells at which place, and where these break a rule, which.
    pub fn from_area(
        alloc: Global,
        geometry: Geometry,
        bytes: &[u8],
        spelling: u8,
    ) -> Result<Core, AreaFault>
        ensures { TellsCore result (tables_in geometry spelling bytes.now) }
    {
        match read_tables(alloc, geometry, bytes, spelling) {
            Ok(tables) => core_of(alloc, tables),
            Err(fault) => Err(fault),
        }
    }
}

/// The core of tables, where nothing waits.
fn core_of(alloc: Global, tables: Tables) -> Result<Core, AreaFault>
    ensures ok { IfOk result (λ core. core.array ≡ record { durable = tables.durable; volatile = empty_volatile }) }
    ensures err { IfErr result (λ fault. fault ≡ AreaFault.NoMemory) }
{
    let Ok(waiting) = Waiting::new(alloc) else {
        tables.close();
        return Err(AreaFault::NoMemory);
    };
    Ok(Core { tables, waiting })
}
