//! The core.
ghost use Rattle.std.specs.Prelude.{◌≡◌, IsTrue, IfOk};
ghost use Rattle.vv_flat.specs.State.{empty_array};
ghost use Rattle.vv_flat.specs.WellFormed.{is_well_formed};

use std::alloc::Global;
use std::marker::Model;
use vv_tables::Tables;
use vv_units::{Geometry, NoMemory};
use vv_waiting::Waiting;

/// The tables, queues and attentions of an array in memory. It must be closed at its end.
pub struct Core {
    pub(crate) tables: Tables,
    pub(crate) waiting: Waiting,
}

impl Model for Core {
    ghost use Rattle.std.specs.Prelude.{IsTrue};
    ghost use Rattle.vv_laws.specs.VolatileForm.{has_volatile_form};
    ghost use Rattle.vv_core.specs.Core.{CoreState, seen_core};

    ghost Value = { CoreState };

    ghost view = { λ a. seen_core a.tables a.waiting };

    ghost invariant = { λ a. IsTrue (has_volatile_form (seen_core a.tables a.waiting).array) };
}

impl Core {
    /// The core of an array as it was formatted.
    pub fn empty(alloc: Global, geometry: Geometry) -> Result<Core, NoMemory>
        ensures { IfOk result (λ core. core.array ≡ empty_array geometry) }
    {
        let waiting = Waiting::new(alloc)?;
        let tables = Tables::new(alloc, geometry)?;
        Ok(Core { tables, waiting })
    }

    /// The log number. The tables are well-formed.
    pub fn lsn(&self) -> u64
        ensures number { result ≡ self.now.array.durable.lsn }
        ensures well { IsTrue (is_well_formed self.now.array.durable) }
    {
        self.tables.lsn()
    }

    /// The sizes of the array.
    pub fn geometry(&self) -> Geometry
        ensures { result ≡ self.now.array.durable.geometry }
    {
        self.tables.geometry()
    }

    /// Ends the core, with all that it holds.
    pub fn close(self) {
        let Core { tables, waiting: _ } = self;
        tables.close();
    }
}
