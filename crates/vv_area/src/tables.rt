//! Raw tables.
ghost use Rattle.std.specs.Prelude.{◌≡◌};
ghost use Rattle.vv_record.specs.Reading.{GivesSeen};
ghost use Rattle.vv_area.specs.Forms as form;
ghost use Rattle.vv_area.specs.Area.{tables_of, tables_in, Tells};

use crate::bindings::bindings;
use crate::fault::AreaFault;
use crate::lists::{containers, contexts, volumes};
use crate::rows::{RawBinding, RawClone, RawContainer, RawContext, RawCopy, RawTask, RawVolume};
use crate::runs::runs;
use crate::tasks::tasks;
use std::alloc::Global;
use vv_record::{Fields, RecordFault};
use vv_units::{Geometry, ItemList};

/// The tables of an area as they are spelled, before any rule.
#[derive(Debug, Drop)]
pub struct RawTables {
    pub geometry: Geometry,
    pub lsn: u64,
    pub containers: ItemList<RawContainer>,
    pub volumes: ItemList<RawVolume>,
    /// The hosts whose context was set.
    pub contexts: ItemList<RawContext>,
    pub bindings: ItemList<RawBinding>,
    pub tasks: ItemList<RawTask>,
    /// The clones and the copies that run, each list in the order of their tasks.
    pub clones: ItemList<RawClone>,
    pub copies: ItemList<RawCopy>,
}

impl RawTables {
    /// The tables that bytes spell, in spelling 1 or else in spelling 2. Where they spell none, the fault tells at which
    /// place.
    #[tactic(auto, unfolding(crate::specs::Area::tables_in))]
    pub fn read(
        alloc: Global,
        geometry: Geometry,
        area: &[u8],
        spelling: u8,
    ) -> Result<RawTables, AreaFault>
        ensures { Tells result (tables_in geometry spelling area.now) }
    {
        let mut fields = Fields::new(area);
        let tables = tables(alloc, geometry, spelling, &mut fields)?;
        if !fields.is_at_end() {
            return Err(AreaFault::Bad { at: fields.at() });
        }
        Ok(tables)
    }
}

#[tactic(auto, unfolding(crate::specs::Forms::tables))]
fn tables(
    alloc: Global,
    geometry: Geometry,
    spelling: u8,
    fields: &mut Fields,
) -> Result<RawTables, RecordFault>
    ensures { GivesSeen tables_of result fields.new (form.tables geometry spelling fields.old) }
{
    let lsn = fields.u64()?;
    let containers = containers(alloc, fields)?;
    let volumes = volumes(alloc, spelling, fields)?;
    let contexts = contexts(alloc, fields)?;
    let bindings = bindings(alloc, fields)?;
    let tasks = tasks(alloc, fields)?;
    let runs = runs(alloc, spelling, tasks.items(), fields)?;
    Ok(RawTables {
        geometry,
        lsn,
        containers,
        volumes,
        contexts,
        bindings,
        tasks,
        clones: ItemList::of(runs.clones),
        copies: ItemList::of(runs.copies),
    })
}
