//! Tables in memory, made of raw tables that keep all rules.
ghost use Rattle.std.specs.Prelude.{◌≡◌, true, IsTrue, IfOk, OnOk};
ghost use Rattle.vv_flat.specs.Form.{is_formed};
ghost use Rattle.vv_flat.specs.Fields.{have_forms};
ghost use Rattle.vv_flat.specs.WellFormed.{is_well_formed};
ghost use Rattle.vv_area.specs.Area.{tables_of};
ghost use Rattle.vv_restore.specs.Restoring.{TellsTables, nothing_of, tasks_of};

use crate::containers::add_containers;
use crate::hosts::{add_bindings, add_contexts};
use crate::running::{add_clones, add_copies};
use crate::tasks::add_tasks;
use crate::volumes::add_volumes;
use std::alloc::Global;
use vv_area::{AreaFault, RawTables};
use vv_tables::{Restored, Tables};
use vv_units::NoMemory;

/// The tables in memory that raw tables stand for, where these keep all rules; else the first rule that fails, with what
/// was found. Raw tables that were read of bytes have their form, and so have their fields.
pub fn restore(alloc: Global, raw: &RawTables) -> Result<Tables, AreaFault>
    requires formed { IsTrue (is_formed (tables_of raw.now)) }
    requires forms { IsTrue (have_forms (tables_of raw.now)) }
    ensures { TellsTables result (tables_of raw.now) }
{
    raw.rules(alloc)?;
    match restore_well_formed(alloc, raw) {
        Ok(tables) => Ok(tables),
        Err(NoMemory) => Err(AreaFault::NoMemory),
    }
}

/// The tables in memory that well-formed raw tables stand for.
fn restore_well_formed(alloc: Global, raw: &RawTables) -> Result<Tables, NoMemory>
    requires { is_well_formed (tables_of raw.now) ≡ true }
    ensures { IfOk result (λ tables. tables.durable ≡ tables_of raw.now) }
{
    let mut restored = Restored::new(alloc, raw.geometry, raw.lsn)?;
    match add_all(alloc, &mut restored, raw) {
        Ok(()) => Ok(restored.finish()),
        Err(NoMemory) => {
            restored.close();
            Err(NoMemory)
        }
    }
}

/// Adds all items of well-formed tables, of which nothing was added yet.
fn add_all(alloc: Global, restored: &mut Restored, raw: &RawTables) -> Result<(), NoMemory>
    requires well { is_well_formed (tables_of raw.now) ≡ true }
    requires so_far { restored.old ≡ nothing_of (tables_of raw.now) }
    ensures { OnOk result (restored.new ≡ tables_of raw.now) }
{
    add_small(alloc, restored, raw)?;
    add_volumes(alloc, restored, raw)?;
    add_clones(alloc, restored, raw)?;
    add_copies(alloc, restored, raw)
}

/// Adds all items of well-formed tables but those with chunks.
fn add_small(alloc: Global, restored: &mut Restored, raw: &RawTables) -> Result<(), NoMemory>
    requires well { is_well_formed (tables_of raw.now) ≡ true }
    requires so_far { restored.old ≡ nothing_of (tables_of raw.now) }
    ensures { OnOk result (restored.new ≡ tasks_of (tables_of raw.now)) }
{
    add_containers(alloc, restored, raw)?;
    add_contexts(restored, raw);
    add_bindings(restored, raw);
    add_tasks(restored, raw);
    Ok(())
}
