//! Storage containers, copied from raw tables.
ghost use Rattle.std.specs.Prelude.{◌≡◌, ◌<◌, ◌++◌, ◌∷◌, [], true, length, nat_lt, IsTrue, OnOk};
ghost use Rattle.std.specs.List.{list_all};
ghost use Rattle.vv_flat.specs.State.{Container as ContainerState};
ghost use Rattle.vv_flat.specs.WellFormed.{is_well_formed};
ghost use Rattle.vv_container.specs.Forms.{have_forms};
ghost use Rattle.vv_area.specs.Area.{tables_of};
ghost use Rattle.vv_restore.specs.Restoring.{nothing_of, containers_of};

use std::alloc::Global;
use vv_area::{RawContainer, RawTables};
use vv_container::Container;
use vv_copies::copy_offers;
use vv_tables::Restored;
use vv_units::NoMemory;

/// Adds the containers of well-formed tables, of which nothing was added yet.
pub(crate) fn add_containers(
    alloc: Global,
    restored: &mut Restored,
    raw: &RawTables,
) -> Result<(), NoMemory>
    requires well { is_well_formed (tables_of raw.now) ≡ true }
    requires so_far { restored.old ≡ nothing_of (tables_of raw.now) }
    ensures { OnOk result (restored.new ≡ containers_of (tables_of raw.now)) }
{
    for row in raw.containers.items() {
        add_container(alloc, restored, row)?;
    }
    Ok(())
}

/// Adds a container, by a number above all others.
fn add_container(alloc: Global, restored: &mut Restored, row: &RawContainer) -> Result<(), NoMemory>
    requires room { length restored.old.containers < 32 }
    requires above { IsTrue (list_all (λ (k : ContainerState). nat_lt k.number row.now.number) restored.old.containers) }
    requires forms { IsTrue (have_forms row.now.quota row.now.offers) }
    ensures { OnOk result (restored.new ≡ record restored.old { containers = restored.old.containers ++ row.now ∷ [] }) }
{
    let offered = copy_offers(alloc, &row.offers)?;
    let container = Container {
        quota: row.quota,
        offered,
    };
    restored.add_container(row.number, container);
    Ok(())
}
