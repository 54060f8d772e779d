//! The tables.
ghost use Rattle.std.specs.Prelude.{◌≡◌, ◌∷◌, [], true, IfOk};
ghost use Rattle.vv_flat.specs.State.{empty_durable, first_container};
ghost use Rattle.vv_flat.specs.WellFormed.{is_well_formed};
ghost use Rattle.vv_tables.specs.Seen.{IsShelfOf};

use crate::rows::{CloneRow, CopyRow, end_clones, end_copies};
use std::alloc::Global;
use std::marker::Model;
use vv_bind::BindTable;
use vv_container::{Container, ContainerTable};
use vv_task::TaskTable;
use vv_units::{ContainerId, Geometry, NoMemory, OfferList};
use vv_vols::Shelf;

/// The durable part of an array, in memory. It must be closed at its end.
pub struct Tables {
    pub(crate) geometry: Geometry,
    pub(crate) lsn: u64,
    pub(crate) shelf: Shelf,
    pub(crate) containers: ContainerTable,
    pub(crate) bindings: BindTable,
    pub(crate) tasks: TaskTable,
    /// The running clones, in rising order of their tasks.
    pub(crate) clones: Vec<CloneRow>,
    /// The running copies, in rising order of their tasks.
    pub(crate) copies: Vec<CopyRow>,
}

impl Model for Tables {
    ghost use Rattle.std.specs.Prelude.{vec_capacity};
    ghost use Rattle.vv_tables.specs.Seen.{TablesView, seen_tables};
    ghost use Rattle.vv_tables.specs.Kept.{IsTables};

    ghost Value = { TablesView };

    ghost view = { λ a. seen_tables a.lsn a.shelf a.containers a.bindings a.tasks a.clones.items a.copies.items };

    ghost invariant = { λ a. IsTables a.geometry a.lsn a.shelf a.containers a.bindings a.tasks a.clones.items a.copies.items (vec_capacity a.clones) (vec_capacity a.copies) };
}

impl Tables {
    /// The tables of an array as it was formatted: container 0 stands, and all memory for rows is taken.
    pub fn new(alloc: Global, geometry: Geometry) -> Result<Tables, NoMemory>
        ensures { IfOk result (λ tables. tables ≡ record { durable = empty_durable geometry; pages = []; rooms = 0 }) }
    {
        let containers = first_containers(alloc)?;
        let tasks = TaskTable::new(alloc)?;
        let shelf = Shelf::new(alloc, geometry)?;
        let Ok(bindings) = BindTable::new(alloc) else {
            shelf.close();
            return Err(NoMemory);
        };
        let Ok(clones) = Vec::with_capacity(alloc, 16) else {
            shelf.close();
            bindings.close();
            return Err(NoMemory);
        };
        let Ok(copies) = Vec::with_capacity(alloc, 16) else {
            shelf.close();
            bindings.close();
            clones.destroy_empty();
            return Err(NoMemory);
        };
        Ok(Tables {
            geometry,
            lsn: 0,
            shelf,
            containers,
            bindings,
            tasks,
            clones,
            copies,
        })
    }

    /// The sizes of the array.
    pub fn geometry(&self) -> Geometry
        ensures { result ≡ self.now.durable.geometry }
    {
        self.geometry
    }

    /// The log number: how many journaled events there were so far. The tables are well-formed.
    pub fn lsn(&self) -> u64
        ensures number { result ≡ self.now.durable.lsn }
        ensures well { is_well_formed self.now.durable ≡ true }
    {
        self.lsn
    }

    /// The shelf with all volumes.
    pub fn shelf(&self) -> &Shelf
        ensures { IsShelfOf self.now result.now }
    {
        &self.shelf
    }

    /// The contexts of hosts and the bindings.
    pub fn bindings(&self) -> &BindTable
        ensures { result.now ≡ record { contexts = self.now.durable.contexts; bindings = self.now.durable.bindings } }
    {
        &self.bindings
    }

    /// Ends the tables, with all that they hold.
    pub fn close(self) {
        let Tables {
            geometry: _,
            lsn: _,
            mut shelf,
            containers: _,
            bindings,
            tasks: _,
            clones,
            copies,
        } = self;
        end_clones(&mut shelf, clones, &copies);
        end_copies(&mut shelf, copies);
        shelf.close();
        bindings.close();
    }
}

/// A table with container 0, which stands from the beginning.
fn first_containers(alloc: Global) -> Result<ContainerTable, NoMemory>
    ensures { IfOk result (λ table. table ≡ record { container = first_container; charged = 0 } ∷ []) }
{
    let mut containers = ContainerTable::new(alloc)?;
    let first = Container {
        quota: 4_294_967_295,
        offered: OfferList::of(Vec::new(alloc)),
    };
    containers.add(ContainerId(0), first);
    Ok(containers)
}
