//! The tables of an area as far as they were read.
ghost use Rattle.std.specs.Prelude.{◌≡◌};
ghost use Rattle.vv_area.specs.Area.{tables_of};
ghost use Rattle.vv_area_reader.specs.Told.{no_tables};

use std::alloc::Global;
use std::marker::Model;
use vv_area::{
    RawBinding, RawClone, RawContainer, RawContext, RawCopy, RawTables, RawTask, RawVolume,
};
use vv_units::{Geometry, ItemList};

/// The tables as far as they were read.
#[derive(Drop)]
pub(crate) struct Begun {
    pub(crate) geometry: Geometry,
    pub(crate) lsn: u64,
    pub(crate) containers: Vec<RawContainer>,
    pub(crate) volumes: Vec<RawVolume>,
    pub(crate) contexts: Vec<RawContext>,
    pub(crate) bindings: Vec<RawBinding>,
    pub(crate) tasks: Vec<RawTask>,
    pub(crate) clones: Vec<RawClone>,
    pub(crate) copies: Vec<RawCopy>,
}

impl Model for Begun {
    ghost use Rattle.vv_flat.specs.State.{Durable};
    ghost use Rattle.vv_flat.specs.Chunks.{Entry};

    ghost Value = { Durable Entry };

    ghost view = { λ a. record {
      geometry = a.geometry;
      lsn = a.lsn;
      containers = a.containers.items;
      volumes = a.volumes.items;
      contexts = a.contexts.items;
      bindings = a.bindings.items;
      tasks = a.tasks.items;
      clones = a.clones.items;
      copies = a.copies.items;
    } };
}

impl Begun {
    /// Tables of which nothing was read.
    pub(crate) fn new(alloc: Global, geometry: Geometry) -> Begun
        ensures { result ≡ no_tables geometry }
    {
        Begun {
            geometry,
            lsn: 0,
            containers: Vec::new(alloc),
            volumes: Vec::new(alloc),
            contexts: Vec::new(alloc),
            bindings: Vec::new(alloc),
            tasks: Vec::new(alloc),
            clones: Vec::new(alloc),
            copies: Vec::new(alloc),
        }
    }

    /// The tables, which were read to their end.
    pub(crate) fn into_tables(self) -> RawTables
        ensures { tables_of result ≡ self }
    {
        let Begun {
            geometry,
            lsn,
            containers,
            volumes,
            contexts,
            bindings,
            tasks,
            clones,
            copies,
        } = self;
        RawTables {
            geometry,
            lsn,
            containers: ItemList::of(containers),
            volumes: ItemList::of(volumes),
            contexts: ItemList::of(contexts),
            bindings: ItemList::of(bindings),
            tasks: ItemList::of(tasks),
            clones: ItemList::of(clones),
            copies: ItemList::of(copies),
        }
    }
}
