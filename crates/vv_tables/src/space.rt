//! Questions on space and counts.
ghost use Rattle.std.specs.Prelude.{◌≡◌, IsSome, length};
ghost use Rattle.vv_flat.specs.State.{container_of};
ghost use Rattle.vv_flat.specs.Chunks.{shape_of_tables};
ghost use Rattle.vv_flat.specs.Space.{used, free, reserved, entries, charge, volume_count, pair_count};
ghost use Rattle.std.specs.Option.{option_map, option_copied};
ghost use Rattle.vv_container.specs.Table.{numbered};

use crate::counts::{container_rows, pairs_of_clones, pairs_of_volumes, volume_rows};
use crate::tables::Tables;
use vv_container::Container;
use vv_units::ContainerId;

impl Tables {
    /// How many entries all lists have.
    pub fn entries(&self) -> u32
        ensures { result ≡ entries self.now.durable }
    {
        self.shelf.total_entries()
    }

    /// How many places are used.
    pub fn used(&self) -> u32
        ensures { result ≡ used (shape_of_tables self.now.durable) }
    {
        self.shelf.used()
    }

    /// How many places running clones have still to take.
    pub fn reserved(&self) -> u32
        ensures { result ≡ reserved (shape_of_tables self.now.durable) }
    {
        let pool = self.shelf.pool();
        self.geometry.pool_chunks - pool.used() - pool.free()
    }

    /// How many places may be taken.
    pub fn free(&self) -> u32
        ensures { result ≡ free (shape_of_tables self.now.durable) }
    {
        self.shelf.free()
    }

    /// The container of a number.
    pub fn container(&self, id: ContainerId) -> Option<&Container>
        ensures { option_map (numbered id.0) (option_copied result) ≡ container_of self.now.durable id.0 }
    {
        self.containers.get(id)
    }

    /// How many chunks a container that stands is charged for.
    pub fn charge(&self, id: ContainerId) -> u64
        requires { IsSome (container_of self.now.durable id.0) }
        ensures { result ≡ charge (shape_of_tables self.now.durable) id.0 }
    {
        self.containers.charge(id)
    }

    /// How many containers there are.
    pub fn container_count(&self) -> u32
        ensures { result ≡ length self.now.durable.containers }
    {
        container_rows(&self.containers)
    }

    /// How many volumes there are, and will be when the running clones are done.
    pub fn volume_count(&self) -> u32
        ensures { result ≡ volume_count self.now.durable }
    {
        volume_rows(&self.shelf) + self.clones.len() as u32
    }

    /// The metadata pairs of all volumes and running clones.
    pub fn pair_count(&self) -> u32
        ensures { result ≡ pair_count self.now.durable }
    {
        pairs_of_volumes(&self.shelf) + pairs_of_clones(&self.clones)
    }
}
