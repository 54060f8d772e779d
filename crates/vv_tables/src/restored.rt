//! Tables that are put together again, part by part, as from an image.
ghost use Rattle.std.specs.Prelude.{◌≡◌, ◌+◌, ◌≤◌, ◌<◌, ◌==◌, ◌++◌, ◌∷◌, [], nat_lt, true, map, length, vec_len, vec_capacity, count_by, IsTrue, IfOk, OnOk, OnErr, None};
ghost use Rattle.std.specs.List.{list_all, list_any};
ghost use Rattle.vv_units.specs.declared.volume.TaskState.TheVariants.{Running, Success};
ghost use Rattle.vv_flat.specs.Lists.{all_different, all_rising};
ghost use Rattle.vv_flat.specs.State.{Container as ContainerState, Piece, Volume, Context, Binding, indexed, all_pieces, volume_of};
ghost use Rattle.vv_flat.specs.Chunks.{Entry as SeenEntry};
ghost use Rattle.vv_flat.specs.Space.{is_running, entries as entries_of};
ghost use Rattle.vv_flat.specs.Bindings.{endpoints_of, keeps_bindings, binding_of, is_below};
ghost use Rattle.vv_flat.specs.Sharing.{shares_places};
ghost use Rattle.vv_flat.specs.WellFormed.{is_well_formed};
ghost use Rattle.vv_container.specs.Table.{numbered};
ghost use Rattle.vv_bind.specs.Table.{IsHost, address, numbers};
ghost use Rattle.vv_task.specs.Table.{record_of, is_above_all};
ghost use Rattle.vv_vols.specs.Calls.{with_reserve};
ghost use Rattle.vv_vols.specs.Places.{shelf_free};
ghost use Rattle.vv_vols.specs.Rows.{seen_entries, volume_with};
ghost use Rattle.vv_tables.specs.Charges.{all_left};
ghost use Rattle.vv_tables.specs.Restored.{given_clone, given_copy};
ghost use Rattle.vv_tables.specs.Giving.{seen_pieces};

use crate::charges::{all_left, charge_all};
use crate::giving::{CloneLists, GivenPiece, hold_clone, hold_pieces, make_entries};
use crate::rows::{CloneRow, CopyRow, end_clones, end_copies};
use crate::tables::Tables;
use std::alloc::Global;
use std::marker::Model;
use std::sync::ledger::Ledger;
use vv_bind::BindTable;
use vv_container::{Container, ContainerTable};
use vv_entries::Entry;
use vv_pool::{FreshList, Steps};
use vv_task::{Task, TaskTable};
use vv_units::{
    ContainerId, EndpointId, Geometry, HostId, NeedList, NoMemory, PairList, Secondary, TaskId,
    VolumeId, VolumeKind, VvolType,
};
use vv_vols::{Head, Shelf};

/// The durable part of an array, as far as it is put together. No rule is kept yet. It must be closed at its end.
pub struct Restored {
    alloc: Global,
    geometry: Geometry,
    lsn: u64,
    shelf: Shelf,
    containers: ContainerTable,
    bindings: BindTable,
    tasks: TaskTable,
    clones: Vec<CloneRow>,
    copies: Vec<CopyRow>,
    /// Memory for one place that is taken and put at once.
    taken: FreshList,
}

impl Model for Restored {
    ghost use Rattle.std.specs.Prelude.{vec_capacity};
    ghost use Rattle.vv_flat.specs.State.{Durable};
    ghost use Rattle.vv_flat.specs.Chunks.{Entry};
    ghost use Rattle.vv_tables.specs.Seen.{seen_durable};
    ghost use Rattle.vv_tables.specs.Restored.{IsRestored};

    ghost Value = { Durable Entry };

    ghost view = { λ a. seen_durable a.lsn a.shelf.shelf a.containers a.bindings a.tasks a.clones.items a.copies.items };

    ghost invariant = { λ a. IsRestored a.geometry a.shelf a.clones.items a.copies.items (vec_capacity a.clones) (vec_capacity a.copies) a.taken };
}

impl Restored {
    /// The durable part without an item, of an array that has journaled so many events.
    pub fn new(alloc: Global, geometry: Geometry, lsn: u64) -> Result<Restored, NoMemory>
        ensures { IfOk result (λ restored. restored ≡ record { geometry = geometry; lsn = lsn; containers = []; volumes = []; contexts = []; bindings = []; tasks = []; clones = []; copies = [] }) }
    {
        let containers = ContainerTable::new(alloc)?;
        let tasks = TaskTable::new(alloc)?;
        let shelf = Shelf::new(alloc, geometry)?;
        let Ok(bindings) = BindTable::new(alloc) else {
            shelf.close();
            return Err(NoMemory);
        };
        let Ok(clones) = Vec::with_capacity(alloc, 16) else {
            shelf.close();
            bindings.close();
            return Err(NoMemory);
        };
        let Ok(copies) = Vec::with_capacity(alloc, 16) else {
            shelf.close();
            bindings.close();
            clones.destroy_empty();
            return Err(NoMemory);
        };
        let Ok(taken) = FreshList::new(alloc, 1) else {
            shelf.close();
            bindings.close();
            clones.destroy_empty();
            copies.destroy_empty();
            return Err(NoMemory);
        };
        Ok(Restored {
            alloc,
            geometry,
            lsn,
            shelf,
            containers,
            bindings,
            tasks,
            clones,
            copies,
            taken,
        })
    }

    /// Adds a container, by a number above all others.
    pub fn add_container(&mut self, id: ContainerId, container: Container)
        requires room { length self.old.containers < 32 }
        requires above { IsTrue (list_all (λ (k : ContainerState). nat_lt k.number id.0) self.old.containers) }
        ensures { self.new ≡ record self.old { containers = self.old.containers ++ numbered id.0 container ∷ [] } }
    {
        self.containers.add(id, container);
    }

    /// Adds a volume with these entries, by a number above all others. Want of memory leaves all as it was.
    pub fn add_volume<L: Ledger>(
        &mut self,
        id: VolumeId,
        head: Head,
        entries: &[Entry],
        steps: &mut Steps<L>,
    ) -> Result<(), NoMemory>
        requires above { IsTrue (list_all (λ (v : Volume SeenEntry). nat_lt v.number id.0) self.old.volumes) }
        requires few { entries_of self.old + length entries.now ≤ self.old.geometry.map_chunks }
        requires shares { IsTrue (shares_places self.old.geometry.pool_chunks (all_pieces self.old ++ indexed (seen_entries entries.now))) }
        ensures ok { OnOk result (self.new ≡ record self.old { volumes = self.old.volumes ++ volume_with id.0 head (seen_entries entries.now) ∷ [] }) }
        ensures err { OnErr result (self.new ≡ self.old) }
    {
        make_entries(&mut self.shelf, id, head, entries, &mut self.taken, steps)?;
        Ok(())
    }

    /// Adds the endpoints that were set for a host, by a number above all others.
    pub fn add_context(&mut self, host: HostId, endpoints: &[EndpointId])
        requires host { IsHost host.0 }
        requires above { IsTrue (list_all (λ (c : Context). nat_lt c.host host.0) self.old.contexts) }
        requires few { length endpoints.now ≤ 8 }
        requires different { IsTrue (all_different (numbers endpoints.now)) }
        requires not_zero { IsTrue (list_all (λ e. nat_lt 0 e) (numbers endpoints.now)) }
        requires may { IsTrue (keeps_bindings self.old.bindings host.0 (numbers endpoints.now)) }
        ensures { self.new ≡ record self.old { contexts = self.old.contexts ++ record { host = host.0; endpoints = numbers endpoints.now } ∷ [] } }
    {
        self.bindings.set_endpoints(host, endpoints);
    }

    /// Adds a binding, at an address above all others.
    pub fn add_binding(
        &mut self,
        host: HostId,
        endpoint: EndpointId,
        secondary: Secondary,
        volume: VolumeId,
        count: u16,
    )
        requires host { IsHost host.0 }
        requires room { length self.old.bindings < 1024 }
        requires above { IsTrue (list_all (λ (b : Binding). is_below b.address (address host.0 endpoint.0 secondary.0)) self.old.bindings) }
        requires listed { IsTrue (list_any (λ e. e == endpoint.0) (endpoints_of self.old.contexts host.0)) }
        requires secondary { 1 ≤ secondary.0 }
        requires count { 1 ≤ count }
        requires unbound { binding_of self.old.bindings host.0 volume.0 ≡ None }
        ensures { self.new ≡ record self.old { bindings = self.old.bindings ++ record { address = address host.0 endpoint.0 secondary.0; volume = volume.0; count = count } ∷ [] } }
    {
        self.bindings
            .restore(host, endpoint, secondary, volume, count);
    }

    /// Adds the record of a task, by a number above all others.
    pub fn add_task(&mut self, task: Task)
        requires above { IsTrue (is_above_all task.id.0 self.old.tasks) }
        requires room { length self.old.tasks < 256 }
        requires may_run { task.state ≡ Running → count_by is_running self.old.tasks < 16 }
        requires within { task.done ≤ task.total }
        requires whole { task.state ≡ Success → task.done ≡ task.total }
        ensures { self.new ≡ record self.old { tasks = self.old.tasks ++ record_of task ∷ [] } }
    {
        self.tasks.restore(task);
    }

    /// Adds a running clone with this image and this target, which are as long: the row of a task that was added. No volume
    /// has its number. Want of memory leaves all as it was.
    pub fn add_clone<L: Ledger>(
        &mut self,
        id: TaskId,
        head: Head,
        image: &[Entry],
        target: &[Entry],
        steps: &mut Steps<L>,
    ) -> Result<(), NoMemory>
        requires room { length self.old.clones < 16 }
        requires unused { volume_of self.old id.0 ≡ None }
        requires size { length target.now ≡ length image.now }
        requires few { entries_of self.old + length image.now + length target.now ≤ self.old.geometry.map_chunks }
        requires shares { IsTrue (shares_places self.old.geometry.pool_chunks (all_pieces self.old ++ (indexed (seen_entries image.now) ++ indexed (seen_entries target.now)))) }
        ensures ok { OnOk result (self.new ≡ record self.old { clones = self.old.clones ++ given_clone id.0 head (seen_entries image.now) (seen_entries target.now) ∷ [] }) }
        ensures err { OnErr result (self.new ≡ self.old) }
    {
        let CloneLists { image, target } = hold_clone(
            &mut self.shelf,
            VolumeId(id.0),
            no_head(self.alloc),
            image,
            target,
            &mut self.taken,
            steps,
        )?;
        push_clone(
            &mut self.clones,
            CloneRow {
                id,
                head,
                image,
                target,
            },
        );
        Ok(())
    }

    /// Adds a running copy with these pieces, at rising indexes: the row of a task that was added. Want of memory leaves all as
    /// it was.
    pub fn add_copy<L: Ledger>(
        &mut self,
        id: TaskId,
        pieces: &[GivenPiece],
        steps: &mut Steps<L>,
    ) -> Result<(), NoMemory>
        requires room { length self.old.copies < 16 }
        requires few { entries_of self.old + length pieces.now ≤ self.old.geometry.map_chunks }
        requires rising { IsTrue (all_rising (map (λ (a : Piece SeenEntry). a.index) (seen_pieces pieces.now))) }
        requires shares { IsTrue (shares_places self.old.geometry.pool_chunks (all_pieces self.old ++ seen_pieces pieces.now)) }
        ensures ok { OnOk result (self.new ≡ record self.old { copies = self.old.copies ++ given_copy id.0 (seen_pieces pieces.now) ∷ [] }) }
        ensures err { OnErr result (self.new ≡ self.old) }
    {
        let pieces = hold_pieces(&mut self.shelf, pieces, &mut self.taken, steps)?;
        push_copy(&mut self.copies, CopyRow { id, pieces });
        Ok(())
    }

    /// The tables, where all that was put together is well-formed. Each container is charged afresh, by one look at each
    /// volume and at each piece of a running copy.
    pub fn finish(self) -> Tables
        requires { is_well_formed self ≡ true }
        ensures { result.durable ≡ self }
    {
        let Restored {
            alloc: _,
            geometry,
            lsn,
            mut shelf,
            mut containers,
            bindings,
            tasks,
            clones,
            copies,
            taken,
        } = self;
        taken.close();
        charge_all(&mut containers, &shelf, &tasks, &clones, &copies);
        reserve_left(&mut shelf, &tasks);
        Tables {
            geometry,
            lsn,
            shelf,
            containers,
            bindings,
            tasks,
            clones,
            copies,
        }
    }

    /// Ends it, with all that it holds.
    pub fn close(self) {
        let Restored {
            alloc: _,
            geometry: _,
            lsn: _,
            mut shelf,
            containers: _,
            bindings,
            tasks: _,
            clones,
            copies,
            taken,
        } = self;
        end_clones(&mut shelf, clones, &copies);
        end_copies(&mut shelf, copies);
        shelf.close();
        bindings.close();
        taken.close();
    }
}

/// Promises what running clones have left of the free places of a shelf.
fn reserve_left(shelf: &mut Shelf, tasks: &TaskTable)
    requires { all_left tasks.now ≤ shelf_free shelf.old.shelf }
    ensures { shelf.new ≡ record shelf.old { shelf = with_reserve shelf.old.shelf (shelf.old.shelf.reserved + all_left tasks.now) } }
{
    let _free = shelf.free();
    match shelf.reserve(all_left(tasks)) {
        Ok(()) => {}
        Err(_) => unreachable!(),
    }
}

/// A head that says nothing.
fn no_head(alloc: Global) -> Head {
    Head {
        container: ContainerId(0),
        vtype: VvolType::Other,
        kind: VolumeKind::Plain,
        reverted: 0,
        needs: NeedList::of(Vec::new(alloc)),
        metadata: PairList::new(alloc),
    }
}

/// Adds the row of a clone behind all others.
fn push_clone(clones: &mut Vec<CloneRow>, row: CloneRow)
    requires { vec_len clones.old < vec_capacity clones.old }
    ensures items { clones.new.items ≡ clones.old.items ++ row ∷ [] }
    ensures capacity { vec_capacity clones.old ≤ vec_capacity clones.new }
{
    match clones.push(row) {
        Ok(()) => {}
        Err(_) => unreachable!(),
    }
}

/// Adds the row of a copy behind all others.
fn push_copy(copies: &mut Vec<CopyRow>, row: CopyRow)
    requires { vec_len copies.old < vec_capacity copies.old }
    ensures items { copies.new.items ≡ copies.old.items ++ row ∷ [] }
    ensures capacity { vec_capacity copies.old ≤ vec_capacity copies.new }
{
    match copies.push(row) {
        Ok(()) => {}
        Err(_) => unreachable!(),
    }
}
