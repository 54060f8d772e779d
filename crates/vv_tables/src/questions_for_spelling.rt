//! Questions of those who go through all tables: what stands at a place, and how many rows there are.
ghost use Rattle.std.specs.Prelude.{◌≡◌, ◌≤◌, ◌<◌, ◌-◌, ◌*◌, List, [], length, map, nat_lt, slice_get, take, drop, IsSome};
ghost use Rattle.std.specs.Option.{option_map, option_and_then};
ghost use Rattle.vv_flat.specs.Lists.{if_found};
ghost use Rattle.vv_flat.specs.State.{Volume, Piece, RunningClone, RunningCopy};
ghost use Rattle.vv_flat.specs.Bindings.{context_of};
ghost use Rattle.vv_flat.specs.Chunks.{Entry as SeenEntry};
ghost use Rattle.vv_container.specs.Table.{numbered, container_of};
ghost use Rattle.vv_bind.specs.Table.{IsHost, numbers};
ghost use Rattle.vv_task.specs.Table.{record_of};
ghost use Rattle.vv_vols.specs.Rows.{seen_entry, volume_with};
ghost use Rattle.vv_vols.specs.Shelf.{held_in, pieces_in, volume_in};
ghost use Rattle.vv_tables.specs.Seen.{plain_containers};
ghost use Rattle.vv_tables.specs.Places.{chunks_at, clone_with};

use crate::counts::volume_rows;
use crate::tables::Tables;
use crate::tasks::held_at;
use vv_bind::BindTable;
use vv_container::{Container, ContainerTable};
use vv_entries::Entry;
use vv_task::{Task, TaskTable};
use vv_units::{ContainerId, EndpointId, HostId, TaskId, VolumeId};
use vv_vols::{Head, Held, Shelf};

impl Tables {
    /// The container at a place, in rising order of numbers. There is none past the last.
    pub fn container_at(&self, i: u32) -> Option<(ContainerId, &Container)>
        ensures { option_map (λ row. numbered row.0.0 row.1.now) result ≡ slice_get self.now.durable.containers i }
    {
        container_row(&self.containers, i)
    }

    /// How many volumes stand.
    pub fn standing_volumes(&self) -> u32
        ensures { result ≡ length self.now.durable.volumes }
    {
        volume_rows(&self.shelf)
    }

    /// The volume at a place, in rising order of numbers: what it is beside its chunks. There is none past the last.
    pub fn volume_at(&self, i: u32) -> Option<(VolumeId, &Head)>
        ensures { option_map (λ row. volume_with row.0.0 row.1.now []) result ≡ option_map (λ (v : Volume SeenEntry). record v { chunks = [] }) (slice_get self.now.durable.volumes i) }
    {
        volume_row(&self.shelf, i)
    }

    /// How many chunks the volume at a place has: none past the last.
    pub fn chunk_count_at(&self, i: u32) -> u32
        ensures { result ≡ length (chunks_at self.now.durable i) }
    {
        chunk_count_of(&self.shelf, i)
    }

    /// The entries of the chunks of the volume at a place from `64 * k` on: 64 of them, or as many as there are.
    pub fn page_at(&self, i: u32, k: u32) -> &[Entry]
        ensures { map seen_entry result.now ≡ take 64 (drop (64 * k) (chunks_at self.now.durable i)) }
    {
        page_of(&self.shelf, i, k)
    }

    /// The endpoints that were set for a host, if they were.
    pub fn context(&self, host: HostId) -> Option<&[EndpointId]>
        requires { IsHost host.0 }
        ensures { option_map (λ list. record { host = host.0; endpoints = numbers list.now }) result ≡ context_of self.now.durable.contexts host.0 }
    {
        context_row(&self.bindings, host)
    }

    /// How many bindings there are.
    pub fn binding_count(&self) -> u32
        ensures { result ≡ length self.now.durable.bindings }
    {
        binding_rows(&self.bindings)
    }

    /// The task at a place, in rising order of numbers. There is none past the last.
    pub fn task_at(&self, i: u32) -> Option<Task>
        ensures { option_map record_of result ≡ slice_get self.now.durable.tasks i }
    {
        self.tasks.at(i)
    }

    /// How many tasks stand, those that don't run among them.
    pub fn task_count(&self) -> u32
        ensures { result ≡ length self.now.durable.tasks }
    {
        task_rows(&self.tasks)
    }

    /// The running clone at a place, in rising order of tasks: the head that its volume will have. There is none past the
    /// last.
    pub fn clone_at(&self, i: u32) -> Option<(TaskId, &Head)>
        ensures { option_map (λ row. clone_with row.0.0 row.1.now) result ≡ option_map (λ (c : RunningClone SeenEntry). record c { image = []; target = [] }) (slice_get self.now.durable.clones i) }
    {
        let row = self.clones.get(i as usize)?;
        Some((row.id, &row.head))
    }

    /// How many entries the image of the running clone at a place has: none past the last.
    pub fn image_len_at(&self, i: u32) -> u32
        ensures { result ≡ if_found (slice_get self.now.durable.clones i) (λ (c : RunningClone SeenEntry). length c.image) 0 }
    {
        match self.clones.get(i as usize) {
            Some(row) => self.shelf.held_len(&row.image),
            None => 0,
        }
    }

    /// The entry at an index of the image of the running clone at a place, if there is one.
    pub fn image_entry_at(&self, i: u32, index: u32) -> Option<Entry>
        ensures { option_map seen_entry result ≡ option_and_then (λ (c : RunningClone SeenEntry). slice_get c.image index) (slice_get self.now.durable.clones i) }
    {
        match self.clones.get(i as usize) {
            Some(row) => held_at(&self.shelf, &row.image, index),
            None => None,
        }
    }

    /// How many entries the target of the running clone at a place has: none past the last.
    pub fn target_len_at(&self, i: u32) -> u32
        ensures { result ≡ if_found (slice_get self.now.durable.clones i) (λ (c : RunningClone SeenEntry). length c.target) 0 }
    {
        match self.clones.get(i as usize) {
            Some(row) => self.shelf.held_len(&row.target),
            None => 0,
        }
    }

    /// The entry at an index of the target of the running clone at a place, if there is one.
    pub fn target_entry_at(&self, i: u32, index: u32) -> Option<Entry>
        ensures { option_map seen_entry result ≡ option_and_then (λ (c : RunningClone SeenEntry). slice_get c.target index) (slice_get self.now.durable.clones i) }
    {
        match self.clones.get(i as usize) {
            Some(row) => held_at(&self.shelf, &row.target, index),
            None => None,
        }
    }

    /// The running copy at a place, in rising order of tasks, by the number of its task. There is none past the last.
    pub fn copy_at(&self, i: u32) -> Option<TaskId>
        ensures { option_map (λ id. id.0) result ≡ option_map (λ (c : RunningCopy SeenEntry). c.number) (slice_get self.now.durable.copies i) }
    {
        let row = self.copies.get(i as usize)?;
        Some(row.id)
    }

    /// How many pieces the running copy at a place, in rising order of tasks, has still to put: none past the last.
    pub fn piece_count_at(&self, i: u32) -> u32
        ensures { result ≡ if_found (slice_get self.now.durable.copies i) (λ (c : RunningCopy SeenEntry). length c.pieces) 0 }
    {
        match self.copies.get(i as usize) {
            Some(row) => self.shelf.held_len(&row.pieces),
            None => 0,
        }
    }

    /// The index of a piece of the running copy at a place, and its entry, if there is one.
    pub fn piece_at(&self, i: u32, at: u32) -> Option<(u32, Entry)>
        ensures { option_map (λ piece. record { index = piece.0; chunk = seen_entry piece.1 }) result ≡ option_and_then (λ (c : RunningCopy SeenEntry). slice_get c.pieces at) (slice_get self.now.durable.copies i) }
    {
        match self.copies.get(i as usize) {
            Some(row) => held_piece(&self.shelf, &row.pieces, at),
            None => None,
        }
    }
}

/// The container at a place.
fn container_row(containers: &ContainerTable, i: u32) -> Option<(ContainerId, &Container)>
    ensures { option_map (λ row. numbered row.0.0 row.1.now) result ≡ slice_get (plain_containers containers.now) i }
{
    let id = containers.at(i)?;
    container_numbered(containers, id)
}

/// The container of a number.
fn container_numbered(
    containers: &ContainerTable,
    id: ContainerId,
) -> Option<(ContainerId, &Container)>
    ensures { option_map (λ row. numbered row.0.0 row.1.now) result ≡ container_of containers.now id.0 }
{
    let container = containers.get(id)?;
    Some((id, container))
}

/// The volume at a place.
fn volume_row(shelf: &Shelf, i: u32) -> Option<(VolumeId, &Head)>
    ensures { option_map (λ row. volume_with row.0.0 row.1.now []) result ≡ option_map (λ (v : Volume SeenEntry). record v { chunks = [] }) (slice_get shelf.now.shelf.volumes i) }
{
    let id = shelf.id_at(i)?;
    volume_numbered(shelf, id)
}

/// The volume of a number.
fn volume_numbered(shelf: &Shelf, id: VolumeId) -> Option<(VolumeId, &Head)>
    ensures { option_map (λ row. volume_with row.0.0 row.1.now []) result ≡ option_map (λ (v : Volume SeenEntry). record v { chunks = [] }) (volume_in shelf.now.shelf id.0) }
{
    let head = shelf.volume(id)?;
    Some((id, head))
}

/// How many chunks the volume at a place has.
fn chunk_count_of(shelf: &Shelf, i: u32) -> u32
    ensures { result ≡ length (if_found (slice_get shelf.now.shelf.volumes i) (λ (v : Volume SeenEntry). v.chunks) []) }
{
    match shelf.id_at(i) {
        Some(id) => shelf.entries(id),
        None => 0,
    }
}

/// The entries of the chunks of the volume at a place from `64 * k` on.
fn page_of(shelf: &Shelf, i: u32, k: u32) -> &[Entry]
    ensures { map seen_entry result.now ≡ take 64 (drop (64 * k) (if_found (slice_get shelf.now.shelf.volumes i) (λ (v : Volume SeenEntry). v.chunks) [])) }
{
    let Some(id) = shelf.id_at(i) else {
        return &[];
    };
    if k >= shelf.entries(id).div_ceil(64) {
        return &[];
    }
    shelf.page(id, k)
}

/// The endpoints that were set for a host.
fn context_row(bindings: &BindTable, host: HostId) -> Option<&[EndpointId]>
    requires { IsHost host.0 }
    ensures { option_map (λ list. record { host = host.0; endpoints = numbers list.now }) result ≡ context_of bindings.now.contexts host.0 }
{
    if bindings.was_set(host) {
        Some(bindings.endpoints(host))
    } else {
        None
    }
}

/// How many bindings a table has, which is found in some ten steps.
fn binding_rows(bindings: &BindTable) -> u32
    ensures { result ≡ length bindings.now.bindings }
{
    let _few = has_more(bindings, 0);
    let mut bounds = Bounds { low: 0, high: 1024 };
    while bounds.low < bounds.high {
        bounds = narrowed(bindings, bounds);
    }
    bounds.low
}

/// A number is at least the low one and at most the high one.
#[derive(Clone, Copy)]
struct Bounds {
    low: u32,
    high: u32,
}

/// Closer bounds of the number of bindings.
fn narrowed(bindings: &BindTable, bounds: Bounds) -> Bounds
    requires open { bounds.low < bounds.high }
    requires low { bounds.low ≤ length bindings.now.bindings }
    requires high { length bindings.now.bindings ≤ bounds.high }
    requires few { bounds.high ≤ 1024 }
    ensures low { result.low ≤ length bindings.now.bindings }
    ensures high { length bindings.now.bindings ≤ result.high }
    ensures few { result.high ≤ 1024 }
    ensures closer { result.high - result.low < bounds.high - bounds.low }
{
    let middle = (bounds.low + bounds.high) / 2;
    if has_more(bindings, middle) {
        Bounds {
            low: middle + 1,
            high: bounds.high,
        }
    } else {
        Bounds {
            low: bounds.low,
            high: middle,
        }
    }
}

/// Whether there are more bindings than so many.
fn has_more(bindings: &BindTable, count: u32) -> bool
    ensures more { result ≡ nat_lt count (length bindings.now.bindings) }
    ensures few { length bindings.now.bindings ≤ 1024 }
{
    bindings.at(count).is_some()
}

/// How many tasks a table has.
fn task_rows(tasks: &TaskTable) -> u32
    ensures { result ≡ length tasks.now }
{
    let mut count = 0;
    while tasks.at(count).is_some() {
        count += 1;
    }
    count
}

/// The index and the entry at a position of a held list, if it has so many.
fn held_piece(shelf: &Shelf, held: &Held, at: u32) -> Option<(u32, Entry)>
    requires { IsSome (held_in shelf.now.shelf held.now.number) }
    ensures { option_map (λ piece. record { index = piece.0; chunk = seen_entry piece.1 }) result ≡ slice_get (pieces_in shelf.now.shelf held.now.number) at }
{
    if at < shelf.held_len(held) {
        Some((shelf.held_index(held, at), shelf.held_entry(held, at)))
    } else {
        None
    }
}
