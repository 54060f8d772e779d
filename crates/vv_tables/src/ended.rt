//! Ends of running tasks before their last turn.
ghost use Rattle.std.specs.Prelude.{◌≡◌, ◌≤◌, ◌-◌, [], IsTrue, IsSome, IfSome, Some, None, length, vec_capacity};
ghost use Rattle.vv_flat.specs.State.{Volume};
ghost use Rattle.vv_flat.specs.Chunks.{Entry as SeenEntry};
ghost use Rattle.vv_flat.specs.Tasks.{task_cancelled};
ghost use Rattle.vv_flat.specs.Changes.{Cancel};
ghost use Rattle.vv_flat.specs.Restart.{interrupted_durable};
ghost use Rattle.vv_flat.specs.Replay.{fits, replayed};
ghost use Rattle.vv_container.specs.Table.{row_of, charge_of, with_charge};
ghost use Rattle.vv_task.specs.Table.{record_of, task_numbered, cancel_fault, IsCounted};
ghost use Rattle.vv_vols.specs.Shelf.{volume_in, held_in};
ghost use Rattle.vv_vols.specs.Calls.{without_held};
ghost use Rattle.vv_vols.specs.Rows.{KeepsOwn};
ghost use Rattle.vv_tables.specs.Counts.{charged_for, allocated_for, AreChargedFor};
ghost use Rattle.vv_tables.specs.Seen.{plain_containers};
ghost use Rattle.vv_tables.specs.Kept.{AreHeld};
ghost use Rattle.vv_tables.specs.Pages.{KeepsPages};

use crate::copied::home_in;
use crate::piece_counts::allocating;
use crate::rows::{CloneRow, CopyRow, take_clone, take_copy};
use crate::tables::Tables;
use vv_container::ContainerTable;
use vv_task::{Job, Task, TaskTable};
use vv_units::{ContainerId, TaskId, VolumeId};
use vv_vols::Shelf;

impl Tables {
    /// Cancels a task that runs: what it holds is dropped, and no container is charged for it any more. Of a copy each piece
    /// is looked at once, of a clone no chunk.
    pub fn cancel(&mut self, task: TaskId)
        requires fits { IsTrue (fits self.old.durable (Cancel task.0) []) }
        ensures durable { self.new.durable ≡ replayed self.old.durable (Cancel task.0) [] }
        ensures pages { KeepsPages self.old self.new }
        ensures rooms { self.new.rooms ≡ self.old.rooms }
    {
        let ended = standing_task(&self.tasks, task);
        self.lsn += 1;
        cancel_task(&mut self.tasks, task);
        match ended.job {
            Job::Clone { volume: _ } => {
                let row = take_clone(&mut self.clones, task);
                lower_charge(&mut self.containers, row.head.container, ended.total);
                drop_clone(&mut self.shelf, row);
                self.shelf.unreserve(ended.total - ended.done);
            }
            Job::Copy {
                source: _,
                base: _,
                target,
            } => {
                let row = take_copy(&mut self.copies, task);
                let allocating = allocating(&self.shelf, &row.pieces, target);
                let home = home_in(&self.shelf, target);
                lower_charge(&mut self.containers, home, allocating);
                drop_copy(&mut self.shelf, row);
            }
        }
    }

    /// Interrupts all running tasks: what they hold is dropped, and no container is charged for it any more. It isn't an
    /// event of the log. Each container is charged anew, by one look at each volume.
    pub fn interrupt(&mut self)
        ensures durable { self.new.durable ≡ interrupted_durable self.old.durable }
        ensures pages { KeepsPages self.old self.new }
        ensures rooms { self.new.rooms ≡ self.old.rooms }
    {
        let reserved = self.reserved();
        self.tasks.interrupt();
        drop_clones(&mut self.shelf, &mut self.clones, &self.copies);
        drop_copies(&mut self.shelf, &mut self.copies);
        self.shelf.unreserve(reserved);
        charge_volumes(&mut self.containers, &self.shelf);
    }
}

/// The record of a task that stands.
fn standing_task(tasks: &TaskTable, id: TaskId) -> Task
    requires { IsSome (task_numbered tasks.now id.0) }
    ensures exact { task_numbered tasks.now id.0 ≡ Some (record_of result) }
    ensures counted { IsCounted (record_of result) }
{
    match tasks.get(id) {
        Some(task) => task,
        None => unreachable!(),
    }
}

/// Cancels the record of a task that runs.
fn cancel_task(tasks: &mut TaskTable, id: TaskId)
    requires { cancel_fault tasks.old id.0 ≡ None }
    ensures { tasks.new ≡ task_cancelled tasks.old id.0 }
{
    match tasks.cancel(id) {
        Ok(()) => {}
        Err(_) => unreachable!(),
    }
}

/// Charges a container that stands for so many chunks less.
fn lower_charge(containers: &mut ContainerTable, id: ContainerId, less: u32)
    requires standing { IsSome (row_of containers.old id.0) }
    requires enough { IfSome (charge_of containers.old id.0) (λ charged. less ≤ charged) }
    ensures { IfSome (charge_of containers.old id.0) (λ charged. containers.new ≡ with_charge containers.old id.0 (charged - less)) }
{
    let charged = containers.charge(id);
    containers.set_charge(id, charged - u64::from(less));
}

/// Ends a running clone, with its image and its target.
fn drop_clone(shelf: &mut Shelf, row: CloneRow)
    requires image { IsSome (held_in shelf.old.shelf row.image.number) }
    requires target { IsSome (held_in (without_held shelf.old.shelf row.image.number) row.target.number) }
    ensures shelf { shelf.new.shelf ≡ without_held (without_held shelf.old.shelf row.image.number) row.target.number }
    ensures rooms { shelf.new.rooms ≡ shelf.old.rooms }
    ensures kept { KeepsOwn shelf.old shelf.new }
{
    let CloneRow {
        id: _,
        head: _,
        image,
        target,
    } = row;
    shelf.drop_image(image);
    shelf.drop_image(target);
}

/// Ends a running copy, with its pieces.
fn drop_copy(shelf: &mut Shelf, row: CopyRow)
    requires { IsSome (held_in shelf.old.shelf row.pieces.number) }
    ensures shelf { shelf.new.shelf ≡ without_held shelf.old.shelf row.pieces.number }
    ensures rooms { shelf.new.rooms ≡ shelf.old.rooms }
    ensures kept { KeepsOwn shelf.old shelf.new }
{
    let CopyRow { id: _, pieces } = row;
    shelf.drop_image(pieces);
}

/// Ends all running clones, with their images and targets.
fn drop_clones(shelf: &mut Shelf, rows: &mut Vec<CloneRow>, copies: &[CopyRow])
    requires { AreHeld shelf.old.shelf rows.old.items copies.now }
    ensures held { AreHeld shelf.new.shelf [] copies.now }
    ensures none { rows.new.items ≡ [] }
    ensures capacity { vec_capacity rows.new ≡ vec_capacity rows.old }
    ensures shelf { shelf.new.shelf ≡ record shelf.old.shelf { held = shelf.new.shelf.held } }
    ensures rooms { shelf.new.rooms ≡ shelf.old.rooms }
    ensures kept { KeepsOwn shelf.old shelf.new }
{
    while let Some(row) = rows.pop() {
        drop_clone(shelf, row);
    }
}

/// Ends all running copies, with their pieces, where no clone runs.
fn drop_copies(shelf: &mut Shelf, rows: &mut Vec<CopyRow>)
    requires { AreHeld shelf.old.shelf [] rows.old.items }
    ensures held { AreHeld shelf.new.shelf [] [] }
    ensures none { rows.new.items ≡ [] }
    ensures capacity { vec_capacity rows.new ≡ vec_capacity rows.old }
    ensures shelf { shelf.new.shelf ≡ record shelf.old.shelf { held = shelf.new.shelf.held } }
    ensures rooms { shelf.new.rooms ≡ shelf.old.rooms }
    ensures kept { KeepsOwn shelf.old shelf.new }
{
    while let Some(row) = rows.pop() {
        drop_copy(shelf, row);
    }
}

/// For how many chunks of a volume that stands a container is charged.
fn charged_in(shelf: &Shelf, id: VolumeId, container: ContainerId) -> u32
    requires { IsSome (volume_in shelf.now.shelf id.0) }
    ensures { IfSome (volume_in shelf.now.shelf id.0) (λ (v : Volume SeenEntry). result ≡ charged_for container.0 v) }
{
    if home_in(shelf, id).0 == container.0 {
        shelf.allocated_count(id)
    } else {
        0
    }
}

/// The allocated chunks of the volumes of a container.
fn allocated_for(shelf: &Shelf, container: ContainerId) -> u64
    requires { length shelf.now.shelf.volumes ≤ 256 }
    ensures { result ≡ allocated_for shelf.now.shelf.volumes container.0 }
{
    let mut chunks = 0;
    for i in 0..256 {
        match shelf.id_at(i) {
            Some(id) => chunks += u64::from(charged_in(shelf, id, container)),
            None => return chunks,
        }
    }
    chunks
}

/// Charges each container for the allocated chunks of its volumes, and for nothing else.
fn charge_volumes(containers: &mut ContainerTable, shelf: &Shelf)
    requires { length shelf.now.shelf.volumes ≤ 256 }
    ensures plain { plain_containers containers.new ≡ plain_containers containers.old }
    ensures charged { AreChargedFor shelf.now.shelf.volumes containers.new }
{
    let mut i = 0;
    while let Some(id) = containers.at(i) {
        containers.set_charge(id, allocated_for(shelf, id));
        i += 1;
    }
}
