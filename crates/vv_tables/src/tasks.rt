//! Questions on tasks.
ghost use Rattle.std.specs.Prelude.{◌≡◌, slice_get, option_and_then, IsSome};
ghost use Rattle.std.specs.Option.{option_map};
ghost use Rattle.std.specs.List.{list_any};
ghost use Rattle.vv_flat.specs.State.{RunningClone, task_of, clone_of};
ghost use Rattle.vv_flat.specs.Chunks.{Entry as SeenEntry};
ghost use Rattle.vv_flat.specs.Space.{running_count};
ghost use Rattle.vv_task.specs.Table.{record_of};
ghost use Rattle.vv_vols.specs.Shelf.{held_in};
ghost use Rattle.vv_vols.specs.Rows.{seen_entry};
ghost use Rattle.vv_tables.specs.Seen.{held_chunks};
ghost use Rattle.vv_tables.specs.Tasks.{is_to_change};

use crate::rows::find_clone;
use crate::tables::Tables;
use vv_entries::Entry;
use vv_task::{Job, Task, TaskTable};
use vv_units::{TaskId, TaskState, VolumeId};
use vv_vols::{Held, Shelf};

impl Tables {
    /// The task of a number.
    pub fn task(&self, id: TaskId) -> Option<Task>
        ensures { option_map record_of result ≡ task_of self.now.durable id.0 }
    {
        self.tasks.get(id)
    }

    /// How many tasks run.
    pub fn running_count(&self) -> u32
        ensures { result ≡ running_count self.now.durable }
    {
        (self.clones.len() + self.copies.len()) as u32
    }

    /// The entry of a running clone's image at an index. There is none where no clone of that number runs, or its image
    /// has no such index.
    pub fn image_entry(&self, task: TaskId, index: u32) -> Option<Entry>
        ensures { option_map seen_entry result ≡ option_and_then (λ (c : RunningClone SeenEntry). slice_get c.image index) (clone_of self.now.durable task.0) }
    {
        match find_clone(&self.clones, task) {
            Some(row) => held_at(&self.shelf, &row.image, index),
            None => None,
        }
    }
}

/// The entry of a held list at a position, if it has so many.
pub(crate) fn held_at(shelf: &Shelf, held: &Held, at: u32) -> Option<Entry>
    requires { IsSome (held_in shelf.now.shelf held.now.number) }
    ensures { option_map seen_entry result ≡ slice_get (held_chunks shelf.now.shelf held.now.number) at }
{
    if at < shelf.held_len(held) {
        Some(shelf.held_entry(held, at))
    } else {
        None
    }
}

/// Whether a task is to change a volume.
fn is_to_change(task: &Task, id: VolumeId) -> bool
    ensures { result ≡ is_to_change id.0 (record_of task.now) }
{
    match task.job {
        Job::Clone { volume: _ } => false,
        Job::Copy {
            source: _,
            base: _,
            target,
        } => task.state == TaskState::Running && target.0 == id.0,
    }
}

/// Whether a running copy is to change a volume.
pub(crate) fn is_target(tasks: &TaskTable, id: VolumeId) -> bool
    ensures { result ≡ list_any (is_to_change id.0) tasks.now }
{
    let mut i = 0;
    while let Some(task) = tasks.at(i) {
        if is_to_change(&task, id) {
            return true;
        }
        i += 1;
    }
    false
}
