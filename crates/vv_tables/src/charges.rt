//! What containers are charged for: after a change of one volume, and counted afresh; and what running clones have still to copy.
ghost use Rattle.std.specs.Prelude.{ℕ, ◌≡◌, ◌+◌, ◌-◌, ◌≤◌, ◌<◌, ◌^◌, length, IsSome, IfSome, option_map};
ghost use Rattle.std.specs.List.{All};
ghost use Rattle.vv_flat.specs.Lists.{if_found};
ghost use Rattle.vv_flat.specs.State.{Task as TaskEntry};
ghost use Rattle.vv_flat.specs.Space.{job_target};
ghost use Rattle.vv_container.specs.Table.{ChargedContainer, row_of, charge_of, with_charge};
ghost use Rattle.vv_task.specs.Table.{job_of, record_of, task_numbered};
ghost use Rattle.vv_vols.specs.Shelf.{volume_in, held_in};
ghost use Rattle.vv_tables.specs.Seen.{plain_containers};
ghost use Rattle.vv_tables.specs.Kept.{IsCopyHeld};
ghost use Rattle.vv_tables.specs.Charges.{volume_charge, volumes_charge, clone_charge, clones_charge, target_in, pieces_charge, copy_charge, copies_charge, charge_in, left_to_copy, all_left};

use crate::piece_counts::allocating;
use crate::rows::{CloneRow, CopyRow};
use vv_container::ContainerTable;
use vv_task::{Job, Task, TaskTable};
use vv_units::{ContainerId, TaskId, TaskState, VolumeId};
use vv_vols::{Held, Shelf};

/// Charges a container for the chunks of a volume that are allocated after a change, in place of those that were before it.
pub(crate) fn recharge(containers: &mut ContainerTable, home: ContainerId, before: u32, after: u32)
    requires stands { IsSome (row_of containers.old home.0) }
    requires enough { IfSome (charge_of containers.old home.0) (λ charged. before ≤ charged + after) }
    requires few { IfSome (charge_of containers.old home.0) (λ charged. charged + after < 2 ^ 64) }
    ensures { IfSome (charge_of containers.old home.0) (λ charged. containers.new ≡ with_charge containers.old home.0 (charged + after - before)) }
{
    let charged = containers.charge(home);
    containers.set_charge(home, charged + u64::from(after) - u64::from(before));
}

/// For how many chunks of a volume a container is charged.
fn volume_charge(shelf: &Shelf, id: VolumeId, container: ContainerId) -> u32
    ensures { result ≡ if_found (volume_in shelf.now.shelf id.0) (volume_charge container.0) 0 }
{
    match shelf.volume(id) {
        Some(head) => {
            if head.container.0 == container.0 {
                shelf.allocated_count(id)
            } else {
                0
            }
        }
        None => 0,
    }
}

/// For how many chunks of all volumes a container is charged.
fn volumes_charge(shelf: &Shelf, container: ContainerId) -> u64
    requires { length shelf.now.shelf.volumes ≤ 256 }
    ensures exact { result ≡ volumes_charge shelf.now.shelf.volumes container.0 }
    ensures small { result < 2 ^ 62 }
{
    let mut chunks = 0;
    for i in 0..256 {
        match shelf.id_at(i) {
            Some(id) => chunks += u64::from(volume_charge(shelf, id, container)),
            None => return chunks,
        }
    }
    chunks
}

/// The total of a task, which is 0 where there is no such task.
fn total_of(tasks: &TaskTable, id: TaskId) -> u32
    ensures { result ≡ if_found (task_numbered tasks.now id.0) (λ (t : TaskEntry). t.total) 0 }
{
    match tasks.get(id) {
        Some(task) => task.total,
        None => 0,
    }
}

/// For how many chunks of a running clone a container is charged.
fn clone_charge(tasks: &TaskTable, row: &CloneRow, container: ContainerId) -> u32
    ensures { result ≡ clone_charge tasks.now container.0 row.now }
{
    if row.head.container.0 == container.0 {
        total_of(tasks, row.id)
    } else {
        0
    }
}

/// For how many chunks of all running clones a container is charged.
fn clones_charge(tasks: &TaskTable, clones: &[CloneRow], container: ContainerId) -> u64
    requires { length clones.now ≤ 16 }
    ensures exact { result ≡ clones_charge tasks.now clones.now container.0 }
    ensures small { result < 2 ^ 62 }
{
    let mut chunks = 0;
    for row in clones {
        chunks += u64::from(clone_charge(tasks, row, container));
    }
    chunks
}

/// The volume that the copy of a number is to change.
fn target_of(tasks: &TaskTable, id: TaskId) -> Option<VolumeId>
    ensures { option_map (λ n. n.0) result ≡ target_in tasks.now id.0 }
{
    match tasks.get(id) {
        Some(task) => job_target(task.job),
        None => None,
    }
}

/// The volume that a copy is to change.
fn job_target(job: Job) -> Option<VolumeId>
    ensures { option_map (λ n. n.0) result ≡ job_target (job_of job) }
{
    match job {
        Job::Clone { volume: _ } => None,
        Job::Copy {
            source: _,
            base: _,
            target,
        } => Some(target),
    }
}

/// For how many pieces a container is charged, where their target is this volume.
fn pieces_charge(shelf: &Shelf, pieces: &Held, target: VolumeId, container: ContainerId) -> u32
    requires { IsSome (held_in shelf.now.shelf pieces.now.number) }
    ensures { result ≡ if_found (volume_in shelf.now.shelf target.0) (pieces_charge shelf.now.shelf container.0 pieces.now.number) 0 }
{
    match shelf.volume(target) {
        Some(head) => {
            if head.container.0 == container.0 {
                allocating(shelf, pieces, target)
            } else {
                0
            }
        }
        None => 0,
    }
}

/// For how many pieces of a running copy a container is charged.
fn copy_charge(shelf: &Shelf, tasks: &TaskTable, row: &CopyRow, container: ContainerId) -> u32
    requires { IsCopyHeld shelf.now.shelf row.now }
    ensures { result ≡ copy_charge shelf.now.shelf tasks.now container.0 row.now }
{
    match target_of(tasks, row.id) {
        Some(target) => pieces_charge(shelf, &row.pieces, target, container),
        None => 0,
    }
}

/// For how many pieces of all running copies a container is charged.
fn copies_charge(
    shelf: &Shelf,
    tasks: &TaskTable,
    copies: &[CopyRow],
    container: ContainerId,
) -> u64
    requires held { All (IsCopyHeld shelf.now.shelf) copies.now }
    requires few { length copies.now ≤ 16 }
    ensures exact { result ≡ copies_charge shelf.now.shelf tasks.now copies.now container.0 }
    ensures small { result < 2 ^ 62 }
{
    let mut pieces = 0;
    for row in copies {
        pieces += u64::from(copy_charge(shelf, tasks, row, container));
    }
    pieces
}

/// For what a container is charged.
fn charge(
    shelf: &Shelf,
    tasks: &TaskTable,
    clones: &[CloneRow],
    copies: &[CopyRow],
    container: ContainerId,
) -> u64
    requires volumes { length shelf.now.shelf.volumes ≤ 256 }
    requires clones { length clones.now ≤ 16 }
    requires copies { length copies.now ≤ 16 }
    requires held { All (IsCopyHeld shelf.now.shelf) copies.now }
    ensures { result ≡ charge_in shelf.now.shelf tasks.now clones.now copies.now container.0 }
{
    volumes_charge(shelf, container)
        + clones_charge(tasks, clones, container)
        + copies_charge(shelf, tasks, copies, container)
}

/// Charges each container afresh.
pub(crate) fn charge_all(
    containers: &mut ContainerTable,
    shelf: &Shelf,
    tasks: &TaskTable,
    clones: &[CloneRow],
    copies: &[CopyRow],
)
    requires volumes { length shelf.now.shelf.volumes ≤ 256 }
    requires clones { length clones.now ≤ 16 }
    requires copies { length copies.now ≤ 16 }
    requires held { All (IsCopyHeld shelf.now.shelf) copies.now }
    ensures plain { plain_containers containers.new ≡ plain_containers containers.old }
    ensures charged { All (λ (r : ChargedContainer). r.charged ≡ charge_in shelf.now.shelf tasks.now clones.now copies.now r.container.number) containers.new }
{
    let mut i = 0;
    while let Some(id) = containers.at(i) {
        containers.set_charge(id, charge(shelf, tasks, clones, copies, id));
        i += 1;
    }
}

/// How many chunks the task has still to copy, if it is a running clone.
fn left_to_copy(task: &Task) -> u32
    requires { task.now.done ≤ task.now.total }
    ensures { result ≡ left_to_copy (record_of task.now) }
{
    match task.job {
        Job::Clone { volume: _ } => {
            if task.state == TaskState::Running {
                task.total - task.done
            } else {
                0
            }
        }
        Job::Copy {
            source: _,
            base: _,
            target: _,
        } => 0,
    }
}

/// How many chunks all running clones have still to copy.
pub(crate) fn all_left(tasks: &TaskTable) -> u32
    requires { all_left tasks.now < 2 ^ 32 }
    ensures { result ≡ all_left tasks.now }
{
    let mut left = 0;
    let mut i = 0;
    while let Some(task) = tasks.at(i) {
        left += left_to_copy(&task);
        i += 1;
    }
    left
}
