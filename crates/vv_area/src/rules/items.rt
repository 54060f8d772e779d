//! What the rules ask of single items, and items by their numbers.
ghost use Rattle.std.specs.Prelude.{◌≡◌, ◌==◌, not, map, IfOk, option_copied};
ghost use Rattle.std.specs.List.{find, list_all};
ghost use Rattle.vv_flat.specs.State.{Container, Volume, Task};
ghost use Rattle.vv_flat.specs.Chunks.{Entry};
ghost use Rattle.vv_flat.specs.Space.{job_target, running_target};
ghost use Rattle.vv_flat.specs.Changes.{is_snapshot_kind};
ghost use Rattle.vv_flat.specs.Rules.{is_logged};
ghost use Rattle.vv_area.specs.Ruled.{allocated_entries};

use crate::rows::{ChunkEntry, RawContainer, RawJob, RawTask, RawVolume};
use crate::runs::is_running;
use crate::tables::RawTables;
use std::alloc::{AllocError, Global};
use vv_units::VolumeKind;

/// Whether all tests hold.
pub(super) fn all_hold(tests: &[bool]) -> bool
    ensures { result ≡ list_all (λ b. b) tests.now }
{
    tests.iter().all(|holds| *holds)
}

/// Whether a number is one that the log has given.
pub(super) fn is_logged(lsn: u64, number: u64) -> bool
    ensures { result ≡ is_logged lsn number }
{
    1 <= number && number <= lsn
}

/// The volume that a copy is to change.
pub(super) fn job_target(task: &RawTask) -> Option<u64>
    ensures { result ≡ job_target task.now.job }
{
    match task.job {
        RawJob::Clone { .. } => None,
        RawJob::Copy { target, .. } => Some(target.0),
    }
}

/// The volume that a running copy is to change.
pub(super) fn running_target(task: &RawTask) -> Option<u64>
    ensures { result ≡ running_target task.now }
{
    if is_running(task) {
        job_target(task)
    } else {
        None
    }
}

pub(super) fn is_snapshot(volume: &RawVolume) -> bool
    ensures { result ≡ is_snapshot_kind volume.now.kind }
{
    matches!(volume.kind, VolumeKind::SnapshotOf(_))
}

/// The volume with a number.
pub(super) fn volume_of(tables: &RawTables, number: u64) -> Option<&RawVolume>
    ensures { option_copied result ≡ find (λ (v : Volume Entry). v.number == number) tables.now.volumes }
{
    let volumes = tables.volumes.items();
    volumes.iter().find(|volume| volume.number.0 == number)
}

/// The task with a number.
pub(super) fn task_of(tables: &RawTables, number: u64) -> Option<&RawTask>
    ensures { option_copied result ≡ find (λ (t : Task). t.number == number) tables.now.tasks }
{
    let tasks = tables.tasks.items();
    tasks.iter().find(|task| task.number.0 == number)
}

/// How many entries of a list are allocated.
pub(super) fn allocated_count(entries: &[ChunkEntry]) -> usize
    ensures { result ≡ allocated_entries entries.now }
{
    entries.iter().filter(|entry| entry.stamp != 0).count()
}

pub(super) fn number_of_volume(volume: &RawVolume) -> u64
    ensures { result ≡ volume.now.number }
{
    volume.number.0
}

pub(super) fn volume_numbers(alloc: Global, tables: &RawTables) -> Result<Vec<u64>, AllocError>
    ensures { IfOk result (λ numbers. numbers.items ≡ map (λ (v : Volume Entry). v.number) tables.now.volumes) }
{
    let volumes = tables.volumes.items();
    volumes
        .iter()
        .map(|volume| number_of_volume(volume))
        .collect(alloc)
}

pub(super) fn container_numbers(alloc: Global, tables: &RawTables) -> Result<Vec<u64>, AllocError>
    ensures { IfOk result (λ numbers. numbers.items ≡ map (λ (k : Container). k.number) tables.now.containers) }
{
    let containers = tables.containers.items();
    containers
        .iter()
        .map(|container| container.number.0)
        .collect(alloc)
}
