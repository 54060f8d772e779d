//! Rule 1: numbers were given by the log, each to one thing, and the log has not ended.
ghost use Rattle.std.specs.Prelude.{◌≡◌, ◌==◌, ◌&&◌, ◌||◌, ◌++◌, not, map, nat_le, IfOk};
ghost use Rattle.std.specs.List.{list_all};
ghost use Rattle.vv_flat.specs.State.{Container, Volume, Task, RunningClone};
ghost use Rattle.vv_flat.specs.Chunks.{Entry, shape_of_tables};
ghost use Rattle.vv_flat.specs.Lists.{all_different};
ghost use Rattle.vv_flat.specs.Space.{is_running};
ghost use Rattle.vv_flat.specs.Rules.{is_logged, is_kind_logged, is_source_logged, numbers_rule};
ghost use Rattle.vv_area.specs.Area.{tables_of};
ghost use Rattle.vv_area.specs.Jobs.{job_of};
ghost use Rattle.vv_area.specs.Ruled.{all_numbers};

use super::items::{all_hold, container_numbers, is_logged, volume_numbers};
use crate::rows::{RawClone, RawContainer, RawJob, RawTask, RawVolume};
use crate::runs::is_running;
use crate::tables::RawTables;
use std::alloc::{AllocError, Global};
use vv_rules::Numbers;
use vv_units::VolumeKind;

/// The log ends before this number.
const LAST_LSN: u64 = (1 << 62) - 1;

pub(super) fn numbers_hold(alloc: Global, tables: &RawTables) -> Result<bool, AllocError>
    ensures { IfOk result (λ holds. holds ≡ numbers_rule (shape_of_tables (tables_of tables.now))) }
{
    let differ = numbers_differ(alloc, tables)?;
    Ok(all_hold(&[
        volumes_are_logged(tables),
        containers_are_logged(tables),
        tasks_are_logged(tables),
        differ,
        tables.lsn <= LAST_LSN,
    ]))
}

fn volumes_are_logged(tables: &RawTables) -> bool
    ensures { result ≡ list_all (λ (v : Volume Entry). is_logged tables.now.lsn v.number && is_kind_logged tables.now.lsn v.kind && nat_le v.reverted tables.now.lsn) tables.now.volumes }
{
    let lsn = tables.lsn;
    let volumes = tables.volumes.items();
    volumes.iter().all(|volume| is_volume_logged(lsn, volume))
}

fn is_volume_logged(lsn: u64, volume: &RawVolume) -> bool
    ensures { result ≡ (is_logged lsn volume.now.number && is_kind_logged lsn volume.now.kind && nat_le volume.now.reverted lsn) }
{
    is_logged(lsn, volume.number.0) && is_kind_logged(lsn, volume.kind) && volume.reverted <= lsn
}

fn is_kind_logged(lsn: u64, kind: VolumeKind) -> bool
    ensures { result ≡ is_kind_logged lsn kind }
{
    match kind {
        VolumeKind::Plain => true,
        VolumeKind::SnapshotOf(volume)
        | VolumeKind::FastCloneOf(volume)
        | VolumeKind::FullCloneOf(volume) => is_logged(lsn, volume.0),
    }
}

fn containers_are_logged(tables: &RawTables) -> bool
    ensures { result ≡ list_all (λ (k : Container). (k.number == 0) || is_logged tables.now.lsn k.number) tables.now.containers }
{
    let lsn = tables.lsn;
    let containers = tables.containers.items();
    containers
        .iter()
        .all(|container| is_container_logged(lsn, container))
}

fn is_container_logged(lsn: u64, container: &RawContainer) -> bool
    ensures { result ≡ ((container.now.number == 0) || is_logged lsn container.now.number) }
{
    container.number.0 == 0 || is_logged(lsn, container.number.0)
}

fn tasks_are_logged(tables: &RawTables) -> bool
    ensures { result ≡ list_all (λ (t : Task). is_logged tables.now.lsn t.number && (not (is_running t) || is_source_logged tables.now.lsn t.job)) tables.now.tasks }
{
    let lsn = tables.lsn;
    let tasks = tables.tasks.items();
    tasks.iter().all(|task| is_task_logged(lsn, task))
}

fn is_task_logged(lsn: u64, task: &RawTask) -> bool
    ensures { result ≡ (is_logged lsn task.now.number && (not (is_running task.now) || is_source_logged lsn task.now.job)) }
{
    is_logged(lsn, task.number.0) && (!is_running(task) || is_source_logged(lsn, task.job))
}

fn is_source_logged(lsn: u64, job: RawJob) -> bool
    ensures { result ≡ is_source_logged lsn (job_of job) }
{
    match job {
        RawJob::Clone { volume } => is_logged(lsn, volume.0),
        RawJob::Copy { .. } => true,
    }
}

fn numbers_differ(alloc: Global, tables: &RawTables) -> Result<bool, AllocError>
    ensures { IfOk result (λ differ. differ ≡ all_different (all_numbers (tables_of tables.now))) }
{
    let numbers = all_numbers(alloc, tables)?;
    let sorted = Numbers::of(numbers)?;
    Ok(sorted.are_different())
}

/// The numbers of volumes, containers and running clones.
fn all_numbers(alloc: Global, tables: &RawTables) -> Result<Vec<u64>, AllocError>
    ensures { IfOk result (λ numbers. numbers.items ≡ all_numbers (tables_of tables.now)) }
{
    let mut numbers = volume_numbers(alloc, tables)?;
    let containers = container_numbers(alloc, tables)?;
    let clones = clone_numbers(alloc, tables)?;
    numbers.extend_from_slice(&containers)?;
    numbers.extend_from_slice(&clones)?;
    Ok(numbers)
}

fn clone_numbers(alloc: Global, tables: &RawTables) -> Result<Vec<u64>, AllocError>
    ensures { IfOk result (λ numbers. numbers.items ≡ map (λ (c : RunningClone Entry). c.number) tables.now.clones) }
{
    let clones = tables.clones.items();
    clones
        .iter()
        .map(|clone| number_of_clone(clone))
        .collect(alloc)
}

fn number_of_clone(clone: &RawClone) -> u64
    ensures { result ≡ clone.now.number }
{
    clone.number.0
}
