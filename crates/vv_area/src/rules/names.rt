//! Rule 2: what is named stands.
ghost use Rattle.std.specs.Prelude.{◌≡◌, ◌==◌, ◌&&◌, true, map, filter, IfOk};
ghost use Rattle.std.specs.List.{list_all, list_any};
ghost use Rattle.vv_flat.specs.Lists.{if_found};
ghost use Rattle.vv_flat.specs.State.{Volume, Binding, Task, RunningClone};
ghost use Rattle.vv_flat.specs.Chunks.{Entry, shape_of_tables};
ghost use Rattle.vv_flat.specs.Space.{running_target};
ghost use Rattle.vv_flat.specs.Rules.{numbers_rule, names_rule};
ghost use Rattle.vv_area.specs.Area.{tables_of};
ghost use Rattle.vv_area.specs.Ruled.{snapshot_numbers, is_of_none};

use super::items::{
    all_hold, container_numbers, is_snapshot, number_of_volume, running_target, volume_numbers,
};
use crate::rows::{RawBinding, RawClone, RawTask, RawVolume};
use crate::tables::RawTables;
use std::alloc::{AllocError, Global};
use vv_rules::Numbers;
use vv_units::VolumeKind;

/// This is asked of tables that keep rule 1: no number is that of two volumes.
pub(super) fn names_hold(alloc: Global, tables: &RawTables) -> Result<bool, AllocError>
    requires { numbers_rule (shape_of_tables (tables_of tables.now)) ≡ true }
    ensures { IfOk result (λ holds. holds ≡ names_rule (shape_of_tables (tables_of tables.now))) }
{
    let containers = Numbers::of(container_numbers(alloc, tables)?)?;
    let volumes = Numbers::of(volume_numbers(alloc, tables)?)?;
    let snapshots = Numbers::of(snapshot_numbers(alloc, tables)?)?;
    Ok(all_hold(&[
        volumes_are_named(&containers, &snapshots, tables),
        clones_are_named(&containers, tables),
        bindings_are_named(&volumes, tables),
        targets_are_named(&volumes, tables),
    ]))
}

fn snapshot_numbers(alloc: Global, tables: &RawTables) -> Result<Vec<u64>, AllocError>
    ensures { IfOk result (λ numbers. numbers.items ≡ snapshot_numbers tables.now.volumes) }
{
    let volumes = tables.volumes.items();
    volumes
        .iter()
        .filter(|volume| is_snapshot(volume))
        .map(|volume| number_of_volume(volume))
        .collect(alloc)
}

fn volumes_are_named(containers: &Numbers, snapshots: &Numbers, tables: &RawTables) -> bool
    ensures { result ≡ list_all (λ (v : Volume Entry). list_any (λ n. n == v.container) containers.now && is_of_none snapshots.now v.kind) tables.now.volumes }
{
    let volumes = tables.volumes.items();
    volumes
        .iter()
        .all(|volume| is_volume_named(containers, snapshots, volume))
}

fn is_volume_named(containers: &Numbers, snapshots: &Numbers, volume: &RawVolume) -> bool
    ensures { result ≡ (list_any (λ n. n == volume.now.container) containers.now && is_of_none snapshots.now volume.now.kind) }
{
    containers.has(volume.container.0) && is_of_none(snapshots, volume.kind)
}

/// Whether a volume is no snapshot of one of these.
fn is_of_none(snapshots: &Numbers, kind: VolumeKind) -> bool
    ensures { result ≡ is_of_none snapshots.now kind }
{
    match kind {
        VolumeKind::SnapshotOf(volume) => !snapshots.has(volume.0),
        VolumeKind::Plain | VolumeKind::FastCloneOf(_) | VolumeKind::FullCloneOf(_) => true,
    }
}

fn clones_are_named(containers: &Numbers, tables: &RawTables) -> bool
    ensures { result ≡ list_all (λ (c : RunningClone Entry). list_any (λ n. n == c.container) containers.now) tables.now.clones }
{
    let clones = tables.clones.items();
    clones.iter().all(|clone| is_clone_named(containers, clone))
}

fn is_clone_named(containers: &Numbers, clone: &RawClone) -> bool
    ensures { result ≡ list_any (λ n. n == clone.now.container) containers.now }
{
    containers.has(clone.container.0)
}

fn bindings_are_named(volumes: &Numbers, tables: &RawTables) -> bool
    ensures { result ≡ list_all (λ (b : Binding). list_any (λ n. n == b.volume) volumes.now) tables.now.bindings }
{
    let bindings = tables.bindings.items();
    bindings
        .iter()
        .all(|binding| is_binding_named(volumes, binding))
}

fn is_binding_named(volumes: &Numbers, binding: &RawBinding) -> bool
    ensures { result ≡ list_any (λ n. n == binding.now.volume) volumes.now }
{
    volumes.has(binding.volume.0)
}

fn targets_are_named(volumes: &Numbers, tables: &RawTables) -> bool
    ensures { result ≡ list_all (λ (t : Task). if_found (running_target t) (λ target. list_any (λ n. n == target) volumes.now) true) tables.now.tasks }
{
    let tasks = tables.tasks.items();
    tasks.iter().all(|task| is_target_named(volumes, task))
}

fn is_target_named(volumes: &Numbers, task: &RawTask) -> bool
    ensures { result ≡ if_found (running_target task.now) (λ target. list_any (λ n. n == target) volumes.now) true }
{
    match running_target(task) {
        Some(target) => volumes.has(target),
        None => true,
    }
}
