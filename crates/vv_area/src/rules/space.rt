//! Rule 5: the pool and each quota hold what they must.
ghost use Rattle.std.specs.Prelude.{◌≡◌, ◌==◌, ◌&&◌, not, nat_le, map, slice_index, count_by, option_copied, ◌+◌, IfOk, if◌then◌else◌};
ghost use Rattle.std.specs.List.{list_all};
ghost use Rattle.vv_flat.specs.Lists.{if_found};
ghost use Rattle.vv_flat.specs.State.{Container, Volume, Task, RunningClone, RunningCopy, Piece};
ghost use Rattle.vv_flat.specs.Chunks.{Entry, shape_of_tables};
ghost use Rattle.vv_flat.specs.Space.{used, reserved, copy_target, charge};
ghost use Rattle.vv_flat.specs.Sharing.{standings};
ghost use Rattle.vv_flat.specs.Rules.{charges_fit, space_rule};
ghost use Rattle.vv_area.specs.Area.{tables_of};
ghost use Rattle.vv_area.specs.Ruled.{allocated_entries, reserved_of, stamp_at, allocates, allocating_entries, allocating_for_container};

use super::items::{all_hold, allocated_count, job_target, task_of, volume_of};
use crate::rows::{ChunkEntry, RawClone, RawContainer, RawCopy, RawPiece, RawTask, RawVolume};
use crate::runs::{is_clone, is_running};
use crate::tables::RawTables;
use std::alloc::{AllocError, Global};
use vv_rules::{StandingEntry, is_sum_within, used_count};

/// These are all entries of the tables.
pub(super) fn space_holds(
    alloc: Global,
    tables: &RawTables,
    entries: &[StandingEntry],
) -> Result<bool, AllocError>
    requires { entries.now ≡ standings (tables_of tables.now) }
    ensures { IfOk result (λ holds. holds ≡ space_rule (shape_of_tables (tables_of tables.now))) }
{
    let pool = is_pool_enough(alloc, tables, entries)?;
    let charges = charges_fit(alloc, tables)?;
    Ok(all_hold(&[pool, charges]))
}

fn is_pool_enough(
    alloc: Global,
    tables: &RawTables,
    entries: &[StandingEntry],
) -> Result<bool, AllocError>
    requires { entries.now ≡ standings (tables_of tables.now) }
    ensures { let shape = shape_of_tables (tables_of tables.now) in
        IfOk result (λ enough. enough ≡ nat_le (used shape + reserved shape) tables.now.geometry.pool_chunks) }
{
    let used = used_count(alloc, entries)?;
    let mut counts = reserved_counts(alloc, tables)?;
    counts.push(used as u64)?;
    Ok(is_sum_within(&counts, u64::from(tables.geometry.pool_chunks)))
}

/// What each running clone has still to copy.
fn reserved_counts(alloc: Global, tables: &RawTables) -> Result<Vec<u64>, AllocError>
    ensures { IfOk result (λ counts. counts.items ≡ map reserved_of tables.now.tasks) }
{
    let tasks = tables.tasks.items();
    tasks.iter().map(|task| reserved_of(task)).collect(alloc)
}

fn reserved_of(task: &RawTask) -> u64
    ensures { result ≡ reserved_of task.now }
{
    if is_running(task) && is_clone(task) {
        u64::from(task.total.saturating_sub(task.done))
    } else {
        0
    }
}

/// Whether each container is charged for no more than its quota.
fn charges_fit(alloc: Global, tables: &RawTables) -> Result<bool, AllocError>
    ensures { IfOk result (λ fit. fit ≡ charges_fit (shape_of_tables (tables_of tables.now))) }
{
    for container in tables.containers.items() {
        if !is_charge_within(alloc, tables, container)? {
            return Ok(false);
        }
    }
    Ok(true)
}

fn is_charge_within(
    alloc: Global,
    tables: &RawTables,
    container: &RawContainer,
) -> Result<bool, AllocError>
    ensures { IfOk result (λ within. within ≡ nat_le (charge (shape_of_tables (tables_of tables.now)) container.now.number) container.now.quota) }
{
    let number = container.number.0;
    let mut counts = volume_charges(alloc, tables, number)?;
    let images = image_charges(alloc, tables, number)?;
    let copies = copy_charges(alloc, tables, number)?;
    counts.extend_from_slice(&images)?;
    counts.extend_from_slice(&copies)?;
    Ok(is_sum_within(&counts, container.quota))
}

fn volume_charges(alloc: Global, tables: &RawTables, container: u64) -> Result<Vec<u64>, AllocError>
    ensures { IfOk result (λ counts. counts.items ≡ map (λ (v : Volume Entry). if v.container == container then allocated_entries v.chunks else 0) tables.now.volumes) }
{
    let volumes = tables.volumes.items();
    volumes
        .iter()
        .map(|volume| volume_charge(container, volume))
        .collect(alloc)
}

fn volume_charge(container: u64, volume: &RawVolume) -> u64
    ensures { result ≡ (if volume.now.container == container then allocated_entries volume.now.chunks else 0) }
{
    if volume.container.0 == container {
        allocated_count(volume.entries.items()) as u64
    } else {
        0
    }
}

fn image_charges(alloc: Global, tables: &RawTables, container: u64) -> Result<Vec<u64>, AllocError>
    ensures { IfOk result (λ counts. counts.items ≡ map (λ (c : RunningClone Entry). if c.container == container then allocated_entries c.image else 0) tables.now.clones) }
{
    let clones = tables.clones.items();
    clones
        .iter()
        .map(|clone| image_charge(container, clone))
        .collect(alloc)
}

fn image_charge(container: u64, clone: &RawClone) -> u64
    ensures { result ≡ (if clone.now.container == container then allocated_entries clone.now.image else 0) }
{
    if clone.container.0 == container {
        allocated_count(clone.image.items()) as u64
    } else {
        0
    }
}

fn copy_charges(alloc: Global, tables: &RawTables, container: u64) -> Result<Vec<u64>, AllocError>
    ensures { IfOk result (λ counts. counts.items ≡ map (allocating_for_container (tables_of tables.now) container) tables.now.copies) }
{
    let copies = tables.copies.items();
    copies
        .iter()
        .map(|copy| copy_charge(tables, container, copy))
        .collect(alloc)
}

/// The pieces of a copy that will allocate a chunk, if its target is in a container.
fn copy_charge(tables: &RawTables, container: u64, copy: &RawCopy) -> u64
    ensures { result ≡ allocating_for_container (tables_of tables.now) container copy.now }
{
    match copy_target(tables, copy.number.0) {
        Some(volume) if volume.container.0 == container => {
            allocating_count(volume.entries.items(), copy.pieces.items()) as u64
        }
        _ => 0,
    }
}

/// The volume that the copy of a task is to change.
fn copy_target(tables: &RawTables, number: u64) -> Option<&RawVolume>
    ensures { option_copied result ≡ copy_target (tables_of tables.now) number }
{
    let task = task_of(tables, number)?;
    let target = job_target(task)?;
    volume_of(tables, target)
}

fn allocating_count(target: &[ChunkEntry], pieces: &[RawPiece]) -> usize
    ensures { result ≡ allocating_entries target.now pieces.now }
{
    pieces
        .iter()
        .filter(|piece| allocates(target, piece))
        .count()
}

fn allocates(target: &[ChunkEntry], piece: &RawPiece) -> bool
    ensures { result ≡ allocates target.now piece.now }
{
    piece.entry.stamp != 0 && stamp_at(target, piece.index as usize) == 0
}

/// The stamp at an index, or 0 past the end.
fn stamp_at(entries: &[ChunkEntry], index: usize) -> u64
    ensures { result ≡ stamp_at entries.now index }
{
    match entries.get(index) {
        Some(entry) => entry.stamp,
        None => 0,
    }
}
