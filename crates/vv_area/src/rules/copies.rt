//! Rule 9: the pieces of a running copy are in order inside its target, which is no snapshot and no other copy's; and no
//! task has done more than all, nor less than all when it has succeeded.
ghost use Rattle.std.specs.Prelude.{◌≡◌, ◌==◌, ◌||◌, ◌&&◌, false, not, map, nat_le, nat_lt, length, IfOk};
ghost use Rattle.std.specs.List.{list_all, filter_map};
ghost use Rattle.vv_flat.specs.Lists.{if_found, all_different};
ghost use Rattle.vv_flat.specs.State.{Task, Piece, task_of};
ghost use Rattle.vv_flat.specs.Chunks.{Entry, shape_of_tables};
ghost use Rattle.vv_flat.specs.Space.{running_target, job_target};
ghost use Rattle.vv_flat.specs.Rules.{is_success, running_targets, copies_rule};
ghost use Rattle.vv_area.specs.Area.{tables_of};
ghost use Rattle.vv_area.specs.Ruled.{is_copy_done, is_target_for};

use super::items::{all_hold, is_snapshot, job_target, running_target, task_of, volume_of};
use crate::rows::{RawCopy, RawTask};
use crate::tables::RawTables;
use std::alloc::{AllocError, Global};
use vv_rules::{Numbers, all_rising};
use vv_units::TaskState;

pub(super) fn copies_hold(alloc: Global, tables: &RawTables) -> Result<bool, AllocError>
    ensures { IfOk result (λ holds. holds ≡ copies_rule (shape_of_tables (tables_of tables.now))) }
{
    let kept = are_copies_kept(alloc, tables)?;
    let differ = targets_differ(alloc, tables)?;
    Ok(all_hold(&[kept, differ, are_tasks_done(tables)]))
}

fn are_copies_kept(alloc: Global, tables: &RawTables) -> Result<bool, AllocError>
    ensures { IfOk result (λ kept. kept ≡ list_all (λ c. if_found (task_of (tables_of tables.now) c.number) (is_copy_done (tables_of tables.now) c) false) tables.now.copies) }
{
    for copy in tables.copies.items() {
        if !is_copy_kept(alloc, tables, copy)? {
            return Ok(false);
        }
    }
    Ok(true)
}

fn is_copy_kept(alloc: Global, tables: &RawTables, copy: &RawCopy) -> Result<bool, AllocError>
    ensures { IfOk result (λ kept. kept ≡ if_found (task_of (tables_of tables.now) copy.now.number) (is_copy_done (tables_of tables.now) copy.now) false) }
{
    match task_of(tables, copy.number.0) {
        Some(task) => is_copy_done(alloc, tables, copy, task),
        None => Ok(false),
    }
}

fn is_copy_done(
    alloc: Global,
    tables: &RawTables,
    copy: &RawCopy,
    task: &RawTask,
) -> Result<bool, AllocError>
    ensures { IfOk result (λ kept. kept ≡ is_copy_done (tables_of tables.now) copy.now task.now) }
{
    let indexes = piece_indexes(alloc, copy)?;
    Ok(all_hold(&[
        task.total as usize == copy.pieces.items().len(),
        all_rising(&indexes),
        has_target_for(tables, task, &indexes),
    ]))
}

fn piece_indexes(alloc: Global, copy: &RawCopy) -> Result<Vec<u64>, AllocError>
    ensures { IfOk result (λ indexes. indexes.items ≡ map (λ (p : Piece Entry). p.index) copy.now.pieces) }
{
    let pieces = copy.pieces.items();
    pieces
        .iter()
        .map(|piece| u64::from(piece.index))
        .collect(alloc)
}

/// Whether a task has a target, and pieces may be at these indexes of it.
fn has_target_for(tables: &RawTables, task: &RawTask, indexes: &[u64]) -> bool
    ensures { result ≡ if_found (job_target task.now.job) (is_target_for (tables_of tables.now) indexes.now) false }
{
    match job_target(task) {
        Some(target) => is_target_for(tables, indexes, target),
        None => false,
    }
}

/// Whether a volume stands, is no snapshot and has chunks at these indexes.
fn is_target_for(tables: &RawTables, indexes: &[u64], target: u64) -> bool
    ensures { result ≡ is_target_for (tables_of tables.now) indexes.now target }
{
    match volume_of(tables, target) {
        Some(volume) => {
            !is_snapshot(volume) && are_below(indexes, volume.entries.items().len() as u64)
        }
        None => false,
    }
}

fn are_below(indexes: &[u64], limit: u64) -> bool
    ensures { result ≡ list_all (λ i. nat_lt i limit) indexes.now }
{
    indexes.iter().all(|index| *index < limit)
}

/// Whether no volume is the target of two running copies.
fn targets_differ(alloc: Global, tables: &RawTables) -> Result<bool, AllocError>
    ensures { IfOk result (λ differ. differ ≡ all_different (running_targets tables.now.tasks)) }
{
    let targets = running_targets(alloc, tables)?;
    let sorted = Numbers::of(targets)?;
    Ok(sorted.are_different())
}

fn running_targets(alloc: Global, tables: &RawTables) -> Result<Vec<u64>, AllocError>
    ensures { IfOk result (λ targets. targets.items ≡ filter_map running_target tables.now.tasks) }
{
    let tasks = tables.tasks.items();
    tasks
        .iter()
        .filter_map(|task| running_target(task))
        .collect(alloc)
}

fn are_tasks_done(tables: &RawTables) -> bool
    ensures { result ≡ list_all (λ (t : Task). nat_le t.done t.total && (not (is_success t.state) || (t.done == t.total))) tables.now.tasks }
{
    let tasks = tables.tasks.items();
    tasks.iter().all(|task| is_task_done(task))
}

fn is_task_done(task: &RawTask) -> bool
    ensures { result ≡ (nat_le task.now.done task.now.total && (not (is_success task.now.state) || (task.now.done == task.now.total))) }
{
    task.done <= task.total && (!is_success(task.state) || task.done == task.total)
}

fn is_success(state: TaskState) -> bool
    ensures { result ≡ is_success state }
{
    matches!(state, TaskState::Success)
}
