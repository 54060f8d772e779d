//! Rule 8: a running clone has copied the first allocated chunks of its image, and nothing else.
ghost use Rattle.std.specs.Prelude.{◌≡◌, ◌==◌, ◌||◌, ◌&&◌, ◌++◌, ◌∷◌, [], false, not, take, length, IfOk, OnOk, if◌then◌else◌};
ghost use Rattle.std.specs.List.{list_all};
ghost use Rattle.vv_flat.specs.Lists.{if_found, numbers_eq};
ghost use Rattle.vv_flat.specs.State.{task_of};
ghost use Rattle.vv_flat.specs.Chunks.{Entry, shape_of_tables};
ghost use Rattle.vv_flat.specs.Rules.{clones_rule};
ghost use Rattle.vv_area.specs.Area.{tables_of};
ghost use Rattle.vv_area.specs.Ruled.{allocated_entries, allocated_places, is_clone_done};

use super::items::{all_hold, allocated_count, task_of};
use crate::rows::{ChunkEntry, RawClone, RawTask};
use crate::tables::RawTables;
use std::alloc::{AllocError, Global};

pub(super) fn clones_hold(alloc: Global, tables: &RawTables) -> Result<bool, AllocError>
    ensures { IfOk result (λ holds. holds ≡ clones_rule (shape_of_tables (tables_of tables.now))) }
{
    are_clones_kept(alloc, tables)
}

fn are_clones_kept(alloc: Global, tables: &RawTables) -> Result<bool, AllocError>
    ensures { IfOk result (λ kept. kept ≡ list_all (λ c. if_found (task_of (tables_of tables.now) c.number) (is_clone_done c) false) tables.now.clones) }
{
    for clone in tables.clones.items() {
        if !is_clone_kept(alloc, tables, clone)? {
            return Ok(false);
        }
    }
    Ok(true)
}

fn is_clone_kept(alloc: Global, tables: &RawTables, clone: &RawClone) -> Result<bool, AllocError>
    ensures { IfOk result (λ kept. kept ≡ if_found (task_of (tables_of tables.now) clone.now.number) (is_clone_done clone.now) false) }
{
    match task_of(tables, clone.number.0) {
        Some(task) => is_clone_done(alloc, clone, task),
        None => Ok(false),
    }
}

fn is_clone_done(alloc: Global, clone: &RawClone, task: &RawTask) -> Result<bool, AllocError>
    ensures { IfOk result (λ kept. kept ≡ is_clone_done clone.now task.now) }
{
    let image = clone.image.items();
    let target = clone.target.items();
    let copied = has_copied(alloc, image, target, task.done)?;
    Ok(all_hold(&[
        task.total as usize == allocated_count(image),
        target.len() == image.len(),
        copied,
        has_own_stamps(target, clone.number.0),
    ]))
}

/// Whether the first so many allocated chunks of the image are the allocated ones of the target.
fn has_copied(
    alloc: Global,
    image: &[ChunkEntry],
    target: &[ChunkEntry],
    done: u32,
) -> Result<bool, AllocError>
    ensures { IfOk result (λ copied. copied ≡ numbers_eq (allocated_places target.now) (take done (allocated_places image.now))) }
{
    let from = allocated_places(alloc, image)?;
    let to = allocated_places(alloc, target)?;
    let done = from.len().min(done as usize);
    let front = &from[..done];
    Ok(to.as_slice() == front)
}

fn allocated_places(alloc: Global, entries: &[ChunkEntry]) -> Result<Vec<u64>, AllocError>
    ensures { IfOk result (λ places. places.items ≡ allocated_places entries.now) }
{
    let mut places = Vec::new(alloc);
    for (index, entry) in entries.iter().enumerate() {
        put_if_allocated(&mut places, index as u64, entry)?;
    }
    Ok(places)
}

fn put_if_allocated(places: &mut Vec<u64>, index: u64, entry: &ChunkEntry) -> Result<(), AllocError>
    ensures { OnOk result (places.new.items ≡ places.old.items ++ (if not (entry.now.stamp == 0) then index ∷ [] else [])) }
{
    if entry.stamp != 0 {
        places.push(index)?;
    }
    Ok(())
}

/// Whether no other stamp than 0 and this number is there.
fn has_own_stamps(entries: &[ChunkEntry], number: u64) -> bool
    ensures { result ≡ list_all (λ (e : Entry). (e.stamp == 0) || (e.stamp == number)) entries.now }
{
    entries
        .iter()
        .all(|entry| entry.stamp == 0 || entry.stamp == number)
}
