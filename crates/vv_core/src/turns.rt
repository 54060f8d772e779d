//! The chunks that the next turn of a running clone copies.
ghost use Rattle.std.specs.Prelude.{◌≡◌, ◌==◌, ◌≤◌, ◌<◌, ℕ, List, length, map, option_and_then, IfOk, IfSome};
ghost use Rattle.vv_record.specs.declared.record.ChunkCopy.{ChunkCopy as chunk_copy};
ghost use Rattle.vv_flat.specs.Lists.{numbers_eq};
ghost use Rattle.vv_flat.specs.State.{task_of};
ghost use Rattle.vv_flat.specs.Chunks.{Entry as SeenEntry};
ghost use Rattle.vv_flat.specs.Changes.{Turn, changed_indexes};
ghost use Rattle.vv_task.specs.Table.{job_of, record_of};
ghost use Rattle.vv_core.specs.Turns.{copied_of, copied_by, image_stamps, next_of, with_index, next_indexes};

use std::alloc::Global;
use vv_record::ChunkCopy;
use vv_tables::Tables;
use vv_task::{Job, Task};
use vv_units::{NoMemory, TaskId, TaskState};

/// The indexes of the chunks that the next turn of a task copies, in rising order: none but for a clone that runs.
pub(crate) fn turn_indexes(
    alloc: Global,
    tables: &Tables,
    task: TaskId,
) -> Result<Vec<u32>, NoMemory>
    ensures indexes { IfOk result (λ indexes. indexes.items ≡ changed_indexes (λ (e : SeenEntry). e.stamp) tables.now.durable (Turn task.0)) }
    ensures few { IfOk result (λ indexes. length indexes.items ≤ 16) }
{
    match copied_by(tables, task) {
        Some(copied) => next_indexes(alloc, tables, task, copied),
        None => Ok(Vec::new(alloc)),
    }
}

/// How many chunks the clone that a task makes has copied, while it runs. There is no such number of another task.
fn copied_by(tables: &Tables, task: TaskId) -> Option<u32>
    ensures { result ≡ option_and_then copied_by (task_of tables.now.durable task.0) }
{
    match tables.task(task) {
        Some(found) => copied_so_far(&found),
        None => None,
    }
}

/// The same of the task itself.
fn copied_so_far(task: &Task) -> Option<u32>
    ensures { result ≡ copied_by (record_of task.now) }
{
    match task.state {
        TaskState::Running => copied_of(task.job, task.done),
        TaskState::Success => None,
        TaskState::Cancelled => None,
        TaskState::Interrupted => None,
    }
}

/// How many chunks or pieces are done, where these are the chunks of a clone.
fn copied_of(job: Job, done: u32) -> Option<u32>
    ensures { result ≡ copied_of (job_of job) done }
{
    match job {
        Job::Clone { volume: _ } => Some(done),
        Job::Copy {
            source: _,
            base: _,
            target: _,
        } => None,
    }
}

/// The next allocated indexes of the image of a running clone behind the first `copied`, at most 16, and none where no such
/// clone runs. It looks at no chunk behind the 16th.
fn next_indexes(
    alloc: Global,
    tables: &Tables,
    task: TaskId,
    copied: u32,
) -> Result<Vec<u32>, NoMemory>
    ensures { IfOk result (λ indexes. indexes.items ≡ next_indexes tables.now.durable task.0 copied) }
{
    let _well_formed = tables.lsn();
    let mut indexes = Vec::new(alloc);
    let mut ahead = copied;
    let mut index = 0;
    while indexes.len() < 16 {
        let Some(entry) = tables.image_entry(task, index) else {
            return Ok(indexes);
        };
        ahead = with_chunk(&mut indexes, ahead, index, entry.stamp)?;
        index += 1;
    }
    Ok(indexes)
}

/// Takes the index of one more chunk, if it is allocated and no allocated chunk is still to be passed over. It says how many
/// are to be passed over behind it.
fn with_chunk(indexes: &mut Vec<u32>, ahead: u32, index: u32, stamp: u64) -> Result<u32, NoMemory>
    requires { length indexes.old.items < 16 }
    ensures { IfOk result (λ left. (rest : List ℕ) → next_of indexes.old.items ahead (with_index index stamp rest) ≡ next_of indexes.new.items left rest) }
{
    if stamp == 0 {
        return Ok(ahead);
    }
    if ahead > 0 {
        return Ok(ahead - 1);
    }
    match indexes.push(index) {
        Ok(()) => Ok(0),
        Err(_) => Err(NoMemory),
    }
}

/// Whether copies are at these indexes, in this order.
pub(crate) fn are_copies_at(copies: &[ChunkCopy], indexes: &[u32]) -> bool
    ensures { result ≡ numbers_eq (map (λ (c : chunk_copy). c.index) copies.now) indexes.now }
{
    if copies.len() != indexes.len() {
        return false;
    }
    for (i, copy) in copies.iter().enumerate() {
        if !is_at(copy, indexes[i]) {
            return false;
        }
    }
    true
}

/// Whether a copy is at this index.
fn is_at(copy: &ChunkCopy, index: u32) -> bool
    ensures { result ≡ (copy.now.index == index) }
{
    copy.index == index
}
