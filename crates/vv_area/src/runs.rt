//! What running tasks hold is read: a clone's image and target, and the pieces of a copy.
ghost use Rattle.std.specs.Prelude.{◌≡◌, ◌&&◌, not, [], ◌∷◌, ◌++◌};
ghost use Rattle.vv_record.specs.Reading.{Gives, GivesSeen, items};
ghost use Rattle.vv_area.specs.Forms as form;
ghost use Rattle.vv_area.specs.Runs.{runs_of};
ghost use Rattle.vv_flat.specs.Space.{is_running, is_clone};

use crate::metadata::{entries, entry, metadata_pairs};
use crate::rows::{PieceList, RawClone, RawCopy, RawJob, RawPiece, RawTask};
use std::alloc::Global;
use vv_record::{Fields, RecordFault, needs};
use vv_units::{ContainerId, ItemList, TaskId, TaskState};

/// The clones and the copies that run, each list in the order of their tasks.
#[derive(Drop)]
pub(crate) struct Running {
    pub(crate) clones: Vec<RawClone>,
    pub(crate) copies: Vec<RawCopy>,
}

/// What the running ones of these tasks hold.
pub(crate) fn runs(
    alloc: Global,
    spelling: u8,
    tasks: &[RawTask],
    fields: &mut Fields,
) -> Result<Running, RecordFault>
    ensures { GivesSeen runs_of result fields.new (form.runs spelling tasks.now form.no_runs fields.old) }
{
    let mut runs = Running {
        clones: Vec::new(alloc),
        copies: Vec::new(alloc),
    };
    for task in tasks {
        runs = with_run(alloc, spelling, task, runs, fields)?;
    }
    Ok(runs)
}

/// These and what a task holds, if it runs.
fn with_run(
    alloc: Global,
    spelling: u8,
    task: &RawTask,
    runs: Running,
    fields: &mut Fields,
) -> Result<Running, RecordFault>
    ensures { GivesSeen runs_of result fields.new (form.next_run spelling task.now (runs_of runs) fields.old) }
{
    if !is_running(task) {
        return Ok(runs);
    }
    if is_clone(task) {
        with_clone(alloc, spelling, task.number, runs, fields)
    } else {
        with_copy(alloc, task.number, runs, fields)
    }
}

/// Whether a task runs.
pub fn is_running(task: &RawTask) -> bool
    ensures { result ≡ is_running task.now }
{
    matches!(task.state, TaskState::Running)
}

/// Whether a task makes a full clone.
pub fn is_clone(task: &RawTask) -> bool
    ensures { result ≡ is_clone task.now.job }
{
    matches!(task.job, RawJob::Clone { .. })
}

#[tactic(auto, unfolding(crate::specs::Forms::next_clone))]
fn with_clone(
    alloc: Global,
    spelling: u8,
    number: TaskId,
    mut runs: Running,
    fields: &mut Fields,
) -> Result<Running, RecordFault>
    ensures { GivesSeen runs_of result fields.new (form.next_clone spelling number.0 (runs_of runs) fields.old) }
{
    let clone = running_clone(alloc, spelling, number, fields)?;
    runs.clones.push(clone)?;
    Ok(runs)
}

#[tactic(auto, unfolding(crate::specs::Forms::next_copy))]
fn with_copy(
    alloc: Global,
    number: TaskId,
    mut runs: Running,
    fields: &mut Fields,
) -> Result<Running, RecordFault>
    ensures { GivesSeen runs_of result fields.new (form.next_copy number.0 (runs_of runs) fields.old) }
{
    let copy = running_copy(alloc, number, fields)?;
    runs.copies.push(copy)?;
    Ok(runs)
}

#[tactic(auto, unfolding(crate::specs::Forms::running_clone))]
fn running_clone(
    alloc: Global,
    spelling: u8,
    number: TaskId,
    fields: &mut Fields,
) -> Result<RawClone, RecordFault>
    ensures { Gives result fields.new (form.running_clone spelling number.0 fields.old) }
{
    let container = fields.u64()?;
    let vtype = fields.vvol_type()?;
    let needs = needs(alloc, fields)?;
    let metadata = metadata_pairs(alloc, spelling, fields)?;
    let image = entries(alloc, fields)?;
    let target = entries(alloc, fields)?;
    Ok(RawClone {
        number,
        container: ContainerId(container),
        vtype,
        needs,
        metadata,
        image,
        target,
    })
}

#[tactic(auto, unfolding(crate::specs::Forms::running_copy))]
fn running_copy(alloc: Global, number: TaskId, fields: &mut Fields) -> Result<RawCopy, RecordFault>
    ensures { Gives result fields.new (form.running_copy number.0 fields.old) }
{
    let pieces = pieces(alloc, fields)?;
    Ok(RawCopy { number, pieces })
}

#[tactic(auto, unfolding(crate::specs::Forms::pieces))]
fn pieces(alloc: Global, fields: &mut Fields) -> Result<PieceList, RecordFault>
    ensures { Gives result fields.new (form.pieces fields.old) }
{
    let count = fields.u32()?;
    let pieces = piece_items(alloc, count, fields)?;
    Ok(ItemList::of(pieces))
}

fn piece_items(alloc: Global, count: u32, fields: &mut Fields) -> Result<Vec<RawPiece>, RecordFault>
    ensures { GivesSeen (λ v. v.items) result fields.new (items (λ before. form.piece) count [] fields.old) }
{
    let mut pieces = Vec::new(alloc);
    for _ in 0..count {
        let next = piece(fields)?;
        pieces.push(next)?;
    }
    Ok(pieces)
}

/// A piece of a difference copy.
#[tactic(auto, unfolding(crate::specs::Forms::piece))]
pub fn piece(fields: &mut Fields) -> Result<RawPiece, RecordFault>
    ensures { Gives result fields.new (form.piece fields.old) }
{
    let index = fields.u32()?;
    let entry = entry(fields)?;
    Ok(RawPiece { index, entry })
}
