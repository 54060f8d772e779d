//! The records of tasks are read.
ghost use Rattle.std.specs.Prelude.{◌≡◌, []};
ghost use Rattle.vv_record.specs.Reading.{Gives, GivesSeen, items};
ghost use Rattle.vv_area.specs.Forms as form;
ghost use Rattle.vv_area.specs.Forms.{rises, number_of_task};
ghost use Rattle.vv_area.specs.Jobs.{job_of};

use crate::rows::{RawJob, RawTask};
use std::alloc::Global;
use vv_record::{Fields, RecordFault};
use vv_units::{ItemList, TaskId, TaskState};

#[tactic(auto, unfolding(crate::specs::Forms::tasks))]
pub(crate) fn tasks(alloc: Global, fields: &mut Fields) -> Result<ItemList<RawTask>, RecordFault>
    ensures { Gives result fields.new (form.tasks fields.old) }
{
    let count = fields.u16()?;
    let tasks = task_items(alloc, count, fields)?;
    Ok(ItemList::of(tasks))
}

fn task_items(alloc: Global, count: u16, fields: &mut Fields) -> Result<Vec<RawTask>, RecordFault>
    ensures { GivesSeen (λ v. v.items) result fields.new (items form.task count [] fields.old) }
{
    let mut tasks = Vec::new(alloc);
    for _ in 0..count {
        let next = task(&tasks, fields)?;
        tasks.push(next)?;
    }
    Ok(tasks)
}

/// The next task, behind these.
#[tactic(auto, unfolding(crate::specs::Forms::task))]
pub fn task(before: &[RawTask], fields: &mut Fields) -> Result<RawTask, RecordFault>
    ensures { Gives result fields.new (form.task before.now fields.old) }
{
    let number = task_number(before, fields)?;
    let job = job(fields)?;
    let state = state(fields)?;
    let done = fields.u32()?;
    let total = fields.u32()?;
    Ok(RawTask {
        number: TaskId(number),
        job,
        state,
        done,
        total,
    })
}

#[tactic(auto, unfolding(crate::specs::Forms::task_number, vv_record::specs::Reading::allowed))]
fn task_number(before: &[RawTask], fields: &mut Fields) -> Result<u64, RecordFault>
    ensures { Gives result fields.new (form.task_number before.now fields.old) }
{
    let at = fields.at();
    let number = fields.u64()?;
    if is_next_task(before, number) {
        Ok(number)
    } else {
        Err(RecordFault::Bad { at })
    }
}

fn is_next_task(before: &[RawTask], number: u64) -> bool
    ensures { result ≡ rises number_of_task before.now number }
{
    match before.last() {
        Some(last) => last.number.0 < number,
        None => true,
    }
}

#[tactic(auto, unfolding(crate::specs::Forms::job_field))]
fn job(fields: &mut Fields) -> Result<RawJob, RecordFault>
    ensures { GivesSeen job_of result fields.new (form.job_field fields.old) }
{
    let kind = fields.u8_within(1, 2)?;
    if kind == 1 {
        clone_job(fields)
    } else {
        copy_job(fields)
    }
}

#[tactic(auto, unfolding(crate::specs::Forms::clone_job, vv_record::specs::Forms::volume))]
fn clone_job(fields: &mut Fields) -> Result<RawJob, RecordFault>
    ensures { GivesSeen job_of result fields.new (form.clone_job fields.old) }
{
    let volume = fields.volume()?;
    Ok(RawJob::Clone { volume })
}

#[tactic(auto, unfolding(crate::specs::Forms::copy_job, vv_record::specs::Forms::volume))]
fn copy_job(fields: &mut Fields) -> Result<RawJob, RecordFault>
    ensures { GivesSeen job_of result fields.new (form.copy_job fields.old) }
{
    let source = fields.volume()?;
    let base = fields.volume()?;
    let target = fields.volume()?;
    Ok(RawJob::Copy {
        source,
        base,
        target,
    })
}

/// How a task stands.
#[tactic(auto, unfolding(crate::specs::Forms::state_field))]
fn state(fields: &mut Fields) -> Result<TaskState, RecordFault>
    ensures { Gives result fields.new (form.state_field fields.old) }
{
    let number = fields.u8_within(0, 3)?;
    Ok(state_numbered(number))
}

fn state_numbered(number: u8) -> TaskState
    ensures { result ≡ form.state_numbered number }
{
    match number {
        0 => TaskState::Running,
        1 => TaskState::Success,
        2 => TaskState::Cancelled,
        _ => TaskState::Interrupted,
    }
}
