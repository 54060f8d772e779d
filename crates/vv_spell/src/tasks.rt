//! The table of tasks.
ghost use Rattle.std.specs.Prelude.{◌≡◌, ◌+◌, ◌++◌, Some, slice_get};
ghost use Rattle.vv_fields.specs.Fields.{be_bytes};
ghost use Rattle.std.specs.List.{flat_map};
ghost use Rattle.vv_flat.specs.Lists.{if_found};
ghost use Rattle.vv_flat.specs.State.{Clone, Copy, Task as SeenTask};
ghost use Rattle.vv_task.specs.Table.{job_of, record_of};
ghost use Rattle.vv_record.specs.Spelling.{list_spelling};
ghost use Rattle.vv_area.specs.Spelling.{job_spelling, state_number, task_spelling};
ghost use Rattle.vv_area.specs.Lengths.{job_length, task_length};
ghost use Rattle.vv_spell.specs.Window.{seen, behind};

use crate::window::Window;
use vv_tables::Tables;
use vv_task::{Job, Task};
use vv_units::{TaskState, VolumeId};

fn state_number(state: TaskState) -> u64
    ensures { result ≡ state_number state }
{
    match state {
        TaskState::Running => 0,
        TaskState::Success => 1,
        TaskState::Cancelled => 2,
        TaskState::Interrupted => 3,
    }
}

#[tactic(auto, using(crate::proofs::WindowLemmas::put_two))]
fn put_clone_job(window: &mut Window, into: &mut [u8], volume: VolumeId)
    ensures { seen window.new into.new ≡ behind (seen window.old into.old) (job_spelling (Clone volume.0)) }
{
    window.put_number(into, 1, 1);
    window.put_number(into, 8, volume.0);
}

#[tactic(auto, using(crate::proofs::WindowLemmas::put_two))]
fn put_copy_volumes(
    window: &mut Window,
    into: &mut [u8],
    source: VolumeId,
    base: VolumeId,
    target: VolumeId,
)
    ensures { seen window.new into.new ≡ behind (seen window.old into.old) (be_bytes 8 source.0 ++ be_bytes 8 base.0 ++ be_bytes 8 target.0) }
{
    window.put_number(into, 8, source.0);
    window.put_number(into, 8, base.0);
    window.put_number(into, 8, target.0);
}

#[tactic(auto, using(crate::proofs::WindowLemmas::put_two))]
fn put_copy_job(
    window: &mut Window,
    into: &mut [u8],
    source: VolumeId,
    base: VolumeId,
    target: VolumeId,
)
    ensures { seen window.new into.new ≡ behind (seen window.old into.old) (job_spelling (Copy source.0 base.0 target.0)) }
{
    window.put_number(into, 1, 2);
    put_copy_volumes(window, into, source, base, target);
}

fn put_job(window: &mut Window, into: &mut [u8], job: Job)
    ensures { seen window.new into.new ≡ behind (seen window.old into.old) (job_spelling (job_of job)) }
{
    match job {
        Job::Clone { volume } => put_clone_job(window, into, volume),
        Job::Copy {
            source,
            base,
            target,
        } => put_copy_job(window, into, source, base, target),
    }
}

#[tactic(auto, using(crate::proofs::WindowLemmas::put_two, crate::proofs::WindowLemmas::put_end))]
fn put_task(window: &mut Window, into: &mut [u8], task: &Task)
    ensures { seen window.new into.new ≡ behind (seen window.old into.old) (task_spelling (record_of task.now)) }
{
    window.put_number(into, 8, task.id.0);
    put_job(window, into, task.job);
    window.put_number(into, 1, state_number(task.state));
    window.put_number(into, 4, task.done as u64);
    window.put_number(into, 4, task.total as u64);
}

/// How many bytes the task at a place is spelled in: none past the last.
pub(crate) fn task_len_at(tables: &Tables, i: u32) -> u64
    ensures { result ≡ if_found (slice_get tables.now.durable.tasks i) task_length 0 }
{
    match tables.task_at(i) {
        Some(task) => task_len(task.job),
        None => 0,
    }
}

fn task_len(job: Job) -> u64
    ensures { result ≡ 17 + job_length (job_of job) }
{
    match job {
        Job::Clone { .. } => 26,
        Job::Copy { .. } => 42,
    }
}

fn put_task_at(window: &mut Window, into: &mut [u8], tables: &Tables, i: u32)
    ensures { (t : SeenTask) → slice_get tables.now.durable.tasks i ≡ Some t → seen window.new into.new ≡ behind (seen window.old into.old) (task_spelling t) }
{
    if window.pass(into, task_len_at(tables, i)) {
        return;
    }
    if let Some(task) = tables.task_at(i) {
        put_task(window, into, &task);
    }
}

fn put_each_task(window: &mut Window, into: &mut [u8], tables: &Tables)
    ensures { seen window.new into.new ≡ behind (seen window.old into.old) (flat_map task_spelling tables.now.durable.tasks) }
{
    for i in 0..tables.task_count() {
        put_task_at(window, into, tables, i);
    }
}

/// Puts the tasks.
#[tactic(auto, using(crate::proofs::WindowLemmas::put_two))]
pub(crate) fn put_tasks(window: &mut Window, into: &mut [u8], tables: &Tables)
    ensures { seen window.new into.new ≡ behind (seen window.old into.old) (list_spelling 2 task_spelling tables.now.durable.tasks) }
{
    window.put_number(into, 2, tables.task_count() as u64);
    put_each_task(window, into, tables);
}
