//! The records of tasks, copied from raw tables.
ghost use Rattle.std.specs.Prelude.{◌≡◌, ◌<◌, ◌≤◌, ◌++◌, ◌∷◌, [], true, length, count_by, IsTrue};
ghost use Rattle.vv_units.specs.declared.volume.TaskState.TheVariants.{Running, Success};
ghost use Rattle.vv_flat.specs.Space.{is_running};
ghost use Rattle.vv_flat.specs.WellFormed.{is_well_formed};
ghost use Rattle.vv_task.specs.Table.{job_of, record_of, is_above_all};
ghost use Rattle.vv_area.specs.Area.{tables_of};
ghost use Rattle.vv_area.specs.Jobs.{job_of as raw_job_of};
ghost use Rattle.vv_restore.specs.Restoring.{bindings_of, tasks_of};

use vv_area::{RawJob, RawTables, RawTask};
use vv_tables::Restored;
use vv_task::{Job, Task};

/// Adds the tasks of well-formed tables, behind their bindings.
pub(crate) fn add_tasks(restored: &mut Restored, raw: &RawTables)
    requires well { is_well_formed (tables_of raw.now) ≡ true }
    requires so_far { restored.old ≡ bindings_of (tables_of raw.now) }
    ensures { restored.new ≡ tasks_of (tables_of raw.now) }
{
    for row in raw.tasks.items() {
        add_task(restored, row);
    }
}

/// Adds the record of a task, by a number above all others.
fn add_task(restored: &mut Restored, row: &RawTask)
    requires above { IsTrue (is_above_all row.now.number restored.old.tasks) }
    requires room { length restored.old.tasks < 256 }
    requires may_run { row.now.state ≡ Running → count_by is_running restored.old.tasks < 16 }
    requires within { row.now.done ≤ row.now.total }
    requires whole { row.now.state ≡ Success → row.now.done ≡ row.now.total }
    ensures { restored.new ≡ record restored.old { tasks = restored.old.tasks ++ row.now ∷ [] } }
{
    restored.add_task(given_task(row));
}

/// The record as the table takes it.
fn given_task(row: &RawTask) -> Task
    ensures { record_of result ≡ row.now }
{
    Task {
        id: row.number,
        job: given_job(row.job),
        state: row.state,
        done: row.done,
        total: row.total,
    }
}

/// The job as the table takes it.
fn given_job(job: RawJob) -> Job
    ensures { job_of result ≡ raw_job_of job }
{
    match job {
        RawJob::Clone { volume } => Job::Clone { volume },
        RawJob::Copy {
            source,
            base,
            target,
        } => Job::Copy {
            source,
            base,
            target,
        },
    }
}
