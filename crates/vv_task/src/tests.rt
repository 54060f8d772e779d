//! Each call once, and a full table.
ghost use Rattle.std.specs.Prelude.{◌≡◌, is_some};
ghost use Rattle.vv_task.specs.declared.task.Job.TheVariants.{Clone};
ghost use Rattle.vv_task.specs.Table.{runs};

use crate::{CancelFault, Job, Task, TaskTable};
use std::test::Fail;
use vv_units::{Field, TaskId, TaskState, TooMany, VolumeId};

/// A clone of volume 1, as it stands.
fn clone_task(number: u64, state: TaskState, done: u32, total: u32) -> Task
    ensures { result ≡ record { id = record { 0 = number }; job = Clone (record { 0 = 1 }); state = state; done = done; total = total } }
{
    Task {
        id: TaskId(number),
        job: Job::Clone {
            volume: VolumeId(1),
        },
        state,
        done,
        total,
    }
}

/// The next turn of a task that runs, and whether it was the last.
fn turn(table: &mut TaskTable, id: TaskId) -> Option<bool>
    ensures { is_some result ≡ runs table.old id.0 }
{
    match table.get(id)?.state {
        TaskState::Running => {
            let n = table.next_piece(id);
            Some(table.note(id, n))
        }
        TaskState::Success | TaskState::Cancelled | TaskState::Interrupted => None,
    }
}

#[test]
fn a_task_goes_turn_by_turn(rt: HostRuntime) -> Result<(), Fail> {
    let mut table = TaskTable::new(rt.alloc())?;
    assert_eq!(rt; table.may_start(), Ok(()));
    table.start(clone_task(5, TaskState::Running, 0, 20));
    assert_eq!(rt; table.next_piece(TaskId(5)), 16);
    assert!(rt; !table.note(TaskId(5), 16));
    assert_eq!(rt; table.next_piece(TaskId(5)), 4);
    assert_eq!(rt; turn(&mut table, TaskId(5)), Some(true));
    assert_eq!(rt; turn(&mut table, TaskId(5)), None);
    assert_eq!(rt;
        table.get(TaskId(5)),
        Some(clone_task(5, TaskState::Success, 20, 20))
    );
    assert_eq!(rt; table.cancel(TaskId(5)), Err(CancelFault::NotCancellable));
    Ok(())
}

#[test]
fn tasks_end_early(rt: HostRuntime) -> Result<(), Fail> {
    let mut table = TaskTable::new(rt.alloc())?;
    table.restore(clone_task(2, TaskState::Running, 1, 9));
    table.restore(clone_task(3, TaskState::Running, 0, 9));
    assert_eq!(rt; table.cancel(TaskId(4)), Err(CancelFault::NotFound));
    assert_eq!(rt; table.cancel(TaskId(3)), Ok(()));
    table.interrupt();
    assert_eq!(rt;
        table.at(0),
        Some(clone_task(2, TaskState::Interrupted, 1, 9))
    );
    assert_eq!(rt;
        table.at(1),
        Some(clone_task(3, TaskState::Cancelled, 0, 9))
    );
    assert_eq!(rt; table.at(2), None);
    Ok(())
}

#[test]
fn sixteen_tasks_run(rt: HostRuntime) -> Result<(), Fail> {
    let mut table = TaskTable::new(rt.alloc())?;
    for number in 0..16 {
        assert_eq!(rt; table.may_start(), Ok(()));
        table.start(clone_task(number, TaskState::Running, 0, 1));
    }
    assert_eq!(rt;
        table.may_start(),
        Err(TooMany {
            name: Field::Task,
            limit: 16,
        })
    );
    Ok(())
}

#[test]
fn a_full_table_drops_the_oldest_that_has_ended(rt: HostRuntime) -> Result<(), Fail> {
    let mut table = TaskTable::new(rt.alloc())?;
    table.restore(clone_task(0, TaskState::Running, 0, 1));
    for number in 1..256 {
        table.restore(clone_task(number, TaskState::Success, 1, 1));
    }
    assert_eq!(rt; table.may_start(), Ok(()));
    table.start(clone_task(256, TaskState::Running, 0, 1));
    assert!(rt; table.get(TaskId(0)).is_some());
    assert_eq!(rt; table.get(TaskId(1)), None);
    assert!(rt; table.get(TaskId(2)).is_some());
    assert_eq!(rt; table.at(256), None);
    Ok(())
}
