//! One row of the table.
ghost use Rattle.std.specs.Prelude.{◌≡◌, ◌-◌, ◌≤◌};
ghost use Rattle.vv_units.specs.declared.volume.TaskState.TheVariants.{Cancelled};
ghost use Rattle.vv_flat.specs.Space.{is_running};
ghost use Rattle.vv_flat.specs.Tasks.{next_piece, is_last, advanced};
ghost use Rattle.vv_flat.specs.Restart.{interrupted_task};
ghost use Rattle.vv_task.specs.Table.{record_of, is_numbered, IsCounted};

use crate::task::Task;
use std::marker::Model;
use vv_units::{TaskId, TaskState};

/// A task of which no more is done than all, and all where it has succeeded.
#[derive(Drop)]
pub(crate) struct Row {
    task: Task,
}

impl Model for Row {
    ghost use Rattle.vv_flat.specs.State.{Task as TaskRecord};
    ghost use Rattle.vv_task.specs.Table.{record_of, IsCounted};

    ghost Value = { TaskRecord };

    ghost view = { λ a. record_of a.task };

    ghost invariant = { λ a. IsCounted (record_of a.task) };
}

impl Row {
    pub(crate) fn of(task: Task) -> Row
        requires { IsCounted (record_of task) }
        ensures { result ≡ record_of task }
    {
        Row { task }
    }

    pub(crate) fn task(&self) -> Task
        ensures exact { record_of result ≡ self.now }
        ensures counted { IsCounted self.now }
    {
        self.task
    }

    pub(crate) fn is_numbered(&self, id: TaskId) -> bool
        ensures { result ≡ is_numbered id.0 self.now }
    {
        self.task.id.0 == id.0
    }

    pub(crate) fn is_running(&self) -> bool
        ensures { result ≡ is_running self.now }
    {
        match self.task.state {
            TaskState::Running => true,
            TaskState::Success | TaskState::Cancelled | TaskState::Interrupted => false,
        }
    }

    /// How many the next turn does.
    pub(crate) fn next_piece(&self) -> u32
        ensures { result ≡ next_piece self.now }
    {
        let left = self.task.total - self.task.done;
        if left < 16 { left } else { 16 }
    }

    /// Whether so many more are all that was left.
    fn is_last(&self, n: u32) -> bool
        ensures { result ≡ is_last self.now n }
    {
        n == self.task.total - self.task.done
    }

    /// Notes that so many more are done, and says whether these were the last.
    pub(crate) fn note(&mut self, n: u32) -> bool
        requires { n ≤ self.old.total - self.old.done }
        ensures last { result ≡ is_last self.old n }
        ensures task { self.new ≡ advanced self.old n }
    {
        let last = self.is_last(n);
        self.task.done += n;
        self.task.state = if last {
            TaskState::Success
        } else {
            TaskState::Running
        };
        last
    }

    pub(crate) fn cancel(&mut self)
        ensures { self.new ≡ record self.old { state = Cancelled } }
    {
        self.task.state = TaskState::Cancelled;
    }

    /// Interrupts it if it runs.
    pub(crate) fn interrupt(&mut self)
        ensures { self.new ≡ interrupted_task self.old }
    {
        if self.is_running() {
            self.task.state = TaskState::Interrupted;
        }
    }
}
