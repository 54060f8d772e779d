//! The table.
ghost use Rattle.std.specs.Prelude.{◌≡◌, ◌<◌, ◌≤◌, ◌++◌, ◌∷◌, [], length, map, slice_get, IsTrue, None, Some, IfOk, IfErr, IfSome, OnOk, OnErr, MatchResult, option_map, count_by};
ghost use Rattle.vv_units.specs.declared.volume.TaskState.TheVariants.{Running, Success};
ghost use Rattle.vv_flat.specs.Lists.{all_rising};
ghost use Rattle.vv_flat.specs.Space.{is_running};
ghost use Rattle.vv_flat.specs.Tasks.{started, next_piece, is_last, task_cancelled};
ghost use Rattle.vv_flat.specs.Restart.{interrupted_task};
ghost use Rattle.vv_task.specs.Table.{record_of, numbers, is_above_all, task_numbered, runs, left_of, noted, cancel_fault, full, IsCounted};

use crate::fault::CancelFault;
use crate::row::Row;
use crate::rows;
use crate::task::Task;
use std::alloc::Global;
use std::marker::Model;
use vv_units::{Field, NoMemory, TaskId, TooMany};

/// Tasks in rising order of their numbers, at most 256, of which at most 16 run. No more of one is done than all, and
/// all of one that has succeeded.
#[derive(Drop)]
pub struct TaskTable {
    rows: Vec<Row>,
}

impl Model for TaskTable {
    ghost use Rattle.std.specs.Prelude.{List, vec_capacity};
    ghost use Rattle.vv_flat.specs.State.{Task as TaskRecord};
    ghost use Rattle.vv_task.specs.Table.{IsKept};

    ghost Value = { List TaskRecord };

    ghost view = { λ a. a.rows.items };

    ghost invariant = { λ a. IsKept a.rows.items (vec_capacity a.rows) };
}

impl TaskTable {
    /// A table with no task, with all its memory.
    pub fn new(alloc: Global) -> Result<TaskTable, NoMemory>
        ensures { IfOk result (λ table. table ≡ []) }
    {
        match Vec::with_capacity(alloc, 256) {
            Ok(rows) => Ok(TaskTable { rows }),
            Err(_) => Err(NoMemory),
        }
    }

    /// Whether one more task may run. None may where 16 run.
    pub fn may_start(&self) -> Result<(), TooMany>
        ensures room { MatchResult result (λ _. count_by is_running self.now < 16) (λ _. count_by is_running self.now ≡ 16) }
        ensures fault { IfErr result (λ fault. fault ≡ full) }
    {
        if rows::is_full(&self.rows) {
            return Err(TooMany {
                name: Field::Task,
                limit: 16,
            });
        }
        Ok(())
    }

    /// Adds a task that begins to run, by a number above all that stand. At 256 tasks the one with the least number
    /// that doesn't run is dropped first.
    pub fn start(&mut self, task: Task)
        requires room { count_by is_running self.old < 16 }
        requires runs { task.state ≡ Running }
        requires begins { task.done ≡ 0 }
        requires above { IsTrue (is_above_all task.id.0 self.old) }
        ensures { self.new ≡ started self.old (record_of task) }
    {
        rows::make_room(&mut self.rows);
        rows::push(&mut self.rows, Row::of(task));
    }

    /// How many chunks or pieces the next turn of a task that runs does: 16, or those that are left.
    pub fn next_piece(&self, id: TaskId) -> u32
        requires { IsTrue (runs self.now id.0) }
        ensures { option_map next_piece (task_numbered self.now id.0) ≡ Some result }
    {
        rows::standing(&self.rows, id).next_piece()
    }

    /// Notes that so many more are done of a task that runs, and says whether these were the last. Then it has
    /// succeeded.
    pub fn note(&mut self, id: TaskId, n: u32) -> bool
        requires runs { IsTrue (runs self.old id.0) }
        requires left { n ≤ left_of self.old id.0 }
        ensures last { option_map (λ t. is_last t n) (task_numbered self.old id.0) ≡ Some result }
        ensures table { self.new ≡ noted self.old id.0 n }
    {
        rows::note(&mut self.rows, id, n)
    }

    /// Cancels a task that runs. An error comes where there is no such task or it doesn't run, and leaves the table.
    pub fn cancel(&mut self, id: TaskId) -> Result<(), CancelFault>
        ensures fault { MatchResult result (λ _. cancel_fault self.old id.0 ≡ None) (λ fault. cancel_fault self.old id.0 ≡ Some fault) }
        ensures ok { OnOk result (self.new ≡ task_cancelled self.old id.0) }
        ensures err { OnErr result (self.new ≡ self.old) }
    {
        match rows::cancel_fault(&self.rows, id) {
            Some(fault) => Err(fault),
            None => {
                rows::cancel(&mut self.rows, id);
                Ok(())
            }
        }
    }

    /// Interrupts all tasks that run.
    pub fn interrupt(&mut self)
        ensures { self.new ≡ map interrupted_task self.old }
    {
        rows::interrupt(&mut self.rows);
    }

    /// The task of a number.
    pub fn get(&self, id: TaskId) -> Option<Task>
        ensures item { option_map record_of result ≡ task_numbered self.now id.0 }
        ensures counted { IfSome result (λ task. IsCounted (record_of task)) }
    {
        match rows::find(&self.rows, id) {
            Some(row) => Some(row.task()),
            None => None,
        }
    }

    /// The task at a place, in rising order of numbers. There is none past the last.
    pub fn at(&self, i: u32) -> Option<Task>
        ensures item { option_map record_of result ≡ slice_get self.now i }
        ensures counted { IfSome result (λ task. IsCounted (record_of task)) }
        ensures rising { IsTrue (all_rising (numbers self.now)) }
        ensures few { length self.now ≤ 256 }
        ensures few_run { count_by is_running self.now ≤ 16 }
    {
        match self.rows.get(i as usize) {
            Some(row) => Some(row.task()),
            None => None,
        }
    }

    /// Adds a task as it stood, by a number above all that stand.
    pub fn restore(&mut self, task: Task)
        requires above { IsTrue (is_above_all task.id.0 self.old) }
        requires room { length self.old < 256 }
        requires may_run { task.state ≡ Running → count_by is_running self.old < 16 }
        requires within { task.done ≤ task.total }
        requires whole { task.state ≡ Success → task.done ≡ task.total }
        ensures { self.new ≡ self.old ++ record_of task ∷ [] }
    {
        rows::push(&mut self.rows, Row::of(task));
    }
}
