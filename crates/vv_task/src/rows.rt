//! Places in the rows of a table, and edits of the rows.
ghost use Rattle.std.specs.Prelude.{◌≡◌, ◌==◌, ◌<◌, ◌≤◌, ◌++◌, ◌∷◌, [], map, not, vec_len, vec_capacity, IsTrue, IsSome, Some, option_map, option_copied, count_by};
ghost use Rattle.std.specs.List.{position};
ghost use Rattle.vv_flat.specs.Lists.{first_removed};
ghost use Rattle.vv_flat.specs.Space.{is_running};
ghost use Rattle.vv_flat.specs.Tasks.{with_room, is_last, task_cancelled};
ghost use Rattle.vv_flat.specs.Restart.{interrupted_task};
ghost use Rattle.vv_task.specs.Table.{is_numbered, task_numbered, runs, left_of, noted, cancel_fault};

use crate::fault::CancelFault;
use crate::row::Row;
use vv_units::TaskId;

/// The place of the task with a number.
fn place_of(rows: &[Row], id: TaskId) -> Option<usize>
    ensures { result ≡ position (is_numbered id.0) rows.now }
{
    rows.iter().position(|row| row.is_numbered(id))
}

/// The place of the first task that doesn't run.
fn place_of_ended(rows: &[Row]) -> Option<usize>
    ensures { result ≡ position (λ t. not (is_running t)) rows.now }
{
    rows.iter().position(|row| !row.is_running())
}

/// The task with a number.
pub(crate) fn find(rows: &[Row], id: TaskId) -> Option<&Row>
    ensures { option_copied result ≡ task_numbered rows.now id.0 }
{
    match place_of(rows, id) {
        Some(at) => Some(&rows[at]),
        None => None,
    }
}

/// The task with a number that stands.
pub(crate) fn standing(rows: &[Row], id: TaskId) -> &Row
    requires { IsSome (task_numbered rows.now id.0) }
    ensures { task_numbered rows.now id.0 ≡ Some result.now }
{
    match find(rows, id) {
        Some(row) => row,
        None => unreachable!(),
    }
}

/// How many tasks run.
fn running(rows: &[Row]) -> usize
    ensures { result ≡ count_by is_running rows.now }
{
    rows.iter().filter(|row| row.is_running()).count()
}

/// Whether as many tasks run as may.
pub(crate) fn is_full(rows: &[Row]) -> bool
    ensures { result ≡ (count_by is_running rows.now == 16) }
{
    running(rows) == 16
}

/// Adds a task behind all others.
pub(crate) fn push(rows: &mut Vec<Row>, row: Row)
    requires { vec_len rows.old < vec_capacity rows.old }
    ensures items { rows.new.items ≡ rows.old.items ++ row ∷ [] }
    ensures capacity { vec_capacity rows.old ≤ vec_capacity rows.new }
{
    match rows.push(row) {
        Ok(()) => {}
        Err(_) => unreachable!(),
    }
}

/// Drops the first task that doesn't run.
fn drop_ended(rows: &mut Vec<Row>)
    ensures items { rows.new.items ≡ first_removed (λ t. not (is_running t)) rows.old.items }
    ensures capacity { vec_capacity rows.new ≡ vec_capacity rows.old }
{
    match place_of_ended(rows) {
        Some(at) => {
            rows.remove(at);
        }
        None => {}
    }
}

/// Makes room for one more task.
pub(crate) fn make_room(rows: &mut Vec<Row>)
    ensures items { rows.new.items ≡ with_room rows.old.items }
    ensures capacity { vec_capacity rows.new ≡ vec_capacity rows.old }
{
    if rows.len() >= 256 {
        drop_ended(rows);
    }
}

/// Notes that so many more are done of a task that runs, and says whether these were the last.
pub(crate) fn note(rows: &mut Vec<Row>, id: TaskId, n: u32) -> bool
    requires runs { IsTrue (runs rows.old.items id.0) }
    requires left { n ≤ left_of rows.old.items id.0 }
    ensures last { option_map (λ t. is_last t n) (task_numbered rows.old.items id.0) ≡ Some result }
    ensures items { rows.new.items ≡ noted rows.old.items id.0 n }
    ensures capacity { vec_capacity rows.new ≡ vec_capacity rows.old }
{
    match place_of(rows, id) {
        Some(at) => rows[at].note(n),
        None => unreachable!(),
    }
}

/// Why the task of a number is not cancelled.
pub(crate) fn cancel_fault(rows: &[Row], id: TaskId) -> Option<CancelFault>
    ensures { result ≡ cancel_fault rows.now id.0 }
{
    match find(rows, id) {
        Some(row) => {
            if row.is_running() {
                None
            } else {
                Some(CancelFault::NotCancellable)
            }
        }
        None => Some(CancelFault::NotFound),
    }
}

/// Cancels the task of a number.
pub(crate) fn cancel(rows: &mut Vec<Row>, id: TaskId)
    ensures items { rows.new.items ≡ task_cancelled rows.old.items id.0 }
    ensures capacity { vec_capacity rows.new ≡ vec_capacity rows.old }
{
    match place_of(rows, id) {
        Some(at) => rows[at].cancel(),
        None => {}
    }
}

/// Interrupts all tasks that run.
pub(crate) fn interrupt(rows: &mut Vec<Row>)
    ensures items { rows.new.items ≡ map interrupted_task rows.old.items }
    ensures capacity { vec_capacity rows.new ≡ vec_capacity rows.old }
{
    for row in rows.iter_mut() {
        row.interrupt();
    }
}
