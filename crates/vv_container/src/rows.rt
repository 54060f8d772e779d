//! Places in the rows of a table, and edits of the rows.
ghost use Rattle.std.specs.Prelude.{◌≡◌, ◌==◌, ◌<◌, ◌≤◌, ◌++◌, ◌∷◌, [], length, vec_len, vec_capacity, IsSome, Some, option_copied};
ghost use Rattle.std.specs.List.{position};
ghost use Rattle.vv_container.specs.Table.{is_numbered, row_of, with_charge};

use crate::row::Row;
use vv_units::ContainerId;

/// The place of the row with a number.
fn place_of(rows: &[Row], id: ContainerId) -> Option<usize>
    ensures { result ≡ position (is_numbered id.0) rows.now }
{
    rows.iter().position(|row| row.is_numbered(id))
}

/// The row with a number.
pub(crate) fn find(rows: &[Row], id: ContainerId) -> Option<&Row>
    ensures { option_copied result ≡ row_of rows.now id.0 }
{
    match place_of(rows, id) {
        Some(at) => Some(&rows[at]),
        None => None,
    }
}

/// The row with a number that stands.
pub(crate) fn standing(rows: &[Row], id: ContainerId) -> &Row
    requires { IsSome (row_of rows.now id.0) }
    ensures { row_of rows.now id.0 ≡ Some result.now }
{
    match find(rows, id) {
        Some(row) => row,
        None => unreachable!(),
    }
}

/// Whether no further row has room.
pub(crate) fn is_full(rows: &[Row]) -> bool
    ensures { result ≡ (length rows.now == 32) }
{
    rows.len() == 32
}

/// Adds a row behind all others.
pub(crate) fn push(rows: &mut Vec<Row>, row: Row)
    requires { vec_len rows.old < vec_capacity rows.old }
    ensures items { rows.new.items ≡ rows.old.items ++ row ∷ [] }
    ensures capacity { vec_capacity rows.old ≤ vec_capacity rows.new }
{
    match rows.push(row) {
        Ok(()) => {}
        Err(_) => unreachable!(),
    }
}

/// Charges the container of a number that stands for so many chunks.
pub(crate) fn set_charge(rows: &mut Vec<Row>, id: ContainerId, charge: u64)
    requires { IsSome (row_of rows.old.items id.0) }
    ensures items { rows.new.items ≡ with_charge rows.old.items id.0 charge }
    ensures capacity { vec_capacity rows.new ≡ vec_capacity rows.old }
{
    match place_of(rows, id) {
        Some(at) => rows[at].set_charge(charge),
        None => unreachable!(),
    }
}
