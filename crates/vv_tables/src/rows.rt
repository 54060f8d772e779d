//! The rows of running tasks: what a clone or a copy holds.
ghost use Rattle.std.specs.Prelude.{◌≡◌, ◌<◌, ◌≤◌, ◌++◌, ◌∷◌, [], IsSome, Some, vec_len, vec_capacity};
ghost use Rattle.std.specs.List.{find, position};
ghost use Rattle.std.specs.Option.{option_copied};
ghost use Rattle.vv_flat.specs.Lists.{first_removed};
ghost use Rattle.vv_tables.specs.Rows.{is_clone_row, is_copy_row};
ghost use Rattle.vv_tables.specs.Kept.{lists_of, HoldsEach};

use vv_units::TaskId;
use vv_vols::{Head, Held, Shelf};

/// A running clone: the head that its volume will have, and the lists of its image and its target.
pub(crate) struct CloneRow {
    pub(crate) id: TaskId,
    pub(crate) head: Head,
    pub(crate) image: Held,
    pub(crate) target: Held,
}

/// A running copy: the list of its pieces.
pub(crate) struct CopyRow {
    pub(crate) id: TaskId,
    pub(crate) pieces: Held,
}

/// The place of a running clone.
pub(crate) fn clone_place(rows: &[CloneRow], id: TaskId) -> Option<usize>
    ensures { result ≡ position (is_clone_row id.0) rows.now }
{
    rows.iter().position(|row| row.id.0 == id.0)
}

/// The place of a running copy.
pub(crate) fn copy_place(rows: &[CopyRow], id: TaskId) -> Option<usize>
    ensures { result ≡ position (is_copy_row id.0) rows.now }
{
    rows.iter().position(|row| row.id.0 == id.0)
}

/// The running clone of a task.
pub(crate) fn find_clone(rows: &[CloneRow], id: TaskId) -> Option<&CloneRow>
    ensures { option_copied result ≡ find (is_clone_row id.0) rows.now }
{
    match clone_place(rows, id) {
        Some(at) => Some(&rows[at]),
        None => None,
    }
}

/// Adds a running clone behind all others.
pub(crate) fn push_clone(rows: &mut Vec<CloneRow>, row: CloneRow)
    requires { vec_len rows.old < vec_capacity rows.old }
    ensures items { rows.new.items ≡ rows.old.items ++ row ∷ [] }
    ensures capacity { vec_capacity rows.old ≤ vec_capacity rows.new }
{
    match rows.push(row) {
        Ok(()) => {}
        Err(_) => unreachable!(),
    }
}

/// Adds a running copy behind all others.
pub(crate) fn push_copy(rows: &mut Vec<CopyRow>, row: CopyRow)
    requires { vec_len rows.old < vec_capacity rows.old }
    ensures items { rows.new.items ≡ rows.old.items ++ row ∷ [] }
    ensures capacity { vec_capacity rows.old ≤ vec_capacity rows.new }
{
    match rows.push(row) {
        Ok(()) => {}
        Err(_) => unreachable!(),
    }
}

/// Takes out the running clone of a task.
pub(crate) fn take_clone(rows: &mut Vec<CloneRow>, id: TaskId) -> CloneRow
    requires { IsSome (find (is_clone_row id.0) rows.old.items) }
    ensures row { find (is_clone_row id.0) rows.old.items ≡ Some result }
    ensures items { rows.new.items ≡ first_removed (is_clone_row id.0) rows.old.items }
    ensures capacity { vec_capacity rows.new ≡ vec_capacity rows.old }
{
    match clone_place(rows, id) {
        Some(at) => rows.remove(at),
        None => unreachable!(),
    }
}

/// Takes out the running copy of a task.
pub(crate) fn take_copy(rows: &mut Vec<CopyRow>, id: TaskId) -> CopyRow
    requires { IsSome (find (is_copy_row id.0) rows.old.items) }
    ensures row { find (is_copy_row id.0) rows.old.items ≡ Some result }
    ensures items { rows.new.items ≡ first_removed (is_copy_row id.0) rows.old.items }
    ensures capacity { vec_capacity rows.new ≡ vec_capacity rows.old }
{
    match copy_place(rows, id) {
        Some(at) => rows.remove(at),
        None => unreachable!(),
    }
}

/// Ends all running clones, with the lists that they hold.
pub(crate) fn end_clones(shelf: &mut Shelf, clones: Vec<CloneRow>, copies: &[CopyRow])
    requires { HoldsEach shelf.old.shelf (lists_of clones.items copies.now) }
    ensures { HoldsEach shelf.new.shelf (lists_of [] copies.now) }
{
    let mut clones = clones;
    while let Some(row) = clones.pop() {
        let CloneRow {
            id: _,
            head: _,
            image,
            target,
        } = row;
        shelf.drop_image(image);
        shelf.drop_image(target);
    }
    clones.destroy_empty();
}

/// Ends all running copies, with the lists that they hold.
pub(crate) fn end_copies(shelf: &mut Shelf, copies: Vec<CopyRow>)
    requires { HoldsEach shelf.old.shelf (lists_of [] copies.items) }
{
    let mut copies = copies;
    while let Some(row) = copies.pop() {
        let CopyRow { id: _, pieces } = row;
        shelf.drop_image(pieces);
    }
    copies.destroy_empty();
}
