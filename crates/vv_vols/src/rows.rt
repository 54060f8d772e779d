//! Places in the rows of volumes.
ghost use Rattle.std.specs.Prelude.{true, false, ◌≤◌, ◌≡◌, ◌==◌, ◌+◌, ◌-◌, ◌^◌, ◌<◌, if◌then◌else◌, length, IsSome, Some, option_map, slice_get, slice_index_or, vec_len, vec_capacity};
ghost use Rattle.vv_flat.specs.Lists.{put_before};
ghost use Rattle.std.specs.List.{position, position_or_len, find, remove};
ghost use Rattle.vv_vols.specs.Rows.{is_row, is_row_above, pages_touched};

use crate::row::VolumeRow;
use vv_entries::Entry;
use vv_units::VolumeId;

/// The place of a volume.
pub(crate) fn find_place(rows: &[VolumeRow], id: VolumeId) -> Option<usize>
    ensures { result ≡ position (is_row id.0) rows.now }
{
    rows.iter().position(|row| row.id.0 == id.0)
}

/// The place of a volume that stands.
pub(crate) fn place_of(rows: &[VolumeRow], id: VolumeId) -> usize
    requires { IsSome (find (is_row id.0) rows.now) }
    ensures { position (is_row id.0) rows.now ≡ Some result }
{
    match find_place(rows, id) {
        Some(at) => at,
        None => unreachable!(),
    }
}

/// One allocated entry more, where the one before wasn't.
pub(crate) fn counted(allocated: u32, before: Entry) -> u32
    requires { allocated < 2 ^ 32 - 1 }
    ensures { result ≡ (if before.stamp == 0 then allocated + 1 else allocated) }
{
    if before.stamp == 0 {
        allocated + 1
    } else {
        allocated
    }
}

/// One allocated entry less, where the one before was.
pub(crate) fn uncounted(allocated: u32, before: Entry) -> u32
    requires { (before.stamp == 0) ≡ false → 1 ≤ allocated }
    ensures { result ≡ (if before.stamp == 0 then allocated else allocated - 1) }
{
    if before.stamp == 0 {
        allocated
    } else {
        allocated - 1
    }
}

/// The allocated entries where one replaced another.
pub(crate) fn recounted(allocated: u32, before: Entry, entry: Entry) -> u32
    requires few { allocated < 2 ^ 32 - 1 }
    requires some { (before.stamp == 0) ≡ false → 1 ≤ allocated }
    ensures none { (entry.stamp == 0) ≡ true → result ≡ (if before.stamp == 0 then allocated else allocated - 1) }
    ensures one { (entry.stamp == 0) ≡ false → result ≡ (if before.stamp == 0 then allocated + 1 else allocated) }
{
    if entry.stamp == 0 {
        uncounted(allocated, before)
    } else {
        counted(allocated, before)
    }
}

/// The number of a volume by its place.
pub(crate) fn id_of(rows: &[VolumeRow], at: usize) -> Option<VolumeId>
    ensures { option_map (λ id. id.0) result ≡ option_map (λ (row : VolumeRow). row.id.0) (slice_get rows.now at) }
{
    let row = rows.get(at)?;
    Some(row.id)
}

/// How many pages a range of entries touches.
pub(crate) fn pages_of_range(first: u32, count: u32) -> u32
    requires { first + count < 2 ^ 32 }
    ensures { result ≡ pages_touched first count }
{
    if count == 0 {
        0
    } else {
        (first + count - 1) / 64 + 1 - first / 64
    }
}

/// The place of the first row whose number is above.
fn place_above(rows: &[VolumeRow], id: VolumeId) -> Option<usize>
    ensures { result ≡ position (is_row_above id.0) rows.now }
{
    rows.iter().position(|row| id.0 < row.id.0)
}

/// The place where a row of this number comes in the order.
fn place_in_order(rows: &[VolumeRow], id: VolumeId) -> usize
    ensures at { result ≡ position_or_len (is_row_above id.0) rows.now }
    ensures within { result ≤ length rows.now }
{
    place_above(rows, id).unwrap_or(rows.len())
}

/// Adds a row at its place in the order.
pub(crate) fn put_row(rows: &mut Vec<VolumeRow>, row: VolumeRow)
    requires { vec_len rows.old < vec_capacity rows.old }
    ensures items { rows.new.items ≡ put_before (is_row_above row.id.0) row rows.old.items }
    ensures capacity { vec_capacity rows.old ≤ vec_capacity rows.new }
{
    let at = place_in_order(rows, row.id);
    match rows.insert(at, row) {
        Ok(()) => {}
        Err(_) => unreachable!(),
    }
}

/// Takes a row out.
pub(crate) fn take_row(rows: &mut Vec<VolumeRow>, at: usize) -> VolumeRow
    requires { at < vec_len rows.old }
    ensures value { result ≡ slice_index_or rows.old.items at result }
    ensures items { rows.new.items ≡ remove rows.old.items at }
    ensures capacity { vec_capacity rows.new ≡ vec_capacity rows.old }
{
    rows.remove(at)
}
