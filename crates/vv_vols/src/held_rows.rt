//! Places in the rows of held lists.
ghost use Rattle.std.specs.Prelude.{[], true, ◌∷◌, ◌++◌, ◌+◌, ◌/◌, ◌%◌, ◌^◌, ◌≤◌, ◌≡◌, ◌<◌, length, slice_index, IsSome, Some, slice_index_or, vec_len, vec_capacity};
ghost use Rattle.std.specs.List.{position, position_or_len, find};
ghost use Rattle.vv_flat.specs.Lists.{put_before, first_removed};
ghost use Rattle.vv_map.specs.Pages.{count_at, list_of, unused_pages, IsMapOf};
ghost use Rattle.vv_entries.specs.Entries.{unmapped};
ghost use Rattle.vv_entries.specs.Changes.{Exchanges, TakesUnused};
ghost use Rattle.vv_vols.specs.declared.row.HeldIndexes.TheVariants.{FromZero};
ghost use Rattle.vv_vols.specs.Shelf.{first_gap};
ghost use Rattle.vv_vols.specs.Rows.{is_held_row, is_held_above, held_numbers, held_indexes, further, HasRoom};

use crate::held::Held;
use crate::row::{HeldIndexes, HeldRow, VolumeRow};
use vv_entries::{Entry, EntryStore};
use vv_map::PagedMap;

/// The place of a held list.
fn find_held(rows: &[HeldRow], number: u64) -> Option<usize>
    ensures { result ≡ position (is_held_row number) rows.now }
{
    rows.iter().position(|row| row.number == number)
}

/// The place of a held list that stands.
pub(crate) fn held_place(rows: &[HeldRow], held: &Held) -> usize
    requires { IsSome (find (is_held_row held.now.number) rows.now) }
    ensures { position (is_held_row held.now.number) rows.now ≡ Some result }
{
    match find_held(rows, held.number()) {
        Some(at) => at,
        None => unreachable!(),
    }
}

/// The least number that no row has, where the rows stand in rising order.
fn next_number(rows: &[HeldRow]) -> u64
    ensures { result ≡ first_gap 0 (held_numbers rows.now) }
{
    let mut number = 0u64;
    for row in rows {
        if row.number != number {
            return number;
        }
        number += 1;
    }
    number
}

/// The place of the first row whose number is above.
fn held_above(rows: &[HeldRow], number: u64) -> Option<usize>
    ensures { result ≡ position (is_held_above number) rows.now }
{
    rows.iter().position(|row| number < row.number)
}

/// The place where a row of this number comes in the order.
fn held_in_order(rows: &[HeldRow], number: u64) -> usize
    ensures at { result ≡ position_or_len (is_held_above number) rows.now }
    ensures within { result ≤ length rows.now }
{
    held_above(rows, number).unwrap_or(rows.len())
}

/// Adds a row at its place in the order.
fn put_held_row(rows: &mut Vec<HeldRow>, row: HeldRow)
    requires { vec_len rows.old < vec_capacity rows.old }
    ensures items { rows.new.items ≡ put_before (is_held_above row.number) row rows.old.items }
    ensures capacity { vec_capacity rows.old ≤ vec_capacity rows.new }
{
    let at = held_in_order(rows, row.number);
    match rows.insert(at, row) {
        Ok(()) => {}
        Err(_) => unreachable!(),
    }
}

/// Adds a row with the first number that no other has.
pub(crate) fn add_held(
    rows: &mut Vec<HeldRow>,
    map: PagedMap<Entry>,
    indexes: HeldIndexes,
    is_image: bool,
    allocated: u32,
) -> u64
    requires { vec_len rows.old < vec_capacity rows.old }
    ensures number { result ≡ first_gap 0 (held_numbers rows.old.items) }
    ensures items { rows.new.items ≡ put_before (is_held_above result)
        (record { number = result; map = map; indexes = indexes; is_image = is_image; allocated = allocated }) rows.old.items }
    ensures capacity { vec_capacity rows.old ≤ vec_capacity rows.new }
{
    let number = next_number(rows);
    let row = HeldRow {
        number,
        map,
        indexes,
        is_image,
        allocated,
    };
    put_held_row(rows, row);
    number
}

/// Appends an unmapped entry to the list of a row that has memory for it.
pub(crate) fn append_entry(entries: &mut EntryStore, row: &mut HeldRow, index: u32)
    requires of { IsMapOf entries.old.store row.old.map }
    requires few { row.old.map.len + 1 < 2 ^ 32 }
    requires left { 1 ≤ further row.old.indexes }
    requires indexed { length (held_indexes row.old.indexes row.old.map.len) ≡ row.old.map.len }
    requires room { HasRoom row.old.indexes row.old.map }
    requires alone { 0 < row.old.map.len % 64 → count_at entries.old.store (slice_index row.old.map.numbers (row.old.map.len / 64)) ≡ 1 }
    requires unused { 1 ≤ unused_pages entries.old.store }
    ensures list { list_of entries.new.store row.new.map ≡ list_of entries.old.store row.old.map ++ unmapped ∷ [] }
    ensures len { row.new.map.len ≡ row.old.map.len + 1 }
    ensures of { IsMapOf entries.new.store row.new.map }
    ensures others { Exchanges entries.old.store entries.new.store row.old.map.numbers row.new.map.numbers }
    ensures taken { TakesUnused entries.old.store row.old.map.numbers row.new.map.numbers }
    ensures pool { entries.new.pool ≡ entries.old.pool }
    ensures number { row.new.number ≡ row.old.number }
    ensures image { row.new.is_image ≡ row.old.is_image }
    ensures allocated { row.new.allocated ≡ row.old.allocated }
    ensures indexes { held_indexes row.new.indexes row.new.map.len ≡ held_indexes row.old.indexes row.old.map.len ++ index ∷ [] }
    ensures left { further row.new.indexes + 1 ≡ further row.old.indexes }
    ensures room { HasRoom row.new.indexes row.new.map }
{
    match &mut row.indexes {
        HeldIndexes::FromZero => unreachable!(),
        HeldIndexes::Listed(listed) => {
            entries.append_unmapped(&mut row.map, &mut listed.room);
            listed.indexes.push_reserved(index);
        }
    }
}

/// Gives a volume the list of a held row, which holds the volume's list as an image from now on.
pub(crate) fn swap_lists(volume: &mut VolumeRow, row: &mut HeldRow)
    ensures volume { volume.new ≡ record volume.old { map = row.old.map; allocated = row.old.allocated } }
    ensures row { row.new ≡ record { number = row.old.number; map = volume.old.map; indexes = FromZero; is_image = true; allocated = volume.old.allocated } }
{
    std::mem::swap(&mut volume.map, &mut row.map);
    std::mem::swap(&mut volume.allocated, &mut row.allocated);
    row.indexes = HeldIndexes::FromZero;
    row.is_image = true;
}

/// Takes the row of a held list out.
pub(crate) fn take_held(rows: &mut Vec<HeldRow>, held: Held) -> HeldRow
    requires { IsSome (find (is_held_row held.number) rows.old.items) }
    ensures value { result ≡ slice_index_or rows.old.items (position_or_len (is_held_row held.number) rows.old.items) result }
    ensures items { rows.new.items ≡ first_removed (is_held_row held.number) rows.old.items }
    ensures capacity { vec_capacity rows.new ≡ vec_capacity rows.old }
{
    let at = held_place(rows, &held);
    held.spend();
    rows.remove(at)
}
