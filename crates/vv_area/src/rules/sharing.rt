//! Rule 6: places of the pool are shared rightly.
ghost use Rattle.std.specs.Prelude.{◌≡◌, ◌==◌, ◌&&◌, ◌||◌, false, not, nat_le, IfOk};
ghost use Rattle.std.specs.List.{list_all};
ghost use Rattle.vv_flat.specs.Lists.{if_found};
ghost use Rattle.vv_flat.specs.State.{RunningClone};
ghost use Rattle.vv_flat.specs.Chunks.{Entry};
ghost use Rattle.vv_flat.specs.Sharing.{standings, is_placed, is_own_stamp};
ghost use Rattle.vv_rules.specs.Least.{least_failing, place_of};
ghost use Rattle.vv_area.specs.Area.{tables_of};
ghost use Rattle.vv_area.specs.Ruled.{is_right_alone, broken_place, least_fault};

use super::items::all_hold;
use crate::rows::RawClone;
use crate::tables::RawTables;
use std::alloc::{AllocError, Global};
use vv_rules::{StandingEntry, least_apart, sooner};

/// The least place of the entries that break the rule, if there is one. These are all entries of the tables.
pub(super) fn sharing_fault(
    alloc: Global,
    tables: &RawTables,
    entries: &[StandingEntry],
) -> Result<Option<u32>, AllocError>
    requires { entries.now ≡ standings (tables_of tables.now) }
    ensures { IfOk result (λ found. found ≡ least_fault (tables_of tables.now)) }
{
    let apart = least_apart(alloc, entries)?;
    let alone = least_alone(tables, entries);
    Ok(sooner(alone, apart))
}

/// The least place of the entries that break the rule by themselves.
fn least_alone(tables: &RawTables, entries: &[StandingEntry]) -> Option<u32>
    ensures { result ≡ least_failing (is_right_alone (tables_of tables.now)) place_of entries.now }
{
    let mut least = None;
    for entry in entries {
        least = sooner(least, broken_place(tables, entry));
    }
    least
}

fn broken_place(tables: &RawTables, entry: &StandingEntry) -> Option<u32>
    ensures { result ≡ broken_place (tables_of tables.now) entry.now }
{
    if is_right_alone(tables, entry) {
        None
    } else {
        Some(place_of(entry))
    }
}

/// The place of an entry. One without a place counts by the last number.
fn place_of(entry: &StandingEntry) -> u32
    ensures { result ≡ place_of entry.now }
{
    match entry.place {
        Some(place) => place,
        None => u32::MAX,
    }
}

fn is_right_alone(tables: &RawTables, entry: &StandingEntry) -> bool
    ensures { result ≡ is_right_alone (tables_of tables.now) entry.now }
{
    is_placed(tables.geometry.pool_chunks, entry)
        && entry.stamp <= tables.lsn
        && is_own_stamp(tables.clones.items(), entry)
}

/// Whether an entry has a place exactly where its stamp is not 0, and one of the pool.
fn is_placed(pool_chunks: u32, entry: &StandingEntry) -> bool
    ensures { result ≡ is_placed pool_chunks entry.now.piece.chunk }
{
    match entry.place {
        Some(place) => entry.stamp != 0 && place < pool_chunks,
        None => entry.stamp == 0,
    }
}

/// Whether a stamp is the number of no running clone, or of the one in whose target the entry stands.
fn is_own_stamp(clones: &[RawClone], entry: &StandingEntry) -> bool
    ensures { result ≡ is_own_stamp clones.now entry.now }
{
    clones.iter().all(|clone| is_stamp_beside(clone, entry))
}

fn is_stamp_beside(clone: &RawClone, entry: &StandingEntry) -> bool
    ensures { result ≡ (not (entry.now.piece.chunk.stamp == clone.now.number) || if_found entry.now.target_of (λ n. n == clone.now.number) false) }
{
    entry.stamp != clone.number.0 || is_in_target(clone, entry)
}

fn is_in_target(clone: &RawClone, entry: &StandingEntry) -> bool
    ensures { result ≡ if_found entry.now.target_of (λ n. n == clone.now.number) false }
{
    match entry.target_of {
        Some(number) => number == clone.number.0,
        None => false,
    }
}
