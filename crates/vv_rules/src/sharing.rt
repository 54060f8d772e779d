//! What is told of all entries: how many chunks of the pool are used, and which entries don't agree with all others.
ghost use Rattle.std.specs.Prelude.{◌≡◌, ◌==◌, not, map, filter, length, IfOk};
ghost use Rattle.std.specs.List.{filter_map};
ghost use Rattle.vv_flat.specs.Space.{distinct};
ghost use Rattle.vv_flat.specs.Sharing.{Standing};
ghost use Rattle.vv_rules.specs.Pairs.{pair_of, shape_of_standing, is_allocated};
ghost use Rattle.vv_rules.specs.Rows.{row_of};
ghost use Rattle.vv_rules.specs.Least.{least_apart};

use crate::pairs::{Pair, distinct_count};
use crate::rows::{Row, least_mixed};
use crate::standing::StandingEntry;
use std::alloc::{AllocError, Global};

/// How many chunks of the pool are used: one for each index and stamp, where the stamp is not 0.
pub fn used_count(alloc: Global, standings: &[StandingEntry]) -> Result<usize, AllocError>
    ensures { IfOk result (λ count. count ≡ length (distinct (filter is_allocated (map shape_of_standing standings.now)))) }
{
    distinct_count(allocated_pairs(alloc, standings)?)
}

fn allocated_pairs(alloc: Global, standings: &[StandingEntry]) -> Result<Vec<Pair>, AllocError>
    ensures { IfOk result (λ pairs. pairs.items ≡ map pair_of (filter (λ (a : Standing). not (a.piece.chunk.stamp == 0)) standings.now)) }
{
    standings
        .iter()
        .filter(|entry| entry.is_allocated())
        .map(|entry| entry.pair())
        .collect(alloc)
}

/// The least place of the entries that don't agree with all: of two with a place, which is the same exactly where index
/// and stamp are.
pub fn least_apart(alloc: Global, standings: &[StandingEntry]) -> Result<Option<u32>, AllocError>
    ensures { IfOk result (λ found. found ≡ least_apart standings.now) }
{
    least_mixed(rows_of(alloc, standings)?)
}

fn rows_of(alloc: Global, standings: &[StandingEntry]) -> Result<Vec<Row>, AllocError>
    ensures { IfOk result (λ rows. rows.items ≡ filter_map row_of standings.now) }
{
    standings
        .iter()
        .filter_map(|entry| entry.row())
        .collect(alloc)
}
