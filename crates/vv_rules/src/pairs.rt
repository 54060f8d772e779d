//! Pairs of numbers, counted without those that come again.
ghost use Rattle.std.specs.Prelude.{◌≡◌, map, length, IfOk};
ghost use Rattle.vv_flat.specs.Space.{distinct};
ghost use Rattle.vv_rules.specs.Pairs.{piece_of, are_single};

use std::alloc::AllocError;

/// Two numbers: the index and the stamp of a chunk, or a host and a volume.
#[derive(Clone, Copy, Debug, PartialEq, Eq, PartialOrd, Ord)]
pub struct Pair {
    pub first: u64,
    pub second: u64,
}

/// How many pairs there are, those that are the same counted once.
pub fn distinct_count(pairs: Vec<Pair>) -> Result<usize, AllocError>
    ensures { IfOk result (λ count. count ≡ length (distinct (map piece_of pairs.items))) }
{
    let mut sorted = pairs;
    sorted.sort()?;
    sorted.dedup();
    Ok(sorted.len())
}

/// Whether no pair comes twice.
pub fn pairs_differ(pairs: Vec<Pair>) -> Result<bool, AllocError>
    ensures { IfOk result (λ differ. differ ≡ are_single pairs.items) }
{
    let count = pairs.len();
    let distinct = distinct_count(pairs)?;
    Ok(distinct == count)
}
