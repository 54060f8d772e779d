//! Writes and UNMAP.
ghost use Rattle.std.specs.Prelude.{◌≡◌, ◌+◌, ◌-◌, ◌*◌, ◌<◌, ◌≤◌, ◌^◌, ◌==◌, ◌||◌, ◌&&◌, not, nat_lt, nat_le, length, None, [], ℕ, min, slice_index, if◌then◌else◌};
ghost use Rattle.std.specs.List.{list_any};
ghost use Rattle.vv_units.specs.Sizes.{first_touched, touched_count};
ghost use Rattle.vv_flat.specs.Lists.{numbers_from};
ghost use Rattle.vv_flat.specs.State.{Durable};
ghost use Rattle.vv_flat.specs.Chunks.{shape_of_tables, volume_blocks, unmaps_any, touched_indexes};
ghost use Rattle.vv_flat.specs.Changes.{Write, Unmap, state_checks, changes_nothing, room_checks, stamps_of, size_of, unmapped_count};
ghost use Rattle.vv_judge.specs.Seen.{seen_check, refused_by};
ghost use Rattle.vv_judge.specs.Blocks.{range_pairs, is_past, unmaps_some};

use crate::answer::{Refusal, first_refusal, refuse_if};
use crate::checks::{busy, exhausted, missing_volume, over_quota, pool_full};
use crate::stamps::stamp_at;
use vv_record::ChunkRange;
use vv_tables::Tables;
use vv_units::{Field, VolumeId, touched};

/// The blocks of a volume.
fn volume_blocks(tables: &Tables, id: VolumeId) -> u64
    ensures { result ≡ volume_blocks tables.now.durable.geometry.chunk_blocks (stamps_of (shape_of_tables tables.now.durable) id.0) }
{
    u64::from(tables.chunks_of(id)) * u64::from(tables.geometry().chunk_blocks)
}

/// Whether blocks are not all inside so many, or begin behind them.
fn are_past(first: u64, blocks: u32, size: u64) -> bool
    ensures { result ≡ (nat_le size first || nat_lt size (first + blocks)) }
{
    size <= first || size - first < u64::from(blocks)
}

/// What is wrong with a write, or with its volume.
#[tactic(auto, unfolding(vv_flat::specs::Changes::state_checks))]
pub(crate) fn write_state(
    tables: &Tables,
    id: VolumeId,
    first_block: u64,
    blocks: u32,
) -> Option<Refusal>
    ensures { seen_check result ≡ refused_by (state_checks (shape_of_tables tables.now.durable) (Write id.0 first_block blocks)) }
{
    let size = volume_blocks(tables, id);
    let is_snapshot = tables.is_snapshot(id);
    first_refusal(&[
        missing_volume(tables, id, Field::Vvol),
        refuse_if(are_past(first_block, blocks, size), Refusal::OutOfRange),
        refuse_if(is_snapshot, Refusal::WriteProtected),
        busy(tables, id),
    ])
}

/// Whether a write has no block.
#[tactic(auto, unfolding(vv_flat::specs::Changes::changes_nothing))]
pub(crate) fn write_nothing(blocks: u32) -> bool
    ensures { (d : Durable ℕ) → (volume first : ℕ) → result ≡ changes_nothing d (Write volume first blocks) }
{
    blocks == 0
}

/// 1 where a chunk is unmapped.
fn one_unmapped(tables: &Tables, id: VolumeId, index: u32) -> u32
    ensures { result ≡ (if slice_index (stamps_of (shape_of_tables tables.now.durable) id.0) index == 0 then 1 else 0) }
{
    if stamp_at(tables, id, index) == 0 {
        1
    } else {
        0
    }
}

/// How many of so many chunks from an index on are unmapped.
fn unmapped_count(tables: &Tables, id: VolumeId, first: u32, count: u32) -> u32
    requires { first + count < 2 ^ 32 }
    ensures { result ≡ unmapped_count (stamps_of (shape_of_tables tables.now.durable) id.0) (numbers_from first count) }
{
    let mut unmapped = 0;
    for index in first..first + count {
        unmapped += one_unmapped(tables, id, index);
    }
    unmapped
}

/// The chunks that a write inside a volume touches: the first, and how many they are.
fn touched_by(tables: &Tables, id: VolumeId, first_block: u64, blocks: u32) -> (u32, u32)
    requires some { 1 ≤ blocks }
    requires within { first_block + blocks ≤ volume_blocks tables.now.durable.geometry.chunk_blocks (stamps_of (shape_of_tables tables.now.durable) id.0) }
    ensures first { result.0 ≡ first_touched first_block tables.now.durable.geometry.chunk_blocks }
    ensures count { result.1 ≡ touched_count first_block blocks tables.now.durable.geometry.chunk_blocks }
    ensures few { result.0 + result.1 < 2 ^ 32 }
{
    let _chunks = tables.chunks_of(id);
    touched(first_block, blocks, tables.geometry().chunk_blocks)
}

/// How many chunks a write inside a volume touches.
pub fn touched_chunks(tables: &Tables, id: VolumeId, first_block: u64, blocks: u32) -> u32
    requires some { 1 ≤ blocks }
    requires within { first_block + blocks ≤ volume_blocks tables.now.durable.geometry.chunk_blocks (stamps_of (shape_of_tables tables.now.durable) id.0) }
    ensures { result ≡ length (touched_indexes tables.now.durable.geometry.chunk_blocks first_block blocks) }
{
    let (_, count) = touched_by(tables, id, first_block, blocks);
    count
}

/// How many chunks that a write inside a volume touches are unmapped.
fn touched_unmapped(tables: &Tables, id: VolumeId, first_block: u64, blocks: u32) -> u32
    requires some { 1 ≤ blocks }
    requires within { first_block + blocks ≤ volume_blocks tables.now.durable.geometry.chunk_blocks (stamps_of (shape_of_tables tables.now.durable) id.0) }
    ensures { result ≡ unmapped_count (stamps_of (shape_of_tables tables.now.durable) id.0) (touched_indexes tables.now.durable.geometry.chunk_blocks first_block blocks) }
{
    let (first, count) = touched_by(tables, id, first_block, blocks);
    unmapped_count(tables, id, first, count)
}

/// The limits that may be in the way of a write.
#[tactic(auto, unfolding(vv_flat::specs::Changes::room_checks))]
pub(crate) fn write_room(
    tables: &Tables,
    id: VolumeId,
    first_block: u64,
    blocks: u32,
) -> Option<Refusal>
    requires some { 1 ≤ blocks }
    requires within { first_block + blocks ≤ volume_blocks tables.now.durable.geometry.chunk_blocks (stamps_of (shape_of_tables tables.now.durable) id.0) }
    ensures { seen_check result ≡ refused_by (room_checks None (shape_of_tables tables.now.durable) (Write id.0 first_block blocks)) }
{
    let touched = touched_chunks(tables, id, first_block, blocks);
    let unmapped = touched_unmapped(tables, id, first_block, blocks);
    first_refusal(&[
        exhausted(tables),
        over_quota(tables, tables.home_of(id), unmapped),
        pool_full(tables, touched),
    ])
}

/// Whether a range is not inside so many chunks.
fn is_past(range: &ChunkRange, size: u32) -> bool
    ensures { result ≡ is_past size range.now }
{
    u64::from(range.first_chunk) + u64::from(range.chunks) > u64::from(size)
}

/// Whether some range is not inside so many chunks.
fn is_any_past(ranges: &[ChunkRange], size: u32) -> bool
    ensures { result ≡ list_any (is_past size) ranges.now }
{
    ranges.iter().any(|range| is_past(range, size))
}

/// Whether some range is not inside so many chunks, the ranges being pairs.
fn ranges_are_past(ranges: &[ChunkRange], size: u32) -> bool
    ensures { result ≡ list_any (λ (r : ℕ × ℕ). nat_lt size (r.0 + r.1)) (range_pairs ranges.now) }
{
    is_any_past(ranges, size)
}

/// What is wrong with an UNMAP, or with its volume.
#[tactic(auto, unfolding(vv_flat::specs::Changes::state_checks))]
pub(crate) fn unmap_state(tables: &Tables, id: VolumeId, ranges: &[ChunkRange]) -> Option<Refusal>
    ensures { seen_check result ≡ refused_by (state_checks (shape_of_tables tables.now.durable) (Unmap id.0 (range_pairs ranges.now))) }
{
    let is_past = ranges_are_past(ranges, tables.size(id));
    let is_snapshot = tables.is_snapshot(id);
    first_refusal(&[
        missing_volume(tables, id, Field::Vvol),
        refuse_if(is_past, Refusal::OutOfRange),
        refuse_if(is_snapshot, Refusal::WriteProtected),
        busy(tables, id),
    ])
}

/// The place behind a range, or behind the last chunk where it ends later.
fn end_of(range: &ChunkRange, size: u32) -> u32
    ensures { result ≡ min (range.now.first_chunk + range.now.chunks) size }
{
    let end = u64::from(range.first_chunk) + u64::from(range.chunks);
    if end < u64::from(size) {
        end as u32
    } else {
        size
    }
}

/// Whether a chunk of a range is allocated.
fn unmaps_some(tables: &Tables, id: VolumeId, range: &ChunkRange) -> bool
    ensures { result ≡ unmaps_some (stamps_of (shape_of_tables tables.now.durable) id.0) range.now }
{
    let end = end_of(range, tables.size(id));
    let mut index = range.first_chunk;
    while index < end {
        if stamp_at(tables, id, index) != 0 {
            return true;
        }
        index += 1;
    }
    false
}

/// Whether some range has an allocated chunk.
fn unmaps_any(tables: &Tables, id: VolumeId, ranges: &[ChunkRange]) -> bool
    ensures { result ≡ list_any (unmaps_some (stamps_of (shape_of_tables tables.now.durable) id.0)) ranges.now }
{
    ranges.iter().any(|range| unmaps_some(tables, id, range))
}

/// Whether an UNMAP would unmap a chunk.
fn would_unmap(tables: &Tables, id: VolumeId, ranges: &[ChunkRange]) -> bool
    ensures { result ≡ unmaps_any (range_pairs ranges.now) (stamps_of (shape_of_tables tables.now.durable) id.0) }
{
    unmaps_any(tables, id, ranges)
}

/// Whether an UNMAP would unmap no chunk.
#[tactic(auto, unfolding(vv_flat::specs::Changes::changes_nothing))]
pub(crate) fn unmap_nothing(tables: &Tables, id: VolumeId, ranges: &[ChunkRange]) -> bool
    ensures { result ≡ changes_nothing (shape_of_tables tables.now.durable) (Unmap id.0 (range_pairs ranges.now)) }
{
    !would_unmap(tables, id, ranges)
}
