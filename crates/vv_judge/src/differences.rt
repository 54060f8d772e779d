//! What a difference copy would copy.
ghost use Rattle.std.specs.Prelude.{◌≡◌, ◌+◌, ◌*◌, ◌<◌, ◌≤◌, ◌-◌, ◌^◌, length, take, drop, slice_index, nat_lt, IsTrue};
ghost use Rattle.vv_flat.specs.Chunks.{shape_of_tables};
ghost use Rattle.vv_flat.specs.Space.{allocating_pieces};
ghost use Rattle.vv_flat.specs.Changes.{stamps_of, size_of};
ghost use Rattle.vv_bitmap.specs.Stamps.{stamps_of as stamps_on};
ghost use Rattle.vv_judge.specs.Differences.{one_piece, one_allocating, copy_pieces, pieces_left};

use vv_entries::Entry;
use vv_tables::Tables;
use vv_units::VolumeId;

/// How many pieces a copy has, and how many of them allocate a chunk of the target.
#[derive(Clone, Copy)]
pub(crate) struct CopySize {
    pub pieces: u32,
    pub allocating: u32,
}

/// Counted with one chunk more, of a source, a base and a target.
fn with_one_more(counted: CopySize, stamp: u64, base: u64, target: u64) -> CopySize
    requires room { counted.pieces < 2 ^ 32 - 1 }
    requires fewer { counted.allocating ≤ counted.pieces }
    ensures pieces { result.pieces ≡ counted.pieces + one_piece stamp base }
    ensures allocating { result.allocating ≡ counted.allocating + one_allocating stamp base target }
{
    if stamp == base {
        return counted;
    }
    let allocates = stamp != 0 && target == 0;
    CopySize {
        pieces: counted.pieces + 1,
        allocating: if allocates {
            counted.allocating + 1
        } else {
            counted.allocating
        },
    }
}

/// Whether a volume has chunks from `64 * k` on.
fn has_page(tables: &Tables, id: VolumeId, k: u32) -> bool
    ensures { result ≡ nat_lt (64 * k) (size_of (shape_of_tables tables.now.durable) id.0) }
{
    64 * u64::from(k) < u64::from(tables.size(id))
}

/// The chunks of a volume from `64 * k` on: 64 of them, or as many as there are.
fn page_of(tables: &Tables, id: VolumeId, k: u32) -> &[Entry]
    ensures { stamps_on result.now ≡ take 64 (drop (64 * k) (stamps_of (shape_of_tables tables.now.durable) id.0)) }
{
    if has_page(tables, id, k) {
        tables.shelf().page(id, k)
    } else {
        &[]
    }
}

/// Whether a source and a base share their chunks from `64 * k` on, so that these are equal.
fn is_shared(tables: &Tables, source: VolumeId, base: VolumeId, k: u32) -> bool
    ensures { IsTrue result → take 64 (drop (64 * k) (stamps_of (shape_of_tables tables.now.durable) source.0)) ≡ take 64 (drop (64 * k) (stamps_of (shape_of_tables tables.now.durable) base.0)) }
{
    if !has_page(tables, source, k) || !has_page(tables, base, k) {
        return false;
    }
    tables.shelf().same_page(source, base, k)
}

/// The stamp at a place of a page: 0 past its end.
fn stamp_on(page: &[Entry], at: usize) -> u64
    ensures { result ≡ slice_index (stamps_on page.now) at }
{
    match page.get(at) {
        Some(entry) => entry.stamp,
        None => 0,
    }
}

/// Counted with the chunks of one page more, at which nobody looks where source and base share it.
fn with_page(
    tables: &Tables,
    source: VolumeId,
    base: VolumeId,
    target: VolumeId,
    k: u32,
    counted: CopySize,
) -> CopySize
    requires page { 64 * k < size_of (shape_of_tables tables.now.durable) source.0 }
    requires fewer { counted.allocating ≤ counted.pieces }
    requires few { counted.pieces ≤ 64 * k }
    ensures pieces { result.pieces + length (pieces_left (shape_of_tables tables.now.durable) source.0 base.0 (k + 1)) ≡ counted.pieces + length (pieces_left (shape_of_tables tables.now.durable) source.0 base.0 k) }
    ensures allocating { result.allocating + allocating_pieces (stamps_of (shape_of_tables tables.now.durable) target.0) (pieces_left (shape_of_tables tables.now.durable) source.0 base.0 (k + 1)) ≡ counted.allocating + allocating_pieces (stamps_of (shape_of_tables tables.now.durable) target.0) (pieces_left (shape_of_tables tables.now.durable) source.0 base.0 k) }
    ensures fewer { result.allocating ≤ result.pieces }
    ensures few { result.pieces ≤ 64 * (k + 1) }
{
    if is_shared(tables, source, base, k) {
        return counted;
    }
    let _chunks = tables.chunks_of(source);
    let page = page_of(tables, source, k);
    let base_page = page_of(tables, base, k);
    let target_page = page_of(tables, target, k);
    let mut more = counted;
    for i in 0..page.len() {
        let stamp = stamp_on(page, i);
        let base_stamp = stamp_on(base_page, i);
        let target_stamp = stamp_on(target_page, i);
        more = with_one_more(more, stamp, base_stamp, target_stamp);
    }
    more
}

/// The chunks of a source that differ from those of a base, and those of them that a target has unmapped. Pages that
/// source and base share are passed over.
pub(crate) fn differences(
    tables: &Tables,
    source: VolumeId,
    base: VolumeId,
    target: VolumeId,
) -> CopySize
    ensures pieces { result.pieces ≡ length (copy_pieces (shape_of_tables tables.now.durable) source.0 base.0) }
    ensures allocating { result.allocating ≡ allocating_pieces (stamps_of (shape_of_tables tables.now.durable) target.0) (copy_pieces (shape_of_tables tables.now.durable) source.0 base.0) }
{
    let mut counted = CopySize {
        pieces: 0,
        allocating: 0,
    };
    for k in 0..tables.size(source).div_ceil(64) {
        counted = with_page(tables, source, base, target, k, counted);
    }
    counted
}
