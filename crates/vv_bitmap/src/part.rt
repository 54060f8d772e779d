//! The bits of a part of a page.
ghost use Rattle.std.specs.Prelude.{ℕ, ◌≡◌, ◌==◌, not, ◌+◌, ◌*◌, ◌^◌, ◌<◌, ◌≤◌, ◌++◌, false, length, take, drop, replicate, slice_index, IsSome, IfSome, IsTrue, count_by};
ghost use Rattle.vv_flat.specs.Bits.{unshared_bits, unshared_count};
ghost use Rattle.vv_vols.specs.Shelf.{volume_in, size_in};
ghost use Rattle.vv_bitmap.specs.Stamps.{stamps_in, base_stamps, stamps_of, bits_in, page_bits};

use vv_entries::Entry;
use vv_units::VolumeId;
use vv_vols::Shelf;

/// So many chunks of a page from a place on.
#[derive(Clone, Copy)]
pub(crate) struct Part {
    pub page: u32,
    pub from: usize,
    pub count: usize,
}

impl Part {
    /// The chunks from an index on that are in one page, `most` at most.
    pub(crate) fn at(index: usize, most: usize) -> Part
        requires few { index < 2 ^ 38 }
        requires some { 1 ≤ most }
        ensures place { 64 * result.page + result.from ≡ index }
        ensures some { 1 ≤ result.count }
        ensures most { result.count ≤ most }
        ensures page { result.from + result.count ≤ 64 }
    {
        let from = index % 64;
        Part {
            page: (index / 64) as u32,
            from,
            count: (64 - from).min(most),
        }
    }
}

/// The stamp at a place of a page, or 0 past its end.
fn stamp_at(page: &[Entry], at: usize) -> u64
    ensures { result ≡ slice_index (stamps_of page.now) at }
{
    match page.get(at) {
        Some(entry) => entry.stamp,
        None => 0,
    }
}

/// Whether a chunk is unshared against the chunk at a place of a base's page. Only stamps are compared.
fn is_unshared(entry: Entry, base: &[Entry], at: usize) -> bool
    ensures { result ≡ not (entry.stamp == slice_index (stamps_of base.now) at) }
{
    entry.stamp != stamp_at(base, at)
}

/// The entries of a page of a base: none past its end, or where there is no base.
fn base_page(shelf: &Shelf, base: Option<VolumeId>, page: u32) -> &[Entry]
    requires { IfSome base (λ id. IsSome (volume_in shelf.now.shelf id.0)) }
    ensures { stamps_of result.now ≡ take 64 (drop (64 * page) (base_stamps shelf.now.shelf base)) }
{
    match base {
        Some(id) if page < shelf.entries(id).div_ceil(64) => shelf.page(id, page),
        _ => &[],
    }
}

/// Whether a page of a volume is shared with a base, so that no chunk of it is unshared.
fn is_shared(shelf: &Shelf, volume: VolumeId, base: Option<VolumeId>, page: u32) -> bool
    requires standing { IsSome (volume_in shelf.now.shelf volume.0) }
    requires base_standing { IfSome base (λ id. IsSome (volume_in shelf.now.shelf id.0)) }
    ensures { IsTrue result → take 64 (drop (64 * page) (stamps_in shelf.now.shelf volume.0)) ≡ take 64 (drop (64 * page) (base_stamps shelf.now.shelf base)) }
{
    match base {
        Some(id) => shelf.same_page(volume, id, page),
        None => false,
    }
}

/// Puts the bits of a part of a page, from a place of `out` on.
fn put_bits(page: &[Entry], base: &[Entry], part: Part, out: &mut [bool], at: usize)
    requires within { part.from + part.count ≤ length page.now }
    requires room { at + part.count ≤ length out.old }
    ensures { take (at + part.count) out.new ≡ take at out.old ++ take part.count (drop part.from (unshared_bits (stamps_of page.now) (stamps_of base.now))) }
{
    for i in 0..part.count {
        let place = part.from + i;
        out[at + i] = is_unshared(page[place], base, place);
    }
}

/// Puts so many clear bits, from a place of `out` on.
fn put_clear(count: usize, out: &mut [bool], at: usize)
    requires { at + count ≤ length out.old }
    ensures { take (at + count) out.new ≡ take at out.old ++ replicate count false }
{
    for i in 0..count {
        out[at + i] = false;
    }
}

/// Puts the bits of a part of a page of a volume, from a place of `out` on.
pub(crate) fn put_part(
    shelf: &Shelf,
    volume: VolumeId,
    base: Option<VolumeId>,
    part: Part,
    out: &mut [bool],
    at: usize,
)
    requires standing { IsSome (volume_in shelf.now.shelf volume.0) }
    requires base_standing { IfSome base (λ id. IsSome (volume_in shelf.now.shelf id.0)) }
    requires some { 1 ≤ part.count }
    requires page { part.from + part.count ≤ 64 }
    requires within { 64 * part.page + part.from + part.count ≤ size_in shelf.now.shelf volume.0 }
    requires room { at + part.count ≤ length out.old }
    ensures { take (at + part.count) out.new ≡ take at out.old ++ take part.count (drop (64 * part.page + part.from) (bits_in shelf.now.shelf volume.0 base)) }
{
    if is_shared(shelf, volume, base, part.page) {
        put_clear(part.count, out, at);
        return;
    }
    let page = shelf.page(volume, part.page);
    let base = base_page(shelf, base, part.page);
    put_bits(page, base, part, out, at);
}

/// How many chunks of a page are unshared against the base's page.
fn count_differing(page: &[Entry], base: &[Entry]) -> u32
    requires { length page.now ≤ 64 }
    ensures { result ≡ unshared_count (stamps_of page.now) (stamps_of base.now) }
{
    let mut count = 0;
    for (i, entry) in page.iter().enumerate() {
        if is_unshared(*entry, base, i) {
            count += 1;
        }
    }
    count
}

/// How many chunks of a page of a volume are unshared against a base.
pub(crate) fn count_bits(shelf: &Shelf, volume: VolumeId, base: VolumeId, page: u32) -> u32
    requires standing { IsSome (volume_in shelf.now.shelf volume.0) }
    requires base_standing { IsSome (volume_in shelf.now.shelf base.0) }
    requires within { 64 * page < size_in shelf.now.shelf volume.0 }
    ensures { result ≡ count_by (λ b. b) (page_bits (stamps_in shelf.now.shelf volume.0) (stamps_in shelf.now.shelf base.0) page) }
{
    if is_shared(shelf, volume, Some(base), page) {
        return 0;
    }
    let entries = shelf.page(volume, page);
    count_differing(entries, base_page(shelf, Some(base), page))
}
