//! The bitmaps.
ghost use Rattle.std.specs.Prelude.{◌≡◌, ◌+◌, ◌*◌, ◌≤◌, ◌<◌, ◌^◌, ◌++◌, take, drop, length, IsSome, IfSome, Option, None};
ghost use Rattle.vv_flat.specs.Bits.{allocated_bits, unshared_bits, bits_within, unshared_count};
ghost use Rattle.vv_vols.specs.Shelf.{volume_in, size_in};
ghost use Rattle.vv_bitmap.specs.Stamps.{stamps_in, bits_in};

use crate::part::{Part, count_bits, put_part};
use vv_units::VolumeId;
use vv_vols::Shelf;

/// For each chunk of a volume from `first` on, as many as `out` has, whether it is allocated.
pub fn allocated(shelf: &Shelf, volume: VolumeId, first: u32, out: &mut [bool])
    requires standing { IsSome (volume_in shelf.now.shelf volume.0) }
    requires within { first + length out.old ≤ size_in shelf.now.shelf volume.0 }
    ensures { out.new ≡ bits_within first (length out.old) (allocated_bits (stamps_in shelf.now.shelf volume.0)) }
{
    bits_against(shelf, volume, None, first, out);
}

/// For each chunk of a volume from `first` on, as many as `out` has, whether it is unshared against a base.
pub fn unshared(shelf: &Shelf, volume: VolumeId, base: VolumeId, first: u32, out: &mut [bool])
    requires standing { IsSome (volume_in shelf.now.shelf volume.0) }
    requires base_standing { IsSome (volume_in shelf.now.shelf base.0) }
    requires within { first + length out.old ≤ size_in shelf.now.shelf volume.0 }
    ensures { out.new ≡ bits_within first (length out.old) (unshared_bits (stamps_in shelf.now.shelf volume.0) (stamps_in shelf.now.shelf base.0)) }
{
    bits_against(shelf, volume, Some(base), first, out);
}

/// How many chunks of a volume are unshared against a base.
pub fn unshared_count(shelf: &Shelf, volume: VolumeId, base: VolumeId) -> u32
    requires standing { IsSome (volume_in shelf.now.shelf volume.0) }
    requires base_standing { IsSome (volume_in shelf.now.shelf base.0) }
    ensures { result ≡ unshared_count (stamps_in shelf.now.shelf volume.0) (stamps_in shelf.now.shelf base.0) }
{
    let chunks = shelf.entries(volume);
    let mut count = 0;
    for page in 0..chunks.div_ceil(64) {
        count += count_bits(shelf, volume, base, page);
    }
    count
}

/// The bits against a base, or against nothing, a part of a page after another.
fn bits_against(
    shelf: &Shelf,
    volume: VolumeId,
    base: Option<VolumeId>,
    first: u32,
    out: &mut [bool],
)
    requires standing { IsSome (volume_in shelf.now.shelf volume.0) }
    requires base_standing { IfSome base (λ id. IsSome (volume_in shelf.now.shelf id.0)) }
    requires within { first + length out.old ≤ size_in shelf.now.shelf volume.0 }
    ensures { out.new ≡ bits_within first (length out.old) (bits_in shelf.now.shelf volume.0 base) }
{
    let _chunks = shelf.entries(volume);
    let mut done = 0;
    while done < out.len() {
        let part = Part::at(first as usize + done, out.len() - done);
        put_part(shelf, volume, base, part, out, done);
        done += part.count;
    }
}
