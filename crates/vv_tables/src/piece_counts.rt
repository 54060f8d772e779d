//! Counts over the pieces of a copy and the chunks of its target.
ghost use Rattle.std.specs.Prelude.{◌≡◌, ◌<◌, ◌==◌, ◌&&◌, not, slice_index, IsSome, Some, option_map};
ghost use Rattle.vv_flat.specs.Space.{allocating_pieces};
ghost use Rattle.vv_laws.specs.Counts.{unmapping_pieces};
ghost use Rattle.vv_vols.specs.Shelf.{volume_in, held_in, held_size, piece_at, pieces_in};
ghost use Rattle.vv_tables.specs.Copies.{stamps_in, shaped_piece, shaped_pieces, is_allocating, is_unmapping};

use vv_units::VolumeId;
use vv_vols::{Held, Shelf};

/// How many pieces of a held list will allocate a chunk of a volume.
pub(crate) fn allocating(shelf: &Shelf, held: &Held, target: VolumeId) -> u32
    requires standing { IsSome (volume_in shelf.now.shelf target.0) }
    requires holding { IsSome (held_in shelf.now.shelf held.now.number) }
    ensures { result ≡ allocating_pieces (stamps_in shelf.now.shelf target.0) (shaped_pieces (pieces_in shelf.now.shelf held.now.number)) }
{
    let mut count = 0;
    for at in 0..shelf.held_len(held) {
        if allocates(shelf, held, at, target) {
            count += 1;
        }
    }
    count
}

/// How many pieces of a held list will unmap a chunk of a volume.
pub(crate) fn unmapping(shelf: &Shelf, held: &Held, target: VolumeId) -> u32
    requires standing { IsSome (volume_in shelf.now.shelf target.0) }
    requires holding { IsSome (held_in shelf.now.shelf held.now.number) }
    ensures { result ≡ unmapping_pieces (stamps_in shelf.now.shelf target.0) (shaped_pieces (pieces_in shelf.now.shelf held.now.number)) }
{
    let mut count = 0;
    for at in 0..shelf.held_len(held) {
        if unmaps(shelf, held, at, target) {
            count += 1;
        }
    }
    count
}

/// Whether the piece at a position will allocate a chunk of a volume.
fn allocates(shelf: &Shelf, held: &Held, at: u32, target: VolumeId) -> bool
    requires standing { IsSome (volume_in shelf.now.shelf target.0) }
    requires holding { IsSome (held_in shelf.now.shelf held.now.number) }
    requires within { at < held_size shelf.now.shelf held.now.number }
    ensures { option_map (λ p. is_allocating (stamps_in shelf.now.shelf target.0) (shaped_piece p)) (piece_at shelf.now.shelf held.now.number at) ≡ Some result }
{
    let index = shelf.held_index(held, at);
    is_first_alone(
        shelf.held_entry(held, at).stamp,
        stamp_in(shelf, target, index),
    )
}

/// Whether the piece at a position will unmap a chunk of a volume.
fn unmaps(shelf: &Shelf, held: &Held, at: u32, target: VolumeId) -> bool
    requires standing { IsSome (volume_in shelf.now.shelf target.0) }
    requires holding { IsSome (held_in shelf.now.shelf held.now.number) }
    requires within { at < held_size shelf.now.shelf held.now.number }
    ensures { option_map (λ p. is_unmapping (stamps_in shelf.now.shelf target.0) (shaped_piece p)) (piece_at shelf.now.shelf held.now.number at) ≡ Some result }
{
    let index = shelf.held_index(held, at);
    is_second_alone(
        shelf.held_entry(held, at).stamp,
        stamp_in(shelf, target, index),
    )
}

/// Whether of two stamps the first alone is that of an allocated chunk.
fn is_first_alone(first: u64, second: u64) -> bool
    ensures { result ≡ (not (first == 0) && (second == 0)) }
{
    first != 0 && second == 0
}

/// Whether of two stamps the second alone is that of an allocated chunk.
fn is_second_alone(first: u64, second: u64) -> bool
    ensures { result ≡ ((first == 0) && not (second == 0)) }
{
    first == 0 && second != 0
}

/// The stamp of a chunk of a volume, which is 0 past its end.
fn stamp_in(shelf: &Shelf, volume: VolumeId, index: u32) -> u64
    requires { IsSome (volume_in shelf.now.shelf volume.0) }
    ensures { result ≡ slice_index (stamps_in shelf.now.shelf volume.0) index }
{
    if index < shelf.entries(volume) {
        shelf.entry(volume, index).stamp
    } else {
        0
    }
}
