//! Pieces are put into a volume, or forgotten.
ghost use Rattle.std.specs.Prelude.{◌≡◌, ◌+◌, ◌*◌, ◌≤◌, IsSome};
ghost use Rattle.vv_vols.specs.Shelf.{volume_in, held_in, size_in, held_size};
ghost use Rattle.vv_vols.specs.Calls.{without_held};
ghost use Rattle.vv_vols.specs.Rows.{KeepsOwn, IsChangeRoom};
ghost use Rattle.vv_diff.specs.Pieces.{with_pieces_put, ArePiecesInside};

use crate::pieces::Pieces;
use std::sync::ledger::Ledger;
use vv_pool::Steps;
use vv_units::VolumeId;
use vv_vols::{MapRoom, Shelf};

/// Puts each piece in place of the chunk of a volume at its index. The pieces are gone then.
pub fn apply<L: Ledger>(
    shelf: &mut Shelf,
    dst: VolumeId,
    pieces: Pieces,
    room: MapRoom,
    steps: &mut Steps<L>,
)
    requires standing { IsSome (volume_in shelf.old.shelf dst.0) }
    requires holding { IsSome (held_in shelf.old.shelf pieces.number) }
    requires inside { ArePiecesInside shelf.old.shelf dst.0 pieces.number }
    requires room { IsChangeRoom shelf.old dst.0 0 (size_in shelf.old.shelf dst.0) room }
    ensures shelf { shelf.new.shelf ≡ with_pieces_put shelf.old.shelf dst.0 pieces.number }
    ensures rooms { shelf.new.rooms ≡ shelf.old.rooms }
    ensures kept { KeepsOwn shelf.old shelf.new }
    ensures rise { steps.old ≤ steps.new }
    ensures steps { steps.new ≤ steps.old + 65 * held_size shelf.old.shelf pieces.number }
{
    let held = pieces.into_held();
    let mut room = room;
    for at in 0..shelf.held_len(&held) {
        let index = shelf.held_index(&held, at);
        shelf.replace_entry(dst, index, &held, at, &mut room, steps);
    }
    shelf.drop_image(held);
}

/// Forgets the pieces: a place that no entry names any more is free.
pub fn forget(shelf: &mut Shelf, pieces: Pieces)
    requires { IsSome (held_in shelf.old.shelf pieces.number) }
    ensures shelf { shelf.new.shelf ≡ without_held shelf.old.shelf pieces.number }
    ensures rooms { shelf.new.rooms ≡ shelf.old.rooms }
    ensures kept { KeepsOwn shelf.old shelf.new }
{
    shelf.drop_image(pieces.into_held());
}
