//! Volumes made from one that stands, and a volume that goes back to a snapshot. None of these takes memory, and no entry
//! is copied: the lists share their pages, each of which is one step.
ghost use Rattle.std.specs.Prelude.{List, ◌∷◌, ◌≡◌, ◌+◌, ◌≤◌, IfSome, IsSome, None, Some};
ghost use Rattle.vv_units.specs.declared.volume.VolumeKind.TheVariants.{SnapshotOf, FastCloneOf};
ghost use Rattle.vv_map.specs.Pages.{pages_for};
ghost use Rattle.vv_vols.specs.Shelf.{volume_in, size_in, shelf_entries};
ghost use Rattle.vv_vols.specs.Rooms.{Given, for_list, AreGood, AreOfOthers};
ghost use Rattle.vv_vols.specs.Rows.{KeepsOwnBut, KeepsOwnButBoth, IsListRoom};
ghost use Rattle.vv_snap.specs.Copies.{IsHeadButKind, with_copy, with_reverted};

use std::sync::ledger::Ledger;
use vv_pool::Steps;
use vv_units::{VolumeId, VolumeKind};
use vv_vols::{Head, MapRoom, Shelf};

/// Adds a volume with the head in the room, but of this kind, and with the chunks of a volume that stands.
fn copy_volume<L: Ledger>(
    shelf: &mut Shelf,
    volume: VolumeId,
    id: VolumeId,
    kind: VolumeKind,
    room: MapRoom,
    steps: &mut Steps<L>,
)
    requires standing { IsSome (volume_in shelf.old.shelf volume.0) }
    requires unused { volume_in shelf.old.shelf id.0 ≡ None }
    requires few { shelf_entries shelf.old.shelf + size_in shelf.old.shelf volume.0 ≤ shelf.old.shelf.geometry.map_chunks }
    requires room { IsListRoom (size_in shelf.old.shelf volume.0) room }
    requires rows { 1 ≤ shelf.old.rooms }
    requires put_in { IsSome room.head }
    requires head { IfSome room.head (λ head. IsHeadButKind shelf.old.shelf volume.0 head) }
    ensures shelf { shelf.new.shelf ≡ with_copy shelf.old.shelf volume.0 id.0 kind }
    ensures rooms { shelf.new.rooms + 1 ≡ shelf.old.rooms }
    ensures kept { KeepsOwnBut volume.0 shelf.old shelf.new }
    ensures others { (given : List Given) → AreOfOthers volume.0 given
        → AreGood shelf.old (for_list (size_in shelf.old.shelf volume.0) room ∷ given) → AreGood shelf.new given }
    ensures steps { steps.new ≡ steps.old + pages_for (size_in shelf.old.shelf volume.0) }
{
    let mut room = room;
    let Head {
        container,
        vtype,
        kind: _,
        reverted,
        needs,
        metadata,
    } = room.take_head();
    let head = Head {
        container,
        vtype,
        kind,
        reverted,
        needs,
        metadata,
    };
    shelf.copy_list(volume, id, head, room, steps);
}

/// Adds a snapshot of a volume.
pub fn snapshot<L: Ledger>(
    shelf: &mut Shelf,
    volume: VolumeId,
    id: VolumeId,
    room: MapRoom,
    steps: &mut Steps<L>,
)
    requires standing { IsSome (volume_in shelf.old.shelf volume.0) }
    requires unused { volume_in shelf.old.shelf id.0 ≡ None }
    requires few { shelf_entries shelf.old.shelf + size_in shelf.old.shelf volume.0 ≤ shelf.old.shelf.geometry.map_chunks }
    requires room { IsListRoom (size_in shelf.old.shelf volume.0) room }
    requires rows { 1 ≤ shelf.old.rooms }
    requires put_in { IsSome room.head }
    requires head { IfSome room.head (λ head. IsHeadButKind shelf.old.shelf volume.0 head) }
    ensures shelf { shelf.new.shelf ≡ with_copy shelf.old.shelf volume.0 id.0 (SnapshotOf volume) }
    ensures rooms { shelf.new.rooms + 1 ≡ shelf.old.rooms }
    ensures kept { KeepsOwnBut volume.0 shelf.old shelf.new }
    ensures others { (given : List Given) → AreOfOthers volume.0 given
        → AreGood shelf.old (for_list (size_in shelf.old.shelf volume.0) room ∷ given) → AreGood shelf.new given }
    ensures steps { steps.new ≡ steps.old + pages_for (size_in shelf.old.shelf volume.0) }
{
    copy_volume(
        shelf,
        volume,
        id,
        VolumeKind::SnapshotOf(volume),
        room,
        steps,
    );
}

/// Adds a fast clone of a volume.
pub fn fast_clone<L: Ledger>(
    shelf: &mut Shelf,
    volume: VolumeId,
    id: VolumeId,
    room: MapRoom,
    steps: &mut Steps<L>,
)
    requires standing { IsSome (volume_in shelf.old.shelf volume.0) }
    requires unused { volume_in shelf.old.shelf id.0 ≡ None }
    requires few { shelf_entries shelf.old.shelf + size_in shelf.old.shelf volume.0 ≤ shelf.old.shelf.geometry.map_chunks }
    requires room { IsListRoom (size_in shelf.old.shelf volume.0) room }
    requires rows { 1 ≤ shelf.old.rooms }
    requires put_in { IsSome room.head }
    requires head { IfSome room.head (λ head. IsHeadButKind shelf.old.shelf volume.0 head) }
    ensures shelf { shelf.new.shelf ≡ with_copy shelf.old.shelf volume.0 id.0 (FastCloneOf volume) }
    ensures rooms { shelf.new.rooms + 1 ≡ shelf.old.rooms }
    ensures kept { KeepsOwnBut volume.0 shelf.old shelf.new }
    ensures others { (given : List Given) → AreOfOthers volume.0 given
        → AreGood shelf.old (for_list (size_in shelf.old.shelf volume.0) room ∷ given) → AreGood shelf.new given }
    ensures steps { steps.new ≡ steps.old + pages_for (size_in shelf.old.shelf volume.0) }
{
    copy_volume(
        shelf,
        volume,
        id,
        VolumeKind::FastCloneOf(volume),
        room,
        steps,
    );
}

/// Gives a volume the chunks of a snapshot, also where these are more or fewer. All else of the volume stays.
pub fn revert<L: Ledger>(
    shelf: &mut Shelf,
    volume: VolumeId,
    snapshot: VolumeId,
    room: MapRoom,
    steps: &mut Steps<L>,
)
    requires standing { IsSome (volume_in shelf.old.shelf volume.0) }
    requires source { IsSome (volume_in shelf.old.shelf snapshot.0) }
    requires few { shelf_entries shelf.old.shelf + size_in shelf.old.shelf snapshot.0 ≤ shelf.old.shelf.geometry.map_chunks + size_in shelf.old.shelf volume.0 }
    requires room { IsListRoom (size_in shelf.old.shelf snapshot.0) room }
    requires rows { 1 ≤ shelf.old.rooms }
    ensures shelf { shelf.new.shelf ≡ with_reverted shelf.old.shelf volume.0 snapshot.0 }
    ensures rooms { shelf.new.rooms + 1 ≡ shelf.old.rooms }
    ensures kept { KeepsOwnButBoth volume.0 snapshot.0 shelf.old shelf.new }
    ensures others { (given : List Given) → AreOfOthers volume.0 given → AreOfOthers snapshot.0 given
        → AreGood shelf.old (for_list (size_in shelf.old.shelf snapshot.0) room ∷ given) → AreGood shelf.new given }
    ensures steps { steps.new ≡ steps.old + pages_for (size_in shelf.old.shelf snapshot.0) }
{
    shelf.revert_list(volume, snapshot, room, steps);
}
