//! Volumes that get the chunks of another one: both name the same pages, and no entry is copied.
ghost use Rattle.std.specs.Prelude.{List, ◌∷◌, ◌≡◌, ◌+◌, ◌≤◌, IsSome, None};
ghost use Rattle.vv_map.specs.Pages.{pages_for};
ghost use Rattle.vv_vols.specs.Shelf.{volume_in, size_in, chunks_in, shelf_entries};
ghost use Rattle.vv_vols.specs.Calls.{with_made, with_chunks};
ghost use Rattle.vv_vols.specs.Rooms.{Given, for_list, AreGood, AreOfOthers};
ghost use Rattle.vv_vols.specs.Rows.{KeepsOwnBut, KeepsOwnButBoth, volume_with, IsListRoom};

use crate::head::Head;
use crate::map_room::MapRoom;
use crate::row::VolumeRow;
use crate::rows::{place_of, put_row};
use crate::shelf::Shelf;
use std::mem;
use std::sync::ledger::Ledger;
use vv_pool::Steps;
use vv_units::VolumeId;

impl Shelf {
    /// Adds a volume with this head and the chunks of another one. Each page of these is one step.
    pub fn copy_list<L: Ledger>(
        &mut self,
        volume: VolumeId,
        id: VolumeId,
        head: Head,
        room: MapRoom,
        steps: &mut Steps<L>,
    )
        requires standing { IsSome (volume_in self.old.shelf volume.0) }
        requires unused { volume_in self.old.shelf id.0 ≡ None }
        requires few { shelf_entries self.old.shelf + size_in self.old.shelf volume.0 ≤ self.old.shelf.geometry.map_chunks }
        requires room { IsListRoom (size_in self.old.shelf volume.0) room }
        requires rows { 1 ≤ self.old.rooms }
        ensures shelf { self.new.shelf ≡ with_made self.old.shelf (volume_with id.0 head (chunks_in self.old.shelf volume.0)) }
        ensures rooms { self.new.rooms + 1 ≡ self.old.rooms }
        ensures kept { KeepsOwnBut volume.0 self.old self.new }
        ensures others { (given : List Given) → AreOfOthers volume.0 given
            → AreGood self.old (for_list (size_in self.old.shelf volume.0) room ∷ given) → AreGood self.new given }
        ensures steps { steps.new ≡ steps.old + pages_for (size_in self.old.shelf volume.0) }
    {
        let from = place_of(&self.volumes, volume);
        let source = &self.volumes[from];
        let allocated = source.allocated;
        let chunks = self.entries.len(&source.map);
        let map = self.entries.share(&source.map, room.into_pages(), steps);
        let row = VolumeRow {
            id,
            head,
            map,
            allocated,
        };
        put_row(&mut self.volumes, row);
        self.total += chunks;
        self.promised -= 1;
    }

    /// Gives a volume the chunks of another one, also where these are more or fewer. Each page of these is one step.
    pub fn revert_list<L: Ledger>(
        &mut self,
        volume: VolumeId,
        snapshot: VolumeId,
        room: MapRoom,
        steps: &mut Steps<L>,
    )
        requires standing { IsSome (volume_in self.old.shelf volume.0) }
        requires source { IsSome (volume_in self.old.shelf snapshot.0) }
        requires few { shelf_entries self.old.shelf + size_in self.old.shelf snapshot.0 ≤ self.old.shelf.geometry.map_chunks + size_in self.old.shelf volume.0 }
        requires room { IsListRoom (size_in self.old.shelf snapshot.0) room }
        requires rows { 1 ≤ self.old.rooms }
        ensures shelf { self.new.shelf ≡ with_chunks self.old.shelf volume.0 (λ _. chunks_in self.old.shelf snapshot.0) }
        ensures rooms { self.new.rooms + 1 ≡ self.old.rooms }
        ensures kept { KeepsOwnButBoth volume.0 snapshot.0 self.old self.new }
        ensures others { (given : List Given) → AreOfOthers volume.0 given → AreOfOthers snapshot.0 given
            → AreGood self.old (for_list (size_in self.old.shelf snapshot.0) room ∷ given) → AreGood self.new given }
        ensures steps { steps.new ≡ steps.old + pages_for (size_in self.old.shelf snapshot.0) }
    {
        let from = place_of(&self.volumes, snapshot);
        let source = &self.volumes[from];
        let allocated = source.allocated;
        let chunks = self.entries.len(&source.map);
        let map = self.entries.share(&source.map, room.into_pages(), steps);
        let at = place_of(&self.volumes, volume);
        let row = &mut self.volumes[at];
        let before = mem::replace(&mut row.map, map);
        row.allocated = allocated;
        self.total = self.total - self.entries.len(&before) + chunks;
        self.entries.release(before);
        self.promised -= 1;
    }
}
