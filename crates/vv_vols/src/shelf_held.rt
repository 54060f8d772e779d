//! The lists that tasks hold.
ghost use Rattle.std.specs.Prelude.{ℕ, List, [], ◌∷◌, ◌≡◌, ◌+◌, ◌-◌, ◌/◌, ◌≤◌, ◌<◌, true, false, length, IsSome, IsTrue, Some, None, replicate, option_map, slice_get};
ghost use Rattle.std.specs.List.{Contains};
ghost use Rattle.vv_map.specs.Pages.{pages_for};
ghost use Rattle.vv_flat.specs.Lists.{numbers_from};
ghost use Rattle.vv_flat.specs.State.{Piece, indexed};
ghost use Rattle.vv_flat.specs.Chunks.{Entry as SeenEntry, unmapped_entry};
ghost use Rattle.vv_vols.specs.Shelf.{ShelfState, shares_rightly, volume_in, held_in, size_in, chunks_in, shelf_entries, next_held, pieces_in, held_size, piece_at, entry_at, index_at, chunk_at, left_in, is_image_in};
ghost use Rattle.vv_vols.specs.Calls.{with_held, new_held, with_appended, without_held, with_piece, with_entry, with_chunks, with_made, without_fresh, piece_chunks, placed_at};
ghost use Rattle.vv_vols.specs.Conditions.{is_new_stamp, HasEveryIndex, IsAbove, Stands};
ghost use Rattle.vv_vols.specs.Rooms.{Given, for_list, for_change, AreGood, AreOfOthers};
ghost use Rattle.vv_vols.specs.Rows.{is_own, IsChangeRoom, KeepsOwn, KeepsOwnBut, seen_entry, volume_with, IsListRoom};

use crate::head::Head;
use crate::held::Held;
use crate::held_rows::{add_held, append_entry, held_place, swap_lists, take_held};
use crate::map_room::MapRoom;
use crate::row::{HeldIndexes, HeldRow, VolumeRow};
use crate::rows::{place_of, put_row, recounted};
use crate::shelf::Shelf;
use std::sync::ledger::Ledger;
use vv_entries::Entry;
use vv_pool::{Fresh, Steps};
use vv_units::{Place, VolumeId};

impl Shelf {
    /// Holds a list of so many unmapped entries, with the indexes from 0 on.
    pub fn hold_target(&mut self, chunks: u32, room: MapRoom) -> Held
        requires few { shelf_entries self.old.shelf + chunks ≤ self.old.shelf.geometry.map_chunks }
        requires room { IsListRoom chunks room }
        requires rows { 1 ≤ self.old.rooms }
        ensures held { result ≡ record { number = next_held self.old.shelf; len = chunks } }
        ensures unused { held_in self.old.shelf result.number ≡ None }
        ensures shelf { self.new.shelf ≡ with_held self.old.shelf (new_held self.old.shelf (indexed (replicate chunks unmapped_entry)) false 0) }
        ensures rooms { self.new.rooms + 1 ≡ self.old.rooms }
        ensures kept { KeepsOwn self.old self.new }
        ensures others { (given : List Given) → AreGood self.old (for_list chunks room ∷ given) → AreGood self.new given }
    {
        let map = self.entries.make(chunks, room.into_pages());
        let number = add_held(&mut self.held, map, HeldIndexes::FromZero, false, 0);
        self.total += chunks;
        self.promised -= 1;
        Held::new(number, chunks)
    }

    /// Holds an image of a volume: its list as it stands, over the same pages. Each page is one step, and no entry is copied.
    pub fn hold_image<L: Ledger>(
        &mut self,
        id: VolumeId,
        room: MapRoom,
        steps: &mut Steps<L>,
    ) -> Held
        requires standing { IsSome (volume_in self.old.shelf id.0) }
        requires few { shelf_entries self.old.shelf + size_in self.old.shelf id.0 ≤ self.old.shelf.geometry.map_chunks }
        requires room { IsListRoom (size_in self.old.shelf id.0) room }
        requires rows { 1 ≤ self.old.rooms }
        ensures held { result ≡ record { number = next_held self.old.shelf; len = size_in self.old.shelf id.0 } }
        ensures unused { held_in self.old.shelf result.number ≡ None }
        ensures shelf { self.new.shelf ≡ with_held self.old.shelf (new_held self.old.shelf (indexed (chunks_in self.old.shelf id.0)) true 0) }
        ensures rooms { self.new.rooms + 1 ≡ self.old.rooms }
        ensures kept { KeepsOwnBut id.0 self.old self.new }
        ensures others { (given : List Given) → AreOfOthers id.0 given
            → AreGood self.old (for_list (size_in self.old.shelf id.0) room ∷ given) → AreGood self.new given }
        ensures steps { steps.new ≡ steps.old + pages_for (size_in self.old.shelf id.0) }
    {
        let at = place_of(&self.volumes, id);
        let row = &self.volumes[at];
        let chunks = self.entries.len(&row.map);
        let map = self.entries.share(&row.map, room.into_pages(), steps);
        let allocated = row.allocated;
        let number = add_held(&mut self.held, map, HeldIndexes::FromZero, true, allocated);
        self.total += chunks;
        self.promised -= 1;
        Held::new(number, chunks)
    }

    /// Holds a list without an entry, with memory for as many as the room has indexes for.
    pub fn hold_none(&mut self, room: MapRoom) -> Held
        requires room { IsListRoom room.indexes room }
        requires rows { 1 ≤ self.old.rooms }
        ensures held { result ≡ record { number = next_held self.old.shelf; len = 0 } }
        ensures unused { held_in self.old.shelf result.number ≡ None }
        ensures shelf { self.new.shelf ≡ with_held self.old.shelf (new_held self.old.shelf [] false room.indexes) }
        ensures rooms { self.new.rooms + 1 ≡ self.old.rooms }
        ensures kept { KeepsOwn self.old self.new }
        ensures others { (given : List Given) → AreGood self.old (for_list room.indexes room ∷ given) → AreGood self.new given }
    {
        let mut listed = room.into_list();
        let map = self.entries.begin(&mut listed.room);
        let number = add_held(&mut self.held, map, HeldIndexes::Listed(listed), false, 0);
        self.promised -= 1;
        Held::new(number, 0)
    }

    /// Appends an unmapped entry, with an index above the last one, to a held list that has memory for it.
    pub fn hold_unmapped(&mut self, held: &mut Held, index: u32)
        requires standing { IsSome (held_in self.old.shelf held.old.number) }
        requires target { is_image_in self.old.shelf held.old.number ≡ false }
        requires left { 1 ≤ left_in self.old.shelf held.old.number }
        requires above { IsAbove self.old.shelf held.old.number index }
        requires len { held.old.len ≡ held_size self.old.shelf held.old.number }
        requires few { shelf_entries self.old.shelf + 1 ≤ self.old.shelf.geometry.map_chunks }
        ensures held { held.new ≡ record held.old { len = held.old.len + 1 } }
        ensures shelf { self.new.shelf ≡ with_appended self.old.shelf held.old.number index }
        ensures rooms { self.new.rooms ≡ self.old.rooms }
        ensures kept { KeepsOwn self.old self.new }
        ensures others { (given : List Given) → AreGood self.old given → AreGood self.new given }
    {
        let at = held_place(&self.held, held);
        let row = &mut self.held[at];
        append_entry(&mut self.entries, row, index);
        held.lengthen();
        self.total += 1;
    }

    /// Makes a held list that has every index from 0 on the list of a new volume. No count is raised.
    pub fn make_held(&mut self, id: VolumeId, head: Head, held: Held)
        requires unused { volume_in self.old.shelf id.0 ≡ None }
        requires standing { IsSome (held_in self.old.shelf held.number) }
        requires whole { HasEveryIndex self.old.shelf held.number }
        ensures shelf { self.new.shelf ≡ with_made (without_held self.old.shelf held.number) (volume_with id.0 head (piece_chunks (pieces_in self.old.shelf held.number))) }
        ensures rooms { self.new.rooms ≡ self.old.rooms }
        ensures kept { KeepsOwn self.old self.new }
        ensures others { (given : List Given) → AreGood self.old given → AreGood self.new given }
    {
        let HeldRow {
            number: _,
            map,
            indexes: _,
            is_image: _,
            allocated,
        } = take_held(&mut self.held, held);
        let row = VolumeRow {
            id,
            head,
            map,
            allocated,
        };
        put_row(&mut self.volumes, row);
    }

    /// Makes a held list that has every index from 0 on the list of a volume, in place of its old one, which ends. No count is
    /// raised.
    pub fn replace_list(&mut self, id: VolumeId, held: Held)
        requires standing { IsSome (volume_in self.old.shelf id.0) }
        requires holding { IsSome (held_in self.old.shelf held.number) }
        requires whole { HasEveryIndex self.old.shelf held.number }
        ensures shelf { self.new.shelf ≡ with_chunks (without_held self.old.shelf held.number) id.0 (λ _. piece_chunks (pieces_in self.old.shelf held.number)) }
        ensures rooms { self.new.rooms ≡ self.old.rooms }
        ensures kept { KeepsOwnBut id.0 self.old self.new }
        ensures others { (given : List Given) → AreOfOthers id.0 given → AreGood self.old given → AreGood self.new given }
    {
        let place = place_of(&self.volumes, id);
        let at = held_place(&self.held, &held);
        let volume = &mut self.volumes[place];
        let row = &mut self.held[at];
        swap_lists(volume, row);
        self.drop_image(held);
    }

    /// Puts a fresh place at a position of a held list that isn't an image, where its entry is unmapped.
    pub fn put_held(&mut self, held: &mut Held, at: u32, fresh: Fresh, stamp: u64)
        requires standing { IsSome (held_in self.old.shelf held.old.number) }
        requires target { is_image_in self.old.shelf held.old.number ≡ false }
        requires unmapped { entry_at self.old.shelf held.old.number at ≡ Some unmapped_entry }
        requires fresh { Contains self.old.shelf.fresh fresh }
        requires stamp { IsTrue (is_new_stamp self.old.shelf (index_at self.old.shelf held.old.number at) stamp) }
        ensures held { held.new ≡ held.old }
        ensures shelf { self.new.shelf ≡ with_piece (without_fresh self.old.shelf fresh) held.old.number at (placed_at fresh stamp) }
        ensures rooms { self.new.rooms ≡ self.old.rooms }
        ensures kept { KeepsOwn self.old self.new }
        ensures others { (given : List Given) → AreGood self.old given → AreGood self.new given }
    {
        let place = held_place(&self.held, held);
        let _counts = self.entries.pool();
        let row = &mut self.held[place];
        self.entries.fill_fresh(&mut row.map, at, fresh, stamp);
        row.allocated += 1;
    }

    /// Puts a place at a position of a held list that isn't an image, where its entry is unmapped. Some entry with that index
    /// has that place and stamp already.
    pub fn share_held<L: Ledger>(
        &mut self,
        held: &mut Held,
        at: u32,
        place: Place,
        stamp: u64,
        steps: &mut Steps<L>,
    )
        requires standing { IsSome (held_in self.old.shelf held.old.number) }
        requires target { is_image_in self.old.shelf held.old.number ≡ false }
        requires unmapped { entry_at self.old.shelf held.old.number at ≡ Some unmapped_entry }
        requires stands { Stands self.old.shelf (record { index = index_at self.old.shelf held.old.number at; chunk = placed_at place.0 stamp }) }
        ensures held { held.new ≡ held.old }
        ensures shelf { self.new.shelf ≡ with_piece self.old.shelf held.old.number at (placed_at place.0 stamp) }
        ensures rooms { self.new.rooms ≡ self.old.rooms }
        ensures kept { KeepsOwn self.old self.new }
        ensures others { (given : List Given) → AreGood self.old given → AreGood self.new given }
        ensures rise { steps.old ≤ steps.new }
        ensures steps { steps.new ≤ steps.old + 1 }
    {
        let position = held_place(&self.held, held);
        let _counts = self.entries.pool();
        let row = &mut self.held[position];
        let entry = Entry::placed(place, stamp);
        self.entries.fill_shared(&mut row.map, at, entry, steps);
        row.allocated += 1;
    }

    /// Replaces a volume's entry by the one of a held list at a position, which has the same index.
    pub fn replace_entry<L: Ledger>(
        &mut self,
        id: VolumeId,
        index: u32,
        held: &Held,
        at: u32,
        room: &mut MapRoom,
        steps: &mut Steps<L>,
    )
        requires standing { IsSome (volume_in self.old.shelf id.0) }
        requires within { index < size_in self.old.shelf id.0 }
        requires holding { IsSome (held_in self.old.shelf held.now.number) }
        requires inside { at < held_size self.old.shelf held.now.number }
        requires same { index_at self.old.shelf held.now.number at ≡ index }
        requires room { is_own self.old id.0 (index / 64) ≡ false → 1 ≤ room.old.pages }
        ensures shelf { self.new.shelf ≡ with_entry self.old.shelf id.0 index (chunk_at self.old.shelf held.now.number at) }
        ensures rooms { self.new.rooms ≡ self.old.rooms }
        ensures own { is_own self.new id.0 (index / 64) ≡ true }
        ensures kept { KeepsOwn self.old self.new }
        ensures others { (first count : ℕ) (given : List Given) → first ≤ index → index < first + count
            → AreGood self.old (for_change id.0 first count room.old ∷ given) → AreGood self.new (for_change id.0 first count room.new ∷ given) }
        ensures room { is_own self.old id.0 (index / 64) ≡ true → room.new.pages ≡ room.old.pages }
        ensures left { room.old.pages ≤ room.new.pages + 1 }
        ensures good { (first count : ℕ) → first ≤ index → index < first + count → IsChangeRoom self.old id.0 first count room.old → IsChangeRoom self.new id.0 first count room.new }
        ensures rise { steps.old ≤ steps.new }
        ensures steps { steps.new ≤ steps.old + 65 }
    {
        let entry = self.held_entry(held, at);
        let place = place_of(&self.volumes, id);
        let _counts = self.entries.pool();
        let row = &mut self.volumes[place];
        let before = self.entries.get(&row.map, index);
        self.entries
            .put_shared(&mut row.map, index, entry, &mut room.pages, steps);
        row.allocated = recounted(row.allocated, before, entry);
    }

    /// Drops a held list. A place that no entry names any more is free.
    pub fn drop_image(&mut self, held: Held)
        requires { IsSome (held_in self.old.shelf held.number) }
        ensures shelf { self.new.shelf ≡ without_held self.old.shelf held.number }
        ensures rooms { self.new.rooms ≡ self.old.rooms }
        ensures kept { KeepsOwn self.old self.new }
        ensures others { (given : List Given) → AreGood self.old given → AreGood self.new given }
    {
        let HeldRow {
            number: _,
            map,
            indexes: _,
            is_image: _,
            allocated: _,
        } = take_held(&mut self.held, held);
        self.total -= self.entries.len(&map);
        self.entries.release(map);
    }

    /// Says that the entries of all lists share places rightly. It does nothing.
    pub fn keeps_sharing(&self)
        ensures { IsTrue (shares_rightly self.now.shelf) }
    {
        let _total = self.total;
    }

    /// How many entries a held list has.
    pub fn held_len(&self, held: &Held) -> u32
        requires { IsSome (held_in self.now.shelf held.now.number) }
        ensures { result ≡ held_size self.now.shelf held.now.number }
    {
        let at = held_place(&self.held, held);
        let row = &self.held[at];
        self.entries.len(&row.map)
    }

    /// The entry of a held list at a position.
    pub fn held_entry(&self, held: &Held, at: u32) -> Entry
        requires standing { IsSome (held_in self.now.shelf held.now.number) }
        requires within { at < held_size self.now.shelf held.now.number }
        ensures { option_map (λ (a : Piece SeenEntry). a.chunk) (piece_at self.now.shelf held.now.number at) ≡ Some (seen_entry result) }
    {
        let place = held_place(&self.held, held);
        let row = &self.held[place];
        self.entries.get(&row.map, at)
    }

    /// The index of the entry of a held list at a position.
    pub fn held_index(&self, held: &Held, at: u32) -> u32
        requires standing { IsSome (held_in self.now.shelf held.now.number) }
        requires within { at < held_size self.now.shelf held.now.number }
        ensures { option_map (λ (a : Piece SeenEntry). a.index) (piece_at self.now.shelf held.now.number at) ≡ Some result }
    {
        let place = held_place(&self.held, held);
        let row = &self.held[place];
        match &row.indexes {
            HeldIndexes::FromZero => at,
            HeldIndexes::Listed(listed) => listed.indexes[at as usize],
        }
    }
}
