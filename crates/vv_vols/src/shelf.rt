//! The shelf.
ghost use Rattle.std.specs.Prelude.{ℕ, List, map, [], ◌∷◌, ◌≡◌, ◌+◌, ◌-◌, ◌/◌, ◌≤◌, ◌<◌, true, false, length, IfOk, OnOk, OnErr, IsSome, IsTrue, IfSome, Some, None, replicate, option_map, slice_get};
ghost use Rattle.vv_flat.specs.State.{Volume};
ghost use Rattle.vv_flat.specs.Chunks.{Entry as SeenEntry, unmapped_entry};
ghost use Rattle.vv_pool.specs.Pool.{IsFresh};
ghost use Rattle.vv_vols.specs.Shelf.{ShelfState, volume_in, size_in, chunks_in, allocated_of, shelf_entries, map_room_for};
ghost use Rattle.vv_vols.specs.Calls.{with_made, with_deleted, with_changed, with_put, with_entry, with_size, without_fresh, with_reserve};
ghost use Rattle.std.specs.List.{Contains};
ghost use Rattle.vv_vols.specs.Conditions.{is_new_stamp};
ghost use Rattle.vv_vols.specs.Rooms.{Given, for_list, for_change, AreGood, AreOfOthers};
ghost use Rattle.vv_vols.specs.Rows.{ShelfView, is_own, KeepsOwn, KeepsOwnBut, seen_entry, volume_with, rises, empty_view, IsListRoom, IsChangeRoom};

use crate::head::Head;
use crate::map_full::MapFull;
use crate::map_room::MapRoom;
use crate::row::{HeldRow, VolumeRow};
use crate::rows::{
    counted, find_place, id_of, pages_of_range, place_of, put_row, take_row, uncounted,
};
use std::alloc::Global;
use std::marker::Model;
use std::sync::ledger::Ledger;
use vv_entries::{Entry, EntryStore};
use vv_pool::{Fresh, Steps};
use vv_units::{Geometry, NoMemory, PairList, VolumeId};

/// All volumes of an array, the lists that its tasks hold, and the pool whose places they share.
pub struct Shelf {
    pub(crate) alloc: Global,
    pub(crate) geometry: Geometry,
    pub(crate) entries: EntryStore,
    pub(crate) volumes: Vec<VolumeRow>,
    pub(crate) held: Vec<HeldRow>,
    pub(crate) total: u32,
    /// For how many further lists there is memory for a row.
    pub(crate) promised: usize,
}

impl Model for Shelf {
    ghost use Rattle.std.specs.Prelude.{vec_capacity};
    ghost use Rattle.vv_vols.specs.Rows.{ShelfView, seen_view, IsShelf};

    ghost Value = { ShelfView };

    ghost view = { λ a. seen_view a.geometry a.entries a.volumes.items a.held.items a.promised };

    ghost invariant = { λ a. IsShelf a.geometry a.entries a.volumes.items a.held.items a.total a.promised (vec_capacity a.volumes) (vec_capacity a.held) };
}

impl Shelf {
    /// A shelf without a list: all places are free.
    pub fn new(alloc: Global, geometry: Geometry) -> Result<Shelf, NoMemory>
        ensures { IfOk result (λ shelf. shelf ≡ empty_view geometry) }
    {
        let entries = EntryStore::new(alloc, geometry.pool_chunks, geometry.map_chunks)?;
        Ok(Shelf {
            alloc,
            geometry,
            entries,
            volumes: Vec::new(alloc),
            held: Vec::new(alloc),
            total: 0,
            promised: 0,
        })
    }

    /// Adds a volume of unmapped chunks.
    pub fn make(&mut self, id: VolumeId, head: Head, chunks: u32, room: MapRoom)
        requires unused { volume_in self.old.shelf id.0 ≡ None }
        requires few { shelf_entries self.old.shelf + chunks ≤ self.old.shelf.geometry.map_chunks }
        requires room { IsListRoom chunks room }
        requires rows { 1 ≤ self.old.rooms }
        ensures shelf { self.new.shelf ≡ with_made self.old.shelf (volume_with id.0 head (replicate chunks unmapped_entry)) }
        ensures rooms { self.new.rooms + 1 ≡ self.old.rooms }
        ensures kept { KeepsOwn self.old self.new }
        ensures others { (given : List Given) → AreGood self.old (for_list chunks room ∷ given) → AreGood self.new given }
    {
        let map = self.entries.make(chunks, room.into_pages());
        let row = VolumeRow {
            id,
            head,
            map,
            allocated: 0,
        };
        put_row(&mut self.volumes, row);
        self.total += chunks;
        self.promised -= 1;
    }

    /// Deletes a volume. A place that no entry names any more is free.
    pub fn delete(&mut self, id: VolumeId)
        requires { IsSome (volume_in self.old.shelf id.0) }
        ensures shelf { self.new.shelf ≡ with_deleted self.old.shelf id.0 }
        ensures rooms { self.new.rooms ≡ self.old.rooms }
        ensures kept { KeepsOwnBut id.0 self.old self.new }
        ensures others { (given : List Given) → AreOfOthers id.0 given → AreGood self.old given → AreGood self.new given }
    {
        let at = place_of(&self.volumes, id);
        let VolumeRow {
            id: _,
            head: _,
            map,
            allocated: _,
        } = take_row(&mut self.volumes, at);
        self.total -= self.entries.len(&map);
        self.entries.release(map);
    }

    /// Notes the log number of a volume's last revert.
    pub fn set_reverted(&mut self, id: VolumeId, lsn: u64)
        requires { IsSome (volume_in self.old.shelf id.0) }
        ensures { self.new ≡ record self.old { shelf = with_changed self.old.shelf id.0 (λ (v : Volume SeenEntry). record v { reverted = lsn }) } }
    {
        let at = place_of(&self.volumes, id);
        self.volumes[at].head.reverted = lsn;
    }

    /// Replaces the metadata of a volume.
    pub fn set_pairs(&mut self, id: VolumeId, pairs: PairList)
        requires { IsSome (volume_in self.old.shelf id.0) }
        ensures { self.new ≡ record self.old { shelf = with_changed self.old.shelf id.0 (λ (v : Volume SeenEntry). record v { metadata = pairs }) } }
    {
        let at = place_of(&self.volumes, id);
        self.volumes[at].head.metadata = pairs;
    }

    /// Puts a fresh place at an index of a volume.
    pub fn put_fresh<L: Ledger>(
        &mut self,
        id: VolumeId,
        index: u32,
        fresh: Fresh,
        stamp: u64,
        room: &mut MapRoom,
        steps: &mut Steps<L>,
    )
        requires standing { IsSome (volume_in self.old.shelf id.0) }
        requires within { index < size_in self.old.shelf id.0 }
        requires fresh { Contains self.old.shelf.fresh fresh }
        requires stamp { IsTrue (is_new_stamp self.old.shelf index stamp) }
        requires room { IsChangeRoom self.old id.0 index 1 room.old }
        ensures shelf { self.new.shelf ≡ with_put self.old.shelf id.0 index fresh stamp }
        ensures rooms { self.new.rooms ≡ self.old.rooms }
        ensures own { is_own self.new id.0 (index / 64) ≡ true }
        ensures kept { KeepsOwn self.old self.new }
        ensures room { is_own self.old id.0 (index / 64) ≡ true → room.new.pages ≡ room.old.pages }
        ensures left { room.old.pages ≤ room.new.pages + 1 }
        ensures good { (first count : ℕ) (given : List Given) → first ≤ index → index < first + count
            → AreGood self.old (for_change id.0 first count room.old ∷ given) → AreGood self.new (for_change id.0 first count room.new ∷ given) }
        ensures steps { steps.new ≤ steps.old + 64 }
    {
        let at = place_of(&self.volumes, id);
        let _counts = self.entries.pool();
        let row = &mut self.volumes[at];
        let before = self.entries.get(&row.map, index);
        self.entries
            .put_fresh(&mut row.map, index, fresh, stamp, &mut room.pages, steps);
        row.allocated = counted(row.allocated, before);
    }

    /// Unmaps a chunk of a volume.
    pub fn unmap<L: Ledger>(
        &mut self,
        id: VolumeId,
        index: u32,
        room: &mut MapRoom,
        steps: &mut Steps<L>,
    )
        requires standing { IsSome (volume_in self.old.shelf id.0) }
        requires within { index < size_in self.old.shelf id.0 }
        requires room { IsChangeRoom self.old id.0 index 1 room.old }
        ensures shelf { self.new.shelf ≡ with_entry self.old.shelf id.0 index unmapped_entry }
        ensures rooms { self.new.rooms ≡ self.old.rooms }
        ensures own { is_own self.new id.0 (index / 64) ≡ true }
        ensures kept { KeepsOwn self.old self.new }
        ensures room { is_own self.old id.0 (index / 64) ≡ true → room.new.pages ≡ room.old.pages }
        ensures left { room.old.pages ≤ room.new.pages + 1 }
        ensures good { (first count : ℕ) (given : List Given) → first ≤ index → index < first + count
            → AreGood self.old (for_change id.0 first count room.old ∷ given) → AreGood self.new (for_change id.0 first count room.new ∷ given) }
        ensures steps { steps.new ≤ steps.old + 64 }
    {
        let at = place_of(&self.volumes, id);
        let row = &mut self.volumes[at];
        let before = self.entries.get(&row.map, index);
        self.entries
            .unmap(&mut row.map, index, &mut room.pages, steps);
        row.allocated = uncounted(row.allocated, before);
    }

    /// Appends unmapped chunks until a volume has so many.
    pub fn grow<L: Ledger>(
        &mut self,
        id: VolumeId,
        chunks: u32,
        room: MapRoom,
        steps: &mut Steps<L>,
    )
        requires standing { IsSome (volume_in self.old.shelf id.0) }
        requires more { size_in self.old.shelf id.0 ≤ chunks }
        requires few { shelf_entries self.old.shelf + chunks ≤ self.old.shelf.geometry.map_chunks + size_in self.old.shelf id.0 }
        requires room { IsListRoom chunks room }
        requires rows { 1 ≤ self.old.rooms }
        ensures shelf { self.new.shelf ≡ with_size self.old.shelf id.0 chunks }
        ensures rooms { self.new.rooms + 1 ≡ self.old.rooms }
        ensures kept { KeepsOwn self.old self.new }
        ensures others { (given : List Given) → AreGood self.old (for_list chunks room ∷ given) → AreGood self.new given }
        ensures steps { steps.new ≤ steps.old + 64 }
    {
        let mut pages = room.into_pages();
        let at = place_of(&self.volumes, id);
        let row = &mut self.volumes[at];
        let before = self.entries.len(&row.map);
        self.entries.grow(&mut row.map, chunks, &mut pages, steps);
        self.total = self.total - before + chunks;
        self.promised -= 1;
    }

    /// Takes memory for a new list of so many entries, and for its row.
    pub fn reserve_list(&mut self, chunks: u32) -> Result<MapRoom, NoMemory>
        ensures room { IfOk result (λ room. IsListRoom chunks room) }
        ensures indexes { IfOk result (λ room. room.indexes ≡ chunks) }
        ensures ok { OnOk result (self.new ≡ record self.old { rooms = self.old.rooms + 1 }) }
        ensures good { (given : List Given) → AreGood self.old given → IfOk result (λ room. AreGood self.new (for_list chunks room ∷ given)) }
        ensures err { OnErr result (self.new ≡ self.old) }
    {
        let room = MapRoom::for_list(self.alloc, &self.entries, chunks)?;
        let others = self.held.len() + self.promised + 1;
        if self.volumes.reserve(others).is_err() {
            return Err(NoMemory);
        }
        let others = self.volumes.len() + self.promised + 1;
        if self.held.reserve(others).is_err() {
            return Err(NoMemory);
        }
        self.promised += 1;
        Ok(room)
    }

    /// Gives back the memory of a row that was taken for a list.
    pub fn give_up_list(&mut self, room: MapRoom)
        requires { 1 ≤ self.old.rooms }
        ensures rooms { self.new ≡ record self.old { rooms = self.old.rooms - 1 } }
        ensures others { (chunks : ℕ) (given : List Given) → AreGood self.old (for_list chunks room ∷ given) → AreGood self.new given }
    {
        let _left = room;
        self.promised -= 1;
    }

    /// Takes memory for changes in a range of a volume.
    pub fn reserve_change(
        &mut self,
        volume: VolumeId,
        first: u32,
        count: u32,
    ) -> Result<MapRoom, NoMemory>
        requires standing { IsSome (volume_in self.old.shelf volume.0) }
        requires within { first + count ≤ size_in self.old.shelf volume.0 }
        ensures room { IfOk result (λ room. IsChangeRoom self.old volume.0 first count room) }
        ensures same { self.new ≡ self.old }
        ensures good { (given : List Given) → AreGood self.old given → IfOk result (λ room. AreGood self.new (for_change volume.0 first count room ∷ given)) }
    {
        MapRoom::for_change(self.alloc, &self.entries, pages_of_range(first, count))
    }

    /// A fresh place is free again.
    pub fn give_back(&mut self, fresh: Fresh)
        requires { Contains self.old.shelf.fresh fresh }
        ensures { self.new ≡ record self.old { shelf = without_fresh self.old.shelf fresh } }
    {
        self.entries.give_back(fresh);
    }

    /// Promises `n` places less.
    pub fn unreserve(&mut self, n: u32)
        requires { n ≤ self.old.shelf.reserved }
        ensures { self.new ≡ record self.old { shelf = with_reserve self.old.shelf (self.old.shelf.reserved - n) } }
    {
        self.entries.unreserve(n);
    }

    /// Whether so many entries more may stand in lists.
    pub fn map_room(&self, n: u32) -> Result<(), MapFull>
        ensures { result ≡ map_room_for self.now.shelf n }
    {
        let limit = self.geometry.map_chunks;
        if n <= limit - self.total {
            Ok(())
        } else {
            Err(MapFull {
                entries: self.total,
                asked: n,
                limit,
            })
        }
    }

    /// How many entries all lists have.
    pub fn total_entries(&self) -> u32
        ensures { result ≡ shelf_entries self.now.shelf }
    {
        self.total
    }

    /// How many chunks a volume has.
    pub fn entries(&self, id: VolumeId) -> u32
        requires { IsSome (volume_in self.now.shelf id.0) }
        ensures { result ≡ size_in self.now.shelf id.0 }
    {
        let at = place_of(&self.volumes, id);
        let row = &self.volumes[at];
        self.entries.len(&row.map)
    }

    /// How many chunks of a volume are allocated.
    pub fn allocated_count(&self, id: VolumeId) -> u32
        requires { IsSome (volume_in self.now.shelf id.0) }
        ensures { result ≡ allocated_of (chunks_in self.now.shelf id.0) }
    {
        let at = place_of(&self.volumes, id);
        let row = &self.volumes[at];
        row.allocated
    }

    /// The entry of a chunk of a volume.
    pub fn entry(&self, id: VolumeId, index: u32) -> Entry
        requires standing { IsSome (volume_in self.now.shelf id.0) }
        requires within { index < size_in self.now.shelf id.0 }
        ensures { slice_get (chunks_in self.now.shelf id.0) index ≡ Some (seen_entry result) }
    {
        let at = place_of(&self.volumes, id);
        let row = &self.volumes[at];
        self.entries.get(&row.map, index)
    }

    /// What a volume is beside its chunks, if it stands.
    pub fn volume(&self, id: VolumeId) -> Option<&Head>
        ensures { option_map (λ head. volume_with id.0 head.now []) result ≡ option_map (λ (v : Volume SeenEntry). record v { chunks = [] }) (volume_in self.now.shelf id.0) }
    {
        match find_place(&self.volumes, id) {
            Some(at) => Some(&self.volumes[at].head),
            None => None,
        }
    }

    /// The number of a volume by its place, in rising order.
    pub fn id_at(&self, i: u32) -> Option<VolumeId>
        ensures number { option_map (λ id. id.0) result ≡ option_map (λ (v : Volume SeenEntry). v.number) (slice_get self.now.shelf.volumes i) }
        ensures rising { rises (map (λ (v : Volume SeenEntry). v.number) self.now.shelf.volumes) ≡ true }
    {
        id_of(&self.volumes, i as usize)
    }
}
