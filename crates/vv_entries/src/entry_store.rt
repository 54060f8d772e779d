//! Lists of entries over counted pages, and the pool of their places.
ghost use Rattle.std.specs.Prelude.{ℕ, ◌≡◌, ◌≢◌, ◌+◌, ◌-◌, ◌*◌, ◌/◌, ◌%◌, ◌^◌, ◌<◌, ◌≤◌, ◌↔◌, [], ◌∷◌, ◌++◌, length, replicate, take, drop, slice_get, slice_set, slice_index, IfOk, OnOk, OnErr, IsTrue};
ghost use Rattle.std.specs.Bool.{OnTrue, OnFalse};
ghost use Rattle.vv_map.specs.Pages.{count_at, list_of, pages_for, unused_pages, IsMapOf};
ghost use Rattle.vv_pool.specs.Pool.{IsFresh, IsFree, count_of, free_of, lowest_places, room_for, with_fresh, with_count, with_reserved};
ghost use Rattle.vv_pool.specs.FreshPlaces.{appended};
ghost use Rattle.vv_entries.specs.Entries.{EntriesState, unmapped, placed, empty_entries, with_pool, IsCounted, named_in};
ghost use Rattle.vv_entries.specs.Changes.{AreCounted, Exchanges, KeepsFresh, TakesUnused, IsAwaiting};

use crate::entry::Entry;
use crate::places::lower_ended;
use crate::writing::{append, append_one, await_entry, own_last_page, own_page, publish, replace};
use std::alloc::Global;
use std::marker::Model;
use std::sync::ledger::Ledger;
use vv_map::{PageRoom, PageStore, PagedMap};
use vv_pool::{Fresh, FreshList, Full, Pool, Steps};
use vv_units::{NoMemory, Place};

/// Counted pages of entries, and the pool whose places they name: a place's count is the number of entries of all pages
/// that name it, those of a shared page counted once.
#[derive(Drop)]
pub struct EntryStore {
    store: PageStore<Entry>,
    pool: Pool,
}

impl Model for EntryStore {
    ghost use Rattle.vv_entries.specs.Entries.{EntriesState, IsCounted};

    ghost Value = { EntriesState };

    ghost view = { λ a. record { store = a.store; pool = a.pool } };

    ghost invariant = { λ a. IsCounted a.store a.pool };
}

impl EntryStore {
    /// No list yet: a pool of free places, and so many unused pages, of which it takes the places in the store.
    pub fn new(alloc: Global, chunks: u32, pages: u32) -> Result<EntryStore, NoMemory>
        requires { pages ≤ 2 ^ 20 }
        ensures { IfOk result (λ entries. entries ≡ empty_entries chunks pages) }
    {
        let pool = Pool::new(alloc, chunks)?;
        let mut store = PageStore::new(alloc);
        store.extend(pages as usize)?;
        Ok(EntryStore { store, pool })
    }

    /// Takes memory for so many pages, and for the numbers of a list of as many.
    pub fn room(&self, pages: u32) -> Result<PageRoom<Entry>, NoMemory>
        ensures { IfOk result (λ room. room ≡ record { pages = pages; numbers = pages }) }
    {
        self.store.room(pages)
    }

    /// The pool. Each place's count is the number of the entries of all pages that name it.
    pub fn pool(&self) -> &Pool
        ensures pool { result.now ≡ self.now.pool }
        ensures counted { IsCounted self.now.store self.now.pool }
    {
        &self.pool
    }

    /// A list of `n` unmapped entries, on pages of its own.
    pub fn make(&mut self, n: u32, room: PageRoom<Entry>) -> PagedMap<Entry>
        requires pages { pages_for n ≤ room.pages }
        requires numbers { pages_for n ≤ room.numbers }
        requires unused { pages_for n ≤ unused_pages self.old.store }
        ensures len { result.len ≡ n }
        ensures memory { result.memory ≡ room.numbers }
        ensures list { list_of self.new.store result ≡ replicate n unmapped }
        ensures of { IsMapOf self.new.store result }
        ensures others { Exchanges self.old.store self.new.store [] result.numbers }
        ensures taken { TakesUnused self.old.store [] result.numbers }
        ensures pool { self.new.pool ≡ self.old.pool }
    {
        self.store.make(n, Entry::unmapped(), room)
    }

    /// An equal list, over the same pages. Each page is one step, and no entry is copied.
    pub fn share<L: Ledger>(
        &mut self,
        map: &PagedMap<Entry>,
        room: PageRoom<Entry>,
        steps: &mut Steps<L>,
    ) -> PagedMap<Entry>
        requires of { IsMapOf self.old.store map.now }
        requires room { pages_for map.now.len ≤ room.numbers }
        requires small { (i : ℕ) → i < length map.now.numbers → count_at self.old.store (slice_index map.now.numbers i) < 2 ^ 32 - 1 }
        ensures numbers { result.numbers ≡ map.now.numbers }
        ensures len { result.len ≡ map.now.len }
        ensures memory { result.memory ≡ room.numbers }
        ensures list { list_of self.new.store result ≡ list_of self.old.store map.now }
        ensures of { IsMapOf self.new.store result }
        ensures others { Exchanges self.old.store self.new.store [] map.now.numbers }
        ensures pool { self.new.pool ≡ self.old.pool }
        ensures steps { steps.new ≡ steps.old + pages_for map.now.len }
    {
        self.store.share(map, room, steps)
    }

    /// Ends a list. A place that no entry of a page names any more is free.
    pub fn release(&mut self, map: PagedMap<Entry>)
        requires { IsMapOf self.old.store map }
        ensures others { Exchanges self.old.store self.new.store map.numbers [] }
        ensures pool { KeepsFresh self.old.pool self.new.pool }
    {
        let ended = self.store.release(map);
        lower_ended(&mut self.pool, ended);
    }

    /// How many entries a list has.
    pub fn len(&self, map: &PagedMap<Entry>) -> u32
        ensures { result ≡ map.now.len }
    {
        self.store.len(map)
    }

    /// The entry at a place of a list.
    pub fn get(&self, map: &PagedMap<Entry>, at: u32) -> Entry
        requires of { IsMapOf self.now.store map.now }
        requires within { at < map.now.len }
        ensures { slice_get (list_of self.now.store map.now) at ≡ Some result }
    {
        self.store.get(map, at)
    }

    /// The entries of a list's page at a place.
    pub fn page<'a>(&'a self, map: &PagedMap<Entry>, at: u32) -> &'a [Entry]
        requires of { IsMapOf self.now.store map.now }
        requires within { 64 * at < map.now.len }
        ensures { result.now ≡ take 64 (drop (64 * at) (list_of self.now.store map.now)) }
    {
        let _entries = self.store.len(map);
        self.store.page(map, 64 * at)
    }

    /// Whether two lists name the same page at a place, so that they have equal entries there.
    pub fn same_page(&self, map: &PagedMap<Entry>, other: &PagedMap<Entry>, at: u32) -> bool
        requires of { IsMapOf self.now.store map.now }
        requires of_other { IsMapOf self.now.store other.now }
        ensures page { IsTrue result ↔ ((at < length map.now.numbers) × (slice_get other.now.numbers at ≡ slice_get map.now.numbers at)) }
        ensures entries { IsTrue result → take 64 (drop (64 * at) (list_of self.now.store map.now)) ≡ take 64 (drop (64 * at) (list_of self.now.store other.now)) }
    {
        match map.number_at(at) {
            Some(number) => names_at(other, at, number),
            None => false,
        }
    }

    /// Puts a fresh place into a list, in a page of its own. The place that stood there is named once less.
    pub fn put_fresh<L: Ledger>(
        &mut self,
        map: &mut PagedMap<Entry>,
        at: u32,
        fresh: Fresh,
        stamp: u64,
        room: &mut PageRoom<Entry>,
        steps: &mut Steps<L>,
    )
        requires of { IsMapOf self.old.store map.old }
        requires within { at < map.old.len }
        requires fresh { IsFresh self.old.pool fresh }
        requires room { 2 ≤ count_at self.old.store (slice_index map.old.numbers (at / 64)) → 1 ≤ room.old.pages }
        requires unused { 2 ≤ count_at self.old.store (slice_index map.old.numbers (at / 64)) → 1 ≤ unused_pages self.old.store }
        ensures list { list_of self.new.store map.new ≡ slice_set (list_of self.old.store map.old) at (placed fresh stamp) }
        ensures len { map.new.len ≡ map.old.len }
        ensures of { IsMapOf self.new.store map.new }
        ensures others { Exchanges self.old.store self.new.store map.old.numbers map.new.numbers }
        ensures taken { TakesUnused self.old.store map.old.numbers map.new.numbers }
        ensures pool { KeepsFresh (with_count self.old.pool fresh 1) self.new.pool }
        ensures alone { count_at self.new.store (slice_index map.new.numbers (at / 64)) ≡ 1 }
        ensures pages { (j : ℕ) → j ≢ at / 64 → slice_index map.new.numbers j ≡ slice_index map.old.numbers j }
        ensures rise { steps.old ≤ steps.new }
        ensures steps { steps.new ≤ steps.old + 64 }
        ensures left { room.old.pages ≤ room.new.pages + 1 }
        ensures kept { count_at self.old.store (slice_index map.old.numbers (at / 64)) < 2 → room.new.pages ≡ room.old.pages }
    {
        own_page(&mut self.store, &mut self.pool, map, at, room, steps);
        let entry = publish(&self.store, &mut self.pool, fresh, stamp);
        replace(&mut self.store, &mut self.pool, map, at, entry);
    }

    /// Unmaps an entry of a list, in a page of its own. The place that stood there is named once less.
    pub fn unmap<L: Ledger>(
        &mut self,
        map: &mut PagedMap<Entry>,
        at: u32,
        room: &mut PageRoom<Entry>,
        steps: &mut Steps<L>,
    )
        requires of { IsMapOf self.old.store map.old }
        requires within { at < map.old.len }
        requires room { 2 ≤ count_at self.old.store (slice_index map.old.numbers (at / 64)) → 1 ≤ room.old.pages }
        requires unused { 2 ≤ count_at self.old.store (slice_index map.old.numbers (at / 64)) → 1 ≤ unused_pages self.old.store }
        ensures list { list_of self.new.store map.new ≡ slice_set (list_of self.old.store map.old) at unmapped }
        ensures len { map.new.len ≡ map.old.len }
        ensures of { IsMapOf self.new.store map.new }
        ensures others { Exchanges self.old.store self.new.store map.old.numbers map.new.numbers }
        ensures taken { TakesUnused self.old.store map.old.numbers map.new.numbers }
        ensures pool { KeepsFresh self.old.pool self.new.pool }
        ensures alone { count_at self.new.store (slice_index map.new.numbers (at / 64)) ≡ 1 }
        ensures pages { (j : ℕ) → j ≢ at / 64 → slice_index map.new.numbers j ≡ slice_index map.old.numbers j }
        ensures rise { steps.old ≤ steps.new }
        ensures steps { steps.new ≤ steps.old + 64 }
        ensures left { room.old.pages ≤ room.new.pages + 1 }
        ensures kept { count_at self.old.store (slice_index map.old.numbers (at / 64)) < 2 → room.new.pages ≡ room.old.pages }
    {
        own_page(&mut self.store, &mut self.pool, map, at, room, steps);
        replace(&mut self.store, &mut self.pool, map, at, Entry::unmapped());
    }

    /// Puts an entry into a list, in a page of its own, whose place other entries name already. The place that stood there
    /// is named once less.
    pub fn put_shared<L: Ledger>(
        &mut self,
        map: &mut PagedMap<Entry>,
        at: u32,
        entry: Entry,
        room: &mut PageRoom<Entry>,
        steps: &mut Steps<L>,
    )
        requires of { IsMapOf self.old.store map.old }
        requires within { at < map.old.len }
        requires counted { AreCounted self.old.pool (entry ∷ []) }
        requires room { 2 ≤ count_at self.old.store (slice_index map.old.numbers (at / 64)) → 1 ≤ room.old.pages }
        requires unused { 2 ≤ count_at self.old.store (slice_index map.old.numbers (at / 64)) → 1 ≤ unused_pages self.old.store }
        ensures list { list_of self.new.store map.new ≡ slice_set (list_of self.old.store map.old) at entry }
        ensures len { map.new.len ≡ map.old.len }
        ensures of { IsMapOf self.new.store map.new }
        ensures others { Exchanges self.old.store self.new.store map.old.numbers map.new.numbers }
        ensures taken { TakesUnused self.old.store map.old.numbers map.new.numbers }
        ensures pool { KeepsFresh self.old.pool self.new.pool }
        ensures alone { count_at self.new.store (slice_index map.new.numbers (at / 64)) ≡ 1 }
        ensures pages { (j : ℕ) → j ≢ at / 64 → slice_index map.new.numbers j ≡ slice_index map.old.numbers j }
        ensures rise { steps.old ≤ steps.new }
        ensures steps { steps.new ≤ steps.old + 65 }
        ensures left { room.old.pages ≤ room.new.pages + 1 }
        ensures kept { count_at self.old.store (slice_index map.old.numbers (at / 64)) < 2 → room.new.pages ≡ room.old.pages }
    {
        own_page(&mut self.store, &mut self.pool, map, at, room, steps);
        await_entry(&self.store, &mut self.pool, entry, steps);
        replace(&mut self.store, &mut self.pool, map, at, entry);
    }

    /// Appends unmapped entries until a list has `n`. Where its last page isn't full, that becomes its own before.
    pub fn grow<L: Ledger>(
        &mut self,
        map: &mut PagedMap<Entry>,
        n: u32,
        room: &mut PageRoom<Entry>,
        steps: &mut Steps<L>,
    )
        requires of { IsMapOf self.old.store map.old }
        requires more { map.old.len ≤ n }
        requires numbers { pages_for n ≤ room.old.numbers }
        requires pages { pages_for n + 1 ≤ length map.old.numbers + room.old.pages }
        requires unused { pages_for n ≤ length map.old.numbers + unused_pages self.old.store }
        requires unused_copy { 0 < map.old.len % 64 → map.old.len < n → pages_for n + 1 ≤ length map.old.numbers + unused_pages self.old.store }
        ensures list { list_of self.new.store map.new ≡ list_of self.old.store map.old ++ replicate (n - map.old.len) unmapped }
        ensures len { map.new.len ≡ n }
        ensures pages { (j : ℕ) → j < length map.old.numbers → j ≢ map.old.len / 64 → slice_index map.new.numbers j ≡ slice_index map.old.numbers j }
        ensures same { map.old.len ≡ n → map.new ≡ map.old }
        ensures alone { 0 < map.old.len % 64 → map.old.len < n → count_at self.new.store (slice_index map.new.numbers (map.old.len / 64)) ≡ 1 }
        ensures of { IsMapOf self.new.store map.new }
        ensures others { Exchanges self.old.store self.new.store map.old.numbers map.new.numbers }
        ensures taken { TakesUnused self.old.store map.old.numbers map.new.numbers }
        ensures pool { KeepsFresh self.old.pool self.new.pool }
        ensures rise { steps.old ≤ steps.new }
        ensures steps { steps.new ≤ steps.old + 64 }
    {
        if n == self.store.len(map) {
            return;
        }
        own_last_page(&mut self.store, &mut self.pool, map, room, steps);
        append(&mut self.store, &self.pool, map, n, room);
    }

    /// An empty list, with the room's memory for the numbers of pages.
    pub fn begin(&self, room: &mut PageRoom<Entry>) -> PagedMap<Entry>
        ensures empty { result ≡ record { numbers = []; len = 0; memory = room.old.numbers } }
        ensures room { room.new.pages ≡ room.old.pages }
    {
        self.store.begin(room)
    }

    /// Appends an unmapped entry, with the memory that the list has for the numbers of its pages. Its last page is full, or
    /// no other list names it. A page of the room is taken only where a new one begins.
    pub fn append_unmapped(&mut self, map: &mut PagedMap<Entry>, room: &mut PageRoom<Entry>)
        requires of { IsMapOf self.old.store map.old }
        requires few { map.old.len + 1 < 2 ^ 32 }
        requires alone { 0 < map.old.len % 64 → count_at self.old.store (slice_index map.old.numbers (map.old.len / 64)) ≡ 1 }
        requires memory { pages_for (map.old.len + 1) ≤ map.old.memory }
        requires pages { map.old.len % 64 ≡ 0 → 1 ≤ room.old.pages }
        requires unused { map.old.len % 64 ≡ 0 → 1 ≤ unused_pages self.old.store }
        ensures list { list_of self.new.store map.new ≡ list_of self.old.store map.old ++ unmapped ∷ [] }
        ensures len { map.new.len ≡ map.old.len + 1 }
        ensures memory { map.new.memory ≡ map.old.memory }
        ensures of { IsMapOf self.new.store map.new }
        ensures others { Exchanges self.old.store self.new.store map.old.numbers map.new.numbers }
        ensures taken { TakesUnused self.old.store map.old.numbers map.new.numbers }
        ensures pool { self.new.pool ≡ self.old.pool }
        ensures room { room.new.pages + pages_for (map.old.len + 1) ≡ room.old.pages + length map.old.numbers }
    {
        append_one(&mut self.store, &self.pool, map, room);
    }

    /// Puts a fresh place into a list, in a page that no other list names. The place that stood there is named once less.
    pub fn fill_fresh(&mut self, map: &mut PagedMap<Entry>, at: u32, fresh: Fresh, stamp: u64)
        requires of { IsMapOf self.old.store map.old }
        requires within { at < map.old.len }
        requires alone { count_at self.old.store (slice_index map.old.numbers (at / 64)) ≡ 1 }
        requires fresh { IsFresh self.old.pool fresh }
        ensures list { list_of self.new.store map.new ≡ slice_set (list_of self.old.store map.old) at (placed fresh stamp) }
        ensures same { map.new ≡ map.old }
        ensures of { IsMapOf self.new.store map.new }
        ensures others { Exchanges self.old.store self.new.store map.old.numbers map.new.numbers }
        ensures pool { KeepsFresh (with_count self.old.pool fresh 1) self.new.pool }
    {
        let entry = publish(&self.store, &mut self.pool, fresh, stamp);
        replace(&mut self.store, &mut self.pool, map, at, entry);
    }

    /// Puts an entry into a list, in a page that no other list names, whose place other entries name already. The place that
    /// stood there is named once less.
    pub fn fill_shared<L: Ledger>(
        &mut self,
        map: &mut PagedMap<Entry>,
        at: u32,
        entry: Entry,
        steps: &mut Steps<L>,
    )
        requires of { IsMapOf self.old.store map.old }
        requires within { at < map.old.len }
        requires alone { count_at self.old.store (slice_index map.old.numbers (at / 64)) ≡ 1 }
        requires counted { AreCounted self.old.pool (entry ∷ []) }
        ensures list { list_of self.new.store map.new ≡ slice_set (list_of self.old.store map.old) at entry }
        ensures same { map.new ≡ map.old }
        ensures of { IsMapOf self.new.store map.new }
        ensures others { Exchanges self.old.store self.new.store map.old.numbers map.new.numbers }
        ensures pool { KeepsFresh self.old.pool self.new.pool }
        ensures rise { steps.old ≤ steps.new }
        ensures steps { steps.new ≤ steps.old + 1 }
    {
        await_entry(&self.store, &mut self.pool, entry, steps);
        replace(&mut self.store, &mut self.pool, map, at, entry);
    }

    /// Takes the lowest `n` places, and adds them to `out` in rising order.
    pub fn take(&mut self, n: u32, out: &mut FreshList) -> Result<(), Full>
        requires { length out.old.places + n ≤ out.old.capacity }
        ensures room { result ≡ room_for self.old.pool n }
        ensures taken { OnOk result (self.new ≡ with_pool self.old (with_fresh self.old.pool (lowest_places self.old.pool n))) }
        ensures count { OnOk result (length (lowest_places self.old.pool n) ≡ n) }
        ensures out { OnOk result (out.new ≡ appended out.old (lowest_places self.old.pool n)) }
        ensures err { OnErr result (self.new ≡ self.old) }
        ensures err_out { OnErr result (out.new ≡ out.old) }
    {
        self.pool.take(n, out)
    }

    /// Takes the lowest `n` places in place of as many reserved ones.
    pub fn take_reserved(&mut self, n: u32, out: &mut FreshList)
        requires reserved { n ≤ self.old.pool.reserved }
        requires room { length out.old.places + n ≤ out.old.capacity }
        ensures taken { self.new ≡ with_pool self.old
            (with_reserved (with_fresh self.old.pool (lowest_places self.old.pool n)) (self.old.pool.reserved - n)) }
        ensures count { length (lowest_places self.old.pool n) ≡ n }
        ensures out { out.new ≡ appended out.old (lowest_places self.old.pool n) }
    {
        self.pool.take_reserved(n, out);
    }

    /// Takes this place, if it is one of the pool's and neither named nor fresh.
    pub fn take_at(&mut self, place: Place, out: &mut FreshList) -> bool
        requires some { 1 ≤ free_of self.old.pool }
        requires room { length out.old.places + 1 ≤ out.old.capacity }
        ensures free { IsTrue result ↔ IsFree self.old.pool place.0 }
        ensures taken { OnTrue result (self.new ≡ with_pool self.old (with_fresh self.old.pool (place.0 ∷ []))) }
        ensures out { OnTrue result (out.new ≡ appended out.old (place.0 ∷ [])) }
        ensures refused { OnFalse result (self.new ≡ self.old) }
        ensures refused_out { OnFalse result (out.new ≡ out.old) }
    {
        self.pool.take_at(place, out)
    }

    /// A fresh place is free again.
    pub fn give_back(&mut self, fresh: Fresh)
        requires { IsFresh self.old.pool fresh }
        ensures { self.new ≡ with_pool self.old (with_count self.old.pool fresh 0) }
    {
        self.pool.give_back(fresh);
    }

    /// Promises `n` more of the free places.
    pub fn reserve(&mut self, n: u32) -> Result<(), Full>
        ensures room { result ≡ room_for self.old.pool n }
        ensures ok { OnOk result (self.new ≡ with_pool self.old (with_reserved self.old.pool (self.old.pool.reserved + n))) }
        ensures err { OnErr result (self.new ≡ self.old) }
    {
        self.pool.reserve(n)
    }

    /// Promises `n` places less.
    pub fn unreserve(&mut self, n: u32)
        requires { n ≤ self.old.pool.reserved }
        ensures reserved { self.new ≡ with_pool self.old (with_reserved self.old.pool (self.old.pool.reserved - n)) }
        ensures free { free_of self.new.pool ≡ free_of self.old.pool + n }
    {
        self.pool.unreserve(n);
    }
}

/// Whether a list names this page at a place.
fn names_at(map: &PagedMap<Entry>, at: u32, number: u32) -> bool
    ensures { IsTrue result ↔ (slice_get map.now.numbers at ≡ Some number) }
{
    match map.number_at(at) {
        Some(other) => other == number,
        None => false,
    }
}
