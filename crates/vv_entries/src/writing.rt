//! Writes to a list over pages that other lists may share, with what they do to the counts of places.
ghost use Rattle.std.specs.Prelude.{ℕ, ◌≡◌, ◌≢◌, ◌+◌, ◌-◌, ◌*◌, ◌/◌, ◌%◌, ◌^◌, ◌<◌, ◌≤◌, [], ◌∷◌, ◌++◌, length, replicate, slice_set, slice_index};
ghost use Rattle.vv_map.specs.Pages.{count_at, list_of, pages_for, unused_pages, IsMapOf};
ghost use Rattle.vv_pool.specs.Pool.{IsFresh, count_of, with_count};
ghost use Rattle.vv_entries.specs.Entries.{IsCounted, placed, unmapped};
ghost use Rattle.vv_entries.specs.Changes.{AreCounted, Exchanges, KeepsFresh, TakesUnused, IsAwaiting};

use crate::entry::Entry;
use crate::places::{lower_entry, raise_entry, raise_page};
use std::sync::ledger::Ledger;
use vv_map::{PageRoom, PageStore, PagedMap};
use vv_pool::{Fresh, Pool, Steps};

/// Gives a list a page of its own at a place. The entries of a page that is copied for that name their places once more.
pub(crate) fn own_page<L: Ledger>(
    store: &mut PageStore<Entry>,
    pool: &mut Pool,
    map: &mut PagedMap<Entry>,
    at: u32,
    room: &mut PageRoom<Entry>,
    steps: &mut Steps<L>,
)
    requires counted { IsCounted store.old pool.old }
    requires of { IsMapOf store.old map.old }
    requires within { at < map.old.len }
    requires room { 2 ≤ count_at store.old (slice_index map.old.numbers (at / 64)) → 1 ≤ room.old.pages }
    requires unused { 2 ≤ count_at store.old (slice_index map.old.numbers (at / 64)) → 1 ≤ unused_pages store.old }
    ensures counted { IsCounted store.new pool.new }
    ensures of { IsMapOf store.new map.new }
    ensures list { list_of store.new map.new ≡ list_of store.old map.old }
    ensures len { map.new.len ≡ map.old.len }
    ensures size { length map.new.numbers ≡ length map.old.numbers }
    ensures alone { count_at store.new (slice_index map.new.numbers (at / 64)) ≡ 1 }
    ensures pages { (j : ℕ) → j ≢ at / 64 → slice_index map.new.numbers j ≡ slice_index map.old.numbers j }
    ensures taken { TakesUnused store.old map.old.numbers map.new.numbers }
    ensures others { Exchanges store.old store.new map.old.numbers map.new.numbers }
    ensures pool { KeepsFresh pool.old pool.new }
    ensures counts { (p : ℕ) → count_of pool.old p ≤ count_of pool.new p }
    ensures rise { steps.old ≤ steps.new }
    ensures steps { steps.new ≤ steps.old + 64 }
    ensures numbers { room.new.numbers ≡ room.old.numbers }
    ensures left { room.old.pages ≤ room.new.pages + 1 }
    ensures unused { unused_pages store.old ≤ unused_pages store.new + 1 }
    ensures kept { count_at store.old (slice_index map.old.numbers (at / 64)) < 2 →
        (room.new.pages ≡ room.old.pages) × (unused_pages store.new ≡ unused_pages store.old) }
{
    if store.unshare(map, at, room) {
        raise_page(pool, store.page(map, at), steps);
    }
}

/// Writes an entry of a list, in a page that no other list names. The pool counts the new entry already, and the old one
/// not any more.
pub(crate) fn replace(
    store: &mut PageStore<Entry>,
    pool: &mut Pool,
    map: &mut PagedMap<Entry>,
    at: u32,
    entry: Entry,
)
    requires counted { IsAwaiting store.old pool.old entry }
    requires of { IsMapOf store.old map.old }
    requires within { at < map.old.len }
    requires alone { count_at store.old (slice_index map.old.numbers (at / 64)) ≡ 1 }
    ensures counted { IsCounted store.new pool.new }
    ensures same { map.new ≡ map.old }
    ensures of { IsMapOf store.new map.new }
    ensures list { list_of store.new map.new ≡ slice_set (list_of store.old map.old) at entry }
    ensures counts { store.new.counts ≡ store.old.counts }
    ensures others { Exchanges store.old store.new map.old.numbers map.new.numbers }
    ensures pool { KeepsFresh pool.old pool.new }
{
    let before = store.get(map, at);
    store.set(map, at, entry);
    lower_entry(pool, before);
}

/// The entry of a fresh place, which the pool counts from now on.
pub(crate) fn publish(store: &PageStore<Entry>, pool: &mut Pool, fresh: Fresh, stamp: u64) -> Entry
    requires counted { IsCounted store.now pool.old }
    requires fresh { IsFresh pool.old fresh }
    ensures entry { result ≡ placed fresh stamp }
    ensures counted { IsAwaiting store.now pool.new result }
    ensures pool { pool.new ≡ with_count pool.old fresh 1 }
{
    let _pages = store;
    Entry::placed(pool.publish(fresh), stamp)
}

/// The pool counts an entry more, whose place others name already.
pub(crate) fn await_entry<L: Ledger>(
    store: &PageStore<Entry>,
    pool: &mut Pool,
    entry: Entry,
    steps: &mut Steps<L>,
)
    requires counted { IsCounted store.now pool.old }
    requires named { AreCounted pool.old (entry ∷ []) }
    ensures counted { IsAwaiting store.now pool.new entry }
    ensures pool { KeepsFresh pool.old pool.new }
    ensures rise { steps.old ≤ steps.new }
    ensures steps { steps.new ≤ steps.old + 1 }
{
    let _pages = store;
    raise_entry(pool, entry, steps);
}

/// Gives a list a last page of its own, where that page isn't full.
pub(crate) fn own_last_page<L: Ledger>(
    store: &mut PageStore<Entry>,
    pool: &mut Pool,
    map: &mut PagedMap<Entry>,
    room: &mut PageRoom<Entry>,
    steps: &mut Steps<L>,
)
    requires counted { IsCounted store.old pool.old }
    requires of { IsMapOf store.old map.old }
    requires room { 0 < map.old.len % 64 → 1 ≤ room.old.pages }
    requires unused { 0 < map.old.len % 64 → 1 ≤ unused_pages store.old }
    ensures counted { IsCounted store.new pool.new }
    ensures of { IsMapOf store.new map.new }
    ensures list { list_of store.new map.new ≡ list_of store.old map.old }
    ensures len { map.new.len ≡ map.old.len }
    ensures size { length map.new.numbers ≡ length map.old.numbers }
    ensures alone { 0 < map.old.len % 64 → count_at store.new (slice_index map.new.numbers (map.old.len / 64)) ≡ 1 }
    ensures pages { (j : ℕ) → j ≢ map.old.len / 64 → slice_index map.new.numbers j ≡ slice_index map.old.numbers j }
    ensures taken { TakesUnused store.old map.old.numbers map.new.numbers }
    ensures others { Exchanges store.old store.new map.old.numbers map.new.numbers }
    ensures pool { KeepsFresh pool.old pool.new }
    ensures rise { steps.old ≤ steps.new }
    ensures steps { steps.new ≤ steps.old + 64 }
    ensures numbers { room.new.numbers ≡ room.old.numbers }
    ensures left { 0 < map.old.len % 64 → room.old.pages ≤ room.new.pages + 1 }
    ensures unused { 0 < map.old.len % 64 → unused_pages store.old ≤ unused_pages store.new + 1 }
    ensures kept { map.old.len % 64 ≡ 0 → (room.new.pages ≡ room.old.pages) × (unused_pages store.new ≡ unused_pages store.old) }
{
    let len = store.len(map);
    if len % 64 == 0 {
        return;
    }
    own_page(store, pool, map, len - 1, room, steps);
}

/// Appends unmapped entries until a list has `n`. Its last page is full, or no other list names it.
pub(crate) fn append(
    store: &mut PageStore<Entry>,
    pool: &Pool,
    map: &mut PagedMap<Entry>,
    n: u32,
    room: &mut PageRoom<Entry>,
)
    requires counted { IsCounted store.old pool.now }
    requires of { IsMapOf store.old map.old }
    requires more { map.old.len ≤ n }
    requires alone { 0 < map.old.len % 64 → count_at store.old (slice_index map.old.numbers (map.old.len / 64)) ≡ 1 }
    requires numbers { pages_for n ≤ room.old.numbers }
    requires pages { pages_for n ≤ length map.old.numbers + room.old.pages }
    requires unused { pages_for n ≤ length map.old.numbers + unused_pages store.old }
    ensures counted { IsCounted store.new pool.now }
    ensures of { IsMapOf store.new map.new }
    ensures list { list_of store.new map.new ≡ list_of store.old map.old ++ replicate (n - map.old.len) unmapped }
    ensures len { map.new.len ≡ n }
    ensures pages { (j : ℕ) → j < length map.old.numbers → slice_index map.new.numbers j ≡ slice_index map.old.numbers j }
    ensures taken { TakesUnused store.old map.old.numbers map.new.numbers }
    ensures others { Exchanges store.old store.new map.old.numbers map.new.numbers }
{
    let _counts = pool;
    store.grow(map, n, Entry::unmapped(), room);
}

/// Appends an unmapped entry, with the memory that a list has. Its last page is full, or no other list names it.
pub(crate) fn append_one(
    store: &mut PageStore<Entry>,
    pool: &Pool,
    map: &mut PagedMap<Entry>,
    room: &mut PageRoom<Entry>,
)
    requires counted { IsCounted store.old pool.now }
    requires of { IsMapOf store.old map.old }
    requires few { map.old.len + 1 < 2 ^ 32 }
    requires alone { 0 < map.old.len % 64 → count_at store.old (slice_index map.old.numbers (map.old.len / 64)) ≡ 1 }
    requires memory { pages_for (map.old.len + 1) ≤ map.old.memory }
    requires pages { map.old.len % 64 ≡ 0 → 1 ≤ room.old.pages }
    requires unused { map.old.len % 64 ≡ 0 → 1 ≤ unused_pages store.old }
    ensures counted { IsCounted store.new pool.now }
    ensures of { IsMapOf store.new map.new }
    ensures list { list_of store.new map.new ≡ list_of store.old map.old ++ unmapped ∷ [] }
    ensures len { map.new.len ≡ map.old.len + 1 }
    ensures memory { map.new.memory ≡ map.old.memory }
    ensures taken { TakesUnused store.old map.old.numbers map.new.numbers }
    ensures others { Exchanges store.old store.new map.old.numbers map.new.numbers }
    ensures room { room.new.pages + pages_for (map.old.len + 1) ≡ room.old.pages + length map.old.numbers }
{
    let _counts = pool;
    store.append(map, Entry::unmapped(), room);
}
