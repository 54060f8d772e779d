//! Counted pages, of which lists are made.
ghost use Rattle.std.specs.Prelude.{◌≡◌, ◌+◌, ◌-◌, ◌*◌, ◌/◌, ◌%◌, ◌^◌, ◌<◌, ◌≤◌, ◌==◌, ℕ, [], ◌∷◌, ◌++◌, ◌≢◌, length, min, replicate, slice_index, slice_get, slice_set, vec_len, vec_capacity, IfOk, IfSome, IfNone, OnOk, OnErr, IsTrue, ◌↔◌, if◌then◌else◌};
ghost use Rattle.std.specs.Bool.{OnTrue, OnFalse};
ghost use Rattle.vv_map.specs.Pages.{StoreState, page_at, count_at, unused_pages, list_of, pages_for, with_page, with_entries, with_count, extended, last_filled, raised, lowered, all_raised, all_lowered, ending_entries, IsMapOf, Unshares, Appends};

use crate::ended_pages::EndedPages;
use crate::page::{Blank, PAGE, Page};
use crate::page_room::{ListMemory, PageRoom};
use crate::paged_map::PagedMap;
use std::alloc::Global;
use std::marker::Model;
use std::sync::ledger::Ledger;
use vv_units::{NoMemory, Steps};

/// Pages of up to 64 entries, and how many lists name each.
#[derive(Drop)]
pub struct PageStore<E> {
    alloc: Global,
    pages: Vec<Page<E>>,
    counts: Vec<u32>,
    /// The numbers of the pages that no list names.
    unused: Vec<u32>,
}

impl<E> Model for PageStore<E> {
    ghost use Rattle.std.specs.Prelude.{vec_capacity};
    ghost use Rattle.vv_map.specs.Pages.{StoreState, IsStore};

    ghost Value = { StoreState E };

    ghost view = { λ a. record { pages = a.pages.items; counts = a.counts.items } };

    ghost invariant = { λ a. IsStore a.pages.items a.counts.items a.unused.items (vec_capacity a.unused) };
}

impl<E: Copy> PageStore<E> {
    /// A store without a page. It takes no memory.
    pub fn new(alloc: Global) -> PageStore<E>
        ensures { result ≡ record { pages = []; counts = [] } }
    {
        PageStore {
            alloc,
            pages: Vec::new(alloc),
            counts: Vec::new(alloc),
            unused: Vec::new(alloc),
        }
    }

    /// Takes memory for so many pages, for the numbers of a list of as many, and for their places in the store.
    pub fn reserve(&mut self, pages: u32) -> Result<PageRoom<E>, NoMemory>
        ensures room { IfOk result (λ room. room ≡ record { pages = pages; numbers = pages }) }
        ensures unused { OnOk result (self.new ≡ extended self.old (pages - unused_pages self.old)) }
        ensures enough { OnOk result (pages ≤ unused_pages self.new) }
        ensures err { OnErr result (self.new ≡ self.old) }
    {
        let Ok(room) = PageRoom::new(self.alloc, pages) else {
            return Err(NoMemory);
        };
        let more = (pages as usize).saturating_sub(self.unused.len());
        match self.extend(more) {
            Ok(()) => Ok(room),
            Err(NoMemory) => Err(NoMemory),
        }
    }

    /// Takes memory for so many pages, and for the numbers of a list of as many. Their places in the store are not taken.
    pub fn room(&self, pages: u32) -> Result<PageRoom<E>, NoMemory>
        ensures { IfOk result (λ room. room ≡ record { pages = pages; numbers = pages }) }
    {
        match PageRoom::new(self.alloc, pages) {
            Ok(room) => Ok(room),
            Err(_) => Err(NoMemory),
        }
    }

    /// Adds unused pages.
    pub fn extend(&mut self, more: usize) -> Result<(), NoMemory>
        requires { more < 2 ^ 32 }
        ensures ok { OnOk result (self.new ≡ extended self.old more) }
        ensures unused { OnOk result (unused_pages self.new ≡ unused_pages self.old + more) }
        ensures err { OnErr result (self.new ≡ self.old) }
    {
        let old = self.pages.len();
        let all = old + more;
        if all > u32::MAX as usize {
            return Err(NoMemory);
        }
        if self.pages.reserve(more).is_err() {
            return Err(NoMemory);
        }
        if self.counts.reserve(more).is_err() {
            return Err(NoMemory);
        }
        if self.unused.reserve(all).is_err() {
            return Err(NoMemory);
        }
        for number in old..all {
            self.pages.push_reserved(Page::unused(self.alloc));
            self.counts.push_reserved(0);
            self.unused.push_reserved(number as u32);
        }
        Ok(())
    }

    /// A list of `n` equal entries, on pages of its own.
    pub fn make(&mut self, n: u32, entry: E, room: PageRoom<E>) -> PagedMap<E>
        requires pages { pages_for n ≤ room.pages }
        requires numbers { pages_for n ≤ room.numbers }
        requires unused { pages_for n ≤ unused_pages self.old }
        ensures len { result.len ≡ n }
        ensures memory { result.memory ≡ room.numbers }
        ensures list { list_of self.new result ≡ replicate n entry }
        ensures of { IsMapOf self.new result }
        ensures added { Appends self.old self.new [] result.numbers n entry }
    {
        let mut room = room;
        let ListMemory { mut numbers, ended } = room.take_list(self.alloc);
        self.append_pages(&mut numbers, n, entry, &mut room);
        PagedMap {
            numbers,
            len: n,
            ended,
        }
    }

    /// Appends `entry` until the list has `n` entries. Its last page is full, or no other list names it.
    pub fn grow(&mut self, map: &mut PagedMap<E>, n: u32, entry: E, room: &mut PageRoom<E>)
        requires of { IsMapOf self.old map.old }
        requires more { map.old.len ≤ n }
        requires alone { 0 < map.old.len % 64 → count_at self.old (slice_index map.old.numbers (map.old.len / 64)) ≡ 1 }
        requires numbers { pages_for n ≤ room.old.numbers }
        requires pages { pages_for n ≤ length map.old.numbers + room.old.pages }
        requires unused { pages_for n ≤ length map.old.numbers + unused_pages self.old }
        ensures len { map.new.len ≡ n }
        ensures memory { map.new.memory ≡ room.old.numbers }
        ensures list { list_of self.new map.new ≡ list_of self.old map.old ++ replicate (n - map.old.len) entry }
        ensures of { IsMapOf self.new map.new }
        ensures added { Appends (last_filled self.old map.old n entry) self.new map.old.numbers map.new.numbers n entry }
        ensures room { room.new.pages + pages_for n ≡ room.old.pages + length map.old.numbers }
    {
        self.fill_last(map, n, entry);
        let ListMemory { numbers, ended } = room.take_list(self.alloc);
        let mut numbers = with_numbers(numbers, &map.numbers);
        self.append_pages(&mut numbers, n, entry, room);
        map.numbers = numbers;
        map.ended = ended;
        map.len = n;
    }

    /// An empty list, with the room's memory for the numbers of pages.
    pub fn begin(&self, room: &mut PageRoom<E>) -> PagedMap<E>
        ensures empty { result ≡ record { numbers = []; len = 0; memory = room.old.numbers } }
        ensures room { room.new.pages ≡ room.old.pages }
    {
        let ListMemory { numbers, ended } = room.take_list(self.alloc);
        PagedMap {
            numbers,
            len: 0,
            ended,
        }
    }

    /// Appends one entry, with the memory that the list has for the numbers of its pages. Its last page is full, or no other
    /// list names it. A page of the room is taken only where a new one begins.
    pub fn append(&mut self, map: &mut PagedMap<E>, entry: E, room: &mut PageRoom<E>)
        requires of { IsMapOf self.old map.old }
        requires few { map.old.len + 1 < 2 ^ 32 }
        requires alone { 0 < map.old.len % 64 → count_at self.old (slice_index map.old.numbers (map.old.len / 64)) ≡ 1 }
        requires memory { pages_for (map.old.len + 1) ≤ map.old.memory }
        requires pages { map.old.len % 64 ≡ 0 → 1 ≤ room.old.pages }
        requires unused { map.old.len % 64 ≡ 0 → 1 ≤ unused_pages self.old }
        ensures len { map.new.len ≡ map.old.len + 1 }
        ensures memory { map.new.memory ≡ map.old.memory }
        ensures list { list_of self.new map.new ≡ list_of self.old map.old ++ entry ∷ [] }
        ensures of { IsMapOf self.new map.new }
        ensures added { Appends (last_filled self.old map.old (map.old.len + 1) entry) self.new map.old.numbers map.new.numbers (map.old.len + 1) entry }
        ensures room { room.new.pages + pages_for (map.old.len + 1) ≡ room.old.pages + length map.old.numbers }
    {
        let n = map.len + 1;
        self.fill_last(map, n, entry);
        self.append_pages(&mut map.numbers, n, entry, room);
        map.len = n;
    }

    /// Fills the last page of a list up, as far as a list of `n` entries goes.
    fn fill_last(&mut self, map: &PagedMap<E>, n: u32, entry: E)
        requires of { IsMapOf self.old map.now }
        requires more { map.now.len ≤ n }
        ensures filled { self.new ≡ last_filled self.old map.now n entry }
        ensures page { map.now.len % 64 ≢ 0 → slice_index map.now.numbers (map.now.len / 64) < length self.old.pages }
    {
        let used = map.len as usize % PAGE;
        if used == 0 {
            return;
        }
        let place = map.len as usize / PAGE;
        let size = (n as usize - PAGE * place).min(PAGE);
        self.grow_page(map.numbers[place], size, entry);
    }

    /// Appends `entry` until a page has `size` entries.
    fn grow_page(&mut self, number: u32, size: usize, entry: E)
        requires number { number < length self.old.counts }
        requires some { 0 < length (page_at self.old number) }
        requires more { length (page_at self.old number) ≤ size }
        requires within { size ≤ 64 }
        ensures page { number < length self.old.pages }
        ensures grown { self.new ≡ with_entries self.old number
            (page_at self.old number ++ replicate (size - length (page_at self.old number)) entry) }
    {
        let page = &mut self.pages[number as usize];
        page.grow(size, entry);
    }

    /// Adds the pages that a list lacks for `n` entries, each with equal entries.
    fn append_pages(&mut self, numbers: &mut Vec<u32>, n: u32, entry: E, room: &mut PageRoom<E>)
        requires fewer { vec_len numbers.old ≤ pages_for n }
        requires memory { pages_for n ≤ vec_capacity numbers.old }
        requires pages { pages_for n ≤ vec_len numbers.old + room.old.pages }
        requires unused { pages_for n ≤ vec_len numbers.old + unused_pages self.old }
        ensures added { Appends self.old self.new numbers.old.items numbers.new.items n entry }
        ensures size { length numbers.new.items ≡ pages_for n }
        ensures memory { vec_capacity numbers.new ≡ vec_capacity numbers.old }
        ensures left { room.new.pages + pages_for n ≡ room.old.pages + vec_len numbers.old }
    {
        let pages = (n as usize).div_ceil(PAGE);
        for i in numbers.len()..pages {
            let size = (n as usize - PAGE * i).min(PAGE);
            let number = self.place(room.take_blank().filled(size, entry));
            numbers.push_reserved(number);
        }
    }

    /// Takes an unused page for these entries, which one list is to name.
    fn place(&mut self, page: Page<E>) -> u32
        requires { 1 ≤ unused_pages self.old }
        ensures within { result < length self.old.counts }
        ensures page { result < length self.old.pages }
        ensures unused { count_at self.old result ≡ 0 }
        ensures placed { self.new ≡ with_page self.old result page 1 }
        ensures left { unused_pages self.new + 1 ≡ unused_pages self.old }
    {
        match self.unused.pop() {
            Some(number) => {
                self.pages[number as usize] = page;
                self.counts[number as usize] = 1;
                number
            }
            None => unreachable!(),
        }
    }

    /// One list more names the page.
    fn raise(&mut self, number: u32)
        requires named { 1 ≤ count_at self.old number }
        requires small { count_at self.old number < 2 ^ 32 - 1 }
        ensures { self.new ≡ raised self.old number }
    {
        self.counts[number as usize] += 1;
    }

    /// One list less names the page. It is handed out where that was the last.
    fn lower(&mut self, number: u32) -> Option<Page<E>>
        requires { 1 ≤ count_at self.old number }
        ensures lowered { self.new ≡ lowered self.old number }
        ensures some { IfSome result (λ page. (count_at self.old number ≡ 1) × (page ≡ page_at self.old number)) }
        ensures none { IfNone result (2 ≤ count_at self.old number) }
    {
        let at = number as usize;
        self.counts[at] -= 1;
        if self.counts[at] > 0 {
            return None;
        }
        self.unused.push_reserved(number);
        let page = std::mem::replace(&mut self.pages[at], Page::unused(self.alloc));
        Some(page)
    }

    /// The entry at a place of a list.
    pub fn get(&self, map: &PagedMap<E>, at: u32) -> E
        requires of { IsMapOf self.now map.now }
        requires within { at < map.now.len }
        ensures { slice_get (list_of self.now map.now) at ≡ Some result }
    {
        let at = at as usize;
        let number = map.numbers[at / PAGE];
        self.pages[number as usize].get(at % PAGE)
    }

    /// The entries of the page that has a place of a list.
    pub fn page<'a>(&'a self, map: &PagedMap<E>, at: u32) -> &'a [E]
        requires of { IsMapOf self.now map.now }
        requires within { at < map.now.len }
        ensures { result.now ≡ page_at self.now (slice_index map.now.numbers (at / 64)) }
    {
        let number = map.numbers[at as usize / PAGE];
        self.pages[number as usize].entries()
    }

    /// How many entries a list has.
    pub fn len(&self, map: &PagedMap<E>) -> u32
        ensures { result ≡ map.now.len }
    {
        map.len
    }

    /// Writes an entry of a list, in a page that no other list names.
    pub fn set(&mut self, map: &mut PagedMap<E>, at: u32, entry: E)
        requires of { IsMapOf self.old map.old }
        requires within { at < map.old.len }
        requires alone { count_at self.old (slice_index map.old.numbers (at / 64)) ≡ 1 }
        ensures written { let number = slice_index map.old.numbers (at / 64) in
            self.new ≡ with_entries self.old number (slice_set (page_at self.old number) (at % 64) entry) }
        ensures same { map.new ≡ map.old }
        ensures list { list_of self.new map.new ≡ slice_set (list_of self.old map.old) at entry }
        ensures of { IsMapOf self.new map.new }
    {
        let at = at as usize;
        let number = map.numbers[at / PAGE];
        self.write(number, at % PAGE, entry);
    }

    /// Writes an entry of a page.
    fn write(&mut self, number: u32, at: usize, entry: E)
        requires number { number < length self.old.counts }
        requires within { at < length (page_at self.old number) }
        ensures page { number < length self.old.pages }
        ensures written { self.new ≡ with_entries self.old number (slice_set (page_at self.old number) at entry) }
    {
        let page = &mut self.pages[number as usize];
        page.set(at, entry);
    }

    /// An equal list that names the same pages. No page is copied, and each raised count is a step.
    pub fn share<L: Ledger>(
        &mut self,
        map: &PagedMap<E>,
        room: PageRoom<E>,
        steps: &mut Steps<L>,
    ) -> PagedMap<E>
        requires of { IsMapOf self.old map.now }
        requires room { pages_for map.now.len ≤ room.numbers }
        requires small { (i : ℕ) → i < length map.now.numbers → count_at self.old (slice_index map.now.numbers i) < 2 ^ 32 - 1 }
        ensures numbers { result.numbers ≡ map.now.numbers }
        ensures len { result.len ≡ map.now.len }
        ensures memory { result.memory ≡ room.numbers }
        ensures raised { self.new ≡ all_raised self.old map.now.numbers }
        ensures steps { steps.new ≡ steps.old + pages_for map.now.len }
        ensures list { list_of self.new result ≡ list_of self.old map.now }
        ensures of { IsMapOf self.new result }
    {
        let mut room = room;
        let ListMemory { mut numbers, ended } = room.take_list(self.alloc);
        for number in &map.numbers {
            self.raise(*number);
            steps.tick();
            numbers.push_reserved(*number);
        }
        PagedMap {
            numbers,
            len: map.len,
            ended,
        }
    }

    /// Ends a list. The entries of the pages that no list names any more are handed out.
    pub fn release(&mut self, map: PagedMap<E>) -> EndedPages<E>
        requires { IsMapOf self.old map }
        ensures lowered { self.new ≡ all_lowered self.old map.numbers }
        ensures ended { result ≡ ending_entries self.old map.numbers }
    {
        let PagedMap {
            numbers,
            len: _,
            mut ended,
        } = map;
        for number in &numbers {
            if let Some(page) = self.lower(*number) {
                ended.push_reserved(page);
            }
        }
        EndedPages::of(ended)
    }

    /// Gives a list a page of its own at a place, and says whether the page was copied for that.
    pub fn unshare(&mut self, map: &mut PagedMap<E>, at: u32, room: &mut PageRoom<E>) -> bool
        requires of { IsMapOf self.old map.old }
        requires within { at < map.old.len }
        requires room { 2 ≤ count_at self.old (slice_index map.old.numbers (at / 64)) → 1 ≤ room.old.pages }
        requires unused { 2 ≤ count_at self.old (slice_index map.old.numbers (at / 64)) → 1 ≤ unused_pages self.old }
        ensures copied { IsTrue result ↔ (2 ≤ count_at self.old (slice_index map.old.numbers (at / 64))) }
        ensures unshared { OnTrue result (Unshares self.old self.new map.old map.new (at / 64)) }
        ensures same { OnFalse result ((self.new ≡ self.old) × (map.new ≡ map.old)) }
        ensures room { room.new.pages ≡ room.old.pages - (if result then 1 else 0) }
        ensures numbers { room.new.numbers ≡ room.old.numbers }
        ensures alone { count_at self.new (slice_index map.new.numbers (at / 64)) ≡ 1 }
        ensures list { list_of self.new map.new ≡ list_of self.old map.old }
        ensures of { IsMapOf self.new map.new }
    {
        let place = at as usize / PAGE;
        let number = map.numbers[place];
        if self.counts[number as usize] == 1 {
            return false;
        }
        self.take_own(map, place, room.take_blank());
        true
    }

    /// Gives a list a copy of a page that other lists name too.
    fn take_own(&mut self, map: &mut PagedMap<E>, place: usize, blank: Blank<E>)
        requires within { place < length map.old.numbers }
        requires shared { 2 ≤ count_at self.old (slice_index map.old.numbers place) }
        requires small { length (page_at self.old (slice_index map.old.numbers place)) ≤ 64 }
        requires unused { 1 ≤ unused_pages self.old }
        ensures { Unshares self.old self.new map.old map.new place }
    {
        let own = self.copy_page(map.numbers[place], blank);
        map.numbers[place] = own;
    }

    /// Copies a page that several lists name, for one of them.
    fn copy_page(&mut self, number: u32, blank: Blank<E>) -> u32
        requires shared { 2 ≤ count_at self.old number }
        requires small { length (page_at self.old number) ≤ 64 }
        requires unused { 1 ≤ unused_pages self.old }
        ensures within { result < length self.old.counts }
        ensures page { result < length self.old.pages }
        ensures unused { count_at self.old result ≡ 0 }
        ensures copied { self.new ≡ with_page (lowered self.old number) result (page_at self.old number) 1 }
        ensures left { unused_pages self.new + 1 ≡ unused_pages self.old }
    {
        let at = number as usize;
        let page = blank.copied(&self.pages[at]);
        self.counts[at] -= 1;
        self.place(page)
    }
}

/// These numbers, in memory that was taken for them.
fn with_numbers(memory: Vec<u32>, numbers: &[u32]) -> Vec<u32>
    requires empty { vec_len memory ≡ 0 }
    requires fits { length numbers.now ≤ vec_capacity memory }
    ensures items { result.items ≡ numbers.now }
    ensures memory { vec_capacity result ≡ vec_capacity memory }
{
    let mut memory = memory;
    for number in numbers {
        memory.push_reserved(*number);
    }
    memory
}
