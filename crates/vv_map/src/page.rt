//! The memory of a page, and a page of entries.
ghost use Rattle.std.specs.Prelude.{◌≡◌, ◌==◌, ◌-◌, ◌<◌, ◌≤◌, ◌∷◌, ◌++◌, [], length, replicate, slice_get, slice_set, vec_len, vec_capacity, IfOk, IfSome, IfNone};

use std::alloc::{AllocError, Global};
use std::marker::Model;

/// The entries of a full page.
pub(crate) const PAGE: usize = 64;

/// Memory for a page.
#[derive(Drop)]
pub(crate) struct Blank<E> {
    entries: Vec<E>,
    ghost empty: { vec_len entries ≡ 0 },
    ghost memory: { 64 ≤ vec_capacity entries },
}

/// Entries that lists may share. A page without entries has no memory.
#[derive(Drop)]
pub(crate) struct Page<E> {
    entries: Vec<E>,
}

impl<E> Model for Page<E> {
    ghost use Rattle.std.specs.Prelude.{List, length, ◌<◌, ◌≤◌, vec_capacity};

    ghost Value = { List E };

    ghost view = { λ a. a.entries.items };

    ghost invariant = { λ a. 0 < length a.entries.items → 64 ≤ vec_capacity a.entries };
}

impl<E: Copy> Blank<E> {
    pub(crate) fn new(alloc: Global) -> Result<Blank<E>, AllocError> {
        let entries = Vec::with_capacity(alloc, PAGE)?;
        Ok(Blank { entries })
    }

    /// A page of `n` equal entries.
    pub(crate) fn filled(self, n: usize, entry: E) -> Page<E>
        requires { n ≤ 64 }
        ensures { result ≡ replicate n entry }
    {
        let Blank { mut entries } = self;
        match entries.resize(n, entry) {
            Ok(()) => Page { entries },
            Err(_) => unreachable!(),
        }
    }

    /// A page of the same entries.
    pub(crate) fn copied(self, page: &Page<E>) -> Page<E>
        requires { length page.now ≤ 64 }
        ensures { result ≡ page.now }
    {
        let Blank { mut entries } = self;
        match entries.extend_from_slice(&page.entries) {
            Ok(()) => Page { entries },
            Err(_) => unreachable!(),
        }
    }
}

impl<E: Copy> Page<E> {
    /// A page that no list names.
    pub(crate) fn unused(alloc: Global) -> Page<E>
        ensures { result ≡ [] }
    {
        Page {
            entries: Vec::new(alloc),
        }
    }

    pub(crate) fn get(&self, at: usize) -> E
        requires { at < length self.now }
        ensures { slice_get self.now at ≡ Some result }
    {
        self.entries[at]
    }

    pub(crate) fn entries(&self) -> &[E]
        ensures { result.now ≡ self.now }
    {
        &self.entries
    }

    pub(crate) fn set(&mut self, at: usize, entry: E)
        requires { at < length self.old }
        ensures { self.new ≡ slice_set self.old at entry }
    {
        self.entries[at] = entry;
    }

    /// Appends `entry` until there are `n` entries.
    pub(crate) fn grow(&mut self, n: usize, entry: E)
        requires some { 0 < length self.old }
        requires more { length self.old ≤ n }
        requires within { n ≤ 64 }
        ensures { self.new ≡ self.old ++ replicate (n - length self.old) entry }
    {
        match self.entries.resize(n, entry) {
            Ok(()) => {}
            Err(_) => unreachable!(),
        }
    }

    pub(crate) fn is_empty(&self) -> bool
        ensures { result ≡ (length self.now == 0) }
    {
        self.entries.is_empty()
    }

    /// Takes the last entry out.
    pub(crate) fn pop(&mut self) -> Option<E>
        ensures some { IfSome result (λ entry. self.old ≡ self.new ++ entry ∷ []) }
        ensures none { IfNone result ((self.old ≡ []) × (self.new ≡ [])) }
    {
        self.entries.pop()
    }
}
