//! A list over pages.
ghost use Rattle.std.specs.Prelude.{◌≡◌, slice_get};

use crate::page::Page;
use std::marker::Model;

/// A list over the pages of a store. It can't be dropped: the store ends it.
pub struct PagedMap<E> {
    /// The numbers of its pages, in order.
    pub(crate) numbers: Vec<u32>,
    /// How many entries it has.
    pub(crate) len: u32,
    /// Memory for the pages that end with it.
    pub(crate) ended: Vec<Page<E>>,
}

impl<E> Model for PagedMap<E> {
    ghost use Rattle.std.specs.Prelude.{◌≡◌, ◌≤◌, vec_len, vec_capacity};
    ghost use Rattle.vv_map.specs.Rooms.{MapState};

    ghost Value = { MapState };

    ghost view = { λ a. record { numbers = a.numbers.items; len = a.len; memory = vec_capacity a.numbers } };

    ghost invariant = { λ a. (vec_len a.ended ≡ 0) × (vec_capacity a.numbers ≤ vec_capacity a.ended) };
}

impl<E> PagedMap<E> {
    /// The number of its page at a place.
    pub fn number_at(&self, at: u32) -> Option<u32>
        ensures { result ≡ slice_get self.now.numbers at }
    {
        self.numbers.get(at as usize).copied()
    }
}
