//! Places that were taken and that no entry names yet. Each must be spent: none can be dropped.
ghost use Rattle.std.specs.Prelude.{◌≡◌, ◌+◌, ◌<◌, ◌≤◌, [], ◌∷◌, ◌++◌, length, IfOk, IfSome, IfNone};

use std::alloc::Global;
use std::collections::VecDeque;
use std::marker::Model;
use vv_units::NoMemory;

/// A fresh place. Contracts see its number.
#[derive(Debug)]
pub struct Fresh {
    place: u32,
}

impl Model for Fresh {
    ghost use Rattle.std.specs.Prelude.{ℕ};

    ghost Value = { ℕ };

    ghost view = { λ a. a.place };
}

impl Fresh {
    pub(crate) fn of(place: u32) -> Fresh
        ensures { result ≡ place }
    {
        Fresh { place }
    }

    /// The number, when the place is fresh no longer.
    pub(crate) fn spend(self) -> u32
        ensures { result ≡ self }
    {
        let Fresh { place } = self;
        place
    }
}

/// Fresh places in order, with room for a number of them.
#[derive(Debug)]
pub struct FreshList {
    items: VecDeque<Fresh>,
}

impl Model for FreshList {
    ghost use Rattle.vv_pool.specs.FreshPlaces.{FreshPlaces};
    ghost use Rattle.std.specs.VecDeque.{deque_capacity};

    ghost Value = { FreshPlaces };

    ghost view = { λ a. record { places = a.items.items; capacity = deque_capacity a.items } };
}

impl FreshList {
    /// No place yet, with memory for `capacity` places.
    pub fn new(alloc: Global, capacity: u32) -> Result<FreshList, NoMemory>
        ensures { IfOk result (λ list. list ≡ record { places = []; capacity = capacity }) }
    {
        match VecDeque::with_capacity(alloc, capacity as usize) {
            Ok(items) => Ok(FreshList { items }),
            Err(_) => Err(NoMemory),
        }
    }

    /// The first place, if there is one.
    pub fn next(&mut self) -> Option<Fresh>
        ensures some { IfSome result (λ fresh. self.old ≡ record self.new { places = fresh ∷ self.new.places }) }
        ensures none { IfNone result (self.old.places ≡ []) }
        ensures rest { IfNone result (self.new ≡ self.old) }
    {
        self.items.pop_front()
    }

    /// Ends a list whose places were all spent.
    pub fn close(self)
        requires { self.places ≡ [] }
    {
        let FreshList { items } = self;
        items.destroy_empty();
    }

    /// Adds a place at the end.
    pub(crate) fn push(&mut self, fresh: Fresh)
        requires { length self.old.places < self.old.capacity }
        ensures { self.new ≡ record self.old { places = self.old.places ++ fresh ∷ [] } }
    {
        self.items.push_back_reserved(fresh);
    }
}
