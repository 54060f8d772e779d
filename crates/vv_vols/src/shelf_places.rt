//! The places of a shelf: calls of its pool that leave all lists as they are.
ghost use Rattle.std.specs.Prelude.{◌≡◌, ◌+◌, ◌-◌, ◌≤◌, [], ◌∷◌, length, OnOk, OnErr};
ghost use Rattle.std.specs.Bool.{OnTrue, OnFalse};
ghost use Rattle.vv_pool.specs.FreshPlaces.{appended};
ghost use Rattle.vv_vols.specs.Shelf.{shelf_used, is_shelf_free};
ghost use Rattle.vv_vols.specs.Calls.{with_reserve};
ghost use Rattle.vv_vols.specs.Places.{lowest_of, shelf_free, place_room_for, with_taken, IsPoolOf};

use crate::shelf::Shelf;
use vv_pool::{FreshList, Full, Pool};
use vv_units::Place;

impl Shelf {
    /// The pool.
    pub fn pool(&self) -> &Pool
        ensures { IsPoolOf self.now.shelf result.now }
    {
        self.entries.pool()
    }

    /// How many places are used: those that some entry names, and the fresh ones.
    pub fn used(&self) -> u32
        ensures { result ≡ shelf_used self.now.shelf }
    {
        self.pool().used()
    }

    /// How many places may be taken.
    pub fn free(&self) -> u32
        ensures { result ≡ shelf_free self.now.shelf }
    {
        self.pool().free()
    }

    /// Takes the lowest `n` free places, and adds them to `out` in rising order.
    pub fn take(&mut self, n: u32, out: &mut FreshList) -> Result<(), Full>
        requires { length out.old.places + n ≤ out.old.capacity }
        ensures room { result ≡ place_room_for self.old.shelf n }
        ensures taken { OnOk result (self.new ≡ record self.old { shelf = with_taken self.old.shelf (lowest_of self.old.shelf n) }) }
        ensures count { OnOk result (length (lowest_of self.old.shelf n) ≡ n) }
        ensures out { OnOk result (out.new ≡ appended out.old (lowest_of self.old.shelf n)) }
        ensures err { OnErr result (self.new ≡ self.old) }
        ensures err_out { OnErr result (out.new ≡ out.old) }
    {
        let _counts = self.entries.pool();
        self.entries.take(n, out)
    }

    /// Takes the lowest `n` free places in place of as many reserved ones.
    pub fn take_reserved(&mut self, n: u32, out: &mut FreshList)
        requires reserved { n ≤ self.old.shelf.reserved }
        requires room { length out.old.places + n ≤ out.old.capacity }
        ensures taken { self.new ≡ record self.old { shelf = with_reserve (with_taken self.old.shelf (lowest_of self.old.shelf n)) (self.old.shelf.reserved - n) } }
        ensures count { length (lowest_of self.old.shelf n) ≡ n }
        ensures out { out.new ≡ appended out.old (lowest_of self.old.shelf n) }
    {
        let _counts = self.entries.pool();
        self.entries.take_reserved(n, out);
    }

    /// Takes this place, if it is free.
    pub fn take_at(&mut self, place: Place, out: &mut FreshList) -> bool
        requires some { 1 ≤ shelf_free self.old.shelf }
        requires room { length out.old.places + 1 ≤ out.old.capacity }
        ensures free { result ≡ is_shelf_free self.old.shelf place.0 }
        ensures taken { OnTrue result (self.new ≡ record self.old { shelf = with_taken self.old.shelf (place.0 ∷ []) }) }
        ensures out { OnTrue result (out.new ≡ appended out.old (place.0 ∷ [])) }
        ensures refused { OnFalse result (self.new ≡ self.old) }
        ensures refused_out { OnFalse result (out.new ≡ out.old) }
    {
        let _counts = self.entries.pool();
        self.entries.take_at(place, out)
    }

    /// Promises `n` more of the free places.
    pub fn reserve(&mut self, n: u32) -> Result<(), Full>
        ensures room { result ≡ place_room_for self.old.shelf n }
        ensures ok { OnOk result (self.new ≡ record self.old { shelf = with_reserve self.old.shelf (self.old.shelf.reserved + n) }) }
        ensures err { OnErr result (self.new ≡ self.old) }
    {
        let _counts = self.entries.pool();
        self.entries.reserve(n)
    }
}
