//! The pool of places for chunks.
ghost use Rattle.std.specs.Prelude.{◌≡◌, ◌+◌, ◌-◌, ◌^◌, ◌<◌, ◌≤◌, ◌↔◌, [], ◌∷◌, length, replicate, IfOk, OnOk, OnErr, IsTrue, option_map};
ghost use Rattle.std.specs.Bool.{OnTrue, OnFalse};
ghost use Rattle.vv_pool.specs.Pool.{use_of, count_of, IsFresh, IsFree, used_of, free_of, free_places, lowest_places, lowest_free, room_for, with_use, with_count, with_fresh, with_reserved, used_bit};
ghost use Rattle.vv_pool.specs.FreshPlaces.{appended};

use crate::free_set::FreeSet;
use crate::fresh::{Fresh, FreshList};
use crate::full::Full;
use crate::place_use::PlaceUse;
use std::alloc::{AllocError, Global};
use std::marker::Model;
use std::sync::ledger::Ledger;
use vv_units::{NoMemory, Place, Steps};

/// Places for chunks. A place is fresh, or so many entries name it, and free where none does.
#[derive(Drop)]
pub struct Pool {
    places: Vec<PlaceUse>,
    /// The free places.
    vacant: FreeSet,
    /// How many places are counted or fresh.
    used: u32,
    /// How many of the free places are promised.
    reserved: u32,
}

impl Model for Pool {
    ghost use Rattle.vv_pool.specs.Pool.{PoolState, IsKept};

    ghost Value = { PoolState };

    ghost view = { λ a. record { places = a.places.items; reserved = a.reserved } };

    ghost invariant = { λ a. IsKept a.places.items a.vacant a.used a.reserved };
}

/// The uses of so many free places.
fn all_free(alloc: Global, n: usize) -> Result<Vec<PlaceUse>, AllocError>
    ensures { IfOk result (λ places. places.items ≡ replicate n (PlaceUse.Counted 0)) }
{
    vec![in alloc; PlaceUse::Counted(0); n]
}

impl Pool {
    /// A pool of free places.
    pub fn new(alloc: Global, chunks: u32) -> Result<Pool, NoMemory>
        ensures { IfOk result (λ pool. pool ≡ record { places = replicate chunks (PlaceUse.Counted 0); reserved = 0 }) }
    {
        let Ok(places) = all_free(alloc, chunks as usize) else {
            return Err(NoMemory);
        };
        let Ok(vacant) = FreeSet::filled(alloc, chunks) else {
            return Err(NoMemory);
        };
        Ok(Pool {
            places,
            vacant,
            used: 0,
            reserved: 0,
        })
    }

    /// How many places are counted or fresh.
    pub fn used(&self) -> u32
        ensures { result ≡ used_of self.now }
    {
        self.used
    }

    /// How many places may be taken.
    pub fn free(&self) -> u32
        ensures exact { result ≡ free_of self.now }
        ensures all { result + used_of self.now + self.now.reserved ≡ length self.now.places }
    {
        self.places.len() as u32 - self.used - self.reserved
    }

    /// Whether `n` places may be taken.
    pub fn room(&self, n: u32) -> Result<(), Full>
        ensures { result ≡ room_for self.now n }
    {
        let free = self.free();
        if n <= free {
            Ok(())
        } else {
            Err(Full { free, asked: n })
        }
    }

    /// The lowest place at or above `from` that is neither counted nor fresh.
    pub fn lowest(&self, from: u32) -> Option<Place>
        ensures { option_map (λ place. place.0) result ≡ lowest_free self.now from }
    {
        let at = self.vacant.next(from as usize)?;
        Some(Place(at as u32))
    }

    /// Takes the lowest `n` places, and adds them to `out` in rising order.
    pub fn take(&mut self, n: u32, out: &mut FreshList) -> Result<(), Full>
        requires { length out.old.places + n ≤ out.old.capacity }
        ensures room { result ≡ room_for self.old n }
        ensures taken { OnOk result (self.new ≡ with_fresh self.old (lowest_places self.old n)) }
        ensures count { OnOk result (length (lowest_places self.old n) ≡ n) }
        ensures out { OnOk result (out.new ≡ appended out.old (lowest_places self.old n)) }
        ensures err { OnErr result (self.new ≡ self.old) }
        ensures err_out { OnErr result (out.new ≡ out.old) }
    {
        self.room(n)?;
        self.take_lowest(n, out);
        Ok(())
    }

    /// Takes the lowest `n` places in place of as many reserved ones.
    pub fn take_reserved(&mut self, n: u32, out: &mut FreshList)
        requires reserved { n ≤ self.old.reserved }
        requires room { length out.old.places + n ≤ out.old.capacity }
        ensures taken { self.new ≡ with_reserved (with_fresh self.old (lowest_places self.old n)) (self.old.reserved - n) }
        ensures count { length (lowest_places self.old n) ≡ n }
        ensures out { out.new ≡ appended out.old (lowest_places self.old n) }
    {
        self.unreserve(n);
        self.take_lowest(n, out);
    }

    /// Takes this place, if it is one of the pool's and neither counted nor fresh.
    pub fn take_at(&mut self, place: Place, out: &mut FreshList) -> bool
        requires some { 1 ≤ free_of self.old }
        requires room { length out.old.places + 1 ≤ out.old.capacity }
        ensures free { IsTrue result ↔ IsFree self.old place.0 }
        ensures taken { OnTrue result (self.new ≡ with_fresh self.old (place.0 ∷ [])) }
        ensures out { OnTrue result (out.new ≡ appended out.old (place.0 ∷ [])) }
        ensures refused { OnFalse result (self.new ≡ self.old) }
        ensures refused_out { OnFalse result (out.new ≡ out.old) }
    {
        let is_place = (place.0 as usize) < self.places.len();
        if !is_place || !self.use_of(place.0).is_free() {
            return false;
        }
        self.put(place.0, PlaceUse::Fresh);
        out.push(Fresh::of(place.0));
        true
    }

    /// One entry names the place from now on.
    pub fn publish(&mut self, fresh: Fresh) -> Place
        requires { IsFresh self.old fresh }
        ensures place { result.0 ≡ fresh }
        ensures counted { self.new ≡ with_count self.old fresh 1 }
    {
        let place = fresh.spend();
        self.put(place, PlaceUse::Counted(1));
        Place(place)
    }

    /// The place is free again.
    pub fn give_back(&mut self, fresh: Fresh)
        requires { IsFresh self.old fresh }
        ensures { self.new ≡ with_count self.old fresh 0 }
    {
        self.put(fresh.spend(), PlaceUse::Counted(0));
    }

    /// One entry more names the place. This is one step.
    pub fn raise<L: Ledger>(&mut self, place: Place, steps: &mut Steps<L>)
        requires counted { 1 ≤ count_of self.old place.0 }
        requires small { count_of self.old place.0 < 2 ^ 32 - 1 }
        ensures counted { self.new ≡ with_count self.old place.0 (count_of self.old place.0 + 1) }
        ensures step { steps.new ≡ steps.old + 1 }
    {
        let count = self.use_of(place.0).count();
        self.put(place.0, PlaceUse::Counted(count + 1));
        steps.tick();
    }

    /// One entry less names the place. It is free where that was the last.
    pub fn lower(&mut self, place: Place)
        requires { 1 ≤ count_of self.old place.0 }
        ensures { self.new ≡ with_count self.old place.0 (count_of self.old place.0 - 1) }
    {
        let count = self.use_of(place.0).count();
        self.put(place.0, PlaceUse::Counted(count - 1));
    }

    /// Promises `n` more of the free places.
    pub fn reserve(&mut self, n: u32) -> Result<(), Full>
        ensures room { result ≡ room_for self.old n }
        ensures ok { OnOk result (self.new ≡ with_reserved self.old (self.old.reserved + n)) }
        ensures err { OnErr result (self.new ≡ self.old) }
    {
        self.room(n)?;
        self.reserved += n;
        Ok(())
    }

    /// Promises `n` places less.
    pub fn unreserve(&mut self, n: u32)
        requires { n ≤ self.old.reserved }
        ensures reserved { self.new ≡ with_reserved self.old (self.old.reserved - n) }
        ensures free { free_of self.new ≡ free_of self.old + n }
    {
        self.reserved -= n;
    }

    /// Takes the lowest `n` places, which are free.
    fn take_lowest(&mut self, n: u32, out: &mut FreshList)
        requires free { n ≤ free_of self.old }
        requires room { length out.old.places + n ≤ out.old.capacity }
        ensures taken { self.new ≡ with_fresh self.old (lowest_places self.old n) }
        ensures count { length (lowest_places self.old n) ≡ n }
        ensures out { out.new ≡ appended out.old (lowest_places self.old n) }
    {
        for _taken in 0..n {
            out.push(self.take_first());
        }
    }

    /// Takes the lowest free place.
    fn take_first(&mut self) -> Fresh
        requires { 1 ≤ free_of self.old }
        ensures lowest { free_places self.old ≡ result ∷ free_places self.new }
        ensures taken { self.new ≡ with_use self.old result PlaceUse.Fresh }
        ensures free { free_of self.new + 1 ≡ free_of self.old }
    {
        match self.vacant.next(0) {
            Some(at) => {
                self.put(at as u32, PlaceUse::Fresh);
                Fresh::of(at as u32)
            }
            None => unreachable!(),
        }
    }

    /// The use of a place.
    fn use_of(&self, place: u32) -> PlaceUse
        requires { place < length self.now.places }
        ensures { result ≡ use_of self.now place }
    {
        self.places[place as usize]
    }

    /// Gives a place another use.
    fn put(&mut self, place: u32, next: PlaceUse)
        requires within { place < length self.old.places }
        requires room { used_bit next ≤ used_bit (use_of self.old place) + free_of self.old }
        ensures { self.new ≡ with_use self.old place next }
    {
        let at = place as usize;
        let was_free = self.places[at].is_free();
        let is_free = next.is_free();
        self.vacant.put(at, is_free);
        self.used = self.used + u32::from(was_free) - u32::from(is_free);
        self.places[at] = next;
    }
}
