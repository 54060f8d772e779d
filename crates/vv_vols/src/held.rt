//! Lists that tasks hold.
ghost use Rattle.std.specs.Prelude.{◌≡◌, ◌+◌, ◌<◌, ◌^◌};
ghost use Rattle.vv_vols.specs.Shelf.{HeldName};

use std::marker::Model;

/// A list that a task holds, by its number, and how many entries it has. It can't be dropped: the shelf that holds the list
/// takes it.
pub struct Held {
    number: u64,
    len: u32,
}

impl Model for Held {
    ghost use Rattle.vv_vols.specs.Shelf.{HeldName};

    ghost Value = { HeldName };

    ghost view = { λ a. record { number = a.number; len = a.len } };
}

impl Held {
    pub(crate) fn new(number: u64, len: u32) -> Held
        ensures { result ≡ record { number = number; len = len } }
    {
        Held { number, len }
    }

    pub(crate) fn number(&self) -> u64
        ensures { result ≡ self.now.number }
    {
        self.number
    }

    /// How many entries it has.
    pub fn len(&self) -> u32
        ensures { result ≡ self.now.len }
    {
        self.len
    }

    /// It has an entry more.
    pub(crate) fn lengthen(&mut self)
        requires { self.old.len + 1 < 2 ^ 32 }
        ensures { self.new ≡ record self.old { len = self.old.len + 1 } }
    {
        self.len += 1;
    }

    /// Ends it.
    pub(crate) fn spend(self) {
        let Held { number: _, len: _ } = self;
    }
}
