//! Pieces.
ghost use Rattle.std.specs.Prelude.{◌≡◌};

use std::marker::Model;
use vv_vols::Held;

/// Entries with the indexes where they are to be put: a held list. They can't be dropped: they are put, or forgotten.
pub struct Pieces {
    held: Held,
}

impl Model for Pieces {
    ghost use Rattle.vv_vols.specs.Shelf.{HeldName};

    ghost Value = { HeldName };

    ghost view = { λ a. a.held };
}

impl Pieces {
    /// The pieces of a list that was begun without an entry.
    pub fn of_held(held: Held) -> Pieces
        ensures { result ≡ held }
    {
        Pieces { held }
    }

    pub fn held(&self) -> &Held
        ensures { result.now ≡ self.now }
    {
        &self.held
    }

    /// How many there are.
    pub fn len(&self) -> u32
        ensures { result ≡ self.now.len }
    {
        self.held.len()
    }

    /// The list that has them.
    pub fn into_held(self) -> Held
        ensures { result ≡ self }
    {
        let Pieces { held } = self;
        held
    }
}
