//! What a place of the pool is in use for.
ghost use Rattle.std.specs.Prelude.{◌≡◌};
ghost use Rattle.vv_pool.specs.Uses.{is_free, count_in};

/// The use of a place.
#[derive(Clone, Copy, Debug, PartialEq, Eq)]
pub enum PlaceUse {
    /// So many entries name it. It is free where none does.
    Counted(u32),
    /// Taken, and named by no entry yet.
    Fresh,
}

impl PlaceUse {
    /// Whether the place may be taken.
    pub(crate) fn is_free(self) -> bool
        ensures { result ≡ is_free self }
    {
        matches!(self, PlaceUse::Counted(0))
    }

    /// How many entries name the place.
    pub(crate) fn count(self) -> u32
        ensures { result ≡ count_in self }
    {
        match self {
            PlaceUse::Counted(count) => count,
            PlaceUse::Fresh => 0,
        }
    }
}
