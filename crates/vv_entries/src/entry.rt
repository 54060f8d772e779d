//! What stands for a chunk in tables.
ghost use Rattle.std.specs.Prelude.{◌≡◌};
ghost use Rattle.vv_entries.specs.Entries.{unmapped, placed};

use vv_units::Place;

/// An entry of a list: the place of a chunk in the pool, and its stamp. An unmapped chunk has no place and stamp 0.
#[derive(Clone, Copy, Debug, PartialEq, Eq)]
pub struct Entry {
    pub place: Option<Place>,
    pub stamp: u64,
}

impl Entry {
    /// The entry of an unmapped chunk.
    pub fn unmapped() -> Entry
        ensures { result ≡ unmapped }
    {
        Entry {
            place: None,
            stamp: 0,
        }
    }

    /// The entry of a chunk at a place.
    pub fn placed(place: Place, stamp: u64) -> Entry
        ensures { result ≡ placed place.0 stamp }
    {
        Entry {
            place: Some(place),
            stamp,
        }
    }
}
