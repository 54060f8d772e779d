//! The durable array.
ghost use Rattle.std.specs.Prelude.{◌≡◌};
ghost use Rattle.vv_array.specs.Seen.{geometry_of};

use std::marker::Model;
use vv_core::Core;
use vv_journal::Journal;
use vv_units::Geometry;

/// The parts of an array that is up.
pub(crate) enum Standing {
    Up { journal: Journal, core: Core },
    Down { geometry: Geometry },
}

/// An array on a disk, which it doesn't hold: each call takes it. It is up, with its tables in memory, or down: then a write,
/// or opening the image again, has failed, and the next call opens the image again. It must be closed at its end.
pub struct Array {
    pub(crate) standing: Standing,
}

impl Model for Array {
    ghost use Rattle.vv_array.specs.Seen.{ArrayView, HasOneSize};
    ghost use Rattle.vv_array.specs.Inside.{seen_standing};

    ghost Value = { ArrayView };

    ghost view = { λ a. seen_standing a.standing };

    ghost invariant = { λ a. HasOneSize (seen_standing a.standing) };
}

impl Array {
    /// The sizes of its image.
    pub fn geometry(&self) -> Geometry
        ensures { result ≡ geometry_of self.now }
    {
        match &self.standing {
            Standing::Up { journal, .. } => journal.geometry(),
            Standing::Down { geometry } => *geometry,
        }
    }

    /// Ends the array, with all that it holds. Its image stays.
    pub fn close(self) {
        let Array { standing } = self;
        standing.close();
    }
}

impl Standing {
    /// Ends it, with all that it holds.
    pub(crate) fn close(self) {
        match self {
            Standing::Up { journal: _, core } => core.close(),
            Standing::Down { geometry: _ } => {}
        }
    }
}
