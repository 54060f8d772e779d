//! The places that a change may take.
ghost use Rattle.std.specs.Prelude.{◌≡◌, nat_le, option_map};
ghost use Rattle.std.specs.List.{find};
ghost use Rattle.vv_units.specs.declared.numbers.Place.{Place as place};
ghost use Rattle.vv_flat.specs.Plans.{fresh_places};

use crate::tables::Tables;
use vv_units::Place;

impl Tables {
    /// The lowest place of the pool, from this number on, that no entry names, if there is one.
    pub fn lowest_fresh(&self, from: u32) -> Option<Place>
        ensures { option_map (λ (p : place). p.0) result ≡ find (λ p. nat_le from p) (fresh_places self.now.durable) }
    {
        self.shelf.pool().lowest(from)
    }
}
