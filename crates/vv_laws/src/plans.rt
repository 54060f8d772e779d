//! The places that are planned for a change.
ghost use Rattle.std.specs.Prelude.{◌≡◌, ◌≤◌, ◌+◌, ℕ, Option, length, IsTrue};
ghost use Rattle.vv_flat.specs.State.{Durable};
ghost use Rattle.vv_flat.specs.Chunks.{Entry, shape_of_tables};
ghost use Rattle.vv_flat.specs.Space.{used};
ghost use Rattle.vv_flat.specs.Profiles.{Misfit};
ghost use Rattle.vv_flat.specs.Refusals.{Accept};
ghost use Rattle.vv_flat.specs.Sharing.{shares};
ghost use Rattle.vv_flat.specs.Changes.{Change, judge, changed_indexes};
ghost use Rattle.vv_flat.specs.Replay.{fits};
ghost use Rattle.vv_flat.specs.Plans.{fresh_places, planned_places};
ghost use Rattle.vv_flat.specs.WellFormed.{is_well_formed};

/// In tables that share rightly each place is either used or fresh.
pub fn a_place_is_used_or_fresh()
    ensures { (tables : Durable Entry) → IsTrue (shares tables)
        → used (shape_of_tables tables) + length (fresh_places tables) ≡ tables.geometry.pool_chunks }
{}

/// A change that is accepted over well-formed tables finds a fresh place for each chunk that gets a new value,
pub fn an_accepted_change_finds_its_places()
    ensures { (tables : Durable Entry) → (misfit : Option Misfit) → (change : Change) → IsTrue (is_well_formed tables)
        → judge misfit (shape_of_tables tables) change ≡ Accept
        → length (changed_indexes (λ (e : Entry). e.stamp) tables change) ≤ length (fresh_places tables) }
{}

/// and with the lowest of them it fits.
pub fn what_is_planned_fits()
    ensures { (tables : Durable Entry) → (misfit : Option Misfit) → (change : Change) → IsTrue (is_well_formed tables)
        → judge misfit (shape_of_tables tables) change ≡ Accept → IsTrue (fits tables change (planned_places tables change)) }
{}
