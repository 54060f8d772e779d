//! How changes are answered.
ghost use Rattle.std.specs.Prelude.{◌≡◌, ℕ, List, Option, None, IsTrue};
ghost use Rattle.vv_flat.specs.State.{Durable, Volatile, Array};
ghost use Rattle.vv_flat.specs.Chunks.{ChunkValue, Entry, shape, filled_tables};
ghost use Rattle.vv_flat.specs.Profiles.{Capability, Misfit};
ghost use Rattle.vv_flat.specs.Refusals.{Accept};
ghost use Rattle.vv_flat.specs.Changes.{Change, judge};
ghost use Rattle.vv_flat.specs.Flat.{has_its_bytes};
ghost use Rattle.vv_flat.specs.Fields.{change_has_forms};
ghost use Rattle.vv_flat.specs.WellFormed.{is_well_formed_shape};
ghost use Rattle.vv_flat.specs.Answers.{answer, answer_of_tables, next};

/// What is accepted with a profile that lacks something is accepted with one that complies.
pub fn a_misfit_only_refuses_more()
    ensures { (misfit : Option Misfit) → (d : Durable ℕ) → (change : Change) → judge misfit d change ≡ Accept → judge None d change ≡ Accept }
{}

/// Where two arrays have one shape, each change gets one answer.
pub fn arrays_of_one_shape_get_one_answer()
    ensures { (capabilities : List Capability) → (a b : Array ChunkValue) → (change : Change) → shape a.durable ≡ shape b.durable
        → answer capabilities a change ≡ answer capabilities b change }
{}

/// Tables answer as the flat array for which they stand, whatever bytes the pool has.
pub fn tables_are_answered_as_their_flat_array()
    ensures { (capabilities : List Capability) → (bytes_at : ℕ → List ℕ) → (tables : Durable Entry) → (volatile : Volatile) → (change : Change)
        → answer capabilities (record { durable = filled_tables bytes_at tables; volatile = volatile }) change
        ≡ answer_of_tables capabilities tables change }
{}

/// A step keeps the shape well-formed, accepted or not.
pub fn a_step_keeps_the_shape_well_formed()
    ensures { (capabilities : List Capability) → (a : Array ChunkValue) → (change : Change) → (bytes : List ℕ)
        → IsTrue (is_well_formed_shape (shape a.durable)) → IsTrue (change_has_forms change) → IsTrue (has_its_bytes change bytes)
        → IsTrue (is_well_formed_shape (shape (next capabilities a change bytes).durable)) }
{}
