//! What a command to a bound volume finds.
ghost use Rattle.std.specs.Prelude.{◌≡◌, ℕ, List, Some, None, is_some, IsTrue, IsFalse};
ghost use Rattle.std.specs.List.{list_any};
ghost use Rattle.vv_flat.specs.State.{Durable, Address, Binding, volume_of};
ghost use Rattle.vv_flat.specs.Chunks.{volume_blocks, unmap_ranges};
ghost use Rattle.vv_flat.specs.Bindings.{binding_at};
ghost use Rattle.vv_flat.specs.Tasks.{is_busy};
ghost use Rattle.vv_flat.specs.Refusals.{first_refusal};
ghost use Rattle.vv_flat.specs.Changes.{Write, Unmap, stamps_of, is_snapshot, state_checks};
ghost use Rattle.vv_flat.specs.WellFormed.{is_well_formed_shape};
ghost use Rattle.vv_laws.specs.Units.{is_outside};

/// A volume that is bound at an address stands, and no running copy is to change it.
pub fn a_bound_volume_stands_and_is_not_busy()
    ensures { (d : Durable ℕ) → IsTrue (is_well_formed_shape d) → (address : Address) → (binding : Binding)
        → binding_at d.bindings address ≡ Some binding
        → IsTrue (is_some (volume_of d binding.volume)) × IsFalse (is_busy d binding.volume) }
{}

/// So a write inside a bound volume that is no snapshot passes all checks of names and of state,
pub fn a_write_that_a_unit_lets_through_passes_the_checks_of_state()
    ensures { (d : Durable ℕ) → IsTrue (is_well_formed_shape d) → (address : Address) → (binding : Binding)
        → binding_at d.bindings address ≡ Some binding → (first blocks : ℕ)
        → IsFalse (is_outside (volume_blocks d.geometry.chunk_blocks (stamps_of d binding.volume)) (first, blocks))
        → IsFalse (is_snapshot d binding.volume)
        → first_refusal (state_checks d (Write binding.volume first blocks)) ≡ None }
{}

/// and so does an UNMAP whose descriptors are inside it.
pub fn an_unmap_that_a_unit_lets_through_passes_the_checks_of_state()
    ensures { (d : Durable ℕ) → IsTrue (is_well_formed_shape d) → (address : Address) → (binding : Binding)
        → binding_at d.bindings address ≡ Some binding → (descriptors : List (ℕ × ℕ))
        → IsFalse (list_any (is_outside (volume_blocks d.geometry.chunk_blocks (stamps_of d binding.volume))) descriptors)
        → IsFalse (is_snapshot d binding.volume)
        → first_refusal (state_checks d (Unmap binding.volume (unmap_ranges d.geometry.chunk_blocks descriptors))) ≡ None }
{}
