//! What flat arrays keep over whole runs.
ghost use Rattle.std.specs.Prelude.{◌≡◌, ◌≤◌, ◌+◌, ◌*◌, ◌==◌, ◌&&◌, ℕ, List, Option, Some, not, length, IsTrue};
ghost use Rattle.std.specs.List.{list_all};
ghost use Rattle.vv_units.specs.declared.geometry.Geometry.{Geometry};
ghost use Rattle.vv_flat.specs.State.{Array, Durable, Piece, Volume, volume_of, all_pieces, empty_durable};
ghost use Rattle.vv_flat.specs.Chunks.{ChunkValue, shape};
ghost use Rattle.vv_flat.specs.Parts.{are_whole};
ghost use Rattle.vv_flat.specs.Profiles.{Capability, Misfit};
ghost use Rattle.vv_flat.specs.Refusals.{Accept};
ghost use Rattle.vv_flat.specs.Changes.{Change, Write, judge, apply_shape, changed_indexes, new_stamp};
ghost use Rattle.vv_flat.specs.Flat.{has_its_bytes, flat_after};
ghost use Rattle.vv_flat.specs.Fields.{change_has_forms};
ghost use Rattle.vv_flat.specs.WellFormed.{is_well_formed_shape};
ghost use Rattle.vv_flat.specs.FlatForm.{stamps_are_given, is_well_formed_array};
ghost use Rattle.vv_flat.specs.Runs.{Asked, is_asked_rightly, after_run};

/// An accepted change with its bytes keeps a flat array well-formed: its shape, the stamps that the log has given, that
/// these tell the bytes, and the bytes of each chunk.
pub fn an_accepted_change_keeps_an_array_well_formed()
    ensures { (misfit : Option Misfit) → (d : Durable ChunkValue) → (change : Change) → (bytes : List ℕ) → IsTrue (is_well_formed_array d)
        → IsTrue (change_has_forms change) → IsTrue (has_its_bytes change bytes) → judge misfit (shape d) change ≡ Accept
        → IsTrue (is_well_formed_array (flat_after d change bytes)) }
{}

/// So every array that a run reaches from a well-formed one is well-formed, whatever of the run was accepted.
pub fn a_run_keeps_an_array_well_formed()
    ensures { (capabilities : List Capability) → (a : Array ChunkValue) → (run : List Asked) → IsTrue (is_well_formed_array a.durable)
        → IsTrue (list_all is_asked_rightly run) → IsTrue (is_well_formed_array (after_run capabilities a run).durable) }
{}

/// The empty array is.
pub fn the_empty_array_is_well_formed()
    ensures { (geometry : Geometry) → IsTrue (is_well_formed_array (empty_durable {X = ChunkValue} geometry)) }
{}

/// No chunk at an index that a change gives a new value has the change's stamp yet.
pub fn a_new_stamp_stands_nowhere_at_its_index()
    ensures { (d : Durable ChunkValue) → (change : Change) → IsTrue (is_well_formed_array d)
        → IsTrue (list_all (λ i. list_all (λ (p : Piece ChunkValue). not ((p.index == i) && (p.chunk.stamp == new_stamp d change))) (all_pieces d))
        (changed_indexes (λ (x : ChunkValue). x.stamp) d change)) }
{}

/// A change of a well-formed shape keeps its stamps ones that the log has given, a running clone's number in its own
/// target alone.
pub fn stamps_stay_given()
    ensures { (d : Durable ℕ) → (change : Change) → IsTrue (is_well_formed_shape d) → IsTrue (stamps_are_given (λ s. s) d)
        → IsTrue (stamps_are_given (λ s. s) (apply_shape d change)) }
{}

/// The chunks of a volume have their bytes,
pub fn the_chunks_of_a_volume_are_whole()
    ensures { (d : Durable ChunkValue) → (n : ℕ) → (volume : Volume ChunkValue) → IsTrue (is_well_formed_array d)
        → volume_of d n ≡ Some volume → IsTrue (are_whole d.geometry.chunk_blocks volume.chunks) }
{}

/// and a write that is accepted is inside them.
pub fn an_accepted_write_is_inside_its_volume()
    ensures { (misfit : Option Misfit) → (d : Durable ChunkValue) → (n first blocks : ℕ) → (volume : Volume ChunkValue)
        → volume_of d n ≡ Some volume → judge misfit (shape d) (Write n first blocks) ≡ Accept
        → first + blocks ≤ length volume.chunks * d.geometry.chunk_blocks }
{}
