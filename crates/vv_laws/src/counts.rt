//! Numbers that are kept beside the tables: what each change adds to them, and what it takes from them.
ghost use Rattle.std.specs.Prelude.{◌≡◌, ◌≤◌, ◌+◌, ◌==◌, not, ℕ, List, Option, Some, length, IsTrue};
ghost use Rattle.vv_units.specs.Sizes.{is_chunk_size};
ghost use Rattle.vv_flat.specs.State.{Durable, Piece, Task, task_of, all_pieces};
ghost use Rattle.vv_flat.specs.Chunks.{Entry, shape_of_tables, touched_indexes};
ghost use Rattle.vv_flat.specs.Space.{entries, used, reserved, charge, is_running, is_clone};
ghost use Rattle.vv_flat.specs.Tasks.{turned_indexes, next_piece};
ghost use Rattle.vv_flat.specs.Sharing.{place_count};
ghost use Rattle.vv_flat.specs.NamedPlaces.{is_named};
ghost use Rattle.vv_flat.specs.Profiles.{Misfit};
ghost use Rattle.vv_flat.specs.Refusals.{Accept};
ghost use Rattle.vv_flat.specs.Changes.{Change, judge, apply_shape, allocated_of};
ghost use Rattle.vv_flat.specs.Replay.{fits, replayed};
ghost use Rattle.vv_flat.specs.WellFormed.{is_well_formed, is_well_formed_shape};
ghost use Rattle.vv_laws.specs.Counts.{entries_added, entries_taken, reserved_added, reserved_taken, allocated_added, allocated_taken, charge_added, charge_taken};
ghost use Rattle.vv_laws.specs.GoneEntries.{entries_gone, entries_put, freed_count};

/// What an accepted change of each kind adds to the entries of all lists, and what it takes from them.
pub fn entries_go_by_the_change()
    ensures { (misfit : Option Misfit) → (d : Durable ℕ) → (change : Change) → judge misfit d change ≡ Accept
        → entries (apply_shape d change) + entries_taken d change ≡ entries d + entries_added d change }
{}

/// And what it adds to the reserved chunks of a well-formed shape, and takes from them.
pub fn reserved_chunks_go_by_the_change()
    ensures { (misfit : Option Misfit) → (d : Durable ℕ) → (change : Change) → IsTrue (is_well_formed_shape d)
        → judge misfit d change ≡ Accept
        → reserved (apply_shape d change) + reserved_taken d change ≡ reserved d + reserved_added d change }
{}

/// What it adds to the allocated chunks of each volume, and takes from them; a volume that doesn't stand has none.
pub fn allocated_chunks_go_by_the_change()
    ensures { (misfit : Option Misfit) → (d : Durable ℕ) → (change : Change) → IsTrue (is_well_formed_shape d)
        → judge misfit d change ≡ Accept → (volume : ℕ)
        → allocated_of (apply_shape d change) volume + allocated_taken d change volume
        ≡ allocated_of d volume + allocated_added d change volume }
{}

/// And what it adds to what each container is charged for, and takes from it.
pub fn charges_go_by_the_change()
    ensures { (misfit : Option Misfit) → (d : Durable ℕ) → (change : Change) → IsTrue (is_well_formed_shape d)
        → judge misfit d change ≡ Accept → (container : ℕ)
        → charge (apply_shape d change) container + charge_taken d change container
        ≡ charge d container + charge_added d change container }
{}

/// How many places of the pool are used after a record that fits well-formed tables: one more for each new place, and one
/// less for each place that entries name which are gone, and none that stays.
pub fn used_places_go_by_the_record()
    ensures { (tables : Durable Entry) → (change : Change) → (places : List ℕ) → IsTrue (is_well_formed tables)
        → IsTrue (fits tables change places)
        → used (shape_of_tables (replayed tables change places))
        + freed_count tables.geometry.pool_chunks (entries_gone tables change) (all_pieces (replayed tables change places))
        ≡ used (shape_of_tables tables) + length places }
{}

/// An entry names a place exactly where the place's count of names isn't 0.
pub fn a_place_is_named_where_its_count_is_not_0()
    ensures { (all : List (Piece Entry)) → (place : ℕ) → is_named all place ≡ not (place_count all place == 0) }
{}

/// How often each place is named after a record that fits well-formed tables: as much oftener as the entries that are put in
/// name it, and as much less often as those that are gone.
pub fn names_of_places_go_by_the_record()
    ensures { (tables : Durable Entry) → (change : Change) → (places : List ℕ) → IsTrue (is_well_formed tables)
        → IsTrue (fits tables change places) → (place : ℕ)
        → place_count (all_pieces (replayed tables change places)) place + place_count (entries_gone tables change) place
        ≡ place_count (all_pieces tables) place + place_count (entries_put tables change places) place }
{}

/// A turn copies 16 chunks at most.
pub fn a_turn_copies_few_chunks()
    ensures { (d : Durable ℕ) → (task : ℕ) → length (turned_indexes (λ s. s) d task) ≤ 16 }
{}

/// Exactly the least of 16 and what is left, where the task is a clone that runs.
pub fn a_turn_copies_the_least_of_16_and_what_is_left()
    ensures { (d : Durable ℕ) → IsTrue (is_well_formed_shape d) → (task : Task) → task_of d task.number ≡ Some task
        → IsTrue (is_running task) → IsTrue (is_clone task.job)
        → length (turned_indexes (λ s. s) d task.number) ≡ next_piece task }
{}

/// A write of 1 to 2048 blocks touches 1 to 257 chunks.
pub fn a_write_touches_few_chunks()
    ensures { (chunk_blocks first blocks : ℕ) → IsTrue (is_chunk_size chunk_blocks) → 1 ≤ blocks → blocks ≤ 2048
        → (1 ≤ length (touched_indexes chunk_blocks first blocks)) × (length (touched_indexes chunk_blocks first blocks) ≤ 257) }
{}
