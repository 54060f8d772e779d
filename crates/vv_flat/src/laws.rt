//! Laws of the definitions. Each is a function without arguments that does nothing: what it ensures is the law.
ghost use Rattle.std.specs.Prelude.{◌≡◌, ◌≤◌, ℕ, ◌+◌, List, map, Option, IsTrue};
ghost use Rattle.vv_units.specs.declared.geometry.Geometry.{Geometry};
ghost use Rattle.vv_flat.specs.State.{Array, Durable, Piece, all_pieces, empty_durable, map_durable};
ghost use Rattle.vv_flat.specs.Chunks.{ChunkValue, Entry, filled, unmapped_value, unmapped_entry, shape, shape_of_tables, filled_tables, placed_entries};
ghost use Rattle.vv_flat.specs.Restart.{restarted, interrupted_durable, interrupted};
ghost use Rattle.vv_flat.specs.Profiles.{Misfit};
ghost use Rattle.vv_flat.specs.Refusals.{Nothing, Accept};
ghost use Rattle.vv_flat.specs.Space.{used, reserved, entries};
ghost use Rattle.vv_flat.specs.Sharing.{shares, shares_places, stamps_tell_bytes};
ghost use Rattle.vv_flat.specs.NamedPlaces.{named_count, used_by};
ghost use Rattle.vv_flat.specs.Form.{is_formed};
ghost use Rattle.vv_flat.specs.Rules.{numbers_rule, names_rule, clones_rule, copies_rule, charges_fit, keeps_shape_rules, has_its_fields, meets_rules};
ghost use Rattle.vv_flat.specs.Changes.{Change, judge, effect, apply, apply_shape, new_stamp};
ghost use Rattle.vv_flat.specs.Replay.{fits, replayed};
ghost use Rattle.vv_flat.specs.Flat.{has_its_bytes, new_values, flat_after};

/// A change goes with every function of the chunks that keeps their stamps: to change an array and then replace its
/// chunks is to replace them and then change it.
pub fn changes_go_with_the_chunks<X, Y>()
    ensures { (f : X → Y) → (stamp : X → ℕ) → (stamp_of : Y → ℕ) → ((x : X) → stamp_of (f x) ≡ stamp x)
        → (values : List X) → (unmapped : X) → (d : Durable X) → (change : Change)
        → map_durable f (apply stamp values unmapped d change)
        ≡ apply stamp_of (map f values) (f unmapped) (map_durable f d) change }
{}

/// The shape after a change is known from the shape before it and the new stamps.
pub fn the_shape_goes_its_own_way()
    ensures { (values : List ChunkValue) → (unmapped : ChunkValue) → (d : Durable ChunkValue) → (change : Change)
        → shape (apply (λ x. x.stamp) values unmapped d change)
        ≡ apply (λ s. s) (map (λ x. x.stamp) values) unmapped.stamp (shape d) change }
{}

/// Tables stand for a flat array, and still do after a change of both, where the pool has the bytes of the new chunks
/// at the places of the new entries.
pub fn filled_tables_go_as_the_flat_array()
    ensures { (bytes_at : ℕ → List ℕ) → (entries : List Entry) → (tables : Durable Entry) → (change : Change)
        → filled_tables bytes_at (apply (λ e. e.stamp) entries unmapped_entry tables change)
        ≡ apply (λ x. x.stamp) (map (filled tables.geometry.chunk_blocks bytes_at) entries)
        (unmapped_value tables.geometry.chunk_blocks) (filled_tables bytes_at tables) change }
{}

/// The flat array after a change with its bytes has the shape that the change makes of its shape.
pub fn a_step_goes_by_the_shape()
    ensures { (d : Durable ChunkValue) → (change : Change) → (bytes : List ℕ) → IsTrue (has_its_bytes change bytes)
        → shape (flat_after d change bytes) ≡ apply_shape (shape d) change }
{}

/// And so have tables after a record that fits them.
pub fn a_record_goes_by_the_shape()
    ensures { (tables : Durable Entry) → (change : Change) → (places : List ℕ) → IsTrue (fits tables change places)
        → shape_of_tables (replayed tables change places) ≡ apply_shape (shape_of_tables tables) change }
{}

/// Where the places of a record hold the new bytes of a call, the tables after the record stand for the flat array
/// after the call.
pub fn a_record_does_what_its_call_does()
    ensures { (bytes_at : ℕ → List ℕ) → (tables : Durable Entry) → (change : Change) → (places bytes : List ℕ)
        → map (filled tables.geometry.chunk_blocks bytes_at) (placed_entries places (new_stamp tables change))
        ≡ new_values (filled_tables bytes_at tables) change bytes
        → filled_tables bytes_at (replayed tables change places)
        ≡ flat_after (filled_tables bytes_at tables) change bytes }
{}

/// Where two arrays differ in bytes alone, every change is answered alike.
pub fn arrays_of_one_shape_are_answered_alike()
    ensures { (d e : Durable ChunkValue) → shape d ≡ shape e → (misfit : Option Misfit) → (change : Change)
        → judge misfit (shape d) change ≡ judge misfit (shape e) change }
{}

/// And they differ in bytes alone afterwards, where the new chunks do.
pub fn arrays_of_one_shape_keep_one_shape()
    ensures { (d e : Durable ChunkValue) → shape d ≡ shape e → (these those : List ChunkValue)
        → map (λ (x : ChunkValue). x.stamp) these ≡ map (λ (x : ChunkValue). x.stamp) those
        → (unmapped : ChunkValue) → (change : Change)
        → shape (apply (λ x. x.stamp) these unmapped d change) ≡ shape (apply (λ x. x.stamp) those unmapped e change) }
{}

/// What is answered as changing nothing leaves the durable part as it is.
pub fn nothing_leaves_all_as_it_is<X>()
    ensures { (stamp : X → ℕ) → (values : List X) → (unmapped : X) → (misfit : Option Misfit) → (d : Durable X)
        → (change : Change) → judge misfit (map_durable stamp d) change ≡ Nothing
        → effect stamp values unmapped d change ≡ d }
{}

/// An accepted change leaves the entries of all lists within the map.
pub fn entries_stay_within_the_map()
    ensures { (misfit : Option Misfit) → (d : Durable ℕ) → (change : Change) → judge misfit d change ≡ Accept
        → entries d ≤ d.geometry.map_chunks → entries (apply_shape d change) ≤ d.geometry.map_chunks }
{}

/// And what is used and reserved within the pool, where the running clones have copied what their tasks say.
pub fn chunks_stay_within_the_pool()
    ensures { (misfit : Option Misfit) → (d : Durable ℕ) → (change : Change) → IsTrue (clones_rule d)
        → judge misfit d change ≡ Accept → used d + reserved d ≤ d.geometry.pool_chunks
        → used (apply_shape d change) + reserved (apply_shape d change) ≤ d.geometry.pool_chunks }
{}

/// And the charge of each container within its quota, in tables that have their form and keep the rules on numbers,
/// names, running clones and running copies.
pub fn charges_stay_within_quotas()
    ensures { (misfit : Option Misfit) → (d : Durable ℕ) → (change : Change) → IsTrue (is_formed d)
        → IsTrue (numbers_rule d) → IsTrue (names_rule d) → IsTrue (clones_rule d) → IsTrue (copies_rule d)
        → judge misfit d change ≡ Accept → IsTrue (charges_fit d) → IsTrue (charges_fit (apply_shape d change)) }
{}

/// Tables that share rightly stand for an array in which two chunks of one index and one stamp have the same bytes.
pub fn shared_entries_have_the_same_bytes()
    ensures { (bytes_at : ℕ → List ℕ) → (tables : Durable Entry) → IsTrue (shares tables)
        → IsTrue (stamps_tell_bytes (filled_tables bytes_at tables)) }
{}

/// Every change takes the next log number.
pub fn a_change_takes_the_next_number<X>()
    ensures { (stamp : X → ℕ) → (values : List X) → (unmapped : X) → (d : Durable X) → (change : Change)
        → (apply stamp values unmapped d change).lsn ≡ d.lsn + 1 }
{}

/// A second restart does nothing more.
pub fn a_restart_is_done_once<X>()
    ensures { (a : Array X) → restarted (restarted a) ≡ restarted a }
{}

/// A second interruption does nothing more.
pub fn an_interruption_is_done_once<X>()
    ensures { (a : Array X) → interrupted (interrupted a) ≡ interrupted a }
{}

/// In tables that have their form and keep the rules that their shape decides, an accepted change whose fields are inside
/// their limits keeps the form and all these rules.
pub fn the_rules_of_the_shape_stay()
    ensures { (misfit : Option Misfit) → (d : Durable ℕ) → (change : Change) → IsTrue (keeps_shape_rules d)
        → IsTrue (has_its_fields change) → judge misfit d change ≡ Accept → IsTrue (keeps_shape_rules (apply_shape d change)) }
{}

/// A record that fits tables keeps the sharing of their places, where the tables keep those rules.
pub fn a_record_keeps_the_sharing()
    ensures { (tables : Durable Entry) → (change : Change) → (places : List ℕ) → IsTrue (keeps_shape_rules (shape_of_tables tables))
        → IsTrue (shares tables) → IsTrue (fits tables change places) → IsTrue (shares (replayed tables change places)) }
{}

/// Tables that have their form and meet all nine rules still do after a record that fits them, whose fields are inside
/// their limits.
pub fn a_record_keeps_all_rules()
    ensures { (tables : Durable Entry) → (change : Change) → (places : List ℕ) → IsTrue (is_formed tables)
        → IsTrue (meets_rules tables) → IsTrue (has_its_fields change) → IsTrue (fits tables change places)
        → IsTrue (is_formed (replayed tables change places)) × IsTrue (meets_rules (replayed tables change places)) }
{}

/// An interruption keeps the form of tables and all nine rules.
pub fn an_interruption_keeps_all_rules()
    ensures { (tables : Durable Entry) → IsTrue (is_formed tables) → IsTrue (meets_rules tables)
        → IsTrue (is_formed (interrupted_durable tables)) × IsTrue (meets_rules (interrupted_durable tables)) }
{}

/// The tables of an empty array have their form and meet all nine rules.
pub fn the_empty_tables_meet_all_rules()
    ensures { (geometry : Geometry) → IsTrue (is_formed (empty_durable {X = Entry} geometry)) × IsTrue (meets_rules (empty_durable geometry)) }
{}

/// Entries that share places rightly use as many chunks of the pool as they name places: a pair of index and stamp has
/// one place, and no other pair has it.
pub fn shared_entries_use_what_they_name()
    ensures { (pool_chunks : ℕ) → (all : List (Piece Entry)) → IsTrue (shares_places pool_chunks all)
        → used_by all ≡ named_count pool_chunks all }
{}

/// And so do all entries of tables.
pub fn tables_use_what_they_name()
    ensures { (tables : Durable Entry) → IsTrue (shares tables)
        → used (shape_of_tables tables) ≡ named_count tables.geometry.pool_chunks (all_pieces tables) }
{}
