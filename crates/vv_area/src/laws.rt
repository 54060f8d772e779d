//! Laws of the spelling of tables. Each is a function without arguments that does nothing: what it ensures is the law.
ghost use Rattle.std.specs.Prelude.{◌≡◌, ◌≤◌, ◌+◌, ◌-◌, ◌*◌, ◌++◌, ℕ, List, length, drop, IsTrue, Ok};
ghost use Rattle.std.specs.List.{flat_map};
ghost use Rattle.vv_fields.specs.Fields.{AreBytes};
ghost use Rattle.vv_units.specs.declared.geometry.Geometry.{Geometry};
ghost use Rattle.vv_record.specs.Spelling.{list_spelling};
ghost use Rattle.vv_flat.specs.State.{Container, Volume, Context, Binding, Task, RunningClone, Piece, RunningCopy, Durable};
ghost use Rattle.vv_flat.specs.Chunks.{Entry};
ghost use Rattle.vv_flat.specs.Form.{is_formed};
ghost use Rattle.vv_flat.specs.Rules.{meets_rules};
ghost use Rattle.vv_flat.specs.Fields.{have_forms};
ghost use Rattle.vv_area.specs.Area.{tables_in};
ghost use Rattle.vv_area.specs.Spelling.{area_spelling, is_spellable, container_spelling, volume_spelling, entry_spelling, context_spelling, binding_spelling, task_spelling, clone_spelling, piece_spelling, copy_spelling, runs_spelling, are_runs};
ghost use Rattle.vv_area.specs.Lengths.{area_length, area_limit, containers_length, volumes_length, contexts_length, bindings_length, tasks_length, runs_length, container_length, volume_length, context_length, binding_length, task_length, clone_length, copy_length};
ghost use Rattle.vv_area.specs.Pieces.{bytes_within};

/// Tables that have a spelling are read from it.
pub fn spelled_tables_are_read()
    ensures { (spelling : ℕ) → (d : Durable Entry) → IsTrue (is_spellable spelling d)
        → tables_in d.geometry spelling (area_spelling spelling d) ≡ Ok d }
{}

/// Bytes that are read as tables are their spelling, and the tables have one.
pub fn tables_that_are_read_are_spelled_so()
    ensures { (geometry : Geometry) → (spelling : ℕ) → (bytes : List ℕ) → (d : Durable Entry) → AreBytes bytes
        → tables_in geometry spelling bytes ≡ Ok d
        → (bytes ≡ area_spelling spelling d) × IsTrue (is_spellable spelling d) × (d.geometry ≡ geometry) }
{}

/// A spelling belongs to one table.
pub fn a_spelling_belongs_to_one_table()
    ensures { (spelling : ℕ) → (c d : Durable Entry) → IsTrue (is_spellable spelling c) → IsTrue (is_spellable spelling d)
        → c.geometry ≡ d.geometry → area_spelling spelling c ≡ area_spelling spelling d → c ≡ d }
{}

/// Tables that have their form, meet the nine rules and have fields in their forms have a spelling 2, which fits the area
/// of an image.
pub fn well_formed_tables_fit_an_area()
    ensures { (d : Durable Entry) → IsTrue (is_formed d) → IsTrue (meets_rules d) → IsTrue (have_forms d)
        → IsTrue (is_spellable 2 d) × (length (area_spelling 2 d) ≤ area_limit d.geometry.map_chunks) }
{}

/// A spelling is as long as its length says.
pub fn a_spelling_has_its_length()
    ensures { (spelling : ℕ) → (d : Durable Entry) → IsTrue (is_spellable spelling d)
        → length (area_spelling spelling d) ≡ area_length spelling d }
{}

/// So are the sections of a spelling.
pub fn sections_have_their_lengths()
    ensures containers { (xs : List Container) → length (list_spelling 1 container_spelling xs) ≡ containers_length xs }
    ensures volumes { (spelling : ℕ) → (xs : List (Volume Entry))
        → length (list_spelling 2 (volume_spelling spelling) xs) ≡ volumes_length spelling xs }
    ensures contexts { (xs : List Context) → length (list_spelling 1 context_spelling xs) ≡ contexts_length xs }
    ensures bindings { (xs : List Binding) → length (list_spelling 2 binding_spelling xs) ≡ bindings_length xs }
    ensures tasks { (xs : List Task) → length (list_spelling 2 task_spelling xs) ≡ tasks_length xs }
    ensures runs { (spelling : ℕ) → (ts : List Task) → (clones : List (RunningClone Entry)) → (copies : List (RunningCopy Entry))
        → IsTrue (are_runs spelling ts clones copies) → length (runs_spelling ts clones copies) ≡ runs_length clones copies }
{}

/// And so are their items.
pub fn items_have_their_lengths()
    ensures container { (k : Container) → length (container_spelling k) ≡ container_length k }
    ensures volume { (spelling : ℕ) → (v : Volume Entry) → length (volume_spelling spelling v) ≡ volume_length spelling v }
    ensures entry { (e : Entry) → length (entry_spelling e) ≡ 12 }
    ensures context { (c : Context) → length (context_spelling c) ≡ context_length c }
    ensures binding { (b : Binding) → length (binding_spelling b) ≡ binding_length }
    ensures task { (t : Task) → length (task_spelling t) ≡ task_length t }
    ensures clone { (c : RunningClone Entry) → length (clone_spelling c) ≡ clone_length c }
    ensures piece { (p : Piece Entry) → length (piece_spelling p) ≡ 16 }
    ensures copy { (c : RunningCopy Entry) → length (copy_spelling c) ≡ copy_length c }
{}

/// A piece of two texts, one behind the other, is cut at their border; and a piece is two pieces.
pub fn a_piece_is_cut()
    ensures texts { (at n : ℕ) → (xs ys : List ℕ)
        → bytes_within at n (xs ++ ys) ≡ bytes_within at n xs ++ bytes_within (at - length xs) (n - (length xs - at)) ys }
    ensures pieces { (at m n : ℕ) → (text : List ℕ)
        → bytes_within at (m + n) text ≡ bytes_within at m text ++ bytes_within (at + m) n text }
{}

/// Where items have one length, the bytes from the place of one on are those of the items from it on.
pub fn items_of_one_length_have_their_places()
    ensures entries { (k : ℕ) → (xs : List Entry) → drop (12 * k) (flat_map entry_spelling xs) ≡ flat_map entry_spelling (drop k xs) }
    ensures bindings { (k : ℕ) → (xs : List Binding)
        → drop (18 * k) (flat_map binding_spelling xs) ≡ flat_map binding_spelling (drop k xs) }
    ensures pieces { (k : ℕ) → (xs : List (Piece Entry))
        → drop (16 * k) (flat_map piece_spelling xs) ≡ flat_map piece_spelling (drop k xs) }
{}

/// Tables that have a spelling have their form, and so have their fields. So those that are read have.
pub fn spelled_tables_have_their_form()
    ensures form { (spelling : ℕ) → (d : Durable Entry) → IsTrue (is_spellable spelling d) → IsTrue (is_formed d) }
    ensures fields { (spelling : ℕ) → (d : Durable Entry) → IsTrue (is_spellable spelling d) → IsTrue (have_forms d) }
{}
