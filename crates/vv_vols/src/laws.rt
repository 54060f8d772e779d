//! What keeps the entries of a shelf sharing places rightly, call by call. Each law is a function without arguments that
//! does nothing: what it ensures is the law.
ghost use Rattle.std.specs.Prelude.{ℕ, ◌≡◌, ◌+◌, List, length, IsTrue};
ghost use Rattle.std.specs.List.{Contains};
ghost use Rattle.vv_flat.specs.State.{Volume, Piece};
ghost use Rattle.vv_flat.specs.Chunks.{Entry, unmapped_entry};
ghost use Rattle.vv_flat.specs.NamedPlaces.{named_count};
ghost use Rattle.vv_vols.specs.Shelf.{HeldList, ShelfState, shelf_pieces, shelf_used, is_new_place, shares_rightly};
ghost use Rattle.vv_vols.specs.Calls.{with_made, with_deleted, with_chunks, with_entry, with_size, with_put, with_held, without_held};
ghost use Rattle.vv_vols.specs.Conditions.{is_new_stamp, AreUnmapped, Comes, Stands};

/// Where entries share places rightly, as many places are used as some entry names, and the fresh ones.
pub fn used_places_are_the_named_and_the_fresh()
    ensures { (s : ShelfState) → IsTrue (shares_rightly s)
        → shelf_used s ≡ named_count s.geometry.pool_chunks (shelf_pieces s) + length s.fresh }
{}

/// One more volume, of unmapped chunks.
pub fn a_made_volume_shares()
    ensures { (s : ShelfState) → (v : Volume Entry) → IsTrue (shares_rightly s) → AreUnmapped v.chunks → IsTrue (shares_rightly (with_made s v)) }
{}

/// One more volume with the chunks of one that stands, as at a snapshot and at a fast clone.
pub fn a_copied_volume_shares()
    ensures { (s : ShelfState) → (v w : Volume Entry) → IsTrue (shares_rightly s) → Contains s.volumes w → v.chunks ≡ w.chunks
        → IsTrue (shares_rightly (with_made s v)) }
{}

/// One volume less.
pub fn a_deletion_shares()
    ensures { (s : ShelfState) → (n : ℕ) → IsTrue (shares_rightly s) → IsTrue (shares_rightly (with_deleted s n)) }
{}

/// A volume that grows by unmapped chunks.
pub fn a_grown_volume_shares()
    ensures { (s : ShelfState) → (n chunks : ℕ) → IsTrue (shares_rightly s) → IsTrue (shares_rightly (with_size s n chunks)) }
{}

/// A volume with the chunks of another one, as at a revert.
pub fn a_reverted_volume_shares()
    ensures { (s : ShelfState) → (n : ℕ) → (w : Volume Entry) → IsTrue (shares_rightly s) → Contains s.volumes w
        → IsTrue (shares_rightly (with_chunks s n (λ _. w.chunks))) }
{}

/// An unmapped chunk.
pub fn an_unmapped_chunk_shares()
    ensures { (s : ShelfState) → (n index : ℕ) → IsTrue (shares_rightly s) → IsTrue (shares_rightly (with_entry s n index unmapped_entry)) }
{}

/// A chunk at a place that no entry names, with a stamp that no entry has at its index.
pub fn a_fresh_place_shares()
    ensures { (s : ShelfState) → (n index p stamp : ℕ) → IsTrue (shares_rightly s) → IsTrue (is_new_place s p)
        → IsTrue (is_new_stamp s index stamp) → IsTrue (shares_rightly (with_put s n index p stamp)) }
{}

/// A chunk with an entry that stands at its index elsewhere.
pub fn an_entry_that_stands_shares()
    ensures { (s : ShelfState) → (n index : ℕ) → (e : Entry) → IsTrue (shares_rightly s) → Stands s (record { index = index; chunk = e })
        → IsTrue (shares_rightly (with_entry s n index e)) }
{}

/// A held list of entries that stand or are unmapped, as an image and a target are.
pub fn a_held_list_shares()
    ensures { (s : ShelfState) → (h : HeldList) → IsTrue (shares_rightly s) → Comes s h.pieces → IsTrue (shares_rightly (with_held s h)) }
{}

/// A held list that is dropped.
pub fn a_dropped_list_shares()
    ensures { (s : ShelfState) → (n : ℕ) → IsTrue (shares_rightly s) → IsTrue (shares_rightly (without_held s n)) }
{}
