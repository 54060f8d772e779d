//! What the items of raw tables have in common, copied for tables in memory: pairs, entries and pieces.
ghost use Rattle.std.specs.Prelude.{◌≡◌, Some, IsTrue, IfOk, OnOk};
ghost use Rattle.vv_units.specs.Pairs.{after_set};
ghost use Rattle.vv_flat.specs.Fields.{are_pairs};
ghost use Rattle.vv_vols.specs.Rows.{seen_entry, seen_entries};
ghost use Rattle.vv_tables.specs.Giving.{seen_piece, seen_pieces};

use std::alloc::Global;
use vv_area::{ChunkEntry, EntryList, PairRows, PieceList, RawPiece};
use vv_copies::copy_key;
use vv_entries::Entry;
use vv_tables::GivenPiece;
use vv_units::{Key, NoMemory, Note, PairList};

/// The same pairs, in the same order. Their keys are all different.
pub(crate) fn copy_pairs(alloc: Global, rows: &PairRows) -> Result<PairList, NoMemory>
    requires { IsTrue (are_pairs rows.now) }
    ensures { IfOk result (λ pairs. pairs ≡ rows.now) }
{
    let rows = rows.items();
    let mut pairs = PairList::new(alloc);
    for (key, note) in rows {
        set_pair(&mut pairs, key, note)?;
    }
    Ok(pairs)
}

/// Sets the same note at the same key.
fn set_pair(pairs: &mut PairList, key: &Key, note: &Note) -> Result<(), NoMemory>
    ensures { OnOk result (pairs.new ≡ after_set pairs.old key.now (Some note.now)) }
{
    let key = copy_key(key)?;
    let note = note.clone().map_err(|_| NoMemory)?;
    pairs.set(key, Some(note))
}

/// The same entry.
fn copy_entry(entry: &ChunkEntry) -> Entry
    ensures { seen_entry result ≡ entry.now }
{
    Entry {
        place: entry.place,
        stamp: entry.stamp,
    }
}

/// The same entries, in the same order.
pub(crate) fn copy_entries(alloc: Global, entries: &EntryList) -> Result<Vec<Entry>, NoMemory>
    ensures { IfOk result (λ copies. seen_entries copies.items ≡ entries.now) }
{
    let entries = entries.items();
    let mut copies = Vec::with_capacity(alloc, entries.len()).map_err(|_| NoMemory)?;
    for entry in entries {
        if copies.push(copy_entry(entry)).is_err() {
            return Err(NoMemory);
        }
    }
    Ok(copies)
}

/// The same piece.
fn copy_piece(piece: &RawPiece) -> GivenPiece
    ensures { seen_piece result ≡ piece.now }
{
    GivenPiece {
        index: piece.index,
        entry: copy_entry(&piece.entry),
    }
}

/// The same pieces, in the same order.
pub(crate) fn copy_pieces(alloc: Global, pieces: &PieceList) -> Result<Vec<GivenPiece>, NoMemory>
    ensures { IfOk result (λ copies. seen_pieces copies.items ≡ pieces.now) }
{
    let pieces = pieces.items();
    let mut copies = Vec::with_capacity(alloc, pieces.len()).map_err(|_| NoMemory)?;
    for piece in pieces {
        if copies.push(copy_piece(piece)).is_err() {
            return Err(NoMemory);
        }
    }
    Ok(copies)
}
