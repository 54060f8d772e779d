//! All entries of tables, each where it stands.
ghost use Rattle.std.specs.Prelude.{◌≡◌, ◌++◌, ◌∷◌, [], Option, None, Some, IfOk, OnOk};
ghost use Rattle.std.specs.List.{flat_map};
ghost use Rattle.vv_flat.specs.State.{Volume, RunningClone, RunningCopy, indexed};
ghost use Rattle.vv_flat.specs.Chunks.{Entry};
ghost use Rattle.vv_flat.specs.Sharing.{standing, standings};
ghost use Rattle.vv_area.specs.Area.{tables_of};

use crate::rows::{ChunkEntry, RawPiece};
use crate::tables::RawTables;
use std::alloc::{AllocError, Global};
use vv_rules::StandingEntry;

/// The entries of all volumes, images, targets and copies.
#[tactic(auto, unfolding(vv_flat::specs::Sharing::standings))]
pub(super) fn standings(alloc: Global, tables: &RawTables) -> Result<Vec<StandingEntry>, AllocError>
    ensures { IfOk result (λ all. all.items ≡ standings (tables_of tables.now)) }
{
    let mut all = Vec::new(alloc);
    put_volumes(&mut all, tables)?;
    put_clones(&mut all, tables)?;
    put_copies(&mut all, tables)?;
    Ok(all)
}

fn put_volumes(all: &mut Vec<StandingEntry>, tables: &RawTables) -> Result<(), AllocError>
    ensures { OnOk result (all.new.items ≡ all.old.items ++ flat_map (λ (v : Volume Entry). standing None (indexed v.chunks)) tables.now.volumes) }
{
    for volume in tables.volumes.items() {
        put_entries(all, None, volume.entries.items())?;
    }
    Ok(())
}

fn put_clones(all: &mut Vec<StandingEntry>, tables: &RawTables) -> Result<(), AllocError>
    ensures { OnOk result (all.new.items ≡ all.old.items ++ flat_map (λ (c : RunningClone Entry). standing None (indexed c.image) ++ standing (Some c.number) (indexed c.target)) tables.now.clones) }
{
    for clone in tables.clones.items() {
        put_entries(all, None, clone.image.items())?;
        put_entries(all, Some(clone.number.0), clone.target.items())?;
    }
    Ok(())
}

fn put_copies(all: &mut Vec<StandingEntry>, tables: &RawTables) -> Result<(), AllocError>
    ensures { OnOk result (all.new.items ≡ all.old.items ++ flat_map (λ (c : RunningCopy Entry). standing None c.pieces) tables.now.copies) }
{
    for copy in tables.copies.items() {
        put_pieces(all, copy.pieces.items())?;
    }
    Ok(())
}

fn put_entries(
    all: &mut Vec<StandingEntry>,
    target_of: Option<u64>,
    entries: &[ChunkEntry],
) -> Result<(), AllocError>
    ensures { OnOk result (all.new.items ≡ all.old.items ++ standing target_of (indexed entries.now)) }
{
    for (index, entry) in entries.iter().enumerate() {
        all.push(standing_at(target_of, index as u64, entry))?;
    }
    Ok(())
}

fn put_pieces(all: &mut Vec<StandingEntry>, pieces: &[RawPiece]) -> Result<(), AllocError>
    ensures { OnOk result (all.new.items ≡ all.old.items ++ standing None pieces.now) }
{
    for piece in pieces {
        all.push(standing_at(None, u64::from(piece.index), &piece.entry))?;
    }
    Ok(())
}

fn standing_at(target_of: Option<u64>, index: u64, entry: &ChunkEntry) -> StandingEntry
    ensures { result ≡ record { target_of = target_of; piece = record { index = index; chunk = entry.now } } }
{
    StandingEntry {
        target_of,
        index,
        place: place_of(entry),
        stamp: entry.stamp,
    }
}

fn place_of(entry: &ChunkEntry) -> Option<u32>
    ensures { result ≡ entry.now.place }
{
    match entry.place {
        Some(place) => Some(place.0),
        None => None,
    }
}
