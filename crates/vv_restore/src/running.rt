//! The running clones and the running copies of well-formed tables, added to tables that are put together again.
ghost use Rattle.std.specs.Prelude.{◌≡◌, ◌+◌, ◌≤◌, ◌<◌, ◌++◌, ◌∷◌, [], true, map, length, IsTrue, IfOk, OnOk, None};
ghost use Rattle.vv_flat.specs.Lists.{all_rising};
ghost use Rattle.vv_flat.specs.State.{Piece, indexed, all_pieces, volume_of};
ghost use Rattle.vv_flat.specs.Chunks.{Entry as SeenEntry};
ghost use Rattle.vv_flat.specs.Fields.{are_pairs};
ghost use Rattle.vv_flat.specs.Sharing.{shares_places};
ghost use Rattle.vv_flat.specs.Space.{entries as entries_of};
ghost use Rattle.vv_flat.specs.WellFormed.{is_well_formed};
ghost use Rattle.vv_vols.specs.Rows.{seen_entries};
ghost use Rattle.vv_tables.specs.Giving.{seen_pieces};
ghost use Rattle.vv_tables.specs.Restored.{given_clone, given_copy};
ghost use Rattle.vv_area.specs.Area.{tables_of};

use crate::heads::{copy_entries, copy_pairs, copy_pieces};
use std::alloc::Global;
use std::marker::Brand;
use std::sync::ledger::{Blank, Ledger};
use vv_area::{RawClone, RawCopy, RawTables};
use vv_copies::copy_needs;
use vv_entries::Entry;
use vv_tables::{GivenPiece, Restored};
use vv_units::{NoMemory, Steps, TaskId, VolumeKind};
use vv_vols::Head;

/// Adds the running clones of tables that are well-formed, of which all is there but running clones and running copies. Want
/// of memory leaves a part of them added.
pub(crate) fn add_clones(
    alloc: Global,
    restored: &mut Restored,
    raw: &RawTables,
) -> Result<(), NoMemory>
    requires well { is_well_formed (tables_of raw.now) ≡ true }
    requires so_far { restored.old ≡ record (tables_of raw.now) { clones = []; copies = [] } }
    ensures { OnOk result (restored.new ≡ record (tables_of raw.now) { copies = [] }) }
{
    let clones = raw.clones.items();
    for clone in clones {
        add_clone(alloc, restored, clone)?;
    }
    Ok(())
}

/// Adds a running clone, whose image and target are as long. No volume has its number.
fn add_clone(alloc: Global, restored: &mut Restored, clone: &RawClone) -> Result<(), NoMemory>
    requires pairs { IsTrue (are_pairs clone.now.metadata) }
    requires room { length restored.old.clones < 16 }
    requires unused { volume_of restored.old clone.now.number ≡ None }
    requires size { length clone.now.target ≡ length clone.now.image }
    requires few { entries_of restored.old + length clone.now.image + length clone.now.target ≤ restored.old.geometry.map_chunks }
    requires shares { IsTrue (shares_places restored.old.geometry.pool_chunks (all_pieces restored.old ++ (indexed clone.now.image ++ indexed clone.now.target))) }
    ensures { OnOk result (restored.new ≡ record restored.old { clones = restored.old.clones ++ clone.now ∷ [] }) }
{
    let head = clone_head(alloc, clone)?;
    let image = copy_entries(alloc, &clone.image)?;
    let target = copy_entries(alloc, &clone.target)?;
    give_clone::<Brand>(restored, clone.number, head, &image, &target, Blank::new(1))
}

/// The head of the volume that a running clone makes.
fn clone_head(alloc: Global, clone: &RawClone) -> Result<Head, NoMemory>
    requires { IsTrue (are_pairs clone.now.metadata) }
    ensures { IfOk result (λ head. given_clone clone.now.number head clone.now.image clone.now.target ≡ clone.now) }
{
    Ok(Head {
        container: clone.container,
        vtype: clone.vtype,
        kind: VolumeKind::Plain,
        reverted: 0,
        needs: copy_needs(alloc, &clone.needs)?,
        metadata: copy_pairs(alloc, &clone.metadata)?,
    })
}

/// Adds a running clone with this head, image and target, and counts the steps for nobody.
fn give_clone<L: Ledger>(
    restored: &mut Restored,
    id: TaskId,
    head: Head,
    image: &[Entry],
    target: &[Entry],
    blank: Blank,
) -> Result<(), NoMemory>
    requires room { length restored.old.clones < 16 }
    requires unused { volume_of restored.old id.0 ≡ None }
    requires size { length target.now ≡ length image.now }
    requires few { entries_of restored.old + length image.now + length target.now ≤ restored.old.geometry.map_chunks }
    requires shares { IsTrue (shares_places restored.old.geometry.pool_chunks (all_pieces restored.old ++ (indexed (seen_entries image.now) ++ indexed (seen_entries target.now)))) }
    requires name { blank.name ≡ L.name }
    requires parts { blank.parts ≡ L.parts }
    requires some { 0 < blank.parts }
    ensures { OnOk result (restored.new ≡ record restored.old { clones = restored.old.clones ++ given_clone id.0 head (seen_entries image.now) (seen_entries target.now) ∷ [] }) }
{
    let mut steps: Steps<L> = Steps::new(blank);
    restored.add_clone(id, head, image, target, &mut steps)
}

/// Adds the running copies of tables that are well-formed, of which all is there but running copies. Want of memory leaves a
/// part of them added.
pub(crate) fn add_copies(
    alloc: Global,
    restored: &mut Restored,
    raw: &RawTables,
) -> Result<(), NoMemory>
    requires well { is_well_formed (tables_of raw.now) ≡ true }
    requires so_far { restored.old ≡ record (tables_of raw.now) { copies = [] } }
    ensures { OnOk result (restored.new ≡ tables_of raw.now) }
{
    let copies = raw.copies.items();
    for copy in copies {
        add_copy(alloc, restored, copy)?;
    }
    Ok(())
}

/// Adds a running copy, whose pieces have rising indexes.
fn add_copy(alloc: Global, restored: &mut Restored, copy: &RawCopy) -> Result<(), NoMemory>
    requires room { length restored.old.copies < 16 }
    requires few { entries_of restored.old + length copy.now.pieces ≤ restored.old.geometry.map_chunks }
    requires rising { IsTrue (all_rising (map (λ (a : Piece SeenEntry). a.index) copy.now.pieces)) }
    requires shares { IsTrue (shares_places restored.old.geometry.pool_chunks (all_pieces restored.old ++ copy.now.pieces)) }
    ensures { OnOk result (restored.new ≡ record restored.old { copies = restored.old.copies ++ copy.now ∷ [] }) }
{
    let pieces = copy_pieces(alloc, &copy.pieces)?;
    give_copy::<Brand>(restored, copy.number, &pieces, Blank::new(1))
}

/// Adds a running copy with these pieces, and counts the steps for nobody.
fn give_copy<L: Ledger>(
    restored: &mut Restored,
    id: TaskId,
    pieces: &[GivenPiece],
    blank: Blank,
) -> Result<(), NoMemory>
    requires room { length restored.old.copies < 16 }
    requires few { entries_of restored.old + length pieces.now ≤ restored.old.geometry.map_chunks }
    requires rising { IsTrue (all_rising (map (λ (a : Piece SeenEntry). a.index) (seen_pieces pieces.now))) }
    requires shares { IsTrue (shares_places restored.old.geometry.pool_chunks (all_pieces restored.old ++ seen_pieces pieces.now)) }
    requires name { blank.name ≡ L.name }
    requires parts { blank.parts ≡ L.parts }
    requires some { 0 < blank.parts }
    ensures { OnOk result (restored.new ≡ record restored.old { copies = restored.old.copies ++ given_copy id.0 (seen_pieces pieces.now) ∷ [] }) }
{
    let mut steps: Steps<L> = Steps::new(blank);
    restored.add_copy(id, pieces, &mut steps)
}
