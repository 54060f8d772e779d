//! The volumes of well-formed tables, added to tables that are put together again.
ghost use Rattle.std.specs.Prelude.{◌≡◌, ◌+◌, ◌≤◌, ◌<◌, ◌++◌, ◌∷◌, [], nat_lt, true, length, IsTrue, IfOk, OnOk};
ghost use Rattle.std.specs.List.{list_all};
ghost use Rattle.vv_flat.specs.State.{Volume, indexed, all_pieces};
ghost use Rattle.vv_flat.specs.Chunks.{Entry as SeenEntry};
ghost use Rattle.vv_flat.specs.Fields.{are_pairs};
ghost use Rattle.vv_flat.specs.Sharing.{shares_places};
ghost use Rattle.vv_flat.specs.Space.{entries as entries_of};
ghost use Rattle.vv_flat.specs.WellFormed.{is_well_formed};
ghost use Rattle.vv_vols.specs.Rows.{seen_entries, volume_with};
ghost use Rattle.vv_area.specs.Area.{tables_of};

use crate::heads::{copy_entries, copy_pairs};
use std::alloc::Global;
use std::marker::Brand;
use std::sync::ledger::{Blank, Ledger};
use vv_area::{RawTables, RawVolume};
use vv_copies::copy_needs;
use vv_entries::Entry;
use vv_tables::Restored;
use vv_units::{NoMemory, Steps, VolumeId};
use vv_vols::Head;

/// Adds the volumes of tables that are well-formed, of which all is there but volumes, running clones and running copies. Want
/// of memory leaves a part of them added.
pub(crate) fn add_volumes(
    alloc: Global,
    restored: &mut Restored,
    raw: &RawTables,
) -> Result<(), NoMemory>
    requires well { is_well_formed (tables_of raw.now) ≡ true }
    requires so_far { restored.old ≡ record (tables_of raw.now) { volumes = []; clones = []; copies = [] } }
    ensures { OnOk result (restored.new ≡ record (tables_of raw.now) { clones = []; copies = [] }) }
{
    let volumes = raw.volumes.items();
    for volume in volumes {
        add_volume(alloc, restored, volume)?;
    }
    Ok(())
}

/// Adds a volume, by a number above all others.
fn add_volume(alloc: Global, restored: &mut Restored, volume: &RawVolume) -> Result<(), NoMemory>
    requires pairs { IsTrue (are_pairs volume.now.metadata) }
    requires above { IsTrue (list_all (λ (v : Volume SeenEntry). nat_lt v.number volume.now.number) restored.old.volumes) }
    requires few { entries_of restored.old + length volume.now.chunks ≤ restored.old.geometry.map_chunks }
    requires shares { IsTrue (shares_places restored.old.geometry.pool_chunks (all_pieces restored.old ++ indexed volume.now.chunks)) }
    ensures { OnOk result (restored.new ≡ record restored.old { volumes = restored.old.volumes ++ volume.now ∷ [] }) }
{
    let head = volume_head(alloc, volume)?;
    let entries = copy_entries(alloc, &volume.entries)?;
    give_volume::<Brand>(restored, volume.number, head, &entries, Blank::new(1))
}

/// The head of a volume.
fn volume_head(alloc: Global, volume: &RawVolume) -> Result<Head, NoMemory>
    requires { IsTrue (are_pairs volume.now.metadata) }
    ensures { IfOk result (λ head. volume_with volume.now.number head volume.now.chunks ≡ volume.now) }
{
    Ok(Head {
        container: volume.container,
        vtype: volume.vtype,
        kind: volume.kind,
        reverted: volume.reverted,
        needs: copy_needs(alloc, &volume.needs)?,
        metadata: copy_pairs(alloc, &volume.metadata)?,
    })
}

/// Adds a volume with this head and these entries, and counts the steps for nobody.
fn give_volume<L: Ledger>(
    restored: &mut Restored,
    id: VolumeId,
    head: Head,
    entries: &[Entry],
    blank: Blank,
) -> Result<(), NoMemory>
    requires above { IsTrue (list_all (λ (v : Volume SeenEntry). nat_lt v.number id.0) restored.old.volumes) }
    requires few { entries_of restored.old + length entries.now ≤ restored.old.geometry.map_chunks }
    requires shares { IsTrue (shares_places restored.old.geometry.pool_chunks (all_pieces restored.old ++ indexed (seen_entries entries.now))) }
    requires name { blank.name ≡ L.name }
    requires parts { blank.parts ≡ L.parts }
    requires some { 0 < blank.parts }
    ensures { OnOk result (restored.new ≡ record restored.old { volumes = restored.old.volumes ++ volume_with id.0 head (seen_entries entries.now) ∷ [] }) }
{
    let mut steps: Steps<L> = Steps::new(blank);
    restored.add_volume(id, head, entries, &mut steps)
}
