//! Snapshots, fast clones and reverts.
ghost use Rattle.std.specs.Prelude.{◌≡◌, None};
ghost use Rattle.vv_flat.specs.Chunks.{shape_of_tables};
ghost use Rattle.vv_flat.specs.Changes.{Snapshot, FastClone, Revert, state_checks, room_checks};
ghost use Rattle.vv_judge.specs.Seen.{seen_check, refused_by};

use crate::answer::{Refusal, first_refusal, refuse_if};
use crate::checks::{
    bound_or_busy, exhausted, map_full, missing_volume, over_quota, too_many_pairs,
    too_many_volumes, where_positive,
};
use vv_tables::Tables;
use vv_units::{Field, VolumeId};

/// What is wrong with a volume of which a snapshot is to be made.
#[tactic(auto, unfolding(vv_flat::specs::Changes::state_checks))]
pub(crate) fn snapshot_state(tables: &Tables, id: VolumeId) -> Option<Refusal>
    ensures { seen_check result ≡ refused_by (state_checks (shape_of_tables tables.now.durable) (Snapshot id.0)) }
{
    let name = Field::Vvol;
    let is_snapshot = tables.is_snapshot(id);
    first_refusal(&[
        missing_volume(tables, id, name),
        refuse_if(is_snapshot, Refusal::IncompatibleVolume { name }),
    ])
}

/// The limits that may be in the way of a snapshot.
#[tactic(auto, unfolding(vv_flat::specs::Changes::room_checks))]
pub(crate) fn snapshot_room(tables: &Tables, id: VolumeId) -> Option<Refusal>
    ensures { seen_check result ≡ refused_by (room_checks None (shape_of_tables tables.now.durable) (Snapshot id.0)) }
{
    let home = tables.home_of(id);
    first_refusal(&[
        exhausted(tables),
        too_many_volumes(tables),
        too_many_pairs(tables, tables.pairs(id)),
        over_quota(tables, home, tables.allocated(id)),
        map_full(tables, tables.size(id)),
    ])
}

/// What is wrong with a volume of which a fast clone is to be made.
#[tactic(auto, unfolding(vv_flat::specs::Changes::state_checks))]
pub(crate) fn fast_clone_state(tables: &Tables, id: VolumeId) -> Option<Refusal>
    ensures { seen_check result ≡ refused_by (state_checks (shape_of_tables tables.now.durable) (FastClone id.0)) }
{
    first_refusal(&[missing_volume(tables, id, Field::Vvol)])
}

/// The limits that may be in the way of a fast clone.
#[tactic(auto, unfolding(vv_flat::specs::Changes::room_checks))]
pub(crate) fn fast_clone_room(tables: &Tables, id: VolumeId) -> Option<Refusal>
    ensures { seen_check result ≡ refused_by (room_checks None (shape_of_tables tables.now.durable) (FastClone id.0)) }
{
    let home = tables.home_of(id);
    first_refusal(&[
        exhausted(tables),
        too_many_volumes(tables),
        too_many_pairs(tables, tables.pairs(id)),
        over_quota(tables, home, tables.allocated(id)),
        map_full(tables, tables.size(id)),
    ])
}

/// What is wrong with a volume that is to be reverted, or with the snapshot.
#[tactic(auto, unfolding(vv_flat::specs::Changes::state_checks))]
pub(crate) fn revert_state(tables: &Tables, id: VolumeId, snapshot: VolumeId) -> Option<Refusal>
    ensures { seen_check result ≡ refused_by (state_checks (shape_of_tables tables.now.durable) (Revert id.0 snapshot.0)) }
{
    let name = Field::Snapshot;
    let is_of_it = tables.is_snapshot_of(snapshot, id);
    first_refusal(&[
        missing_volume(tables, id, Field::Vvol),
        missing_volume(tables, snapshot, name),
        refuse_if(!is_of_it, Refusal::IncompatibleVolume { name }),
        bound_or_busy(tables, id, Field::Vvol),
    ])
}

/// The limits that may be in the way of a revert.
#[tactic(auto, unfolding(vv_flat::specs::Changes::room_checks))]
pub(crate) fn revert_room(tables: &Tables, id: VolumeId, snapshot: VolumeId) -> Option<Refusal>
    ensures { seen_check result ≡ refused_by (room_checks None (shape_of_tables tables.now.durable) (Revert id.0 snapshot.0)) }
{
    let home = tables.home_of(id);
    let more_allocated = tables
        .allocated(snapshot)
        .saturating_sub(tables.allocated(id));
    let more_chunks = tables.size(snapshot).saturating_sub(tables.size(id));
    first_refusal(&[
        exhausted(tables),
        where_positive(more_allocated, over_quota(tables, home, more_allocated)),
        where_positive(more_chunks, map_full(tables, more_chunks)),
    ])
}
