//! The checks that several kinds of change share.
ghost use Rattle.std.specs.Prelude.{◌≡◌, ◌||◌, is_some, is_none, length, []};
ghost use Rattle.vv_flat.specs.State.{volume_of, container_of, task_of};
ghost use Rattle.vv_flat.specs.Chunks.{shape_of_tables};
ghost use Rattle.vv_flat.specs.Bindings.{is_bound};
ghost use Rattle.vv_flat.specs.Tasks.{is_busy};
ghost use Rattle.vv_flat.specs.Refusals.{missing_volume, exhausted, too_many, too_many_pairs, over_quota, pool_full, map_full};
ghost use Rattle.vv_flat.specs.Changes.{missing_container, missing_task, busy, bound_or_busy, too_many_volumes, where_positive};
ghost use Rattle.vv_judge.specs.Seen.{seen_check};

use crate::answer::{Refusal, refuse_if};
use vv_tables::Tables;
use vv_units::{ContainerId, Field, TaskId, TooMany, VolumeId};

/// Whether a volume stands.
pub(crate) fn has_volume(tables: &Tables, id: VolumeId) -> bool
    ensures { result ≡ is_some (volume_of (shape_of_tables tables.now.durable) id.0) }
{
    tables.volume(id).is_some()
}

/// No volume has this number.
pub(crate) fn missing_volume(tables: &Tables, id: VolumeId, name: Field) -> Option<Refusal>
    ensures { seen_check result ≡ missing_volume (shape_of_tables tables.now.durable) id.0 name }
{
    refuse_if(!has_volume(tables, id), Refusal::NotFound { name })
}

/// No container has this number.
pub(crate) fn missing_container(tables: &Tables, id: ContainerId) -> Option<Refusal>
    ensures { seen_check result ≡ missing_container (shape_of_tables tables.now.durable) id.0 }
{
    let name = Field::Container;
    refuse_if(tables.container(id).is_none(), Refusal::NotFound { name })
}

/// No task has this number.
pub(crate) fn missing_task(tables: &Tables, id: TaskId) -> Option<Refusal>
    ensures { seen_check result ≡ missing_task (shape_of_tables tables.now.durable) id.0 }
{
    let name = Field::Task;
    refuse_if(tables.task(id).is_none(), Refusal::NotFound { name })
}

/// A running copy is to change a volume.
pub(crate) fn busy(tables: &Tables, id: VolumeId) -> Option<Refusal>
    ensures { seen_check result ≡ busy (shape_of_tables tables.now.durable) id.0 }
{
    let name = Field::Vvol;
    refuse_if(tables.is_busy(id), Refusal::ResourceInUse { name })
}

/// A volume is bound for some host, or a running copy is to change it.
pub(crate) fn bound_or_busy(tables: &Tables, id: VolumeId, name: Field) -> Option<Refusal>
    ensures { seen_check result ≡ bound_or_busy (shape_of_tables tables.now.durable) id.0 name }
{
    let used = tables.is_bound(id) || tables.is_busy(id);
    refuse_if(used, Refusal::ResourceInUse { name })
}

/// The log has no number for one change more.
pub(crate) fn exhausted(tables: &Tables) -> Option<Refusal>
    ensures { seen_check result ≡ exhausted (shape_of_tables tables.now.durable) }
{
    refuse_if(tables.lsn() >= LAST_LSN, Refusal::Exhausted)
}

/// There are as many as the limit allows.
pub(crate) fn too_many(count: u32, limit: u32, name: Field) -> Option<Refusal>
    ensures { seen_check result ≡ too_many count limit name }
{
    refuse_if(count >= limit, Refusal::TooMany(TooMany { name, limit }))
}

/// There are as many volumes and running clones as may be.
pub(crate) fn too_many_volumes(tables: &Tables) -> Option<Refusal>
    ensures { seen_check result ≡ too_many_volumes (shape_of_tables tables.now.durable) }
{
    too_many(tables.volume_count(), 256, Field::Vvol)
}

/// So many metadata pairs more would be too many.
pub(crate) fn too_many_pairs(tables: &Tables, added: u32) -> Option<Refusal>
    ensures { seen_check result ≡ too_many_pairs (shape_of_tables tables.now.durable) added }
{
    let pairs = u64::from(tables.pair_count()) + u64::from(added);
    let name = Field::Pairs;
    let limit = 4352;
    refuse_if(
        pairs > u64::from(limit),
        Refusal::TooMany(TooMany { name, limit }),
    )
}

/// So many chunks more would be above a container's quota.
pub(crate) fn over_quota(tables: &Tables, id: ContainerId, asked: u32) -> Option<Refusal>
    ensures { seen_check result ≡ over_quota (shape_of_tables tables.now.durable) id.0 asked }
{
    let Some(container) = tables.container(id) else {
        return None;
    };
    let charged = tables.charge(id);
    let asked = u64::from(asked);
    let quota = container.quota;
    refuse_if(
        quota < charged || quota - charged < asked,
        Refusal::OverQuota {
            charged,
            asked,
            quota,
        },
    )
}

/// The pool has not so many places left.
pub(crate) fn pool_full(tables: &Tables, asked: u32) -> Option<Refusal>
    ensures { seen_check result ≡ pool_full (shape_of_tables tables.now.durable) asked }
{
    let free = tables.free();
    refuse_if(free < asked, Refusal::PoolFull { free, asked })
}

/// The lists may not have so many entries more.
pub(crate) fn map_full(tables: &Tables, asked: u32) -> Option<Refusal>
    ensures { seen_check result ≡ map_full (shape_of_tables tables.now.durable) asked }
{
    let entries = tables.entries();
    let limit = tables.geometry().map_chunks;
    let wanted = u64::from(entries) + u64::from(asked);
    refuse_if(
        wanted > u64::from(limit),
        Refusal::MapFull {
            entries,
            asked,
            limit,
        },
    )
}

/// A check that counts only where there is something to ask for.
pub(crate) fn where_positive(asked: u32, check: Option<Refusal>) -> Option<Refusal>
    ensures { seen_check result ≡ where_positive asked (seen_check check) }
{
    if asked == 0 { None } else { check }
}

/// The last log number.
const LAST_LSN: u64 = 4_611_686_018_427_387_903;
