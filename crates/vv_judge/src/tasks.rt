//! Tasks: full clones and difference copies start, go on and are cancelled.
ghost use Rattle.std.specs.Prelude.{◌≡◌, ◌*◌, ◌||◌, ◌==◌, not, nat_lt, None, []};
ghost use Rattle.vv_flat.specs.Chunks.{shape_of_tables};
ghost use Rattle.vv_flat.specs.Changes.{StartClone, StartCopy, Turn, Cancel, state_checks, changes_nothing, room_checks, is_task_running, size_of};
ghost use Rattle.vv_judge.specs.Seen.{seen_check, refused_by};

use crate::answer::{Refusal, first_refusal, refuse_if};
use crate::checks::{
    bound_or_busy, exhausted, map_full, missing_task, missing_volume, over_quota, pool_full,
    too_many, too_many_pairs, too_many_volumes,
};
use crate::differences::differences;
use vv_tables::Tables;
use vv_units::{Field, TaskId, TaskState, VolumeId};

/// What is wrong with a volume of which a full clone is to be made.
#[tactic(auto, unfolding(vv_flat::specs::Changes::state_checks))]
pub(crate) fn start_clone_state(tables: &Tables, id: VolumeId) -> Option<Refusal>
    ensures { seen_check result ≡ refused_by (state_checks (shape_of_tables tables.now.durable) (StartClone id.0)) }
{
    first_refusal(&[missing_volume(tables, id, Field::Vvol)])
}

/// The limits that may be in the way of a full clone.
#[tactic(auto, unfolding(vv_flat::specs::Changes::room_checks))]
pub(crate) fn start_clone_room(tables: &Tables, id: VolumeId) -> Option<Refusal>
    ensures { seen_check result ≡ refused_by (room_checks None (shape_of_tables tables.now.durable) (StartClone id.0)) }
{
    let allocated = tables.allocated(id);
    first_refusal(&[
        exhausted(tables),
        too_many_volumes(tables),
        too_many_pairs(tables, tables.pairs(id)),
        too_many(tables.running_count(), 16, Field::Task),
        over_quota(tables, tables.home_of(id), allocated),
        pool_full(tables, allocated),
        map_full(tables, 2 * tables.chunks_of(id)),
    ])
}

/// Whether the target of a copy is its source, or smaller.
fn is_bad_target(tables: &Tables, source: VolumeId, target: VolumeId) -> bool
    ensures { result ≡ ((target.0 == source.0) || nat_lt (size_of (shape_of_tables tables.now.durable) target.0) (size_of (shape_of_tables tables.now.durable) source.0)) }
{
    target.0 == source.0 || tables.size(target) < tables.size(source)
}

/// What is wrong with the volumes of a difference copy.
#[tactic(auto, unfolding(vv_flat::specs::Changes::state_checks))]
pub(crate) fn start_copy_state(
    tables: &Tables,
    source: VolumeId,
    base: VolumeId,
    target: VolumeId,
) -> Option<Refusal>
    ensures { seen_check result ≡ refused_by (state_checks (shape_of_tables tables.now.durable) (StartCopy source.0 base.0 target.0)) }
{
    let name = Field::Target;
    let is_bad = is_bad_target(tables, source, target);
    let is_snapshot = tables.is_snapshot(target);
    first_refusal(&[
        missing_volume(tables, source, Field::Source),
        missing_volume(tables, base, Field::Base),
        missing_volume(tables, target, name),
        refuse_if(is_bad, Refusal::InvalidArgument { name }),
        refuse_if(is_snapshot, Refusal::IncompatibleVolume { name }),
        bound_or_busy(tables, target, name),
    ])
}

/// The limits that may be in the way of a difference copy.
#[tactic(auto, unfolding(vv_flat::specs::Changes::room_checks))]
pub(crate) fn start_copy_room(
    tables: &Tables,
    source: VolumeId,
    base: VolumeId,
    target: VolumeId,
) -> Option<Refusal>
    ensures { seen_check result ≡ refused_by (room_checks None (shape_of_tables tables.now.durable) (StartCopy source.0 base.0 target.0)) }
{
    let differing = differences(tables, source, base, target);
    first_refusal(&[
        exhausted(tables),
        too_many(tables.running_count(), 16, Field::Task),
        over_quota(tables, tables.home_of(target), differing.allocating),
        map_full(tables, differing.pieces),
    ])
}

/// Whether a task runs.
fn is_running(tables: &Tables, id: TaskId) -> bool
    ensures { result ≡ is_task_running (shape_of_tables tables.now.durable) id.0 }
{
    match tables.task(id) {
        Some(task) => task.state == TaskState::Running,
        None => false,
    }
}

/// No task has the number of a turn.
#[tactic(auto, unfolding(vv_flat::specs::Changes::state_checks))]
pub(crate) fn turn_state(tables: &Tables, id: TaskId) -> Option<Refusal>
    ensures { seen_check result ≡ refused_by (state_checks (shape_of_tables tables.now.durable) (Turn id.0)) }
{
    first_refusal(&[missing_task(tables, id)])
}

/// Whether a task doesn't run, so that a turn of it does nothing.
#[tactic(auto, unfolding(vv_flat::specs::Changes::changes_nothing))]
pub(crate) fn turn_nothing(tables: &Tables, id: TaskId) -> bool
    ensures { result ≡ changes_nothing (shape_of_tables tables.now.durable) (Turn id.0) }
{
    !is_running(tables, id)
}

/// What is wrong with a task that is to be cancelled.
#[tactic(auto, unfolding(vv_flat::specs::Changes::state_checks))]
pub(crate) fn cancel_state(tables: &Tables, id: TaskId) -> Option<Refusal>
    ensures { seen_check result ≡ refused_by (state_checks (shape_of_tables tables.now.durable) (Cancel id.0)) }
{
    let name = Field::Task;
    let is_running = is_running(tables, id);
    first_refusal(&[
        missing_task(tables, id),
        refuse_if(!is_running, Refusal::NotCancellable { name }),
    ])
}
