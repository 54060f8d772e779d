//! The replies to calls, call by call: to those that are answered at once, and the two that go with a change.
ghost use Rattle.std.specs.Prelude.{◌≡◌, IfOk};
ghost use Rattle.vv_flat.specs.State.{Volatile};
ghost use Rattle.vv_flat.specs.Chunks.{shape_of_tables};
ghost use Rattle.vv_plan.specs.Plans.{accepted_reply, nothing_reply, answered_reply, with_volatile};

use crate::accepted::{
    bound_at, clone_started, container_made, copy_started, done, left_at, removed_of,
    task_cancelled, task_turned, volume_made,
};
use crate::bitmaps::{allocated_bitmap, unshared_bitmap, unshared_chunks};
use crate::queries::{query_container, query_pool, query_volume, task_now};
use std::alloc::Global;
use vv_calls::Call;
use vv_reply::Reply;
use vv_tables::Tables;
use vv_units::NoMemory;

/// The reply to a call where the change that it asks for is accepted. There is none where it asks for no change, nor for a
/// command to a logical unit.
#[tactic(auto, unfolding(crate::specs::Plans::accepted_reply, vv_meaning::specs::Calls::asked))]
pub fn accepted_reply(tables: &Tables, call: &Call) -> Option<Reply>
    ensures { (v : Volatile) → result ≡ accepted_reply (with_volatile (shape_of_tables tables.now.durable) v) call.now }
{
    match call {
        Call::CreateStorageContainer { .. } => Some(container_made(tables)),
        Call::CreateVirtualVolume { .. }
        | Call::SnapshotVirtualVolume { .. }
        | Call::FastCloneVirtualVolume { .. } => Some(volume_made(tables)),
        Call::DeleteVirtualVolume { .. }
        | Call::ResizeVirtualVolume { .. }
        | Call::SetMetadata { .. }
        | Call::RevertVirtualVolume { .. }
        | Call::SetPEContext { .. } => Some(done()),
        Call::CloneVirtualVolume { vvol } => Some(clone_started(tables, *vvol)),
        Call::CopyDiffsToVirtualVolume { source, base, .. } => {
            Some(copy_started(tables, *source, *base))
        }
        Call::Turn { task } => Some(task_turned(tables, *task)),
        Call::CancelTask { task } => Some(task_cancelled(tables, *task)),
        Call::BindVirtualVolume { host, vvol } => Some(bound_at(tables, *host, *vvol)),
        Call::UnbindVirtualVolume {
            host,
            endpoint,
            secondary,
        } => Some(left_at(tables, *host, *endpoint, *secondary)),
        Call::UnbindAllVirtualVolumesFromHost { host } => Some(removed_of(tables, *host)),
        _ => None,
    }
}

/// The reply to a call where the change that it asks for would change nothing: that of an accepted change, but for a turn of
/// a task, whose record is told as it stands.
#[tactic(auto, unfolding(crate::specs::Plans::nothing_reply, crate::specs::Plans::accepted_reply, vv_meaning::specs::Calls::asked))]
pub fn nothing_reply(tables: &Tables, call: &Call) -> Option<Reply>
    ensures { (v : Volatile) → result ≡ nothing_reply (with_volatile (shape_of_tables tables.now.durable) v) call.now }
{
    match call {
        Call::Turn { task } => Some(task_now(tables, *task)),
        _ => accepted_reply(tables, call),
    }
}

/// The reply to a call that is answered at once. There is none where it asks for a change, nor for a command to a logical
/// unit.
#[tactic(auto, unfolding(crate::specs::Plans::answered_reply, vv_meaning::specs::Calls::asked))]
pub fn answered_reply(
    alloc: Global,
    tables: &Tables,
    call: &Call,
) -> Result<Option<Reply>, NoMemory>
    ensures { IfOk result (λ reply. (v : Volatile) → reply ≡ answered_reply (with_volatile (shape_of_tables tables.now.durable) v) call.now) }
{
    let reply = match call {
        Call::GetTaskUpdate { task } => task_now(tables, *task),
        Call::AllocatedBitmapVirtualVolume { vvol, first, count } => {
            allocated_bitmap(alloc, tables, *vvol, *first, *count)?
        }
        Call::UnsharedBitmapVirtualVolume {
            vvol,
            base,
            first,
            count,
        } => unshared_bitmap(alloc, tables, *vvol, *base, *first, *count)?,
        Call::UnsharedChunksVirtualVolume { vvol, base } => unshared_chunks(tables, *vvol, *base),
        Call::QueryPool => query_pool(tables),
        Call::QueryStorageContainer { container } => query_container(tables, *container),
        Call::QueryVirtualVolume { vvol } => query_volume(alloc, tables, *vvol)?,
        Call::Restart => done(),
        _ => return Ok(None),
    };
    Ok(Some(reply))
}
