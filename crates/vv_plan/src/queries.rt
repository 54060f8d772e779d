//! Queries that are answered at once: of the pool, a container, a volume and a task.
ghost use Rattle.std.specs.Prelude.{◌≡◌, IfOk};
ghost use Rattle.vv_units.specs.declared.field.Field.TheVariants as field;
ghost use Rattle.vv_flat.specs.Lists.{if_found};
ghost use Rattle.vv_flat.specs.State.{container_of, volume_of};
ghost use Rattle.vv_flat.specs.Chunks.{shape_of_tables};
ghost use Rattle.vv_reply.specs.declared.reply.Reply.TheVariants.{Refused};
ghost use Rattle.vv_reply.specs.declared.reply.Refusal.TheVariants.{NotFound};
ghost use Rattle.vv_task.specs.Table.{record_of};
ghost use Rattle.vv_meaning.specs.Calls.{pool_told, charge_told, volume_told, task_told, task_now};

use std::alloc::Global;
use vv_copies::copy_needs;
use vv_reply::{Answer, Refusal, Reply};
use vv_tables::Tables;
use vv_task::Task;
use vv_units::{ContainerId, Field, NoMemory, TaskId, VolumeId};

/// There is nothing of this name.
pub(crate) fn not_found(name: Field) -> Reply
    ensures { result ≡ Refused (NotFound name) }
{
    Reply::Refused(Refusal::NotFound { name })
}

/// The figures of the pool, in chunks, and how many entries all lists of chunks have.
pub fn query_pool(tables: &Tables) -> Reply
    ensures { result ≡ pool_told (shape_of_tables tables.now.durable) }
{
    Reply::Done(Answer::Pool {
        chunks: tables.geometry().pool_chunks,
        entries: tables.entries(),
        free: tables.free(),
        reserved: tables.reserved(),
        used: tables.used(),
    })
}

/// How many chunks a container is charged for, and its quota. The reply is NotFound where it doesn't stand.
pub fn query_container(tables: &Tables, id: ContainerId) -> Reply
    ensures { result ≡ if_found (container_of (shape_of_tables tables.now.durable) id.0) (charge_told (shape_of_tables tables.now.durable)) (Refused (NotFound field.Container)) }
{
    match tables.container(id) {
        Some(container) => Reply::Done(Answer::Charge {
            charged: tables.charge(id),
            quota: container.quota,
        }),
        None => not_found(Field::Container),
    }
}

/// A volume as it stands, with a copy of its metadata and its profile. The reply is NotFound where it doesn't stand.
pub fn query_volume(alloc: Global, tables: &Tables, id: VolumeId) -> Result<Reply, NoMemory>
    ensures { IfOk result (λ reply. reply ≡ if_found (volume_of (shape_of_tables tables.now.durable) id.0) volume_told (Refused (NotFound field.Vvol))) }
{
    let Some(head) = tables.volume(id) else {
        return Ok(not_found(Field::Vvol));
    };
    let metadata = head.metadata.copy()?;
    let profile = copy_needs(alloc, &head.needs)?;
    Ok(Reply::Done(Answer::Volume {
        allocated: tables.allocated(id),
        chunks: tables.size(id),
        container: head.container,
        kind: head.kind,
        metadata,
        profile,
        reverted: head.reverted,
        vtype: head.vtype,
    }))
}

/// The record of a task. The reply is NotFound where it doesn't stand.
pub fn task_now(tables: &Tables, id: TaskId) -> Reply
    ensures { result ≡ task_now (shape_of_tables tables.now.durable) id.0 }
{
    match tables.task(id) {
        Some(task) => task_told(task),
        None => not_found(Field::Task),
    }
}

/// A task as its record tells it.
pub(crate) fn task_told(task: Task) -> Reply
    ensures { result ≡ task_told (record_of task) }
{
    Reply::Done(Answer::TaskNow {
        done: task.done,
        state: task.state,
        task: task.id,
        total: task.total,
    })
}
