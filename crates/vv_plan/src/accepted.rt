//! The replies to calls that ask for a change, where it is accepted and where it would change nothing.
ghost use Rattle.std.specs.Prelude.{◌≡◌, ◌+◌, ◌<◌, ◌^◌};
ghost use Rattle.vv_flat.specs.Chunks.{shape_of_tables};
ghost use Rattle.vv_flat.specs.Tasks.{next_piece, advanced};
ghost use Rattle.vv_flat.specs.Bindings.{bound_address, count_left, host_bindings};
ghost use Rattle.vv_flat.specs.Changes as change;
ghost use Rattle.vv_flat.specs.Changes.{allocated_of};
ghost use Rattle.vv_bind.specs.Table.{address};
ghost use Rattle.vv_task.specs.Table.{record_of};
ghost use Rattle.vv_reply.specs.declared.reply.Answer.TheVariants.{Container, Vvol, CloneStart, CopyStart, Left, Removed};
ghost use Rattle.vv_reply.specs.declared.reply.Reply.TheVariants.{Done};
ghost use Rattle.vv_meaning.specs.Told.{done};
ghost use Rattle.vv_meaning.specs.Calls.{new_number, piece_count, bound_at, task_after};
ghost use Rattle.vv_plan.specs.TaskRecords.{record_turned};
ghost use Rattle.vv_units.specs.declared.volume.TaskState.TheVariants.{Cancelled};

use crate::bitmaps::{count_unshared, is_missing};
use crate::queries::{not_found, task_told};
use vv_reply::{Answer, Reply};
use vv_tables::Tables;
use vv_task::Task;
use vv_units::{ContainerId, EndpointId, Field, HostId, Secondary, TaskId, TaskState, VolumeId};

/// The number of what an accepted change makes.
fn new_number(tables: &Tables) -> u64
    ensures { result ≡ new_number (shape_of_tables tables.now.durable) }
{
    tables.lsn() + 1
}

/// The reply that gives nothing.
pub fn done() -> Reply
    ensures { result ≡ done }
{
    Reply::Done(Answer::Empty)
}

/// The reply to the call that makes a container.
pub fn container_made(tables: &Tables) -> Reply
    ensures { result ≡ Done (Container (record { 0 = new_number (shape_of_tables tables.now.durable) })) }
{
    Reply::Done(Answer::Container {
        container: ContainerId(new_number(tables)),
    })
}

/// The reply to a call that makes a volume.
pub fn volume_made(tables: &Tables) -> Reply
    ensures { result ≡ Done (Vvol (record { 0 = new_number (shape_of_tables tables.now.durable) })) }
{
    Reply::Done(Answer::Vvol {
        vvol: VolumeId(new_number(tables)),
    })
}

/// The reply to the call that starts a clone of a volume.
pub fn clone_started(tables: &Tables, id: VolumeId) -> Reply
    ensures { result ≡ Done (CloneStart (record { 0 = new_number (shape_of_tables tables.now.durable) })
        (record { 0 = new_number (shape_of_tables tables.now.durable) }) (allocated_of (shape_of_tables tables.now.durable) id.0)) }
{
    let number = new_number(tables);
    Reply::Done(Answer::CloneStart {
        target: VolumeId(number),
        task: TaskId(number),
        total: tables.allocated(id),
    })
}

/// How many pieces a copy of what differs between a source and a base has.
fn piece_count(tables: &Tables, source: VolumeId, base: VolumeId) -> u32
    ensures { result ≡ piece_count (shape_of_tables tables.now.durable) source.0 base.0 }
{
    if is_missing(tables, source) {
        return 0;
    }
    if is_missing(tables, base) {
        return tables.allocated(source);
    }
    count_unshared(tables, source, base)
}

/// The reply to the call that starts a copy of what differs between a source and a base.
pub fn copy_started(tables: &Tables, source: VolumeId, base: VolumeId) -> Reply
    ensures { result ≡ Done (CopyStart (record { 0 = new_number (shape_of_tables tables.now.durable) })
        (piece_count (shape_of_tables tables.now.durable) source.0 base.0)) }
{
    Reply::Done(Answer::CopyStart {
        task: TaskId(new_number(tables)),
        total: piece_count(tables, source, base),
    })
}

/// A task after its next turn. One that doesn't run stays as it is.
fn after_turn(task: Task) -> Task
    ensures { record_of result ≡ record_turned (record_of task) }
{
    match task.state {
        TaskState::Running => advanced(task, next_piece(task)),
        TaskState::Success | TaskState::Cancelled | TaskState::Interrupted => task,
    }
}

/// How many chunks or pieces the next turn of a task does.
fn next_piece(task: Task) -> u32
    ensures { result ≡ next_piece (record_of task) }
{
    let left = task.total.saturating_sub(task.done);
    if left < 16 { left } else { 16 }
}

/// A task of which so many more are done.
fn advanced(task: Task, n: u32) -> Task
    requires { task.done + n < 2 ^ 32 }
    ensures { record_of result ≡ advanced (record_of task) n }
{
    let done = task.done + n;
    let state = if done == task.total {
        TaskState::Success
    } else {
        TaskState::Running
    };
    Task {
        id: task.id,
        job: task.job,
        state,
        done,
        total: task.total,
    }
}

/// The reply to a turn of a task: its record as it is then. The reply is NotFound where it doesn't stand.
pub fn task_turned(tables: &Tables, id: TaskId) -> Reply
    ensures { result ≡ task_after (shape_of_tables tables.now.durable) (change.Turn id.0) id.0 }
{
    let _lsn = tables.lsn();
    match tables.task(id) {
        Some(task) => task_told(after_turn(task)),
        None => not_found(Field::Task),
    }
}

/// A task that is cancelled.
fn after_cancel(task: Task) -> Task
    ensures { record_of result ≡ record (record_of task) { state = Cancelled } }
{
    Task {
        id: task.id,
        job: task.job,
        state: TaskState::Cancelled,
        done: task.done,
        total: task.total,
    }
}

/// The reply to the call that cancels a task: its record as it is then. The reply is NotFound where it doesn't stand.
pub fn task_cancelled(tables: &Tables, id: TaskId) -> Reply
    ensures { result ≡ task_after (shape_of_tables tables.now.durable) (change.Cancel id.0) id.0 }
{
    match tables.task(id) {
        Some(task) => task_told(after_cancel(task)),
        None => not_found(Field::Task),
    }
}

/// The reply to a bind of a volume for a host: where it is bound.
pub fn bound_at(tables: &Tables, host: HostId, id: VolumeId) -> Reply
    ensures { result ≡ bound_at (bound_address tables.now.durable.contexts tables.now.durable.bindings host.0 id.0) }
{
    let (endpoint, secondary) = tables.bindings().bound_address(host, id);
    Reply::Done(Answer::Bound {
        endpoint,
        secondary,
    })
}

/// The reply to an unbind at an address: the count that is left.
pub fn left_at(tables: &Tables, host: HostId, endpoint: EndpointId, secondary: Secondary) -> Reply
    ensures { result ≡ Done (Left (count_left tables.now.durable.bindings (address host.0 endpoint.0 secondary.0))) }
{
    Reply::Done(Answer::Left {
        left: tables.bindings().count_left(host, endpoint, secondary),
    })
}

/// The reply to an unbind of all volumes from a host: how many bindings it has.
pub fn removed_of(tables: &Tables, host: HostId) -> Reply
    ensures { result ≡ Done (Removed (host_bindings tables.now.durable.bindings host.0)) }
{
    Reply::Done(Answer::Removed {
        removed: tables.bindings().host_bindings(host),
    })
}
