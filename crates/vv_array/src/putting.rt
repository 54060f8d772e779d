//! An event with its new chunks is put on the disk, and done.
ghost use Rattle.std.specs.Prelude.{◌≡◌, ◌≤◌, ◌<◌, ◌↔◌, ℕ, List, [], Some, map, length, false, IsTrue, OnOk, OnErr, IfSome};
ghost use Rattle.vv_disk.specs.Images.{Follows, LeavesOnly};
ghost use Rattle.vv_data.specs.Layout.{chunk_bytes, disk_len};
ghost use Rattle.vv_flat.specs.State.{Array as SeenArray};
ghost use Rattle.vv_flat.specs.Chunks.{ChunkValue, filled_tables, shape_of_tables};
ghost use Rattle.vv_flat.specs.Flat.{has_its_bytes, new_values};
ghost use Rattle.vv_flat.specs.Changes.{Turn};
ghost use Rattle.vv_flat.specs.Replay.{fits};
ghost use Rattle.vv_flat.specs.Logs.{record_fits, has_turn_indexes};
ghost use Rattle.vv_calls.specs.Formed.{IsFormed};
ghost use Rattle.vv_record.specs.declared.record.ChunkCopy.{ChunkCopy as copied};
ghost use Rattle.vv_meaning.specs.Steps.{is_copying};
ghost use Rattle.vv_event.specs.Events.{change_of, places_of, log_record};
ghost use Rattle.vv_image.specs.Standing.{bytes_at_place};
ghost use Rattle.vv_core.specs.Core.{applied};
ghost use Rattle.vv_core.specs.Rooms.{IsEventRoomFor};
ghost use Rattle.vv_array.specs.Standing.{UpOn, StandsKept};
ghost use Rattle.vv_array.specs.Chunks.{DiffersAt, ToldAt, HasNew, HasNewOf, flat_applied};
ghost use Rattle.vv_array.specs.ChunkBytes.{ChangedAt};
ghost use Rattle.vv_array.specs.DiskCauses.{HasCauses};
ghost use Rattle.vv_array.specs.Puts.{UnlessWrite, OnRead, LeftWhen, moves_chunks};
ghost use Rattle.vv_array.specs.Payloads.{planned_bytes};
ghost use Rattle.vv_array.specs.EventMemory.{IsEventMemory, buffer_bytes};

use crate::copying::write_copies;
use crate::payloads::{blocks_written, bytes_to_write, payload_of};
use crate::recording::record_event;
use crate::switching::make_room;
use crate::writing::write_blocks;
use vv_calls::Call;
use vv_core::{Core, Fill, Room};
use vv_disk::Disk;
use vv_journal::Journal;
use vv_record::{ChunkCopy, Event, Record};
use vv_units::{DiskFault, TaskId};

/// An event that is planned: its record, what fills its new chunks, and whether blocks are compared first.
#[derive(Drop)]
pub(crate) struct PlannedEvent {
    pub record: Record,
    pub fill: Fill,
    pub compare: bool,
}

/// The memory for an event that is put on the disk: its record's bytes, one block as often as there are blocks where that is
/// written, and buffers for a chunk, where it writes some, and for tables.
#[derive(Drop)]
pub(crate) struct EventMemory {
    pub payload: Vec<u8>,
    pub repeated: Vec<u8>,
    pub chunk: Vec<u8>,
    pub tables: Vec<u8>,
}

/// Writes the new chunks of an event to its places: those of a write from these bytes, those of a clone's turn from its image.
/// An event of another kind has none.
pub(crate) fn put_chunks<D: Disk>(
    core: &Core,
    disk: &mut D,
    event: &Event,
    bytes: &[u8],
    buffer: &mut [u8],
) -> Result<(), DiskFault>
    requires disk { D.size disk.old ≡ disk_len core.now.array.durable.geometry }
    requires fits { IsTrue (record_fits core.now.array.durable (log_record (record { first_after_open = false; event = event.now }))) }
    requires bytes { IsTrue (has_its_bytes (change_of event.now) bytes.now) }
    requires buffer { length buffer.old ≡ buffer_bytes core.now.array.durable.geometry event.now }

    ensures new { OnOk result ((c c' : List ℕ) → D.content disk.old ≡ Some c → D.content disk.new ≡ Some c'
        → HasNew core.now.array.durable (change_of event.now) (places_of event.now)
        (new_values (filled_tables (bytes_at_place core.now.array.durable.geometry c) core.now.array.durable) (change_of event.now) bytes.now) c') }
    ensures moves { OnRead result (IsTrue (moves_chunks core.now.array.durable (change_of event.now))) }
    ensures told { ToldAt core.now.array.durable.geometry (places_of event.now) (D.content disk.old) (D.content disk.new) }
    ensures each { D.is_honest disk.old → Follows (DiffersAt core.now.array.durable.geometry (places_of event.now)) (D.is_image disk.old) (D.is_image disk.new) }
    ensures any_moment { D.is_honest disk.old → LeavesOnly D.moment D.left_since disk.old disk.new
        (ChangedAt core.now.array.durable.geometry (places_of event.now) (D.is_image disk.old)) }

    ensures cause { HasCauses (D.read_faults disk.old) (D.read_faults disk.new) (D.write_faults disk.old) (D.write_faults disk.new) result }
    ensures len { D.size disk.new ≡ D.size disk.old }
    ensures honesty { D.is_honest disk.new ↔ D.is_honest disk.old }
{
    match event {
        Event::Write {
            volume,
            first_block,
            blocks,
            places,
        } => write_blocks(
            core,
            disk,
            *volume,
            *first_block,
            *blocks,
            bytes,
            places.items(),
            buffer,
        ),
        Event::Turn { task, copies } => copy_some(core, disk, *task, copies.items(), buffer),
        _ => Ok(()),
    }
}

/// Copies the chunks of a clone's turn to their places, if it has any.
fn copy_some<D: Disk>(
    core: &Core,
    disk: &mut D,
    task: TaskId,
    copies: &[ChunkCopy],
    buffer: &mut [u8],
) -> Result<(), DiskFault>
    requires disk { D.size disk.old ≡ disk_len core.now.array.durable.geometry }
    requires fits { IsTrue (fits core.now.array.durable (Turn task.0) (map (λ (c : copied). c.place.0) copies.now)) }
    requires indexes { IsTrue (has_turn_indexes core.now.array.durable (Turn task.0) (map (λ (c : copied). c.index) copies.now)) }
    requires buffer { length buffer.old ≡ chunk_bytes core.now.array.durable.geometry }

    ensures new { OnOk result ((c c' : List ℕ) → D.content disk.old ≡ Some c → D.content disk.new ≡ Some c'
        → HasNew core.now.array.durable (Turn task.0) (map (λ (c : copied). c.place.0) copies.now)
        (new_values (filled_tables (bytes_at_place core.now.array.durable.geometry c) core.now.array.durable) (Turn task.0) []) c') }
    ensures moves { OnRead result (IsTrue (is_copying (shape_of_tables core.now.array.durable) (Turn task.0))) }
    ensures told { ToldAt core.now.array.durable.geometry (map (λ (c : copied). c.place.0) copies.now) (D.content disk.old) (D.content disk.new) }
    ensures each { D.is_honest disk.old → Follows (DiffersAt core.now.array.durable.geometry (map (λ (c : copied). c.place.0) copies.now)) (D.is_image disk.old) (D.is_image disk.new) }
    ensures any_moment { D.is_honest disk.old → LeavesOnly D.moment D.left_since disk.old disk.new
        (ChangedAt core.now.array.durable.geometry (map (λ (c : copied). c.place.0) copies.now) (D.is_image disk.old)) }

    ensures cause { HasCauses (D.read_faults disk.old) (D.read_faults disk.new) (D.write_faults disk.old) (D.write_faults disk.new) result }
    ensures len { D.size disk.new ≡ D.size disk.old }
    ensures honesty { D.is_honest disk.new ↔ D.is_honest disk.old }
{
    let _well_formed = core.lsn();
    if copies.is_empty() {
        return Ok(());
    }
    write_copies(core, disk, task, copies, buffer)
}

/// Makes room for the record of an event, and puts its new chunks on the disk.
fn put_ahead<D: Disk>(
    journal: &mut Journal,
    core: &Core,
    disk: &mut D,
    event: &Event,
    bytes: &[u8],
    buffer: &mut [u8],
    switch: &mut [u8],
) -> Result<(), DiskFault>
    requires disk { D.size disk.old ≡ disk_len journal.old.geometry }
    requires sizes { journal.old.geometry ≡ core.now.array.durable.geometry }
    requires fits { IsTrue (record_fits core.now.array.durable (log_record (record { first_after_open = false; event = event.now }))) }
    requires bytes { IsTrue (has_its_bytes (change_of event.now) bytes.now) }
    requires buffer { length buffer.old ≡ buffer_bytes core.now.array.durable.geometry event.now }
    requires switch { 4096 ≤ length switch.old }

    ensures room { OnOk result (journal.new.records < 256) }
    ensures stands { UnlessWrite result (D.is_honest disk.old → (m : SeenArray ChunkValue)
        → UpOn journal.old core.now.array (D.content disk.old) (D.is_image disk.old) m
        → UpOn journal.new core.now.array (D.content disk.new) (D.is_image disk.new) m) }
    ensures new { OnOk result (D.is_honest disk.old → (m : SeenArray ChunkValue)
        → UpOn journal.old core.now.array (D.content disk.old) (D.is_image disk.old) m
        → IfSome (D.content disk.new) (HasNewOf core.now.array event.now m bytes.now)) }
    ensures moves { OnRead result (IsTrue (moves_chunks core.now.array.durable (change_of event.now))) }
    ensures left { D.is_honest disk.old → (m : SeenArray ChunkValue)
        → UpOn journal.old core.now.array (D.content disk.old) (D.is_image disk.old) m
        → LeavesOnly D.moment D.left_since disk.old disk.new (StandsKept m) }

    ensures sizes { journal.new.geometry ≡ journal.old.geometry }
    ensures cause { HasCauses (D.read_faults disk.old) (D.read_faults disk.new) (D.write_faults disk.old) (D.write_faults disk.new) result }
    ensures len { D.size disk.new ≡ D.size disk.old }
    ensures honesty { D.is_honest disk.new ↔ D.is_honest disk.old }
{
    make_room(journal, core, disk, switch)?;
    put_chunks(core, disk, event, bytes, buffer)
}

/// Makes room for the record of a planned event, and puts its new chunks on the disk.
fn put_planned<D: Disk>(
    journal: &mut Journal,
    core: &Core,
    disk: &mut D,
    call: &Call,
    planned: &PlannedEvent,
    memory: &mut EventMemory,
) -> Result<(), DiskFault>
    requires formed { IsFormed call.now }
    requires disk { D.size disk.old ≡ disk_len journal.old.geometry }
    requires sizes { journal.old.geometry ≡ core.now.array.durable.geometry }
    requires unmarked { planned.now.record.first_after_open ≡ false }
    requires fits { IsTrue (record_fits core.now.array.durable (log_record planned.now.record)) }
    requires brings { IsTrue (has_its_bytes (change_of planned.now.record.event)
        (planned_bytes core.now.array.volatile call.now planned.now.record.event planned.now.fill planned.now.compare)) }
    requires memory { IsEventMemory core.now.array call.now planned.now memory.old }

    ensures room { OnOk result (journal.new.records < 256) }
    ensures payload { memory.new.payload.items ≡ memory.old.payload.items }
    ensures stands { UnlessWrite result (D.is_honest disk.old → (m : SeenArray ChunkValue)
        → UpOn journal.old core.now.array (D.content disk.old) (D.is_image disk.old) m
        → UpOn journal.new core.now.array (D.content disk.new) (D.is_image disk.new) m) }
    ensures new { OnOk result (D.is_honest disk.old → (m : SeenArray ChunkValue)
        → UpOn journal.old core.now.array (D.content disk.old) (D.is_image disk.old) m
        → IfSome (D.content disk.new) (HasNewOf core.now.array planned.now.record.event m
        (planned_bytes core.now.array.volatile call.now planned.now.record.event planned.now.fill planned.now.compare))) }
    ensures moves { OnRead result (IsTrue (moves_chunks core.now.array.durable (change_of planned.now.record.event))) }
    ensures left { D.is_honest disk.old → (m : SeenArray ChunkValue)
        → UpOn journal.old core.now.array (D.content disk.old) (D.is_image disk.old) m
        → LeavesOnly D.moment D.left_since disk.old disk.new (StandsKept m) }

    ensures sizes { journal.new.geometry ≡ journal.old.geometry }
    ensures cause { HasCauses (D.read_faults disk.old) (D.read_faults disk.new) (D.write_faults disk.old) (D.write_faults disk.new) result }
    ensures len { D.size disk.new ≡ D.size disk.old }
    ensures honesty { D.is_honest disk.new ↔ D.is_honest disk.old }
{
    let blocks = blocks_written(&planned.record.event);
    let bytes = bytes_to_write(
        planned.fill,
        planned.compare,
        blocks,
        payload_of(core, call),
        memory.repeated.as_slice(),
    );
    put_ahead(
        journal,
        core,
        disk,
        &planned.record.event,
        bytes,
        memory.chunk.as_mut_slice(),
        memory.tables.as_mut_slice(),
    )
}

/// Puts a planned event on the disk, with its new chunks ahead of it, and does it. Where that fails, the core stays.
pub(crate) fn put_event<D: Disk>(
    journal: &mut Journal,
    core: &mut Core,
    disk: &mut D,
    call: &Call,
    planned: &PlannedEvent,
    memory: &mut EventMemory,
    room: Room,
) -> Result<(), DiskFault>
    requires formed { IsFormed call.now }
    requires disk { D.size disk.old ≡ disk_len journal.old.geometry }
    requires sizes { journal.old.geometry ≡ core.old.array.durable.geometry }
    requires unmarked { planned.now.record.first_after_open ≡ false }
    requires fits { IsTrue (record_fits core.old.array.durable (log_record planned.now.record)) }
    requires brings { IsTrue (has_its_bytes (change_of planned.now.record.event)
        (planned_bytes core.old.array.volatile call.now planned.now.record.event planned.now.fill planned.now.compare)) }
    requires memory { IsEventMemory core.old.array call.now planned.now memory.old }
    requires room { IsEventRoomFor core.old call.now planned.now.record.event room }

    ensures core { OnOk result (core.new.array ≡ applied core.old.array call.now planned.now.record.event) }
    ensures kept { OnErr result (core.new.array ≡ core.old.array) }

    // The array that is up is the one after the event with the bytes that it brings; where a read failed, the one before it.
    ensures stands { OnOk result (D.is_honest disk.old → (m : SeenArray ChunkValue)
        → UpOn journal.old core.old.array (D.content disk.old) (D.is_image disk.old) m
        → UpOn journal.new core.new.array (D.content disk.new) (D.is_image disk.new)
        (flat_applied core.old.array m call.now planned.now.record.event
        (planned_bytes core.old.array.volatile call.now planned.now.record.event planned.now.fill planned.now.compare))) }
    ensures unread { OnRead result (D.is_honest disk.old → (m : SeenArray ChunkValue)
        → UpOn journal.old core.old.array (D.content disk.old) (D.is_image disk.old) m
        → UpOn journal.new core.new.array (D.content disk.new) (D.is_image disk.new) m) }
    ensures moves { OnRead result (IsTrue (moves_chunks core.old.array.durable (change_of planned.now.record.event))) }
    ensures left { D.is_honest disk.old → (m : SeenArray ChunkValue)
        → UpOn journal.old core.old.array (D.content disk.old) (D.is_image disk.old) m
        → LeavesOnly D.moment D.left_since disk.old disk.new (LeftWhen result m
        (flat_applied core.old.array m call.now planned.now.record.event
        (planned_bytes core.old.array.volatile call.now planned.now.record.event planned.now.fill planned.now.compare))) }

    ensures sizes { journal.new.geometry ≡ journal.old.geometry }
    ensures cause { HasCauses (D.read_faults disk.old) (D.read_faults disk.new) (D.write_faults disk.old) (D.write_faults disk.new) result }
    ensures len { D.size disk.new ≡ D.size disk.old }
    ensures honesty { D.is_honest disk.new ↔ D.is_honest disk.old }
{
    match put_planned(journal, core, disk, call, planned, memory) {
        Ok(()) => record_event(
            journal,
            core,
            disk,
            call,
            &planned.record,
            memory.payload.as_slice(),
            room,
        ),
        Err(fault) => {
            core.give_up(call, room);
            Err(fault)
        }
    }
}
