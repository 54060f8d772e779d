//! Calls of an array that is up whose events are journaled.
ghost use Rattle.std.specs.Prelude.{◌≡◌, ◌≤◌, ◌*◌, ◌+◌, ◌↔◌, ◌≢◌, ℕ, List, Some, Ok, length, false, IsTrue, IfOk, IfSome, OnErr};
ghost use Rattle.std.specs.Str.{bytes_eq};
ghost use Rattle.vv_units.specs.Sizes.{block_bytes};
ghost use Rattle.vv_units.specs.Causes.{HasCause};
ghost use Rattle.vv_data.specs.Layout.{chunk_bytes, disk_len};
ghost use Rattle.vv_disk.specs.Images.{LeavesOnly};
ghost use Rattle.vv_flat.specs.State.{Array as SeenArray};
ghost use Rattle.vv_flat.specs.Chunks.{ChunkValue, filled_tables};
ghost use Rattle.vv_flat.specs.Logs.{record_fits};
ghost use Rattle.vv_flat.specs.Profiles.{Capability};
ghost use Rattle.vv_calls.specs.Formed.{IsFormed};
ghost use Rattle.vv_reply.specs.Replies.{FitsReply};
ghost use Rattle.vv_record.specs.Records.{record_in};
ghost use Rattle.vv_record.specs.Spelling.{is_spellable};
ghost use Rattle.vv_journal.specs.Half.{payload_limit};
ghost use Rattle.vv_event.specs.Events.{change_of, log_record};
ghost use Rattle.vv_image.specs.Standing.{bytes_at_place};
ghost use Rattle.vv_meaning.specs.Meaning.{blocks_at, differs};
ghost use Rattle.vv_meaning.specs.Steps.{is_write};
ghost use Rattle.vv_core.specs.Rooms.{IsEventRoomFor};
ghost use Rattle.vv_core.specs.Plans.{IsJournalPlan, blocks_compared, blocks_written, payload_of};
ghost use Rattle.vv_array.specs.Standing.{UpOn};
ghost use Rattle.vv_array.specs.FaultsTold.{TellsItsFailure};
ghost use Rattle.vv_array.specs.Served.{answer_of, IsServed, LeftIn, IsCaused, HasStayed, IsWithoutMemory};
ghost use Rattle.vv_array.specs.EventMemory.{IsEventMemory, Compares, buffer_bytes};
ghost use Rattle.vv_array.specs.Payloads.{blocks_to_compare};

use crate::block_reads::{block_buffer, read_some};
use crate::ended::Ended;
use crate::payloads::{blocks_written, compared_half, payload_of, repeated};
use crate::putting::{EventMemory, PlannedEvent, put_event};
use crate::telling::{ends_command, miscompared, read_failed, write_failed};
use std::alloc::Global;
use vv_calls::Call;
use vv_core::{Core, Room};
use vv_disk::Disk;
use vv_journal::Journal;
use vv_record::Event;
use vv_reply::Reply;
use vv_units::{DiskFault, Geometry, NoMemory};

/// The bytes of a block.
const BLOCK_BYTES: usize = 512;

/// How many bytes of tables are written at once, where they go into the other half.
const TABLE_BYTES: usize = 65536;

/// The memory for a planned event.
fn take_memory(
    alloc: Global,
    core: &Core,
    call: &Call,
    planned: &PlannedEvent,
) -> Result<EventMemory, NoMemory>
    requires formed { IsFormed call.now }
    requires spellable { IsTrue (is_spellable planned.now.record) }
    ensures { IfOk result (IsEventMemory core.now.array call.now planned.now) }
{
    let payload = record_bytes(alloc, planned)?;
    let blocks = blocks_written(&planned.record.event);
    let repeated = repeated(alloc, planned.fill, blocks, payload_of(core, call))?;
    let chunk = chunk_buffer(alloc, core.geometry(), &planned.record.event)?;
    let tables = table_buffer(alloc)?;
    Ok(EventMemory {
        payload,
        repeated,
        chunk,
        tables,
    })
}

/// The bytes of the record of a planned event.
fn record_bytes(alloc: Global, planned: &PlannedEvent) -> Result<Vec<u8>, NoMemory>
    requires { IsTrue (is_spellable planned.now.record) }
    ensures spelled { IfOk result (λ bytes. record_in bytes.items ≡ Ok planned.now.record) }
    ensures short { IfOk result (λ bytes. length bytes.items ≤ payload_limit) }
{
    let bytes = vv_record::encode(alloc, &planned.record)?;
    Ok(bytes)
}

/// Memory for a chunk, where an event is a write or a turn: no other writes chunks.
fn chunk_buffer(alloc: Global, geometry: Geometry, event: &Event) -> Result<Vec<u8>, NoMemory>
    ensures { IfOk result (λ buffer. length buffer.items ≡ buffer_bytes geometry event.now) }
{
    match event {
        Event::Write { .. } => one_chunk(alloc, geometry),
        Event::Turn { .. } => one_chunk(alloc, geometry),
        _ => Ok(Vec::new(alloc)),
    }
}

/// Memory for a chunk.
fn one_chunk(alloc: Global, geometry: Geometry) -> Result<Vec<u8>, NoMemory>
    ensures { IfOk result (λ buffer. length buffer.items ≡ chunk_bytes geometry) }
{
    vec![in alloc; 0; geometry.chunk_blocks as usize * BLOCK_BYTES].map_err(|_| NoMemory)
}

/// Memory for a piece of tables.
fn table_buffer(alloc: Global) -> Result<Vec<u8>, NoMemory>
    ensures { IfOk result (λ buffer. 4096 ≤ length buffer.items) }
{
    vec![in alloc; 0; TABLE_BYTES].map_err(|_| NoMemory)
}

/// How many blocks are read to be compared ahead of an event.
fn blocks_to_compare(planned: &PlannedEvent) -> u32
    ensures { result ≡ blocks_to_compare planned.now.compare planned.now.record.event }
{
    if planned.compare {
        blocks_written(&planned.record.event)
    } else {
        0
    }
}

/// Whether the blocks that stand where an event writes are others than those to compare with, if it compares.
fn is_miscompare<D: Disk>(
    core: &Core,
    disk: &mut D,
    call: &Call,
    planned: &PlannedEvent,
    found: &mut [u8],
) -> Result<bool, DiskFault>
    requires formed { IsFormed call.now }
    requires disk { D.size disk.old ≡ disk_len core.now.array.durable.geometry }
    requires unmarked { planned.now.record.first_after_open ≡ false }
    requires fits { IsTrue (record_fits core.now.array.durable (log_record planned.now.record)) }
    requires found { length found.old ≡ blocks_to_compare planned.now.compare planned.now.record.event * block_bytes }

    ensures told { IfOk result (λ miscompares. IfSome (D.content disk.old) (λ c. miscompares
        ≡ differs (blocks_at (filled_tables (bytes_at_place core.now.array.durable.geometry c) core.now.array.durable)) (change_of planned.now.record.event)
        (blocks_compared planned.now.compare (blocks_written planned.now.record.event) (payload_of core.now.array.volatile call.now)))) }
    ensures moves { OnErr result (IsTrue (is_write (change_of planned.now.record.event))) }
    ensures cause { HasCause (D.read_faults disk.old) (D.read_faults disk.new) result }

    ensures len { D.size disk.new ≡ D.size disk.old }
    ensures content { D.content disk.new ≡ D.content disk.old }
    ensures write_faults { D.write_faults disk.new ≡ D.write_faults disk.old }
    ensures images { (image : List ℕ) → D.is_image disk.new image ↔ D.is_image disk.old image }
    ensures any_moment { LeavesOnly D.moment D.left_since disk.old disk.new (D.is_image disk.old) }
    ensures honesty { D.is_honest disk.new ↔ D.is_honest disk.old }
{
    if !planned.compare {
        return Ok(false);
    }
    let Event::Write {
        volume,
        first_block,
        blocks,
        ..
    } = &planned.record.event
    else {
        return Ok(false);
    };
    read_some(core, disk, *volume, *first_block, *blocks, found)?;
    Ok(!are_same(found, compared_half(*blocks, payload_of(core, call))))
}

/// Whether bytes are the same.
fn are_same(bytes: &[u8], other: &[u8]) -> bool
    ensures { result ≡ bytes_eq bytes.now other.now }
{
    bytes == other
}

/// A call whose event is journaled: once its blocks compare, if it compares them, the event is put on the disk and done.
pub(crate) fn journaled<D: Disk>(
    alloc: Global,
    journal: &mut Journal,
    core: &mut Core,
    disk: &mut D,
    call: &Call,
    planned: PlannedEvent,
    reply: Reply,
) -> Ended
    requires formed { IsFormed call.now }
    requires disk { D.size disk.old ≡ disk_len journal.old.geometry }
    requires sizes { journal.old.geometry ≡ core.old.array.durable.geometry }
    requires unmarked { planned.record.first_after_open ≡ false }
    requires plan { (capabilities : List Capability) × IsJournalPlan capabilities core.old.array call.now planned.record.event planned.fill planned.compare reply }
    requires text { FitsReply reply }

    ensures served { (capabilities : List Capability) → IsJournalPlan capabilities core.old.array call.now planned.record.event planned.fill planned.compare reply
        → D.is_honest disk.old → (m : SeenArray ChunkValue) → UpOn journal.old core.old.array (D.content disk.old) (D.is_image disk.old) m
        → IsServed capabilities m call.now journal.new core.new.array (D.content disk.new) (D.is_image disk.new) result }
    ensures left { (capabilities : List Capability) → IsJournalPlan capabilities core.old.array call.now planned.record.event planned.fill planned.compare reply
        → D.is_honest disk.old → (m : SeenArray ChunkValue) → UpOn journal.old core.old.array (D.content disk.old) (D.is_image disk.old) m
        → LeavesOnly D.moment D.left_since disk.old disk.new (LeftIn capabilities m call.now result) }
    ensures stayed { HasStayed result journal.old journal.new core.old core.new (D.content disk.old) (D.content disk.new) }
    ensures unwritten { IsWithoutMemory result → LeavesOnly D.moment D.left_since disk.old disk.new (D.is_image disk.old) }
    ensures fits { FitsReply (answer_of result) }
    ensures told { TellsItsFailure result }

    ensures cause { IsCaused (D.read_faults disk.old) (D.read_faults disk.new) (D.write_faults disk.old) (D.write_faults disk.new) result }
    ensures sizes { journal.new.geometry ≡ journal.old.geometry }
    ensures tables { core.new.array.durable.geometry ≡ core.old.array.durable.geometry }
    ensures len { D.size disk.new ≡ D.size disk.old }
    ensures honesty { D.is_honest disk.new ↔ D.is_honest disk.old }
    ensures reads { D.read_faults disk.old ≤ D.read_faults disk.new }
    ensures writes { D.write_faults disk.old ≤ D.write_faults disk.new }
{
    let Ok(mut memory) = take_memory(alloc, core, call, &planned) else {
        return Ended::NoMemory;
    };
    let Ok(mut found) = block_buffer(alloc, blocks_to_compare(&planned)) else {
        return Ended::NoMemory;
    };
    let Ok(room) = core.prepare_event(alloc, call, &planned.record.event) else {
        return Ended::NoMemory;
    };
    match is_miscompare(core, disk, call, &planned, found.as_mut_slice()) {
        Ok(true) => {
            core.pass(call, room);
            Ended::Replied(miscompared(alloc))
        }
        Ok(false) => put_or_tell(
            alloc,
            journal,
            core,
            disk,
            call,
            &planned,
            &mut memory,
            room,
            reply,
        ),
        Err(_) => {
            core.give_up(call, room);
            Ended::ReadFailed(read_failed(alloc, ends_command(&reply)))
        }
    }
}

/// Puts a planned event on the disk, whose blocks compare, and tells how that went.
fn put_or_tell<D: Disk>(
    alloc: Global,
    journal: &mut Journal,
    core: &mut Core,
    disk: &mut D,
    call: &Call,
    planned: &PlannedEvent,
    memory: &mut EventMemory,
    room: Room,
    reply: Reply,
) -> Ended
    requires formed { IsFormed call.now }
    requires disk { D.size disk.old ≡ disk_len journal.old.geometry }
    requires sizes { journal.old.geometry ≡ core.old.array.durable.geometry }
    requires unmarked { planned.now.record.first_after_open ≡ false }
    requires plan { (capabilities : List Capability) × IsJournalPlan capabilities core.old.array call.now planned.now.record.event planned.now.fill planned.now.compare reply }
    requires text { FitsReply reply }
    requires memory { IsEventMemory core.old.array call.now planned.now memory.old }
    requires room { IsEventRoomFor core.old call.now planned.now.record.event room }

    ensures served { (capabilities : List Capability) → IsJournalPlan capabilities core.old.array call.now planned.now.record.event planned.now.fill planned.now.compare reply
        → D.is_honest disk.old → (m : SeenArray ChunkValue) → UpOn journal.old core.old.array (D.content disk.old) (D.is_image disk.old) m
        → Compares core.old.array call.now planned.now m
        → IsServed capabilities m call.now journal.new core.new.array (D.content disk.new) (D.is_image disk.new) result }
    ensures left { (capabilities : List Capability) → IsJournalPlan capabilities core.old.array call.now planned.now.record.event planned.now.fill planned.now.compare reply
        → D.is_honest disk.old → (m : SeenArray ChunkValue) → UpOn journal.old core.old.array (D.content disk.old) (D.is_image disk.old) m
        → Compares core.old.array call.now planned.now m
        → LeavesOnly D.moment D.left_since disk.old disk.new (LeftIn capabilities m call.now result) }
    ensures memory { IsWithoutMemory result → ⊥ }
    ensures fits { FitsReply (answer_of result) }

    ensures cause { IsCaused (D.read_faults disk.old) (D.read_faults disk.new) (D.write_faults disk.old) (D.write_faults disk.new) result }
    ensures sizes { journal.new.geometry ≡ journal.old.geometry }
    ensures tables { core.new.array.durable.geometry ≡ core.old.array.durable.geometry }
    ensures len { D.size disk.new ≡ D.size disk.old }
    ensures honesty { D.is_honest disk.new ↔ D.is_honest disk.old }
    ensures reads { D.read_faults disk.old ≤ D.read_faults disk.new }
    ensures writes { D.write_faults disk.old ≤ D.write_faults disk.new }
    ensures told { TellsItsFailure result }
{
    match put_event(journal, core, disk, call, planned, memory, room) {
        Ok(()) => Ended::Replied(reply),
        Err(DiskFault::Read) => Ended::ReadFailed(read_failed(alloc, ends_command(&reply))),
        Err(DiskFault::Write) => Ended::WriteFailed(write_failed(alloc, ends_command(&reply))),
    }
}
