//! The records of an image's slots, replayed one after another.
ghost use Rattle.std.specs.Prelude.{◌≡◌, ◌<◌, ◌≤◌, ◌+◌, ℕ, List, Ok, Some, IsTrue, IfOk, IfErr, IfSome, OnOk, length};
ghost use Rattle.vv_data.specs.Layout.{disk_len};
ghost use Rattle.vv_flat.specs.State.{Durable, empty_volatile};
ghost use Rattle.vv_flat.specs.Chunks.{Entry};
ghost use Rattle.vv_flat.specs.Fields.{change_has_forms};
ghost use Rattle.vv_record.specs.Records.{IsFaultOf, record_in};
ghost use Rattle.vv_event.specs.Events.{change_of};
ghost use Rattle.vv_journal.specs.Half.{payload_limit};
ghost use Rattle.vv_image.specs.Opening.{applied, fitted};
ghost use Rattle.vv_array.specs.OpeningSteps.{damaged_at, IsFaultIn, IsNoneOfDisk, HasReadCause, OnlyReads, slots_found, journal_past, HasPassed, HasReplayed};

use crate::area::room_for;
use crate::fault::ArrayFault;
use std::alloc::Global;
use vv_core::{Core, Replayed};
use vv_disk::Disk;
use vv_journal::{Journal, SlotRead};
use vv_record::{Record, RecordFault, decode};
use vv_units::{Damage, Part};

/// The most bytes of a record.
const PAYLOAD_LIMIT: usize = 4088;

/// Replays the records of all slots, up to the first whose gate isn't open. The journal stands before the first slot.
pub(crate) fn replay_records<D: Disk>(
    alloc: Global,
    journal: &mut Journal,
    core: &mut Core,
    disk: &mut D,
) -> Result<(), ArrayFault>
    requires first { journal.old.records ≡ 0 }
    requires waiting { core.old.array.volatile ≡ empty_volatile }
    requires disk { D.size disk.old ≡ disk_len journal.old.geometry }

    ensures replayed { OnOk result (IfSome (D.content disk.old) (HasReplayed journal.old journal.new core.old.array.durable core.new.array.durable)) }
    ensures waiting { OnOk result (core.new.array.volatile ≡ empty_volatile) }
    ensures sizes { OnOk result (core.new.array.durable.geometry ≡ core.old.array.durable.geometry) }
    ensures place { OnOk result ((journal.new.geometry ≡ journal.old.geometry) × (journal.new.half ≡ journal.old.half)) }
    ensures few { OnOk result (journal.new.records ≤ 256) }
    ensures fault { IfErr result (λ fault. IfSome (D.content disk.old) (λ c. IsFaultIn (slots_found journal.old c core.old.array.durable) fault)) }
    ensures cause { IfErr result (HasReadCause (D.read_faults disk.old) (D.read_faults disk.new)) }
    ensures disk { OnlyReads D.size D.content D.is_image D.is_honest D.moment D.left_since D.read_faults D.write_faults disk.old disk.new }
{
    let mut into = room_for(alloc, PAYLOAD_LIMIT)?;
    replay_slots(alloc, journal, core, disk, &mut into)
}

/// Replays the records of the slots with the memory for one.
fn replay_slots<D: Disk>(
    alloc: Global,
    journal: &mut Journal,
    core: &mut Core,
    disk: &mut D,
    into: &mut [u8],
) -> Result<(), ArrayFault>
    requires first { journal.old.records ≡ 0 }
    requires waiting { core.old.array.volatile ≡ empty_volatile }
    requires into { length into.old ≡ payload_limit }
    requires disk { D.size disk.old ≡ disk_len journal.old.geometry }

    ensures replayed { OnOk result (IfSome (D.content disk.old) (HasReplayed journal.old journal.new core.old.array.durable core.new.array.durable)) }
    ensures waiting { OnOk result (core.new.array.volatile ≡ empty_volatile) }
    ensures sizes { OnOk result (core.new.array.durable.geometry ≡ core.old.array.durable.geometry) }
    ensures place { OnOk result ((journal.new.geometry ≡ journal.old.geometry) × (journal.new.half ≡ journal.old.half)) }
    ensures few { OnOk result (journal.new.records ≤ 256) }
    ensures fault { IfErr result (λ fault. IfSome (D.content disk.old) (λ c. IsFaultIn (slots_found journal.old c core.old.array.durable) fault)) }
    ensures cause { IfErr result (HasReadCause (D.read_faults disk.old) (D.read_faults disk.new)) }
    ensures disk { OnlyReads D.size D.content D.is_image D.is_honest D.moment D.left_since D.read_faults D.write_faults disk.old disk.new }
{
    for slot in 0..256 {
        let more = replay_next(alloc, slot, journal, core, disk, into)?;
        if !more {
            return Ok(());
        }
    }
    Ok(())
}

/// Replays the record of the next slot, and tells whether there was one: where the gate isn't open, there is none.
fn replay_next<D: Disk>(
    alloc: Global,
    slot: u64,
    journal: &mut Journal,
    core: &mut Core,
    disk: &mut D,
    into: &mut [u8],
) -> Result<bool, ArrayFault>
    requires room { journal.old.records < 256 }
    requires slot { slot ≡ journal.old.records }
    requires waiting { core.old.array.volatile ≡ empty_volatile }
    requires into { length into.old ≡ payload_limit }
    requires disk { D.size disk.old ≡ disk_len journal.old.geometry }

    ensures passed { IfOk result (λ more. IfSome (D.content disk.old) (HasPassed more journal.old core.old.array.durable core.new.array.durable)) }
    ensures counted { IfOk result (λ more. journal.new ≡ journal_past more journal.old) }
    ensures waiting { OnOk result (core.new.array.volatile ≡ empty_volatile) }
    ensures sizes { OnOk result (core.new.array.durable.geometry ≡ core.old.array.durable.geometry) }
    ensures fault { IfErr result (λ fault. IfSome (D.content disk.old) (λ c. IsFaultIn (slots_found journal.old c core.old.array.durable) fault)) }
    ensures cause { IfErr result (HasReadCause (D.read_faults disk.old) (D.read_faults disk.new)) }
    ensures disk { OnlyReads D.size D.content D.is_image D.is_honest D.moment D.left_since D.read_faults D.write_faults disk.old disk.new }
{
    let read = journal.read_slot(disk, into)?;
    match read {
        SlotRead::Closed => Ok(false),
        SlotRead::Bad => Err(damaged(Part::Slot, slot, 0)),
        SlotRead::Payload { len } => {
            replay_payload(alloc, slot, &into[..len as usize], core)?;
            Ok(true)
        }
    }
}

/// Replays the record that the payload of a slot spells.
fn replay_payload(
    alloc: Global,
    slot: u64,
    payload: &[u8],
    core: &mut Core,
) -> Result<(), ArrayFault>
    ensures applied { OnOk result (applied slot (Some payload.now) core.old.array.durable ≡ Ok core.new.array.durable) }
    ensures waiting { OnOk result (core.new.array.volatile ≡ empty_volatile) }
    ensures sizes { OnOk result (core.new.array.durable.geometry ≡ core.old.array.durable.geometry) }
    ensures fault { IfErr result (IsFaultIn (applied slot (Some payload.now) core.old.array.durable)) }
    ensures kind { IfErr result IsNoneOfDisk }
{
    match decode(alloc, payload) {
        Ok(read) => replay_record(alloc, slot, &read, core),
        Err(fault) => Err(payload_fault(slot, fault)),
    }
}

/// Replays a record that was read of a slot.
fn replay_record(alloc: Global, slot: u64, read: &Record, core: &mut Core) -> Result<(), ArrayFault>
    requires forms { IsTrue (change_has_forms (change_of read.now.event)) }
    ensures applied { OnOk result (fitted slot core.old.array.durable read.now ≡ Ok core.new.array.durable) }
    ensures waiting { OnOk result (core.new.array.volatile ≡ empty_volatile) }
    ensures sizes { OnOk result (core.new.array.durable.geometry ≡ core.old.array.durable.geometry) }
    ensures fault { IfErr result (IsFaultIn (fitted slot core.old.array.durable read.now)) }
    ensures kind { IfErr result IsNoneOfDisk }
{
    let next = next_lsn(core);
    let replayed = core.replay(alloc, read)?;
    match replayed {
        Replayed::Applied => Ok(()),
        Replayed::Misfit => Err(damaged(Part::Record, slot, next)),
    }
}

/// The log number that the next record has.
fn next_lsn(core: &Core) -> u64
    ensures { result ≡ core.now.array.durable.lsn + 1 }
{
    core.lsn() + 1
}

/// What is told of a slot whose payload spells no record. A fault stands in the payload, which is no longer than 4088 bytes.
fn payload_fault(slot: u64, fault: RecordFault) -> ArrayFault
    ensures fault { (payload : List ℕ) → (tables : Durable Entry) → IsFaultOf fault (record_in payload) → IsFaultIn (applied slot (Some payload) tables) result }
    ensures kind { IsNoneOfDisk result }
{
    match fault {
        RecordFault::Bad { at } => {
            if at > PAYLOAD_LIMIT {
                return ArrayFault::NoMemory;
            }
            damaged(Part::Slot, slot, 8 + at as u64)
        }
        RecordFault::NoMemory => ArrayFault::NoMemory,
    }
}

/// A part of an image that is wrong.
fn damaged(part: Part, place: u64, found: u64) -> ArrayFault
    ensures fault { result ≡ damaged_at part place found }
    ensures kind { IsNoneOfDisk result }
{
    ArrayFault::Damaged(Damage { part, place, found })
}
