//! Calls of an array that is up.
ghost use Rattle.std.specs.Prelude.{◌≡◌, ◌≤◌, ◌↔◌, List, Some, false};
ghost use Rattle.vv_data.specs.Layout.{disk_len};
ghost use Rattle.vv_disk.specs.Images.{LeavesOnly};
ghost use Rattle.vv_flat.specs.State.{Array as SeenArray};
ghost use Rattle.vv_flat.specs.Chunks.{ChunkValue};
ghost use Rattle.vv_flat.specs.Profiles.{Capability};
ghost use Rattle.vv_calls.specs.Formed.{IsFormed};
ghost use Rattle.vv_journal.specs.Calls.{JournalState};
ghost use Rattle.vv_profile.specs.Known.{all_known};
ghost use Rattle.vv_meaning.specs.Steps.{is_restart};
ghost use Rattle.vv_core.specs.Plans.{settled, IsRefusedFor, IsReadPlan};
ghost use Rattle.vv_array.specs.Standing.{UpOn};
ghost use Rattle.vv_reply.specs.Replies.{FitsReply};
ghost use Rattle.vv_array.specs.FaultsTold.{TellsItsFailure, TellsNoFailure};
ghost use Rattle.vv_array.specs.Served.{IsServed, IsSettled, LeftIn, IsCaused, HasStayed, IsWithoutMemory, answer_of};

use crate::block_reads::{block_buffer, read_some};
use crate::ended::Ended;
use crate::journaling::journaled;
use crate::putting::PlannedEvent;
use crate::telling::{good, read_failed};
use std::alloc::Global;
use vv_calls::Call;
use vv_core::{Core, Planned};
use vv_disk::Disk;
use vv_journal::Journal;
use vv_profile::Capabilities;
use vv_record::Record;
use vv_reply::{Refusal, Reply};
use vv_units::{NoMemory, VolumeId};

/// Serves a call other than a restart of an array that is up.
pub(crate) fn serve<D: Disk>(
    alloc: Global,
    journal: &mut Journal,
    core: &mut Core,
    disk: &mut D,
    capabilities: &Capabilities,
    call: &Call,
) -> Ended
    requires formed { IsFormed call.now }
    requires other { is_restart call.now ≡ false }
    requires disk { D.size disk.old ≡ disk_len journal.old.geometry }
    requires sizes { journal.old.geometry ≡ core.old.array.durable.geometry }

    // What the call is answered, and what the array stands for then.
    ensures served { D.is_honest disk.old → (m : SeenArray ChunkValue)
        → UpOn journal.old core.old.array (D.content disk.old) (D.is_image disk.old) m
        → IsServed (all_known capabilities.now) m call.now journal.new core.new.array (D.content disk.new) (D.is_image disk.new) result }

    // What a crash at any moment of the call leaves.
    ensures left { D.is_honest disk.old → (m : SeenArray ChunkValue)
        → UpOn journal.old core.old.array (D.content disk.old) (D.is_image disk.old) m
        → LeavesOnly D.moment D.left_since disk.old disk.new (LeftIn (all_known capabilities.now) m call.now result) }

    // Where there was no memory, nothing was written.
    ensures stayed { HasStayed result journal.old journal.new core.old core.new (D.content disk.old) (D.content disk.new) }
    ensures unwritten { IsWithoutMemory result → LeavesOnly D.moment D.left_since disk.old disk.new (D.is_image disk.old) }

    // What it is answered has a text.
    ensures fits { FitsReply (answer_of result) }

    ensures cause { IsCaused (D.read_faults disk.old) (D.read_faults disk.new) (D.write_faults disk.old) (D.write_faults disk.new) result }
    ensures told { TellsItsFailure result }
    ensures sizes { journal.new.geometry ≡ journal.old.geometry }
    ensures tables { core.new.array.durable.geometry ≡ core.old.array.durable.geometry }
    ensures len { D.size disk.new ≡ D.size disk.old }
    ensures honesty { D.is_honest disk.new ↔ D.is_honest disk.old }
    ensures reads { D.read_faults disk.old ≤ D.read_faults disk.new }
    ensures writes { D.write_faults disk.old ≤ D.write_faults disk.new }
{
    match core.plan(alloc, capabilities, call) {
        Ok(Planned::Answer(reply)) => answered(alloc, core, call, reply),
        Ok(
            Planned::Read {
                volume,
                first,
                blocks,
            },
        ) => read(alloc, core, disk, call, volume, first, blocks),
        Ok(
            Planned::Journal {
                event,
                fill,
                compare,
                reply,
            },
        ) => {
            let record = Record {
                first_after_open: false,
                event,
            };
            let planned = PlannedEvent {
                record,
                fill,
                compare,
            };
            journaled(alloc, journal, core, disk, call, planned, reply)
        }
        Err(refusal) => refused(alloc, core, call, refusal),
    }
}

/// A call that is answered without the disk.
fn answered(alloc: Global, core: &mut Core, call: &Call, reply: Reply) -> Ended
    requires { IsFormed call.now }
    ensures settled { (capabilities : List Capability) → settled capabilities core.old.array call.now ≡ Some reply
        → IsSettled capabilities core.old.array core.new.array call.now result }
    ensures memory { IsWithoutMemory result → core.new ≡ core.old }
    ensures text { FitsReply reply → FitsReply (answer_of result) }
    ensures told { TellsNoFailure reply → TellsItsFailure result }
{
    match core.prepare(alloc, call) {
        Ok(room) => {
            core.pass(call, room);
            Ended::Replied(reply)
        }
        Err(NoMemory) => Ended::NoMemory,
    }
}

/// A call that is refused, or for whose plan there was no memory.
fn refused(alloc: Global, core: &mut Core, call: &Call, refusal: Refusal) -> Ended
    requires { IsFormed call.now }
    ensures settled { (capabilities : List Capability) → IsRefusedFor capabilities core.old.array call.now refusal
        → IsSettled capabilities core.old.array core.new.array call.now result }
    ensures memory { IsWithoutMemory result → core.new ≡ core.old }
    ensures fits { FitsReply (answer_of result) }
    ensures told { (capabilities : List Capability) → IsRefusedFor capabilities core.old.array call.now refusal → TellsItsFailure result }
{
    match refusal {
        Refusal::NoMemory => Ended::NoMemory,
        _ => answered(alloc, core, call, Reply::Refused(refusal)),
    }
}

/// A call that reads blocks.
fn read<D: Disk>(
    alloc: Global,
    core: &mut Core,
    disk: &mut D,
    call: &Call,
    volume: VolumeId,
    first: u64,
    blocks: u32,
) -> Ended
    requires formed { IsFormed call.now }
    requires disk { D.size disk.old ≡ disk_len core.old.array.durable.geometry }
    requires plan { IsReadPlan core.old.array call.now volume.0 first blocks }

    ensures served { (capabilities : List Capability) → (journal : JournalState) → D.is_honest disk.old → (m : SeenArray ChunkValue)
        → UpOn journal core.old.array (D.content disk.old) (D.is_image disk.old) m
        → IsServed capabilities m call.now journal core.new.array (D.content disk.new) (D.is_image disk.new) result }
    ensures any_moment { LeavesOnly D.moment D.left_since disk.old disk.new (D.is_image disk.old) }
    ensures fits { FitsReply (answer_of result) }
    ensures stayed { (journal : JournalState) → HasStayed result journal journal core.old core.new (D.content disk.old) (D.content disk.new) }
    ensures cause { IsCaused (D.read_faults disk.old) (D.read_faults disk.new) (D.write_faults disk.old) (D.write_faults disk.new) result }
    ensures told { TellsItsFailure result }
    ensures tables { core.new.array.durable ≡ core.old.array.durable }
    ensures len { D.size disk.new ≡ D.size disk.old }
    ensures honesty { D.is_honest disk.new ↔ D.is_honest disk.old }
    ensures reads { D.read_faults disk.old ≤ D.read_faults disk.new }
    ensures writes { D.write_faults disk.new ≡ D.write_faults disk.old }
{
    let Ok(mut bytes) = block_buffer(alloc, blocks) else {
        return Ended::NoMemory;
    };
    let Ok(room) = core.prepare(alloc, call) else {
        return Ended::NoMemory;
    };
    match read_some(core, disk, volume, first, blocks, bytes.as_mut_slice()) {
        Ok(()) => {
            core.pass(call, room);
            Ended::Replied(good(bytes))
        }
        Err(_) => {
            core.give_up(call, room);
            Ended::ReadFailed(read_failed(alloc, true))
        }
    }
}
