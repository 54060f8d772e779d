//! Recording an event: it goes into the log, and then it is done in memory.
ghost use Rattle.std.specs.Prelude.{◌≡◌, ◌≢◌, ◌⊎◌, ◌<◌, ◌≤◌, ◌↔◌, ℕ, List, length, false, Ok, OnOk, OnErr, IfErr, IfSome};
ghost use Rattle.vv_units.specs.Causes.{HasCause};
ghost use Rattle.vv_disk.specs.Images.{LeavesOnly};
ghost use Rattle.vv_data.specs.Layout.{disk_len};
ghost use Rattle.vv_flat.specs.State.{Array};
ghost use Rattle.vv_flat.specs.Chunks.{ChunkValue};
ghost use Rattle.vv_journal.specs.Half.{payload_limit};
ghost use Rattle.vv_record.specs.Records.{record_in};
ghost use Rattle.vv_core.specs.Core.{applied};
ghost use Rattle.vv_core.specs.Rooms.{IsEventRoomFor};
ghost use Rattle.vv_array.specs.Standing.{UpOn, StandsKept};
ghost use Rattle.vv_array.specs.Chunks.{HasNewOf, flat_applied};

use std::marker::Brand;
use std::sync::ledger::{Blank, Ledger};
use vv_calls::Call;
use vv_core::{Core, Room};
use vv_disk::Disk;
use vv_journal::Journal;
use vv_record::Record;
use vv_units::{DiskFault, Steps};

/// Puts the record of an event, whose new chunks stand at its places, into the log, and does the event. Where the write
/// fails, the memory of the event is given up, and the core stays.
pub(crate) fn record_event<D: Disk>(
    journal: &mut Journal,
    core: &mut Core,
    disk: &mut D,
    call: &Call,
    record: &Record,
    payload: &[u8],
    room: Room,
) -> Result<(), DiskFault>
    requires disk { D.size disk.old ≡ disk_len journal.old.geometry }
    requires sizes { journal.old.geometry ≡ core.old.array.durable.geometry }
    requires free { journal.old.records < 256 }
    requires payload { length payload.now ≤ payload_limit }
    requires spelled { record_in payload.now ≡ Ok «record».now }
    requires unmarked { «record».now.first_after_open ≡ false }
    requires room { IsEventRoomFor core.old call.now «record».now.event room }

    ensures core { OnOk result (core.new.array ≡ applied core.old.array call.now «record».now.event) }
    ensures kept { OnErr result (core.new.array ≡ core.old.array) }

    // The array that is up is the one after the call, once its new chunks stand at the places of the event.
    ensures stands { OnOk result (D.is_honest disk.old → (m : Array ChunkValue) → (bytes : List ℕ)
        → UpOn journal.old core.old.array (D.content disk.old) (D.is_image disk.old) m
        → IfSome (D.content disk.old) (HasNewOf core.old.array «record».now.event m bytes)
        → UpOn journal.new core.new.array (D.content disk.new) (D.is_image disk.new) (flat_applied core.old.array m call.now «record».now.event bytes)) }

    // A crash at any moment of the call leaves the array from before it or the one after it.
    ensures left { D.is_honest disk.old → (m : Array ChunkValue) → (bytes : List ℕ)
        → UpOn journal.old core.old.array (D.content disk.old) (D.is_image disk.old) m
        → IfSome (D.content disk.old) (HasNewOf core.old.array «record».now.event m bytes)
        → LeavesOnly D.moment D.left_since disk.old disk.new
        (λ image. StandsKept m image ⊎ StandsKept (flat_applied core.old.array m call.now «record».now.event bytes) image) }

    ensures sizes { journal.new.geometry ≡ journal.old.geometry }
    ensures len { D.size disk.new ≡ D.size disk.old }
    ensures honesty { D.is_honest disk.new ↔ D.is_honest disk.old }
    ensures fault { IfErr result (λ fault. fault ≡ DiskFault.Write) }
    ensures cause { HasCause (D.write_faults disk.old) (D.write_faults disk.new) result }
    ensures reads { D.read_faults disk.new ≡ D.read_faults disk.old }
    ensures writes { D.write_faults disk.old ≤ D.write_faults disk.new }
{
    match journal.append(disk, payload) {
        Ok(()) => {
            apply_uncounted::<Brand>(core, call, record, room, Blank::new(1));
            Ok(())
        }
        Err(fault) => {
            core.give_up(call, room);
            Err(fault)
        }
    }
}

/// Does a call with its event, and counts its steps for nobody.
fn apply_uncounted<L: Ledger>(
    core: &mut Core,
    call: &Call,
    record: &Record,
    room: Room,
    blank: Blank,
)
    requires room { IsEventRoomFor core.old call.now «record».now.event room }
    requires name { blank.name ≡ L.name }
    requires parts { blank.parts ≡ L.parts }
    requires some { 0 < blank.parts }
    ensures { core.new.array ≡ applied core.old.array call.now «record».now.event }
{
    let mut steps: Steps<L> = Steps::new(blank);
    core.apply(call, record, room, &mut steps);
}
