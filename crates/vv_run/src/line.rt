//! Serving one line.
ghost use Rattle.std.specs.Prelude.{◌≡◌, ◌≤◌, ◌↔◌, true, false, Ok, Err, Some, None, IfSome};
ghost use Rattle.vv_data.specs.Layout.{disk_len};
ghost use Rattle.vv_disk.specs.Images.{LeavesOnly};
ghost use Rattle.vv_profile.specs.Known.{all_known};
ghost use Rattle.vv_calls.specs.Lines.{line_reading};
ghost use Rattle.vv_reply.specs.Replies.{FitsReply};
ghost use Rattle.vv_image.specs.Opening.{opened};
ghost use Rattle.vv_meaning.specs.Steps.{State, is_restart, no_memory};
ghost use Rattle.vv_array.specs.Seen.{geometry_of};
ghost use Rattle.vv_array.specs.Standing.{StandsFor};
ghost use Rattle.vv_array.specs.Moments.{StandsBetween};
ghost use Rattle.vv_array.specs.Faults.{HasItsCause};
ghost use Rattle.vv_array.specs.Executing.{is_reopening, is_up, TellsReopened, IsUndamaged};
ghost use Rattle.vv_array.specs.Reopening.{IsAsBefore};
ghost use Rattle.vv_run.specs.Steps.{LineStep};
ghost use Rattle.vv_run.specs.Replies.{reply_to_fault, IsLineFault};
ghost use Rattle.vv_calls.specs.declared.call.Call.{Call as SomeCall};
ghost use Rattle.vv_calls.specs.declared.call.LineFault.{LineFault as SomeFault};

use std::alloc::Global;
use vv_array::{Array, Served};
use vv_calls::{LineFault, read_line};
use vv_disk::Disk;
use vv_profile::Capabilities;
use vv_reply::{Refusal, Reply};

/// Serves a line: what it is answered, and the log number that was recovered, where the image was opened again for it.
pub fn serve_line<D: Disk>(
    alloc: Global,
    array: &mut Array,
    disk: &mut D,
    capabilities: &Capabilities,
    line: &[u8],
) -> Served
    requires disk { D.size disk.old ≡ disk_len (geometry_of array.old) }

    // The line is a step of the state for which the array stood, and it stands for the one after that step. A crash at any
    // moment of the call leaves an array of the one or of the other.
    ensures step { D.is_honest disk.old → (before : State) → StandsFor array.old (D.content disk.old) (D.is_image disk.old) before
        → (after : State) × StandsFor array.new (D.content disk.new) (D.is_image disk.new) after
        × LineStep (all_known capabilities.now) before (Some line.now) result.recovered result.reply after
        × LeavesOnly D.moment D.left_since disk.old disk.new (StandsBetween before after) }

    // A line that is no call is answered so, unless there is no memory, and leaves array and disk alone. All of this holds on
    // every disk, and so does what follows.
    ensures no_call { (fault : SomeFault) → line_reading line.now ≡ Err fault → IsLineFault fault result.recovered result.reply }
    ensures kept { (fault : SomeFault) → line_reading line.now ≡ Err fault → (array.new ≡ array.old) × (disk.new ≡ disk.old) }

    // A fault of the disk is told only where its count rose.
    ensures cause { HasItsCause (D.read_faults disk.old) (D.read_faults disk.new) (D.write_faults disk.old) (D.write_faults disk.new) result.reply }

    // Opening the image again for a call finds what is read of it; and where nothing is opened, nothing is recovered.
    ensures reopened { (call : SomeCall) → line_reading line.now ≡ Ok call → is_reopening array.old call ≡ true
        → IfSome (D.content disk.old) (λ image. TellsReopened (opened image) result.recovered result.reply) }
    ensures recovers { (call : SomeCall) → line_reading line.now ≡ Ok call → is_reopening array.old call ≡ false → result.recovered ≡ None }
    ensures undamaged { D.is_honest disk.old → (before : State) → StandsFor array.old (D.content disk.old) (D.is_image disk.old) before → IsUndamaged result.reply }

    // Want of memory leaves an array that is up, and what its disk holds, as they were, but at a restart.
    ensures memory { (call : SomeCall) → line_reading line.now ≡ Ok call → is_up array.old ≡ true → is_restart call ≡ false → result.reply ≡ no_memory
        → (D.content disk.new ≡ D.content disk.old) × IsAsBefore array.old array.new }

    // The reply has a text.
    ensures fits { FitsReply result.reply }

    ensures sizes { D.size disk.new ≡ disk_len (geometry_of array.new) }
    ensures len { D.size disk.new ≡ D.size disk.old }
    ensures honesty { D.is_honest disk.new ↔ D.is_honest disk.old }
    ensures reads { D.read_faults disk.old ≤ D.read_faults disk.new }
    ensures writes { D.write_faults disk.old ≤ D.write_faults disk.new }
{
    match read_line(alloc, line) {
        Ok(call) => array.execute(alloc, disk, capabilities, &call),
        Err(fault) => Served {
            recovered: None,
            reply: reply_to_fault(fault),
        },
    }
}

/// The reply to a line with this fault. Want of memory is none of the line.
pub(crate) fn reply_to_fault(fault: LineFault) -> Reply
    ensures reply { result ≡ reply_to_fault fault }
    ensures fits { FitsReply result }
{
    match fault {
        LineFault::NoMemory => Reply::Refused(Refusal::NoMemory),
        LineFault::NotJson => Reply::Line(LineFault::NotJson),
        LineFault::UnknownCall => Reply::Line(LineFault::UnknownCall),
        LineFault::MissingField { name } => Reply::Line(LineFault::MissingField { name }),
        LineFault::BadField { name } => Reply::Line(LineFault::BadField { name }),
        LineFault::LineTooLong => Reply::Line(LineFault::LineTooLong),
    }
}
