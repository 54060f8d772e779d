//! Serving a script line by line.
ghost use Rattle.std.specs.Prelude.{◌≡◌, ◌≢◌, ◌<◌, ◌≤◌, ◌+◌, ◌↔◌, [], Some, None, false, OnOk, OnErr, IfSome, length, take, drop};
ghost use Rattle.std.specs.Io.KnownBytes.{Appends, IsAtEnd};
ghost use Rattle.vv_units.specs.Causes.{HasCause, Rose};
ghost use Rattle.vv_data.specs.Layout.{disk_len};
ghost use Rattle.vv_disk.specs.Images.{LeavesOnly};
ghost use Rattle.vv_profile.specs.Known.{all_known};
ghost use Rattle.vv_calls.specs.Lines.{line_limit};
ghost use Rattle.vv_calls.specs.declared.call.LineFault.TheVariants as fault;
ghost use Rattle.vv_io.specs.Reading.{new_reader, script_limit};
ghost use Rattle.vv_reply.specs.Replies.{text_of};
ghost use Rattle.vv_reply.specs.declared.reply.Reply.TheVariants as answer;
ghost use Rattle.vv_meaning.specs.Steps.{State};
ghost use Rattle.vv_array.specs.Seen.{geometry_of};
ghost use Rattle.vv_array.specs.Standing.{StandsFor};
ghost use Rattle.vv_array.specs.Faults.{HasItsCause};
ghost use Rattle.vv_run.specs.Bounds.{AreBounded};
ghost use Rattle.vv_run.specs.Lines.{lines_of, ended_lines_of, lines_answered};
ghost use Rattle.vv_run.specs.Runs.{LineAnswered, LineCut, Answered, CutShort, AnsweredFront};
ghost use Rattle.vv_run.specs.Status.{is_unserved};
ghost use Rattle.vv_run.specs.Writing.{StopsWithin};

use crate::Status;
use crate::buffers::Buffers;
use crate::line::serve_line;
use crate::reading::next_line;
use crate::writing::{write_reply, write_served};
use std::alloc::Global;
use vv_array::Array;
use vv_calls::LineFault;
use vv_disk::Disk;
use vv_io::{Next, Sink, Source};
use vv_profile::Capabilities;
use vv_reply::{Reply, ReplyBuffer};
use vv_units::Failed;

/// Serves a script on an array: reads a line, writes what it is answered, and only then reads the next. It takes no memory but
/// that of a line's own call.
pub fn serve_script<S: Source, K: Sink, D: Disk>(
    alloc: Global,
    array: &mut Array,
    disk: &mut D,
    source: &mut S,
    sink: &mut K,
    capabilities: &Capabilities,
    buffers: &mut Buffers,
) -> Status
    requires disk { D.size disk.old ≡ disk_len (geometry_of array.old) }
    requires buffers { buffers.old.lines ≡ new_reader line_limit }

    ensures served { is_unserved result ≡ false }

    // The script was read to its end, and each of its lines was answered, from each state for which the array stood.
    ensures done { result ≡ Status.Done → D.is_honest disk.old → (start : State) → StandsFor array.old (D.content disk.old) (D.is_image disk.old) start
        → IfSome (S.left source.old) (λ told. Answered (all_known capabilities.now) start [] (K.taken sink.old) (K.taken sink.new)
        (StandsFor array.new (D.content disk.new) (D.is_image disk.new)) (LeavesOnly D.moment D.left_since disk.old disk.new)
        (AreBounded (D.read_faults disk.old) (D.read_faults disk.new) (D.write_faults disk.old) (D.write_faults disk.new)) (lines_of told)) }
    ensures done_within { result ≡ Status.Done → IfSome (S.left source.old) (λ told. length told ≤ script_limit) }
    ensures done_at_end { result ≡ Status.Done → IsAtEnd (S.left source.new) }

    // The source failed, and the lines that end in the bytes taken were answered.
    ensures source_fault { result ≡ Status.SourceFault → Rose (S.faults source.old) (S.faults source.new) }
    ensures before_source_fault { result ≡ Status.SourceFault → D.is_honest disk.old → (start : State) → StandsFor array.old (D.content disk.old) (D.is_image disk.old) start
        → IfSome (S.left source.old) (λ told. AnsweredFront (all_known capabilities.now) start [] (K.taken sink.old) (K.taken sink.new)
        (StandsFor array.new (D.content disk.new) (D.is_image disk.new)) (LeavesOnly D.moment D.left_since disk.old disk.new)
        (AreBounded (D.read_faults disk.old) (D.read_faults disk.new) (D.write_faults disk.old) (D.write_faults disk.new)) told (S.left source.new)) }

    // A byte past the limit was taken, and the lines that end before it were answered.
    ensures too_much { result ≡ Status.TooMuch → D.is_honest disk.old → (start : State) → StandsFor array.old (D.content disk.old) (D.is_image disk.old) start
        → IfSome (S.left source.old) (λ told. Answered (all_known capabilities.now) start [] (K.taken sink.old) (K.taken sink.new)
        (StandsFor array.new (D.content disk.new) (D.is_image disk.new)) (LeavesOnly D.moment D.left_since disk.old disk.new)
        (AreBounded (D.read_faults disk.old) (D.read_faults disk.new) (D.write_faults disk.old) (D.write_faults disk.new)) (ended_lines_of (take script_limit told))) }
    ensures past_the_limit { result ≡ Status.TooMuch → IfSome (S.left source.old) (λ told.
        (script_limit < length told) × (S.left source.new ≡ Some (drop (script_limit + 1) told))) }

    // The sink failed, and took a part of the text of one of the lines that would have been answered.
    ensures sink_fault { result ≡ Status.SinkFault → Rose (K.faults sink.old) (K.faults sink.new) }
    ensures before_sink_fault { result ≡ Status.SinkFault → D.is_honest disk.old → (start : State) → StandsFor array.old (D.content disk.old) (D.is_image disk.old) start
        → IfSome (S.left source.old) (λ told. CutShort (all_known capabilities.now) start [] (K.taken sink.old) (K.taken sink.new)
        (StandsFor array.new (D.content disk.new) (D.is_image disk.new)) (LeavesOnly D.moment D.left_since disk.old disk.new)
        (AreBounded (D.read_faults disk.old) (D.read_faults disk.new) (D.write_faults disk.old) (D.write_faults disk.new)) (lines_answered told)) }

    ensures no_source_fault { result ≢ Status.SourceFault → S.faults source.new ≡ S.faults source.old }
    ensures no_sink_fault { result ≢ Status.SinkFault → K.faults sink.new ≡ K.faults sink.old }
    ensures source_later { S.faults source.old ≤ S.faults source.new }
    ensures sink_later { K.faults sink.old ≤ K.faults sink.new }
    ensures sizes { D.size disk.new ≡ disk_len (geometry_of array.new) }
    ensures len { D.size disk.new ≡ D.size disk.old }
    ensures honesty { D.is_honest disk.new ↔ D.is_honest disk.old }
    ensures reads { D.read_faults disk.old ≤ D.read_faults disk.new }
    ensures writes { D.write_faults disk.old ≤ D.write_faults disk.new }
{
    'lines: loop {
        match next_line(&mut buffers.lines, source) {
            Ok(Next::Line) => {
                let line = buffers.lines.line();
                if let Err(Failed) = answer_line(
                    alloc,
                    array,
                    disk,
                    capabilities,
                    line,
                    &mut buffers.reply,
                    sink,
                ) {
                    return Status::SinkFault;
                }
            }
            Ok(Next::TooLong) => {
                if let Err(Failed) = refuse_line(&mut buffers.reply, sink) {
                    return Status::SinkFault;
                }
            }
            Ok(Next::End) => return Status::Done,
            Ok(Next::TooMuch) => return Status::TooMuch,
            Err(Failed) => return Status::SourceFault,
        }
    }
}

/// Serves a line, and writes what it is answered.
fn answer_line<K: Sink, D: Disk>(
    alloc: Global,
    array: &mut Array,
    disk: &mut D,
    capabilities: &Capabilities,
    line: &[u8],
    buffer: &mut ReplyBuffer,
    sink: &mut K,
) -> Result<(), Failed>
    requires disk { D.size disk.old ≡ disk_len (geometry_of array.old) }
    ensures ok { OnOk result (D.is_honest disk.old → (before : State) → StandsFor array.old (D.content disk.old) (D.is_image disk.old) before
        → LineAnswered (all_known capabilities.now) before (Some line.now) (K.taken sink.old) (K.taken sink.new)
        (StandsFor array.new (D.content disk.new) (D.is_image disk.new)) (LeavesOnly D.moment D.left_since disk.old disk.new)
        (HasItsCause (D.read_faults disk.old) (D.read_faults disk.new) (D.write_faults disk.old) (D.write_faults disk.new))) }
    ensures err { OnErr result (D.is_honest disk.old → (before : State) → StandsFor array.old (D.content disk.old) (D.is_image disk.old) before
        → LineCut (all_known capabilities.now) before (Some line.now) (K.taken sink.old) (K.taken sink.new)
        (StandsFor array.new (D.content disk.new) (D.is_image disk.new)) (LeavesOnly D.moment D.left_since disk.old disk.new)
        (HasItsCause (D.read_faults disk.old) (D.read_faults disk.new) (D.write_faults disk.old) (D.write_faults disk.new))) }
    ensures cause { HasCause (K.faults sink.old) (K.faults sink.new) result }
    ensures sizes { D.size disk.new ≡ disk_len (geometry_of array.new) }
    ensures len { D.size disk.new ≡ D.size disk.old }
    ensures honesty { D.is_honest disk.new ↔ D.is_honest disk.old }
    ensures reads { D.read_faults disk.old ≤ D.read_faults disk.new }
    ensures writes { D.write_faults disk.old ≤ D.write_faults disk.new }
{
    let served = serve_line(alloc, array, disk, capabilities, line);
    write_served(buffer, served, sink)
}

/// Writes what a line is answered that is too long.
fn refuse_line<K: Sink>(buffer: &mut ReplyBuffer, sink: &mut K) -> Result<(), Failed>
    ensures ok { OnOk result (Appends (K.taken sink.old) (K.taken sink.new) (text_of (answer.Line fault.LineTooLong))) }
    ensures err { OnErr result (StopsWithin (K.taken sink.old) (K.taken sink.new) (text_of (answer.Line fault.LineTooLong))) }
    ensures cause { HasCause (K.faults sink.old) (K.faults sink.new) result }
{
    write_reply(buffer, &Reply::Line(LineFault::LineTooLong), sink)
}
