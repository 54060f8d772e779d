//! Serving a generated script on a new array.
ghost use Rattle.std.specs.Prelude.{◌≡◌, ◌≢◌, ◌⊎◌, ◌↔◌, ◌≤◌, ℕ, true, false, Some};
ghost use Rattle.vv_units.specs.Causes.{Rose};
ghost use Rattle.vv_data.specs.Layout.{disk_len};
ghost use Rattle.vv_disk.specs.Images.{EachImage, LeavesOnly};
ghost use Rattle.vv_flat.specs.State.{empty_array};
ghost use Rattle.vv_profile.specs.Known.{all_known};
ghost use Rattle.vv_meaning.specs.Steps.{State, Up};
ghost use Rattle.vv_array.specs.Seen.{geometry_of};
ghost use Rattle.vv_array.specs.Standing.{StandsFor};
ghost use Rattle.vv_array.specs.Moments.{StandsForOne};
ghost use Rattle.vv_run.specs.Bounds.{AreBounded};
ghost use Rattle.vv_run.specs.Lines.{lines_of};
ghost use Rattle.vv_run.specs.Loading.{loaded_lines, LoadEnds};
ghost use Rattle.vv_run.specs.Runs.{Reported};
ghost use Rattle.vv_run.specs.Starts.{LeavesSince};
ghost use Rattle.vv_run.specs.Status.{is_unserved, is_before_disk, IsWrongSize};

use crate::Status;
use crate::beginning::{Begun, begin};
use crate::generating::script_to_load;
use crate::summary::write_tally;
use crate::walking::serve_text;
use crate::words::{Command, Recipe};
use std::alloc::Global;
use vv_disk::Disk;
use vv_io::Sink;
use vv_profile::Capabilities;
use vv_reply::ReplyBuffer;
use vv_units::{Failed, Geometry};

/// Makes the image of an empty array of these sizes, and serves a generated script on it, and a last line that asks for the
/// pool's figures. Then it writes what that line was answered, and how many lines were answered with and without `"ok":true`.
/// Memory for the script and for the reply is taken before the image is made.
pub(crate) fn load<K: Sink, D: Disk>(
    alloc: Global,
    sizes: Geometry,
    recipe: Recipe,
    sink: &mut K,
    disk: &mut D,
    capabilities: &Capabilities,
) -> Status
    ensures ends { LoadEnds result (K.taken sink.old) (K.taken sink.new) (λ told. D.is_honest disk.old → Reported (all_known capabilities.now) (Up (empty_array sizes)) told
        (λ state. EachImage (StandsForOne state) (D.is_image disk.new)) (LeavesSince D.moment D.left_since D.is_image (Some (Command.New sizes)) (Up (empty_array sizes)) disk.old disk.new)
        (AreBounded (D.read_faults disk.old) (D.read_faults disk.new) (D.write_faults disk.old) (D.write_faults disk.new)) (loaded_lines recipe)) }
    ensures wrong_size { (needed found : ℕ) → result ≡ Status.WrongSize needed found → IsWrongSize (Some (Command.New sizes)) (D.size disk.old) needed found }
    ensures right_size { D.size disk.old ≢ disk_len sizes → (result ≡ Status.WrongSize (disk_len sizes) (D.size disk.old)) ⊎ (result ≡ Status.NoMemory) }
    ensures device_fault { result ≡ Status.DeviceFault → Rose (D.read_faults disk.old) (D.read_faults disk.new) ⊎ Rose (D.write_faults disk.old) (D.write_faults disk.new) }
    ensures complete { D.size disk.old ≡ disk_len sizes → ¬ (Rose (K.faults sink.old) (K.faults sink.new))
        → ¬ (Rose (D.read_faults disk.old) (D.read_faults disk.new)) → ¬ (Rose (D.write_faults disk.old) (D.write_faults disk.new))
        → (result ≡ Status.Done) ⊎ (result ≡ Status.NoMemory) }
    ensures unwritten { is_unserved result ≡ true → sink.new ≡ sink.old }
    ensures untouched_disk { is_before_disk result ≡ true → disk.new ≡ disk.old }
    ensures sink_fault { result ≡ Status.SinkFault → Rose (K.faults sink.old) (K.faults sink.new) }
    ensures no_sink_fault { result ≢ Status.SinkFault → K.faults sink.new ≡ K.faults sink.old }
    ensures sink_later { K.faults sink.old ≤ K.faults sink.new }
    ensures reads { D.read_faults disk.old ≤ D.read_faults disk.new }
    ensures writes { D.write_faults disk.old ≤ D.write_faults disk.new }
    ensures len { D.size disk.new ≡ D.size disk.old }
    ensures honesty { D.is_honest disk.new ↔ D.is_honest disk.old }
{
    let Ok(text) = script_to_load(alloc, recipe) else {
        return Status::NoMemory;
    };
    let Ok(mut buffer) = ReplyBuffer::new(alloc) else {
        return Status::NoMemory;
    };
    match begin(alloc, Command::New(sizes), disk) {
        Ok(begun) => load_begun(alloc, begun, disk, &text, sink, capabilities, &mut buffer),
        Err(status) => status,
    }
}

/// Serves the lines of a text, and writes what they came to. Then the array is closed.
fn load_begun<K: Sink, D: Disk>(
    alloc: Global,
    begun: Begun,
    disk: &mut D,
    text: &[u8],
    sink: &mut K,
    capabilities: &Capabilities,
    buffer: &mut ReplyBuffer,
) -> Status
    requires disk { D.size disk.old ≡ disk_len (geometry_of begun.array) }
    ensures served { is_unserved result ≡ false }
    ensures ends { LoadEnds result (K.taken sink.old) (K.taken sink.new) (λ told. D.is_honest disk.old → (start : State) → StandsFor begun.array (D.content disk.old) (D.is_image disk.old) start
        → Reported (all_known capabilities.now) start told
        (λ state. EachImage (StandsForOne state) (D.is_image disk.new)) (LeavesOnly D.moment D.left_since disk.old disk.new)
        (AreBounded (D.read_faults disk.old) (D.read_faults disk.new) (D.write_faults disk.old) (D.write_faults disk.new)) (lines_of text.now)) }
    ensures sink_fault { result ≡ Status.SinkFault → Rose (K.faults sink.old) (K.faults sink.new) }
    ensures no_sink_fault { result ≢ Status.SinkFault → K.faults sink.new ≡ K.faults sink.old }
    ensures sink_later { K.faults sink.old ≤ K.faults sink.new }
    ensures len { D.size disk.new ≡ D.size disk.old }
    ensures honesty { D.is_honest disk.new ↔ D.is_honest disk.old }
    ensures reads { D.read_faults disk.old ≤ D.read_faults disk.new }
    ensures writes { D.write_faults disk.old ≤ D.write_faults disk.new }
{
    let Begun {
        mut array,
        recovered: _,
    } = begun;
    let tally = serve_text(alloc, &mut array, disk, capabilities, text);
    array.close();
    match write_tally(buffer, tally, sink) {
        Ok(()) => Status::Done,
        Err(Failed) => Status::SinkFault,
    }
}
