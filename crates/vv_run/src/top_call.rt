//! The top call.
ghost use Rattle.std.specs.Prelude.{◌≡◌, ◌≢◌, ◌⊎◌, ◌↔◌, ◌<◌, ◌≤◌, ◌+◌, ℕ, [], true, false, Some, None, drop, length, take, IfSome};
ghost use Rattle.std.specs.Io.KnownBytes.{IsAtEnd};
ghost use Rattle.vv_units.specs.Causes.{Rose};
ghost use Rattle.vv_units.specs.declared.damage.Damage.{Damage as SomeDamage};
ghost use Rattle.vv_units.specs.declared.geometry.Geometry.{Geometry as Sizes};
ghost use Rattle.vv_data.specs.Layout.{disk_len};
ghost use Rattle.vv_disk.specs.Images.{EachImage, LeavesOnly};
ghost use Rattle.vv_flat.specs.State.{empty_array};
ghost use Rattle.vv_gen.specs.Script.{script};
ghost use Rattle.vv_profile.specs.Known.{all_known};
ghost use Rattle.vv_calls.specs.Lines.{line_limit};
ghost use Rattle.vv_io.specs.Reading.{new_reader, script_limit};
ghost use Rattle.vv_meaning.specs.Steps.{State, Up};
ghost use Rattle.vv_array.specs.Seen.{geometry_of};
ghost use Rattle.vv_array.specs.Standing.{StandsFor};
ghost use Rattle.vv_array.specs.Moments.{StandsForOne};
ghost use Rattle.vv_run.specs.Bounds.{AreBounded};
ghost use Rattle.vv_run.specs.Lines.{lines_of, ended_lines_of, lines_answered};
ghost use Rattle.vv_run.specs.Replies.{recovered_line};
ghost use Rattle.vv_run.specs.Loading.{loaded_lines, GenerateEnds, LoadEnds};
ghost use Rattle.vv_run.specs.Runs.{Answered, CutShort, HeadCut, AnsweredFront, Reported};
ghost use Rattle.vv_run.specs.Starts.{IsStart, head_of, LeavesSince};
ghost use Rattle.vv_run.specs.Status.{is_unserved, is_before_disk, IsUnformatted, HasDamage, EndsAsFound, IsWrongSize};
ghost use Rattle.vv_run.specs.Words.{requested_by, asked_by, array_by};
ghost use Rattle.vv_run.specs.declared.words.Command.{Command as SomeCommand};
ghost use Rattle.vv_run.specs.declared.words.Recipe.{Recipe as SomeRecipe};

use crate::Status;
use crate::beginning::{Begun, begin};
use crate::buffers::Buffers;
use crate::generating::write_script;
use crate::loading::load;
use crate::serving::serve_script;
use crate::words::{Command, Request, request_of};
use crate::writing::write_recovered;
use std::alloc::Global;
use vv_disk::Disk;
use vv_io::{Sink, Source};
use vv_profile::Capabilities;
use vv_units::Failed;

/// Runs the program.
///
/// With the words `new PATH CHUNKS BLOCKS MAP` it makes the image of an empty array on the disk, and with `run PATH` it opens the
/// one that is there and writes the log number that it recovered. Then it reads a script from the source line by line, and writes
/// what each line is answered to the sink before it reads the next.
///
/// With `gen SEED LINES` it writes a generated script. With `load PATH CHUNKS BLOCKS MAP SEED LINES` it makes an image as with
/// `new`, and serves such a script and a last line that asks for the pool's figures. Then it writes what that line was answered,
/// and a summary of all replies. The source isn't read.
pub fn run<S: Source, K: Sink, D: Disk>(
    alloc: Global,
    words: &[String],
    source: &mut S,
    sink: &mut K,
    disk: &mut D,
    capabilities: &Capabilities,
) -> Status
    // The words alone are looked at before anything is read.
    ensures bad_words { (result ≡ Status.BadWords) ↔ (requested_by words.now ≡ None) }

    // A run that ends ahead of its script has read nothing of it and written nothing. Where no script is to be read, the source
    // stays, and where no array is to be made or opened, the disk does.
    ensures untouched { is_unserved result ≡ true → (source.new ≡ source.old) × (sink.new ≡ sink.old) }
    ensures untouched_disk { is_before_disk result ≡ true → disk.new ≡ disk.old }
    ensures unread { asked_by words.now ≡ None → source.new ≡ source.old }
    ensures no_disk { array_by words.now ≡ None → disk.new ≡ disk.old }

    // An image is made on a disk of the length that it needs, and on no other.
    ensures wrong_size { (needed found : ℕ) → result ≡ Status.WrongSize needed found → IsWrongSize (array_by words.now) (D.size disk.old) needed found }
    ensures right_size { (sizes : Sizes) → array_by words.now ≡ Some (Command.New sizes) → D.size disk.old ≢ disk_len sizes
        → (result ≡ Status.WrongSize (disk_len sizes) (D.size disk.old)) ⊎ (result ≡ Status.NoMemory) }

    // An image that is no image of an array is told so, by the first thing that is wrong with it.
    ensures not_formatted { result ≡ Status.NotFormatted → (asked_by words.now ≡ Some Command.Run) × IfSome (D.content disk.old) IsUnformatted }
    ensures damaged { (damage : SomeDamage) → result ≡ Status.Damaged damage → (asked_by words.now ≡ Some Command.Run) × IfSome (D.content disk.old) (HasDamage damage) }
    ensures as_found { asked_by words.now ≡ Some Command.Run → IfSome (D.content disk.old) (EndsAsFound result) }
    ensures device_fault { result ≡ Status.DeviceFault → Rose (D.read_faults disk.old) (D.read_faults disk.new) ⊎ Rose (D.write_faults disk.old) (D.write_faults disk.new) }

    // The script was read to its end, and each of its lines was answered, from the state for which the array stood that was made
    // or opened. Each image stands for the last state now, and a crash since leaves images of the states passed alone.
    ensures done { result ≡ Status.Done → D.is_honest disk.old → (start : State) → IsStart (asked_by words.now) (D.size disk.old) (D.content disk.old) (D.is_image disk.old) start
        → IfSome (S.left source.old) (λ told. Answered (all_known capabilities.now) start (head_of (asked_by words.now) start) (K.taken sink.old) (K.taken sink.new)
        (λ state. EachImage (StandsForOne state) (D.is_image disk.new)) (LeavesSince D.moment D.left_since D.is_image (asked_by words.now) start disk.old disk.new)
        (AreBounded (D.read_faults disk.old) (D.read_faults disk.new) (D.write_faults disk.old) (D.write_faults disk.new)) (lines_of told)) }
    ensures done_within { (command : SomeCommand) → asked_by words.now ≡ Some command → result ≡ Status.Done → IfSome (S.left source.old) (λ told. length told ≤ script_limit) }
    ensures done_at_end { (command : SomeCommand) → asked_by words.now ≡ Some command → result ≡ Status.Done → IsAtEnd (S.left source.new) }

    // The source failed, and the lines that end in the bytes taken were answered.
    ensures source_fault { result ≡ Status.SourceFault → Rose (S.faults source.old) (S.faults source.new) }
    ensures before_source_fault { result ≡ Status.SourceFault → D.is_honest disk.old → (start : State) → IsStart (asked_by words.now) (D.size disk.old) (D.content disk.old) (D.is_image disk.old) start
        → IfSome (S.left source.old) (λ told. AnsweredFront (all_known capabilities.now) start (head_of (asked_by words.now) start) (K.taken sink.old) (K.taken sink.new)
        (λ state. EachImage (StandsForOne state) (D.is_image disk.new)) (LeavesSince D.moment D.left_since D.is_image (asked_by words.now) start disk.old disk.new)
        (AreBounded (D.read_faults disk.old) (D.read_faults disk.new) (D.write_faults disk.old) (D.write_faults disk.new)) told (S.left source.new)) }

    // A byte past the limit was taken, and the lines that end before it were answered.
    ensures too_much { result ≡ Status.TooMuch → D.is_honest disk.old → (start : State) → IsStart (asked_by words.now) (D.size disk.old) (D.content disk.old) (D.is_image disk.old) start
        → IfSome (S.left source.old) (λ told. Answered (all_known capabilities.now) start (head_of (asked_by words.now) start) (K.taken sink.old) (K.taken sink.new)
        (λ state. EachImage (StandsForOne state) (D.is_image disk.new)) (LeavesSince D.moment D.left_since D.is_image (asked_by words.now) start disk.old disk.new)
        (AreBounded (D.read_faults disk.old) (D.read_faults disk.new) (D.write_faults disk.old) (D.write_faults disk.new)) (ended_lines_of (take script_limit told))) }
    ensures past_the_limit { result ≡ Status.TooMuch → IfSome (S.left source.old) (λ told.
        (script_limit < length told) × (S.left source.new ≡ Some (drop (script_limit + 1) told))) }

    // The sink failed, and took a part of the text at the head, or of the text of one of the lines that would have been answered.
    ensures sink_fault { result ≡ Status.SinkFault → Rose (K.faults sink.old) (K.faults sink.new) }
    ensures before_sink_fault { result ≡ Status.SinkFault → D.is_honest disk.old → (start : State) → IsStart (asked_by words.now) (D.size disk.old) (D.content disk.old) (D.is_image disk.old) start
        → IfSome (S.left source.old) (λ told. HeadCut start (head_of (asked_by words.now) start) (K.taken sink.old) (K.taken sink.new)
        (λ state. EachImage (StandsForOne state) (D.is_image disk.new)) (LeavesSince D.moment D.left_since D.is_image (asked_by words.now) start disk.old disk.new)
        ⊎ CutShort (all_known capabilities.now) start (head_of (asked_by words.now) start) (K.taken sink.old) (K.taken sink.new)
        (λ state. EachImage (StandsForOne state) (D.is_image disk.new)) (LeavesSince D.moment D.left_since D.is_image (asked_by words.now) start disk.old disk.new)
        (AreBounded (D.read_faults disk.old) (D.read_faults disk.new) (D.write_faults disk.old) (D.write_faults disk.new)) (lines_answered told)) }

    // With no fault it reads a script within the limit to its end, unless there is no memory.
    ensures complete { D.is_honest disk.old → (start : State) → IsStart (asked_by words.now) (D.size disk.old) (D.content disk.old) (D.is_image disk.old) start
        → IfSome (S.left source.old) (λ told. length told ≤ script_limit → ¬ (Rose (S.faults source.old) (S.faults source.new)) → ¬ (Rose (K.faults sink.old) (K.faults sink.new))
        → ¬ (Rose (D.read_faults disk.old) (D.read_faults disk.new)) → ¬ (Rose (D.write_faults disk.old) (D.write_faults disk.new))
        → (result ≡ Status.Done) ⊎ (result ≡ Status.NoMemory)) }

    // A generated script was written, or the sink failed and took a part of it.
    ensures generated { (recipe : SomeRecipe) → requested_by words.now ≡ Some (Request.Generate recipe)
        → GenerateEnds result (K.taken sink.old) (K.taken sink.new) (script recipe.seed recipe.lines) }
    ensures generated_whole { (recipe : SomeRecipe) → requested_by words.now ≡ Some (Request.Generate recipe) → ¬ (Rose (K.faults sink.old) (K.faults sink.new))
        → (result ≡ Status.Done) ⊎ (result ≡ Status.NoMemory) }

    // Each line of a generated script, and the last one behind them, was answered, from the empty array on. What the last one
    // was answered was written, and the summary of all replies, or the sink took a part of that. Each image stands for the last
    // state now, and a crash since the image was made leaves images of the states passed alone.
    ensures loaded { (sizes : Sizes) (recipe : SomeRecipe) → requested_by words.now ≡ Some (Request.Load sizes recipe)
        → LoadEnds result (K.taken sink.old) (K.taken sink.new) (λ told. D.is_honest disk.old → Reported (all_known capabilities.now) (Up (empty_array sizes)) told
        (λ state. EachImage (StandsForOne state) (D.is_image disk.new)) (LeavesSince D.moment D.left_since D.is_image (array_by words.now) (Up (empty_array sizes)) disk.old disk.new)
        (AreBounded (D.read_faults disk.old) (D.read_faults disk.new) (D.write_faults disk.old) (D.write_faults disk.new)) (loaded_lines recipe)) }
    ensures loaded_whole { (sizes : Sizes) (recipe : SomeRecipe) → requested_by words.now ≡ Some (Request.Load sizes recipe) → D.size disk.old ≡ disk_len sizes
        → ¬ (Rose (K.faults sink.old) (K.faults sink.new)) → ¬ (Rose (D.read_faults disk.old) (D.read_faults disk.new)) → ¬ (Rose (D.write_faults disk.old) (D.write_faults disk.new))
        → (result ≡ Status.Done) ⊎ (result ≡ Status.NoMemory) }

    // No fault is passed over: where the status tells none, no count rose.
    ensures no_source_fault { result ≢ Status.SourceFault → S.faults source.new ≡ S.faults source.old }
    ensures no_sink_fault { result ≢ Status.SinkFault → K.faults sink.new ≡ K.faults sink.old }

    // Counts of faults don't fall, and the disk has its length.
    ensures source_later { S.faults source.old ≤ S.faults source.new }
    ensures sink_later { K.faults sink.old ≤ K.faults sink.new }
    ensures reads { D.read_faults disk.old ≤ D.read_faults disk.new }
    ensures writes { D.write_faults disk.old ≤ D.write_faults disk.new }
    ensures len { D.size disk.new ≡ D.size disk.old }
    ensures honesty { D.is_honest disk.new ↔ D.is_honest disk.old }
{
    let Some(request) = request_of(words) else {
        return Status::BadWords;
    };
    match request {
        Request::Serve(command) => {
            let Ok(mut buffers) = Buffers::new(alloc) else {
                return Status::NoMemory;
            };
            match begin(alloc, command, disk) {
                Ok(begun) => {
                    serve_begun(alloc, begun, disk, source, sink, capabilities, &mut buffers)
                }
                Err(status) => status,
            }
        }
        Request::Generate(recipe) => write_script(alloc, recipe, sink),
        Request::Load(sizes, recipe) => load(alloc, sizes, recipe, sink, disk, capabilities),
    }
}

/// Writes the log number that was recovered, if one was, and serves a script. Then the array is closed.
fn serve_begun<S: Source, K: Sink, D: Disk>(
    alloc: Global,
    begun: Begun,
    disk: &mut D,
    source: &mut S,
    sink: &mut K,
    capabilities: &Capabilities,
    buffers: &mut Buffers,
) -> Status
    requires disk { D.size disk.old ≡ disk_len (geometry_of begun.array) }
    requires buffers { buffers.old.lines ≡ new_reader line_limit }

    ensures served { is_unserved result ≡ false }
    ensures done { result ≡ Status.Done → D.is_honest disk.old → (start : State) → StandsFor begun.array (D.content disk.old) (D.is_image disk.old) start
        → IfSome (S.left source.old) (λ told. Answered (all_known capabilities.now) start (recovered_line begun.recovered) (K.taken sink.old) (K.taken sink.new)
        (λ state. EachImage (StandsForOne state) (D.is_image disk.new)) (LeavesOnly D.moment D.left_since disk.old disk.new)
        (AreBounded (D.read_faults disk.old) (D.read_faults disk.new) (D.write_faults disk.old) (D.write_faults disk.new)) (lines_of told)) }
    ensures done_within { result ≡ Status.Done → IfSome (S.left source.old) (λ told. length told ≤ script_limit) }
    ensures done_at_end { result ≡ Status.Done → IsAtEnd (S.left source.new) }
    ensures source_fault { result ≡ Status.SourceFault → Rose (S.faults source.old) (S.faults source.new) }
    ensures before_source_fault { result ≡ Status.SourceFault → D.is_honest disk.old → (start : State) → StandsFor begun.array (D.content disk.old) (D.is_image disk.old) start
        → IfSome (S.left source.old) (λ told. AnsweredFront (all_known capabilities.now) start (recovered_line begun.recovered) (K.taken sink.old) (K.taken sink.new)
        (λ state. EachImage (StandsForOne state) (D.is_image disk.new)) (LeavesOnly D.moment D.left_since disk.old disk.new)
        (AreBounded (D.read_faults disk.old) (D.read_faults disk.new) (D.write_faults disk.old) (D.write_faults disk.new)) told (S.left source.new)) }
    ensures too_much { result ≡ Status.TooMuch → D.is_honest disk.old → (start : State) → StandsFor begun.array (D.content disk.old) (D.is_image disk.old) start
        → IfSome (S.left source.old) (λ told. Answered (all_known capabilities.now) start (recovered_line begun.recovered) (K.taken sink.old) (K.taken sink.new)
        (λ state. EachImage (StandsForOne state) (D.is_image disk.new)) (LeavesOnly D.moment D.left_since disk.old disk.new)
        (AreBounded (D.read_faults disk.old) (D.read_faults disk.new) (D.write_faults disk.old) (D.write_faults disk.new)) (ended_lines_of (take script_limit told))) }
    ensures past_the_limit { result ≡ Status.TooMuch → IfSome (S.left source.old) (λ told.
        (script_limit < length told) × (S.left source.new ≡ Some (drop (script_limit + 1) told))) }
    ensures sink_fault { result ≡ Status.SinkFault → Rose (K.faults sink.old) (K.faults sink.new) }
    ensures before_sink_fault { result ≡ Status.SinkFault → D.is_honest disk.old → (start : State) → StandsFor begun.array (D.content disk.old) (D.is_image disk.old) start
        → IfSome (S.left source.old) (λ told. HeadCut start (recovered_line begun.recovered) (K.taken sink.old) (K.taken sink.new)
        (λ state. EachImage (StandsForOne state) (D.is_image disk.new)) (LeavesOnly D.moment D.left_since disk.old disk.new)
        ⊎ CutShort (all_known capabilities.now) start (recovered_line begun.recovered) (K.taken sink.old) (K.taken sink.new)
        (λ state. EachImage (StandsForOne state) (D.is_image disk.new)) (LeavesOnly D.moment D.left_since disk.old disk.new)
        (AreBounded (D.read_faults disk.old) (D.read_faults disk.new) (D.write_faults disk.old) (D.write_faults disk.new)) (lines_answered told)) }
    ensures no_source_fault { result ≢ Status.SourceFault → S.faults source.new ≡ S.faults source.old }
    ensures no_sink_fault { result ≢ Status.SinkFault → K.faults sink.new ≡ K.faults sink.old }
    ensures source_later { S.faults source.old ≤ S.faults source.new }
    ensures sink_later { K.faults sink.old ≤ K.faults sink.new }
    ensures len { D.size disk.new ≡ D.size disk.old }
    ensures honesty { D.is_honest disk.new ↔ D.is_honest disk.old }
    ensures reads { D.read_faults disk.old ≤ D.read_faults disk.new }
    ensures writes { D.write_faults disk.old ≤ D.write_faults disk.new }
{
    let Begun {
        mut array,
        recovered,
    } = begun;
    match write_recovered(&mut buffers.reply, recovered, sink) {
        Ok(()) => {
            let status = serve_script(alloc, &mut array, disk, source, sink, capabilities, buffers);
            array.close();
            status
        }
        Err(Failed) => {
            array.close();
            Status::SinkFault
        }
    }
}
