//! Serving the lines of a text in memory.
ghost use Rattle.std.specs.Prelude.{ℕ, ◌≡◌, ◌<◌, ◌≤◌, ◌+◌, ◌^◌, ◌++◌, ◌↔◌, length};
ghost use Rattle.vv_data.specs.Layout.{disk_len};
ghost use Rattle.vv_disk.specs.Images.{LeavesOnly};
ghost use Rattle.vv_profile.specs.Known.{all_known};
ghost use Rattle.vv_calls.specs.Lines.{line_limit};
ghost use Rattle.vv_io.specs.Lines.{given_for, has_more, lines_in};
ghost use Rattle.vv_io.specs.Reading.{front_len};
ghost use Rattle.vv_meaning.specs.Steps.{State};
ghost use Rattle.vv_array.specs.Seen.{geometry_of};
ghost use Rattle.vv_array.specs.Standing.{StandsFor};
ghost use Rattle.vv_run.specs.Bounds.{AreBounded};
ghost use Rattle.vv_run.specs.Lines.{lines_of};
ghost use Rattle.vv_run.specs.Runs.{Reported};
ghost use Rattle.vv_run.specs.Tallies.{none_counted, Counts, LastFits};

use crate::line::serve_line;
use crate::tally::Tally;
use std::alloc::Global;
use vv_array::{Array, Served};
use vv_calls::{LINE_LIMIT, LineFault};
use vv_disk::Disk;
use vv_profile::Capabilities;
use vv_reply::Reply;

/// Serves the lines of a text one after another, and adds up what they are answered.
pub(crate) fn serve_text<D: Disk>(
    alloc: Global,
    array: &mut Array,
    disk: &mut D,
    capabilities: &Capabilities,
    text: &[u8],
) -> Tally
    requires disk { D.size disk.old ≡ disk_len (geometry_of array.old) }
    ensures served { D.is_honest disk.old → (start : State) → StandsFor array.old (D.content disk.old) (D.is_image disk.old) start
        → Reported (all_known capabilities.now) start (Counts none_counted result)
        (StandsFor array.new (D.content disk.new) (D.is_image disk.new)) (LeavesOnly D.moment D.left_since disk.old disk.new)
        (AreBounded (D.read_faults disk.old) (D.read_faults disk.new) (D.write_faults disk.old) (D.write_faults disk.new)) (lines_of text.now) }
    ensures fits { LastFits result }
    ensures small { result.accepted + result.refused < 2 ^ 64 }
    ensures sizes { D.size disk.new ≡ disk_len (geometry_of array.new) }
    ensures len { D.size disk.new ≡ D.size disk.old }
    ensures honesty { D.is_honest disk.new ↔ D.is_honest disk.old }
    ensures reads { D.read_faults disk.old ≤ D.read_faults disk.new }
    ensures writes { D.write_faults disk.old ≤ D.write_faults disk.new }
{
    let mut tally = Tally::new();
    let mut rest = text;
    while !rest.is_empty() {
        let (line, behind) = first_line(rest);
        serve_counted(alloc, array, disk, capabilities, line, &mut tally);
        rest = behind;
    }
    tally
}

/// Serves a line, unless it is to be passed over, and counts what it is answered.
fn serve_counted<D: Disk>(
    alloc: Global,
    array: &mut Array,
    disk: &mut D,
    capabilities: &Capabilities,
    line: &[u8],
    tally: &mut Tally,
)
    requires disk { D.size disk.old ≡ disk_len (geometry_of array.old) }
    requires small { tally.old.accepted + tally.old.refused + 1 < 2 ^ 64 }
    requires fits { LastFits tally.old }
    ensures served { D.is_honest disk.old → (start : State) → StandsFor array.old (D.content disk.old) (D.is_image disk.old) start
        → Reported (all_known capabilities.now) start (Counts tally.old tally.new)
        (StandsFor array.new (D.content disk.new) (D.is_image disk.new)) (LeavesOnly D.moment D.left_since disk.old disk.new)
        (AreBounded (D.read_faults disk.old) (D.read_faults disk.new) (D.write_faults disk.old) (D.write_faults disk.new)) (given_for line_limit line.now) }
    ensures fits { LastFits tally.new }
    ensures one { tally.new.accepted + tally.new.refused ≤ tally.old.accepted + tally.old.refused + 1 }
    ensures sizes { D.size disk.new ≡ disk_len (geometry_of array.new) }
    ensures len { D.size disk.new ≡ D.size disk.old }
    ensures honesty { D.is_honest disk.new ↔ D.is_honest disk.old }
    ensures reads { D.read_faults disk.old ≤ D.read_faults disk.new }
    ensures writes { D.write_faults disk.old ≤ D.write_faults disk.new }
{
    if line.len() > LINE_LIMIT {
        tally.count(Served {
            recovered: None,
            reply: Reply::Line(LineFault::LineTooLong),
        });
    } else if has_more(line) {
        tally.count(serve_line(alloc, array, disk, capabilities, line));
    }
}

/// The first line of some bytes, without its LF, and what stands behind it.
fn first_line(bytes: &[u8]) -> (&[u8], &[u8])
    requires { 0 < length bytes.now }
    ensures lines { (limit : ℕ) → lines_in limit bytes.now ≡ given_for limit result.0.now ++ lines_in limit result.1.now }
    ensures shorter { length result.1.now < length bytes.now }
{
    let (line, behind) = bytes.split_at(line_length(bytes));
    let (_, rest) = behind.split_at(behind.len().min(1));
    (line, rest)
}

fn line_length(bytes: &[u8]) -> usize
    ensures front { result ≡ front_len bytes.now }
    ensures bound { result ≤ length bytes.now }
{
    bytes.iter().take_while(|b| **b != b'\n').count()
}

/// Whether a line has more than blanks.
fn has_more(line: &[u8]) -> bool
    ensures { result ≡ has_more line.now }
{
    line.iter().any(|b| !matches!(*b, b' ' | b'\t' | b'\r'))
}
