//! Writing what the lines of a generated script came to.
ghost use Rattle.std.specs.Prelude.{◌≡◌, ◌<◌, ◌+◌, ◌^◌, ◌++◌, decimal, OnOk, OnErr};
ghost use Rattle.std.specs.Io.KnownBytes.{Appends};
ghost use Rattle.vv_units.specs.Causes.{HasCause};
ghost use Rattle.vv_run.specs.Loading.{last_text, summary_text};
ghost use Rattle.vv_run.specs.Tallies.{seen_last, HasText, LastFits};
ghost use Rattle.vv_run.specs.Writing.{StopsWithin};

use crate::tally::{LineReport, Tally};
use crate::writing::{write_all, write_report};
use itoa::Buffer;
use vv_io::Sink;
use vv_reply::ReplyBuffer;
use vv_units::Failed;

/// Writes what the last line was answered, and the summary.
pub(crate) fn write_tally<K: Sink>(
    buffer: &mut ReplyBuffer,
    tally: Tally,
    sink: &mut K,
) -> Result<(), Failed>
    requires fits { LastFits tally }
    requires small { tally.accepted + tally.refused < 2 ^ 64 }
    ensures ok { OnOk result (Appends (K.taken sink.old) (K.taken sink.new) (last_text (seen_last tally.last) ++ summary_text (tally.accepted + tally.refused) tally.accepted tally.refused)) }
    ensures err { OnErr result (StopsWithin (K.taken sink.old) (K.taken sink.new) (last_text (seen_last tally.last) ++ summary_text (tally.accepted + tally.refused) tally.accepted tally.refused)) }
    ensures cause { HasCause (K.faults sink.old) (K.faults sink.new) result }
{
    let Tally {
        accepted,
        refused,
        last,
    } = tally;
    match write_last(buffer, last, sink) {
        Ok(()) => write_summary(sink, accepted, refused),
        Err(failed) => Err(failed),
    }
}

/// Writes what the last line was answered, if there was one.
fn write_last<K: Sink>(
    buffer: &mut ReplyBuffer,
    last: Option<LineReport>,
    sink: &mut K,
) -> Result<(), Failed>
    requires { HasText last }
    ensures ok { OnOk result (Appends (K.taken sink.old) (K.taken sink.new) (last_text (seen_last last))) }
    ensures err { OnErr result (StopsWithin (K.taken sink.old) (K.taken sink.new) (last_text (seen_last last))) }
    ensures cause { HasCause (K.faults sink.old) (K.faults sink.new) result }
{
    match last {
        Some(last) => write_report(buffer, last.recovered, &last.reply, sink),
        None => Ok(()),
    }
}

/// Writes how many lines were answered, with and without `"ok":true`.
fn write_summary<K: Sink>(sink: &mut K, accepted: u64, refused: u64) -> Result<(), Failed>
    requires { accepted + refused < 2 ^ 64 }
    ensures ok { OnOk result (Appends (K.taken sink.old) (K.taken sink.new) (summary_text (accepted + refused) accepted refused)) }
    ensures err { OnErr result (StopsWithin (K.taken sink.old) (K.taken sink.new) (summary_text (accepted + refused) accepted refused)) }
    ensures cause { HasCause (K.faults sink.old) (K.faults sink.new) result }
{
    write_count(sink, b"{\"lines\":", accepted + refused)?;
    write_count(sink, b",\"ok\":", accepted)?;
    write_count(sink, b",\"refused\":", refused)?;
    write_all(sink, b"}\n")
}

/// Writes a text, and a number behind it.
fn write_count<K: Sink>(sink: &mut K, ahead: &[u8], count: u64) -> Result<(), Failed>
    ensures ok { OnOk result (Appends (K.taken sink.old) (K.taken sink.new) (ahead.now ++ decimal count)) }
    ensures err { OnErr result (StopsWithin (K.taken sink.old) (K.taken sink.new) (ahead.now ++ decimal count)) }
    ensures cause { HasCause (K.faults sink.old) (K.faults sink.new) result }
{
    let mut digits = Buffer::new();
    match write_all(sink, ahead) {
        Ok(()) => write_all(sink, digits.format(count).as_bytes()),
        Err(failed) => Err(failed),
    }
}
