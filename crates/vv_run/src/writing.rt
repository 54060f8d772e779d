//! Writing to a sink.
ghost use Rattle.std.specs.Prelude.{OnOk, OnErr};
ghost use Rattle.std.specs.Io.KnownBytes.{Appends};
ghost use Rattle.vv_units.specs.Causes.{HasCause};
ghost use Rattle.vv_reply.specs.Replies.{FitsReply, text_of};
ghost use Rattle.vv_meaning.specs.Steps.{report_text};
ghost use Rattle.vv_run.specs.Replies.{recovered_line};
ghost use Rattle.vv_run.specs.Writing.{StopsWithin};

use vv_array::Served;
use vv_io::Sink;
use vv_reply::{Reply, ReplyBuffer};
use vv_units::Failed;

/// Writes all the bytes, or fails before the last of them.
pub fn write_all<K: Sink>(sink: &mut K, bytes: &[u8]) -> Result<(), Failed>
    ensures ok { OnOk result (Appends (K.taken sink.old) (K.taken sink.new) bytes.now) }
    ensures err { OnErr result (StopsWithin (K.taken sink.old) (K.taken sink.new) bytes.now) }
    ensures cause { HasCause (K.faults sink.old) (K.faults sink.new) result }
{
    let mut rest = bytes;
    while !rest.is_empty() {
        let count = sink.write(rest)?;
        let (_, after) = rest.split_at(count);
        rest = after;
    }
    Ok(())
}

/// Writes the line of the log number that was recovered, where one was.
pub fn write_recovered<K: Sink>(
    buffer: &mut ReplyBuffer,
    recovered: Option<u64>,
    sink: &mut K,
) -> Result<(), Failed>
    ensures ok { OnOk result (Appends (K.taken sink.old) (K.taken sink.new) (recovered_line recovered)) }
    ensures err { OnErr result (StopsWithin (K.taken sink.old) (K.taken sink.new) (recovered_line recovered)) }
    ensures cause { HasCause (K.faults sink.old) (K.faults sink.new) result }
{
    match recovered {
        Some(lsn) => {
            buffer.fill_recovered(lsn);
            write_all(sink, buffer.bytes())
        }
        None => Ok(()),
    }
}

/// Writes the line of a reply.
pub fn write_reply<K: Sink>(
    buffer: &mut ReplyBuffer,
    reply: &Reply,
    sink: &mut K,
) -> Result<(), Failed>
    requires { FitsReply reply.now }
    ensures ok { OnOk result (Appends (K.taken sink.old) (K.taken sink.new) (text_of reply.now)) }
    ensures err { OnErr result (StopsWithin (K.taken sink.old) (K.taken sink.new) (text_of reply.now)) }
    ensures cause { HasCause (K.faults sink.old) (K.faults sink.new) result }
{
    buffer.fill(reply);
    write_all(sink, buffer.bytes())
}

/// Writes what a line was answered: the line of the recovered number, if there is one, and then that of the reply.
pub fn write_report<K: Sink>(
    buffer: &mut ReplyBuffer,
    recovered: Option<u64>,
    reply: &Reply,
    sink: &mut K,
) -> Result<(), Failed>
    requires { FitsReply reply.now }
    ensures ok { OnOk result (Appends (K.taken sink.old) (K.taken sink.new) (report_text (record { recovered = recovered; answer = reply.now }))) }
    ensures err { OnErr result (StopsWithin (K.taken sink.old) (K.taken sink.new) (report_text (record { recovered = recovered; answer = reply.now }))) }
    ensures cause { HasCause (K.faults sink.old) (K.faults sink.new) result }
{
    match write_recovered(buffer, recovered, sink) {
        Ok(()) => write_reply(buffer, reply, sink),
        Err(failed) => Err(failed),
    }
}

/// Writes what a line was answered, which is let go.
pub fn write_served<K: Sink>(
    buffer: &mut ReplyBuffer,
    served: Served,
    sink: &mut K,
) -> Result<(), Failed>
    requires { FitsReply served.reply }
    ensures ok { OnOk result (Appends (K.taken sink.old) (K.taken sink.new) (report_text (record { recovered = served.recovered; answer = served.reply }))) }
    ensures err { OnErr result (StopsWithin (K.taken sink.old) (K.taken sink.new) (report_text (record { recovered = served.recovered; answer = served.reply }))) }
    ensures cause { HasCause (K.faults sink.old) (K.faults sink.new) result }
{
    let Served { recovered, reply } = served;
    write_report(buffer, recovered, &reply, sink)
}
