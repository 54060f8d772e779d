//! The memory that serving takes beside the array's own.
ghost use Rattle.std.specs.Prelude.{◌≡◌, IfOk};
ghost use Rattle.vv_io.specs.Reading.{new_reader};
ghost use Rattle.vv_calls.specs.Lines.{line_limit};

use std::alloc::Global;
use vv_calls::LINE_LIMIT;
use vv_io::LineReader;
use vv_reply::ReplyBuffer;
use vv_units::NoMemory;

/// The buffers of a run, which are taken once, before anything is read.
#[derive(Drop)]
pub struct Buffers {
    /// The line that is served, and the bytes read behind it.
    pub lines: LineReader,
    /// The reply to that line.
    pub reply: ReplyBuffer,
}

impl Buffers {
    /// The buffers of a run that has read nothing.
    pub fn new(alloc: Global) -> Result<Buffers, NoMemory>
        ensures { IfOk result (λ buffers. buffers.lines ≡ new_reader line_limit) }
    {
        let lines = LineReader::new(alloc, LINE_LIMIT)?;
        let reply = ReplyBuffer::new(alloc)?;
        Ok(Buffers { lines, reply })
    }
}
