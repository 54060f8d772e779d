//! The buffer that a reply is written into.
ghost use Rattle.std.specs.Prelude.{◌≡◌, ◌<◌, ◌≤◌, ◌+◌, ◌++◌, [], codes, length, IfOk};
ghost use Rattle.vv_units.specs.Identifiers.{identifier_limit};
ghost use Rattle.vv_reply.specs.Objects.{key, buffer_limit};
ghost use Rattle.vv_reply.specs.Replies.{text_of, recovered_text, FitsReply};

use crate::reply::Reply;
use std::alloc::Global;
use std::marker::Model;
use vv_units::NoMemory;

/// How many bytes there is room for.
const CAPACITY: usize = 10_485_760;

/// The line of one reply. Only making it takes memory.
#[derive(Drop)]
pub struct ReplyBuffer {
    bytes: Vec<u8>,
}

impl Model for ReplyBuffer {
    ghost use Rattle.std.specs.Prelude.{◌≤◌, List, ℕ, length, vec_capacity};
    ghost use Rattle.vv_reply.specs.Objects.{buffer_limit};

    ghost Value = { List ℕ };

    ghost view = { λ a. a.bytes.items };

    ghost invariant = { λ a. (length a.bytes.items ≤ buffer_limit) × (buffer_limit ≤ vec_capacity a.bytes) };
}

impl ReplyBuffer {
    /// An empty buffer with room for each reply.
    pub fn new(alloc: Global) -> Result<ReplyBuffer, NoMemory>
        ensures { IfOk result (λ buffer. buffer ≡ []) }
    {
        let bytes = Vec::with_capacity(alloc, CAPACITY).map_err(|_| NoMemory)?;
        Ok(ReplyBuffer { bytes })
    }

    /// Writes the line of a reply in place of what the buffer held.
    pub fn fill(&mut self, reply: &Reply)
        requires { FitsReply reply.now }
        ensures { self.new ≡ text_of reply.now }
    {
        match reply {
            Reply::Done(answer) => self.answer(answer),
            Reply::Refused(refusal) => self.refusal(refusal, None),
            Reply::Scsi(reply) => self.scsi(reply),
            Reply::Line(fault) => self.line_fault(*fault),
        }
    }

    /// Writes the line that tells with which log number an image was opened again.
    pub fn fill_recovered(&mut self, lsn: u64)
        ensures { self.new ≡ recovered_text lsn }
    {
        self.open("recovered");
        self.number(lsn);
        self.close();
    }

    /// The bytes of the line.
    pub fn bytes(&self) -> &[u8]
        ensures { result.now ≡ self.now }
    {
        &self.bytes
    }

    /// Adds bytes.
    pub(crate) fn put(&mut self, piece: &[u8])
        requires { length self.old + length piece.now ≤ buffer_limit }
        ensures text { self.new ≡ self.old ++ piece.now }
        ensures size { length self.new ≡ length self.old + length piece.now }
    {
        self.bytes.extend_from_slice(piece).unwrap();
    }

    /// Begins an object with a first member of this name, in place of what the buffer held.
    pub(crate) fn open(&mut self, name: &str)
        requires { length name.now ≤ 20 }
        ensures text { self.new ≡ codes "{" ++ key name.now }
        ensures size { length self.new ≤ 64 }
    {
        self.bytes.clear();
        self.put(b"{");
        self.key(name);
    }

    /// A comma, and the name of a further member.
    pub(crate) fn next(&mut self, name: &str)
        requires short { length name.now ≤ 20 }
        requires room { length self.old + 64 ≤ buffer_limit }
        ensures text { self.new ≡ self.old ++ codes "," ++ key name.now }
        ensures size { length self.new ≤ length self.old + 64 }
    {
        self.put(b",");
        self.key(name);
    }

    fn key(&mut self, name: &str)
        requires short { length name.now ≤ 20 }
        requires room { length self.old + 32 ≤ buffer_limit }
        ensures text { self.new ≡ self.old ++ key name.now }
        ensures size { length self.new ≤ length self.old + 32 }
    {
        self.put(b"\"");
        self.put(name.as_bytes());
        self.put(b"\":");
    }

    /// Ends the object and the line.
    pub(crate) fn close(&mut self)
        requires { length self.old + 2 ≤ buffer_limit }
        ensures { self.new ≡ self.old ++ codes "}\n" }
    {
        self.put(b"}\n");
    }
}
