//! A source and a sink in memory, whose calls fail where a test wants it.
ghost use Rattle.std.specs.List.{list_any};
ghost use Rattle.std.specs.Prelude.{◌≡◌, ◌<◌, ◌≤◌, ◌+◌, ◌^◌, ◌==◌, [], IfOk, IsTrue, IsErr, Some, Ok, false, length, take};
ghost use Rattle.std.specs.Io.{ReadsAtMost, WritesAtMost};
ghost use Rattle.vv_io.specs.Streams.{ReadTakes, WriteGives};
ghost use Rattle.vv_io.specs.Memory.{read_fails, read_count, after_failed_read, after_read, write_fails, write_count, after_failed_write, after_write};
ghost use Rattle.vv_units.specs.Causes.{HasCause};

use crate::{Sink, Source};
use std::alloc::Global;
use std::marker::Model;
use vv_units::{Failed, NoMemory};

/// A source over bytes in memory. No call takes memory.
#[derive(Drop)]
pub struct MemSource {
    bytes: Vec<u8>,
    at: usize,
    piece: usize,
    fail: Vec<u64>,
    reads: u64,
    faults: u64,
}

impl Model for MemSource {
    ghost use Rattle.std.specs.Prelude.{◌≤◌, drop, length};
    ghost use Rattle.vv_io.specs.Memory.{SourceState};

    ghost Value = { SourceState };

    ghost view = { λ a. record { left = drop a.at a.bytes.items; piece = a.piece; fail = a.fail.items; reads = a.reads; faults = a.faults } };

    ghost invariant = { λ a. (a.at ≤ length a.bytes.items) × (1 ≤ a.piece) };
}

fn is_listed(numbers: &[u64], number: u64) -> bool
    ensures { result ≡ list_any (λ n. n == number) numbers.now }
{
    numbers.iter().any(|n| *n == number)
}

impl MemSource {
    /// A source of these bytes, which gives at most `piece` at a time. Of its reads, numbered from 0, those listed fail.
    pub fn new(bytes: Vec<u8>, piece: usize, fail: Vec<u64>) -> Self
        requires { 1 ≤ piece }
        ensures { result ≡ record { left = bytes.items; piece = piece; fail = fail.items; reads = 0; faults = 0 } }
    {
        MemSource {
            bytes,
            at: 0,
            piece,
            fail,
            reads: 0,
            faults: 0,
        }
    }

    fn is_read_failing(&self) -> bool
        ensures { result ≡ read_fails self.now }
    {
        is_listed(&self.fail, self.reads)
    }

    fn note_failed_read(&mut self)
        ensures noted { self.new ≡ after_failed_read self.old }
        ensures small { self.old.faults < 2 ^ 64 }
    {
        self.reads = self.reads.saturating_add(1);
        self.faults = self.faults.saturating_add(1);
    }

    fn next_count(&self, room: usize) -> usize
        ensures value { result ≡ read_count self.now room }
        ensures fits { result ≤ room }
        ensures left { result ≤ length self.now.left }
        ensures end { result ≡ 0 → 0 < room → self.now.left ≡ [] }
    {
        self.piece.min(room).min(self.bytes.len() - self.at)
    }

    fn give(&mut self, into: &mut [u8])
        requires { length into.old ≤ length self.old.left }
        ensures given { into.new ≡ take (length into.old) self.old.left }
        ensures rest { self.new ≡ after_read self.old (length into.old) }
    {
        self.reads = self.reads.saturating_add(1);
        let (_, left) = self.bytes.split_at(self.at);
        let (given, _) = left.split_at(into.len());
        into.copy_from_slice(given);
        self.at += into.len();
    }
}

impl Source for MemSource {
    ghost left = { λ s. Some s.left };

    ghost faults = { λ s. s.faults };

    fn read(&mut self, into: &mut [u8]) -> Result<usize, Failed>
        ensures bound { ReadsAtMost result into.new }
        ensures bytes { ReadTakes (Some self.old.left) (Some self.new.left) result into.new }
        ensures cause { HasCause self.old.faults self.new.faults result }
        ensures listed { IsTrue (read_fails self.old) → IsErr result × (self.new ≡ after_failed_read self.old) }
        ensures others { let n = read_count self.old (length into.old) in
            read_fails self.old ≡ false → (result ≡ Ok n) × (self.new ≡ after_read self.old n) }
    {
        if self.is_read_failing() {
            self.note_failed_read();
            return Err(Failed);
        }
        let count = self.next_count(into.len());
        self.give(&mut into[..count]);
        Ok(count)
    }
}

/// A sink in memory with room for a number of bytes. No call takes memory.
#[derive(Drop)]
pub struct MemSink {
    bytes: Vec<u8>,
    room: usize,
    fail: Vec<u64>,
    writes: u64,
    faults: u64,
}

impl Model for MemSink {
    ghost use Rattle.std.specs.Prelude.{◌≤◌, length, vec_capacity};
    ghost use Rattle.vv_io.specs.Memory.{SinkState};

    ghost Value = { SinkState };

    ghost view = { λ a. record { taken = a.bytes.items; room = a.room; fail = a.fail.items; writes = a.writes; faults = a.faults } };

    ghost invariant = { λ a. (length a.bytes.items ≤ a.room) × (a.room ≤ vec_capacity a.bytes) };
}

impl MemSink {
    /// A sink that takes at most `room` bytes. Of its writes, numbered from 0, those listed fail.
    pub fn new(alloc: Global, room: usize, fail: Vec<u64>) -> Result<MemSink, NoMemory>
        ensures { IfOk result (λ sink. sink ≡ record { taken = []; room = room; fail = fail.items; writes = 0; faults = 0 }) }
    {
        let bytes = Vec::with_capacity(alloc, room).map_err(|_| NoMemory)?;
        Ok(MemSink {
            bytes,
            room,
            fail,
            writes: 0,
            faults: 0,
        })
    }

    /// The bytes taken.
    pub fn bytes(&self) -> &[u8]
        ensures { result.now ≡ self.now.taken }
    {
        &self.bytes
    }

    fn is_write_failing(&self, asked: usize) -> bool
        ensures { result ≡ write_fails self.now asked }
    {
        is_listed(&self.fail, self.writes) || (asked > 0 && self.room <= self.bytes.len())
    }

    fn note_failed_write(&mut self)
        ensures noted { self.new ≡ after_failed_write self.old }
        ensures small { self.old.faults < 2 ^ 64 }
    {
        self.writes = self.writes.saturating_add(1);
        self.faults = self.faults.saturating_add(1);
    }

    fn next_count(&self, asked: usize) -> usize
        ensures value { result ≡ write_count self.now asked }
        ensures fits { length self.now.taken + result ≤ self.now.room }
    {
        asked.min(self.room - self.bytes.len())
    }

    fn keep(&mut self, bytes: &[u8])
        requires { length self.old.taken + length bytes.now ≤ self.old.room }
        ensures { self.new ≡ after_write self.old bytes.now }
    {
        self.writes = self.writes.saturating_add(1);
        self.bytes.extend_from_slice(bytes).unwrap();
    }
}

impl Sink for MemSink {
    ghost taken = { λ s. Some s.taken };

    ghost faults = { λ s. s.faults };

    fn write(&mut self, bytes: &[u8]) -> Result<usize, Failed>
        ensures bound { WritesAtMost result bytes.now }
        ensures bytes { WriteGives (Some self.old.taken) (Some self.new.taken) result bytes.now }
        ensures cause { HasCause self.old.faults self.new.faults result }
        ensures listed { IsTrue (write_fails self.old (length bytes.now)) → IsErr result × (self.new ≡ after_failed_write self.old) }
        ensures others { let n = write_count self.old (length bytes.now) in
            write_fails self.old (length bytes.now) ≡ false → (result ≡ Ok n) × (self.new ≡ after_write self.old (take n bytes.now)) }
    {
        if self.is_write_failing(bytes.len()) {
            self.note_failed_write();
            return Err(Failed);
        }
        let count = self.next_count(bytes.len());
        self.keep(&bytes[..count]);
        Ok(count)
    }
}
