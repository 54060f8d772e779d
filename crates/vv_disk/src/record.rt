//! The writes and syncs of a disk in memory, from which each earlier state can be made again.
ghost use Rattle.std.specs.Prelude.{◌≡◌, ◌≤◌, ◌<◌, ◌+◌, ◌*◌, [], ◌∷◌, ◌++◌, IsTrue, IfOk, nat_le, sum_by, length, take, map, All, vec_len, vec_capacity};
ghost use Rattle.vv_disk.specs.MemDisk.{Wrote, Synced, has_room, cost_of, Fits, after};
ghost use Rattle.vv_disk.specs.Record.{done_by, done_of, IsAmong, redone};

use crate::span::put;
use std::alloc::{AllocError, Global};
use std::marker::Model;

/// What stands for each write and sync of a record in its room.
const ENTRY_ROOM: usize = 64;

#[derive(Clone, Copy, Debug)]
enum Entry {
    /// The `len` bytes of the record from `from` on were written at `at`.
    Write { at: usize, from: usize, len: usize },
    Sync,
}

#[derive(Debug, Drop)]
pub(crate) struct Record {
    entries: Vec<Entry>,
    bytes: Vec<u8>,
    room: usize,
}

impl Model for Record {
    ghost use Rattle.std.specs.Prelude.{ℕ, List};
    ghost use Rattle.vv_disk.specs.MemDisk.{Done};

    ghost Value = { List Done × ℕ };

    ghost use Rattle.vv_disk.specs.Record.{recorded, IsSound};

    ghost view = { recorded };

    ghost invariant = { IsSound };
}

impl Record {
    /// A record of nothing yet. It takes all its memory now.
    pub(crate) fn new(alloc: Global, room: usize) -> Result<Record, AllocError>
        ensures { IfOk result (λ record'. record' ≡ ([], room)) }
    {
        Ok(Record {
            entries: Vec::with_capacity(alloc, room / ENTRY_ROOM)?,
            bytes: Vec::with_capacity(alloc, room)?,
            room,
        })
    }

    /// Whether there is room for a write of so many bytes, or for a sync, which has none.
    pub(crate) fn has_room(&self, len: usize) -> bool
        ensures { result ≡ nat_le (sum_by cost_of self.now.0 + (64 + len)) self.now.1 }
    {
        let left = self.room - ENTRY_ROOM * self.entries.len() - self.bytes.len();
        left >= ENTRY_ROOM && left - ENTRY_ROOM >= len
    }

    pub(crate) fn note_write(&mut self, at: usize, bytes: &[u8])
        requires { IsTrue (has_room self.old.0 self.old.1 (Wrote at bytes.now)) }
        ensures { self.new ≡ (self.old.0 ++ Wrote at bytes.now ∷ [], self.old.1) }
    {
        let entry = Entry::Write {
            at,
            from: self.bytes.len(),
            len: bytes.len(),
        };
        push_entry(&mut self.entries, entry);
        append(&mut self.bytes, bytes);
    }

    /// Notes a sync, and says how many entries there are then.
    pub(crate) fn note_sync(&mut self) -> usize
        requires { IsTrue (has_room self.old.0 self.old.1 Synced) }
        ensures noted { self.new ≡ (self.old.0 ++ Synced ∷ [], self.old.1) }
        ensures count { result ≡ length self.new.0 }
    {
        push_entry(&mut self.entries, Entry::Sync);
        self.entries.len()
    }

    /// Forgets all.
    pub(crate) fn clear(&mut self)
        ensures { self.new ≡ ([], self.old.1) }
    {
        self.entries.clear();
        self.bytes.clear();
    }

    /// Makes of the bytes that the disk had at first those that it had after so many writes and syncs.
    pub(crate) fn replay(&self, count: usize, disk: &mut [u8])
        requires among { count ≤ length self.now.0 }
        requires fits { All (Fits (length disk.old)) self.now.0 }
        ensures { disk.new ≡ (after disk.old (take count self.now.0)).content }
    {
        replay(&self.entries[..count], &self.bytes, disk);
    }
}

fn push_entry(entries: &mut Vec<Entry>, entry: Entry)
    requires { vec_len entries.old < vec_capacity entries.old }
    ensures items { entries.new.items ≡ entries.old.items ++ entry ∷ [] }
    ensures capacity { vec_capacity entries.old ≤ vec_capacity entries.new }
{
    let _ = entries.push(entry);
}

fn append(all: &mut Vec<u8>, bytes: &[u8])
    requires { vec_len all.old + length bytes.now ≤ vec_capacity all.old }
    ensures items { all.new.items ≡ all.old.items ++ bytes.now }
    ensures capacity { vec_capacity all.old ≤ vec_capacity all.new }
{
    let _ = all.extend_from_slice(bytes);
}

/// Does these writes again.
fn replay(entries: &[Entry], bytes: &[u8], disk: &mut [u8])
    requires among { All (IsAmong (length bytes.now)) entries.now }
    requires fits { All (Fits (length disk.old)) (done_of entries.now bytes.now) }
    ensures { disk.new ≡ (after disk.old (done_of entries.now bytes.now)).content }
{
    for entry in entries {
        redo(*entry, bytes, disk);
    }
}

/// Does one of them again.
fn redo(entry: Entry, bytes: &[u8], disk: &mut [u8])
    requires among { IsAmong (length bytes.now) entry }
    requires fits { Fits (length disk.old) (done_by bytes.now entry) }
    ensures { disk.new ≡ redone disk.old (done_by bytes.now entry) }
{
    match entry {
        Entry::Write { at, from, len } => put(disk, at, &bytes[from..from + len]),
        Entry::Sync => {}
    }
}
