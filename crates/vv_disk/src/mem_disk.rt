//! A disk in memory for tests: it tears, fails where it is told to, and can be stopped at any call.
ghost use Rattle.std.specs.Prelude.{true, false, slice_index, ◌≡◌, ◌≤◌, ◌<◌, ◌+◌, ◌↔◌, [], ◌∷◌, ◌++◌, List, ℕ, Option, Some, None, All, length, take, replicate, option_map, refl, is_err, OnOk, OnErr, IfOk, IfSome, vec_len, vec_capacity};
ghost use Rattle.vv_disk.specs.declared.mem_disk.Keep.TheVariants.{Torn};
ghost use Rattle.vv_units.specs.Causes.{HasCause};
ghost use Rattle.vv_disk.specs.Images.{bytes_at, overwritten, DiffersWithin, ToldWithin, Follows, OnlyTold, Elapses};
ghost use Rattle.vv_disk.specs.MemDisk.{state_now, is_pending, after, made, kept, filled, FitsSpan, Wrote, Synced, IsKept, IsLeft, LeftSince, fails_now, fails_at, after_read, after_call};
ghost use Rattle.vv_disk.specs.MemDiskLaws.{content_sized, content_left, left_sized, since_now, now_since, since_later};

use crate::Disk;
use crate::plan::Plan;
use crate::record::Record;
use crate::span::{Span, fill, put};
use std::alloc::{AllocError, Global};
use std::marker::Model;
use vv_units::{Failed, NoMemory};

/// What a crash leaves of the ranges written since the last sync.
#[derive(Clone, Copy, Debug, PartialEq, Eq)]
pub enum Keep {
    /// As they were before.
    Old,
    /// As they were written.
    New,
    /// This byte all over them.
    Torn(u8),
}

/// What stands for each write and sync in the room of the record.
const ENTRY_ROOM: usize = 64;

/// Bytes in memory, with a record of what was done to them. No call but `new` takes memory.
#[derive(Debug, Drop)]
pub struct MemDisk {
    first: Vec<u8>,
    content: Vec<u8>,
    pending: Vec<Span>,
    /// How many entries the record had at the last sync.
    synced: usize,
    past: Record,
    plan: Plan,
    read_faults: u64,
    write_faults: u64,
}

impl Model for MemDisk {
    ghost use Rattle.vv_disk.specs.MemDisk.{MemState};

    ghost Value = { MemState };

    ghost use Rattle.vv_disk.specs.Kept.{seen, IsWhole};

    ghost view = { seen };

    ghost invariant = { IsWhole };
}

impl MemDisk {
    /// A disk of these bytes. Its calls are numbered from 0, and those that are listed fail, those at or past
    /// the fuse, and writes and syncs for which its record has no room.
    pub fn new(
        alloc: Global,
        content: Vec<u8>,
        fail: Vec<u64>,
        fuse: Option<u64>,
        room: usize,
    ) -> Result<MemDisk, NoMemory>
        ensures { IfOk result (λ disk. disk ≡ made content.items fail.items fuse room) }
    {
        match MemDisk::reserved(alloc, content, fail, fuse, room) {
            Ok(disk) => Ok(disk),
            Err(_) => Err(NoMemory),
        }
    }

    fn reserved(
        alloc: Global,
        content: Vec<u8>,
        fail: Vec<u64>,
        fuse: Option<u64>,
        room: usize,
    ) -> Result<MemDisk, AllocError>
        ensures { IfOk result (λ disk. disk ≡ made content.items fail.items fuse room) }
    {
        let first = Vec::from_slice(alloc, &content)?;
        let pending = Vec::with_capacity(alloc, room / ENTRY_ROOM)?;
        let past = Record::new(alloc, room)?;
        Ok(MemDisk {
            first,
            content,
            pending,
            synced: 0,
            past,
            plan: Plan {
                fail,
                fuse,
                calls: 0,
            },
            read_faults: 0,
            write_faults: 0,
        })
    }

    /// What a read of all bytes gives.
    pub fn content(&self) -> &[u8]
        ensures { result.now ≡ (state_now self.now).content }
    {
        &self.content
    }

    /// What a crash leaves, as a disk whose calls all succeed while its record has room, which is as at `new`.
    pub fn after_crash(self, keep: Keep) -> MemDisk
        ensures disk { result ≡ made (kept keep (state_now self)) [] None self.room }
        ensures image { ⟦<MemDisk as Disk>⟧.is_image self result.first }

        // Byte for byte: those that are not pending stay, and a torn crash leaves its byte in all that are.
        ensures others { (k : ℕ) → is_pending (state_now self) k ≡ false → slice_index result.first k ≡ slice_index (state_now self).content k }
        ensures torn { (byte k : ℕ) → keep ≡ Torn byte → k < length self.first → is_pending (state_now self) k ≡ true → slice_index result.first k ≡ byte }
    {
        self.left(keep)
    }

    fn left(self, keep: Keep) -> MemDisk
        ensures { result ≡ made (kept keep (state_now self)) [] None self.room }
    {
        let MemDisk {
            mut first,
            mut content,
            mut pending,
            synced,
            mut past,
            mut plan,
            read_faults: _,
            write_faults: _,
        } = self;
        keep_bytes(&mut first, &mut content, &pending, synced, &past, keep);
        pending.clear();
        past.clear();
        plan.fail.clear();
        MemDisk {
            first,
            content,
            pending,
            synced: 0,
            past,
            plan: Plan {
                fail: plan.fail,
                fuse: None,
                calls: 0,
            },
            read_faults: 0,
            write_faults: 0,
        }
    }

    fn read_bytes(&mut self, at: usize, into: &mut [u8]) -> Result<(), Failed>
        requires { at + length into.old ≤ length self.old.first }
        ensures after { self.new ≡ after_read self.old }
        ensures fails { is_err result ≡ fails_now self.old }
        ensures bytes { OnOk result (into.new ≡ bytes_at at (length into.old) (state_now self.old).content) }
        ensures unread { OnErr result (into.new ≡ into.old) }
        ensures cause { HasCause self.old.read_faults self.new.read_faults result }
    {
        if self.plan.count_call() {
            self.read_faults = self.read_faults.saturating_add(1);
            return Err(Failed);
        }
        into.copy_from_slice(&self.content[at..at + into.len()]);
        Ok(())
    }

    fn write_bytes(&mut self, at: usize, bytes: &[u8]) -> Result<(), Failed>
        requires { at + length bytes.now ≤ length self.old.first }
        ensures after { self.new ≡ after_call self.old (Wrote at bytes.now) }
        ensures fails { is_err result ≡ fails_at self.old (Wrote at bytes.now) }
        ensures cause { HasCause self.old.write_faults self.new.write_faults result }
    {
        let is_planned = self.plan.count_call();
        let has_room = self.past.has_room(bytes.len());
        if is_planned || !has_room {
            self.write_faults = self.write_faults.saturating_add(1);
            return Err(Failed);
        }
        put(&mut self.content, at, bytes);
        let span = Span {
            at,
            len: bytes.len(),
        };
        push_span(&mut self.pending, span);
        self.past.note_write(at, bytes);
        Ok(())
    }

    fn sync_bytes(&mut self) -> Result<(), Failed>
        ensures after { self.new ≡ after_call self.old Synced }
        ensures fails { is_err result ≡ fails_at self.old Synced }
        ensures cause { HasCause self.old.write_faults self.new.write_faults result }
    {
        let is_planned = self.plan.count_call();
        let has_room = self.past.has_room(0);
        if is_planned || !has_room {
            self.write_faults = self.write_faults.saturating_add(1);
            return Err(Failed);
        }
        self.pending.clear();
        self.synced = self.past.note_sync();
        Ok(())
    }
}

fn push_span(spans: &mut Vec<Span>, span: Span)
    requires { vec_len spans.old < vec_capacity spans.old }
    ensures items { spans.new.items ≡ spans.old.items ++ span ∷ [] }
    ensures capacity { vec_capacity spans.old ≤ vec_capacity spans.new }
{
    let _ = spans.push(span);
}

/// Puts one byte all over some ranges.
fn fill_all(disk: &mut [u8], spans: &[Span], byte: u8)
    requires { All (FitsSpan (length disk.old)) spans.now }
    ensures { disk.new ≡ filled byte disk.old spans.now }
{
    for span in spans {
        fill(disk, *span, byte);
    }
}

/// Makes what a crash leaves, of the bytes that the disk had at first and of its content.
fn keep_bytes(
    first: &mut [u8],
    content: &mut [u8],
    pending: &[Span],
    synced: usize,
    past: &Record,
    keep: Keep,
)
    requires { IsKept first.old content.old pending.now synced past.now.0 }
    ensures first { first.new ≡ kept keep (after first.old past.now.0) }
    ensures content { content.new ≡ kept keep (after first.old past.now.0) }
{
    match keep {
        Keep::New => first.copy_from_slice(content),
        Keep::Old => {
            past.replay(synced, first);
            content.copy_from_slice(first);
        }
        Keep::Torn(byte) => {
            past.replay(synced, first);
            fill_all(first, pending, byte);
            content.copy_from_slice(first);
        }
    }
}

impl Disk for MemDisk {
    ghost size = { λ disk. length disk.first };

    ghost content = { λ disk. Some (state_now disk).content };

    ghost is_image = { λ disk. IsLeft (state_now disk) };

    ghost moment = { λ disk. length disk.done };

    ghost left_since = { λ disk. LeftSince disk.first disk.done };

    ghost is_honest = { λ _. Unit {0} };

    ghost read_faults = { λ disk. disk.read_faults };

    ghost write_faults = { λ disk. disk.write_faults };

    ghost content_fits = { λ disk c told. content_sized disk.first disk.done c told };

    ghost content_is_image = { λ disk honest. ((state_now disk).content, refl, content_left disk.first disk.done) };

    ghost image_fits = { λ disk image honest. left_sized disk.first disk.done image };

    ghost counts_now = { λ disk. since_now disk.first disk.done };

    ghost only_now = { λ disk. now_since disk.first disk.done };

    ghost counts_later = { λ disk. since_later disk.first disk.done };

    fn len(&self) -> u64 {
        self.content.len() as u64
    }

    // Of each call it is known which disk it leaves, beside what the trait says of it.

    fn read(&mut self, at: u64, into: &mut [u8]) -> Result<(), Failed>
        requires { at + length into.old ≤ length self.old.first }

        ensures after { self.new ≡ after_read self.old }
        ensures fails { is_err result ≡ fails_now self.old }

        ensures bytes { OnOk result (into.new ≡ bytes_at at (length into.old) (state_now self.old).content) }
        ensures unread { OnErr result (into.new ≡ into.old) }
        ensures len { length self.new.first ≡ length self.old.first }
        ensures content { Some (state_now self.new).content ≡ Some (state_now self.old).content }

        ensures images { (image : List ℕ) → IsLeft (state_now self.new) image ↔ IsLeft (state_now self.old) image }
        ensures time { Elapses (length self.old.done) (length self.new.done) (LeftSince self.old.first self.old.done)
            (LeftSince self.new.first self.new.done) (IsLeft (state_now self.new)) }

        ensures cause { HasCause self.old.read_faults self.new.read_faults result }
        ensures write_faults { self.new.write_faults ≡ self.old.write_faults }
    {
        self.read_bytes(at as usize, into)
    }

    fn write(&mut self, at: u64, bytes: &[u8]) -> Result<(), Failed>
        requires { at + length bytes.now ≤ length self.old.first }

        ensures after { self.new ≡ after_call self.old (Wrote at bytes.now) }
        ensures fails { is_err result ≡ fails_at self.old (Wrote at bytes.now) }

        ensures ok { OnOk result (Some (state_now self.new).content ≡ Some (overwritten (state_now self.old).content at bytes.now)) }
        ensures err { OnErr result (DiffersWithin at (length bytes.now) (state_now self.old).content (state_now self.new).content) }
        ensures len { length self.new.first ≡ length self.old.first }

        ensures images { Unit {0} → Follows (DiffersWithin at (length bytes.now)) (IsLeft (state_now self.old)) (IsLeft (state_now self.new)) }
        ensures time { Elapses (length self.old.done) (length self.new.done) (LeftSince self.old.first self.old.done)
            (LeftSince self.new.first self.new.done) (IsLeft (state_now self.new)) }

        ensures cause { HasCause self.old.write_faults self.new.write_faults result }
        ensures read_faults { self.new.read_faults ≡ self.old.read_faults }
    {
        self.write_bytes(at as usize, bytes)
    }

    fn sync(&mut self) -> Result<(), Failed>
        ensures after { self.new ≡ after_call self.old Synced }
        ensures fails { is_err result ≡ fails_at self.old Synced }

        ensures ok { OnOk result (Unit {0} → OnlyTold (Some (state_now self.new).content) (IsLeft (state_now self.new))) }
        ensures len { length self.new.first ≡ length self.old.first }
        ensures content { Some (state_now self.new).content ≡ Some (state_now self.old).content }

        ensures images { Unit {0} → (image : List ℕ) → IsLeft (state_now self.new) image → IsLeft (state_now self.old) image }
        ensures time { Elapses (length self.old.done) (length self.new.done) (LeftSince self.old.first self.old.done)
            (LeftSince self.new.first self.new.done) (IsLeft (state_now self.new)) }

        ensures cause { HasCause self.old.write_faults self.new.write_faults result }
        ensures read_faults { self.new.read_faults ≡ self.old.read_faults }
    {
        self.sync_bytes()
    }
}
