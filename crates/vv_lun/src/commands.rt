//! The commands about the blocks of a volume (SBC-4).
ghost use Rattle.std.specs.Prelude.{◌≡◌, ◌≤◌, ◌^◌, false, slice_get};
ghost use Rattle.std.specs.List.{list_any};
ghost use Rattle.vv_flat.specs.Lists.{if_found};
ghost use Rattle.vv_lun.specs.Commands.{is_outside, read, write, compare, write_same, synchronize, unmap_ranges, unmap, block_command};

use crate::actions::{answered, answered_within, done, refused};
use crate::answers::{capacity_10, capacity_16};
use crate::senses::{LBA_OUT_OF_RANGE, WRITE_PROTECTED};
use crate::unit::Action;
use vv_cdb::{Command, Unmaps};

/// What a volume of so many blocks does with a command, where no unit attention waits. INQUIRY and REQUEST SENSE are
/// answered before.
pub(crate) fn block_command(
    blocks: u64,
    snapshot: bool,
    command: &Command,
    payload: &[u8],
) -> Action
    requires some { 1 ≤ blocks }
    requires few { blocks ≤ 2 ^ 31 }
    ensures { result ≡ block_command blocks snapshot command.now payload.now }
{
    match *command {
        Command::Capacity10 => answered(&capacity_10(blocks)),
        Command::Capacity16 { alloc_len } => answered_within(alloc_len, &capacity_16(blocks)),
        Command::Read { lba, blocks: n } => read(blocks, lba, n),
        Command::Write { lba, blocks: n } => write(blocks, snapshot, lba, n),
        Command::Sync { lba, blocks: n } => synchronize(blocks, lba, n),
        Command::Unmap { .. } => unmap(blocks, snapshot, payload),
        Command::Compare { lba, blocks: n } => compare(blocks, snapshot, lba, n),
        Command::Same { lba, blocks: n } => write_same(blocks, snapshot, lba, n),
        _ => done(),
    }
}

/// Whether a range begins at the end of the volume or past it, or ends past it.
fn is_outside(blocks: u64, lba: u64, n: u32) -> bool
    ensures { result ≡ is_outside blocks (lba, n) }
{
    lba >= blocks || u64::from(n) > blocks - lba
}

/// READ, by the volume's number of blocks, the first block and how many are read.
fn read(blocks: u64, lba: u64, n: u32) -> Action
    ensures { result ≡ read blocks (lba, n) }
{
    if is_outside(blocks, lba, n) {
        return refused(LBA_OUT_OF_RANGE);
    }
    if n == 0 {
        return done();
    }
    Action::Read {
        first: lba,
        blocks: n,
    }
}

/// WRITE.
fn write(blocks: u64, snapshot: bool, lba: u64, n: u32) -> Action
    ensures { result ≡ write blocks snapshot (lba, n) }
{
    if is_outside(blocks, lba, n) {
        return refused(LBA_OUT_OF_RANGE);
    }
    if snapshot {
        return refused(WRITE_PROTECTED);
    }
    if n == 0 {
        return done();
    }
    Action::Write {
        first: lba,
        blocks: n,
    }
}

/// COMPARE AND WRITE.
fn compare(blocks: u64, snapshot: bool, lba: u64, n: u32) -> Action
    ensures { result ≡ compare blocks snapshot (lba, n) }
{
    if is_outside(blocks, lba, n) {
        return refused(LBA_OUT_OF_RANGE);
    }
    if snapshot {
        return refused(WRITE_PROTECTED);
    }
    if n == 0 {
        return done();
    }
    Action::Compare {
        first: lba,
        blocks: n,
    }
}

/// WRITE SAME, which always has a block.
fn write_same(blocks: u64, snapshot: bool, lba: u64, n: u32) -> Action
    ensures { result ≡ write_same blocks snapshot (lba, n) }
{
    if is_outside(blocks, lba, n) {
        return refused(LBA_OUT_OF_RANGE);
    }
    if snapshot {
        return refused(WRITE_PROTECTED);
    }
    Action::Same {
        first: lba,
        blocks: n,
    }
}

/// SYNCHRONIZE CACHE, which moves no block.
fn synchronize(blocks: u64, lba: u64, n: u32) -> Action
    ensures { result ≡ synchronize blocks (lba, n) }
{
    if is_outside(blocks, lba, n) {
        return refused(LBA_OUT_OF_RANGE);
    }
    done()
}

/// UNMAP, by its parameter list.
fn unmap(blocks: u64, snapshot: bool, list: &[u8]) -> Action
    ensures { result ≡ unmap blocks snapshot list.now }
{
    match Unmaps::read(list) {
        Ok(unmaps) => unmap_ranges(blocks, snapshot, unmaps),
        Err(sense) => refused(sense),
    }
}

/// UNMAP of some ranges.
fn unmap_ranges(blocks: u64, snapshot: bool, unmaps: Unmaps) -> Action
    ensures { result ≡ unmap_ranges blocks snapshot unmaps }
{
    if is_any_outside(blocks, &unmaps) {
        return refused(LBA_OUT_OF_RANGE);
    }
    if snapshot {
        return refused(WRITE_PROTECTED);
    }
    if unmaps.len() == 0 {
        return done();
    }
    Action::Unmap(unmaps)
}

/// Whether one of some ranges is outside the volume.
fn is_any_outside(blocks: u64, unmaps: &Unmaps) -> bool
    ensures { result ≡ list_any (is_outside blocks) unmaps.now }
{
    for i in 0..unmaps.len() {
        if is_outside_at(blocks, unmaps, i) {
            return true;
        }
    }
    false
}

/// Whether there is a range at a place and it is outside the volume.
fn is_outside_at(blocks: u64, unmaps: &Unmaps, i: u32) -> bool
    ensures { result ≡ if_found (slice_get unmaps.now i) (is_outside blocks) false }
{
    match unmaps.at(i) {
        Some((lba, n)) => is_outside(blocks, lba, n),
        None => false,
    }
}
