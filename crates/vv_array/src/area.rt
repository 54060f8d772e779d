//! The tables of an image's area, read in pieces, up to the core of them.
ghost use Rattle.std.specs.Prelude.{◌≡◌, ◌≤◌, ◌<◌, ◌+◌, ℕ, List, Option, Ok, IfOk, IfErr, IfSome, OnOk, length};
ghost use Rattle.vv_data.specs.Layout.{area_bytes, disk_len};
ghost use Rattle.vv_fields.specs.Fields.{AreBytes};
ghost use Rattle.vv_flat.specs.State.{empty_volatile};
ghost use Rattle.vv_journal.specs.Openings.{journal_at_first};
ghost use Rattle.vv_array.specs.OpeningSteps.{fault_of_area, IsFaultIn, IsNoneOfDisk, HasReadCause, OnlyReads, area_found, IsFed, FeedsOn, FailsOn};

use crate::fault::ArrayFault;
use std::alloc::Global;
use vv_area::AreaFault;
use vv_core::{AreaReader, Core};
use vv_disk::Disk;
use vv_journal::{Journal, LogHead};
use vv_units::{Damage, NoMemory, Part};

/// The most bytes of an area that are read at once.
const PIECE: usize = 65_536;

/// The core of the tables that the area of an image spells. The journal is that of the image, before its first slot.
pub(crate) fn read_tables<D: Disk>(
    alloc: Global,
    journal: &Journal,
    head: &LogHead,
    disk: &mut D,
) -> Result<Core, ArrayFault>
    requires journal { journal.now ≡ journal_at_first head.now }
    requires fits { 8 + head.now.area_len ≤ area_bytes head.now.geometry }
    requires disk { D.size disk.old ≡ disk_len head.now.geometry }

    ensures tables { IfOk result (λ core. IfSome (D.content disk.old) (λ c. area_found head.now c ≡ Ok core.array.durable)) }
    ensures waiting { IfOk result (λ core. core.array.volatile ≡ empty_volatile) }
    ensures sizes { IfOk result (λ core. core.array.durable.geometry ≡ head.now.geometry) }
    ensures fault { IfErr result (λ fault. IfSome (D.content disk.old) (λ c. IsFaultIn (area_found head.now c) fault)) }
    ensures cause { IfErr result (HasReadCause (D.read_faults disk.old) (D.read_faults disk.new)) }
    ensures disk { OnlyReads D.size D.content D.is_image D.is_honest D.moment D.left_since D.read_faults D.write_faults disk.old disk.new }
{
    let mut reader = AreaReader::new(alloc, head.geometry, head.spelling)?;
    match feed_area(alloc, journal, head, disk, &mut reader) {
        Ok(()) => finish(alloc, head, reader),
        Err(fault) => {
            let_go(reader);
            Err(fault)
        }
    }
}

/// Gives a reader up, with all that it holds.
fn let_go(_reader: AreaReader) {}

/// The core of the tables of an area all of whose bytes were fed.
fn finish(alloc: Global, head: &LogHead, reader: AreaReader) -> Result<Core, ArrayFault>
    requires set { (told : Option (List ℕ)) × IsFed reader head.now head.now.area_len told }

    ensures tables { (told : Option (List ℕ)) → IsFed reader head.now head.now.area_len told → IfOk result (λ core. IfSome told (λ c. area_found head.now c ≡ Ok core.array.durable)) }
    ensures waiting { IfOk result (λ core. core.array.volatile ≡ empty_volatile) }
    ensures sizes { IfOk result (λ core. core.array.durable.geometry ≡ head.now.geometry) }
    ensures fault { (told : Option (List ℕ)) → IsFed reader head.now head.now.area_len told → IfErr result (λ fault. IfSome told (λ c. IsFaultIn (area_found head.now c) fault)) }
    ensures kind { IfErr result IsNoneOfDisk }
{
    match reader.finish(alloc) {
        Ok(core) => Ok(core),
        Err(fault) => Err(area_fault(head.half, fault)),
    }
}

/// Memory for so many bytes.
pub(crate) fn room_for(alloc: Global, count: usize) -> Result<Vec<u8>, NoMemory>
    ensures { IfOk result (λ room. length room.items ≡ count) }
{
    vec![in alloc; 0; count].map_err(|_| NoMemory)
}

/// Feeds all bytes of the tables to a reader to which none was fed.
fn feed_area<D: Disk>(
    alloc: Global,
    journal: &Journal,
    head: &LogHead,
    disk: &mut D,
    reader: &mut AreaReader,
) -> Result<(), ArrayFault>
    requires journal { journal.now ≡ journal_at_first head.now }
    requires fits { 8 + head.now.area_len ≤ area_bytes head.now.geometry }
    requires disk { D.size disk.old ≡ disk_len head.now.geometry }
    requires fed { IsFed reader.old head.now 0 (D.content disk.old) }

    ensures fed { OnOk result (IsFed reader.new head.now head.now.area_len (D.content disk.old)) }
    ensures fault { IfErr result (λ fault. IfSome (D.content disk.old) (λ c. IsFaultIn (area_found head.now c) fault)) }
    ensures cause { IfErr result (HasReadCause (D.read_faults disk.old) (D.read_faults disk.new)) }
    ensures disk { OnlyReads D.size D.content D.is_image D.is_honest D.moment D.left_since D.read_faults D.write_faults disk.old disk.new }
{
    let mut buffer = room_for(alloc, PIECE)?;
    feed_tables(journal, head, disk, reader, &mut buffer)
}

/// Feeds them in pieces as long as the memory that is given for them.
fn feed_tables<D: Disk>(
    journal: &Journal,
    head: &LogHead,
    disk: &mut D,
    reader: &mut AreaReader,
    buffer: &mut [u8],
) -> Result<(), ArrayFault>
    requires journal { journal.now ≡ journal_at_first head.now }
    requires fits { 8 + head.now.area_len ≤ area_bytes head.now.geometry }
    requires disk { D.size disk.old ≡ disk_len head.now.geometry }
    requires buffer { 4096 ≤ length buffer.old }
    requires fed { IsFed reader.old head.now 0 (D.content disk.old) }

    ensures fed { OnOk result (IsFed reader.new head.now head.now.area_len (D.content disk.old)) }
    ensures fault { IfErr result (λ fault. IfSome (D.content disk.old) (λ c. IsFaultIn (area_found head.now c) fault)) }
    ensures cause { IfErr result (HasReadCause (D.read_faults disk.old) (D.read_faults disk.new)) }
    ensures disk { OnlyReads D.size D.content D.is_image D.is_honest D.moment D.left_since D.read_faults D.write_faults disk.old disk.new }
{
    let mut at = 0;
    while at < head.area_len {
        let count = piece_len(buffer, head.area_len - at);
        feed_piece(journal, head, disk, reader, at, &mut buffer[..count])?;
        at += count as u64;
    }
    Ok(())
}

/// How long the next piece is: as long as the memory for it, or as what is left.
fn piece_len(buffer: &[u8], left: u64) -> usize
    requires some { 0 < left }
    requires buffer { 4096 ≤ length buffer.now }
    ensures some { 0 < result }
    ensures within { result ≤ left }
    ensures fits { result ≤ length buffer.now }
{
    if left < buffer.len() as u64 {
        left as usize
    } else {
        buffer.len()
    }
}

/// Feeds the bytes of the tables from a place on that fill the memory for them.
fn feed_piece<D: Disk>(
    journal: &Journal,
    head: &LogHead,
    disk: &mut D,
    reader: &mut AreaReader,
    at: u64,
    piece: &mut [u8],
) -> Result<(), ArrayFault>
    requires journal { journal.now ≡ journal_at_first head.now }
    requires fits { 8 + head.now.area_len ≤ area_bytes head.now.geometry }
    requires within { at + length piece.old ≤ head.now.area_len }
    requires disk { D.size disk.old ≡ disk_len head.now.geometry }
    requires fed { IsFed reader.old head.now at (D.content disk.old) }

    ensures fed { OnOk result (IsFed reader.new head.now (at + length piece.old) (D.content disk.old)) }
    ensures fault { IfErr result (λ fault. IfSome (D.content disk.old) (λ c. IsFaultIn (area_found head.now c) fault)) }
    ensures cause { IfErr result (HasReadCause (D.read_faults disk.old) (D.read_faults disk.new)) }
    ensures disk { OnlyReads D.size D.content D.is_image D.is_honest D.moment D.left_since D.read_faults D.write_faults disk.old disk.new }
{
    journal.read_area(disk, at, piece)?;
    match feed(reader, piece) {
        Ok(()) => Ok(()),
        Err(fault) => Err(area_fault(head.half, fault)),
    }
}

/// Feeds a piece to a reader. It is of bytes, since its type is.
fn feed(reader: &mut AreaReader, piece: &[u8]) -> Result<(), AreaFault>
    ensures bytes { AreBytes piece.now }
    ensures ok { OnOk result (FeedsOn reader.old reader.new piece.now) }
    ensures fault { IfErr result (FailsOn reader.old piece.now) }
{
    reader.feed(piece)
}

/// What is told of an area of this half that isn't taken.
fn area_fault(half: u8, fault: AreaFault) -> ArrayFault
    ensures fault { result ≡ fault_of_area half fault }
    ensures kind { IsNoneOfDisk result }
{
    match fault {
        AreaFault::Bad { at } => ArrayFault::Damaged(Damage {
            part: Part::Area,
            place: at as u64,
            found: u64::from(half),
        }),
        AreaFault::Rule { rule, found } => ArrayFault::Damaged(Damage {
            part: Part::Rule,
            place: rule,
            found,
        }),
        AreaFault::NoMemory => ArrayFault::NoMemory,
    }
}
