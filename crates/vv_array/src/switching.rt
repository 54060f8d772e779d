//! Room for a record: a half that is full is left for the other one, which begins with the tables in memory.
ghost use Rattle.std.specs.Prelude.{◌≡◌, ◌<◌, ◌≤◌, ◌+◌, ◌↔◌, List, ℕ, length, OnOk, IfOk, IfErr, IfSome};
ghost use Rattle.vv_units.specs.Causes.{HasCause};
ghost use Rattle.vv_disk.specs.Images.{ToldWithin, LeavesOnly};
ghost use Rattle.vv_data.specs.Layout.{chunks_at, disk_len};
ghost use Rattle.vv_flat.specs.State.{Array as SeenArray};
ghost use Rattle.vv_flat.specs.Chunks.{ChunkValue};
ghost use Rattle.vv_area.specs.Lengths.{area_length};
ghost use Rattle.vv_area.specs.Spelling.{area_spelling};
ghost use Rattle.vv_journal.specs.Calls.{JournalState};
ghost use Rattle.vv_journal.specs.Switches.{other_half, HasTables};
ghost use Rattle.vv_array.specs.Standing.{UpOn, StandsKept};
ghost use Rattle.vv_array.specs.SwitchSteps.{IsSwitchOf, HasFirst, KeepsUp};

use vv_core::Core;
use vv_disk::Disk;
use vv_journal::{Journal, Switching};
use vv_units::DiskFault;

/// Makes room for a record: where 256 stand in the half, the tables in memory are written to the other half, which is
/// then selected. No memory is taken. After an error the journal is given up.
pub(crate) fn make_room<D: Disk>(
    journal: &mut Journal,
    core: &Core,
    disk: &mut D,
    buffer: &mut [u8],
) -> Result<(), DiskFault>
    requires disk { D.size disk.old ≡ disk_len journal.old.geometry }
    requires sizes { journal.old.geometry ≡ core.now.array.durable.geometry }
    requires buffer { 4096 ≤ length buffer.old }

    ensures room { OnOk result (journal.new.records < 256) }
    ensures sizes { journal.new.geometry ≡ journal.old.geometry }
    ensures stands { OnOk result (D.is_honest disk.old → (m : SeenArray ChunkValue) → UpOn journal.old core.now.array (D.content disk.old) (D.is_image disk.old) m
        → UpOn journal.new core.now.array (D.content disk.new) (D.is_image disk.new) m) }

    // A crash at any moment of the call leaves the array as it is.
    ensures left { D.is_honest disk.old → (m : SeenArray ChunkValue) → UpOn journal.old core.now.array (D.content disk.old) (D.is_image disk.old) m
        → LeavesOnly D.moment D.left_since disk.old disk.new (StandsKept m) }

    // What is read of the chunk area stays.
    ensures told { ToldWithin 0 (chunks_at journal.old.geometry) (D.content disk.old) (D.content disk.new) }

    ensures len { D.size disk.new ≡ D.size disk.old }
    ensures honesty { D.is_honest disk.new ↔ D.is_honest disk.old }
    ensures fault { IfErr result (λ fault. fault ≡ DiskFault.Write) }
    ensures cause { HasCause (D.write_faults disk.old) (D.write_faults disk.new) result }
    ensures writes { D.write_faults disk.old ≤ D.write_faults disk.new }
    ensures read_faults { D.read_faults disk.new ≡ D.read_faults disk.old }
{
    if journal.room() {
        return Ok(());
    }
    leave_half(journal, core, disk, buffer)
}

/// Leaves a full half for the other one, with the tables in memory and no record.
fn leave_half<D: Disk>(
    journal: &mut Journal,
    core: &Core,
    disk: &mut D,
    buffer: &mut [u8],
) -> Result<(), DiskFault>
    requires full { 256 ≤ journal.old.records }
    requires disk { D.size disk.old ≡ disk_len journal.old.geometry }
    requires sizes { journal.old.geometry ≡ core.now.array.durable.geometry }
    requires buffer { 4096 ≤ length buffer.old }

    ensures room { OnOk result (journal.new.records < 256) }
    ensures sizes { journal.new.geometry ≡ journal.old.geometry }
    ensures stands { OnOk result (D.is_honest disk.old → (m : SeenArray ChunkValue) → UpOn journal.old core.now.array (D.content disk.old) (D.is_image disk.old) m
        → UpOn journal.new core.now.array (D.content disk.new) (D.is_image disk.new) m) }
    ensures left { D.is_honest disk.old → (m : SeenArray ChunkValue) → UpOn journal.old core.now.array (D.content disk.old) (D.is_image disk.old) m
        → LeavesOnly D.moment D.left_since disk.old disk.new (StandsKept m) }
    ensures told { ToldWithin 0 (chunks_at journal.old.geometry) (D.content disk.old) (D.content disk.new) }

    ensures len { D.size disk.new ≡ D.size disk.old }
    ensures honesty { D.is_honest disk.new ↔ D.is_honest disk.old }
    ensures fault { IfErr result (λ fault. fault ≡ DiskFault.Write) }
    ensures cause { HasCause (D.write_faults disk.old) (D.write_faults disk.new) result }
    ensures read_faults { D.read_faults disk.new ≡ D.read_faults disk.old }
{
    let _well_formed = core.lsn();
    let switching = written_switch(journal, core, disk, buffer)?;
    journal.end_switch(disk, switching)?;
    Ok(())
}

/// Begins a switch, and writes all of its tables. At an error the switch is given up.
fn written_switch<D: Disk>(
    journal: &mut Journal,
    core: &Core,
    disk: &mut D,
    buffer: &mut [u8],
) -> Result<Switching, DiskFault>
    requires full { 256 ≤ journal.old.records }
    requires disk { D.size disk.old ≡ disk_len journal.old.geometry }
    requires sizes { journal.old.geometry ≡ core.now.array.durable.geometry }
    requires buffer { 4096 ≤ length buffer.old }

    ensures is { IfOk result (λ switching. switching ≡ record {
      geometry = journal.old.geometry;
      half = other_half journal.old.half;
      done = length (area_spelling 2 core.now.array.durable);
      len = length (area_spelling 2 core.now.array.durable);
    }) }
    ensures tables { IfOk result (λ switching. IfSome (D.content disk.new) (HasTables switching (area_spelling 2 core.now.array.durable))) }
    ensures same { journal.new ≡ journal.old }
    ensures keeps { D.is_honest disk.old → (m : SeenArray ChunkValue) → UpOn journal.old core.now.array (D.content disk.old) (D.is_image disk.old) m
        → KeepsUp D.content D.is_image D.moment D.left_since disk.old disk.new journal.old core.now.array m }
    ensures told { ToldWithin 0 (chunks_at journal.old.geometry) (D.content disk.old) (D.content disk.new) }

    ensures len { D.size disk.new ≡ D.size disk.old }
    ensures honesty { D.is_honest disk.new ↔ D.is_honest disk.old }
    ensures fault { IfErr result (λ fault. fault ≡ DiskFault.Write) }
    ensures cause { HasCause (D.write_faults disk.old) (D.write_faults disk.new) result }
    ensures read_faults { D.read_faults disk.new ≡ D.read_faults disk.old }
{
    let mut switching = begun_switch(journal, core, disk)?;
    match put_tables(&mut switching, core, disk, buffer) {
        Ok(()) => Ok(switching),
        Err(fault) => {
            switching.give_up();
            Err(fault)
        }
    }
}

/// Begins a switch to the tables in memory.
fn begun_switch<D: Disk>(
    journal: &mut Journal,
    core: &Core,
    disk: &mut D,
) -> Result<Switching, DiskFault>
    requires full { 256 ≤ journal.old.records }
    requires disk { D.size disk.old ≡ disk_len journal.old.geometry }
    requires sizes { journal.old.geometry ≡ core.now.array.durable.geometry }

    ensures is { IfOk result (λ switching. switching ≡ record {
      geometry = journal.old.geometry;
      half = other_half journal.old.half;
      done = 0;
      len = length (area_spelling 2 core.now.array.durable);
    }) }
    ensures tables { IfOk result (λ switching. HasFirst switching core.now.array.durable (D.content disk.new)) }
    ensures same { journal.new ≡ journal.old }
    ensures keeps { D.is_honest disk.old → (m : SeenArray ChunkValue) → UpOn journal.old core.now.array (D.content disk.old) (D.is_image disk.old) m
        → KeepsUp D.content D.is_image D.moment D.left_since disk.old disk.new journal.old core.now.array m }
    ensures told { ToldWithin 0 (chunks_at journal.old.geometry) (D.content disk.old) (D.content disk.new) }

    ensures len { D.size disk.new ≡ D.size disk.old }
    ensures honesty { D.is_honest disk.new ↔ D.is_honest disk.old }
    ensures fault { IfErr result (λ fault. fault ≡ DiskFault.Write) }
    ensures cause { HasCause (D.write_faults disk.old) (D.write_faults disk.new) result }
    ensures read_faults { D.read_faults disk.new ≡ D.read_faults disk.old }
{
    let switching = journal.begin_switch(disk, core.area_len())?;
    Ok(switching)
}

/// Writes the tables of a switch that was begun, in pieces as long as the memory that is given for them.
fn put_tables<D: Disk>(
    switching: &mut Switching,
    core: &Core,
    disk: &mut D,
    buffer: &mut [u8],
) -> Result<(), DiskFault>
    requires none { switching.old.done ≡ 0 }
    requires tables { switching.old.len ≡ length (area_spelling 2 core.now.array.durable) }
    requires sizes { switching.old.geometry ≡ core.now.array.durable.geometry }
    requires disk { D.size disk.old ≡ disk_len switching.old.geometry }
    requires buffer { 4096 ≤ length buffer.old }

    ensures tables { OnOk result (HasFirst switching.old core.now.array.durable (D.content disk.old)
        → HasFirst switching.new core.now.array.durable (D.content disk.new)) }
    ensures counted { OnOk result (switching.new ≡ record switching.old { done = switching.old.len }) }
    ensures keeps { D.is_honest disk.old → (journal : JournalState) → (m : SeenArray ChunkValue) → IsSwitchOf journal switching.old
        → UpOn journal core.now.array (D.content disk.old) (D.is_image disk.old) m
        → KeepsUp D.content D.is_image D.moment D.left_since disk.old disk.new journal core.now.array m }
    ensures told { ToldWithin 0 (chunks_at switching.old.geometry) (D.content disk.old) (D.content disk.new) }

    ensures len { D.size disk.new ≡ D.size disk.old }
    ensures honesty { D.is_honest disk.new ↔ D.is_honest disk.old }
    ensures fault { IfErr result (λ fault. fault ≡ DiskFault.Write) }
    ensures cause { HasCause (D.write_faults disk.old) (D.write_faults disk.new) result }
    ensures read_faults { D.read_faults disk.new ≡ D.read_faults disk.old }
{
    let len = core.area_len();
    let mut at = 0;
    while at < len {
        let count = piece_len(buffer, len - at);
        put_piece(switching, core, disk, at, &mut buffer[..count])?;
        at += count as u64;
    }
    Ok(())
}

/// How long the next piece is: as long as the memory for it, or as what is left.
fn piece_len(buffer: &[u8], left: u64) -> usize
    requires some { 0 < left }
    requires buffer { 4096 ≤ length buffer.now }
    ensures some { 0 < result }
    ensures within { result ≤ left }
    ensures fits { result ≤ length buffer.now }
{
    if left < buffer.len() as u64 {
        left as usize
    } else {
        buffer.len()
    }
}

/// Writes the next piece of the tables of a switch: that from `at` on, as long as the memory that is given for it.
fn put_piece<D: Disk>(
    switching: &mut Switching,
    core: &Core,
    disk: &mut D,
    at: u64,
    piece: &mut [u8],
) -> Result<(), DiskFault>
    requires at { at ≡ switching.old.done }
    requires tables { switching.old.len ≡ length (area_spelling 2 core.now.array.durable) }
    requires within { at + length piece.old ≤ switching.old.len }
    requires sizes { switching.old.geometry ≡ core.now.array.durable.geometry }
    requires disk { D.size disk.old ≡ disk_len switching.old.geometry }

    ensures tables { OnOk result (HasFirst switching.old core.now.array.durable (D.content disk.old)
        → HasFirst switching.new core.now.array.durable (D.content disk.new)) }
    ensures counted { OnOk result (switching.new ≡ record switching.old { done = at + length piece.old }) }
    ensures keeps { D.is_honest disk.old → (journal : JournalState) → (m : SeenArray ChunkValue) → IsSwitchOf journal switching.old
        → UpOn journal core.now.array (D.content disk.old) (D.is_image disk.old) m
        → KeepsUp D.content D.is_image D.moment D.left_since disk.old disk.new journal core.now.array m }
    ensures told { ToldWithin 0 (chunks_at switching.old.geometry) (D.content disk.old) (D.content disk.new) }

    ensures len { D.size disk.new ≡ D.size disk.old }
    ensures honesty { D.is_honest disk.new ↔ D.is_honest disk.old }
    ensures fault { IfErr result (λ fault. fault ≡ DiskFault.Write) }
    ensures cause { HasCause (D.write_faults disk.old) (D.write_faults disk.new) result }
    ensures read_faults { D.read_faults disk.new ≡ D.read_faults disk.old }
{
    let _len = core.area_len();
    core.area_piece(at, piece);
    switching.put(disk, piece)?;
    Ok(())
}
