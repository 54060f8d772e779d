//! Reading what a log holds.
ghost use Rattle.std.specs.Prelude.{◌≡◌, ◌<◌, ◌≤◌, ◌+◌, ◌↔◌, List, ℕ, length, OnErr, IfOk, IfErr, IfSome, OnOk};
ghost use Rattle.vv_units.specs.Causes.{HasCause};
ghost use Rattle.vv_disk.specs.Images.{bytes_at, Elapses, LeavesOnly};
ghost use Rattle.vv_data.specs.Layout.{area_bytes, disk_len};
ghost use Rattle.vv_journal.specs.Half.{payload_limit, tables_at};
ghost use Rattle.vv_journal.specs.Openings.{StandsNext, after_reading, IsShort, LeavesRest};

use crate::Journal;
use crate::numbers::number_of_4;
use crate::steps::get;
use vv_disk::Disk;
use vv_units::DiskFault;

/// What the next slot is.
#[derive(Clone, Copy, Debug, PartialEq, Eq)]
pub enum SlotRead {
    /// Its gate isn't open, so that no record stands there or behind it.
    Closed,
    /// Its gate is open, and it has no payload.
    Bad,
    /// A record of so many bytes.
    Payload { len: u32 },
}

/// The most bytes of a record.
const PAYLOAD_LIMIT: u32 = 4088;

/// The byte of a gate that is open.
const OPEN: u8 = 1;

impl Journal {
    /// Reads the bytes of the tables from byte `at` of them on that fill `into`. The area holds so many. The disk and
    /// the journal stay as they are.
    pub fn read_area<D: Disk>(
        &self,
        disk: &mut D,
        at: u64,
        into: &mut [u8],
    ) -> Result<(), DiskFault>
        requires within { 8 + at + length into.old ≤ area_bytes self.now.geometry }
        requires disk { D.size disk.old ≡ disk_len self.now.geometry }

        ensures bytes { OnOk result (IfSome (D.content disk.old) (λ c. (n : ℕ) → at + length into.old ≤ n
            → into.new ≡ bytes_at at (length into.old) (tables_at self.now.geometry self.now.half n c))) }
        ensures fault { IfErr result (λ fault. fault ≡ DiskFault.Read) }
        ensures cause { HasCause (D.read_faults disk.old) (D.read_faults disk.new) result }

        ensures len { D.size disk.new ≡ D.size disk.old }
        ensures content { D.content disk.new ≡ D.content disk.old }
        ensures write_faults { D.write_faults disk.new ≡ D.write_faults disk.old }

        ensures images { (image : List ℕ) → D.is_image disk.new image ↔ D.is_image disk.old image }
        ensures time { Elapses (D.moment disk.old) (D.moment disk.new) (D.left_since disk.old) (D.left_since disk.new) (D.is_image disk.new) }
        ensures honesty { D.is_honest disk.new ↔ D.is_honest disk.old }
    {
        get(disk, self.tables_start() + at, into)
    }

    /// Reads the next slot. The payload of a record stands at the front of `into`, and the journal counts it; it counts
    /// nothing else, so that after a slot that is closed or bad, or a fault, the next slot is the same one. The disk
    /// stays as it is.
    pub fn read_slot<D: Disk>(
        &mut self,
        disk: &mut D,
        into: &mut [u8],
    ) -> Result<SlotRead, DiskFault>
        requires room { self.old.records < 256 }
        requires into { length into.old ≡ payload_limit }
        requires disk { D.size disk.old ≡ disk_len self.old.geometry }

        ensures slot { IfOk result (λ read. IfSome (D.content disk.old) (StandsNext self.old into.new read)) }
        ensures counted { IfOk result (λ read. self.new ≡ after_reading read self.old) }
        ensures rest { IfOk result (λ read. LeavesRest read into.old into.new) }
        ensures place { (self.new.geometry ≡ self.old.geometry) × (self.new.half ≡ self.old.half) }
        ensures short { IfOk result IsShort }
        ensures not_counted { OnErr result (self.new ≡ self.old) }
        ensures fault { IfErr result (λ fault. fault ≡ DiskFault.Read) }
        ensures cause { HasCause (D.read_faults disk.old) (D.read_faults disk.new) result }

        ensures len { D.size disk.new ≡ D.size disk.old }
        ensures content { D.content disk.new ≡ D.content disk.old }
        ensures write_faults { D.write_faults disk.new ≡ D.write_faults disk.old }

        ensures images { (image : List ℕ) → D.is_image disk.new image ↔ D.is_image disk.old image }
        ensures any_moment { LeavesOnly D.moment D.left_since disk.old disk.new (D.is_image disk.old) }
        ensures honesty { D.is_honest disk.new ↔ D.is_honest disk.old }
    {
        let mut gate = [0u8; 1];
        get(disk, self.next_gate(), &mut gate)?;
        if gate[0] != OPEN {
            return Ok(SlotRead::Closed);
        }
        let mut head = [0u8; 8];
        let slot = self.next_slot();
        get(disk, slot, &mut head)?;
        let len = number_of_4(&head, 0);
        if len > PAYLOAD_LIMIT {
            return Ok(SlotRead::Bad);
        }
        if number_of_4(&head, 4) != 0 {
            return Ok(SlotRead::Bad);
        }
        get(disk, slot + 8, &mut into[..len as usize])?;
        self.count_record();
        Ok(SlotRead::Payload { len })
    }
}
