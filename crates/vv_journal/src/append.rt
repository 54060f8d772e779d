//! Adding a record.
ghost use Rattle.std.specs.Prelude.{◌≡◌, ◌<◌, ◌≤◌, ◌+◌, ◌↔◌, List, ℕ, Some, length, OnOk, OnErr, IfErr};
ghost use Rattle.vv_units.specs.Causes.{HasCause};
ghost use Rattle.vv_disk.specs.Images.{ToldWithin, LeavesOnly, EachImage};
ghost use Rattle.vv_data.specs.Layout.{chunks_at, disk_len};
ghost use Rattle.vv_journal.specs.Half.{payload_limit};
ghost use Rattle.vv_journal.specs.Log.{Log, Holds, with_record};
ghost use Rattle.vv_journal.specs.Calls.{journal_of, HoldsOver, HoldsAppended};

use crate::Journal;
use crate::slot::write_slot;
use crate::steps::put_settled;
use vv_disk::Disk;
use vv_units::DiskFault;

/// The byte of a gate that is open.
const OPEN: u8 = 1;

impl Journal {
    /// Adds a record of at most 4088 bytes. At Ok each crash from then on leaves it, with the chunks as they were
    /// written before the call. At an error the disk holds the log with it or without it, and the journal counts none
    /// more: open the image again.
    pub fn append<D: Disk>(&mut self, disk: &mut D, payload: &[u8]) -> Result<(), DiskFault>
        requires room { self.old.records < 256 }
        requires payload { length payload.now ≤ payload_limit }
        requires disk { D.size disk.old ≡ disk_len self.old.geometry }

        ensures ok { OnOk result (D.is_honest disk.old → (log : Log) → self.old ≡ journal_of log → EachImage (Holds log) (D.is_image disk.old)
            → EachImage (HoldsOver (with_record log payload.now) (λ content. D.content disk.old ≡ Some content)) (D.is_image disk.new)) }
        ensures err { OnErr result (D.is_honest disk.old → (log : Log) → self.old ≡ journal_of log → EachImage (Holds log) (D.is_image disk.old)
            → EachImage (HoldsAppended log payload.now (D.content disk.old) (D.is_image disk.old)) (D.is_image disk.new)) }

        // A crash at any moment of the call leaves the log from before it, with the record or without. With the record
        // it leaves the chunks as they were read before the call.
        ensures any_moment { D.is_honest disk.old → (log : Log) → self.old ≡ journal_of log → EachImage (Holds log) (D.is_image disk.old)
            → LeavesOnly D.moment D.left_since disk.old disk.new (HoldsAppended log payload.now (D.content disk.old) (D.is_image disk.old)) }

        // What is read of the chunk area stays.
        ensures told { ToldWithin 0 (chunks_at self.old.geometry) (D.content disk.old) (D.content disk.new) }

        ensures counted { OnOk result (self.new ≡ record self.old { records = self.old.records + 1 }) }
        ensures not_counted { OnErr result (self.new ≡ self.old) }

        ensures len { D.size disk.new ≡ D.size disk.old }
        ensures honesty { D.is_honest disk.new ↔ D.is_honest disk.old }
        ensures fault { IfErr result (λ fault. fault ≡ DiskFault.Write) }
        ensures cause { HasCause (D.write_faults disk.old) (D.write_faults disk.new) result }
        ensures read_faults { D.read_faults disk.new ≡ D.read_faults disk.old }
    {
        let slot = self.next_slot();
        let gate = self.next_gate();
        write_slot(disk, slot, payload)?;
        put_settled(disk, gate, &[OPEN])?;
        self.count_record();
        Ok(())
    }
}
