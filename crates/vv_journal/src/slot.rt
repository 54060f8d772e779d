//! Slots, each of which holds one record.
ghost use Rattle.std.specs.Prelude.{◌≡◌, ◌≤◌, ◌+◌, ◌^◌, ◌↔◌, List, ℕ, Some, length, take, drop, OnOk, IfErr, IfSome};
ghost use Rattle.vv_units.specs.Causes.{HasCause};
ghost use Rattle.vv_fields.specs.Fields.{be_number};
ghost use Rattle.vv_disk.specs.Images.{bytes_at, overwritten, ToldWithin, OnlyTold, LeavesOnly, EachImage};
ghost use Rattle.vv_journal.specs.Header.{number_at};
ghost use Rattle.vv_journal.specs.Half.{payload_at, payload_limit};
ghost use Rattle.vv_journal.specs.Calls.{ChangedWithin};

use crate::steps::put_settled;
use vv_disk::Disk;
use vv_units::DiskFault;

/// Writes a slot with this payload at `at`, in one write, and syncs.
pub(crate) fn write_slot<D: Disk>(disk: &mut D, at: u64, payload: &[u8]) -> Result<(), DiskFault>
    requires disk { at + 4096 ≤ D.size disk.old }
    requires payload { length payload.now ≤ payload_limit }

    ensures stands { OnOk result (IfSome (D.content disk.new) (λ c. payload_at at c ≡ Some payload.now)) }
    ensures only { OnOk result (D.is_honest disk.old → OnlyTold (D.content disk.new) (D.is_image disk.new)) }
    ensures told { ToldWithin at 4096 (D.content disk.old) (D.content disk.new) }
    ensures each { D.is_honest disk.old → EachImage (ChangedWithin at 4096 (D.is_image disk.old)) (D.is_image disk.new) }
    ensures any_moment { D.is_honest disk.old → LeavesOnly D.moment D.left_since disk.old disk.new (ChangedWithin at 4096 (D.is_image disk.old)) }

    ensures len { D.size disk.new ≡ D.size disk.old }
    ensures honesty { D.is_honest disk.new ↔ D.is_honest disk.old }
    ensures fault { IfErr result (λ fault. fault ≡ DiskFault.Write) }
    ensures cause { HasCause (D.write_faults disk.old) (D.write_faults disk.new) result }
    ensures read_faults { D.read_faults disk.new ≡ D.read_faults disk.old }
{
    let slot = slot_with(payload);
    let (bytes, _) = slot.split_at(8 + payload.len());
    put_settled(disk, at, bytes)
}

/// A slot with this payload: its head, the payload, and zeros behind it.
fn slot_with(payload: &[u8]) -> [u8; 4096]
    requires { length payload.now ≤ payload_limit }
    ensures size { length result ≡ 4096 }
    ensures len { number_at 4 0 result ≡ length payload.now }
    ensures zeros { number_at 4 4 result ≡ 0 }
    ensures payload { bytes_at 8 (length payload.now) result ≡ payload.now }
{
    let mut slot = [0; 4096];
    put_part(&mut slot, 0, &slot_head(payload.len() as u32));
    put_part(&mut slot, 8, payload);
    slot
}

/// Puts these bytes over what stands from `at` on.
fn put_part(bytes: &mut [u8], at: usize, part: &[u8])
    requires { at + length part.now ≤ length bytes.old }
    ensures { bytes.new ≡ overwritten bytes.old at part.now }
{
    bytes[at..at + part.len()].copy_from_slice(part);
}

/// The first 8 bytes of a slot: the length of its payload, and zeros.
fn slot_head(len: u32) -> [u8; 8]
    ensures size { length result ≡ 8 }
    ensures len { be_number (take 4 result) ≡ len }
    ensures zeros { be_number (take 4 (drop 4 result)) ≡ 0 }
{
    let bytes = u32::to_be_bytes(len);
    [bytes[0], bytes[1], bytes[2], bytes[3], 0, 0, 0, 0]
}
