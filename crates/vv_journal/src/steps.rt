//! Writes and syncs of a disk.
ghost use Rattle.std.specs.Prelude.{◌≡◌, ◌≤◌, ◌+◌, ◌↔◌, List, ℕ, length, option_map, OnOk, IfErr, IfSome};
ghost use Rattle.vv_units.specs.Causes.{HasCause};
ghost use Rattle.vv_disk.specs.Images.{bytes_at, overwritten, ToldWithin, OnlyTold, LeavesOnly, EachImage, Elapses};
ghost use Rattle.vv_journal.specs.Calls.{ChangedWithin, LiesIn};

use vv_disk::Disk;
use vv_units::DiskFault;

/// Writes these bytes from `at` on.
pub(crate) fn put<D: Disk>(disk: &mut D, at: u64, bytes: &[u8]) -> Result<(), DiskFault>
    requires { at + length bytes.now ≤ D.size disk.old }

    ensures ok { OnOk result (D.content disk.new ≡ option_map (λ c. overwritten c at bytes.now) (D.content disk.old)) }
    ensures told { ToldWithin at (length bytes.now) (D.content disk.old) (D.content disk.new) }
    ensures each { D.is_honest disk.old → EachImage (ChangedWithin at (length bytes.now) (D.is_image disk.old)) (D.is_image disk.new) }
    ensures time { Elapses (D.moment disk.old) (D.moment disk.new) (D.left_since disk.old) (D.left_since disk.new) (D.is_image disk.new) }
    ensures any_moment { D.is_honest disk.old → LeavesOnly D.moment D.left_since disk.old disk.new (ChangedWithin at (length bytes.now) (D.is_image disk.old)) }

    ensures len { D.size disk.new ≡ D.size disk.old }
    ensures honesty { D.is_honest disk.new ↔ D.is_honest disk.old }
    ensures fault { IfErr result (λ fault. fault ≡ DiskFault.Write) }
    ensures cause { HasCause (D.write_faults disk.old) (D.write_faults disk.new) result }
    ensures read_faults { D.read_faults disk.new ≡ D.read_faults disk.old }
{
    match disk.write(at, bytes) {
        Ok(()) => Ok(()),
        Err(_) => Err(DiskFault::Write),
    }
}

/// Puts all that was written on the disk for sure.
pub(crate) fn settle<D: Disk>(disk: &mut D) -> Result<(), DiskFault>
    ensures ok { OnOk result (D.is_honest disk.old → OnlyTold (D.content disk.new) (D.is_image disk.new)) }
    ensures content { D.content disk.new ≡ D.content disk.old }
    ensures each { D.is_honest disk.old → EachImage (D.is_image disk.old) (D.is_image disk.new) }
    ensures time { Elapses (D.moment disk.old) (D.moment disk.new) (D.left_since disk.old) (D.left_since disk.new) (D.is_image disk.new) }

    ensures len { D.size disk.new ≡ D.size disk.old }
    ensures honesty { D.is_honest disk.new ↔ D.is_honest disk.old }
    ensures fault { IfErr result (λ fault. fault ≡ DiskFault.Write) }
    ensures cause { HasCause (D.write_faults disk.old) (D.write_faults disk.new) result }
    ensures read_faults { D.read_faults disk.new ≡ D.read_faults disk.old }
{
    match disk.sync() {
        Ok(()) => Ok(()),
        Err(_) => Err(DiskFault::Write),
    }
}

/// Writes these bytes from `at` on, and syncs.
pub(crate) fn put_settled<D: Disk>(disk: &mut D, at: u64, bytes: &[u8]) -> Result<(), DiskFault>
    requires { at + length bytes.now ≤ D.size disk.old }

    ensures ok { OnOk result (D.content disk.new ≡ option_map (λ c. overwritten c at bytes.now) (D.content disk.old)) }
    ensures only { OnOk result (D.is_honest disk.old → OnlyTold (D.content disk.new) (D.is_image disk.new)) }
    ensures told { ToldWithin at (length bytes.now) (D.content disk.old) (D.content disk.new) }
    ensures each { D.is_honest disk.old → EachImage (ChangedWithin at (length bytes.now) (D.is_image disk.old)) (D.is_image disk.new) }
    ensures any_moment { D.is_honest disk.old → LeavesOnly D.moment D.left_since disk.old disk.new (ChangedWithin at (length bytes.now) (D.is_image disk.old)) }

    ensures len { D.size disk.new ≡ D.size disk.old }
    ensures honesty { D.is_honest disk.new ↔ D.is_honest disk.old }
    ensures fault { IfErr result (λ fault. fault ≡ DiskFault.Write) }
    ensures cause { HasCause (D.write_faults disk.old) (D.write_faults disk.new) result }
    ensures read_faults { D.read_faults disk.new ≡ D.read_faults disk.old }
{
    put(disk, at, bytes)?;
    settle(disk)?;
    Ok(())
}

/// Writes bytes at two places, the one after the other. What holds of a range with both is said of every such range.
pub(crate) fn put_both<D: Disk>(
    disk: &mut D,
    first_at: u64,
    first: &[u8],
    second_at: u64,
    second: &[u8],
) -> Result<(), DiskFault>
    requires first { first_at + length first.now ≤ D.size disk.old }
    requires second { second_at + length second.now ≤ D.size disk.old }

    ensures ok { OnOk result (D.content disk.new ≡ option_map (λ c. overwritten (overwritten c first_at first.now) second_at second.now) (D.content disk.old)) }
    ensures told { (at n : ℕ) → LiesIn first_at (length first.now) at n → LiesIn second_at (length second.now) at n → ToldWithin at n (D.content disk.old) (D.content disk.new) }
    ensures any_moment { D.is_honest disk.old → (at n : ℕ) → LiesIn first_at (length first.now) at n → LiesIn second_at (length second.now) at n
        → LeavesOnly D.moment D.left_since disk.old disk.new (ChangedWithin at n (D.is_image disk.old)) }

    ensures len { D.size disk.new ≡ D.size disk.old }
    ensures honesty { D.is_honest disk.new ↔ D.is_honest disk.old }
    ensures fault { IfErr result (λ fault. fault ≡ DiskFault.Write) }
    ensures cause { HasCause (D.write_faults disk.old) (D.write_faults disk.new) result }
    ensures read_faults { D.read_faults disk.new ≡ D.read_faults disk.old }
{
    put(disk, first_at, first)?;
    put(disk, second_at, second)?;
    Ok(())
}

/// Reads the bytes from `at` on that fill `into`.
pub(crate) fn get<D: Disk>(disk: &mut D, at: u64, into: &mut [u8]) -> Result<(), DiskFault>
    requires { at + length into.old ≤ D.size disk.old }

    ensures bytes { OnOk result (IfSome (D.content disk.old) (λ c. into.new ≡ bytes_at at (length into.old) c)) }
    ensures fault { IfErr result (λ fault. fault ≡ DiskFault.Read) }
    ensures cause { HasCause (D.read_faults disk.old) (D.read_faults disk.new) result }

    ensures len { D.size disk.new ≡ D.size disk.old }
    ensures content { D.content disk.new ≡ D.content disk.old }
    ensures write_faults { D.write_faults disk.new ≡ D.write_faults disk.old }

    ensures images { (image : List ℕ) → D.is_image disk.new image ↔ D.is_image disk.old image }
    ensures time { Elapses (D.moment disk.old) (D.moment disk.new) (D.left_since disk.old) (D.left_since disk.new) (D.is_image disk.new) }
    ensures honesty { D.is_honest disk.new ↔ D.is_honest disk.old }
{
    match disk.read(at, into) {
        Ok(()) => Ok(()),
        Err(_) => Err(DiskFault::Read),
    }
}
