//! Making a fresh image.
ghost use Rattle.std.specs.Prelude.{◌≡◌, ◌≤◌, ◌+◌, ◌-◌, ◌↔◌, List, ℕ, [], ◌∷◌, length, OnOk, IfOk, IfErr, IfSome};
ghost use Rattle.vv_units.specs.Causes.{HasCause};
ghost use Rattle.vv_fields.specs.Fields.{be_number};
ghost use Rattle.vv_disk.specs.Images.{bytes_at, overwritten, EachImage, LeavesOnly, OnlyTold, ToldWithin};
ghost use Rattle.vv_data.specs.Layout.{area_bytes, disk_len, half_at};
ghost use Rattle.vv_journal.specs.Header.{magic};
ghost use Rattle.vv_journal.specs.Log.{Holds, fresh_log};
ghost use Rattle.vv_journal.specs.Calls.{journal_of, ChangedWithin, IsBeingMade};

use crate::Journal;
use crate::half::{length_field, shut_gates};
use crate::layout::{SELECTOR_AT, gates_start, half_start};
use crate::opening::FORMATTED;
use crate::steps::{put_both, put_settled};
use vv_disk::Disk;
use vv_units::{DiskFault, Geometry};

/// Where the fields of the header begin.
const FIELDS_AT: u64 = 8;

/// Makes a fresh image of version 2, with these tables and no record. At every moment, and after an error, a crash
/// leaves an image from before but for its first byte, or one that isn't formatted, or the fresh log.
pub fn format<D: Disk>(disk: &mut D, geometry: Geometry, empty: &[u8]) -> Result<Journal, DiskFault>
    requires disk { D.size disk.old ≡ disk_len geometry }
    requires empty { 8 + length empty.now ≤ area_bytes geometry }

    ensures ok { OnOk result (D.is_honest disk.old → EachImage (Holds (fresh_log geometry empty.now)) (D.is_image disk.new)) }
    ensures journal { IfOk result (λ journal. journal ≡ journal_of (fresh_log geometry empty.now)) }
    ensures any_moment { D.is_honest disk.old → LeavesOnly D.moment D.left_since disk.old disk.new (IsBeingMade geometry empty.now (D.is_image disk.old)) }

    // What is read of the second half and of the chunk area stays.
    ensures told { ToldWithin 0 (half_at geometry 1) (D.content disk.old) (D.content disk.new) }

    ensures len { D.size disk.new ≡ D.size disk.old }
    ensures honesty { D.is_honest disk.new ↔ D.is_honest disk.old }
    ensures fault { IfErr result (λ fault. fault ≡ DiskFault.Write) }
    ensures cause { HasCause (D.write_faults disk.old) (D.write_faults disk.new) result }
    ensures read_faults { D.read_faults disk.new ≡ D.read_faults disk.old }
{
    put_settled(disk, 0, &[0])?;
    put_fresh(disk, geometry, empty)?;
    put_settled(disk, 0, &[FORMATTED])?;
    Ok(Journal::new(geometry, 0, 0))
}

/// Writes all of a fresh image but the format's byte, and syncs.
fn put_fresh<D: Disk>(disk: &mut D, geometry: Geometry, empty: &[u8]) -> Result<(), DiskFault>
    requires disk { D.size disk.old ≡ disk_len geometry }
    requires empty { 8 + length empty.now ≤ area_bytes geometry }

    ensures stands { OnOk result (IfSome (D.content disk.new) (λ c. Holds (fresh_log geometry empty.now) (overwritten c 0 (0xA5 ∷ [])))) }
    ensures only { OnOk result (D.is_honest disk.old → OnlyTold (D.content disk.new) (D.is_image disk.new)) }
    ensures told { ToldWithin 1 (half_at geometry 1 - 1) (D.content disk.old) (D.content disk.new) }
    ensures any_moment { D.is_honest disk.old → LeavesOnly D.moment D.left_since disk.old disk.new (ChangedWithin 1 (half_at geometry 1 - 1) (D.is_image disk.old)) }

    ensures len { D.size disk.new ≡ D.size disk.old }
    ensures honesty { D.is_honest disk.new ↔ D.is_honest disk.old }
    ensures fault { IfErr result (λ fault. fault ≡ DiskFault.Write) }
    ensures cause { HasCause (D.write_faults disk.old) (D.write_faults disk.new) result }
    ensures read_faults { D.read_faults disk.new ≡ D.read_faults disk.old }
{
    put_both(disk, FIELDS_AT, &header_fields(geometry), SELECTOR_AT, &[0])?;
    let start = half_start(geometry, 0);
    let field = length_field(empty.len() as u64);
    put_both(disk, start, &field, start + 8, empty)?;
    put_settled(disk, gates_start(geometry, 0), &shut_gates())?;
    Ok(())
}

/// The fields of the header of an image of version 2: the magic bytes, the version, and the sizes.
fn header_fields(geometry: Geometry) -> [u8; 24]
    ensures size { length result ≡ 24 }
    ensures words { be_number (bytes_at 0 8 result) ≡ magic }
    ensures version { be_number (bytes_at 8 4 result) ≡ 2 }
    ensures chunk_blocks { be_number (bytes_at 12 4 result) ≡ geometry.chunk_blocks }
    ensures pool_chunks { be_number (bytes_at 16 4 result) ≡ geometry.pool_chunks }
    ensures map_chunks { be_number (bytes_at 20 4 result) ≡ geometry.map_chunks }
{
    let b = u32::to_be_bytes(geometry.chunk_blocks);
    let c = u32::to_be_bytes(geometry.pool_chunks);
    let p = u32::to_be_bytes(geometry.map_chunks);
    [
        b'V', b'V', b'A', b'R', b'R', b'A', b'Y', b'1', 0, 0, 0, 2, b[0], b[1], b[2], b[3], c[0],
        c[1], c[2], c[3], p[0], p[1], p[2], p[3],
    ]
}
