//! Chunks are read and written where their places stand. The caller syncs.
ghost use Rattle.std.specs.Prelude.{◌≡◌, ◌<◌, ◌≤◌, ◌+◌, ◌↔◌, List, ℕ, length, option_map, OnOk, OnErr, IfErr, IfSome};
ghost use Rattle.vv_units.specs.Causes.{HasCause};
ghost use Rattle.vv_disk.specs.Images.{bytes_at, overwritten, DiffersWithin, ToldWithin, Follows, Elapses};
ghost use Rattle.vv_data.specs.Layout.{chunk_bytes, chunks_at, disk_len, place_range, chunk_at};

use vv_disk::Disk;
use vv_units::{DiskFault, Geometry, Place};

const BLOCK_BYTES: u64 = 512;

const HEADER_BYTES: u64 = 4096;

const TABLE_BYTES: u64 = 1_048_576;

const GATE_BYTES: u64 = 256;

const SLOT_BYTES: u64 = 1_048_576;

/// Reads the whole chunk at this place.
pub fn read_chunk<D: Disk>(
    disk: &mut D,
    geometry: Geometry,
    place: Place,
    into: &mut [u8],
) -> Result<(), DiskFault>
    requires disk { D.size disk.old ≡ disk_len geometry }
    requires place { place.0 < geometry.pool_chunks }
    requires chunk { length into.old ≡ chunk_bytes geometry }

    ensures bytes { OnOk result (IfSome (D.content disk.old) (λ c. into.new ≡ chunk_at geometry place c)) }
    ensures fault { IfErr result (λ fault. fault ≡ DiskFault.Read) }
    ensures cause { HasCause (D.read_faults disk.old) (D.read_faults disk.new) result }

    ensures len { D.size disk.new ≡ D.size disk.old }
    ensures content { D.content disk.new ≡ D.content disk.old }
    ensures write_faults { D.write_faults disk.new ≡ D.write_faults disk.old }

    ensures images { (image : List ℕ) → D.is_image disk.new image ↔ D.is_image disk.old image }
    ensures time { Elapses (D.moment disk.old) (D.moment disk.new) (D.left_since disk.old) (D.left_since disk.new) (D.is_image disk.new) }
    ensures honesty { D.is_honest disk.new ↔ D.is_honest disk.old }
{
    match disk.read(place_start(geometry, place), into) {
        Ok(()) => Ok(()),
        Err(_) => Err(DiskFault::Read),
    }
}

/// Reads a part of the chunk at this place, from byte `at` of the chunk on.
pub fn read_part<D: Disk>(
    disk: &mut D,
    geometry: Geometry,
    place: Place,
    at: u32,
    into: &mut [u8],
) -> Result<(), DiskFault>
    requires disk { D.size disk.old ≡ disk_len geometry }
    requires place { place.0 < geometry.pool_chunks }
    requires part { at + length into.old ≤ chunk_bytes geometry }

    ensures bytes { OnOk result (IfSome (D.content disk.old) (λ c. into.new ≡ bytes_at at (length into.old) (chunk_at geometry place c))) }
    ensures fault { IfErr result (λ fault. fault ≡ DiskFault.Read) }
    ensures cause { HasCause (D.read_faults disk.old) (D.read_faults disk.new) result }

    ensures len { D.size disk.new ≡ D.size disk.old }
    ensures content { D.content disk.new ≡ D.content disk.old }
    ensures write_faults { D.write_faults disk.new ≡ D.write_faults disk.old }

    ensures images { (image : List ℕ) → D.is_image disk.new image ↔ D.is_image disk.old image }
    ensures time { Elapses (D.moment disk.old) (D.moment disk.new) (D.left_since disk.old) (D.left_since disk.new) (D.is_image disk.new) }
    ensures honesty { D.is_honest disk.new ↔ D.is_honest disk.old }
{
    match disk.read(place_start(geometry, place) + u64::from(at), into) {
        Ok(()) => Ok(()),
        Err(_) => Err(DiskFault::Read),
    }
}

/// Writes the whole chunk at this place.
pub fn write_chunk<D: Disk>(
    disk: &mut D,
    geometry: Geometry,
    place: Place,
    bytes: &[u8],
) -> Result<(), DiskFault>
    requires disk { D.size disk.old ≡ disk_len geometry }
    requires place { place.0 < geometry.pool_chunks }
    requires chunk { length bytes.now ≡ chunk_bytes geometry }

    ensures ok { OnOk result (D.content disk.new ≡ option_map (λ c. overwritten c (place_range geometry place).at bytes.now) (D.content disk.old)) }
    ensures err { OnErr result (ToldWithin (place_range geometry place).at (place_range geometry place).len (D.content disk.old) (D.content disk.new)) }
    ensures fault { IfErr result (λ fault. fault ≡ DiskFault.Write) }
    ensures cause { HasCause (D.write_faults disk.old) (D.write_faults disk.new) result }

    ensures len { D.size disk.new ≡ D.size disk.old }
    ensures read_faults { D.read_faults disk.new ≡ D.read_faults disk.old }

    ensures images { D.is_honest disk.old → Follows (DiffersWithin (place_range geometry place).at (place_range geometry place).len)
        (D.is_image disk.old) (D.is_image disk.new) }
    ensures time { Elapses (D.moment disk.old) (D.moment disk.new) (D.left_since disk.old) (D.left_since disk.new) (D.is_image disk.new) }
    ensures honesty { D.is_honest disk.new ↔ D.is_honest disk.old }
{
    match disk.write(place_start(geometry, place), bytes) {
        Ok(()) => Ok(()),
        Err(_) => Err(DiskFault::Write),
    }
}

/// Where the chunk area stands.
pub(crate) fn area_start(geometry: Geometry) -> u64
    ensures { result ≡ chunks_at geometry }
{
    let half = 16 * u64::from(geometry.map_chunks) + TABLE_BYTES + GATE_BYTES + SLOT_BYTES;
    HEADER_BYTES + 2 * half
}

/// Where the chunk of a place stands.
fn place_start(geometry: Geometry, place: Place) -> u64
    requires { place.0 < geometry.pool_chunks }
    ensures start { result ≡ (place_range geometry place).at }
    ensures fits { result + chunk_bytes geometry ≤ disk_len geometry }
{
    let block = u64::from(place.0) * u64::from(geometry.chunk_blocks);
    area_start(geometry) + block * BLOCK_BYTES
}
