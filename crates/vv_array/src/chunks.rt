//! One chunk on a disk: read from where it stands, and written to its place.
ghost use Rattle.std.specs.Prelude.{◌≡◌, ◌≤◌, ◌<◌, ◌+◌, ◌↔◌, ℕ, List, [], ◌∷◌, length, OnOk, IfErr, IfSome};
ghost use Rattle.vv_units.specs.Causes.{HasCause};
ghost use Rattle.vv_disk.specs.Images.{bytes_at, Follows, LeavesOnly};
ghost use Rattle.vv_data.specs.Layout.{chunk_bytes, disk_len};
ghost use Rattle.vv_flat.specs.Chunks.{overwritten};
ghost use Rattle.vv_image.specs.Standing.{bytes_at_place};
ghost use Rattle.vv_array.specs.Chunks.{DiffersAt, ToldAt};
ghost use Rattle.vv_array.specs.ChunkBytes.{place_number, stored, ChangedAt};

use vv_data::{read_part, write_chunk};
use vv_disk::Disk;
use vv_units::{DiskFault, Geometry, Place};

/// Reads a part of the chunk at a place, from byte `at` of the chunk on: of a chunk without a place, zeros. An empty part
/// isn't read.
pub(crate) fn read_stored<D: Disk>(
    disk: &mut D,
    geometry: Geometry,
    place: Option<Place>,
    at: u32,
    into: &mut [u8],
) -> Result<(), DiskFault>
    requires disk { D.size disk.old ≡ disk_len geometry }
    requires place { IfSome place (λ p. p.0 < geometry.pool_chunks) }
    requires part { at + length into.old ≤ chunk_bytes geometry }

    ensures bytes { OnOk result (IfSome (D.content disk.old) (λ c. into.new ≡ bytes_at at (length into.old) (stored geometry c (place_number place)))) }
    ensures fault { IfErr result (λ fault. fault ≡ DiskFault.Read) }
    ensures cause { HasCause (D.read_faults disk.old) (D.read_faults disk.new) result }

    ensures len { D.size disk.new ≡ D.size disk.old }
    ensures content { D.content disk.new ≡ D.content disk.old }
    ensures write_faults { D.write_faults disk.new ≡ D.write_faults disk.old }

    ensures images { (image : List ℕ) → D.is_image disk.new image ↔ D.is_image disk.old image }
    ensures any_moment { LeavesOnly D.moment D.left_since disk.old disk.new (D.is_image disk.old) }
    ensures honesty { D.is_honest disk.new ↔ D.is_honest disk.old }
{
    if into.is_empty() {
        return Ok(());
    }
    match place {
        Some(place) => read_part(disk, geometry, place, at, into),
        None => {
            into.fill(0);
            Ok(())
        }
    }
}

/// Fills a buffer with the chunk at a place as it is once a piece is put over it, from byte `at` of the chunk on. Only what
/// the piece doesn't cover is read.
pub(crate) fn read_around<D: Disk>(
    disk: &mut D,
    geometry: Geometry,
    place: Option<Place>,
    at: u32,
    piece: &[u8],
    buffer: &mut [u8],
) -> Result<(), DiskFault>
    requires disk { D.size disk.old ≡ disk_len geometry }
    requires place { IfSome place (λ p. p.0 < geometry.pool_chunks) }
    requires piece { at + length piece.now ≤ chunk_bytes geometry }
    requires buffer { length buffer.old ≡ chunk_bytes geometry }

    ensures bytes { OnOk result (IfSome (D.content disk.old) (λ c. buffer.new ≡ overwritten (stored geometry c (place_number place)) at piece.now)) }
    ensures fault { IfErr result (λ fault. fault ≡ DiskFault.Read) }
    ensures cause { HasCause (D.read_faults disk.old) (D.read_faults disk.new) result }

    ensures len { D.size disk.new ≡ D.size disk.old }
    ensures content { D.content disk.new ≡ D.content disk.old }
    ensures write_faults { D.write_faults disk.new ≡ D.write_faults disk.old }

    ensures images { (image : List ℕ) → D.is_image disk.new image ↔ D.is_image disk.old image }
    ensures any_moment { LeavesOnly D.moment D.left_since disk.old disk.new (D.is_image disk.old) }
    ensures honesty { D.is_honest disk.new ↔ D.is_honest disk.old }
{
    let start = at as usize;
    let end = start + piece.len();
    read_stored(disk, geometry, place, 0, &mut buffer[..start])?;
    buffer[start..end].copy_from_slice(piece);
    read_stored(disk, geometry, place, end as u32, &mut buffer[end..])?;
    Ok(())
}

/// Writes a whole chunk to a place.
pub(crate) fn write_place<D: Disk>(
    disk: &mut D,
    geometry: Geometry,
    place: Place,
    bytes: &[u8],
) -> Result<(), DiskFault>
    requires disk { D.size disk.old ≡ disk_len geometry }
    requires place { place.0 < geometry.pool_chunks }
    requires chunk { length bytes.now ≡ chunk_bytes geometry }

    ensures new { OnOk result (IfSome (D.content disk.new) (λ c. bytes_at_place geometry c place.0 ≡ bytes.now)) }
    ensures told { ToldAt geometry (place.0 ∷ []) (D.content disk.old) (D.content disk.new) }
    ensures each { D.is_honest disk.old → Follows (DiffersAt geometry (place.0 ∷ [])) (D.is_image disk.old) (D.is_image disk.new) }
    ensures any_moment { D.is_honest disk.old → LeavesOnly D.moment D.left_since disk.old disk.new (ChangedAt geometry (place.0 ∷ []) (D.is_image disk.old)) }

    ensures fault { IfErr result (λ fault. fault ≡ DiskFault.Write) }
    ensures cause { HasCause (D.write_faults disk.old) (D.write_faults disk.new) result }
    ensures len { D.size disk.new ≡ D.size disk.old }
    ensures read_faults { D.read_faults disk.new ≡ D.read_faults disk.old }
    ensures honesty { D.is_honest disk.new ↔ D.is_honest disk.old }
{
    write_chunk(disk, geometry, place, bytes)
}
