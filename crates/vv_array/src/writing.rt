//! Writing the chunks of a write.
ghost use Rattle.std.specs.Prelude.{◌≡◌, ◌≤◌, ◌<◌, ◌+◌, ◌-◌, ◌*◌, ◌/◌, ◌↔◌, ℕ, List, [], ◌∷◌, Some, map, take, drop, length, IsTrue, OnOk};
ghost use Rattle.std.specs.List.{list_all};
ghost use Rattle.vv_units.specs.Sizes.{block_bytes};
ghost use Rattle.vv_units.specs.declared.numbers.Place.{Place as place};
ghost use Rattle.vv_disk.specs.Images.{Follows, LeavesOnly};
ghost use Rattle.vv_data.specs.Layout.{chunk_bytes, disk_len};
ghost use Rattle.vv_flat.specs.Lists.{all_different};
ghost use Rattle.vv_flat.specs.State.{Volume, volume_of};
ghost use Rattle.vv_flat.specs.Chunks.{Entry as SeenEntry, filled_tables, volume_blocks, touched_indexes, overwritten};
ghost use Rattle.vv_flat.specs.Changes.{Write};
ghost use Rattle.vv_flat.specs.Replay.{is_fresh};
ghost use Rattle.vv_flat.specs.Flat.{new_values};
ghost use Rattle.vv_image.specs.Standing.{bytes_at_place};
ghost use Rattle.vv_array.specs.Chunks.{DiffersAt, ToldAt, HasNew};
ghost use Rattle.vv_array.specs.ChunkBytes.{volume_chunk, volume_size, ChangedAt};
ghost use Rattle.vv_array.specs.DiskCauses.{HasCauses};

use crate::chunks::{read_around, write_place};
use vv_core::Core;
use vv_disk::Disk;
use vv_units::{DiskFault, Geometry, Place, VolumeId, touched};

/// The bytes of a block.
const BLOCK_BYTES: u64 = 512;

/// A chunk that is to be written: its volume, its index there, and its new place.
#[derive(Clone, Copy)]
struct NewChunk {
    volume: VolumeId,
    index: u32,
    place: Place,
}

/// Where the new bytes of a write from a block on begin in the chunk at an index, in bytes.
fn piece_start(geometry: Geometry, first: u64, index: u32) -> u32
    requires low { first < 2147483648 }
    requires touched { first * block_bytes < index * chunk_bytes geometry + chunk_bytes geometry }
    ensures start { result ≡ first * block_bytes - index * chunk_bytes geometry }
    ensures within { result < chunk_bytes geometry }
{
    let size = u64::from(geometry.chunk_blocks) * BLOCK_BYTES;
    (first * BLOCK_BYTES).saturating_sub(u64::from(index) * size) as u32
}

/// Those of the new bytes that lie in the chunk at an index, from byte `at` of it on.
fn piece_of(geometry: Geometry, first: u64, bytes: &[u8], index: u32, at: u32) -> &[u8]
    requires low { first < 2147483648 }
    requires within { at ≤ chunk_bytes geometry }
    requires touched { index * chunk_bytes geometry ≤ first * block_bytes + length bytes.now }
    ensures piece { result.now ≡ take (chunk_bytes geometry - at) (drop (index * chunk_bytes geometry - first * block_bytes) bytes.now) }
    ensures fits { at + length result.now ≤ chunk_bytes geometry }
{
    let size = u64::from(geometry.chunk_blocks) * BLOCK_BYTES;
    let start = (u64::from(index) * size).saturating_sub(first * BLOCK_BYTES);
    let (_, rest) = bytes.split_at(start as usize);
    let room = size - u64::from(at);
    let (piece, _) = rest.split_at(rest.len().min(room as usize));
    piece
}

/// Writes a chunk of a volume to its new place, with a piece of new bytes in it from byte `at` on. A piece that is the whole
/// chunk is written as it is; else what it doesn't cover is read where the chunk stood, by way of a buffer.
fn write_piece<D: Disk>(
    core: &Core,
    disk: &mut D,
    chunk: NewChunk,
    at: u32,
    piece: &[u8],
    buffer: &mut [u8],
) -> Result<(), DiskFault>
    requires disk { D.size disk.old ≡ disk_len core.now.array.durable.geometry }
    requires index { chunk.index < volume_size core.now.array.durable chunk.volume.0 }
    requires place { chunk.place.0 < core.now.array.durable.geometry.pool_chunks }
    requires piece { at + length piece.now ≤ chunk_bytes core.now.array.durable.geometry }
    requires buffer { length buffer.old ≡ chunk_bytes core.now.array.durable.geometry }

    ensures new { OnOk result ((c c' : List ℕ) → D.content disk.old ≡ Some c → D.content disk.new ≡ Some c'
        → bytes_at_place core.now.array.durable.geometry c' chunk.place.0
        ≡ overwritten (volume_chunk (filled_tables (bytes_at_place core.now.array.durable.geometry c) core.now.array.durable) chunk.volume.0 chunk.index) at piece.now) }
    ensures told { ToldAt core.now.array.durable.geometry (chunk.place.0 ∷ []) (D.content disk.old) (D.content disk.new) }
    ensures each { D.is_honest disk.old → Follows (DiffersAt core.now.array.durable.geometry (chunk.place.0 ∷ [])) (D.is_image disk.old) (D.is_image disk.new) }
    ensures any_moment { D.is_honest disk.old → LeavesOnly D.moment D.left_since disk.old disk.new (ChangedAt core.now.array.durable.geometry (chunk.place.0 ∷ []) (D.is_image disk.old)) }

    ensures cause { HasCauses (D.read_faults disk.old) (D.read_faults disk.new) (D.write_faults disk.old) (D.write_faults disk.new) result }
    ensures len { D.size disk.new ≡ D.size disk.old }
    ensures honesty { D.is_honest disk.new ↔ D.is_honest disk.old }
{
    let geometry = core.geometry();
    if piece.len() == buffer.len() {
        return write_place(disk, geometry, chunk.place, piece);
    }
    let from = core.place_in_volume(chunk.volume, chunk.index);
    read_around(disk, geometry, from, at, piece, buffer)?;
    write_place(disk, geometry, chunk.place, buffer)
}

/// Writes the chunks of a write of so many blocks from a block of a volume on to their places, in rising order of their
/// indexes: what of the first and of the last isn't written is read where these chunks stood. They are put on the disk for
/// sure by what comes next.
pub(crate) fn write_blocks<D: Disk>(
    core: &Core,
    disk: &mut D,
    volume: VolumeId,
    first: u64,
    blocks: u32,
    bytes: &[u8],
    places: &[Place],
    buffer: &mut [u8],
) -> Result<(), DiskFault>
    requires disk { D.size disk.old ≡ disk_len core.now.array.durable.geometry }
    requires some { 1 ≤ blocks }
    requires bytes { length bytes.now ≡ blocks * block_bytes }
    requires stands { (v : Volume SeenEntry) × (volume_of core.now.array.durable volume.0 ≡ Some v)
        × (first + blocks ≤ volume_blocks core.now.array.durable.geometry.chunk_blocks v.chunks) }
    requires count { length places.now ≡ length (touched_indexes core.now.array.durable.geometry.chunk_blocks first blocks) }
    requires different { IsTrue (all_different (map (λ (p : place). p.0) places.now)) }
    requires fresh { IsTrue (list_all (is_fresh core.now.array.durable) (map (λ (p : place). p.0) places.now)) }
    requires buffer { length buffer.old ≡ chunk_bytes core.now.array.durable.geometry }

    ensures new { OnOk result ((c c' : List ℕ) → D.content disk.old ≡ Some c → D.content disk.new ≡ Some c'
        → HasNew core.now.array.durable (Write volume.0 first blocks) (map (λ (p : place). p.0) places.now)
        (new_values (filled_tables (bytes_at_place core.now.array.durable.geometry c) core.now.array.durable) (Write volume.0 first blocks) bytes.now) c') }
    ensures told { ToldAt core.now.array.durable.geometry (map (λ (p : place). p.0) places.now) (D.content disk.old) (D.content disk.new) }
    ensures each { D.is_honest disk.old → Follows (DiffersAt core.now.array.durable.geometry (map (λ (p : place). p.0) places.now)) (D.is_image disk.old) (D.is_image disk.new) }
    ensures any_moment { D.is_honest disk.old → LeavesOnly D.moment D.left_since disk.old disk.new
        (ChangedAt core.now.array.durable.geometry (map (λ (p : place). p.0) places.now) (D.is_image disk.old)) }

    ensures cause { HasCauses (D.read_faults disk.old) (D.read_faults disk.new) (D.write_faults disk.old) (D.write_faults disk.new) result }
    ensures len { D.size disk.new ≡ D.size disk.old }
    ensures honesty { D.is_honest disk.new ↔ D.is_honest disk.old }
{
    let geometry = core.geometry();
    let _well_formed = core.lsn();
    let (mut index, _) = touched(first, blocks, geometry.chunk_blocks);
    for place in places {
        let at = piece_start(geometry, first, index);
        let piece = piece_of(geometry, first, bytes, index, at);
        let chunk = NewChunk {
            volume,
            index,
            place: *place,
        };
        write_piece(core, disk, chunk, at, piece, buffer)?;
        index += 1;
    }
    Ok(())
}
