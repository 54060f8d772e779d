//! Reading blocks of volumes.
ghost use Rattle.std.specs.Prelude.{◌≡◌, ◌≤◌, ◌<◌, ◌+◌, ◌-◌, ◌*◌, ◌/◌, ◌%◌, ◌↔◌, min, ℕ, List, Some, length, OnOk, IfErr, IfSome};
ghost use Rattle.vv_units.specs.Causes.{HasCause};
ghost use Rattle.vv_units.specs.Sizes.{block_bytes};
ghost use Rattle.vv_disk.specs.Images.{bytes_at, LeavesOnly};
ghost use Rattle.vv_data.specs.Layout.{chunk_bytes, disk_len};
ghost use Rattle.vv_flat.specs.State.{Volume, volume_of};
ghost use Rattle.vv_flat.specs.Chunks.{Entry as SeenEntry, filled_tables, volume_blocks};
ghost use Rattle.vv_image.specs.Standing.{bytes_at_place};
ghost use Rattle.vv_meaning.specs.Meaning.{blocks_at};
ghost use Rattle.vv_array.specs.ChunkBytes.{volume_chunk, volume_size};

use crate::chunks::read_stored;
use vv_core::Core;
use vv_disk::Disk;
use vv_units::{DiskFault, VolumeId};

/// The bytes of a block.
const BLOCK_BYTES: u32 = 512;

/// Blocks of one chunk: its index, the first of them in the chunk, and how many they are.
#[derive(Clone, Copy)]
struct Part {
    index: u32,
    first: u32,
    blocks: u32,
}

/// The part of so many blocks from a block on that lies in the chunk of the first of them.
fn first_part(chunk_blocks: u32, first: u64, blocks: u32) -> Part
    requires sized { 1 ≤ chunk_blocks }
    requires low { first < 2147483648 }
    ensures index { result.index ≡ first / chunk_blocks }
    ensures first { result.first ≡ first % chunk_blocks }
    ensures blocks { result.blocks ≡ min blocks (chunk_blocks - result.first) }
{
    let size = u64::from(chunk_blocks);
    let index = (first / size) as u32;
    let within = (first % size) as u32;
    Part {
        index,
        first: within,
        blocks: blocks.min(chunk_blocks - within),
    }
}

/// Reads a part of a chunk of a volume, from byte `at` of the chunk on: of an unmapped chunk, zeros.
fn read_piece<D: Disk>(
    core: &Core,
    disk: &mut D,
    volume: VolumeId,
    index: u32,
    at: u32,
    into: &mut [u8],
) -> Result<(), DiskFault>
    requires disk { D.size disk.old ≡ disk_len core.now.array.durable.geometry }
    requires index { index < volume_size core.now.array.durable volume.0 }
    requires part { at + length into.old ≤ chunk_bytes core.now.array.durable.geometry }

    ensures bytes { OnOk result (IfSome (D.content disk.old)
        (λ c. into.new ≡ bytes_at at (length into.old) (volume_chunk (filled_tables (bytes_at_place core.now.array.durable.geometry c) core.now.array.durable) volume.0 index))) }
    ensures fault { IfErr result (λ fault. fault ≡ DiskFault.Read) }
    ensures cause { HasCause (D.read_faults disk.old) (D.read_faults disk.new) result }

    ensures len { D.size disk.new ≡ D.size disk.old }
    ensures content { D.content disk.new ≡ D.content disk.old }
    ensures write_faults { D.write_faults disk.new ≡ D.write_faults disk.old }

    ensures images { (image : List ℕ) → D.is_image disk.new image ↔ D.is_image disk.old image }
    ensures any_moment { LeavesOnly D.moment D.left_since disk.old disk.new (D.is_image disk.old) }
    ensures honesty { D.is_honest disk.new ↔ D.is_honest disk.old }
{
    read_stored(
        disk,
        core.geometry(),
        core.place_in_volume(volume, index),
        at,
        into,
    )
}

/// Reads so many blocks of a volume from a block on, chunk by chunk: those of unmapped chunks are zeros.
pub(crate) fn read_blocks<D: Disk>(
    core: &Core,
    disk: &mut D,
    volume: VolumeId,
    first: u64,
    blocks: u32,
    into: &mut [u8],
) -> Result<(), DiskFault>
    requires disk { D.size disk.old ≡ disk_len core.now.array.durable.geometry }
    requires buffer { length into.old ≡ blocks * block_bytes }
    requires stands { (v : Volume SeenEntry) × (volume_of core.now.array.durable volume.0 ≡ Some v)
        × (first + blocks ≤ volume_blocks core.now.array.durable.geometry.chunk_blocks v.chunks) }

    ensures read { OnOk result (IfSome (D.content disk.old)
        (λ c. into.new ≡ blocks_at (filled_tables (bytes_at_place core.now.array.durable.geometry c) core.now.array.durable) volume.0 first blocks)) }
    ensures fault { IfErr result (λ fault. fault ≡ DiskFault.Read) }
    ensures cause { HasCause (D.read_faults disk.old) (D.read_faults disk.new) result }

    ensures len { D.size disk.new ≡ D.size disk.old }
    ensures content { D.content disk.new ≡ D.content disk.old }
    ensures write_faults { D.write_faults disk.new ≡ D.write_faults disk.old }

    ensures images { (image : List ℕ) → D.is_image disk.new image ↔ D.is_image disk.old image }
    ensures any_moment { LeavesOnly D.moment D.left_since disk.old disk.new (D.is_image disk.old) }
    ensures honesty { D.is_honest disk.new ↔ D.is_honest disk.old }
{
    let geometry = core.geometry();
    let _well_formed = core.lsn();
    let mut done = 0;
    while done < blocks {
        let part = first_part(
            geometry.chunk_blocks,
            first + u64::from(done),
            blocks - done,
        );
        let start = done as usize * BLOCK_BYTES as usize;
        let end = start + part.blocks as usize * BLOCK_BYTES as usize;
        read_piece(
            core,
            disk,
            volume,
            part.index,
            part.first * BLOCK_BYTES,
            &mut into[start..end],
        )?;
        done += part.blocks;
    }
    Ok(())
}
