//! Blocks that are read, with the memory for them.
ghost use Rattle.std.specs.Prelude.{◌≡◌, ◌≢◌, ◌≤◌, ◌+◌, ◌*◌, ◌↔◌, ℕ, List, Some, length, IfOk, IfSome, OnOk, OnErr};
ghost use Rattle.vv_units.specs.Causes.{HasCause};
ghost use Rattle.vv_units.specs.Sizes.{block_bytes};
ghost use Rattle.vv_disk.specs.Images.{LeavesOnly};
ghost use Rattle.vv_data.specs.Layout.{disk_len};
ghost use Rattle.vv_flat.specs.State.{Volume, volume_of};
ghost use Rattle.vv_flat.specs.Chunks.{Entry as SeenEntry, filled_tables, volume_blocks};
ghost use Rattle.vv_image.specs.Standing.{bytes_at_place};
ghost use Rattle.vv_meaning.specs.Meaning.{blocks_at};

use crate::reading::read_blocks;
use std::alloc::Global;
use vv_core::Core;
use vv_disk::Disk;
use vv_units::{DiskFault, NoMemory, VolumeId};

/// The bytes of a block.
const BLOCK_BYTES: usize = 512;

/// Bytes for so many blocks.
pub(crate) fn block_buffer(alloc: Global, blocks: u32) -> Result<Vec<u8>, NoMemory>
    ensures { IfOk result (λ buffer. length buffer.items ≡ blocks * block_bytes) }
{
    vec![in alloc; 0; blocks as usize * BLOCK_BYTES].map_err(|_| NoMemory)
}

/// Reads so many blocks of a volume from a block on, if it is any.
pub(crate) fn read_some<D: Disk>(
    core: &Core,
    disk: &mut D,
    volume: VolumeId,
    first: u64,
    blocks: u32,
    into: &mut [u8],
) -> Result<(), DiskFault>
    requires disk { D.size disk.old ≡ disk_len core.now.array.durable.geometry }
    requires buffer { length into.old ≡ blocks * block_bytes }
    requires stands { (v : Volume SeenEntry) × (volume_of core.now.array.durable volume.0 ≡ Some v)
        × (first + blocks ≤ volume_blocks core.now.array.durable.geometry.chunk_blocks v.chunks) }

    ensures read { OnOk result (IfSome (D.content disk.old)
        (λ c. into.new ≡ blocks_at (filled_tables (bytes_at_place core.now.array.durable.geometry c) core.now.array.durable) volume.0 first blocks)) }
    ensures some { OnErr result (blocks ≢ 0) }
    ensures cause { HasCause (D.read_faults disk.old) (D.read_faults disk.new) result }

    ensures len { D.size disk.new ≡ D.size disk.old }
    ensures content { D.content disk.new ≡ D.content disk.old }
    ensures write_faults { D.write_faults disk.new ≡ D.write_faults disk.old }
    ensures images { (image : List ℕ) → D.is_image disk.new image ↔ D.is_image disk.old image }
    ensures any_moment { LeavesOnly D.moment D.left_since disk.old disk.new (D.is_image disk.old) }
    ensures honesty { D.is_honest disk.new ↔ D.is_honest disk.old }
{
    if blocks == 0 {
        return Ok(());
    }
    read_blocks(core, disk, volume, first, blocks, into)
}
