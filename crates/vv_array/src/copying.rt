//! Copying the chunks of a clone's turn.
ghost use Rattle.std.specs.Prelude.{◌≡◌, ◌<◌, ◌↔◌, ℕ, List, [], ◌∷◌, Some, map, length, IsTrue, OnOk};
ghost use Rattle.std.specs.List.{list_all};
ghost use Rattle.vv_disk.specs.Images.{Follows, LeavesOnly};
ghost use Rattle.vv_data.specs.Layout.{chunk_bytes, disk_len};
ghost use Rattle.vv_flat.specs.Lists.{all_different};
ghost use Rattle.vv_flat.specs.Chunks.{Entry as SeenEntry, filled_tables};
ghost use Rattle.vv_flat.specs.Changes.{Turn, changed_indexes};
ghost use Rattle.vv_flat.specs.Replay.{is_fresh};
ghost use Rattle.vv_flat.specs.Flat.{new_values};
ghost use Rattle.vv_record.specs.declared.record.ChunkCopy.{ChunkCopy as copied};
ghost use Rattle.vv_image.specs.Standing.{bytes_at_place};
ghost use Rattle.vv_array.specs.Chunks.{DiffersAt, ToldAt, HasNew};
ghost use Rattle.vv_array.specs.ChunkBytes.{image_chunk, image_size, ChangedAt};
ghost use Rattle.vv_array.specs.DiskCauses.{HasCauses};

use crate::chunks::{read_stored, write_place};
use vv_core::Core;
use vv_disk::Disk;
use vv_record::ChunkCopy;
use vv_units::{DiskFault, TaskId};

/// Copies one chunk of the image of a running clone to its place, by way of a buffer.
fn copy_chunk<D: Disk>(
    core: &Core,
    disk: &mut D,
    task: TaskId,
    copy: ChunkCopy,
    buffer: &mut [u8],
) -> Result<(), DiskFault>
    requires disk { D.size disk.old ≡ disk_len core.now.array.durable.geometry }
    requires index { copy.index < image_size core.now.array.durable task.0 }
    requires place { copy.place.0 < core.now.array.durable.geometry.pool_chunks }
    requires buffer { length buffer.old ≡ chunk_bytes core.now.array.durable.geometry }

    ensures new { OnOk result ((c c' : List ℕ) → D.content disk.old ≡ Some c → D.content disk.new ≡ Some c'
        → bytes_at_place core.now.array.durable.geometry c' copy.place.0
        ≡ image_chunk (filled_tables (bytes_at_place core.now.array.durable.geometry c) core.now.array.durable) task.0 copy.index) }
    ensures told { ToldAt core.now.array.durable.geometry (copy.place.0 ∷ []) (D.content disk.old) (D.content disk.new) }
    ensures each { D.is_honest disk.old → Follows (DiffersAt core.now.array.durable.geometry (copy.place.0 ∷ [])) (D.is_image disk.old) (D.is_image disk.new) }
    ensures any_moment { D.is_honest disk.old → LeavesOnly D.moment D.left_since disk.old disk.new (ChangedAt core.now.array.durable.geometry (copy.place.0 ∷ []) (D.is_image disk.old)) }

    ensures cause { HasCauses (D.read_faults disk.old) (D.read_faults disk.new) (D.write_faults disk.old) (D.write_faults disk.new) result }
    ensures len { D.size disk.new ≡ D.size disk.old }
    ensures honesty { D.is_honest disk.new ↔ D.is_honest disk.old }
{
    let geometry = core.geometry();
    let from = core.place_in_image(task, copy.index);
    read_stored(disk, geometry, from, 0, buffer)?;
    write_place(disk, geometry, copy.place, buffer)
}

/// Copies the chunks of a clone's turn from its image to their places. They are put on the disk for sure by what comes next.
pub(crate) fn write_copies<D: Disk>(
    core: &Core,
    disk: &mut D,
    task: TaskId,
    copies: &[ChunkCopy],
    buffer: &mut [u8],
) -> Result<(), DiskFault>
    requires disk { D.size disk.old ≡ disk_len core.now.array.durable.geometry }
    requires indexes { map (λ (c : copied). c.index) copies.now ≡ changed_indexes (λ (e : SeenEntry). e.stamp) core.now.array.durable (Turn task.0) }
    requires different { IsTrue (all_different (map (λ (c : copied). c.place.0) copies.now)) }
    requires fresh { IsTrue (list_all (is_fresh core.now.array.durable) (map (λ (c : copied). c.place.0) copies.now)) }
    requires buffer { length buffer.old ≡ chunk_bytes core.now.array.durable.geometry }

    ensures new { OnOk result ((c c' : List ℕ) → D.content disk.old ≡ Some c → D.content disk.new ≡ Some c'
        → HasNew core.now.array.durable (Turn task.0) (map (λ (c : copied). c.place.0) copies.now)
        (new_values (filled_tables (bytes_at_place core.now.array.durable.geometry c) core.now.array.durable) (Turn task.0) []) c') }
    ensures told { ToldAt core.now.array.durable.geometry (map (λ (c : copied). c.place.0) copies.now) (D.content disk.old) (D.content disk.new) }
    ensures each { D.is_honest disk.old → Follows (DiffersAt core.now.array.durable.geometry (map (λ (c : copied). c.place.0) copies.now)) (D.is_image disk.old) (D.is_image disk.new) }
    ensures any_moment { D.is_honest disk.old → LeavesOnly D.moment D.left_since disk.old disk.new
        (ChangedAt core.now.array.durable.geometry (map (λ (c : copied). c.place.0) copies.now) (D.is_image disk.old)) }

    ensures cause { HasCauses (D.read_faults disk.old) (D.read_faults disk.new) (D.write_faults disk.old) (D.write_faults disk.new) result }
    ensures len { D.size disk.new ≡ D.size disk.old }
    ensures honesty { D.is_honest disk.new ↔ D.is_honest disk.old }
{
    let _well_formed = core.lsn();
    for copy in copies {
        copy_chunk(core, disk, task, *copy, buffer)?;
    }
    Ok(())
}
