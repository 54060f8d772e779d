//! Where the bytes of a chunk are.
ghost use Rattle.std.specs.Prelude.{◌≡◌, ◌<◌, IfSome, slice_get, option_map, option_and_then};
ghost use Rattle.vv_units.specs.declared.numbers.Place.{Place as place};
ghost use Rattle.vv_flat.specs.State.{Volume, volume_of};
ghost use Rattle.vv_flat.specs.Chunks.{Entry as SeenEntry};
ghost use Rattle.vv_vols.specs.Rows.{seen_entry};
ghost use Rattle.vv_core.specs.Entries.{place_in_volume, place_in_image};

use crate::array_core::Core;
use vv_entries::Entry;
use vv_tables::Tables;
use vv_units::{Place, TaskId, VolumeId};

impl Core {
    /// The place of a chunk of a volume: None where the volume has no such chunk, or the chunk is unmapped.
    pub fn place_in_volume(&self, volume: VolumeId, index: u32) -> Option<Place>
        ensures place { option_map (λ (p : place). p.0) result ≡ place_in_volume self.now.array.durable volume.0 index }
        ensures within { IfSome result (λ p. p.0 < self.now.array.durable.geometry.pool_chunks) }
    {
        volume_place(&self.tables, volume, index)
    }

    /// The place of a chunk of the image of a running clone, by the same rule.
    pub fn place_in_image(&self, task: TaskId, index: u32) -> Option<Place>
        ensures place { option_map (λ (p : place). p.0) result ≡ place_in_image self.now.array.durable task.0 index }
        ensures within { IfSome result (λ p. p.0 < self.now.array.durable.geometry.pool_chunks) }
    {
        image_place(&self.tables, task, index)
    }
}

/// The entry of a chunk of a volume. There is none where there is no such volume, or it has no such chunk.
fn volume_entry(tables: &Tables, volume: VolumeId, index: u32) -> Option<Entry>
    ensures { option_map seen_entry result ≡ option_and_then (λ (v : Volume SeenEntry). slice_get v.chunks index) (volume_of tables.now.durable volume.0) }
{
    if index < tables.size(volume) {
        Some(tables.shelf().entry(volume, index))
    } else {
        None
    }
}

/// The place of a chunk of a volume. It is one of the pool, since tables are well-formed.
fn volume_place(tables: &Tables, volume: VolumeId, index: u32) -> Option<Place>
    ensures place { option_map (λ (p : place). p.0) result ≡ place_in_volume tables.now.durable volume.0 index }
    ensures within { IfSome result (λ p. p.0 < tables.now.durable.geometry.pool_chunks) }
{
    let _well_formed = tables.lsn();
    match volume_entry(tables, volume, index) {
        Some(entry) => entry.place,
        None => None,
    }
}

/// The place of a chunk of the image of a running clone, by the same rule.
fn image_place(tables: &Tables, task: TaskId, index: u32) -> Option<Place>
    ensures place { option_map (λ (p : place). p.0) result ≡ place_in_image tables.now.durable task.0 index }
    ensures within { IfSome result (λ p. p.0 < tables.now.durable.geometry.pool_chunks) }
{
    let _well_formed = tables.lsn();
    match tables.image_entry(task, index) {
        Some(entry) => entry.place,
        None => None,
    }
}
