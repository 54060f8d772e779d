//! The stamps of chunks.
ghost use Rattle.std.specs.Prelude.{◌≡◌, slice_index};
ghost use Rattle.vv_flat.specs.Chunks.{shape_of_tables};
ghost use Rattle.vv_flat.specs.Changes.{stamps_of};

use vv_tables::Tables;
use vv_units::VolumeId;

/// The stamp of a chunk of a volume: 0 past its end, or where there is no such volume.
pub(crate) fn stamp_at(tables: &Tables, id: VolumeId, index: u32) -> u64
    ensures { result ≡ slice_index (stamps_of (shape_of_tables tables.now.durable) id.0) index }
{
    if index < tables.size(id) {
        tables.shelf().entry(id, index).stamp
    } else {
        0
    }
}
