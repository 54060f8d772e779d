//! Rule 4: volumes and images are of whole MB.
ghost use Rattle.std.specs.Prelude.{◌≡◌, length};
ghost use Rattle.std.specs.List.{list_all};
ghost use Rattle.vv_flat.specs.State.{Volume, RunningClone};
ghost use Rattle.vv_flat.specs.Chunks.{Entry, shape_of_tables};
ghost use Rattle.vv_flat.specs.Space.{is_volume_size};
ghost use Rattle.vv_flat.specs.Rules.{sizes_rule};
ghost use Rattle.vv_area.specs.Area.{tables_of};

use super::items::all_hold;
use crate::rows::{RawClone, RawVolume};
use crate::tables::RawTables;
use vv_units::Geometry;

pub(super) fn sizes_hold(tables: &RawTables) -> bool
    ensures { result ≡ sizes_rule (shape_of_tables (tables_of tables.now)) }
{
    all_hold(&[volumes_have_sizes(tables), images_have_sizes(tables)])
}

fn volumes_have_sizes(tables: &RawTables) -> bool
    ensures { result ≡ list_all (λ (v : Volume Entry). is_volume_size tables.now.geometry.chunk_blocks (length v.chunks)) tables.now.volumes }
{
    let geometry = tables.geometry;
    let volumes = tables.volumes.items();
    volumes.iter().all(|volume| has_size(geometry, volume))
}

fn has_size(geometry: Geometry, volume: &RawVolume) -> bool
    ensures { result ≡ is_volume_size geometry.chunk_blocks (length volume.now.chunks) }
{
    is_volume_size(geometry, volume.entries.items().len())
}

fn images_have_sizes(tables: &RawTables) -> bool
    ensures { result ≡ list_all (λ (c : RunningClone Entry). is_volume_size tables.now.geometry.chunk_blocks (length c.image)) tables.now.clones }
{
    let geometry = tables.geometry;
    let clones = tables.clones.items();
    clones.iter().all(|clone| has_image_size(geometry, clone))
}

fn has_image_size(geometry: Geometry, clone: &RawClone) -> bool
    ensures { result ≡ is_volume_size geometry.chunk_blocks (length clone.now.image) }
{
    is_volume_size(geometry, clone.image.items().len())
}

/// Whether a volume may have so many chunks.
fn is_volume_size(geometry: Geometry, chunks: usize) -> bool
    ensures { result ≡ is_volume_size geometry.chunk_blocks chunks }
{
    let per_mb = (2048 / geometry.chunk_blocks) as usize;
    1 <= chunks && chunks <= 1_048_576 && chunks % per_mb == 0
}
