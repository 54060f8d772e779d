//! Counts over volumes, containers and rows.
ghost use Rattle.std.specs.Prelude.{◌≡◌, ◌≤◌, ◌<◌, ◌^◌, length};
ghost use Rattle.vv_flat.specs.Lists.{if_found};
ghost use Rattle.vv_flat.specs.State.{Volume};
ghost use Rattle.vv_flat.specs.Chunks.{Entry};
ghost use Rattle.vv_vols.specs.Shelf.{volume_in};
ghost use Rattle.vv_tables.specs.Counts.{volume_pairs, clone_pairs};

use crate::rows::CloneRow;
use vv_container::ContainerTable;
use vv_units::VolumeId;
use vv_vols::Shelf;

/// How many containers a table has.
pub(crate) fn container_rows(containers: &ContainerTable) -> u32
    ensures { result ≡ length containers.now }
{
    let mut count = 0;
    while containers.at(count).is_some() {
        count += 1;
    }
    count
}

/// How many volumes a shelf has.
pub(crate) fn volume_rows(shelf: &Shelf) -> u32
    requires { length shelf.now.shelf.volumes ≤ 256 }
    ensures { result ≡ length shelf.now.shelf.volumes }
{
    for i in 0..256 {
        if shelf.id_at(i).is_none() {
            return i;
        }
    }
    256
}

/// The metadata pairs of a volume.
pub(crate) fn pairs_in(shelf: &Shelf, id: VolumeId) -> u32
    ensures { result ≡ if_found (volume_in shelf.now.shelf id.0) (λ (v : Volume Entry). length v.metadata) 0 }
{
    match shelf.volume(id) {
        Some(head) => head.metadata.len(),
        None => 0,
    }
}

/// The metadata pairs of all volumes of a shelf.
pub(crate) fn pairs_of_volumes(shelf: &Shelf) -> u32
    requires few { length shelf.now.shelf.volumes ≤ 256 }
    requires fits { volume_pairs shelf.now.shelf.volumes < 2 ^ 32 }
    ensures { result ≡ volume_pairs shelf.now.shelf.volumes }
{
    let mut pairs = 0;
    for i in 0..256 {
        match shelf.id_at(i) {
            Some(id) => pairs += pairs_in(shelf, id),
            None => return pairs,
        }
    }
    pairs
}

/// The metadata pairs of all running clones.
pub(crate) fn pairs_of_clones(clones: &[CloneRow]) -> u32
    requires { clone_pairs clones.now < 2 ^ 32 }
    ensures { result ≡ clone_pairs clones.now }
{
    let mut pairs = 0;
    for row in clones {
        pairs += row.head.metadata.len();
    }
    pairs
}
