//! Changes of containers, and of volumes by themselves.
ghost use Rattle.std.specs.Prelude.{◌≡◌, ◌-◌, ◌==◌, ◌||◌, not, nat_lt, List, ℕ, Option, [], None};
ghost use Rattle.std.specs.Option.{option_copied};
ghost use Rattle.vv_units.specs.declared.volume.VvolType.{VvolType as Vtype};
ghost use Rattle.vv_units.specs.declared.volume.Need.{Need as AskedNeed};
ghost use Rattle.vv_units.specs.declared.volume.Offer.{Offer as GivenOffer};
ghost use Rattle.vv_flat.specs.Lists.{if_found};
ghost use Rattle.vv_flat.specs.State.{Container as SeenContainer, Durable, container_of};
ghost use Rattle.vv_flat.specs.Chunks.{shape_of_tables};
ghost use Rattle.vv_flat.specs.Space.{is_volume_size};
ghost use Rattle.vv_flat.specs.Profiles.{Misfit, first_misfit};
ghost use Rattle.vv_flat.specs.Refusals.{misfits};
ghost use Rattle.vv_flat.specs.Changes.{MakeContainer, MakeVolume, DeleteVolume, GrowVolume, SetMetadata, state_checks, changes_nothing, room_checks, metadata_of, added_pairs};
ghost use Rattle.vv_profile.specs.Known.{all_known};
ghost use Rattle.vv_judge.specs.Seen.{seen_check, refused_by};

use crate::answer::{Refusal, first_refusal, refuse_if};
use crate::checks::{
    bound_or_busy, busy, exhausted, map_full, missing_container, missing_volume, too_many,
    too_many_pairs, too_many_volumes, where_positive,
};
use vv_profile::{Capabilities, complies};
use vv_tables::Tables;
use vv_units::{ContainerId, Field, Geometry, Key, Need, Note, VolumeId};

/// Nothing can be wrong with a new container.
#[tactic(auto, unfolding(vv_flat::specs::Changes::state_checks))]
pub(crate) fn make_container_state() -> Option<Refusal>
    ensures { (d : Durable ℕ) → (quota : ℕ) → (offers : List GivenOffer) → seen_check result ≡ refused_by (state_checks d (MakeContainer quota offers)) }
{
    first_refusal(&[])
}

/// The limits that may be in the way of a new container.
#[tactic(auto, unfolding(vv_flat::specs::Changes::room_checks))]
pub(crate) fn make_container_room(tables: &Tables) -> Option<Refusal>
    ensures { (quota : ℕ) → (offers : List GivenOffer) → seen_check result ≡ refused_by (room_checks None (shape_of_tables tables.now.durable) (MakeContainer quota offers)) }
{
    first_refusal(&[
        exhausted(tables),
        too_many(tables.container_count(), 32, Field::Container),
    ])
}

/// Whether a volume may have so many chunks.
fn is_volume_size(geometry: Geometry, chunks: u32) -> bool
    ensures { result ≡ is_volume_size geometry.chunk_blocks chunks }
{
    let chunks_of_one_mb = 2048 / geometry.chunk_blocks;
    1 <= chunks && chunks <= 1_048_576 && chunks % chunks_of_one_mb == 0
}

/// What is wrong with a new volume.
#[tactic(auto, unfolding(vv_flat::specs::Changes::state_checks))]
pub(crate) fn make_volume_state(
    tables: &Tables,
    container: ContainerId,
    chunks: u32,
) -> Option<Refusal>
    ensures { (vtype : Vtype) → (needs : List AskedNeed) → seen_check result ≡ refused_by (state_checks (shape_of_tables tables.now.durable) (MakeVolume container.0 vtype chunks needs)) }
{
    let name = Field::SizeInMb;
    let is_size = is_volume_size(tables.geometry(), chunks);
    first_refusal(&[
        missing_container(tables, container),
        refuse_if(!is_size, Refusal::InvalidArgument { name }),
    ])
}

/// What the profile of a new volume lacks.
pub(crate) fn misfit(
    tables: &Tables,
    capabilities: &Capabilities,
    container: ContainerId,
    needs: &[Need],
) -> Option<Refusal>
    ensures { seen_check result ≡ misfits (if_found (container_of (shape_of_tables tables.now.durable) container.0) (λ (k : SeenContainer). first_misfit (all_known capabilities.now) k.offers needs.now) None) }
{
    let container = tables.container(container)?;
    match complies(capabilities, container.offered.items(), needs) {
        Ok(()) => None,
        Err(misfit) => Some(Refusal::InvalidProfile {
            at: misfit.at,
            why: misfit.why,
        }),
    }
}

/// The limits that may be in the way of a new volume.
#[tactic(auto, unfolding(vv_flat::specs::Changes::room_checks))]
pub(crate) fn make_volume_room(
    tables: &Tables,
    misfit: Option<Refusal>,
    chunks: u32,
) -> Option<Refusal>
    ensures { (m : Option Misfit) → seen_check misfit ≡ misfits m → (container : ℕ) → (vtype : Vtype) → (needs : List AskedNeed)
        → seen_check result ≡ refused_by (room_checks m (shape_of_tables tables.now.durable) (MakeVolume container vtype chunks needs)) }
{
    first_refusal(&[
        exhausted(tables),
        too_many_volumes(tables),
        misfit,
        map_full(tables, chunks),
    ])
}

/// What is wrong with a volume that is to be deleted.
#[tactic(auto, unfolding(vv_flat::specs::Changes::state_checks))]
pub(crate) fn delete_volume_state(tables: &Tables, id: VolumeId) -> Option<Refusal>
    ensures { seen_check result ≡ refused_by (state_checks (shape_of_tables tables.now.durable) (DeleteVolume id.0)) }
{
    first_refusal(&[
        missing_volume(tables, id, Field::Vvol),
        bound_or_busy(tables, id, Field::Vvol),
    ])
}

/// What is wrong with a volume that is to grow.
#[tactic(auto, unfolding(vv_flat::specs::Changes::state_checks))]
pub(crate) fn grow_volume_state(tables: &Tables, id: VolumeId, chunks: u32) -> Option<Refusal>
    ensures { seen_check result ≡ refused_by (state_checks (shape_of_tables tables.now.durable) (GrowVolume id.0 chunks)) }
{
    let is_size = is_volume_size(tables.geometry(), chunks);
    let is_bad = !is_size || chunks < tables.size(id);
    let size = Field::SizeInMb;
    let name = Field::Vvol;
    let is_snapshot = tables.is_snapshot(id);
    first_refusal(&[
        missing_volume(tables, id, name),
        refuse_if(is_bad, Refusal::InvalidArgument { name: size }),
        refuse_if(is_snapshot, Refusal::IncompatibleVolume { name }),
        busy(tables, id),
    ])
}

/// Whether a volume has as many chunks already.
#[tactic(auto, unfolding(vv_flat::specs::Changes::changes_nothing))]
pub(crate) fn grow_volume_nothing(tables: &Tables, id: VolumeId, chunks: u32) -> bool
    ensures { result ≡ changes_nothing (shape_of_tables tables.now.durable) (GrowVolume id.0 chunks) }
{
    chunks == tables.size(id)
}

/// The limits that may be in the way of a volume that grows.
#[tactic(auto, unfolding(vv_flat::specs::Changes::room_checks))]
pub(crate) fn grow_volume_room(tables: &Tables, id: VolumeId, chunks: u32) -> Option<Refusal>
    ensures { seen_check result ≡ refused_by (room_checks None (shape_of_tables tables.now.durable) (GrowVolume id.0 chunks)) }
{
    let added = chunks.saturating_sub(tables.size(id));
    first_refusal(&[exhausted(tables), map_full(tables, added)])
}

/// What is wrong with a volume whose metadata are to be set.
#[tactic(auto, unfolding(vv_flat::specs::Changes::state_checks))]
pub(crate) fn set_metadata_state(tables: &Tables, id: VolumeId) -> Option<Refusal>
    ensures { (key : List ℕ) → (note : Option (List ℕ)) → seen_check result ≡ refused_by (state_checks (shape_of_tables tables.now.durable) (SetMetadata id.0 key note)) }
{
    first_refusal(&[missing_volume(tables, id, Field::Vvol)])
}

/// Whether a note stands already, or a key that is to be removed is missing already.
#[tactic(auto, unfolding(vv_flat::specs::Changes::changes_nothing))]
pub(crate) fn set_metadata_nothing(
    tables: &Tables,
    id: VolumeId,
    key: &Key,
    note: Option<&Note>,
) -> bool
    ensures { result ≡ changes_nothing (shape_of_tables tables.now.durable) (SetMetadata id.0 key.now (option_copied note.entry)) }
{
    tables.has_note(id, key, note)
}

/// How many pairs setting a note adds.
fn added_pairs(tables: &Tables, id: VolumeId, key: &Key, note: Option<&Note>) -> u32
    ensures { result ≡ added_pairs (metadata_of (shape_of_tables tables.now.durable) id.0) key.now (option_copied note.entry) }
{
    match note {
        Some(_) if tables.note(id, key).is_none() => 1,
        _ => 0,
    }
}

/// The limits that may be in the way of a note.
#[tactic(auto, unfolding(vv_flat::specs::Changes::room_checks))]
pub(crate) fn set_metadata_room(
    tables: &Tables,
    id: VolumeId,
    key: &Key,
    note: Option<&Note>,
) -> Option<Refusal>
    ensures { seen_check result ≡ refused_by (room_checks None (shape_of_tables tables.now.durable) (SetMetadata id.0 key.now (option_copied note.entry))) }
{
    let added = added_pairs(tables, id, key, note);
    first_refusal(&[
        exhausted(tables),
        where_positive(added, too_many(tables.pairs(id), 64, Field::Key)),
        where_positive(added, too_many_pairs(tables, added)),
    ])
}
