//! The events that calls ask for which never take a place.
ghost use Rattle.std.specs.Prelude.{◌≡◌, [], IfOk, unwrap_or};
ghost use Rattle.std.specs.Option.{option_map};
ghost use Rattle.vv_flat.specs.State.{Volatile};
ghost use Rattle.vv_flat.specs.Chunks.{shape_of_tables};
ghost use Rattle.vv_flat.specs.Changes as change;
ghost use Rattle.vv_bind.specs.Table.{numbers};
ghost use Rattle.vv_event.specs.Events.{change_of};
ghost use Rattle.vv_meaning.specs.Calls.{container_asked, chunks_asked};
ghost use Rattle.vv_plan.specs.Plans.{plain_change, with_volatile};

use std::alloc::Global;
use vv_calls::{Call, EndpointList};
use vv_copies::{copy_endpoints, copy_key, copy_needs, copy_note, copy_offers};
use vv_record::Event;
use vv_tables::Tables;
use vv_units::{
    ContainerId, HostId, ItemList, Key, NeedList, NoMemory, Note, OfferList, VolumeId, chunks_of_mb,
};

/// The container of a new volume: the one that is named, or container 0.
fn container_asked(container: Option<ContainerId>) -> ContainerId
    ensures { result.0 ≡ container_asked container }
{
    match container {
        Some(container) => container,
        None => ContainerId(0),
    }
}

/// How many chunks so many MB are, and 0 where no volume has that size.
fn chunks_asked(tables: &Tables, mb: u64) -> u32
    ensures { result ≡ chunks_asked (shape_of_tables tables.now.durable) mb }
{
    chunks_of_mb(tables.geometry(), mb).unwrap_or(0)
}

/// A container is made.
#[tactic(auto, unfolding(vv_event::specs::Events::change_of))]
fn make_container(alloc: Global, quota: u64, offers: &OfferList) -> Result<Event, NoMemory>
    ensures { IfOk result (λ event. change_of event ≡ change.MakeContainer quota offers.now) }
{
    let offers = copy_offers(alloc, offers)?;
    Ok(Event::MakeContainer { quota, offers })
}

/// What a profile asks for: nothing where there is none.
fn needs_asked(alloc: Global, profile: &Option<NeedList>) -> Result<NeedList, NoMemory>
    ensures { IfOk result (λ needs. needs ≡ unwrap_or profile.now []) }
{
    match profile {
        Some(needs) => copy_needs(alloc, needs),
        None => Ok(ItemList::of(Vec::new(alloc))),
    }
}

/// A note is set at a key, or removed.
#[tactic(auto, unfolding(vv_event::specs::Events::change_of))]
fn set_metadata(volume: VolumeId, key: &Key, note: &Option<Note>) -> Result<Event, NoMemory>
    ensures { IfOk result (λ event. change_of event ≡ change.SetMetadata volume.0 key.now note.now) }
{
    let key = copy_key(key)?;
    let note = copy_note(note)?;
    Ok(Event::SetMetadata { volume, key, note })
}

/// The endpoints of a host are set.
#[tactic(auto, unfolding(vv_event::specs::Events::change_of))]
fn set_endpoints(alloc: Global, host: HostId, endpoints: &EndpointList) -> Result<Event, NoMemory>
    ensures { IfOk result (λ event. change_of event ≡ change.SetEndpoints host.0 (numbers endpoints.now)) }
{
    let endpoints = copy_endpoints(alloc, endpoints)?;
    Ok(Event::SetEndpoints { host, endpoints })
}

/// The event that a call asks for, where it asks for a change that never takes a place. There is none for a turn of a
/// task, nor for a command to a logical unit.
#[tactic(auto, unfolding(crate::specs::Plans::plain_change, vv_meaning::specs::Calls::asked, vv_event::specs::Events::change_of))]
pub fn event_for(alloc: Global, tables: &Tables, call: &Call) -> Result<Option<Event>, NoMemory>
    ensures { (v : Volatile) → IfOk result (λ event. option_map change_of event ≡ plain_change (with_volatile (shape_of_tables tables.now.durable) v) call.now) }
{
    let event = match call {
        Call::CreateStorageContainer {
            quota,
            capabilities,
        } => make_container(alloc, *quota, capabilities)?,
        Call::CreateVirtualVolume {
            container,
            vvol_type,
            size_in_mb,
            profile,
        } => Event::MakeVolume {
            container: container_asked(*container),
            vtype: *vvol_type,
            chunks: chunks_asked(tables, *size_in_mb),
            needs: needs_asked(alloc, profile)?,
        },
        Call::DeleteVirtualVolume { vvol } => Event::DeleteVolume { volume: *vvol },
        Call::ResizeVirtualVolume { vvol, size_in_mb } => Event::GrowVolume {
            volume: *vvol,
            chunks: chunks_asked(tables, *size_in_mb),
        },
        Call::SetMetadata { vvol, key, value } => set_metadata(*vvol, key, value)?,
        Call::SnapshotVirtualVolume { vvol } => Event::Snapshot { volume: *vvol },
        Call::FastCloneVirtualVolume { vvol } => Event::FastClone { volume: *vvol },
        Call::RevertVirtualVolume { vvol, snapshot } => Event::Revert {
            volume: *vvol,
            snapshot: *snapshot,
        },
        Call::CloneVirtualVolume { vvol } => Event::StartClone { volume: *vvol },
        Call::CopyDiffsToVirtualVolume {
            source,
            base,
            target,
        } => Event::StartCopy {
            source: *source,
            base: *base,
            target: *target,
        },
        Call::CancelTask { task } => Event::Cancel { task: *task },
        Call::SetPEContext { host, endpoints } => set_endpoints(alloc, *host, endpoints)?,
        Call::BindVirtualVolume { host, vvol } => Event::Bind {
            host: *host,
            volume: *vvol,
        },
        Call::UnbindVirtualVolume {
            host,
            endpoint,
            secondary,
        } => Event::Unbind {
            host: *host,
            endpoint: *endpoint,
            secondary: *secondary,
        },
        Call::UnbindAllVirtualVolumesFromHost { host } => Event::UnbindAll { host: *host },
        _ => return Ok(None),
    };
    Ok(Some(event))
}
