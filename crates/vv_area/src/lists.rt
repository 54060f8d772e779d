//! The tables of an area are read, each a list behind its count.
ghost use Rattle.std.specs.Prelude.{◌≡◌, []};
ghost use Rattle.vv_record.specs.Reading.{Gives, GivesSeen, items};
ghost use Rattle.vv_area.specs.Forms as form;
ghost use Rattle.vv_area.specs.Forms.{rises, number_of_volume, number_of_context};

use crate::metadata::{entries, metadata_pairs};
use crate::rows::{RawContainer, RawContext, RawVolume};
use std::alloc::Global;
use vv_record::{Fields, RecordFault, endpoints, needs, offers};
use vv_units::{ContainerId, HostId, ItemList, VolumeId, VolumeKind};

#[tactic(auto, unfolding(crate::specs::Forms::containers))]
pub(crate) fn containers(
    alloc: Global,
    fields: &mut Fields,
) -> Result<ItemList<RawContainer>, RecordFault>
    ensures { Gives result fields.new (form.containers fields.old) }
{
    let count = fields.u8_within(1, 255)?;
    let containers = container_items(alloc, count, fields)?;
    Ok(ItemList::of(containers))
}

fn container_items(
    alloc: Global,
    count: u8,
    fields: &mut Fields,
) -> Result<Vec<RawContainer>, RecordFault>
    ensures { GivesSeen (λ v. v.items) result fields.new (items form.container count [] fields.old) }
{
    let mut containers = Vec::new(alloc);
    for _ in 0..count {
        let next = container(alloc, &containers, fields)?;
        containers.push(next)?;
    }
    Ok(containers)
}

/// The next container, behind these.
#[tactic(auto, unfolding(crate::specs::Forms::container))]
pub fn container(
    alloc: Global,
    before: &[RawContainer],
    fields: &mut Fields,
) -> Result<RawContainer, RecordFault>
    ensures { Gives result fields.new (form.container before.now fields.old) }
{
    let number = container_number(before, fields)?;
    let quota = fields.quota()?;
    let offers = offers(alloc, fields)?;
    Ok(RawContainer {
        number: ContainerId(number),
        quota,
        offers,
    })
}

#[tactic(auto, unfolding(crate::specs::Forms::container_number, vv_record::specs::Reading::allowed))]
fn container_number(before: &[RawContainer], fields: &mut Fields) -> Result<u64, RecordFault>
    ensures { Gives result fields.new (form.container_number before.now fields.old) }
{
    let at = fields.at();
    let number = fields.u64()?;
    if is_next_container(before, number) {
        Ok(number)
    } else {
        Err(RecordFault::Bad { at })
    }
}

fn is_next_container(before: &[RawContainer], number: u64) -> bool
    ensures { result ≡ form.is_next_container before.now number }
{
    match before.last() {
        Some(last) => last.number.0 < number,
        None => number == 0,
    }
}

#[tactic(auto, unfolding(crate::specs::Forms::volumes))]
pub(crate) fn volumes(
    alloc: Global,
    spelling: u8,
    fields: &mut Fields,
) -> Result<ItemList<RawVolume>, RecordFault>
    ensures { Gives result fields.new (form.volumes spelling fields.old) }
{
    let count = fields.u16()?;
    let volumes = volume_items(alloc, spelling, count, fields)?;
    Ok(ItemList::of(volumes))
}

fn volume_items(
    alloc: Global,
    spelling: u8,
    count: u16,
    fields: &mut Fields,
) -> Result<Vec<RawVolume>, RecordFault>
    ensures { GivesSeen (λ v. v.items) result fields.new (items (form.volume spelling) count [] fields.old) }
{
    let mut volumes = Vec::new(alloc);
    for _ in 0..count {
        let next = volume(alloc, spelling, &volumes, fields)?;
        volumes.push(next)?;
    }
    Ok(volumes)
}

#[tactic(auto, unfolding(crate::specs::Forms::volume))]
fn volume(
    alloc: Global,
    spelling: u8,
    before: &[RawVolume],
    fields: &mut Fields,
) -> Result<RawVolume, RecordFault>
    ensures { Gives result fields.new (form.volume spelling before.now fields.old) }
{
    let number = volume_number(before, fields)?;
    let container = fields.u64()?;
    let vtype = fields.vvol_type()?;
    let kind = volume_kind(fields)?;
    let reverted = reverted(spelling, fields)?;
    let needs = needs(alloc, fields)?;
    let metadata = metadata_pairs(alloc, spelling, fields)?;
    let entries = entries(alloc, fields)?;
    Ok(RawVolume {
        number: VolumeId(number),
        container: ContainerId(container),
        vtype,
        kind,
        reverted,
        needs,
        metadata,
        entries,
    })
}

/// The number of the next volume, behind these.
#[tactic(auto, unfolding(crate::specs::Forms::volume_number, vv_record::specs::Reading::allowed))]
pub fn volume_number(before: &[RawVolume], fields: &mut Fields) -> Result<u64, RecordFault>
    ensures { Gives result fields.new (form.volume_number before.now fields.old) }
{
    let at = fields.at();
    let number = fields.u64()?;
    if is_next_volume(before, number) {
        Ok(number)
    } else {
        Err(RecordFault::Bad { at })
    }
}

fn is_next_volume(before: &[RawVolume], number: u64) -> bool
    ensures { result ≡ rises number_of_volume before.now number }
{
    match before.last() {
        Some(last) => last.number.0 < number,
        None => true,
    }
}

/// How a volume came to be.
#[tactic(auto, unfolding(crate::specs::Forms::kind_field))]
pub fn volume_kind(fields: &mut Fields) -> Result<VolumeKind, RecordFault>
    ensures { Gives result fields.new (form.kind_field fields.old) }
{
    let kind = fields.u8_within(0, 3)?;
    let source = source(kind, fields)?;
    Ok(kind_numbered(kind, source))
}

/// The volume that one of a kind was made of, or 0.
#[tactic(auto, unfolding(crate::specs::Forms::source_of, vv_record::specs::Reading::allowed))]
fn source(kind: u8, fields: &mut Fields) -> Result<u64, RecordFault>
    ensures { Gives result fields.new (form.source_of kind fields.old) }
{
    let at = fields.at();
    let source = fields.u64()?;
    if kind != 0 || source == 0 {
        Ok(source)
    } else {
        Err(RecordFault::Bad { at })
    }
}

fn kind_numbered(kind: u8, source: u64) -> VolumeKind
    ensures { result ≡ form.kind_numbered kind source }
{
    match kind {
        0 => VolumeKind::Plain,
        1 => VolumeKind::SnapshotOf(VolumeId(source)),
        2 => VolumeKind::FastCloneOf(VolumeId(source)),
        _ => VolumeKind::FullCloneOf(VolumeId(source)),
    }
}

/// The log number of the last revert, which spelling 1 doesn't have.
pub fn reverted(spelling: u8, fields: &mut Fields) -> Result<u64, RecordFault>
    ensures { Gives result fields.new (form.reverted_field spelling fields.old) }
{
    if spelling == 1 { Ok(0) } else { fields.u64() }
}

#[tactic(auto, unfolding(crate::specs::Forms::contexts))]
pub(crate) fn contexts(
    alloc: Global,
    fields: &mut Fields,
) -> Result<ItemList<RawContext>, RecordFault>
    ensures { Gives result fields.new (form.contexts fields.old) }
{
    let count = fields.u8()?;
    let contexts = context_items(alloc, count, fields)?;
    Ok(ItemList::of(contexts))
}

fn context_items(
    alloc: Global,
    count: u8,
    fields: &mut Fields,
) -> Result<Vec<RawContext>, RecordFault>
    ensures { GivesSeen (λ v. v.items) result fields.new (items form.context count [] fields.old) }
{
    let mut contexts = Vec::new(alloc);
    for _ in 0..count {
        let next = context(alloc, &contexts, fields)?;
        contexts.push(next)?;
    }
    Ok(contexts)
}

/// The next context, behind these.
#[tactic(auto, unfolding(crate::specs::Forms::context))]
pub fn context(
    alloc: Global,
    before: &[RawContext],
    fields: &mut Fields,
) -> Result<RawContext, RecordFault>
    ensures { Gives result fields.new (form.context before.now fields.old) }
{
    let host = context_host(before, fields)?;
    let endpoints = endpoints(alloc, fields)?;
    Ok(RawContext {
        host: HostId(host),
        endpoints,
    })
}

#[tactic(auto, unfolding(crate::specs::Forms::context_host, vv_record::specs::Reading::allowed))]
fn context_host(before: &[RawContext], fields: &mut Fields) -> Result<u32, RecordFault>
    ensures { Gives result fields.new (form.context_host before.now fields.old) }
{
    let at = fields.at();
    let host = fields.u32_within(1, 64)?;
    if is_next_context(before, host) {
        Ok(host)
    } else {
        Err(RecordFault::Bad { at })
    }
}

fn is_next_context(before: &[RawContext], host: u32) -> bool
    ensures { result ≡ rises number_of_context before.now host }
{
    match before.last() {
        Some(last) => last.host.0 < host,
        None => true,
    }
}
