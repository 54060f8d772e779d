//! The bindings of an area are read.
ghost use Rattle.std.specs.Prelude.{◌≡◌, []};
ghost use Rattle.vv_record.specs.Reading.{Gives, GivesSeen, items};
ghost use Rattle.vv_area.specs.Forms as form;
ghost use Rattle.vv_flat.specs.Bindings.{is_below};

use crate::rows::RawBinding;
use std::alloc::Global;
use vv_record::{Fields, RecordFault};
use vv_units::{EndpointId, HostId, ItemList, Secondary, VolumeId};

#[tactic(auto, unfolding(crate::specs::Forms::bindings))]
pub(crate) fn bindings(
    alloc: Global,
    fields: &mut Fields,
) -> Result<ItemList<RawBinding>, RecordFault>
    ensures { Gives result fields.new (form.bindings fields.old) }
{
    let count = fields.u16()?;
    let bindings = binding_items(alloc, count, fields)?;
    Ok(ItemList::of(bindings))
}

fn binding_items(
    alloc: Global,
    count: u16,
    fields: &mut Fields,
) -> Result<Vec<RawBinding>, RecordFault>
    ensures { GivesSeen (λ v. v.items) result fields.new (items form.binding count [] fields.old) }
{
    let mut bindings = Vec::new(alloc);
    for _ in 0..count {
        let next = binding(&bindings, fields)?;
        bindings.push(next)?;
    }
    Ok(bindings)
}

/// The next binding, behind these.
#[tactic(auto, unfolding(crate::specs::Forms::binding, crate::specs::Forms::address))]
pub fn binding(before: &[RawBinding], fields: &mut Fields) -> Result<RawBinding, RecordFault>
    ensures { Gives result fields.new (form.binding before.now fields.old) }
{
    let host = host(before, fields)?;
    let endpoint = endpoint(before, host, fields)?;
    let secondary = secondary(before, host, endpoint, fields)?;
    let volume = fields.u64()?;
    let count = fields.u16()?;
    Ok(RawBinding {
        host: HostId(host),
        endpoint: EndpointId(endpoint),
        secondary: Secondary(secondary),
        volume: VolumeId(volume),
        count,
    })
}

#[tactic(auto, unfolding(crate::specs::Forms::binding_host, vv_record::specs::Reading::allowed))]
fn host(before: &[RawBinding], fields: &mut Fields) -> Result<u32, RecordFault>
    ensures { Gives result fields.new (form.binding_host before.now fields.old) }
{
    let at = fields.at();
    let host = fields.u32_within(1, 64)?;
    if is_next_host(before, host) {
        Ok(host)
    } else {
        Err(RecordFault::Bad { at })
    }
}

fn is_next_host(before: &[RawBinding], host: u32) -> bool
    ensures { result ≡ form.is_next_host before.now host }
{
    match before.last() {
        Some(last) => last.host.0 <= host,
        None => true,
    }
}

#[tactic(auto, unfolding(crate::specs::Forms::binding_endpoint, vv_record::specs::Reading::allowed))]
fn endpoint(before: &[RawBinding], host: u32, fields: &mut Fields) -> Result<u16, RecordFault>
    ensures { Gives result fields.new (form.binding_endpoint before.now host fields.old) }
{
    let at = fields.at();
    let endpoint = fields.u16()?;
    if is_next_endpoint(before, host, endpoint) {
        Ok(endpoint)
    } else {
        Err(RecordFault::Bad { at })
    }
}

fn is_next_endpoint(before: &[RawBinding], host: u32, endpoint: u16) -> bool
    ensures { result ≡ form.is_next_endpoint before.now host endpoint }
{
    match before.last() {
        Some(last) => last.host.0 != host || last.endpoint.0 <= endpoint,
        None => true,
    }
}

#[tactic(auto, unfolding(crate::specs::Forms::binding_secondary, vv_record::specs::Reading::allowed))]
fn secondary(
    before: &[RawBinding],
    host: u32,
    endpoint: u16,
    fields: &mut Fields,
) -> Result<u16, RecordFault>
    ensures { Gives result fields.new (form.binding_secondary before.now host endpoint fields.old) }
{
    let at = fields.at();
    let secondary = fields.u16()?;
    if is_next_address(before, host, endpoint, secondary) {
        Ok(secondary)
    } else {
        Err(RecordFault::Bad { at })
    }
}

fn is_next_address(before: &[RawBinding], host: u32, endpoint: u16, secondary: u16) -> bool
    ensures { result ≡ form.is_next_address before.now (form.address_at host endpoint secondary) }
{
    match before.last() {
        Some(last) => is_below(last, host, endpoint, secondary),
        None => true,
    }
}

/// Whether the binding is at a lower address.
fn is_below(binding: &RawBinding, host: u32, endpoint: u16, secondary: u16) -> bool
    ensures { result ≡ is_below binding.now.address (form.address_at host endpoint secondary) }
{
    binding.host.0 < host
        || (binding.host.0 == host
            && (binding.endpoint.0 < endpoint
                || (binding.endpoint.0 == endpoint && binding.secondary.0 < secondary)))
}
