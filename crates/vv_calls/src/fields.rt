//! The fields of a line.
ghost use Rattle.std.specs.Prelude.{◌≡◌, ◌≤◌, ◌<◌, ◌^◌, IfOk, IfSome, option_map, length};
ghost use Rattle.serde_json.specs.View.{view};
ghost use Rattle.vv_calls.specs.Fields as field;
ghost use Rattle.vv_calls.specs.Forms as form;
ghost use Rattle.vv_calls.specs.Steps.{Reads, seen};
ghost use Rattle.vv_calls.specs.Payload.{payload_limit};
ghost use Rattle.vv_calls.specs.Formed.{IsHost, IsVolume, IsContainer, IsCommand, AreOffers, AreNeeds, AreEndpoints};

use crate::call::{EndpointList, LineFault, ScsiCall};
use crate::payload::optional_payload;
use crate::{forms, lists};
use serde_json::Value;
use std::alloc::Global;
use vv_units::{
    ByteList, ContainerId, EndpointId, Field, HostId, Key, NeedList, Note, OfferList, Secondary,
    TaskId, VolumeId, VvolType,
};

/// The value of a field that must stand.
pub(crate) fn present<'a>(line: &'a Value, name: Field) -> Result<&'a Value, LineFault>
    ensures { seen (λ v. view v.now) result ≡ field.present name (view line.now) }
{
    match line.get(name.text()) {
        Some(value) => Ok(value),
        None => Err(LineFault::MissingField { name }),
    }
}

/// The value of a field, if it stands and isn't null.
pub(crate) fn optional<'a>(line: &'a Value, name: Field) -> Option<&'a Value>
    ensures { option_map (λ v. view v.now) result ≡ field.optional name (view line.now) }
{
    let value = line.get(name.text())?;
    if value.is_null() { None } else { Some(value) }
}

/// A value that isn't of its form is bad.
fn in_form<T: Drop>(name: Field, read: Option<T>) -> Result<T, LineFault>
    ensures { result ≡ field.read_as name read }
{
    match read {
        Some(value) => Ok(value),
        None => Err(LineFault::BadField { name }),
    }
}

pub(crate) fn host(line: &Value) -> Result<HostId, LineFault>
    ensures read { result ≡ field.host (view line.now) }
    ensures formed { IfOk result IsHost }
{
    in_form(Field::Host, forms::host(present(line, Field::Host)?))
}

pub(crate) fn endpoint(line: &Value) -> Result<EndpointId, LineFault>
    ensures read { result ≡ field.endpoint (view line.now) }
    ensures formed { IfOk result (λ endpoint. 1 ≤ endpoint.0) }
{
    in_form(
        Field::Endpoint,
        forms::endpoint(present(line, Field::Endpoint)?),
    )
}

pub(crate) fn secondary(line: &Value) -> Result<Secondary, LineFault>
    ensures { result ≡ field.secondary (view line.now) }
{
    in_form(
        Field::Secondary,
        forms::secondary(present(line, Field::Secondary)?),
    )
}

pub(crate) fn volume(line: &Value, name: Field) -> Result<VolumeId, LineFault>
    ensures read { result ≡ field.volume name (view line.now) }
    ensures formed { IfOk result IsVolume }
{
    in_form(name, forms::volume(present(line, name)?))
}

pub(crate) fn container(line: &Value) -> Result<ContainerId, LineFault>
    ensures read { result ≡ field.container (view line.now) }
    ensures formed { IfOk result IsContainer }
{
    in_form(
        Field::Container,
        forms::container(present(line, Field::Container)?),
    )
}

pub(crate) fn optional_container(line: &Value) -> Result<Option<ContainerId>, LineFault>
    ensures read { result ≡ field.optional_container (view line.now) }
    ensures formed { IfOk result (λ container. IfSome container IsContainer) }
{
    let Some(value) = optional(line, Field::Container) else {
        return Ok(None);
    };
    let container = in_form(Field::Container, forms::container(value))?;
    Ok(Some(container))
}

pub(crate) fn task(line: &Value) -> Result<TaskId, LineFault>
    ensures { result ≡ field.task (view line.now) }
{
    in_form(Field::Task, forms::task(present(line, Field::Task)?))
}

pub(crate) fn size_in_mb(line: &Value) -> Result<u64, LineFault>
    ensures { result ≡ field.size_in_mb (view line.now) }
{
    in_form(Field::SizeInMb, present(line, Field::SizeInMb)?.as_u64())
}

pub(crate) fn quota(line: &Value) -> Result<u64, LineFault>
    ensures read { result ≡ field.quota (view line.now) }
    ensures formed { IfOk result (λ quota. quota < 2 ^ 32) }
{
    let quota = in_form(
        Field::Quota,
        forms::small_number(present(line, Field::Quota)?),
    )?;
    Ok(u64::from(quota))
}

pub(crate) fn optional_number(line: &Value, name: Field) -> Result<Option<u32>, LineFault>
    ensures { result ≡ field.optional_number name (view line.now) }
{
    let Some(value) = optional(line, name) else {
        return Ok(None);
    };
    let number = in_form(name, forms::small_number(value))?;
    Ok(Some(number))
}

pub(crate) fn vvol_type(line: &Value) -> Result<VvolType, LineFault>
    ensures { result ≡ field.vvol_type (view line.now) }
{
    in_form(
        Field::VvolType,
        forms::vvol_type(present(line, Field::VvolType)?),
    )
}

pub(crate) fn key(alloc: Global, line: &Value) -> Result<Key, LineFault>
    ensures { Reads result (field.key (view line.now)) }
{
    let key = forms::key(alloc, present(line, Field::Key)?)?;
    in_form(Field::Key, key)
}

pub(crate) fn optional_value(alloc: Global, line: &Value) -> Result<Option<Note>, LineFault>
    ensures { Reads result (field.optional_value (view line.now)) }
{
    let Some(value) = optional(line, Field::Value) else {
        return Ok(None);
    };
    let note = in_form(Field::Value, forms::note(alloc, value)?)?;
    Ok(Some(note))
}

pub(crate) fn capabilities(alloc: Global, line: &Value) -> Result<OfferList, LineFault>
    ensures read { Reads result (field.capabilities (view line.now)) }
    ensures formed { IfOk result AreOffers }
{
    let offers = lists::offers(alloc, present(line, Field::Capabilities)?)?;
    let offers = in_form(Field::Capabilities, offers)?;
    Ok(OfferList::of(offers))
}

pub(crate) fn optional_profile(alloc: Global, line: &Value) -> Result<Option<NeedList>, LineFault>
    ensures read { Reads result (field.optional_profile (view line.now)) }
    ensures formed { IfOk result (λ profile. IfSome profile AreNeeds) }
{
    let Some(value) = optional(line, Field::Profile) else {
        return Ok(None);
    };
    let needs = in_form(Field::Profile, lists::needs(alloc, value)?)?;
    Ok(Some(NeedList::of(needs)))
}

pub(crate) fn endpoints(alloc: Global, line: &Value) -> Result<EndpointList, LineFault>
    ensures read { Reads result (field.endpoints (view line.now)) }
    ensures formed { IfOk result AreEndpoints }
{
    let endpoints = lists::endpoints(alloc, present(line, Field::Endpoints)?)?;
    let endpoints = in_form(Field::Endpoints, endpoints)?;
    Ok(EndpointList::of(endpoints))
}

fn cdb(alloc: Global, line: &Value) -> Result<ByteList, LineFault>
    ensures read { Reads result (field.cdb (view line.now)) }
    ensures some { IfOk result (λ cdb. 1 ≤ length cdb) }
    ensures short { IfOk result (λ cdb. length cdb ≤ 16) }
{
    let cdb = forms::cdb(alloc, present(line, Field::Cdb)?)?;
    let cdb = in_form(Field::Cdb, cdb)?;
    Ok(ByteList::of(cdb))
}

fn payload(alloc: Global, line: &Value) -> Result<ByteList, LineFault>
    ensures read { Reads result (field.payload (view line.now)) }
    ensures few { IfOk result (λ payload. length payload ≤ payload_limit) }
{
    let payload = optional_payload(alloc, optional(line, Field::Data))?;
    let payload = in_form(Field::Data, payload)?;
    Ok(ByteList::of(payload))
}

/// A command for the logical unit at an address.
pub(crate) fn command(alloc: Global, line: &Value) -> Result<ScsiCall, LineFault>
    ensures read { Reads result (field.command (view line.now)) }
    ensures formed { IfOk result IsCommand }
{
    let host = host(line)?;
    let endpoint = endpoint(line)?;
    let secondary = secondary(line)?;
    let cdb = cdb(alloc, line)?;
    let payload = payload(alloc, line)?;
    Ok(ScsiCall {
        host,
        endpoint,
        secondary,
        cdb,
        payload,
    })
}
