//! The forms of a call's fields.
ghost use Rattle.std.specs.Prelude.{◌≡◌, ◌≤◌, ◌<◌, ◌^◌, IfOk, IfSome, option_map, length};
ghost use Rattle.serde_json.specs.View.{view};
ghost use Rattle.vv_units.specs.Identifiers.{identifier_limit};
ghost use Rattle.vv_calls.specs.Forms as form;
ghost use Rattle.vv_calls.specs.Formed.{IsHost, IsVolume, IsContainer};

use crate::hexadecimal::hex_bytes;
use serde_json::Value;
use std::alloc::Global;
use vv_units::{
    ContainerId, EndpointId, HostId, Key, NoMemory, Note, Secondary, TaskId, VolumeId, VvolType,
    id_read,
};

/// A number from `low` to `high`.
pub(crate) fn number_within(low: u64, high: u64, value: &Value) -> Option<u64>
    ensures read { result ≡ form.number_within low high (view value.now) }
    ensures low { IfSome result (λ number. low ≤ number) }
    ensures high { IfSome result (λ number. number ≤ high) }
{
    let number = value.as_u64()?;
    if low <= number && number <= high {
        Some(number)
    } else {
        None
    }
}

/// A number of 32 bits.
pub(crate) fn small_number(value: &Value) -> Option<u32>
    ensures { result ≡ form.small_number_of (view value.now) }
{
    let number = number_within(0, 4_294_967_295, value)?;
    Some(number as u32)
}

/// A host.
pub(crate) fn host(value: &Value) -> Option<HostId>
    ensures read { result ≡ form.host_of (view value.now) }
    ensures formed { IfSome result IsHost }
{
    let number = number_within(1, 64, value)?;
    Some(HostId(number as u32))
}

/// A protocol endpoint.
pub(crate) fn endpoint(value: &Value) -> Option<EndpointId>
    ensures read { result ≡ form.endpoint_of (view value.now) }
    ensures formed { IfSome result (λ endpoint. 1 ≤ endpoint.0) }
{
    let number = number_within(1, 65535, value)?;
    Some(EndpointId(number as u16))
}

/// The secondary identifier of a binding, or 0 for the endpoint itself.
pub(crate) fn secondary(value: &Value) -> Option<Secondary>
    ensures { result ≡ form.secondary_of (view value.now) }
{
    let number = number_within(0, 65535, value)?;
    Some(Secondary(number as u16))
}

/// The number of an identifier.
#[tactic(auto, using(crate::proofs::Identified::identified))]
fn identified(text: &str) -> Option<u64>
    ensures read { result ≡ form.identified text.now }
    ensures formed { IfSome result (λ number. number < identifier_limit) }
{
    id_read(text)
}

/// A volume, by its identifier.
pub(crate) fn volume(value: &Value) -> Option<VolumeId>
    ensures read { result ≡ form.volume_of (view value.now) }
    ensures formed { IfSome result IsVolume }
{
    let number = identified(value.as_str()?)?;
    Some(VolumeId(number))
}

/// A container, by its identifier.
pub(crate) fn container(value: &Value) -> Option<ContainerId>
    ensures read { result ≡ form.container_of (view value.now) }
    ensures formed { IfSome result IsContainer }
{
    let number = identified(value.as_str()?)?;
    Some(ContainerId(number))
}

/// A task, by its number.
pub(crate) fn task(value: &Value) -> Option<TaskId>
    ensures { result ≡ form.task_of (view value.now) }
{
    let number = value.as_u64()?;
    Some(TaskId(number))
}

/// The key of a metadata pair.
pub(crate) fn key(alloc: Global, value: &Value) -> Result<Option<Key>, NoMemory>
    ensures { IfOk result (λ key. key ≡ form.key_of (view value.now)) }
{
    match value.as_str() {
        Some(text) => Key::read(alloc, text.as_bytes()),
        None => Ok(None),
    }
}

/// The value of a metadata pair.
pub(crate) fn note(alloc: Global, value: &Value) -> Result<Option<Note>, NoMemory>
    ensures { IfOk result (λ note. note ≡ form.note_of (view value.now)) }
{
    match value.as_str() {
        Some(text) => Note::read(alloc, text.as_bytes()),
        None => Ok(None),
    }
}

/// The kind of a vvol.
pub(crate) fn vvol_type(value: &Value) -> Option<VvolType>
    ensures { result ≡ form.vvol_type_of (view value.now) }
{
    match value.as_str()? {
        "Config" => Some(VvolType::Config),
        "Data" => Some(VvolType::Data),
        "Swap" => Some(VvolType::Swap),
        "Memory" => Some(VvolType::Memory),
        "Other" => Some(VvolType::Other),
        _ => None,
    }
}

/// A command descriptor block.
pub(crate) fn cdb(alloc: Global, value: &Value) -> Result<Option<Vec<u8>>, NoMemory>
    ensures read { IfOk result (λ bytes. option_map (λ v. v.items) bytes ≡ form.cdb_of (view value.now)) }
    ensures some { IfOk result (λ bytes. IfSome bytes (λ v. 1 ≤ length v.items)) }
    ensures short { IfOk result (λ bytes. IfSome bytes (λ v. length v.items ≤ 16)) }
{
    match value.as_str() {
        Some(text) if (2..=32).contains(&text.len()) => hex_bytes(alloc, text),
        _ => Ok(None),
    }
}
