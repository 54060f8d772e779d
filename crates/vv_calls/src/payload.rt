//! The bytes that a line carries.
ghost use Rattle.std.specs.Prelude.{◌≡◌, ◌++◌, ◌≤◌, [], IfOk, IfSome, OnOk, option_map, replicate, vec_len, if◌then◌else◌};
ghost use Rattle.std.specs.List.{concat};
ghost use Rattle.serde_json.specs.Data.{Items, item};
ghost use Rattle.serde_json.specs.View.{view, items_view};
ghost use Rattle.vv_calls.specs.Payload.{payload_limit, pair_in, pair_of, joined_onto, payload_of, optional_payload};

use crate::forms::number_within;
use crate::hexadecimal::hex_bytes;
use serde_json::Value;
use std::alloc::Global;
use vv_units::NoMemory;

/// The most bytes of one line.
const LIMIT: u64 = 1_048_576;

/// The bytes of a field that may be absent.
pub(crate) fn optional_payload(
    alloc: Global,
    field: Option<&Value>,
) -> Result<Option<Vec<u8>>, NoMemory>
    ensures bytes { IfOk result (λ bytes. option_map (λ v. v.items) bytes
        ≡ optional_payload (option_map (λ v. view v.now) field.entry)) }
    ensures few { IfOk result (λ bytes. IfSome bytes (λ v. vec_len v ≤ payload_limit)) }
{
    match field {
        None => Ok(Some(Vec::new(alloc))),
        Some(value) => payload(alloc, value),
    }
}

/// The bytes of a list of pairs.
fn payload(alloc: Global, value: &Value) -> Result<Option<Vec<u8>>, NoMemory>
    ensures bytes { IfOk result (λ bytes. option_map (λ v. v.items) bytes ≡ payload_of (view value.now)) }
    ensures few { IfOk result (λ bytes. IfSome bytes (λ v. vec_len v ≤ payload_limit)) }
{
    match value.as_array() {
        Some(pairs) => joined(alloc, pairs.as_slice()),
        None => Ok(None),
    }
}

/// The bytes of the pairs, one after another, if each is well formed and they are not too many.
fn joined(alloc: Global, pairs: &[Value]) -> Result<Option<Vec<u8>>, NoMemory>
    ensures bytes { IfOk result (λ bytes. option_map (λ v. v.items) bytes
        ≡ joined_onto [] (items_view pairs.now)) }
    ensures few { IfOk result (λ bytes. IfSome bytes (λ v. vec_len v ≤ payload_limit)) }
{
    let mut payload = Vec::new(alloc);
    for pair in pairs {
        if !append_pair(alloc, &mut payload, pair)? {
            return Ok(None);
        }
    }
    Ok(Some(payload))
}

/// Appends the bytes of a pair, if it is well formed and they are not too many. How many they are is looked at
/// before memory is taken.
fn append_pair(alloc: Global, payload: &mut Vec<u8>, pair: &Value) -> Result<bool, NoMemory>
    requires { vec_len payload.old ≤ LIMIT }
    ensures limited { OnOk result (vec_len payload.new ≤ LIMIT) }
    ensures bytes { IfOk result (λ taken. (rest : Items)
        → joined_onto payload.old.items (item (view pair.now) rest)
        ≡ (if taken then joined_onto payload.new.items rest else None)) }
{
    let Some((digits, times)) = pair_parts(pair) else {
        return Ok(false);
    };
    let room = LIMIT - payload.len() as u64;
    if digits.is_empty() || (digits.len() as u64 / 2).saturating_mul(times) > room {
        return Ok(false);
    }
    let Some(bytes) = hex_bytes(alloc, digits)? else {
        return Ok(false);
    };
    append_repeated(payload, bytes.as_slice(), times)?;
    Ok(true)
}

/// The digits of a pair, and how often their bytes stand.
fn pair_parts(pair: &Value) -> Option<(&str, u64)>
    ensures { option_map (λ p. (p.0.now, p.1)) result ≡ pair_in (view pair.now) }
{
    two_parts(pair.as_array()?.as_slice())
}

fn two_parts(items: &[Value]) -> Option<(&str, u64)>
    ensures { option_map (λ p. (p.0.now, p.1)) result ≡ pair_of (items_view items.now) }
{
    if items.len() != 2 {
        return None;
    }
    let digits = items[0].as_str()?;
    let times = number_within(1, LIMIT, &items[1])?;
    Some((digits, times))
}

/// Appends the bytes so many times.
fn append_repeated(payload: &mut Vec<u8>, bytes: &[u8], times: u64) -> Result<(), NoMemory>
    ensures { OnOk result (payload.new.items ≡ payload.old.items ++ concat (replicate times bytes.now)) }
{
    'repeats: for _ in 0..times {
        let Ok(()) = payload.extend_from_slice(bytes) else {
            return Err(NoMemory);
        };
    }
    Ok(())
}
