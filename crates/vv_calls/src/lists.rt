//! Fields that are lists.
ghost use Rattle.std.specs.Prelude.{◌≡◌, ◌≤◌, [], IfOk, IfSome, option_map};
ghost use Rattle.serde_json.specs.View.{view, items_view};
ghost use Rattle.vv_calls.specs.Lists as form;
ghost use Rattle.vv_calls.specs.Formed.{AreOffers, AreNeeds, AreEndpoints};

use crate::forms;
use serde_json::Value;
use std::alloc::Global;
use vv_units::{EndpointId, Name, Need, NoMemory, Offer};

/// The most capabilities that a container offers.
const MOST_OFFERS: usize = 16;

/// The most capabilities that a profile asks for.
const MOST_NEEDS: usize = 8;

/// The most endpoints of a host.
const MOST_ENDPOINTS: usize = 8;

/// The name of a capability, and a number.
fn named_number(alloc: Global, value: &Value) -> Result<Option<(Name, u64)>, NoMemory>
    ensures { IfOk result (λ pair. pair ≡ form.named_number (view value.now)) }
{
    let Some((text, number)) = text_and_number(value) else {
        return Ok(None);
    };
    match Name::read(alloc, text.as_bytes())? {
        Some(name) => Ok(Some((name, number))),
        None => Ok(None),
    }
}

fn text_and_number(value: &Value) -> Option<(&str, u64)>
    ensures { option_map (λ p. (p.0.now, p.1)) result ≡ form.text_and_number (view value.now) }
{
    two_parts(value.as_array()?.as_slice())
}

fn two_parts(items: &[Value]) -> Option<(&str, u64)>
    ensures { option_map (λ p. (p.0.now, p.1)) result ≡ form.text_and_number_in (items_view items.now) }
{
    if items.len() != 2 {
        return None;
    }
    let text = items[0].as_str()?;
    let number = items[1].as_u64()?;
    Some((text, number))
}

/// What a container offers.
pub(crate) fn offers(alloc: Global, value: &Value) -> Result<Option<Vec<Offer>>, NoMemory>
    ensures read { IfOk result (λ offers. option_map (λ v. v.items) offers ≡ form.offers_of (view value.now)) }
    ensures formed { IfOk result (λ offers. IfSome offers (λ v. AreOffers v.items)) }
{
    match value.as_array() {
        Some(values) => offer_items(alloc, values.as_slice()),
        None => Ok(None),
    }
}

fn offer_items(alloc: Global, values: &[Value]) -> Result<Option<Vec<Offer>>, NoMemory>
    ensures read { IfOk result (λ offers. option_map (λ v. v.items) offers
        ≡ form.each_behind form.offer_behind [] (items_view values.now)) }
    ensures formed { IfOk result (λ offers. IfSome offers (λ v. AreOffers v.items)) }
{
    let mut offers = Vec::new(alloc);
    for value in values {
        let Some(offer) = offer_behind(alloc, offers.as_slice(), value)? else {
            return Ok(None);
        };
        if offers.push(offer).is_err() {
            return Err(NoMemory);
        }
    }
    Ok(Some(offers))
}

/// An offer behind those before it.
fn offer_behind(alloc: Global, before: &[Offer], value: &Value) -> Result<Option<Offer>, NoMemory>
    ensures { IfOk result (λ offer. offer ≡ form.offer_behind before.now (view value.now)) }
{
    let Some((name, value)) = named_number(alloc, value)? else {
        return Ok(None);
    };
    if before.len() >= MOST_OFFERS || offers_have(before, name.items()) {
        return Ok(None);
    }
    Ok(Some(Offer { name, value }))
}

fn offers_have(offers: &[Offer], name: &[u8]) -> bool
    ensures { result ≡ form.offers_have offers.now name.now }
{
    offers.iter().any(|offer| offer.name.items() == name)
}

/// What a profile asks for.
pub(crate) fn needs(alloc: Global, value: &Value) -> Result<Option<Vec<Need>>, NoMemory>
    ensures read { IfOk result (λ needs. option_map (λ v. v.items) needs ≡ form.needs_of (view value.now)) }
    ensures formed { IfOk result (λ needs. IfSome needs (λ v. AreNeeds v.items)) }
{
    match value.as_array() {
        Some(values) => need_items(alloc, values.as_slice()),
        None => Ok(None),
    }
}

fn need_items(alloc: Global, values: &[Value]) -> Result<Option<Vec<Need>>, NoMemory>
    ensures read { IfOk result (λ needs. option_map (λ v. v.items) needs
        ≡ form.each_behind form.need_behind [] (items_view values.now)) }
    ensures formed { IfOk result (λ needs. IfSome needs (λ v. AreNeeds v.items)) }
{
    let mut needs = Vec::new(alloc);
    for value in values {
        let Some(need) = need_behind(alloc, needs.as_slice(), value)? else {
            return Ok(None);
        };
        if needs.push(need).is_err() {
            return Err(NoMemory);
        }
    }
    Ok(Some(needs))
}

/// A need behind those before it.
fn need_behind(alloc: Global, before: &[Need], value: &Value) -> Result<Option<Need>, NoMemory>
    ensures { IfOk result (λ need. need ≡ form.need_behind before.now (view value.now)) }
{
    let Some((name, value)) = named_number(alloc, value)? else {
        return Ok(None);
    };
    if before.len() >= MOST_NEEDS || needs_have(before, name.items()) {
        return Ok(None);
    }
    Ok(Some(Need { name, value }))
}

fn needs_have(needs: &[Need], name: &[u8]) -> bool
    ensures { result ≡ form.needs_have needs.now name.now }
{
    needs.iter().any(|need| need.name.items() == name)
}

/// The endpoints of a host.
pub(crate) fn endpoints(alloc: Global, value: &Value) -> Result<Option<Vec<EndpointId>>, NoMemory>
    ensures read { IfOk result (λ endpoints. option_map (λ v. v.items) endpoints ≡ form.endpoints_of (view value.now)) }
    ensures formed { IfOk result (λ endpoints. IfSome endpoints (λ v. AreEndpoints v.items)) }
{
    match value.as_array() {
        Some(values) => endpoint_items(alloc, values.as_slice()),
        None => Ok(None),
    }
}

fn endpoint_items(alloc: Global, values: &[Value]) -> Result<Option<Vec<EndpointId>>, NoMemory>
    ensures read { IfOk result (λ endpoints. option_map (λ v. v.items) endpoints
        ≡ form.each_behind form.endpoint_behind [] (items_view values.now)) }
    ensures formed { IfOk result (λ endpoints. IfSome endpoints (λ v. AreEndpoints v.items)) }
{
    let mut endpoints = Vec::new(alloc);
    for value in values {
        let Some(endpoint) = endpoint_behind(endpoints.as_slice(), value) else {
            return Ok(None);
        };
        if endpoints.push(endpoint).is_err() {
            return Err(NoMemory);
        }
    }
    Ok(Some(endpoints))
}

/// An endpoint behind those before it.
fn endpoint_behind(before: &[EndpointId], value: &Value) -> Option<EndpointId>
    ensures read { result ≡ form.endpoint_behind before.now (view value.now) }
    ensures some { IfSome result (λ endpoint. 1 ≤ endpoint.0) }
{
    let endpoint = forms::endpoint(value)?;
    if before.len() >= MOST_ENDPOINTS || endpoints_have(before, endpoint) {
        return None;
    }
    Some(endpoint)
}

fn endpoints_have(endpoints: &[EndpointId], endpoint: EndpointId) -> bool
    ensures { result ≡ form.endpoints_have endpoints.now endpoint }
{
    endpoints.iter().any(|other| other.0 == endpoint.0)
}
