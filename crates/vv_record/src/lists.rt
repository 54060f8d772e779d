//! Lists of items behind their count.
ghost use Rattle.std.specs.Prelude.{◌≡◌, []};
ghost use Rattle.vv_record.specs.Reading.{Gives, GivesSeen, items};
ghost use Rattle.vv_record.specs.Forms as form;

use crate::fields::Fields;
use crate::record::{
    ChunkCopy, ChunkRange, CopyList, EndpointList, PlaceList, RangeList, RecordFault,
};
use std::alloc::Global;
use vv_units::{EndpointId, ItemList, Name, Need, NeedList, Offer, OfferList, Place};

#[tactic(auto, unfolding(crate::specs::Forms::offers))]
pub fn offers(alloc: Global, fields: &mut Fields) -> Result<OfferList, RecordFault>
    ensures { Gives result fields.new (form.offers fields.old) }
{
    let count = fields.u8_within(0, 16)?;
    let offers = offer_items(alloc, count, fields)?;
    Ok(ItemList::of(offers))
}

fn offer_items(alloc: Global, count: u8, fields: &mut Fields) -> Result<Vec<Offer>, RecordFault>
    ensures { GivesSeen (λ v. v.items) result fields.new (items form.offer count [] fields.old) }
{
    let mut offers = Vec::new(alloc);
    for _ in 0..count {
        let next = offer(alloc, &offers, fields)?;
        offers.push(next)?;
    }
    Ok(offers)
}

#[tactic(auto, unfolding(crate::specs::Forms::offer))]
fn offer(alloc: Global, before: &[Offer], fields: &mut Fields) -> Result<Offer, RecordFault>
    ensures { Gives result fields.new (form.offer before.now fields.old) }
{
    let name = offer_name(alloc, before, fields)?;
    let value = fields.u64()?;
    Ok(Offer { name, value })
}

/// A name that no offer has.
#[tactic(auto, unfolding(crate::specs::Forms::other_name, crate::specs::Reading::allowed))]
fn offer_name(alloc: Global, before: &[Offer], fields: &mut Fields) -> Result<Name, RecordFault>
    ensures { Gives result fields.new (form.other_name (form.offers_have before.now) fields.old) }
{
    let length = fields.u8_within(1, 24)?;
    let at = fields.at();
    let name = fields.name(alloc, length)?;
    if offers_have(before, name.items()) {
        return Err(RecordFault::Bad { at });
    }
    Ok(name)
}

fn offers_have(offers: &[Offer], name: &[u8]) -> bool
    ensures { result ≡ form.offers_have offers.now name.now }
{
    offers.iter().any(|offer| offer.name.items() == name)
}

#[tactic(auto, unfolding(crate::specs::Forms::needs))]
pub fn needs(alloc: Global, fields: &mut Fields) -> Result<NeedList, RecordFault>
    ensures { Gives result fields.new (form.needs fields.old) }
{
    let count = fields.u8_within(0, 8)?;
    let needs = need_items(alloc, count, fields)?;
    Ok(ItemList::of(needs))
}

fn need_items(alloc: Global, count: u8, fields: &mut Fields) -> Result<Vec<Need>, RecordFault>
    ensures { GivesSeen (λ v. v.items) result fields.new (items form.need count [] fields.old) }
{
    let mut needs = Vec::new(alloc);
    for _ in 0..count {
        let next = need(alloc, &needs, fields)?;
        needs.push(next)?;
    }
    Ok(needs)
}

#[tactic(auto, unfolding(crate::specs::Forms::need))]
fn need(alloc: Global, before: &[Need], fields: &mut Fields) -> Result<Need, RecordFault>
    ensures { Gives result fields.new (form.need before.now fields.old) }
{
    let name = need_name(alloc, before, fields)?;
    let value = fields.u64()?;
    Ok(Need { name, value })
}

/// A name that no need has.
#[tactic(auto, unfolding(crate::specs::Forms::other_name, crate::specs::Reading::allowed))]
fn need_name(alloc: Global, before: &[Need], fields: &mut Fields) -> Result<Name, RecordFault>
    ensures { Gives result fields.new (form.other_name (form.needs_have before.now) fields.old) }
{
    let length = fields.u8_within(1, 24)?;
    let at = fields.at();
    let name = fields.name(alloc, length)?;
    if needs_have(before, name.items()) {
        return Err(RecordFault::Bad { at });
    }
    Ok(name)
}

fn needs_have(needs: &[Need], name: &[u8]) -> bool
    ensures { result ≡ form.needs_have needs.now name.now }
{
    needs.iter().any(|need| need.name.items() == name)
}

#[tactic(auto, unfolding(crate::specs::Forms::places))]
pub(crate) fn places(alloc: Global, fields: &mut Fields) -> Result<PlaceList, RecordFault>
    ensures { Gives result fields.new (form.places fields.old) }
{
    let count = fields.u16_within(1, 257)?;
    let places = place_items(alloc, count, fields)?;
    Ok(ItemList::of(places))
}

fn place_items(alloc: Global, count: u16, fields: &mut Fields) -> Result<Vec<Place>, RecordFault>
    ensures { GivesSeen (λ v. v.items) result fields.new (items (λ before. form.place) count [] fields.old) }
{
    let mut places = Vec::new(alloc);
    for _ in 0..count {
        let next = fields.place()?;
        places.push(next)?;
    }
    Ok(places)
}

#[tactic(auto, unfolding(crate::specs::Forms::ranges))]
pub(crate) fn ranges(alloc: Global, fields: &mut Fields) -> Result<RangeList, RecordFault>
    ensures { Gives result fields.new (form.ranges fields.old) }
{
    let count = fields.u8_within(1, 64)?;
    let ranges = range_items(alloc, count, fields)?;
    Ok(ItemList::of(ranges))
}

fn range_items(
    alloc: Global,
    count: u8,
    fields: &mut Fields,
) -> Result<Vec<ChunkRange>, RecordFault>
    ensures { GivesSeen (λ v. v.items) result fields.new (items (λ before. form.range) count [] fields.old) }
{
    let mut ranges = Vec::new(alloc);
    for _ in 0..count {
        let next = range(fields)?;
        ranges.push(next)?;
    }
    Ok(ranges)
}

#[tactic(auto, unfolding(crate::specs::Forms::range))]
fn range(fields: &mut Fields) -> Result<ChunkRange, RecordFault>
    ensures { Gives result fields.new (form.range fields.old) }
{
    let first_chunk = fields.u32()?;
    let chunks = fields.u32_within(1, u32::MAX)?;
    Ok(ChunkRange {
        first_chunk,
        chunks,
    })
}

#[tactic(auto, unfolding(crate::specs::Forms::endpoints))]
pub fn endpoints(alloc: Global, fields: &mut Fields) -> Result<EndpointList, RecordFault>
    ensures { Gives result fields.new (form.endpoints fields.old) }
{
    let count = fields.u8_within(0, 8)?;
    let endpoints = endpoint_items(alloc, count, fields)?;
    Ok(ItemList::of(endpoints))
}

fn endpoint_items(
    alloc: Global,
    count: u8,
    fields: &mut Fields,
) -> Result<Vec<EndpointId>, RecordFault>
    ensures { GivesSeen (λ v. v.items) result fields.new (items form.other_endpoint count [] fields.old) }
{
    let mut endpoints = Vec::new(alloc);
    for _ in 0..count {
        let next = other_endpoint(&endpoints, fields)?;
        endpoints.push(next)?;
    }
    Ok(endpoints)
}

/// An endpoint that is not 0 and not among these.
#[tactic(auto, unfolding(crate::specs::Forms::other_endpoint, crate::specs::Reading::allowed))]
fn other_endpoint(before: &[EndpointId], fields: &mut Fields) -> Result<EndpointId, RecordFault>
    ensures { Gives result fields.new (form.other_endpoint before.now fields.old) }
{
    let at = fields.at();
    let endpoint = fields.endpoint()?;
    if is_other_endpoint(before, endpoint) {
        Ok(endpoint)
    } else {
        Err(RecordFault::Bad { at })
    }
}

fn is_other_endpoint(before: &[EndpointId], endpoint: EndpointId) -> bool
    ensures { result ≡ form.is_other_endpoint before.now endpoint }
{
    !(endpoint.0 == 0 || endpoints_have(before, endpoint))
}

fn endpoints_have(endpoints: &[EndpointId], endpoint: EndpointId) -> bool
    ensures { result ≡ form.endpoints_have endpoints.now endpoint }
{
    endpoints.iter().any(|other| other.0 == endpoint.0)
}

#[tactic(auto, unfolding(crate::specs::Forms::copies))]
pub(crate) fn copies(alloc: Global, fields: &mut Fields) -> Result<CopyList, RecordFault>
    ensures { Gives result fields.new (form.copies fields.old) }
{
    let count = fields.u8_within(0, 16)?;
    let copies = copy_items(alloc, count, fields)?;
    Ok(ItemList::of(copies))
}

fn copy_items(alloc: Global, count: u8, fields: &mut Fields) -> Result<Vec<ChunkCopy>, RecordFault>
    ensures { GivesSeen (λ v. v.items) result fields.new (items (λ before. form.copy) count [] fields.old) }
{
    let mut copies = Vec::new(alloc);
    for _ in 0..count {
        let next = copy(fields)?;
        copies.push(next)?;
    }
    Ok(copies)
}

#[tactic(auto, unfolding(crate::specs::Forms::copy))]
fn copy(fields: &mut Fields) -> Result<ChunkCopy, RecordFault>
    ensures { Gives result fields.new (form.copy fields.old) }
{
    let index = fields.u32()?;
    let place = fields.place()?;
    Ok(ChunkCopy { index, place })
}
