//! The copies.
ghost use Rattle.std.specs.Prelude.{◌≡◌, IfOk};

use std::alloc::Global;
use vv_units::{EndpointId, ItemList, Key, Name, Need, NeedList, NoMemory, Note, Offer, OfferList};

/// The same name.
fn copy_name(alloc: Global, name: &Name) -> Result<Name, NoMemory>
    ensures { IfOk result (λ copy. copy ≡ name.now) }
{
    let Some(copy) = Name::read(alloc, name.items())? else {
        unreachable!()
    };
    Ok(copy)
}

/// The same need.
fn copy_need(alloc: Global, need: &Need) -> Result<Need, NoMemory>
    ensures { IfOk result (λ copy. copy ≡ need.now) }
{
    let name = copy_name(alloc, &need.name)?;
    Ok(Need {
        name,
        value: need.value,
    })
}

/// The same offer.
fn copy_offer(alloc: Global, offer: &Offer) -> Result<Offer, NoMemory>
    ensures { IfOk result (λ copy. copy ≡ offer.now) }
{
    let name = copy_name(alloc, &offer.name)?;
    Ok(Offer {
        name,
        value: offer.value,
    })
}

/// The same needs, in the same order.
pub fn copy_needs(alloc: Global, needs: &NeedList) -> Result<NeedList, NoMemory>
    ensures { IfOk result (λ copies. copies ≡ needs.now) }
{
    let items = needs.items();
    let mut copies = Vec::new(alloc);
    for need in items {
        let copy = copy_need(alloc, need)?;
        if copies.push(copy).is_err() {
            return Err(NoMemory);
        }
    }
    Ok(ItemList::of(copies))
}

/// The same offers, in the same order.
pub fn copy_offers(alloc: Global, offers: &OfferList) -> Result<OfferList, NoMemory>
    ensures { IfOk result (λ copies. copies ≡ offers.now) }
{
    let items = offers.items();
    let mut copies = Vec::new(alloc);
    for offer in items {
        let copy = copy_offer(alloc, offer)?;
        if copies.push(copy).is_err() {
            return Err(NoMemory);
        }
    }
    Ok(ItemList::of(copies))
}

/// The same endpoints, in the same order.
pub fn copy_endpoints(
    alloc: Global,
    endpoints: &ItemList<EndpointId>,
) -> Result<ItemList<EndpointId>, NoMemory>
    ensures { IfOk result (λ copies. copies ≡ endpoints.now) }
{
    let copies = Vec::from_slice(alloc, endpoints.items()).map_err(|_| NoMemory)?;
    Ok(ItemList::of(copies))
}

/// The same key.
pub fn copy_key(key: &Key) -> Result<Key, NoMemory>
    ensures { IfOk result (λ copy. copy ≡ key.now) }
{
    key.clone().map_err(|_| NoMemory)
}

/// The same note, if there is one.
pub fn copy_note(note: &Option<Note>) -> Result<Option<Note>, NoMemory>
    ensures { IfOk result (λ copy. copy ≡ note.now) }
{
    match note {
        Some(note) => Ok(Some(note.clone().map_err(|_| NoMemory)?)),
        None => Ok(None),
    }
}
