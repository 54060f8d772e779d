//! Each list copied once.
use crate::{copy_endpoints, copy_needs, copy_offers};
use std::test::Fail;
use vv_units::{EndpointId, ItemList, Name, Need, Offer};

#[test]
fn needs_are_copied(rt: HostRuntime) -> Result<(), Fail> {
    let alloc = rt.alloc();
    let name = Name::read(alloc, b"raid-level")?.ok_or("a name")?;
    let mut items = Vec::new(alloc);
    items.push(Need { name, value: 5 })?;
    let copy = copy_needs(alloc, &ItemList::of(items))?;
    assert_eq!(rt; copy.items().len(), 1);
    assert_eq!(rt; copy.items()[0].value, 5);
    Ok(())
}

#[test]
fn offers_are_copied(rt: HostRuntime) -> Result<(), Fail> {
    let alloc = rt.alloc();
    let name = Name::read(alloc, b"min-iops")?.ok_or("a name")?;
    let mut items = Vec::new(alloc);
    items.push(Offer { name, value: 7 })?;
    let copy = copy_offers(alloc, &ItemList::of(items))?;
    assert_eq!(rt; copy.items().len(), 1);
    assert_eq!(rt; copy.items()[0].value, 7);
    Ok(())
}

#[test]
fn endpoints_are_copied_in_order(rt: HostRuntime) -> Result<(), Fail> {
    let alloc = rt.alloc();
    let endpoints = ItemList::of([EndpointId(3), EndpointId(1)].to_vec(alloc)?);
    let copy = copy_endpoints(alloc, &endpoints)?;
    assert_eq!(rt; copy.items()[0].0, 3);
    assert_eq!(rt; copy.items()[1].0, 1);
    Ok(())
}
