//! Copies of what a volume is beside its chunks. These take memory; the calls that use them take none.
ghost use Rattle.std.specs.Prelude.{◌≡◌, IfOk, IfSome, IsSome};
ghost use Rattle.vv_vols.specs.Shelf.{volume_in};
ghost use Rattle.vv_snap.specs.Copies.{IsHeadOf};

use std::alloc::Global;
use vv_units::{ItemList, Name, Need, NeedList, NoMemory, VolumeId};
use vv_vols::{Head, Shelf};

/// A need with the same name and value.
fn copy_need(alloc: Global, need: &Need) -> Result<Need, NoMemory>
    ensures { IfOk result (λ copy. copy ≡ need.now) }
{
    let Some(name) = Name::read(alloc, need.name.items())? else {
        unreachable!()
    };
    Ok(Need {
        name,
        value: need.value,
    })
}

/// The same needs, in the same order.
fn copy_needs(alloc: Global, needs: &NeedList) -> Result<NeedList, NoMemory>
    ensures { IfOk result (λ copies. copies ≡ needs.now) }
{
    let items = needs.items();
    let mut copies = Vec::new(alloc);
    for need in items {
        let copy = copy_need(alloc, need)?;
        if copies.push(copy).is_err() {
            return Err(NoMemory);
        }
    }
    Ok(ItemList::of(copies))
}

/// The head of a volume as it stands, copied whole.
pub fn copy_head(alloc: Global, shelf: &Shelf, volume: VolumeId) -> Result<Head, NoMemory>
    requires { IsSome (volume_in shelf.now.shelf volume.0) }
    ensures { IfOk result (λ head. IsHeadOf shelf.now.shelf volume.0 head) }
{
    let Some(head) = shelf.volume(volume) else {
        unreachable!()
    };
    let needs = copy_needs(alloc, &head.needs)?;
    let metadata = head.metadata.copy()?;
    Ok(Head {
        container: head.container,
        vtype: head.vtype,
        kind: head.kind,
        reverted: head.reverted,
        needs,
        metadata,
    })
}
