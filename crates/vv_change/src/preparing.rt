//! Taking the memory of an event, and giving it back.
ghost use Rattle.std.specs.Prelude.{◌≡◌, ◌+◌, IsSome, IsTrue, IfOk, OnErr};
ghost use Rattle.vv_units.specs.Pairs.{after_set};
ghost use Rattle.vv_flat.specs.State.{volume_of};
ghost use Rattle.vv_flat.specs.Changes as change;
ghost use Rattle.vv_flat.specs.Replay.{fits};
ghost use Rattle.vv_flat.specs.Fields.{change_has_forms};
ghost use Rattle.vv_event.specs.Events.{change_of, places_of};
ghost use Rattle.vv_tables.specs.Copies.{differing};
ghost use Rattle.vv_change.specs.Rooms.{IsRoomFor, IsNewHead, rows_of};

use crate::room::Room;
use std::alloc::Global;
use vv_bitmap::unshared_count;
use vv_container::Container;
use vv_copies::{copy_needs, copy_offers};
use vv_record::Event;
use vv_tables::Tables;
use vv_units::{
    ContainerId, NeedList, NoMemory, OfferList, PairList, VolumeId, VolumeKind, VvolType,
};
use vv_vols::Head;

/// Takes all memory of an event that fits the tables. No list of a volume or of a running task changes, and but for the rows of
/// the room the tables stay. Where memory runs out they stay as they were.
#[tactic(auto, unfolding(vv_event::specs::Events::change_of, vv_event::specs::Events::places_of))]
pub fn prepare(alloc: Global, tables: &mut Tables, event: &Event) -> Result<Room, NoMemory>
    requires fits { IsTrue (fits tables.old.durable (change_of event.now) (places_of event.now)) }
    requires forms { IsTrue (change_has_forms (change_of event.now)) }
    ensures room { IfOk result (λ room. IsRoomFor tables.new event.now room) }
    ensures same { tables.new.durable ≡ tables.old.durable }
    ensures ok { IfOk result (λ room. tables.new ≡ record tables.old { rooms = tables.old.rooms + rows_of room }) }
    ensures err { OnErr result (tables.new ≡ tables.old) }
{
    match event {
        Event::MakeContainer { quota, offers } => {
            Ok(Room::Container(new_container(alloc, *quota, offers)?))
        }
        Event::MakeVolume {
            container,
            vtype,
            chunks,
            needs,
        } => {
            let head = new_head(alloc, *container, *vtype, needs)?;
            let list = tables.reserve_list(*chunks)?;
            Ok(Room::Volume(head, list))
        }
        Event::GrowVolume { volume: _, chunks } => Ok(Room::List(tables.reserve_list(*chunks)?)),
        Event::SetMetadata { volume, key, note } => {
            let pairs = tables.pairs_with(alloc, *volume, key, note.as_ref())?;
            Ok(Room::Pairs(pairs))
        }
        Event::Snapshot { volume } => Ok(Room::Copy(tables.reserve_copy(alloc, *volume)?)),
        Event::FastClone { volume } => Ok(Room::Copy(tables.reserve_copy(alloc, *volume)?)),
        Event::Revert {
            volume: _,
            snapshot,
        } => {
            let chunks = tables.size(*snapshot);
            Ok(Room::List(tables.reserve_list(chunks)?))
        }
        Event::Write {
            volume,
            first_block,
            blocks,
            places: _,
        } => {
            let write = tables.reserve_write(alloc, *volume, *first_block, *blocks)?;
            Ok(Room::Write(write))
        }
        Event::Unmap { volume, ranges: _ } => {
            let chunks = tables.size(*volume);
            Ok(Room::Range(tables.reserve_change(*volume, 0, chunks)?))
        }
        Event::StartClone { volume } => Ok(Room::Clone(tables.reserve_clone(alloc, *volume)?)),
        Event::StartCopy {
            source,
            base,
            target: _,
        } => {
            let pieces = piece_count(tables, *source, *base);
            Ok(Room::List(tables.reserve_list(pieces)?))
        }
        Event::Turn { task, copies: _ } => Ok(Room::Turn(tables.reserve_turn(alloc, *task)?)),
        Event::DeleteVolume { .. }
        | Event::SetEndpoints { .. }
        | Event::Bind { .. }
        | Event::Unbind { .. }
        | Event::UnbindAll { .. }
        | Event::Cancel { .. } => Ok(Room::Without),
    }
}

/// The head of a volume that is made.
fn new_head(
    alloc: Global,
    container: ContainerId,
    vtype: VvolType,
    needs: &NeedList,
) -> Result<Head, NoMemory>
    ensures { IfOk result (λ head. IsNewHead container.0 vtype needs.now head) }
{
    Ok(Head {
        container,
        vtype,
        kind: VolumeKind::Plain,
        reverted: 0,
        needs: copy_needs(alloc, needs)?,
        metadata: PairList::new(alloc),
    })
}

/// A container that is made.
fn new_container(alloc: Global, quota: u64, offers: &OfferList) -> Result<Container, NoMemory>
    requires { IsTrue (change_has_forms (change.MakeContainer quota offers.now)) }
    ensures { IfOk result (λ container. (container.quota ≡ quota) × (container.offered ≡ offers.now)) }
{
    Ok(Container {
        quota,
        offered: copy_offers(alloc, offers)?,
    })
}

/// How many pieces a copy of what differs between a source and a base has.
fn piece_count(tables: &Tables, source: VolumeId, base: VolumeId) -> u32
    requires source { IsSome (volume_of tables.now.durable source.0) }
    requires base { IsSome (volume_of tables.now.durable base.0) }
    ensures { result ≡ differing tables.now.durable source.0 base.0 }
{
    unshared_count(tables.shelf(), source, base)
}
