//! Doing an event, with memory that was taken before.
ghost use Rattle.std.specs.Prelude.{◌≡◌, ◌+◌, IsTrue};
ghost use Rattle.vv_flat.specs.Replay.{fits, replayed};
ghost use Rattle.vv_flat.specs.Fields.{change_has_forms};
ghost use Rattle.vv_flat.specs.Logs.{has_turn_indexes};
ghost use Rattle.vv_event.specs.Events.{change_of, places_of, indexes_of};
ghost use Rattle.vv_change.specs.Rooms.{IsRoomFor, IsCheap, rows_of};

use crate::room::Room;
use std::sync::ledger::Ledger;
use vv_pool::Steps;
use vv_record::Event;
use vv_tables::Tables;

/// Does an event that fits the tables: they are what a record of it makes of them. It takes no memory but the room's, and all of
/// its rows.
#[tactic(auto, unfolding(vv_event::specs::Events::change_of, vv_event::specs::Events::places_of))]
pub fn apply<L: Ledger>(tables: &mut Tables, event: &Event, room: Room, steps: &mut Steps<L>)
    requires fits { IsTrue (fits tables.old.durable (change_of event.now) (places_of event.now)) }
    requires forms { IsTrue (change_has_forms (change_of event.now)) }
    requires indexes { IsTrue (has_turn_indexes tables.old.durable (change_of event.now) (indexes_of event.now)) }
    requires room { IsRoomFor tables.old event.now room }
    ensures durable { tables.new.durable ≡ replayed tables.old.durable (change_of event.now) (places_of event.now) }
    ensures rooms { tables.new.rooms + rows_of room ≡ tables.old.rooms }
    ensures steps { IsCheap tables.old event.now steps.old steps.new }
{
    match event {
        Event::MakeContainer { .. } => tables.make_container(room.into_container()),
        Event::MakeVolume { chunks, .. } => {
            let (head, list) = room.into_volume();
            tables.make_volume(*chunks, head, list);
        }
        Event::DeleteVolume { volume } => {
            room.end();
            tables.delete_volume(*volume);
        }
        Event::GrowVolume { volume, chunks } => {
            tables.grow_volume(*volume, *chunks, room.into_list(), steps);
        }
        Event::SetMetadata { volume, .. } => tables.set_metadata(*volume, room.into_pairs()),
        Event::Snapshot { volume } => tables.snapshot(*volume, room.into_copy(), steps),
        Event::FastClone { volume } => tables.fast_clone(*volume, room.into_copy(), steps),
        Event::Revert { volume, snapshot } => {
            tables.revert(*volume, *snapshot, room.into_list(), steps);
        }
        Event::Write {
            volume,
            first_block,
            blocks,
            places,
        } => tables.write(
            *volume,
            *first_block,
            *blocks,
            places.items(),
            room.into_write(),
            steps,
        ),
        Event::Unmap { volume, ranges } => {
            tables.unmap(*volume, ranges.items(), room.into_range(), steps);
        }
        Event::SetEndpoints { host, endpoints } => {
            room.end();
            tables.set_endpoints(*host, endpoints.items());
        }
        Event::Bind { host, volume } => {
            room.end();
            tables.bind(*host, *volume);
        }
        Event::Unbind {
            host,
            endpoint,
            secondary,
        } => {
            room.end();
            tables.unbind(*host, *endpoint, *secondary);
        }
        Event::UnbindAll { host } => {
            room.end();
            tables.unbind_all(*host);
        }
        Event::StartClone { volume } => {
            tables.start_clone(*volume, room.into_clone(), steps);
        }
        Event::StartCopy {
            source,
            base,
            target,
        } => tables.start_copy(*source, *base, *target, room.into_list(), steps),
        Event::Cancel { task } => {
            room.end();
            tables.cancel(*task);
        }
        Event::Turn { task, copies } => {
            tables.turn(*task, copies.items(), room.into_turn(), steps);
        }
    }
}
