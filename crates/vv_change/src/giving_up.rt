//! Giving back the memory of an event that isn't done.
ghost use Rattle.std.specs.Prelude.{◌≡◌, ◌≤◌, ◌-◌};
ghost use Rattle.vv_change.specs.Rooms.{rows_of};

use crate::room::Room;
use vv_tables::Tables;

/// Gives back the memory of an event: the tables are as before it was taken.
pub fn give_up(tables: &mut Tables, room: Room)
    requires { rows_of room ≤ tables.old.rooms }
    ensures { tables.new ≡ record tables.old { rooms = tables.old.rooms - rows_of room } }
{
    match room {
        Room::Without => {}
        Room::Container(container) => drop(container),
        Room::Volume(head, list) => {
            drop(head);
            tables.give_up_list(list);
        }
        Room::Pairs(pairs) => drop(pairs),
        Room::List(list) => tables.give_up_list(list),
        Room::Copy(list) => tables.give_up_list(list),
        Room::Write(write) => write.close(),
        Room::Range(range) => drop(range),
        Room::Clone(clone) => tables.give_up_clone(clone),
        Room::Turn(turn) => turn.give_up(),
    }
}
