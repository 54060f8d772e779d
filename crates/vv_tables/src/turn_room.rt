//! Memory for a turn of a task.
ghost use Rattle.std.specs.Prelude.{◌≡◌, []};
ghost use Rattle.vv_tables.specs.declared.turn_room.RoomKind.TheVariants.{Clone, Copy};
ghost use Rattle.vv_tables.specs.TurnRooms.{IsUnspent};

use std::marker::Model;
use vv_pool::FreshList;
use vv_vols::MapRoom;

/// What a turn takes: one of a clone memory for a fresh place at a time, the last one of a copy memory for changes of its whole
/// target.
pub(crate) enum RoomKind {
    Clone(FreshList),
    Copy(MapRoom),
}

/// Memory for a turn of a running task. It can't be dropped: a turn takes it, or it is given up.
pub struct TurnRoom {
    kind: RoomKind,
}

impl Model for TurnRoom {
    ghost use Rattle.vv_tables.specs.declared.turn_room.RoomKind.{RoomKind};
    ghost use Rattle.vv_tables.specs.TurnRooms.{IsUnspent};

    ghost Value = { RoomKind };

    ghost view = { λ a. a.kind };

    ghost invariant = { λ a. IsUnspent a.kind };
}

impl TurnRoom {
    /// Memory for a turn of a clone, with no fresh place yet.
    pub(crate) fn of_clone(taken: FreshList) -> TurnRoom
        requires { taken.places ≡ [] }
        ensures { result ≡ Clone taken }
    {
        TurnRoom {
            kind: RoomKind::Clone(taken),
        }
    }

    /// Memory for a turn of a copy.
    pub(crate) fn of_copy(room: MapRoom) -> TurnRoom
        ensures { result ≡ Copy room }
    {
        TurnRoom {
            kind: RoomKind::Copy(room),
        }
    }

    /// The memory that it is.
    pub(crate) fn into_kind(self) -> RoomKind
        ensures kind { result ≡ self }
        ensures unspent { IsUnspent result }
    {
        let TurnRoom { kind } = self;
        kind
    }

    /// Gives the memory up.
    pub fn give_up(self) {
        match self.into_kind() {
            RoomKind::Clone(taken) => taken.close(),
            RoomKind::Copy(room) => let_go(room),
        }
    }
}

/// Lets memory go that is not needed.
pub(crate) fn let_go(room: MapRoom) {
    let _unused = room;
}
