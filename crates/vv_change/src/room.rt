//! Memory for an event.
ghost use Rattle.std.specs.Prelude.{◌≡◌};
ghost use Rattle.vv_change.specs.declared.room.Room.TheVariants as room;
ghost use Rattle.vv_change.specs.Rooms.{IsContainer, IsVolume, IsPairs, IsList, IsCopy, IsWrite, IsRange, IsClone, IsTurn};

use vv_container::Container;
use vv_tables::{CloneRoom, TurnRoom, WriteRoom};
use vv_units::PairList;
use vv_vols::{Head, MapRoom};

/// Memory that was taken for an event. It must be spent: by doing the event, or by giving it up.
pub enum Room {
    /// The event takes none.
    Without,
    /// The container that is made.
    Container(Container),
    /// The head and the list of a volume that is made.
    Volume(Head, MapRoom),
    /// The metadata of a volume as they will be.
    Pairs(PairList),
    /// For a list: of a volume that grows or goes back to a snapshot, or of the pieces of a copy.
    List(MapRoom),
    /// For a snapshot or a fast clone.
    Copy(MapRoom),
    Write(WriteRoom),
    /// For what is unmapped.
    Range(MapRoom),
    Clone(CloneRoom),
    Turn(TurnRoom),
}

impl Room {
    /// The container that is made.
    pub(crate) fn into_container(self) -> Container
        requires { IsContainer self }
        ensures { self ≡ room.Container result }
    {
        match self {
            Room::Container(container) => container,
            _ => unreachable!(),
        }
    }

    /// The head and the list of a volume that is made.
    pub(crate) fn into_volume(self) -> (Head, MapRoom)
        requires { IsVolume self }
        ensures { self ≡ room.Volume result.0 result.1 }
    {
        match self {
            Room::Volume(head, list) => (head, list),
            _ => unreachable!(),
        }
    }

    /// The metadata of a volume.
    pub(crate) fn into_pairs(self) -> PairList
        requires { IsPairs self }
        ensures { self ≡ room.Pairs result }
    {
        match self {
            Room::Pairs(pairs) => pairs,
            _ => unreachable!(),
        }
    }

    /// Memory for a list.
    pub(crate) fn into_list(self) -> MapRoom
        requires { IsList self }
        ensures { self ≡ room.List result }
    {
        match self {
            Room::List(list) => list,
            _ => unreachable!(),
        }
    }

    /// Memory for a snapshot or a fast clone.
    pub(crate) fn into_copy(self) -> MapRoom
        requires { IsCopy self }
        ensures { self ≡ room.Copy result }
    {
        match self {
            Room::Copy(copy) => copy,
            _ => unreachable!(),
        }
    }

    /// Memory for a write.
    pub(crate) fn into_write(self) -> WriteRoom
        requires { IsWrite self }
        ensures { self ≡ room.Write result }
    {
        match self {
            Room::Write(write) => write,
            _ => unreachable!(),
        }
    }

    /// Memory for what is unmapped.
    pub(crate) fn into_range(self) -> MapRoom
        requires { IsRange self }
        ensures { self ≡ room.Range result }
    {
        match self {
            Room::Range(range) => range,
            _ => unreachable!(),
        }
    }

    /// Memory for a full clone.
    pub(crate) fn into_clone(self) -> CloneRoom
        requires { IsClone self }
        ensures { self ≡ room.Clone result }
    {
        match self {
            Room::Clone(clone) => clone,
            _ => unreachable!(),
        }
    }

    /// Memory for a turn of a task.
    pub(crate) fn into_turn(self) -> TurnRoom
        requires { IsTurn self }
        ensures { self ≡ room.Turn result }
    {
        match self {
            Room::Turn(turn) => turn,
            _ => unreachable!(),
        }
    }

    /// Ends the room of an event that takes no memory.
    pub(crate) fn end(self)
        requires { self ≡ room.Without }
    {
        match self {
            Room::Without => {}
            _ => unreachable!(),
        }
    }
}
