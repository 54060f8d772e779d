//! Memory for a write.
use std::marker::Model;
use vv_pool::FreshList;
use vv_vols::MapRoom;

/// Memory for a write: for the chunks that it touches, and for one fresh place. Contracts see the memory for chunks. It can't
/// be dropped: it is given to the write, or closed.
pub struct WriteRoom {
    pub(crate) change: MapRoom,
    pub(crate) taken: FreshList,
}

impl Model for WriteRoom {
    ghost use Rattle.vv_vols.specs.Rows.{RoomView};
    ghost use Rattle.vv_tables.specs.Rooms.{HoldsOne};

    ghost Value = { RoomView };

    ghost view = { λ a. a.change };

    ghost invariant = { λ a. HoldsOne a.taken };
}

impl WriteRoom {
    /// Gives the memory back.
    pub fn close(self) {
        let WriteRoom { change: _, taken } = self;
        taken.close();
    }
}
