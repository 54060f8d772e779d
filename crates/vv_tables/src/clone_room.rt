//! Memory for a full clone.

use std::marker::Model;
use vv_vols::{Head, MapRoom};

/// Memory for a full clone of a volume: a copy of its head, and room for the lists of the clone's image and its target. What
/// isn't used may be dropped.
#[derive(Drop)]
pub struct CloneRoom {
    pub(crate) head: Head,
    pub(crate) image: MapRoom,
    pub(crate) target: MapRoom,
}

impl Model for CloneRoom {
    ghost use Rattle.vv_tables.specs.CopyRooms.{CloneRoomView};

    ghost Value = { CloneRoomView };

    ghost view = { λ a. record { head = a.head; image = a.image; target = a.target } };
}
