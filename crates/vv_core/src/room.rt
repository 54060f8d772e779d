//! Room for a call.

use crate::step::WaitingStep;
use std::marker::Model;

/// The memory of a call's step, and its new places. It is spent by the next call that changes the core.
pub struct Room {
    pub(crate) step: WaitingStep,
    pub(crate) change: vv_change::Room,
}

impl Model for Room {
    ghost use Rattle.vv_core.specs.Rooms.{RoomState};

    ghost Value = { RoomState };

    ghost view = { λ a. record { step = a.step; change = a.change } };
}
