//! Doing calls, with memory that was taken before.
ghost use Rattle.std.specs.Prelude.{◌≡◌, ◌+◌, false, IsTrue, IfOk, OnErr};
ghost use Rattle.vv_flat.specs.Fields.{change_has_forms};
ghost use Rattle.vv_flat.specs.Logs.{record_fits};
ghost use Rattle.vv_calls.specs.Formed.{IsFormed};
ghost use Rattle.vv_event.specs.Events.{log_record, change_of};
ghost use Rattle.vv_change.specs.Rooms.{IsCheap, rows_of};
ghost use Rattle.vv_core.specs.Core.{tables_in, passed, applied};
ghost use Rattle.vv_core.specs.Rooms.{given_back, IsRoomFor, IsEventRoomFor};

use crate::array_core::Core;
use crate::attending::attend;
use crate::room::Room;
use crate::step::{do_step, step_for};
use std::alloc::Global;
use std::sync::ledger::Ledger;
use vv_calls::Call;
use vv_record::{Event, Record};
use vv_units::{NoMemory, Steps};

impl Core {
    /// Takes the memory for a call that is not journaled. The array stays, and where memory runs out all of the core.
    pub fn prepare(&mut self, alloc: Global, call: &Call) -> Result<Room, NoMemory>
        requires formed { IsFormed call.now }
        ensures room { IfOk result (IsRoomFor self.new call.now) }
        ensures same { self.new.array ≡ self.old.array }
        ensures memory { IfOk result (λ room. given_back self.new.memory room ≡ self.old.memory) }
        ensures err { OnErr result (self.new ≡ self.old) }
    {
        let step = step_for(alloc, &self.tables, &self.waiting, call)?;
        Ok(Room {
            step,
            change: vv_change::Room::Without,
        })
    }

    /// Takes the memory for a call with this event, which fits, and its new places. The array stays, and where memory runs out
    /// all of the core.
    pub fn prepare_event(
        &mut self,
        alloc: Global,
        call: &Call,
        event: &Event,
    ) -> Result<Room, NoMemory>
        requires formed { IsFormed call.now }
        requires fits { IsTrue (record_fits self.old.array.durable (log_record (record { first_after_open = false; event = event.now }))) }
        requires forms { IsTrue (change_has_forms (change_of event.now)) }
        ensures room { IfOk result (IsEventRoomFor self.new call.now event.now) }
        ensures same { self.new.array ≡ self.old.array }
        ensures memory { IfOk result (λ room. given_back self.new.memory room ≡ self.old.memory) }
        ensures err { OnErr result (self.new ≡ self.old) }
    {
        let step = step_for(alloc, &self.tables, &self.waiting, call)?;
        let change = vv_change::prepare(alloc, &mut self.tables, event)?;
        Ok(Room { step, change })
    }

    /// Does a call with its event. It takes no memory but the room's, and all of its rows. A snapshot, a fast clone, a revert and
    /// the start of a full clone take at most a step for every 64 chunks.
    pub fn apply<L: Ledger>(
        &mut self,
        call: &Call,
        record: &Record,
        room: Room,
        steps: &mut Steps<L>,
    )
        requires room { IsEventRoomFor self.old call.now «record».now.event room }
        ensures array { self.new.array ≡ applied self.old.array call.now «record».now.event }
        ensures rooms { self.new.memory.rooms + rows_of room.change ≡ self.old.memory.rooms }
        ensures steps { IsCheap (tables_in self.old) «record».now.event steps.old steps.new }
    {
        let Room { step, change } = room;
        do_step(&mut self.waiting, step);
        attend(&mut self.waiting, &self.tables, &record.event);
        vv_change::apply(&mut self.tables, &record.event, change, steps);
    }

    /// Does a call that is not journaled. What was taken of memory is given back.
    #[tactic(auto, unfolding(crate::specs::Core::passed))]
    pub fn pass(&mut self, call: &Call, room: Room)
        requires room { IsRoomFor self.old call.now room }
        ensures array { self.new.array ≡ passed self.old.array call.now }
        ensures memory { self.new.memory ≡ given_back self.old.memory room }
    {
        let Room { step, change } = room;
        vv_change::give_up(&mut self.tables, change);
        do_step(&mut self.waiting, step);
    }

    /// Gives up the room of a call. The array stays, and what was taken of memory is given back.
    pub fn give_up(&mut self, call: &Call, room: Room)
        requires room { IsRoomFor self.old call.now room }
        ensures array { self.new.array ≡ self.old.array }
        ensures memory { self.new.memory ≡ given_back self.old.memory room }
    {
        let Room { step: _, change } = room;
        vv_change::give_up(&mut self.tables, change);
    }
}
