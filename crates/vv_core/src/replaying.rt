//! Doing the events of records in a log that is opened.
ghost use Rattle.std.specs.Prelude.{◌≡◌, ◌<◌, false, None, IsTrue, OnOk};
ghost use Rattle.vv_flat.specs.State.{empty_volatile};
ghost use Rattle.vv_flat.specs.Chunks.{shape_of_tables};
ghost use Rattle.vv_flat.specs.Changes.{judge};
ghost use Rattle.vv_flat.specs.Fields.{change_has_forms};
ghost use Rattle.vv_flat.specs.Logs.{record_fits, has_turn_indexes};
ghost use Rattle.vv_flat.specs.Replay.{fits, is_accepted, replayed};
ghost use Rattle.vv_event.specs.Events.{log_record, change_of, places_of, indexes_of};
ghost use Rattle.vv_change.specs.Rooms.{IsRoomFor};

use crate::array_core::Core;
use std::alloc::Global;
use std::marker::Brand;
use std::sync::ledger::{Blank, Ledger};
use vv_judge::{Verdict, judge_record};
use vv_record::Event;
use vv_tables::Tables;
use vv_units::{NoMemory, Steps};

impl Core {
    /// Does the event of a record without a mark, which fits, with its memory taken at once. Nothing waits, ahead of it and
    /// afterwards: the array of a log that is opened has no queues and no attentions.
    pub(crate) fn do_event(&mut self, alloc: Global, event: &Event) -> Result<(), NoMemory>
        requires fits { IsTrue (record_fits self.old.array.durable (log_record (record { first_after_open = false; event = event.now }))) }
        requires forms { IsTrue (change_has_forms (change_of event.now)) }
        requires waiting { self.old.array.volatile ≡ empty_volatile }
        ensures durable { OnOk result (self.new.array.durable ≡ replayed self.old.array.durable (change_of event.now) (places_of event.now)) }
        ensures waiting { self.new.array.volatile ≡ empty_volatile }
    {
        let room = vv_change::prepare(alloc, &mut self.tables, event)?;
        apply_uncounted::<Brand>(&mut self.tables, event, room, Blank::new(1));
        Ok(())
    }
}

/// Whether the event of a record is accepted, where every profile counts as one that complies.
pub(crate) fn is_accepted(tables: &Tables, event: &Event) -> bool
    ensures { result ≡ is_accepted (judge None (shape_of_tables tables.now.durable) (change_of event.now)) }
{
    match judge_record(tables, event) {
        Verdict::Refuse(_) => false,
        Verdict::Nothing => false,
        Verdict::Accept => true,
    }
}

/// Does an event, and counts its steps for nobody.
fn apply_uncounted<L: Ledger>(
    tables: &mut Tables,
    event: &Event,
    room: vv_change::Room,
    blank: Blank,
)
    requires fits { IsTrue (fits tables.old.durable (change_of event.now) (places_of event.now)) }
    requires forms { IsTrue (change_has_forms (change_of event.now)) }
    requires indexes { IsTrue (has_turn_indexes tables.old.durable (change_of event.now) (indexes_of event.now)) }
    requires room { IsRoomFor tables.old event.now room }
    requires name { blank.name ≡ L.name }
    requires parts { blank.parts ≡ L.parts }
    requires some { 0 < blank.parts }
    ensures { tables.new.durable ≡ replayed tables.old.durable (change_of event.now) (places_of event.now) }
{
    let mut steps: Steps<L> = Steps::new(blank);
    vv_change::apply(tables, event, room, &mut steps);
}
