//! A law of events. It is a function without arguments that does nothing: what it ensures is the law.
ghost use Rattle.std.specs.Prelude.{◌≡◌};
ghost use Rattle.vv_record.specs.declared.record.Event.{Event};
ghost use Rattle.vv_event.specs.Events.{change_of, places_of, indexes_of, event_of};

/// An event is told by its change, the places of its new chunks and, of a turn, their indexes: nothing of it is lost.
pub fn an_event_is_told_by_its_change_and_places()
    ensures { (e : Event) → event_of (change_of e) (indexes_of e) (places_of e) ≡ e }
{}
