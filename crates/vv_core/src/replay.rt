//! Replaying the records of a log.
ghost use Rattle.std.specs.Prelude.{◌≡◌, false, IsTrue, IfOk, if◌then◌else◌};
ghost use Rattle.vv_flat.specs.State.{empty_volatile};
ghost use Rattle.vv_flat.specs.Fields.{change_has_forms};
ghost use Rattle.vv_flat.specs.Logs.{record_fits};
ghost use Rattle.vv_flat.specs.Restart.{interrupted};
ghost use Rattle.vv_event.specs.Events.{log_record, change_of};
ghost use Rattle.vv_core.specs.Replays.{IsReplayed};

use crate::array_core::Core;
use crate::fitting::event_fits;
use std::alloc::Global;
use vv_record::{Event, Record};
use vv_units::NoMemory;

/// What became of a record that was replayed.
#[derive(Clone, Copy, Debug, PartialEq, Eq)]
pub enum Replayed {
    /// Its event is done.
    Applied,
    /// It doesn't fit.
    Misfit,
}

impl Core {
    /// Replays a record of a log: the interruption that its mark asks for, and its event, where it fits. Nothing waits
    /// afterwards. After a misfit, and where there was no memory, the core is to be given up.
    pub fn replay(&mut self, alloc: Global, record: &Record) -> Result<Replayed, NoMemory>
        requires forms { IsTrue (change_has_forms (change_of «record».now.event)) }
        ensures replayed { IsReplayed result self.old.array.durable self.new.array.durable (log_record «record».now) }
        ensures waiting { self.new.array.volatile ≡ empty_volatile }
    {
        self.restart();
        self.interrupt_if(record.first_after_open);
        self.replay_event(alloc, &record.event)
    }

    /// Whether a record without a mark fits.
    pub fn fits(&self, alloc: Global, record: &Record) -> Result<bool, NoMemory>
        requires unmarked { «record».now.first_after_open ≡ false }
        ensures { IfOk result (λ fit. fit ≡ record_fits self.now.array.durable (log_record «record».now)) }
    {
        event_fits(alloc, &self.tables, &record.event)
    }

    /// Ends all running tasks where a record is marked.
    fn interrupt_if(&mut self, marked: bool)
        ensures { self.new.array ≡ (if marked then interrupted self.old.array else self.old.array) }
    {
        if marked {
            self.interrupt();
        }
    }

    /// Replays the event of a record without a mark.
    fn replay_event(&mut self, alloc: Global, event: &Event) -> Result<Replayed, NoMemory>
        requires forms { IsTrue (change_has_forms (change_of event.now)) }
        requires waiting { self.old.array.volatile ≡ empty_volatile }
        ensures replayed { IsReplayed result self.old.array.durable self.new.array.durable (log_record (record { first_after_open = false; event = event.now })) }
        ensures waiting { self.new.array.volatile ≡ empty_volatile }
    {
        if event_fits(alloc, &self.tables, event)? {
            self.do_event(alloc, event)?;
            Ok(Replayed::Applied)
        } else {
            Ok(Replayed::Misfit)
        }
    }
}
