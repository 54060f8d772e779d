//! The journal of an image.
ghost use Rattle.std.specs.Prelude.{◌≡◌, ◌+◌, ◌^◌, ◌<◌, ◌≤◌, ◌↔◌, IsTrue};
ghost use Rattle.vv_data.specs.Layout.{area_bytes, chunks_at, disk_len, half_at};
ghost use Rattle.vv_journal.specs.Half.{gates_at, slot_at};
ghost use Rattle.vv_journal.specs.Calls.{JournalState};
ghost use Rattle.vv_journal.specs.Switches.{other_half};

use crate::layout::{gates_start, half_start, slot_start};
use std::marker::Model;
use vv_units::Geometry;

/// The most records of a half.
const MOST_RECORDS: u32 = 256;

/// A journal. Contracts see the sizes of its image, the half that it writes to, and how many records stand there as
/// far as it knows.
#[derive(Debug, Drop)]
pub struct Journal {
    geometry: Geometry,
    /// 0 or 1.
    half: u8,
    records: u32,
}

impl Model for Journal {
    ghost use Rattle.std.specs.Prelude.{◌≤◌};
    ghost use Rattle.vv_journal.specs.Calls.{JournalState};

    ghost Value = { JournalState };

    ghost view = { λ a. record { geometry = a.geometry; half = a.half; records = a.records } };

    ghost invariant = { λ a. (a.half ≤ 1) × (a.records ≤ 256) };
}

impl Journal {
    /// A journal of this half, with so many records in it.
    pub(crate) fn new(geometry: Geometry, half: u8, records: u32) -> Journal
        requires half { half ≤ 1 }
        requires records { records ≤ 256 }
        ensures { result ≡ record { geometry = geometry; half = half; records = records } }
    {
        Journal {
            geometry,
            half,
            records,
        }
    }

    /// Whether there is room for a record: no exactly where 256 stand in the half.
    pub fn room(&self) -> bool
        ensures room { IsTrue result ↔ (self.now.records < 256) }
        ensures within { self.now.records ≤ 256 }
    {
        self.records < MOST_RECORDS
    }

    /// The sizes of its image.
    pub fn geometry(&self) -> Geometry
        ensures { result ≡ self.now.geometry }
    {
        self.geometry
    }

    /// The half that it doesn't write to.
    pub(crate) fn other_half(&self) -> u8
        ensures half { result ≡ other_half self.now.half }
        ensures low { result ≤ 1 }
    {
        1 - self.half
    }

    /// Where the tables stand.
    pub(crate) fn tables_start(&self) -> u64
        ensures start { result ≡ half_at self.now.geometry self.now.half + 8 }
        ensures fits { half_at self.now.geometry self.now.half + area_bytes self.now.geometry ≤ disk_len self.now.geometry }
        ensures small { area_bytes self.now.geometry + half_at self.now.geometry self.now.half ≤ 2 ^ 63 }
    {
        half_start(self.geometry, self.half) + 8
    }

    /// Where the next record goes.
    pub(crate) fn next_slot(&self) -> u64
        requires { self.now.records < 256 }
        ensures start { result ≡ slot_at self.now.geometry self.now.half self.now.records }
        ensures fits { result + 4096 ≤ disk_len self.now.geometry }
        ensures before_chunks { result + 4096 ≤ chunks_at self.now.geometry }
        ensures small { result + 4096 ≤ 2 ^ 63 }
    {
        slot_start(self.geometry, self.half, self.records)
    }

    /// Where the gate of the next record stands.
    pub(crate) fn next_gate(&self) -> u64
        requires { self.now.records < 256 }
        ensures start { result ≡ gates_at self.now.geometry self.now.half + self.now.records }
        ensures fits { result + 1 ≤ disk_len self.now.geometry }
        ensures before_chunks { result + 1 ≤ chunks_at self.now.geometry }
    {
        gates_start(self.geometry, self.half) + u64::from(self.records)
    }

    /// Counts one record more.
    pub(crate) fn count_record(&mut self)
        requires { self.old.records < 256 }
        ensures { self.new ≡ record self.old { records = self.old.records + 1 } }
    {
        self.records += 1;
    }
}
