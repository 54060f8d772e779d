//! Switching to the other half, with new tables and no record.
ghost use Rattle.std.specs.Prelude.{◌≡◌, ◌<◌, ◌≤◌, ◌+◌, ◌++◌, ◌↔◌, List, ℕ, [], length, OnOk, OnErr, IfOk, IfErr, IfSome};
ghost use Rattle.vv_units.specs.Causes.{HasCause};
ghost use Rattle.vv_disk.specs.Images.{ToldWithin, LeavesOnly, EachImage};
ghost use Rattle.vv_data.specs.Layout.{area_bytes, half_at, half_bytes, chunks_at, disk_len};
ghost use Rattle.vv_journal.specs.Log.{Log, Holds};
ghost use Rattle.vv_journal.specs.Calls.{journal_of, HoldsOver, HoldsEither};
ghost use Rattle.vv_journal.specs.Switches.{SwitchingState, other_half, IsSwitchFrom, HasTables, switched_log};

use crate::Journal;
use crate::half::{length_field, shut_gates};
use crate::layout::{SELECTOR_AT, gates_start, half_start};
use crate::steps::{put, put_settled};
use std::marker::Model;
use vv_disk::Disk;
use vv_units::{DiskFault, Geometry};

/// A switch that was begun. It is ended or given up. Contracts see the sizes of the image, the half that will be
/// selected, how many bytes of its tables were written, and how many there will be.
#[derive(Debug)]
pub struct Switching {
    geometry: Geometry,
    /// 0 or 1.
    half: u8,
    /// How many bytes of the tables were written.
    done: u64,
    /// How many bytes the tables have.
    len: u64,
}

impl Model for Switching {
    ghost use Rattle.std.specs.Prelude.{◌≤◌, ◌+◌};
    ghost use Rattle.vv_data.specs.Layout.{area_bytes};
    ghost use Rattle.vv_journal.specs.Switches.{SwitchingState};

    ghost Value = { SwitchingState };

    ghost view = { λ a. record { geometry = a.geometry; half = a.half; done = a.done; len = a.len } };

    ghost invariant = { λ a. (a.half ≤ 1) × (a.done ≤ a.len) × (8 + a.len ≤ area_bytes a.geometry) };
}

impl Journal {
    /// Begins a switch to tables of so many bytes. Until the switch is ended each crash leaves the log as it is, and the
    /// journal stays.
    pub fn begin_switch<D: Disk>(&mut self, disk: &mut D, len: u64) -> Result<Switching, DiskFault>
        requires full { 256 ≤ self.old.records }
        requires fits { 8 + len ≤ area_bytes self.old.geometry }
        requires disk { D.size disk.old ≡ disk_len self.old.geometry }

        ensures begun { IfOk result (λ switching. switching ≡ record { geometry = self.old.geometry; half = other_half self.old.half; done = 0; len = len }) }
        ensures tables { IfOk result (λ switching. IfSome (D.content disk.new) (HasTables switching [])) }
        ensures each { D.is_honest disk.old → (log : Log) → self.old ≡ journal_of log → EachImage (Holds log) (D.is_image disk.old)
            → EachImage (HoldsOver log (D.is_image disk.old)) (D.is_image disk.new) }

        // A crash at any moment of the call leaves the log as it is.
        ensures any_moment { D.is_honest disk.old → (log : Log) → self.old ≡ journal_of log → EachImage (Holds log) (D.is_image disk.old)
            → LeavesOnly D.moment D.left_since disk.old disk.new (HoldsOver log (D.is_image disk.old)) }

        // What is read of the chunk area stays.
        ensures told { ToldWithin 0 (chunks_at self.old.geometry) (D.content disk.old) (D.content disk.new) }

        ensures same { self.new ≡ self.old }

        ensures len { D.size disk.new ≡ D.size disk.old }
        ensures honesty { D.is_honest disk.new ↔ D.is_honest disk.old }
        ensures fault { IfErr result (λ fault. fault ≡ DiskFault.Write) }
        ensures cause { HasCause (D.write_faults disk.old) (D.write_faults disk.new) result }
        ensures read_faults { D.read_faults disk.new ≡ D.read_faults disk.old }
    {
        let switching = self.new_switch(len);
        match put(disk, switching.start(), &length_field(len)) {
            Ok(()) => Ok(switching),
            Err(fault) => {
                switching.give_up();
                Err(fault)
            }
        }
    }

    /// A switch from the half that the journal writes to, with no byte written.
    fn new_switch(&self, len: u64) -> Switching
        requires { 8 + len ≤ area_bytes self.now.geometry }
        ensures { result ≡ record { geometry = self.now.geometry; half = other_half self.now.half; done = 0; len = len } }
    {
        Switching {
            geometry: self.geometry(),
            half: self.other_half(),
            done: 0,
            len,
        }
    }

    /// Ends a switch whose tables were all written. At Ok each crash from then on leaves the new tables with no record
    /// behind them; at an error the disk holds the old log or the new one.
    pub fn end_switch<D: Disk>(
        &mut self,
        disk: &mut D,
        switching: Switching,
    ) -> Result<(), DiskFault>
        requires whole { switching.done ≡ switching.len }
        requires disk { D.size disk.old ≡ disk_len switching.geometry }

        ensures ok { OnOk result (D.is_honest disk.old → (log : Log) → (tables : List ℕ) → IsSwitchFrom log switching → EachImage (Holds log) (D.is_image disk.old)
            → IfSome (D.content disk.old) (HasTables switching tables)
            → EachImage (HoldsOver (switched_log log tables) (D.is_image disk.old)) (D.is_image disk.new)) }
        ensures err { OnErr result (D.is_honest disk.old → (log : Log) → (tables : List ℕ) → IsSwitchFrom log switching → EachImage (Holds log) (D.is_image disk.old)
            → IfSome (D.content disk.old) (HasTables switching tables)
            → EachImage (HoldsEither log (switched_log log tables) (D.is_image disk.old)) (D.is_image disk.new)) }

        // A crash at any moment of the call leaves the log from before it, or the new tables with no record.
        ensures any_moment { D.is_honest disk.old → (log : Log) → (tables : List ℕ) → IsSwitchFrom log switching → EachImage (Holds log) (D.is_image disk.old)
            → IfSome (D.content disk.old) (HasTables switching tables)
            → LeavesOnly D.moment D.left_since disk.old disk.new (HoldsEither log (switched_log log tables) (D.is_image disk.old)) }

        // What is read of the chunk area stays.
        ensures told { ToldWithin 0 (chunks_at switching.geometry) (D.content disk.old) (D.content disk.new) }

        ensures journal { OnOk result (self.new ≡ record { geometry = switching.geometry; half = switching.half; records = 0 }) }
        ensures same { OnErr result (self.new ≡ self.old) }

        ensures len { D.size disk.new ≡ D.size disk.old }
        ensures honesty { D.is_honest disk.new ↔ D.is_honest disk.old }
        ensures fault { IfErr result (λ fault. fault ≡ DiskFault.Write) }
        ensures cause { HasCause (D.write_faults disk.old) (D.write_faults disk.new) result }
        ensures read_faults { D.read_faults disk.new ≡ D.read_faults disk.old }
    {
        let (geometry, half) = switching.target();
        put_settled(disk, gates_start(geometry, half), &shut_gates())?;
        put_settled(disk, SELECTOR_AT, &[half])?;
        *self = Journal::new(geometry, half, 0);
        Ok(())
    }
}

impl Switching {
    /// Writes the next piece of the tables. At an error the switch can't be ended, since the piece wasn't counted.
    pub fn put<D: Disk>(&mut self, disk: &mut D, piece: &[u8]) -> Result<(), DiskFault>
        requires piece { self.old.done + length piece.now ≤ self.old.len }
        requires disk { D.size disk.old ≡ disk_len self.old.geometry }

        ensures tables { OnOk result ((tables : List ℕ) → IfSome (D.content disk.old) (HasTables self.old tables)
            → IfSome (D.content disk.new) (HasTables self.new (tables ++ piece.now))) }
        ensures each { D.is_honest disk.old → (log : Log) → IsSwitchFrom log self.old → EachImage (Holds log) (D.is_image disk.old)
            → EachImage (HoldsOver log (D.is_image disk.old)) (D.is_image disk.new) }

        // A crash at any moment of the call leaves the log as it is.
        ensures any_moment { D.is_honest disk.old → (log : Log) → IsSwitchFrom log self.old → EachImage (Holds log) (D.is_image disk.old)
            → LeavesOnly D.moment D.left_since disk.old disk.new (HoldsOver log (D.is_image disk.old)) }

        // What is read of the chunk area stays.
        ensures told { ToldWithin 0 (chunks_at self.old.geometry) (D.content disk.old) (D.content disk.new) }

        ensures counted { OnOk result (self.new ≡ record self.old { done = self.old.done + length piece.now }) }
        ensures not_counted { OnErr result (self.new ≡ self.old) }

        ensures len { D.size disk.new ≡ D.size disk.old }
        ensures honesty { D.is_honest disk.new ↔ D.is_honest disk.old }
        ensures fault { IfErr result (λ fault. fault ≡ DiskFault.Write) }
        ensures cause { HasCause (D.write_faults disk.old) (D.write_faults disk.new) result }
        ensures read_faults { D.read_faults disk.new ≡ D.read_faults disk.old }
    {
        put(disk, self.next(), piece)?;
        self.count(piece.len() as u64);
        Ok(())
    }

    /// Lets the switch go. The log stays as it is.
    pub fn give_up(self) {
        let Switching {
            geometry: _,
            half: _,
            done: _,
            len: _,
        } = self;
    }

    /// Where the half stands.
    fn start(&self) -> u64
        ensures start { result ≡ half_at self.now.geometry self.now.half }
        ensures fits { result + half_bytes self.now.geometry ≤ chunks_at self.now.geometry }
        ensures low { self.now.half ≤ 1 }
    {
        half_start(self.geometry, self.half)
    }

    /// Where the next byte of the tables goes.
    fn next(&self) -> u64
        ensures start { result ≡ half_at self.now.geometry self.now.half + 8 + self.now.done }
        ensures within { 8 + self.now.len ≤ area_bytes self.now.geometry }
        ensures fits { half_at self.now.geometry self.now.half + half_bytes self.now.geometry ≤ chunks_at self.now.geometry }
    {
        half_start(self.geometry, self.half) + 8 + self.done
    }

    /// Counts so many bytes more.
    fn count(&mut self, n: u64)
        requires { self.old.done + n ≤ self.old.len }
        ensures { self.new ≡ record self.old { done = self.old.done + n } }
    {
        self.done += n;
    }

    /// The sizes of the image, and the half.
    fn target(self) -> (Geometry, u8)
        ensures geometry { result.0 ≡ self.geometry }
        ensures half { result.1 ≡ self.half }
        ensures low { self.half ≤ 1 }
        ensures fits { 8 + self.len ≤ area_bytes self.geometry }
    {
        let Switching {
            geometry,
            half,
            done: _,
            len: _,
        } = self;
        (geometry, half)
    }
}
