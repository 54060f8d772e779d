//! The reader of an area that comes in pieces.
ghost use Rattle.std.specs.Prelude.{◌≡◌, ℕ, ◌+◌, ◌≤◌, ◌<◌, ◌^◌, List, [], ◌++◌, true, length, drop, nat_le, nat_lt, IfOk, OnOk};
ghost use Rattle.vv_area.specs.Area.{Tells, tables_in};
ghost use Rattle.vv_area_reader.specs.Progress.{come_to};
ghost use Rattle.vv_area_reader.specs.Told.{told, new_reading, GoesOn};
ghost use Rattle.vv_area_reader.specs.Making.{step_limit, HasEnough, Makes, is_whole, is_whole_at};

use crate::begun::Begun;
use crate::stage::Stage;
use crate::steps::{Made, step};
use std::alloc::Global;
use std::marker::Model;
use std::mem;
use vv_area::{AreaFault, RawTables};
use vv_record::{Fields, RecordFault};
use vv_units::{Geometry, NoMemory};

/// The most bytes that are held, and of a piece that are looked at together.
const BUFFER_LENGTH: usize = 16384;

const FRONT_LENGTH: usize = 4096;

/// No step reads more: a volume without its entries, 8 needs and 64 pairs of the greatest length, and a count.
const STEP_LENGTH: usize = 8624;

/// Reads an area that comes in pieces. It keeps the tables read so far, and the bytes of one step.
#[derive(Drop)]
pub struct RawReader {
    alloc: Global,
    spelling: u8,
    begun: Begun,
    stage: Stage,
    /// How many bytes were read.
    passed: usize,
    /// Bytes that were fed, those from `start` on not yet read.
    buffer: Vec<u8>,
    start: usize,
}

impl Model for RawReader {
    ghost use Rattle.std.specs.Prelude.{◌≤◌, ◌<◌, ◌+◌, ◌^◌, length, drop};
    ghost use Rattle.vv_area_reader.specs.Told.{AreaReading};
    ghost use Rattle.vv_area_reader.specs.Progress.{come_to};

    ghost Value = { AreaReading };

    ghost view = { λ a. record { spelling = a.spelling; progress = come_to a.begun a.stage; passed = a.passed; waiting = drop a.start a.buffer.items } };

    ghost invariant = { λ a. (a.start ≤ length a.buffer.items) × (a.passed + length a.buffer.items < 2 ^ 64 + a.start) };
}

impl RawReader {
    /// A reader to which nothing was fed, of tables in spelling 1 or else in spelling 2.
    pub fn new(alloc: Global, geometry: Geometry, spelling: u8) -> Result<RawReader, NoMemory>
        ensures reader { IfOk result (λ reader. reader ≡ new_reading geometry spelling) }
        ensures tables { IfOk result (λ reader. (area : List ℕ) → told reader area ≡ tables_in geometry spelling area) }
    {
        let buffer = Vec::with_capacity(alloc, BUFFER_LENGTH).map_err(|_| NoMemory)?;
        Ok(RawReader {
            alloc,
            spelling,
            begun: Begun::new(alloc, geometry),
            stage: Stage::Start,
            passed: 0,
            buffer,
            start: 0,
        })
    }

    /// Reads on in the area, whose next bytes these are. What is told in the end stays, whatever comes. A fault is the
    /// one that is told in the end, whatever comes; the reader is given up then. Fewer bytes than one step may read are
    /// kept.
    pub fn feed(&mut self, piece: &[u8]) -> Result<(), AreaFault>
        ensures told { (coming : List ℕ) → GoesOn result (told self.old (piece.now ++ coming)) (told self.new coming) }
        ensures few { length self.old.waiting < step_limit → OnOk result (length self.new.waiting < step_limit) }
    {
        let mut rest = piece;
        while !rest.is_empty() {
            let (front, behind) = rest.split_at(rest.len().min(FRONT_LENGTH));
            self.feed_front(front)?;
            rest = behind;
        }
        Ok(())
    }

    /// The tables, if the area ends here, or the fault.
    pub fn finish(self) -> Result<RawTables, AreaFault>
        ensures { Tells result (told self []) }
    {
        let mut reader = self;
        for _ in 0..u64::MAX {
            if reader.is_whole() {
                return reader.into_tables();
            }
            reader.make_step()?;
        }
        Err(AreaFault::NoMemory)
    }

    /// Reads on in the first bytes of a piece.
    fn feed_front(&mut self, front: &[u8]) -> Result<(), AreaFault>
        ensures told { (coming : List ℕ) → GoesOn result (told self.old (front.now ++ coming)) (told self.new coming) }
        ensures few { OnOk result (length self.new.waiting < step_limit) }
    {
        self.take(front).map_err(|_| AreaFault::NoMemory)?;
        self.make_steps()
    }

    /// Takes bytes that were fed.
    fn take(&mut self, front: &[u8]) -> Result<(), NoMemory>
        ensures { OnOk result (self.new ≡ record self.old { waiting = self.old.waiting ++ front.now }) }
    {
        if BUFFER_LENGTH.saturating_sub(self.buffer.len()) < front.len() {
            remove_front(&mut self.buffer, self.start);
            self.start = 0;
        }
        let end = self.passed + (self.buffer.len() - self.start);
        end.checked_add(front.len()).ok_or(NoMemory)?;
        self.buffer.extend_from_slice(front).map_err(|_| NoMemory)
    }

    /// Makes the steps for which enough bytes wait. No area has so many steps that they end the loop.
    fn make_steps(&mut self) -> Result<(), AreaFault>
        ensures told { (coming : List ℕ) → GoesOn result (told self.old coming) (told self.new coming) }
        ensures few { OnOk result (length self.new.waiting < step_limit) }
    {
        for _ in 0..u64::MAX {
            if !self.has_enough() {
                return Ok(());
            }
            if self.is_whole() {
                return Err(AreaFault::Bad { at: self.passed });
            }
            self.make_step()?;
        }
        Err(AreaFault::NoMemory)
    }

    /// Makes a step, for which enough bytes wait, unless none come.
    fn make_step(&mut self) -> Result<(), AreaFault>
        ensures { (coming : List ℕ) → HasEnough self.old coming → GoesOn result (told self.old coming) (told self.new coming) }
    {
        let stage = mem::replace(&mut self.stage, Stage::Start);
        let (_, waiting) = self.buffer.as_slice().split_at(self.start);
        match make_step(self.alloc, self.spelling, &mut self.begun, stage, waiting) {
            Ok(made) => {
                self.stage = made.stage;
                self.start += made.read;
                self.passed += made.read;
                Ok(())
            }
            Err(RecordFault::Bad { at }) => Err(AreaFault::Bad {
                at: place_behind(self.passed, at),
            }),
            Err(RecordFault::NoMemory) => Err(AreaFault::NoMemory),
        }
    }

    /// Whether enough bytes wait for a step, whatever it reads.
    fn has_enough(&self) -> bool
        ensures { result ≡ nat_le step_limit (length self.now.waiting) }
    {
        STEP_LENGTH <= self.buffer.len() - self.start
    }

    /// Whether all was read but what may follow the tables.
    fn is_whole(&self) -> bool
        ensures { result ≡ is_whole self.now.progress }
    {
        is_whole(&self.begun, &self.stage)
    }

    /// The tables, unless bytes follow them.
    fn into_tables(self) -> Result<RawTables, AreaFault>
        requires { is_whole self.progress ≡ true }
        ensures { Tells result (told self []) }
    {
        let RawReader {
            begun,
            passed,
            buffer,
            start,
            ..
        } = self;
        if are_left(&buffer, start) {
            return Err(AreaFault::Bad { at: passed });
        }
        Ok(begun.into_tables())
    }
}

/// Whether all was read but what may follow the tables.
fn is_whole(begun: &Begun, stage: &Stage) -> bool
    ensures { result ≡ is_whole_at begun.now stage.now }
{
    match stage {
        Stage::Runs { next } => begun.tasks.len() <= *next,
        _ => false,
    }
}

/// Makes the step that comes next over the waiting bytes.
fn make_step(
    alloc: Global,
    spelling: u8,
    begun: &mut Begun,
    stage: Stage,
    waiting: &[u8],
) -> Result<Made, RecordFault>
    ensures { (passed : ℕ) → Makes (record { spelling = spelling; progress = come_to begun.old stage; passed = passed; waiting = waiting.now }) begun.new result }
{
    let mut fields = Fields::new(waiting);
    let stage = step(alloc, spelling, begun, stage, &mut fields)?;
    Ok(Made {
        stage,
        read: fields.at(),
    })
}

/// The place in the area of a place behind the bytes that were read.
fn place_behind(passed: usize, at: usize) -> usize
    requires { passed + at < 2 ^ 64 }
    ensures { result ≡ passed + at }
{
    passed + at
}

/// Whether bytes are left from a place on.
fn are_left(bytes: &[u8], start: usize) -> bool
    ensures { result ≡ nat_lt start (length bytes.now) }
{
    start < bytes.len()
}

/// Takes away the first bytes.
fn remove_front(bytes: &mut Vec<u8>, count: usize)
    requires { count ≤ length bytes.old.items }
    ensures { bytes.new.items ≡ drop count bytes.old.items }
{
    let length = bytes.len();
    bytes.as_mut_slice().copy_within(count..length, 0);
    bytes.truncate(length - count);
}
