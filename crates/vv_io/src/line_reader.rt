//! Reading the lines of a source, one after another.
ghost use Rattle.std.specs.Prelude.{ℕ, List, ◌≡◌, ◌⊎◌, ◌<◌, ◌≤◌, ◌+◌, ◌^◌, ◌==◌, [], ◌++◌, length, take, vec_capacity, nat_lt, true, false, Some, None, Ok, IfOk, IfSome, IsErr, OnOk, OnErr};
ghost use Rattle.std.specs.Option.{is_some};
ghost use Rattle.std.specs.Io.KnownBytes.{Consumes, IsAtEnd};
ghost use Rattle.vv_units.specs.Causes.{HasCause};
ghost use Rattle.vv_io.specs.Streams.{KeepsOrForgets};
ghost use Rattle.vv_io.specs.Lines.{given_for, has_more, lines_in};
ghost use Rattle.vv_io.specs.Reading.{script_limit, new_reader, begun, lines_ahead, kept_of, front_len, after_cut, given_as, given_in, given_by, IsLine, IsAnswer, Gives, Took, OnePast};

use crate::{Next, Source};
use std::alloc::Global;
use std::marker::Model;
use vv_units::{Failed, NoMemory};

/// The most bytes of a script.
const SCRIPT_LIMIT: usize = 1 << 30;

const PIECE_LENGTH: usize = 4096;

const LINE_FEED: u8 = b'\n';

/// A reader of lines. Its memory is taken once.
#[derive(Drop)]
pub struct LineReader {
    limit: usize,
    line: Vec<u8>,
    is_given: bool,
    piece: Vec<u8>,
    start: usize,
    end: usize,
    taken: usize,
    is_ended: bool,
}

impl Model for LineReader {
    ghost use Rattle.std.specs.Prelude.{◌≡◌, ◌<◌, ◌≤◌, ◌+◌, ◌-◌, ◌^◌, take, drop, length, vec_capacity, false};
    ghost use Rattle.vv_io.specs.Reading.{ReaderState, script_limit, AtMostOnePast};

    ghost Value = { ReaderState };

    ghost view = { λ a. record {
      limit = a.limit;
      line = a.line.items;
      is_given = a.is_given;
      waiting = drop a.start (take a.end a.piece.items);
      taken = a.taken;
      is_ended = a.is_ended;
    } };

    ghost invariant = { λ a.
        (length a.line.items ≤ a.limit + 1) × (a.limit + 1 ≤ vec_capacity a.line) × (a.limit + 1 < 2 ^ 64)
        × (a.start ≤ a.end) × (a.end ≤ 4096) × (length a.piece.items ≡ 4096)
        × AtMostOnePast a.taken (a.end - a.start) a.is_ended };
}

impl LineReader {
    /// A reader of lines of at most `limit` bytes.
    pub fn new(alloc: Global, limit: usize) -> Result<LineReader, NoMemory>
        ensures reader { IfOk result (λ reader. reader ≡ new_reader limit) }
        ensures lines { IfOk result (λ reader. (bytes : List ℕ) → lines_ahead reader bytes ≡ lines_in limit bytes) }
    {
        let line = blank_line(alloc, limit)?;
        let piece = blank_piece(alloc)?;
        Ok(LineReader {
            limit,
            line,
            is_given: false,
            piece,
            start: 0,
            end: 0,
            taken: 0,
            is_ended: false,
        })
    }

    /// The bytes of the line given last. Of one that is above the limit it is the front.
    pub fn line(&self) -> &[u8]
        ensures { result.now ≡ self.now.line }
    {
        &self.line
    }

    /// Goes to the next line, and reads for it what is not there yet. After the end, and after a byte past the most of
    /// a script, nothing is read.
    pub fn next<S: Source>(&mut self, source: &mut S) -> Result<Next, Failed>
        ensures took { Took self.old self.new result (given_by result self.new.line) (S.left source.old) (S.left source.new) }

        // The end is answered where the source gave it and no line is left, and it is the end.
        ensures end { result ≡ Ok Next.End → (self.new.is_ended ≡ true) × (lines_ahead self.new [] ≡ []) }
        ensures at_end { self.new.is_ended ≡ true → self.old.is_ended ≡ false → IsAtEnd (S.left source.new) }
        ensures after_end { self.old.is_ended ≡ true → (source.new ≡ source.old) × (self.new.is_ended ≡ true) × (self.new.taken ≡ self.old.taken) }

        // One byte past the most of a script was taken, and all before it was looked at.
        ensures too_much { result ≡ Ok Next.TooMuch → (self.new.taken ≡ script_limit + 1) × (length self.new.waiting ≡ 1) × (self.new.is_ended ≡ false) }
        ensures past { script_limit < self.new.taken → result ≡ Ok Next.TooMuch }
        ensures one_past { result ≡ Ok Next.TooMuch → self.old.taken ≤ script_limit → OnePast self.old self.new (S.left source.old) (S.left source.new) }
        ensures after_past { script_limit < self.old.taken → source.new ≡ source.old }

        // The source failed, and all that was taken was looked at.
        ensures cause { HasCause (S.faults source.old) (S.faults source.new) result }
        ensures failed { IsErr result → (self.new.waiting ≡ []) × (self.new.is_ended ≡ false) }
    {
        self.begin();
        while self.taken <= SCRIPT_LIMIT {
            if let Some(next) = self.round(source)? {
                return Ok(next);
            }
        }
        Ok(Next::TooMuch)
    }

    /// Gives a line of the waiting bytes, or reads more.
    fn round<S: Source>(&mut self, source: &mut S) -> Result<Option<Next>, Failed>
        requires begun { self.old.is_given ≡ false }
        requires within { self.old.taken ≤ script_limit }
        ensures took { Took self.old self.new result (given_in result self.new.line) (S.left source.old) (S.left source.new) }
        ensures end { result ≡ Ok (Some Next.End) → lines_ahead self.new [] ≡ [] }
        ensures ungiven { result ≡ Ok None → (self.new.is_given ≡ false) × (self.old.is_ended ≡ false) }
        ensures less { result ≡ Ok None → (self.new.is_ended ≡ true) ⊎ (self.old.taken < self.new.taken) }
        ensures past { result ≡ Ok None → script_limit < self.new.taken → OnePast self.old self.new (S.left source.old) (S.left source.new) }
        ensures given { IfOk result (λ next. IfSome next (λ answer. (self.new.taken ≡ self.old.taken) × (source.new ≡ source.old) × IsAnswer answer self.new.is_ended)) }
        ensures ended { self.old.is_ended ≡ true → (source.new ≡ source.old) × (self.new.is_ended ≡ true) × (self.new.taken ≡ self.old.taken) }
        ensures at_end { self.new.is_ended ≡ true → self.old.is_ended ≡ false → IsAtEnd (S.left source.new) }
        ensures cause { HasCause (S.faults source.old) (S.faults source.new) result }
        ensures failed { IsErr result → (self.new.waiting ≡ []) × (self.new.is_ended ≡ false) × (self.new.taken ≡ self.old.taken) }
    {
        if let Some(next) = self.next_waiting() {
            return Ok(Some(next));
        }
        if self.is_ended {
            return Ok(Some(self.last()));
        }
        self.read_piece(source)?;
        Ok(None)
    }

    /// Begins a line, unless one is begun.
    fn begin(&mut self)
        ensures { self.new ≡ record self.old { line = begun self.old; is_given = false } }
    {
        if self.is_given {
            self.line.clear();
            self.is_given = false;
        }
    }

    /// The next line that ends by LF in the waiting bytes. Without one they all go to the line begun.
    fn next_waiting(&mut self) -> Option<Next>
        requires begun { self.old.is_given ≡ false }
        requires within { self.old.taken ≤ script_limit }
        ensures lines { Gives self.old [] (given_as result self.new.line) self.new }
        ensures limit { self.new.limit ≡ self.old.limit }
        ensures taken { self.new.taken ≡ self.old.taken }
        ensures ended { self.new.is_ended ≡ self.old.is_ended }
        ensures none { result ≡ None → (self.new.waiting ≡ []) × (self.new.is_given ≡ false) }
        ensures answer { IfSome result IsLine }
    {
        while self.cut_line() {
            if let Some(next) = self.end_line() {
                return Some(next);
            }
        }
        None
    }

    /// The last line, which lacks its LF, or the end.
    fn last(&mut self) -> Next
        requires none { self.old.waiting ≡ [] }
        requires ended { self.old.is_ended ≡ true }
        requires begun { self.old.is_given ≡ false }
        ensures lines { Gives self.old [] (given_as (Some result) self.new.line) self.new }
        ensures limit { self.new.limit ≡ self.old.limit }
        ensures taken { self.new.taken ≡ self.old.taken }
        ensures ended { self.new.is_ended ≡ self.old.is_ended }
        ensures end { lines_ahead self.new [] ≡ [] }
        ensures answer { IsAnswer result true }
    {
        match self.end_line() {
            Some(next) => next,
            None => Next::End,
        }
    }

    /// Gives the line that is whole now, or passes over it.
    fn end_line(&mut self) -> Option<Next>
        requires begun { self.old.is_given ≡ false }
        ensures given { given_for self.old.limit self.old.line ≡ given_as result self.new.line }
        ensures begun { begun self.new ≡ [] }
        ensures same { self.new ≡ record self.old { line = self.new.line; is_given = is_some result } }
        ensures answer { IfSome result IsLine }
    {
        let answer = answer_for(self.limit, &self.line);
        match answer {
            Some(_) => self.is_given = true,
            None => self.line.clear(),
        }
        answer
    }

    /// Takes the waiting bytes to the first LF to the line begun, and that LF away. Tells whether there is one.
    fn cut_line(&mut self) -> bool
        requires within { self.old.taken ≤ script_limit }
        ensures found { result ≡ nat_lt (front_len self.old.waiting) (length self.old.waiting) }
        ensures after { self.new ≡ after_cut self.old }
    {
        let length = line_length(self.waiting());
        let is_whole = length < self.end - self.start;
        self.keep(length);
        self.start = self.end.min(self.start + length + 1);
        is_whole
    }

    fn waiting(&self) -> &[u8]
        ensures { result.now ≡ self.now.waiting }
    {
        let (taken, _) = self.piece.split_at(self.end);
        taken.split_at(self.start).1
    }

    /// Takes so many of the waiting bytes to the line begun, as far as it has room for them.
    fn keep(&mut self, count: usize)
        requires { count ≤ length self.old.waiting }
        ensures { self.new ≡ record self.old { line = kept_of self.old.limit (self.old.line ++ take count self.old.waiting) } }
    {
        let (taken, _) = self.piece.split_at(self.end);
        let (_, waiting) = taken.split_at(self.start);
        let (front, _) = waiting.split_at(count);
        extend_to(&mut self.line, self.limit + 1, front);
    }

    /// Reads a piece, or notes the end.
    fn read_piece<S: Source>(&mut self, source: &mut S) -> Result<(), Failed>
        requires none { self.old.waiting ≡ [] }
        requires within { self.old.taken ≤ script_limit }
        requires before_end { self.old.is_ended ≡ false }
        ensures same { self.new ≡ record self.old { waiting = self.new.waiting; taken = self.old.taken + length self.new.waiting; is_ended = self.new.is_ended } }
        ensures ok { OnOk result (Consumes (S.left source.old) (S.left source.new) self.new.waiting) }
        ensures end { OnOk result (self.new.is_ended ≡ (length self.new.waiting == 0)) }
        ensures past { script_limit < self.new.taken → self.old.taken ≡ script_limit }
        ensures at_end { self.new.is_ended ≡ true → IsAtEnd (S.left source.new) }
        ensures err { OnErr result (KeepsOrForgets (S.left source.old) (S.left source.new) × (self.new ≡ self.old)) }
        ensures cause { HasCause (S.faults source.old) (S.faults source.new) result }
    {
        let room = self.room();
        self.start = 0;
        self.end = 0;
        let count = read_front(source, &mut self.piece, room)?;
        self.end = count;
        self.taken += count;
        self.is_ended = count == 0;
        Ok(())
    }

    /// How many bytes may be read at once: one past the most of a script only where all before it were read.
    fn room(&self) -> usize
        requires { self.now.taken ≤ script_limit }
        ensures some { 1 ≤ result }
        ensures piece { result ≤ 4096 }
        ensures within { self.now.taken < script_limit → self.now.taken + result ≤ script_limit }
        ensures past { self.now.taken ≡ script_limit → result ≡ 1 }
    {
        if self.taken == SCRIPT_LIMIT {
            return 1;
        }
        PIECE_LENGTH.min(SCRIPT_LIMIT - self.taken)
    }
}

/// What a line is answered by, if it isn't passed over.
#[tactic(auto, unfolding(crate::specs::Lines::given_for))]
fn answer_for(limit: usize, line: &[u8]) -> Option<Next>
    ensures given { given_for limit line.now ≡ given_as result line.now }
    ensures answer { IfSome result IsLine }
{
    if line.len() > limit {
        return Some(Next::TooLong);
    }
    if has_more(line) {
        return Some(Next::Line);
    }
    None
}

fn has_more(line: &[u8]) -> bool
    ensures { result ≡ has_more line.now }
{
    line.iter().any(|b| !matches!(*b, b' ' | b'\t' | b'\r'))
}

fn line_length(bytes: &[u8]) -> usize
    ensures front { result ≡ front_len bytes.now }
    ensures bound { result ≤ length bytes.now }
{
    bytes.iter().take_while(|b| **b != LINE_FEED).count()
}

/// Takes bytes to the end of a line, as far as it stays within so many.
fn extend_to(line: &mut Vec<u8>, most: usize, more: &[u8])
    requires within { length line.old.items ≤ most }
    requires room { most ≤ vec_capacity line.old }
    ensures items { line.new.items ≡ take most (line.old.items ++ more.now) }
    ensures within { length line.new.items ≤ most }
    ensures room { most ≤ vec_capacity line.new }
{
    let room = most - line.len();
    let (fitting, _) = more.split_at(more.len().min(room));
    line.extend_from_slice(fitting).unwrap();
}

/// Reads at most so many bytes to the front of a piece.
fn read_front<S: Source>(source: &mut S, piece: &mut [u8], room: usize) -> Result<usize, Failed>
    requires some { 1 ≤ room }
    requires fits { room ≤ length piece.old }
    ensures length { length piece.new ≡ length piece.old }
    ensures bound { IfOk result (λ n. n ≤ room) }
    ensures ok { IfOk result (λ n. Consumes (S.left source.old) (S.left source.new) (take n piece.new)) }
    ensures end { IfOk result (λ n. n ≡ 0 → IsAtEnd (S.left source.new)) }
    ensures err { OnErr result (KeepsOrForgets (S.left source.old) (S.left source.new)) }
    ensures cause { HasCause (S.faults source.old) (S.faults source.new) result }
{
    source.read(&mut piece[..room])
}

/// An empty line with room for one byte above the limit.
fn blank_line(alloc: Global, limit: usize) -> Result<Vec<u8>, NoMemory>
    ensures items { IfOk result (λ line. line.items ≡ []) }
    ensures room { IfOk result (λ line. limit + 1 ≤ vec_capacity line) }
    ensures small { OnOk result (limit + 1 < 2 ^ 64) }
{
    let room = limit.checked_add(1).ok_or(NoMemory)?;
    Vec::with_capacity(alloc, room).map_err(|_| NoMemory)
}

fn blank_piece(alloc: Global) -> Result<Vec<u8>, NoMemory>
    ensures { IfOk result (λ piece. length piece.items ≡ 4096) }
{
    vec![in alloc; 0; PIECE_LENGTH].map_err(|_| NoMemory)
}
