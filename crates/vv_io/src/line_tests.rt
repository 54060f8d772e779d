//! The reader of lines, however a source cuts them.
use crate::{LineReader, MemSource, Next, Source, StdSource};
use std::alloc::Global;
use std::io;
use std::test::Fail;
use vv_units::Failed;

// Lines of at most 5 bytes: blank ones, one at the limit, two above it, one with CR, and a last one without LF.
const SCRIPT: &[u8] = b"ab\n\n \t\r\nabcde\nabcdef\n      \n     \nx\r\n{}\n\ny\nlast";

// What a reader answers to its end: each line behind '>', and '*' for one that is too long, '!' for a failure, '.' for the
// end.
fn answers<S: Source>(alloc: Global, source: &mut S) -> Result<Vec<u8>, Fail> {
    let mut reader = LineReader::new(alloc, 5)?;
    let mut told = Vec::new(alloc);
    for _ in 0..12 {
        match reader.next(source) {
            Ok(Next::Line) => {
                told.push(b'>')?;
                told.extend_from_slice(reader.line())?;
            }
            Ok(Next::TooLong) => told.push(b'*')?,
            Ok(Next::End) => {
                told.push(b'.')?;
                return Ok(told);
            }
            Ok(Next::TooMuch) => told.push(b'#')?,
            Err(Failed) => told.push(b'!')?,
        }
    }
    Ok(told)
}

#[test]
fn the_same_lines_come_however_they_are_cut(rt: HostRuntime) -> Result<(), Fail> {
    for piece in [1, 3, 7, 4096] {
        let bytes = SCRIPT.to_vec(rt.alloc())?;
        let mut source = MemSource::new(bytes, piece, Vec::new(rt.alloc()));
        let told = answers(rt.alloc(), &mut source)?;
        assert_eq!(rt; told.as_slice(), b">ab>abcde**>x\r>{}>y>last.".as_slice());
    }
    Ok(())
}

#[test]
fn reading_goes_on_behind_a_failure(rt: HostRuntime) -> Result<(), Fail> {
    let bytes = b"abcdef\nab".to_vec(rt.alloc())?;
    let fail = [2, 5].to_vec(rt.alloc())?;
    let mut source = MemSource::new(bytes, 2, fail);
    let told = answers(rt.alloc(), &mut source)?;
    assert_eq!(rt; told.as_slice(), b"!*!>ab.".as_slice());
    Ok(())
}

/// A stream of std that gives a byte, its end, and then more.
#[derive(Drop)]
struct Resuming {
    reads: usize,
}

impl io::Read for Resuming {
    fn read(&mut self, buffer: &mut [u8]) -> io::Result<usize> {
        self.reads = self.reads.saturating_add(1);
        match buffer {
            [first, ..] if self.reads != 2 => {
                *first = b'a';
                Ok(1)
            }
            _ => Ok(0),
        }
    }
}

#[test]
fn nothing_is_read_behind_the_end(rt: HostRuntime) -> Result<(), Fail> {
    let mut source = StdSource::new(Resuming { reads: 0 });
    let mut reader = LineReader::new(rt.alloc(), 5)?;
    assert_eq!(rt; reader.next(&mut source), Ok(Next::Line));
    assert_eq!(rt; reader.line(), b"a".as_slice());
    assert_eq!(rt; reader.next(&mut source), Ok(Next::End));
    assert_eq!(rt; reader.next(&mut source), Ok(Next::End));
    Ok(())
}

#[test]
fn a_limit_past_all_memory_is_refused(rt: HostRuntime) {
    assert!(rt; LineReader::new(rt.alloc(), usize::MAX).is_err());
}
