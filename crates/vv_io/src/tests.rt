//! Each source and sink once, through its trait, and what std's readers and writers may do.
use crate::{MemSink, MemSource, Sink, Source, StdSink, StdSource};
use std::io;
use std::io::ErrorKind;
use std::test::Fail;
use vv_units::Failed;

// What four reads of at most three bytes give: how many, and the first of them.
fn four_reads<S: Source>(source: &mut S) -> [Result<(usize, u8), Failed>; 4] {
    [
        one_read(source),
        one_read(source),
        one_read(source),
        one_read(source),
    ]
}

fn one_read<S: Source>(source: &mut S) -> Result<(usize, u8), Failed> {
    let mut into = [0; 3];
    let count = source.read(&mut into)?;
    Ok((count, into[0]))
}

fn two_writes<K: Sink>(sink: &mut K) -> [Result<usize, Failed>; 2] {
    [sink.write(b"abc"), sink.write(b"de")]
}

#[test]
fn sources_give_what_they_hold(rt: HostRuntime) -> Result<(), Fail> {
    let bytes = b"abcd".to_vec(rt.alloc())?;
    let fail = [1].to_vec(rt.alloc())?;
    let mut source = MemSource::new(bytes, 2, fail);
    let given = four_reads(&mut source);
    assert_eq!(rt; given[0], Ok((2, b'a')));
    assert_eq!(rt; given[1], Err(Failed));
    assert_eq!(rt; given[2], Ok((2, b'c')));
    assert_eq!(rt; given[3], Ok((0, 0)));

    let mut standard = StdSource::new(b"abcd".as_slice());
    let given = four_reads(&mut standard);
    assert_eq!(rt; given[0], Ok((3, b'a')));
    assert_eq!(rt; given[1], Ok((1, b'd')));
    assert_eq!(rt; given[2], Ok((0, 0)));
    Ok(())
}

#[test]
fn sinks_keep_what_they_take(rt: HostRuntime) -> Result<(), Fail> {
    let mut sink = MemSink::new(rt.alloc(), 4, Vec::new(rt.alloc()))?;
    assert_eq!(rt; two_writes(&mut sink), [Ok(3), Ok(1)]);
    assert_eq!(rt; sink.bytes(), b"abcd".as_slice());
    assert_eq!(rt; two_writes(&mut sink), [Err(Failed), Err(Failed)]);

    let fail = [0].to_vec(rt.alloc())?;
    let mut sink = MemSink::new(rt.alloc(), 4, fail)?;
    assert_eq!(rt; two_writes(&mut sink), [Err(Failed), Ok(2)]);
    assert_eq!(rt; sink.bytes(), b"de".as_slice());

    let mut standard = StdSink::new(Vec::new(rt.alloc()));
    assert_eq!(rt; two_writes(&mut standard), [Ok(3), Ok(2)]);
    Ok(())
}

/// A stream of std that fails so often, and then gives one byte a read and takes all that is written.
#[derive(Drop)]
struct Flaky {
    failures: usize,
    kind: ErrorKind,
}

impl Flaky {
    fn outcome(&mut self) -> io::Result<()> {
        if self.failures > 0 {
            self.failures -= 1;
            return Err(io::Error::from(self.kind));
        }
        Ok(())
    }
}

impl io::Read for Flaky {
    fn read(&mut self, buffer: &mut [u8]) -> io::Result<usize> {
        self.outcome()?;
        match buffer {
            [] => Ok(0),
            [first, ..] => {
                *first = b'a';
                Ok(1)
            }
        }
    }
}

impl io::Write for Flaky {
    fn write(&mut self, bytes: &[u8]) -> io::Result<usize> {
        self.outcome()?;
        Ok(bytes.len())
    }

    fn flush(&mut self) -> io::Result<()> {
        self.outcome()
    }
}

fn failing(failures: usize, kind: ErrorKind) -> Flaky {
    Flaky { failures, kind }
}

#[test]
fn an_error_of_a_reader_is_answered_once(rt: HostRuntime) {
    for kind in [ErrorKind::ConnectionReset, ErrorKind::Interrupted] {
        let mut source = StdSource::new(failing(1, kind));
        assert_eq!(rt; one_read(&mut source), Err(Failed));
        assert_eq!(rt; one_read(&mut source), Ok((1, b'a')));
    }
}

#[test]
fn a_failing_reader_fails_at_an_empty_slice(rt: HostRuntime) {
    let mut source = StdSource::new(failing(1, ErrorKind::ConnectionReset));
    assert_eq!(rt; source.read(&mut []), Err(Failed));
    assert_eq!(rt; source.read(&mut []), Ok(0));
}

#[test]
fn an_error_of_a_writer_is_answered_once(rt: HostRuntime) {
    for kind in [ErrorKind::ConnectionReset, ErrorKind::Interrupted] {
        let mut sink = StdSink::new(failing(1, kind));
        assert_eq!(rt; two_writes(&mut sink), [Err(Failed), Ok(2)]);
    }
}

#[test]
fn a_long_piece_is_read_and_written_whole(rt: HostRuntime) -> Result<(), Fail> {
    let mut piece = Vec::new(rt.alloc());
    piece.resize(65_537, b'x')?;
    let mut sink = StdSink::new(failing(0, ErrorKind::ConnectionReset));
    assert_eq!(rt; sink.write(piece.as_slice()), Ok(65_537));
    let mut into = Vec::new(rt.alloc());
    into.resize(65_537, 0)?;
    let mut source = StdSource::new(piece.as_slice());
    assert_eq!(rt; source.read(into.as_mut_slice()), Ok(65_537));
    assert_eq!(rt; into.as_slice(), piece.as_slice());
    Ok(())
}
