//! Lines that are no calls, and the pieces in which a script comes.
ghost use Rattle.std.specs.Prelude.{◌≤◌};

use crate::Status;
use crate::tests::{SINK_ROOM, disk_for, is_played, lines_behind, run_it, words_of};
use std::alloc::Global;
use std::test::Fail;
use vv_io::{MemSink, MemSource};

/// Lines that are no calls.
const BAD_LINES: &str = r#"$ new d.img 16 2048 256
> {"call":"queryPool"
< {"fault":"NotJson","ok":false}
> {"call":"fly"}
< {"fault":"UnknownCall","ok":false}
> {"call":"createVirtualVolume","sizeInMB":4.5,"vvolType":"Data"}
< {"fault":"BadField","name":"sizeInMB","ok":false}
> {"call":"createVirtualVolume","vvolType":"Data"}
< {"fault":"MissingField","name":"sizeInMB","ok":false}
> {"call":"queryPool"}
< {"chunks":16,"entries":0,"free":16,"ok":true,"reserved":0,"used":0}
"#;

/// A list, a call that is a number, nesting of 128, and a number past 64 bits.
const HOSTILE_LINES: &str = r#"$ new d.img 16 2048 256
> []
< {"fault":"MissingField","name":"call","ok":false}
> {"call":7}
< {"fault":"BadField","name":"call","ok":false}
> [[[[[[[[[[[[[[[[[[[[[[[[[[[[[[[[[[[[[[[[[[[[[[[[[[[[[[[[[[[[[[[[[[[[[[[[[[[[[[[[[[[[[[[[[[[[[[[[[[[[[[[[[[[[[[[[[[[[[[[[[[[[[[[[
< {"fault":"NotJson","ok":false}
> {"call":"createVirtualVolume","sizeInMB":18446744073709551616,"vvolType":"Data"}
< {"fault":"BadField","name":"sizeInMB","ok":false}
"#;

#[test]
fn lines_go_as_told(rt: HostRuntime) -> Result<(), Fail> {
    for scene in [BAD_LINES, HOSTILE_LINES] {
        assert!(rt; is_played(rt.alloc(), scene)?);
    }
    Ok(())
}

/// What is told of the bad lines, of a line that is too long, and of a last line without its end.
fn bad_script(alloc: Global) -> Result<Vec<u8>, Fail> {
    let mut script = lines_behind(alloc, BAD_LINES, "> ")?;
    let long = vec![in alloc; b' '; 4_194_305]?;
    script.extend_from_slice(&long)?;
    script.extend_from_slice(b"\n{\"call\":\"queryPool\"}")?;
    Ok(script)
}

const LAST_LINES: &str = r#"{"fault":"LineTooLong","ok":false}
{"chunks":16,"entries":0,"free":16,"ok":true,"reserved":0,"used":0}
"#;

/// Whether the script of bad lines is answered so, in pieces of this many bytes.
fn is_answered(alloc: Global, piece: usize) -> Result<bool, Fail>
    requires { 1 ≤ piece }
{
    let words = words_of(alloc, "new d.img 16 2048 256")?;
    let mut disk = disk_for(alloc, words.as_slice(), Vec::new(alloc))?;
    let mut source = MemSource::new(bad_script(alloc)?, piece, Vec::new(alloc));
    let mut sink = MemSink::new(alloc, SINK_ROOM, Vec::new(alloc))?;
    let status = run_it(alloc, words.as_slice(), &mut source, &mut sink, &mut disk)?;
    let mut told = lines_behind(alloc, BAD_LINES, "< ")?;
    told.extend_from_slice(LAST_LINES.as_bytes())?;
    Ok(status == Status::Done && sink.bytes() == told.as_slice())
}

#[test]
fn a_script_comes_in_any_pieces(rt: HostRuntime) -> Result<(), Fail> {
    assert!(rt; is_answered(rt.alloc(), 1)?);
    assert!(rt; is_answered(rt.alloc(), 7)?);
    assert!(rt; is_answered(rt.alloc(), 4096)?);
    Ok(())
}
