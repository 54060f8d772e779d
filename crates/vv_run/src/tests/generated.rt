//! Scripts that are generated, and what serving one comes to.
use crate::Status;
use crate::tests::{disk_for, is_played, play, words_of};
use std::alloc::Global;
use std::str;
use std::test::Fail;

/// Four lines that make and bind two volumes, and a line that is drawn.
const GENERATED: &str = r#"$ gen 1 1
< {"call":"createVirtualVolume","sizeInMB":4,"vvolType":"Data"}
< {"call":"createVirtualVolume","sizeInMB":4,"vvolType":"Data"}
< {"call":"bindVirtualVolume","host":1,"vvol":"rfc4122.00000000-0001-8000-8000-000000000001"}
< {"call":"bindVirtualVolume","host":2,"vvol":"rfc4122.00000000-0001-8000-8000-000000000002"}
< {"base":"rfc4122.00000000-0001-8000-8000-000000000001","call":"unsharedBitmapVirtualVolume","vvol":"rfc4122.00000000-0001-8000-8000-000000000002"}
"#;

/// What serving that script comes to.
const LOADED: &str = r#"$ load d.img 16 2048 256 1 1
< {"chunks":16,"entries":8,"free":16,"ok":true,"reserved":0,"used":0}
< {"lines":6,"ok":6,"refused":0}
"#;

#[test]
fn a_small_script_is_generated_and_served(rt: HostRuntime) -> Result<(), Fail> {
    assert!(rt; is_played(rt.alloc(), GENERATED)?);
    assert!(rt; is_played(rt.alloc(), LOADED)?);
    Ok(())
}

/// What serving a script of 2004 lines writes.
fn load(alloc: Global) -> Result<Vec<u8>, Fail> {
    let words = words_of(alloc, "load d.img 256 8 4096 7 2000")?;
    let mut disk = disk_for(alloc, words.as_slice(), Vec::new(alloc))?;
    let (status, sink) = play(alloc, words.as_slice(), Vec::new(alloc), &mut disk)?;
    if status != Status::Done {
        return Ok(Vec::new(alloc));
    }
    Ok(sink.bytes().to_vec(alloc)?)
}

/// The number that stands in a text between two others.
fn number_between(text: &str, head: &str, end: &str) -> Option<u64> {
    let (_, rest) = text.split_once(head)?;
    let (number, _) = rest.split_once(end)?;
    number.parse::<u64>().ok()
}

#[test]
fn a_large_script_is_counted(rt: HostRuntime) -> Result<(), Fail> {
    let first = load(rt.alloc())?;
    let again = load(rt.alloc())?;
    assert_eq!(rt; first.as_slice(), again.as_slice());
    let Ok(text) = str::from_utf8(first.as_slice()) else {
        assert!(rt; false);
        return Ok(());
    };
    let Some((_, summary)) = text.split_once("\n") else {
        assert!(rt; false);
        return Ok(());
    };
    assert_eq!(rt; number_between(summary, "{\"lines\":", ","), Some(2005));
    let ok = number_between(summary, "\"ok\":", ",").unwrap_or(0);
    let refused = number_between(summary, "\"refused\":", "}").unwrap_or(0);
    assert_eq!(rt; ok.checked_add(refused), Some(2005));
    Ok(())
}
