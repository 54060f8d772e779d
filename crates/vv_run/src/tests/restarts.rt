//! Images that are opened again: after a run that ended, after each stop, and after each failed call of the disk.
use crate::Status;
use crate::tests::{DISK_ROOM, disk_for, is_told, play, scene_words, words_of};
use std::alloc::Global;
use std::str;
use std::test::Fail;
use vv_disk::{Keep, MemDisk};

/// A user's first script.
const FIRST_RUN: &str = r#"$ new d.img 16 2048 256
> {"call":"createVirtualVolume","sizeInMB":4,"vvolType":"Data"}
< {"ok":true,"vvol":"rfc4122.00000000-0001-8000-8000-000000000001"}
> {"call":"bindVirtualVolume","host":1,"vvol":"rfc4122.00000000-0001-8000-8000-000000000001"}
< {"endpoint":1,"ok":true,"secondary":1}
> {"call":"scsi","cdb":"2a000000000700000100","data":[["5a",512]],"endpoint":1,"host":1,"secondary":1}
< {"data":[],"ok":true,"status":"00"}
"#;

/// Another one, on the image that it left.
const SECOND_RUN: &str = r#"$ run d.img
< {"recovered":3}
> {"call":"scsi","cdb":"28000000000600000300","endpoint":1,"host":1,"secondary":1}
< {"data":[["00",512],["5a",512],["00",512]],"ok":true,"status":"00"}
> {"call":"createVirtualVolume","sizeInMB":4,"vvolType":"Data"}
< {"ok":true,"vvol":"rfc4122.00000000-0001-8000-8000-000000000004"}
"#;

#[test]
fn an_image_is_opened_again(rt: HostRuntime) -> Result<(), Fail> {
    let words = scene_words(rt.alloc(), FIRST_RUN)?;
    let mut disk = disk_for(rt.alloc(), words.as_slice(), Vec::new(rt.alloc()))?;
    assert!(rt; is_told(rt.alloc(), FIRST_RUN, &mut disk)?);
    assert!(rt; is_told(rt.alloc(), SECOND_RUN, &mut disk)?);
    Ok(())
}

/// Eight calls that are journaled, writes and a revert among them.
const EIGHT_CALLS: &str = r#"{"call":"createVirtualVolume","sizeInMB":1,"vvolType":"Data"}
{"call":"bindVirtualVolume","host":1,"vvol":"rfc4122.00000000-0001-8000-8000-000000000001"}
{"call":"scsi","cdb":"2a000000000000000800","data":[["11",4096]],"endpoint":1,"host":1,"secondary":1}
{"call":"snapshotVirtualVolume","vvol":"rfc4122.00000000-0001-8000-8000-000000000001"}
{"call":"scsi","cdb":"2a000000000000000800","data":[["22",4096]],"endpoint":1,"host":1,"secondary":1}
{"call":"scsi","cdb":"2a000000000000000800","data":[["33",4096]],"endpoint":1,"host":1,"secondary":1}
{"call":"unbindVirtualVolume","endpoint":1,"host":1,"secondary":1}
{"call":"revertVirtualVolume","snapshot":"rfc4122.00000000-0001-8000-8000-000000000004","vvol":"rfc4122.00000000-0001-8000-8000-000000000001"}
"#;

/// What finds the first block of the volume.
const FINDING: &str =
    r#"{"call":"bindVirtualVolume","host":1,"vvol":"rfc4122.00000000-0001-8000-8000-000000000001"}
{"call":"scsi","cdb":"28000000000000000100","endpoint":1,"host":1,"secondary":1}
"#;

/// What is told of an image that holds this many of the eight calls.
fn found_at(alloc: Global, calls: usize) -> Result<String, Fail> {
    if calls == 0 {
        return Ok(format!(in alloc;
            "{{\"recovered\":0}}\n{{\"fault\":\"NotFound\",\"name\":\"vvol\",\"ok\":false}}\n{{\"ok\":false,\"sense\":\"700005000000000a00000000250000000000\",\"status\":\"02\"}}\n"
        )?);
    }
    let byte = match calls {
        1 | 2 => "00",
        5 => "22",
        6 | 7 => "33",
        _ => "11",
    };
    Ok(format!(in alloc;
        "{{\"recovered\":{calls}}}\n{{\"endpoint\":1,\"ok\":true,\"secondary\":1}}\n{{\"data\":[[\"{byte}\",512]],\"ok\":true,\"status\":\"00\"}}\n"
    )?)
}

/// How many lines tell that a call was done.
fn done_in(told: &[u8]) -> usize {
    match str::from_utf8(told) {
        Ok(text) => text
            .lines()
            .filter(|line| line.contains("\"ok\":true"))
            .count(),
        Err(_) => 0,
    }
}

/// A disk that stands still from its call with this number on.
fn stopping(alloc: Global, words: &[String], fuse: u64) -> Result<MemDisk, Fail> {
    let zeros = disk_for(alloc, words, Vec::new(alloc))?;
    let content = zeros.content().to_vec(alloc)?;
    Ok(MemDisk::new(alloc, content, Vec::new(alloc), Some(fuse), DISK_ROOM)?)
}

/// Whether what a stop at a call of the disk leaves holds each call that was answered, and at most one more.
fn is_kept(alloc: Global, fuse: u64, keep: Keep) -> Result<bool, Fail> {
    let words = words_of(alloc, "new d.img 16 8 1024")?;
    let mut disk = stopping(alloc, words.as_slice(), fuse)?;
    let script = EIGHT_CALLS.as_bytes().to_vec(alloc)?;
    let (status, sink) = play(alloc, words.as_slice(), script, &mut disk)?;
    if status == Status::DeviceFault {
        return Ok(sink.bytes().is_empty());
    }
    let answered = done_in(sink.bytes());
    let mut left = disk.after_crash(keep);
    let words = words_of(alloc, "run d.img")?;
    let script = FINDING.as_bytes().to_vec(alloc)?;
    let (_, sink) = play(alloc, words.as_slice(), script, &mut left)?;
    let found = sink.bytes();
    Ok(
        found == found_at(alloc, answered)?.as_bytes()
            || answered < 8 && found == found_at(alloc, answered + 1)?.as_bytes(),
    )
}

#[test]
fn a_stop_leaves_what_was_answered(rt: HostRuntime) -> Result<(), Fail> {
    for fuse in 0..56u64 {
        assert!(rt; is_kept(rt.alloc(), fuse, Keep::Old)?);
        assert!(rt; is_kept(rt.alloc(), fuse, Keep::New)?);
        assert!(rt; is_kept(rt.alloc(), fuse, Keep::Torn(1))?);
    }
    Ok(())
}

/// What is written where a write failed ahead of its gate.
const NOT_DONE: &str = r#"{"ok":true,"vvol":"rfc4122.00000000-0001-8000-8000-000000000001"}
{"endpoint":1,"ok":true,"secondary":1}
{"fault":"WriteFault","ok":false,"sense":"700003000000000a000000000c0000000000","status":"02"}
{"recovered":2}
{"chunks":16,"entries":256,"free":16,"ok":true,"reserved":0,"used":0}
"#;

/// What is written where a write failed behind its gate.
const DONE: &str = r#"{"ok":true,"vvol":"rfc4122.00000000-0001-8000-8000-000000000001"}
{"endpoint":1,"ok":true,"secondary":1}
{"fault":"WriteFault","ok":false,"sense":"700003000000000a000000000c0000000000","status":"02"}
{"recovered":3}
{"chunks":16,"entries":256,"free":15,"ok":true,"reserved":0,"used":1}
"#;

/// What is written where one call of the disk fails, of a script that makes and binds a volume, writes a block and asks for the pool.
fn written(alloc: Global, fail: u64) -> Result<Vec<u8>, Fail> {
    let words = words_of(alloc, "new d.img 16 8 1024")?;
    let mut disk = disk_for(alloc, words.as_slice(), [fail].to_vec(alloc)?)?;
    let script =
        b"{\"call\":\"createVirtualVolume\",\"sizeInMB\":1,\"vvolType\":\"Data\"}\n{\"call\":\"bindVirtualVolume\",\"host\":1,\"vvol\":\"rfc4122.00000000-0001-8000-8000-000000000001\"}\n{\"call\":\"scsi\",\"cdb\":\"2a000000000000000100\",\"data\":[[\"11\",512]],\"endpoint\":1,\"host\":1,\"secondary\":1}\n{\"call\":\"queryPool\"}\n".to_vec(
            alloc,
        )?;
    let (_, sink) = play(alloc, words.as_slice(), script, &mut disk)?;
    Ok(sink.bytes().to_vec(alloc)?)
}

/// A write makes five calls of the disk: its chunk, its slot, a sync, its gate, and a sync. Only where the last fails, the write
/// is found.
#[test]
fn a_failed_write_is_found_once_its_gate_is_open(rt: HostRuntime) -> Result<(), Fail> {
    let mut not_done = 0u32;
    let mut done = 0u32;
    for fail in 0..32u64 {
        let told = written(rt.alloc(), fail)?;
        if told.as_slice() == NOT_DONE.as_bytes() {
            not_done = not_done.wrapping_add(1);
        }
        if told.as_slice() == DONE.as_bytes() {
            done = done.wrapping_add(1);
        }
    }
    assert_eq!(rt; (not_done, done), (4, 1));
    Ok(())
}
