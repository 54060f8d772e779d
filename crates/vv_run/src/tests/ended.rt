//! How runs end: words, images and disks that serve no script, and streams that fail.
use crate::Status;
use crate::tests::{SINK_ROOM, disk_for, play, run_it, words_of};
use std::alloc::Global;
use std::test::Fail;
use vv_disk::MemDisk;
use vv_io::{MemSink, MemSource};
use vv_units::{Damage, Part};

/// How words and an empty script over a disk of these bytes end, where something is written or a script is told as well.
fn ended(alloc: Global, words: &str, content: Vec<u8>, fail: Vec<u64>) -> Result<Status, Fail> {
    let words = words_of(alloc, words)?;
    let mut disk = MemDisk::new(alloc, content, fail, None, 65536)?;
    let (status, _) = play(alloc, words.as_slice(), Vec::new(alloc), &mut disk)?;
    Ok(status)
}

#[test]
fn words_and_disks_are_refused(rt: HostRuntime) -> Result<(), Fail> {
    let alloc = rt.alloc();
    let zeros = vec![in alloc; 0u8; 4096]?;
    let status = ended(alloc, "new d.img 0 8 64", zeros, Vec::new(alloc))?;
    assert_eq!(rt; status, Status::BadWords);
    assert_eq!(rt; status.code(), 2);

    let zeros = vec![in alloc; 0u8; 4096]?;
    let status = ended(alloc, "run d.img", zeros, Vec::new(alloc))?;
    assert_eq!(rt; status, Status::NotFormatted);
    assert_eq!(rt; status.code(), 5);

    let zeros = vec![in alloc; 0u8; 4096]?;
    let status = ended(alloc, "new d.img 16 2048 256", zeros, Vec::new(alloc))?;
    assert_eq!(rt;
        status,
        Status::WrongSize {
            needed: 20_984_320,
            found: 4096
        }
    );
    assert_eq!(rt; status.code(), 10);

    let zeros = vec![in alloc; 0u8; 8_395_264]?;
    let status = ended(alloc, "new d.img 4 2048 64", zeros, [0].to_vec(alloc)?)?;
    assert_eq!(rt; status, Status::DeviceFault);
    assert_eq!(rt; status.code(), 7);
    Ok(())
}

/// The head of an image of 4 chunks of 1 MB and at most 64 entries.
const HEAD: &[u8; 32] =
    b"\xa5\x00\x00\x00\x00\x00\x00\x00\x56\x56\x41\x52\x52\x41\x59\x31\x00\x00\x00\x02\x00\x00\x08\x00\x00\x00\x00\x04\x00\x00\x00\x40";

/// Tables with two volumes of one chunk, which have the same place 3 at the stamps 4 and 5, behind their length.
const SHARED_WRONGLY: &[u8; 145] =
    b"\x80\x00\x00\x00\x00\x00\x00\x89\x00\x00\x00\x00\x00\x00\x00\x05\x01\x00\x00\x00\x00\x00\x00\x00\x00\x00\x00\x00\x00\xff\xff\xff\xff\x00\x00\x02\x00\x00\x00\x00\x00\x00\x00\x01\x00\x00\x00\x00\x00\x00\x00\x00\x01\x00\x00\x00\x00\x00\x00\x00\x00\x00\x00\x00\x00\x00\x00\x00\x00\x00\x00\x00\x00\x00\x00\x01\x00\x00\x00\x03\x00\x00\x00\x00\x00\x00\x00\x04\x00\x00\x00\x00\x00\x00\x00\x02\x00\x00\x00\x00\x00\x00\x00\x00\x01\x00\x00\x00\x00\x00\x00\x00\x00\x00\x00\x00\x00\x00\x00\x00\x00\x00\x00\x00\x00\x00\x00\x01\x00\x00\x00\x03\x00\x00\x00\x00\x00\x00\x00\x05\x00\x00\x00\x00\x00";

#[test]
fn an_image_that_shares_wrongly_is_damaged(rt: HostRuntime) -> Result<(), Fail> {
    let mut image = Vec::new(rt.alloc());
    image.extend_from_slice(HEAD.as_slice())?;
    image.resize(4096, 0)?;
    image.extend_from_slice(SHARED_WRONGLY.as_slice())?;
    image.resize(8_395_264, 0)?;
    let status = ended(rt.alloc(), "run d.img", image, Vec::new(rt.alloc()))?;
    let damage = Damage {
        part: Part::Rule,
        place: 6,
        found: 3,
    };
    assert_eq!(rt; status, Status::Damaged(damage));
    assert_eq!(rt; status.code(), 6);
    Ok(())
}

const FIRST: &[u8; 62] =
    b"{\"call\":\"createVirtualVolume\",\"sizeInMB\":4,\"vvolType\":\"Data\"}\n";

/// How a run over streams ends whose calls with these numbers fail, and what was written.
fn told(alloc: Global, unread: Vec<u64>, unwritten: Vec<u64>) -> Result<(Status, MemSink), Fail> {
    let words = words_of(alloc, "new d.img 16 2048 256")?;
    let mut disk = disk_for(alloc, words.as_slice(), Vec::new(alloc))?;
    let mut source = MemSource::new(FIRST.to_vec(alloc)?, 62, unread);
    let mut sink = MemSink::new(alloc, SINK_ROOM, unwritten)?;
    let status = run_it(alloc, words.as_slice(), &mut source, &mut sink, &mut disk)?;
    Ok((status, sink))
}

#[test]
fn streams_fail(rt: HostRuntime) -> Result<(), Fail> {
    let alloc = rt.alloc();
    let (status, sink) = told(alloc, [1].to_vec(alloc)?, Vec::new(alloc))?;
    assert_eq!(rt; status, Status::SourceFault);
    assert_eq!(rt; status.code(), 3);
    assert_eq!(rt;
        sink.bytes(),
        b"{\"ok\":true,\"vvol\":\"rfc4122.00000000-0001-8000-8000-000000000001\"}\n".as_slice()
    );

    let (status, sink) = told(alloc, Vec::new(alloc), [0].to_vec(alloc)?)?;
    assert_eq!(rt; status, Status::SinkFault);
    assert_eq!(rt; status.code(), 4);
    assert!(rt; sink.bytes().is_empty());
    Ok(())
}
