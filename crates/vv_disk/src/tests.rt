use crate::{Disk, FileDisk, Keep, MakeFault, MemDisk};
use std::alloc::Global;
use std::fs;
use std::test::Fail;

const BYTES: [u8; 8] = [1, 2, 3, 4, 5, 6, 7, 8];

const FILE: &str = "vv_disk_test.img";

const LOCKED: &str = "vv_disk_locked.img";

fn wrote<D: Disk>(disk: &mut D, at: u64, bytes: &[u8]) -> bool {
    let len = bytes.len() as u64;
    len <= disk.len() && at <= disk.len() - len && disk.write(at, bytes).is_ok()
}

fn has_read<D: Disk>(disk: &mut D, at: u64, into: &mut [u8]) -> bool {
    let len = into.len() as u64;
    len <= disk.len() && at <= disk.len() - len && disk.read(at, into).is_ok()
}

fn synced<D: Disk>(disk: &mut D) -> bool {
    disk.sync().is_ok()
}

fn holds(disk: &MemDisk, want: &[u8]) -> bool {
    disk.content() == want
}

fn disk_with(alloc: Global, fail: &[u64], fuse: Option<u64>, room: usize) -> Result<MemDisk, Fail> {
    let content = BYTES.to_vec(alloc)?;
    let fail = Vec::from_slice(alloc, fail)?;
    Ok(MemDisk::new(alloc, content, fail, fuse, room)?)
}

/// A write, a sync and two writes that overlap, and then a crash.
fn torn(alloc: Global, keep: Keep) -> Result<MemDisk, Fail> {
    let mut disk = disk_with(alloc, &[], None, 1000)?;
    let _ = wrote(&mut disk, 0, &[10, 11]) && synced(&mut disk);
    let _ = wrote(&mut disk, 2, &[20, 21, 22]) && wrote(&mut disk, 4, &[30, 31]);
    Ok(disk.after_crash(keep))
}

#[test]
fn a_crash_keeps_or_tears_what_is_pending(rt: HostRuntime) -> Result<(), Fail> {
    let outcomes = [
        (Keep::Old, [10, 11, 3, 4, 5, 6, 7, 8]),
        (Keep::New, [10, 11, 20, 21, 30, 31, 7, 8]),
        (Keep::Torn(0x7e), [10, 11, 0x7e, 0x7e, 0x7e, 0x7e, 7, 8]),
    ];
    for (keep, want) in outcomes {
        let disk = torn(rt.alloc(), keep)?;
        assert!(rt; holds(&disk, &want), "{keep:?}");
    }
    Ok(())
}

#[test]
fn calls_fail_from_the_fuse_on(rt: HostRuntime) -> Result<(), Fail> {
    let mut into = [0u8; 2];
    let mut disk = disk_with(rt.alloc(), &[], Some(2), 1000)?;
    assert!(rt; wrote(&mut disk, 0, &[9]) && has_read(&mut disk, 0, &mut into));
    assert!(rt; !synced(&mut disk) && !wrote(&mut disk, 1, &[9]));
    assert!(rt; holds(&disk, &[9, 2, 3, 4, 5, 6, 7, 8]));
    Ok(())
}

#[test]
fn listed_calls_fail(rt: HostRuntime) -> Result<(), Fail> {
    let mut into = [0u8; 2];
    let mut disk = disk_with(rt.alloc(), &[1, 2], None, 1000)?;
    assert!(rt; wrote(&mut disk, 0, &[9]) && !wrote(&mut disk, 1, &[9]));
    assert!(rt; !has_read(&mut disk, 0, &mut into) && has_read(&mut disk, 0, &mut into));
    assert_eq!(rt; into.as_slice(), [9, 2].as_slice());
    Ok(())
}

#[test]
fn a_record_without_room_fails_writes_and_syncs(rt: HostRuntime) -> Result<(), Fail> {
    let mut into = [0u8; 2];
    let mut disk = disk_with(rt.alloc(), &[], None, 128)?;
    assert!(rt; wrote(&mut disk, 0, &[9]), "65 of 128");
    assert!(rt; !synced(&mut disk), "129 of 128");
    assert!(rt; has_read(&mut disk, 0, &mut into), "a read takes none");
    let mut disk = disk.after_crash(Keep::New);
    assert!(rt; synced(&mut disk) && synced(&mut disk), "128 of 128");
    Ok(())
}

#[test]
fn a_file_is_a_disk(rt: HostRuntime) -> Result<(), Fail> {
    let mut into = [1u8; 4];
    let mut disk = FileDisk::create(&rt, FILE, 5000)?;
    assert_eq!(rt; disk.len(), 5000);
    assert!(rt; has_read(&mut disk, 4996, &mut into));
    assert_eq!(rt; into.as_slice(), [0; 4].as_slice());
    assert!(rt; wrote(&mut disk, 4996, &[1, 2, 3, 4]));
    assert!(rt; synced(&mut disk));
    drop(disk);

    let mut disk = FileDisk::open(&rt, FILE)?;
    assert_eq!(rt; disk.len(), 5000);
    assert!(rt; has_read(&mut disk, 4995, &mut into));
    assert_eq!(rt; into.as_slice(), [0, 1, 2, 3].as_slice());
    drop(disk);
    fs::remove_file(&rt, FILE)?;
    assert!(rt; matches!(FileDisk::open(&rt, FILE), Err(MakeFault::Failed)));

    Ok(())
}

/// Whether no other disk can be had over this file.
fn is_refused(rt: &HostRuntime, path: &str) -> bool {
    matches!(FileDisk::open(rt, path), Err(MakeFault::Failed))
        && matches!(FileDisk::create(rt, path, 9), Err(MakeFault::Failed))
}

#[test]
fn a_file_has_one_disk(rt: HostRuntime) -> Result<(), Fail> {
    let mut into = [0u8; 4];
    let mut disk = FileDisk::create(&rt, LOCKED, 4)?;
    assert!(rt; wrote(&mut disk, 0, &[1, 2, 3, 4]));
    assert!(rt; is_refused(&rt, LOCKED), "beside a created one");
    drop(disk);

    let mut disk = FileDisk::open(&rt, LOCKED)?;
    assert!(rt; is_refused(&rt, LOCKED), "beside an opened one");
    assert_eq!(rt; disk.len(), 4);
    assert!(rt; has_read(&mut disk, 0, &mut into));
    assert_eq!(rt; into.as_slice(), [1, 2, 3, 4].as_slice());
    drop(disk);

    let mut disk = FileDisk::create(&rt, LOCKED, 4)?;
    assert!(rt; has_read(&mut disk, 0, &mut into));
    assert_eq!(rt; into.as_slice(), [0; 4].as_slice());
    drop(disk);
    fs::remove_file(&rt, LOCKED)?;
    Ok(())
}

#[test]
fn a_broken_disk_fails(rt: HostRuntime) -> Result<(), Fail> {
    let mut into = [1u8; 4];
    let mut broken = FileDisk::broken(8);
    assert_eq!(rt; broken.len(), 8);
    assert!(rt; !has_read(&mut broken, 0, &mut into));
    assert!(rt; !wrote(&mut broken, 0, &[1]));
    assert!(rt; !synced(&mut broken));

    let alloc = rt.alloc();
    let text = format!(in alloc; "{}, {}", MakeFault::Failed, MakeFault::NoMemory)?;
    assert_eq!(rt; text.as_str(), "failed, no memory");
    Ok(())
}
