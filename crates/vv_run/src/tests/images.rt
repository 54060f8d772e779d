//! Images of other forms: the last log number, a record with a mark, and images of both versions that change their half.
use crate::tests::{DISK_ROOM, disk_for, is_told, play, scene_words, words_of};
use std::alloc::Global;
use std::test::Fail;
use vv_disk::{Keep, MemDisk};

/// Bytes that are put at a place of an image.
type Patch<'a> = (usize, &'a [u8]);

/// A disk with what another one holds, but for some bytes, that stands still from its call of this number on.
fn patched(
    alloc: Global,
    disk: &MemDisk,
    patches: &[Patch<'_>],
    fuse: Option<u64>,
) -> Result<MemDisk, Fail> {
    let mut image = disk.content().to_vec(alloc)?;
    for (at, bytes) in patches {
        for (index, byte) in bytes.iter().enumerate() {
            if let Some(there) = image.get_mut(at.wrapping_add(index)) {
                *there = *byte;
            }
        }
    }
    Ok(MemDisk::new(alloc, image, Vec::new(alloc), fuse, DISK_ROOM)?)
}

/// The disk that a scene leaves, where it goes as told.
fn left_by(alloc: Global, scene: &str) -> Result<Option<MemDisk>, Fail> {
    let words = scene_words(alloc, scene)?;
    let mut disk = disk_for(alloc, words.as_slice(), Vec::new(alloc))?;
    if is_told(alloc, scene, &mut disk)? {
        Ok(Some(disk))
    } else {
        Ok(None)
    }
}

/// Whether two scenes go as told, the second over what the first leaves with some bytes put there.
fn are_told(alloc: Global, first: &str, patches: &[Patch<'_>], second: &str) -> Result<bool, Fail> {
    match left_by(alloc, first)? {
        Some(disk) => is_told(alloc, second, &mut patched(alloc, &disk, patches, None)?),
        None => Ok(false),
    }
}

const AN_EMPTY_IMAGE: &str = r#"$ new d.img 16 2048 256
"#;

/// Behind the last log number nothing changes.
const THE_LAST_NUMBER: &str = r#"$ run d.img
< {"recovered":4611686018427387903}
> {"call":"queryPool"}
< {"chunks":16,"entries":0,"free":16,"ok":true,"reserved":0,"used":0}
> {"call":"createVirtualVolume","sizeInMB":1,"vvolType":"Data"}
< {"fault":"Exhausted","ok":false}
"#;

/// A clone that runs.
const A_RUNNING_CLONE: &str = r#"$ new d.img 64 8 1024
> {"call":"createVirtualVolume","sizeInMB":1,"vvolType":"Data"}
< {"ok":true,"vvol":"rfc4122.00000000-0001-8000-8000-000000000001"}
> {"call":"bindVirtualVolume","host":1,"vvol":"rfc4122.00000000-0001-8000-8000-000000000001"}
< {"endpoint":1,"ok":true,"secondary":1}
> {"call":"scsi","cdb":"2a00000000000000a000","data":[["11",81920]],"endpoint":1,"host":1,"secondary":1}
< {"data":[],"ok":true,"status":"00"}
> {"call":"cloneVirtualVolume","vvol":"rfc4122.00000000-0001-8000-8000-000000000001"}
< {"ok":true,"target":"rfc4122.00000000-0001-8000-8000-000000000004","task":4,"total":20}
> {"call":"turn","task":4}
< {"done":16,"ok":true,"state":"Running","task":4,"total":20}
"#;

/// The clone was interrupted by the mark.
const AN_INTERRUPTED_CLONE: &str = r#"$ run d.img
< {"recovered":6}
> {"call":"getTaskUpdate","task":4}
< {"done":16,"ok":true,"state":"Interrupted","task":4,"total":20}
> {"call":"queryPool"}
< {"chunks":64,"entries":256,"free":44,"ok":true,"reserved":0,"used":20}
"#;

#[test]
fn older_images_are_opened(rt: HostRuntime) -> Result<(), Fail> {
    let number: &[Patch<'_>] = &[(4104, b"\x3f\xff\xff\xff\xff\xff\xff\xff")];
    assert!(rt; are_told(rt.alloc(), AN_EMPTY_IMAGE, number, THE_LAST_NUMBER)?);

    // The image is of version 1, and its sixth record is a write with a mark, whose chunk is at place 20.
    let mark: &[Patch<'_>] = &[
        (16, b"\0\0\0\x01"),
        (4096, b"\0\0\0\0\0\0\0\x21"),
        (
            1_089_792,
            b"\0\0\0\x1c\0\0\0\0\x01\x09\0\0\0\0\0\0\0\x01\0\0\0\0\0\0\0\0\0\0\0\x08\0\x01\0\0\0\x14",
        ),
        (1_069_061, b"\x01"),
    ];
    assert!(rt; are_told(rt.alloc(), A_RUNNING_CLONE, mark, AN_INTERRUPTED_CLONE)?);
    Ok(())
}

/// A script of 257 changes: a volume, and a note of it that changes.
fn notes(alloc: Global) -> Result<Vec<u8>, Fail> {
    let mut script =
        b"{\"call\":\"createVirtualVolume\",\"sizeInMB\":1,\"vvolType\":\"Data\"}\n".to_vec(alloc)?;
    for number in 2..258u32 {
        let line = format!(in alloc;
            "{{\"call\":\"setMetadata\",\"key\":\"k\",\"value\":\"v{number}\",\"vvol\":\"rfc4122.00000000-0001-8000-8000-000000000001\"}}\n"
        )?;
        script.extend_from_slice(line.as_bytes())?;
    }
    Ok(script)
}

/// What is left where the disk stands still at a call, while the 257 changes are served on an image.
fn stopped(alloc: Global, image: &MemDisk, fuse: u64) -> Result<MemDisk, Fail> {
    let mut disk = patched(alloc, image, &[], Some(fuse))?;
    let words = words_of(alloc, "run d.img")?;
    let _ = play(alloc, words.as_slice(), notes(alloc)?, &mut disk)?;
    Ok(disk)
}

/// Whether the second half is selected.
fn is_switched(disk: &MemDisk) -> bool {
    disk.content().get(512) == Some(&1)
}

/// The call of the disk that makes the selector of the second half durable.
fn selecting_sync(alloc: Global, image: &MemDisk) -> Result<u64, Fail> {
    let mut last = 0u64;
    for step in [1024u64, 512, 256, 128, 64, 32, 16, 8, 4, 2, 1] {
        let next = last.saturating_add(step);
        if !is_switched(&stopped(alloc, image, next)?) {
            last = next;
        }
    }
    Ok(last.saturating_add(1))
}

/// The array after 256 changes.
const BEFORE_THE_LAST: &str = r#"$ run d.img
> {"call":"queryVirtualVolume","vvol":"rfc4122.00000000-0001-8000-8000-000000000001"}
< {"recovered":256}
< {"allocated":0,"chunks":256,"container":"rfc4122.00000000-0001-8000-8000-000000000000","kind":"Plain","metadata":[["k","v256"]],"of":null,"ok":true,"profile":[],"reverted":0,"type":"Data"}
"#;

/// Whether the stop of a disk ahead of that sync leaves the array after 256 changes, and all of it leaves the newer spelling.
fn is_switched_well(alloc: Global, image: &MemDisk, keep: Keep) -> Result<bool, Fail> {
    let sync = selecting_sync(alloc, image)?;
    let mut left = stopped(alloc, image, sync)?.after_crash(keep);
    let whole = stopped(alloc, image, 1_000_000)?;
    let is_newer = whole.content().get(2_117_888) == Some(&0x80);
    Ok(is_switched(&whole) && is_newer && is_told(alloc, BEFORE_THE_LAST, &mut left)?)
}

/// Whether that holds of a new image with some bytes put there.
fn is_kept(alloc: Global, patches: &[Patch<'_>], keep: Keep) -> Result<bool, Fail> {
    match left_by(alloc, AN_EMPTY_IMAGE_OF_SMALL_CHUNKS)? {
        Some(disk) => {
            let image = patched(alloc, &disk, patches, None)?;
            is_switched_well(alloc, &image, keep)
        }
        None => Ok(false),
    }
}

const AN_EMPTY_IMAGE_OF_SMALL_CHUNKS: &str = r#"$ new d.img 16 8 1024
"#;

#[test]
fn images_of_both_versions_change_their_half(rt: HostRuntime) -> Result<(), Fail> {
    let older: &[Patch<'_>] = &[(16, b"\0\0\0\x01"), (4096, b"\0")];
    for keep in [Keep::Old, Keep::New, Keep::Torn(0x7e), Keep::Torn(0x7f)] {
        assert!(rt; is_kept(rt.alloc(), &[], keep)?);
        assert!(rt; is_kept(rt.alloc(), older, keep)?);
    }
    Ok(())
}
