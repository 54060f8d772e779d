//! A script of a volume, writes, a snapshot and a revert, in which each call of the disk fails.
ghost use Rattle.std.specs.Prelude.{◌≡◌};
ghost use Rattle.vv_data.specs.Layout.{disk_len};
ghost use Rattle.vv_array.specs.Seen.{geometry_of};

use super::lines::{
    BIND, BLOCK_00, BLOCK_11, BLOCK_22, BLOCK_33, BOUND_1, MAKE, MAKE_4, NO_VOLUME, POOL, READ,
    REVERT, SNAPSHOT, UNBIND, UNBOUND, WRITE_11, WRITE_22, WRITE_33, WRITE_BLOCK,
};
use super::serving::{answered, asked, image_len, made, opened, served, zeros};
use crate::Array;
use std::alloc::Global;
use std::test::Fail;
use vv_disk::{Disk, Keep, MemDisk};
use vv_reply::ReplyBuffer;

/// Each of these lines takes a log number, from 1 on.
const SCRIPT: [&str; 8] = [
    MAKE, BIND, WRITE_11, SNAPSHOT, WRITE_22, WRITE_33, UNBIND, REVERT,
];

/// How many calls of the disk the making of an image takes.
const MAKING: u64 = 10;

/// And with it the whole script: each change writes its slot, syncs, writes its gate and syncs, and three of them write a
/// chunk ahead.
const ALL: u64 = 45;

/// What the first block of the volume is after so many changes, if there is a volume.
fn first_block(n: u64) -> &'static str {
    match n {
        0 => UNBOUND,
        1 | 2 => BLOCK_00,
        5 => BLOCK_22,
        6 | 7 => BLOCK_33,
        _ => BLOCK_11,
    }
}

/// What a bind of the volume is answered after so many changes.
fn bound(n: u64) -> &'static str {
    if n == 0 { NO_VOLUME } else { BOUND_1 }
}

/// What is asked after so many changes, with the replies.
fn rows_after(n: u64) -> [(&'static str, &'static str); 2] {
    [(BIND, bound(n)), (READ, first_block(n))]
}

/// Makes an array and serves the script: how many lines were served, if the array was made.
fn run(alloc: Global, disk: &mut MemDisk, reply: &mut ReplyBuffer) -> Option<u64> {
    let mut array = made(alloc, disk, 8, 16, 1024)?;
    let count = served(alloc, &mut array, disk, reply, &SCRIPT);
    array.close();
    Some(count)
}

/// Whether an array is that after so many changes, where as many were served, or one less.
fn is_after<D: Disk>(
    alloc: Global,
    array: &mut Array,
    disk: &mut D,
    reply: &mut ReplyBuffer,
    count: u64,
    n: u64,
) -> bool
    requires disk { D.size disk.old ≡ disk_len (geometry_of array.old) }
{
    (n == count || n == count.wrapping_add(1))
        && answered(alloc, array, disk, reply, &rows_after(n)) == 2
}

/// Whether the image that is left stands after so many changes, or one more.
fn is_prefix(alloc: Global, disk: &mut MemDisk, reply: &mut ReplyBuffer, count: u64) -> bool {
    let Some((mut array, n)) = opened(alloc, disk) else {
        return false;
    };
    let right = is_after(alloc, &mut array, disk, reply, count, n);
    array.close();
    right
}

/// Whether the image that is left isn't opened, or is that of an array without changes.
fn is_unmade(alloc: Global, disk: &mut MemDisk) -> bool {
    let Some((array, n)) = opened(alloc, disk) else {
        return true;
    };
    array.close();
    n == 0
}

/// Whether a stop at a call of the disk leaves what it may; and how many lines were served, if the array was made.
fn stopped(
    alloc: Global,
    reply: &mut ReplyBuffer,
    fuse: u64,
    keep: Keep,
) -> Result<(Option<u64>, bool), Fail> {
    let mut disk = zeros(alloc, image_len(16, 1024), &[], Some(fuse))?;
    let count = run(alloc, &mut disk, reply);
    let mut left = disk.after_crash(keep);
    let right = match count {
        Some(count) => is_prefix(alloc, &mut left, reply, count),
        None => is_unmade(alloc, &mut left),
    };
    Ok((count, right))
}

#[test]
fn each_stop_leaves_a_prefix(rt: HostRuntime) -> Result<(), Fail> {
    let mut reply = ReplyBuffer::new(rt.alloc())?;
    for keep in [Keep::Old, Keep::New, Keep::Torn(0x7e)] {
        for fuse in 0..46 {
            let (count, right) = stopped(rt.alloc(), &mut reply, fuse, keep)?;
            assert!(rt; right, "{keep:?} {fuse}");
            assert_eq!(rt; count.is_some(), fuse >= MAKING, "{keep:?} {fuse}");
            assert_eq!(rt; count == Some(8), fuse == ALL, "{keep:?} {fuse}");
        }
    }
    Ok(())
}

/// Whether an array at which the disk may have failed goes on after so many changes, or one more.
fn goes_on(alloc: Global, disk: &mut MemDisk, reply: &mut ReplyBuffer) -> bool {
    let Some(mut array) = made(alloc, disk, 8, 16, 1024) else {
        return false;
    };
    let count = served(alloc, &mut array, disk, reply, &SCRIPT);
    let recovered = asked(alloc, &mut array, disk, reply, POOL);
    let n = recovered.unwrap_or(count);
    let right = is_after(alloc, &mut array, disk, reply, count, n);
    array.close();
    right && recovered.is_some() == (count < 8)
}

/// Whether an array goes on where one call of the disk fails.
fn fails_once(alloc: Global, reply: &mut ReplyBuffer, call: u64) -> Result<bool, Fail> {
    let mut disk = zeros(alloc, image_len(16, 1024), &[call], None)?;
    Ok(goes_on(alloc, &mut disk, reply))
}

#[test]
fn each_call_of_the_disk_fails_once(rt: HostRuntime) -> Result<(), Fail> {
    let mut reply = ReplyBuffer::new(rt.alloc())?;
    for call in 0..ALL {
        let right = fails_once(rt.alloc(), &mut reply, call)?;
        assert_eq!(rt; right, call >= MAKING, "{call}");
    }
    Ok(())
}

const FAILED: &str =
    "{\"fault\":\"WriteFault\",\"ok\":false,\"sense\":\"700003000000000a000000000c0000000000\",\"status\":\"02\"}\n";

const UNUSED: &str =
    "{\"chunks\":16,\"entries\":1024,\"free\":16,\"ok\":true,\"reserved\":0,\"used\":0}\n";

/// What was recovered behind a write whose gate isn't written.
fn recovered(alloc: Global, disk: &mut MemDisk, reply: &mut ReplyBuffer) -> Option<u64> {
    let mut array = made(alloc, disk, 8, 16, 1024)?;
    let _ = served(alloc, &mut array, disk, reply, &[MAKE_4, BIND]);
    let failed = answered(alloc, &mut array, disk, reply, &[(WRITE_BLOCK, FAILED)]);
    let recovered = asked(alloc, &mut array, disk, reply, POOL);
    array.close();
    if failed == 1 { recovered } else { None }
}

#[test]
fn a_gate_that_is_not_written_leaves_the_array_before(rt: HostRuntime) -> Result<(), Fail> {
    let mut reply = ReplyBuffer::new(rt.alloc())?;
    let mut disk = zeros(rt.alloc(), image_len(16, 1024), &[21], None)?;
    assert_eq!(rt; recovered(rt.alloc(), &mut disk, &mut reply), Some(2));
    assert!(rt; reply.bytes() == UNUSED.as_bytes());
    Ok(())
}
