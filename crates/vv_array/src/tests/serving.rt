//! Arrays that are made, opened and asked.
ghost use Rattle.std.specs.Prelude.{◌≡◌, IfSome};
ghost use Rattle.vv_data.specs.Layout.{disk_len};
ghost use Rattle.vv_array.specs.Seen.{geometry_of};

use super::lines::NOTES;
use crate::{Array, Served};
use std::alloc::Global;
use std::test::Fail;
use vv_calls::read_line;
use vv_disk::{Disk, MemDisk};
use vv_journal::disk_len;
use vv_profile::Capabilities;
use vv_reply::ReplyBuffer;
use vv_units::Geometry;

/// How many bytes the writes and syncs of a run may take in the record of a disk.
const ROOM: usize = 1_000_000;

/// How many bytes an image of so many chunks of 8 blocks has, with this map.
pub(super) fn image_len(pool: u32, map: u32) -> usize {
    let half = 16 * u64::from(map) + 2_097_408;
    (4096 + 2 * half + u64::from(pool) * 4096) as usize
}

/// A disk of so many zeros, the calls of which fail from the fuse on, and those that are listed.
pub(super) fn zeros(
    alloc: Global,
    len: usize,
    fail: &[u64],
    fuse: Option<u64>,
) -> Result<MemDisk, Fail> {
    let content = vec![in alloc; 0u8; len]?;
    let fail = Vec::from_slice(alloc, fail)?;
    Ok(MemDisk::new(alloc, content, fail, fuse, ROOM)?)
}

/// A disk with these bytes.
pub(super) fn with_image(
    alloc: Global,
    image: &[u8],
    fail: &[u64],
    fuse: Option<u64>,
) -> Result<MemDisk, Fail> {
    let content = Vec::from_slice(alloc, image)?;
    let fail = Vec::from_slice(alloc, fail)?;
    Ok(MemDisk::new(alloc, content, fail, fuse, ROOM)?)
}

/// A new array of these sizes on a disk, if that has its length.
pub(super) fn made<D: Disk>(
    alloc: Global,
    disk: &mut D,
    blocks: u32,
    pool: u32,
    map: u32,
) -> Option<Array>
    ensures { IfSome result (λ array. D.size disk.new ≡ disk_len (geometry_of array)) }
{
    let geometry = Geometry::new(blocks, pool, map)?;
    if disk.len() != disk_len(geometry) {
        return None;
    }
    Array::format(alloc, disk, geometry).ok()
}

/// The array of an image, and what is recovered.
pub(super) fn opened<D: Disk>(alloc: Global, disk: &mut D) -> Option<(Array, u64)>
    ensures { IfSome result (λ opened. D.size disk.new ≡ disk_len (geometry_of opened.0)) }
{
    Array::open(alloc, disk).ok()
}

/// What was recovered for a line, if it is a call and if the image was opened again for it. The reply is in the buffer.
pub(super) fn asked<D: Disk>(
    alloc: Global,
    array: &mut Array,
    disk: &mut D,
    reply: &mut ReplyBuffer,
    line: &str,
) -> Option<u64>
    requires disk { D.size disk.old ≡ disk_len (geometry_of array.old) }
    ensures sizes { D.size disk.new ≡ disk_len (geometry_of array.new) }
{
    let capabilities = Capabilities::of(Vec::new(alloc));
    let Ok(call) = read_line(alloc, line.as_bytes()) else {
        return None;
    };
    let Served {
        recovered,
        reply: answer,
    } = array.execute(alloc, disk, &capabilities, &call);
    reply.fill(&answer);
    recovered
}

/// Whether a line is answered so.
fn is_answered<D: Disk>(
    alloc: Global,
    array: &mut Array,
    disk: &mut D,
    reply: &mut ReplyBuffer,
    row: &(&str, &str),
) -> bool
    requires disk { D.size disk.old ≡ disk_len (geometry_of array.old) }
    ensures sizes { D.size disk.new ≡ disk_len (geometry_of array.new) }
{
    let _ = asked(alloc, array, disk, reply, row.0);
    reply.bytes() == row.1.as_bytes()
}

/// How many of these lines are answered as stands beside them, up to the first that isn't.
pub(super) fn answered<D: Disk>(
    alloc: Global,
    array: &mut Array,
    disk: &mut D,
    reply: &mut ReplyBuffer,
    rows: &[(&str, &str)],
) -> usize
    requires disk { D.size disk.old ≡ disk_len (geometry_of array.old) }
    ensures sizes { D.size disk.new ≡ disk_len (geometry_of array.new) }
{
    let mut count = 0;
    for row in rows {
        if !is_answered(alloc, array, disk, reply, row) {
            return count;
        }
        count = count.wrapping_add(1);
    }
    count
}

/// Whether a reply tells a fault of the disk.
fn is_fault(reply: &ReplyBuffer) -> bool {
    let text = reply.bytes();
    text.starts_with(b"{\"fault\":\"WriteFault\"") || text.starts_with(b"{\"fault\":\"ReadFault\"")
}

/// Whether a line is served, the disk doing its work.
fn is_served<D: Disk>(
    alloc: Global,
    array: &mut Array,
    disk: &mut D,
    reply: &mut ReplyBuffer,
    line: &str,
) -> bool
    requires disk { D.size disk.old ≡ disk_len (geometry_of array.old) }
    ensures sizes { D.size disk.new ≡ disk_len (geometry_of array.new) }
{
    let _ = asked(alloc, array, disk, reply, line);
    !is_fault(reply)
}

/// How many of these lines are served, up to the first at which the disk fails.
pub(super) fn served<D: Disk>(
    alloc: Global,
    array: &mut Array,
    disk: &mut D,
    reply: &mut ReplyBuffer,
    lines: &[&str],
) -> u64
    requires disk { D.size disk.old ≡ disk_len (geometry_of array.old) }
    ensures sizes { D.size disk.new ≡ disk_len (geometry_of array.new) }
{
    let mut count = 0;
    for line in lines {
        if !is_served(alloc, array, disk, reply, line) {
            return count;
        }
        count = count.wrapping_add(1);
    }
    count
}

/// How many of these rows are answered so by the array of an image, and what was recovered for it.
pub(super) fn answered_by<D: Disk>(
    alloc: Global,
    disk: &mut D,
    reply: &mut ReplyBuffer,
    rows: &[(&str, &str)],
) -> Option<(u64, usize)> {
    let (mut array, recovered) = opened(alloc, disk)?;
    let count = answered(alloc, &mut array, disk, reply, rows);
    array.close();
    Some((recovered, count))
}

/// Serves the two notes in turn, so many times, each of which is a change.
pub(super) fn in_turn<D: Disk>(
    alloc: Global,
    array: &mut Array,
    disk: &mut D,
    reply: &mut ReplyBuffer,
    times: u32,
)
    requires disk { D.size disk.old ≡ disk_len (geometry_of array.old) }
    ensures sizes { D.size disk.new ≡ disk_len (geometry_of array.new) }
{
    'times: for _ in 0..times {
        let _ = served(alloc, array, disk, reply, &NOTES);
    }
}
