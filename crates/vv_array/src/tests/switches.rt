//! Switches to the other half, stopped between the selector and its sync.

use super::lines::{MAKE, NOTES, POOL};
use super::serving::{answered_by, image_len, in_turn, made, opened, served, with_image, zeros};
use std::alloc::Global;
use std::test::Fail;
use vv_disk::{Keep, MemDisk};
use vv_reply::ReplyBuffer;

/// A sync, the header, the selector, the length of the tables and the tables, and three reads of each of 256 records; and then
/// the length of the tables, the tables, the gates, a sync and the selector.
const BEFORE_THE_SYNC: u64 = 778;

const FIGURES: &str =
    "{\"chunks\":16,\"entries\":256,\"free\":16,\"ok\":true,\"reserved\":0,\"used\":0}\n";

/// Where the tables of the second half begin, with their length.
const SECOND: usize = 2_117_888;

/// The image of an empty array, of version 1 or 2.
fn empty_image(alloc: Global, version: u8) -> Result<Vec<u8>, Fail> {
    let mut disk = zeros(alloc, image_len(16, 1024), &[], None)?;
    if let Some(array) = made(alloc, &mut disk, 8, 16, 1024) {
        array.close();
    }
    let mut image = Vec::from_slice(alloc, disk.content())?;
    if image.len() > 4096 {
        image[19] = version;
        image[4096] = if version == 2 { 128 } else { 0 };
    }
    Ok(image)
}

/// Serves 256 lines that are changes each.
fn fill(alloc: Global, disk: &mut MemDisk, reply: &mut ReplyBuffer) -> Option<u64> {
    let (mut array, _) = opened(alloc, disk)?;
    let _ = served(alloc, &mut array, disk, reply, &[MAKE]);
    in_turn(alloc, &mut array, disk, reply, 127);
    let last = served(alloc, &mut array, disk, reply, &[NOTES[0]]);
    array.close();
    Some(last)
}

/// Serves one change more, which switches.
fn switch(alloc: Global, disk: &mut MemDisk, reply: &mut ReplyBuffer) -> Option<u64> {
    let (mut array, _) = opened(alloc, disk)?;
    let count = served(alloc, &mut array, disk, reply, &[NOTES[1]]);
    array.close();
    Some(count)
}

/// What is recovered behind such a stop, and how many of the figures are those before.
fn recovered(
    alloc: Global,
    image: &[u8],
    reply: &mut ReplyBuffer,
    keep: Keep,
) -> Result<Option<(u64, usize)>, Fail> {
    let mut disk = with_image(alloc, image, &[], Some(BEFORE_THE_SYNC))?;
    let _ = switch(alloc, &mut disk, reply);
    let mut left = disk.after_crash(keep);
    Ok(answered_by(alloc, &mut left, reply, &[(POOL, FIGURES)]))
}

/// An image with 256 records.
fn full_image(alloc: Global, reply: &mut ReplyBuffer, version: u8) -> Result<Vec<u8>, Fail> {
    let image = empty_image(alloc, version)?;
    let mut disk = with_image(alloc, &image, &[], None)?;
    let _ = fill(alloc, &mut disk, reply);
    Ok(Vec::from_slice(alloc, disk.content())?)
}

#[test]
fn a_torn_selector_names_the_same_array(rt: HostRuntime) -> Result<(), Fail> {
    let mut reply = ReplyBuffer::new(rt.alloc())?;
    for version in [1, 2] {
        let image = full_image(rt.alloc(), &mut reply, version)?;
        for keep in [Keep::Old, Keep::New, Keep::Torn(0x7e), Keep::Torn(0x7f)] {
            let found = recovered(rt.alloc(), &image, &mut reply, keep)?;
            assert_eq!(rt; found, Some((256, 1)), "{version} {keep:?}");
        }
    }
    Ok(())
}

/// The selector of an image, and the first byte of the second half.
fn selected(image: &[u8]) -> Option<(u8, u8)> {
    if image.len() > SECOND {
        Some((image[512], image[SECOND]))
    } else {
        None
    }
}

#[test]
fn a_switch_writes_the_second_spelling(rt: HostRuntime) -> Result<(), Fail> {
    let mut reply = ReplyBuffer::new(rt.alloc())?;
    for version in [1, 2] {
        let image = full_image(rt.alloc(), &mut reply, version)?;
        assert_eq!(rt; selected(&image), Some((0, 0)));
        let mut disk = with_image(rt.alloc(), &image, &[], None)?;
        assert_eq!(rt; switch(rt.alloc(), &mut disk, &mut reply), Some(1));
        assert_eq!(rt; selected(disk.content()), Some((1, 128)));
        let found = answered_by(rt.alloc(), &mut disk, &mut reply, &[(POOL, FIGURES)]);
        assert_eq!(rt; found, Some((257, 1)));
    }
    Ok(())
}
