//! Images that are wrong, and what is found of them.

use super::lines::{MAKE, POOL};
use super::serving::answered_by;
use crate::{Array, ArrayFault};
use std::alloc::Global;
use std::test::Fail;
use vv_disk::MemDisk;
use vv_reply::ReplyBuffer;
use vv_units::{Damage, Part};

/// What is found of an image that isn't opened.
fn found(alloc: Global, image: Vec<u8>) -> Result<Option<ArrayFault>, Fail> {
    let mut disk = MemDisk::new(alloc, image, Vec::new(alloc), None, 1000)?;
    match Array::open(alloc, &mut disk) {
        Ok((array, _)) => {
            array.close();
            Ok(None)
        }
        Err(fault) => Ok(Some(fault)),
    }
}

fn damaged(part: Part, place: u64, found: u64) -> Option<ArrayFault> {
    Some(ArrayFault::Damaged(Damage { part, place, found }))
}

/// Puts bytes into an image from a place on, as far as it goes.
fn put(image: &mut [u8], at: usize, bytes: &[u8]) {
    if at <= image.len() && bytes.len() <= image.len() - at {
        image[at..at + bytes.len()].copy_from_slice(bytes);
    }
}

/// Zeros with the first bytes of a formatted image of 16 chunks of 8 blocks and a map of 256.
fn formatted(alloc: Global, len: usize, version: u8) -> Result<Vec<u8>, Fail> {
    let mut image = vec![in alloc; 0u8; len]?;
    put(&mut image, 0, &[0xa5]);
    put(
        &mut image,
        8,
        b"VVARRAY1\x00\x00\x00\x00\x00\x00\x00\x08\x00\x00\x00\x10\x00\x00\x01\x00",
    );
    put(&mut image, 19, &[version]);
    Ok(image)
}

/// The image of an empty array, of version 1 or 2, whose tables have this length.
fn empty(alloc: Global, version: u8, len: u8) -> Result<Vec<u8>, Fail> {
    let mut image = formatted(alloc, LEN, version)?;
    put(&mut image, 4096, &[if version == 2 { 128 } else { 0 }]);
    put(&mut image, 4103, &[len]);
    put(&mut image, 4112, &[1]);
    put(&mut image, 4125, b"\xff\xff\xff\xff");
    Ok(image)
}

/// The length of such an image.
const LEN: usize = 4_272_640;

/// Where its first gate and its first slot stand.
const GATES: usize = 1_056_768;

const SLOTS: usize = 1_057_024;

#[test]
fn an_image_that_is_not_formatted_is_told(rt: HostRuntime) -> Result<(), Fail> {
    for len in [0, 1, 4095] {
        let image = vec![in rt.alloc(); 0u8; len]?;
        let want = ArrayFault::NotFormatted { found: len as u64 };
        assert_eq!(rt; found(rt.alloc(), image)?, Some(want));
    }
    let image = vec![in rt.alloc(); 7u8; 4096]?;
    assert_eq!(rt;
        found(rt.alloc(), image)?,
        Some(ArrayFault::NotFormatted { found: 7 })
    );
    Ok(())
}

/// The first bytes of an image with a field of the header that is wrong.
fn wrong_header(alloc: Global, version: u8, at: usize, bytes: &[u8]) -> Result<Vec<u8>, Fail> {
    let mut image = formatted(alloc, 4096, version)?;
    put(&mut image, at, bytes);
    Ok(image)
}

#[test]
fn a_wrong_header_is_told(rt: HostRuntime) -> Result<(), Fail> {
    let rows = [
        (8, [0; 4], 8, 0x5241_5931),
        (16, [0, 0, 0, 3], 16, 3),
        (20, [0, 0, 0, 9], 20, 9),
        (24, [0, 16, 0, 1], 24, 0x0010_0001),
        (28, [0, 0, 0, 63], 28, 63),
    ];
    for (at, bytes, place, field) in rows {
        let image = wrong_header(rt.alloc(), 1, at, &bytes)?;
        let want = damaged(Part::Header, place, field);
        assert_eq!(rt; found(rt.alloc(), image)?, want, "{at}");
    }
    let mut image = vec![in rt.alloc(); 0u8; 4096]?;
    put(&mut image, 0, &[0xa5]);
    assert_eq!(rt; found(rt.alloc(), image)?, damaged(Part::Header, 8, 0));
    Ok(())
}

#[test]
fn a_byte_that_is_missing_is_told(rt: HostRuntime) -> Result<(), Fail> {
    for version in [1, 2] {
        let mut image = formatted(rt.alloc(), 20_984_319, version)?;
        put(&mut image, 20, &[0, 0, 8, 0]);
        let want = damaged(Part::Length, 20_984_320, 20_984_319);
        assert_eq!(rt; found(rt.alloc(), image)?, want);
    }
    Ok(())
}

/// The image of an empty array with tables of this length, a gate, and the first bytes of a slot.
fn with_slot(alloc: Global, version: u8, len: u8, gate: u8, slot: &[u8]) -> Result<Vec<u8>, Fail> {
    let mut image = empty(alloc, version, len)?;
    put(&mut image, GATES, &[gate]);
    put(&mut image, SLOTS, slot);
    Ok(image)
}

/// Payloads: none, one that is too long, and one that deletes volume 7.
const NOTHING: &[u8] = b"";

const TOO_LONG: &[u8] = b"\x00\x00\x0f\xf9";

const DELETION: &[u8] = b"\x00\x00\x00\x0a\x00\x00\x00\x00\x00\x03\x00\x00\x00\x00\x00\x00\x00\x07";

#[test]
fn wrong_tables_and_records_are_told(rt: HostRuntime) -> Result<(), Fail> {
    let rows = [
        (32, 0, NOTHING, damaged(Part::Area, 32, 0)),
        (34, 0, NOTHING, damaged(Part::Area, 33, 0)),
        (33, 1, NOTHING, damaged(Part::Slot, 0, 8)),
        (33, 1, TOO_LONG, damaged(Part::Slot, 0, 0)),
        (33, 1, DELETION, damaged(Part::Record, 0, 1)),
        (33, 0, TOO_LONG, None),
    ];
    for version in [1, 2] {
        for (len, gate, slot, want) in rows {
            let image = with_slot(rt.alloc(), version, len, gate, slot)?;
            assert_eq!(rt; found(rt.alloc(), image)?, want, "{version} {len} {gate}");
        }
    }
    Ok(())
}

#[test]
fn the_first_spelling_is_none_of_version_2(rt: HostRuntime) -> Result<(), Fail> {
    let mut image = empty(rt.alloc(), 2, 33)?;
    put(&mut image, 4096, &[0]);
    assert_eq!(rt; found(rt.alloc(), image)?, damaged(Part::Area, 0, 0));
    Ok(())
}

/// Puts so many entries without a place, one behind the other.
fn put_unmapped(image: &mut [u8], at: usize, count: usize) {
    for i in 0..count {
        put(
            image,
            at.wrapping_add(i.wrapping_mul(12)),
            b"\xff\xff\xff\xff",
        );
    }
}

/// The image of a volume of 256 chunks, of which the first two are at place 3, with the stamps 4 and 5.
fn with_one_place(alloc: Global, version: u8) -> Result<Vec<u8>, Fail> {
    let mut image = empty(alloc, version, 0)?;
    let more = if version == 2 { 8 } else { 0 };
    put(&mut image, 4102, &[12, if version == 2 { 73 } else { 65 }]);
    put(&mut image, 4111, &[5]);
    put(&mut image, 4131, &[1]);
    put(&mut image, 4139, &[1]);
    put(&mut image, 4148, &[1]);
    put(&mut image, 4160 + more, b"\x00\x00\x01\x00");
    put_unmapped(&mut image, 4164 + more, 256);
    put(
        &mut image,
        4164 + more,
        b"\x00\x00\x00\x03\x00\x00\x00\x00\x00\x00\x00\x04\x00\x00\x00\x03\x00\x00\x00\x00\x00\x00\x00\x05",
    );
    Ok(image)
}

#[test]
fn two_chunks_at_one_place_are_told(rt: HostRuntime) -> Result<(), Fail> {
    for version in [1, 2] {
        let image = with_one_place(rt.alloc(), version)?;
        assert_eq!(rt; found(rt.alloc(), image)?, damaged(Part::Rule, 6, 3));
    }
    Ok(())
}

const UNUSED: &str =
    "{\"chunks\":16,\"entries\":0,\"free\":16,\"ok\":true,\"reserved\":0,\"used\":0}\n";

const EXHAUSTED: &str = "{\"fault\":\"Exhausted\",\"ok\":false}\n";

#[test]
fn behind_the_last_log_number_nothing_is_changed(rt: HostRuntime) -> Result<(), Fail> {
    let mut reply = ReplyBuffer::new(rt.alloc())?;
    let mut image = empty(rt.alloc(), 2, 33)?;
    put(&mut image, 4104, b"\x3f\xff\xff\xff\xff\xff\xff\xff");
    let mut disk = MemDisk::new(rt.alloc(), image, Vec::new(rt.alloc()), None, 1000)?;
    let rows = [(POOL, UNUSED), (MAKE, EXHAUSTED)];
    let found = answered_by(rt.alloc(), &mut disk, &mut reply, &rows);
    assert_eq!(rt; found, Some((4_611_686_018_427_387_903, 2)));
    Ok(())
}
