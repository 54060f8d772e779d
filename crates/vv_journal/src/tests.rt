ghost use Rattle.std.specs.Prelude.{◌≡◌, ◌<◌, IfSome};
ghost use Rattle.vv_data.specs.Layout.{disk_len};

use crate::{Journal, OpenFault, SlotRead, disk_len, format, open_log};
use std::alloc::Global;
use std::test::Fail;
use vv_disk::{Disk, Keep, MemDisk};
use vv_units::Geometry;

/// The length of the image of `small`.
const LEN: usize = 4_209_152;

/// Where the first half's gates and slots stand.
const GATES: usize = 1_053_696;

const SLOTS: usize = 1_053_952;

/// The sizes of a small image: 2 chunks of 8 blocks.
fn small() -> Option<Geometry> {
    Geometry::new(8, 2, 64)
}

fn zeros(alloc: Global, fuse: Option<u64>) -> Result<MemDisk, Fail> {
    let content = vec![in alloc; 0u8; LEN]?;
    Ok(MemDisk::new(alloc, content, Vec::new(alloc), fuse, 200_000)?)
}

/// A journal over a fresh image.
fn made<D: Disk>(disk: &mut D) -> Option<Journal>
    ensures { IfSome result (λ journal. D.size disk.new ≡ disk_len journal.geometry) }
{
    let geometry = small()?;
    if disk.len() != disk_len(geometry) {
        return None;
    }
    format(disk, geometry, &[1, 2, 3]).ok()
}

fn is_added<D: Disk>(disk: &mut D, journal: &mut Journal, payload: &[u8; 2]) -> bool
    requires { D.size disk.old ≡ disk_len journal.old.geometry }
    ensures place { journal.new.geometry ≡ journal.old.geometry }
    ensures len { D.size disk.new ≡ D.size disk.old }
{
    journal.room() && journal.append(disk, payload).is_ok()
}

/// Adds records as long as there is room.
fn is_filled<D: Disk>(disk: &mut D, journal: &mut Journal) -> bool
    requires { D.size disk.old ≡ disk_len journal.old.geometry }
    ensures place { journal.new.geometry ≡ journal.old.geometry }
    ensures len { D.size disk.new ≡ D.size disk.old }
{
    for _ in 0..256 {
        if !is_added(disk, journal, b"xy") {
            return false;
        }
    }
    true
}

/// Switches to the tables `4 5 6`, written in two pieces.
fn is_switched<D: Disk>(disk: &mut D, journal: &mut Journal) -> bool
    requires { D.size disk.old ≡ disk_len journal.old.geometry }
{
    if journal.room() {
        return false;
    }
    let Ok(mut switching) = journal.begin_switch(disk, 3) else {
        return false;
    };
    if switching.put(disk, &[4]).is_err() {
        switching.give_up();
        return false;
    }
    if switching.put(disk, &[5, 6]).is_err() {
        switching.give_up();
        return false;
    }
    journal.end_switch(disk, switching).is_ok()
}

/// Makes an image, and adds two records.
fn has_two<D: Disk>(disk: &mut D) -> bool {
    let Some(mut journal) = made(disk) else {
        return false;
    };
    is_added(disk, &mut journal, b"ab") && is_added(disk, &mut journal, b"cd")
}

/// Makes an image, fills its first half, and switches to the second.
fn has_switched<D: Disk>(disk: &mut D) -> bool {
    let Some(mut journal) = made(disk) else {
        return false;
    };
    is_filled(disk, &mut journal) && is_switched(disk, &mut journal)
}

/// Whether these bytes stand at this place.
fn stands(image: &[u8], at: usize, want: &[u8]) -> bool {
    if image.len() < at || image.len() - at < want.len() {
        return false;
    }
    let (_, rest) = image.split_at(at);
    let (part, _) = rest.split_at(want.len());
    part == want
}

/// What the next slot is, if there is one.
fn next_slot<D: Disk>(disk: &mut D, journal: &mut Journal) -> Option<SlotRead>
    requires { D.size disk.old ≡ disk_len journal.old.geometry }
    ensures { D.size disk.new ≡ disk_len journal.new.geometry }
{
    let mut into = [0u8; 4088];
    if !journal.room() {
        return None;
    }
    journal.read_slot(disk, &mut into).ok()
}

/// The half that an image selects, its last byte of tables if it has 3, and the first two slots.
fn read_back<D: Disk>(disk: &mut D) -> Option<(u8, u8, SlotRead, SlotRead)> {
    let mut last = [0u8; 1];
    let (mut journal, head) = open_log(disk).ok()?;
    journal.read_area(disk, 2, &mut last).ok()?;
    let first = next_slot(disk, &mut journal)?;
    let second = next_slot(disk, &mut journal)?;
    Some((head.half, last[0], first, second))
}

#[test]
fn two_records_stand_in_their_slots(rt: HostRuntime) -> Result<(), Fail> {
    let mut disk = zeros(rt.alloc(), None)?;
    assert!(rt; has_two(&mut disk));
    let image = disk.content();
    assert!(rt; stands(image, 0, &[0xa5]));
    assert!(rt;
        stands(
            image,
            8,
            b"VVARRAY1\x00\x00\x00\x02\x00\x00\x00\x08\x00\x00\x00\x02\x00\x00\x00\x40"
        )
    );
    assert!(rt; stands(image, 4096, &[0x80, 0, 0, 0, 0, 0, 0, 3, 1, 2, 3]));
    assert!(rt; stands(image, GATES, &[1, 1, 0]));
    assert!(rt; stands(image, SLOTS, b"\x00\x00\x00\x02\x00\x00\x00\x00ab"));
    Ok(())
}

/// One record, and a second one whose last sync fails; then a crash.
fn torn(alloc: Global, keep: Keep) -> Result<MemDisk, Fail> {
    let mut disk = zeros(alloc, Some(17))?;
    let _ = has_two(&mut disk);
    Ok(disk.after_crash(keep))
}

#[test]
fn a_crash_leaves_the_record_or_not(rt: HostRuntime) -> Result<(), Fail> {
    let two = SlotRead::Payload { len: 2 };
    let mut old = torn(rt.alloc(), Keep::Old)?;
    assert_eq!(rt; read_back(&mut old), Some((0, 3, two, SlotRead::Closed)));
    let mut new = torn(rt.alloc(), Keep::New)?;
    assert_eq!(rt; read_back(&mut new), Some((0, 3, two, two)));
    Ok(())
}

#[test]
fn a_full_half_is_left(rt: HostRuntime) -> Result<(), Fail> {
    let mut disk = zeros(rt.alloc(), None)?;
    assert!(rt; has_switched(&mut disk));
    assert_eq!(rt;
        read_back(&mut disk),
        Some((1, 6, SlotRead::Closed, SlotRead::Closed))
    );
    Ok(())
}

#[test]
fn an_image_of_zeros_is_not_opened(rt: HostRuntime) -> Result<(), Fail> {
    let mut disk = zeros(rt.alloc(), None)?;
    let opened = open_log(&mut disk).err();
    assert_eq!(rt; opened, Some(OpenFault::NotFormatted { found: 0 }));
    Ok(())
}
