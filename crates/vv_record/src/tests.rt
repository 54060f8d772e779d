//! The two examples both ways, a record of each kind of list, and places of faults.
use crate::{Event, Record, RecordFault, decode, encode};
use std::alloc::Global;
use std::test::Fail;
use vv_units::{ContainerId, ItemList, Place, VolumeId, VvolType};

/// Container 0 gets a volume of type Data, of four chunks and without needs.
const CREATE: [u8; 16] = [0, 2, 0, 0, 0, 0, 0, 0, 0, 0, 1, 0, 0, 0, 4, 0];

/// Block 7 of volume 1 is written, to place 0.
const WRITE: [u8; 28] = [
    0, 9, 0, 0, 0, 0, 0, 0, 0, 1, 0, 0, 0, 0, 0, 0, 0, 7, 0, 0, 0, 1, 0, 1, 0, 0, 0, 0,
];

#[test]
fn a_creation_is_read(rt: HostRuntime) -> Result<(), Fail> {
    let record = decode(rt.alloc(), &CREATE).map_err(|_| "a record")?;
    assert!(rt; !record.first_after_open);
    let Event::MakeVolume {
        container,
        vtype,
        chunks,
        needs,
    } = &record.event
    else {
        return Err("a creation".into());
    };
    assert_eq!(rt; *container, ContainerId(0));
    assert_eq!(rt; *vtype, VvolType::Data);
    assert_eq!(rt; *chunks, 4);
    assert_eq!(rt; needs.items().len(), 0);
    Ok(())
}

#[test]
fn a_creation_is_written(rt: HostRuntime) -> Result<(), Fail> {
    let record = Record {
        first_after_open: false,
        event: Event::MakeVolume {
            container: ContainerId(0),
            vtype: VvolType::Data,
            chunks: 4,
            needs: ItemList::of(Vec::new(rt.alloc())),
        },
    };
    let bytes = encode(rt.alloc(), &record)?;
    assert_eq!(rt; bytes.as_slice(), CREATE.as_slice());
    Ok(())
}

#[test]
fn a_write_is_read(rt: HostRuntime) -> Result<(), Fail> {
    let record = decode(rt.alloc(), &WRITE).map_err(|_| "a record")?;
    let Event::Write {
        volume,
        first_block,
        blocks,
        places,
    } = &record.event
    else {
        return Err("a write".into());
    };
    assert_eq!(rt; *volume, VolumeId(1));
    assert_eq!(rt; *first_block, 7);
    assert_eq!(rt; *blocks, 1);
    assert_eq!(rt; places.items(), [Place(0)].as_slice());
    Ok(())
}

/// The spelling of the record that the bytes spell.
fn again(alloc: Global, bytes: &[u8]) -> Result<Vec<u8>, RecordFault> {
    let record = decode(alloc, bytes)?;
    Ok(encode(alloc, &record)?)
}

#[test]
fn a_write_goes_round(rt: HostRuntime) -> Result<(), Fail> {
    let bytes = again(rt.alloc(), &WRITE).map_err(|_| "a record")?;
    assert_eq!(rt; bytes.as_slice(), WRITE.as_slice());
    Ok(())
}

#[test]
fn offers_go_round(rt: HostRuntime) -> Result<(), Fail> {
    let text = [
        0, 1, 0, 0, 0, 0, 0, 0, 1, 0, 2, 4, 105, 111, 112, 115, 0, 0, 0, 0, 0, 0, 0, 5, 1, 97, 0,
        0, 0, 0, 0, 0, 0, 6,
    ];
    let bytes = again(rt.alloc(), &text).map_err(|_| "a record")?;
    assert_eq!(rt; bytes.as_slice(), text.as_slice());
    Ok(())
}

#[test]
fn needs_go_round(rt: HostRuntime) -> Result<(), Fail> {
    let text = [
        1, 2, 0, 0, 0, 0, 0, 0, 0, 3, 4, 0, 16, 0, 0, 1, 2, 97, 45, 255, 255, 255, 255, 255, 255,
        255, 255,
    ];
    let bytes = again(rt.alloc(), &text).map_err(|_| "a record")?;
    assert_eq!(rt; bytes.as_slice(), text.as_slice());
    Ok(())
}

#[test]
fn ranges_go_round(rt: HostRuntime) -> Result<(), Fail> {
    let text = [
        0, 10, 0, 0, 0, 0, 0, 0, 0, 1, 2, 0, 0, 0, 0, 0, 0, 0, 1, 255, 255, 255, 255, 255, 255,
        255, 255,
    ];
    let bytes = again(rt.alloc(), &text).map_err(|_| "a record")?;
    assert_eq!(rt; bytes.as_slice(), text.as_slice());
    Ok(())
}

#[test]
fn endpoints_go_round(rt: HostRuntime) -> Result<(), Fail> {
    let text = [0, 11, 0, 0, 0, 64, 2, 0, 1, 255, 255];
    let bytes = again(rt.alloc(), &text).map_err(|_| "a record")?;
    assert_eq!(rt; bytes.as_slice(), text.as_slice());
    Ok(())
}

#[test]
fn copies_go_round(rt: HostRuntime) -> Result<(), Fail> {
    let text = [0, 17, 0, 0, 0, 0, 0, 0, 0, 9, 1, 0, 0, 0, 2, 0, 0, 0, 3];
    let bytes = again(rt.alloc(), &text).map_err(|_| "a record")?;
    assert_eq!(rt; bytes.as_slice(), text.as_slice());
    Ok(())
}

#[test]
fn a_note_goes_round(rt: HostRuntime) -> Result<(), Fail> {
    let text = [0, 5, 0, 0, 0, 0, 0, 0, 0, 1, 1, 107, 1, 2, 33, 126];
    let bytes = again(rt.alloc(), &text).map_err(|_| "a record")?;
    assert_eq!(rt; bytes.as_slice(), text.as_slice());
    Ok(())
}

#[test]
fn an_unbind_goes_round(rt: HostRuntime) -> Result<(), Fail> {
    let text = [0, 13, 0, 0, 0, 1, 0, 0, 0, 7];
    let bytes = again(rt.alloc(), &text).map_err(|_| "a record")?;
    assert_eq!(rt; bytes.as_slice(), text.as_slice());
    Ok(())
}

/// The place of the fault of bytes that spell no record.
fn fault_place(alloc: Global, bytes: &[u8]) -> Option<usize> {
    match decode(alloc, bytes) {
        Err(RecordFault::Bad { at }) => Some(at),
        _ => None,
    }
}

#[test]
fn faults_of_the_mark_and_the_kind(rt: HostRuntime) {
    assert_eq!(rt; fault_place(rt.alloc(), &[]), Some(0));
    assert_eq!(rt; fault_place(rt.alloc(), &[2, 9]), Some(0));
    assert_eq!(rt; fault_place(rt.alloc(), &[1]), Some(1));
    assert_eq!(rt; fault_place(rt.alloc(), &[1, 0]), Some(1));
    assert_eq!(rt; fault_place(rt.alloc(), &[1, 0x13]), Some(1));
}

#[test]
fn faults_at_the_end(rt: HostRuntime) {
    assert_eq!(rt; fault_place(rt.alloc(), &CREATE[..9]), Some(9));
    assert_eq!(rt; fault_place(rt.alloc(), &CREATE[..10]), Some(10));
    assert_eq!(rt; fault_place(rt.alloc(), &CREATE[..13]), Some(13));
    assert_eq!(rt; fault_place(rt.alloc(), &WRITE[..27]), Some(27));
}

#[test]
fn a_byte_behind_the_last_field(rt: HostRuntime) {
    let text = [0, 14, 0, 0, 0, 1, 0, 0];
    assert_eq!(rt; fault_place(rt.alloc(), &text), Some(6));
}

#[test]
fn a_quota_of_four_gib_chunks(rt: HostRuntime) {
    let text = [0, 1, 0, 0, 0, 1, 0, 0, 0, 0, 0];
    assert_eq!(rt; fault_place(rt.alloc(), &text), Some(2));
}

#[test]
fn a_count_of_seventeen_offers(rt: HostRuntime) {
    let text = [0, 1, 0, 0, 0, 0, 0, 0, 0, 0, 17];
    assert_eq!(rt; fault_place(rt.alloc(), &text), Some(10));
}

#[test]
fn a_name_that_stands_twice(rt: HostRuntime) {
    let text = [
        0, 1, 0, 0, 0, 0, 0, 0, 0, 0, 2, 1, 97, 0, 0, 0, 0, 0, 0, 0, 0, 1, 97, 0, 0, 0, 0, 0, 0, 0,
        0,
    ];
    assert_eq!(rt; fault_place(rt.alloc(), &text), Some(22));
}

#[test]
fn faults_of_a_key(rt: HostRuntime) {
    let none = [0, 5, 0, 0, 0, 0, 0, 0, 0, 1, 0];
    assert_eq!(rt; fault_place(rt.alloc(), &none), Some(10));
    let quote = [0, 5, 0, 0, 0, 0, 0, 0, 0, 1, 2, 97, 34, 0];
    assert_eq!(rt; fault_place(rt.alloc(), &quote), Some(11));
}

#[test]
fn faults_of_endpoints(rt: HostRuntime) {
    let zero = [0, 11, 0, 0, 0, 1, 1, 0, 0];
    assert_eq!(rt; fault_place(rt.alloc(), &zero), Some(7));
    let twice = [0, 11, 0, 0, 0, 1, 3, 0, 5, 0, 6, 0, 5];
    assert_eq!(rt; fault_place(rt.alloc(), &twice), Some(11));
}

#[test]
fn a_range_of_no_chunk(rt: HostRuntime) {
    let text = [0, 10, 0, 0, 0, 0, 0, 0, 0, 1, 1, 0, 0, 0, 9, 0, 0, 0, 0];
    assert_eq!(rt; fault_place(rt.alloc(), &text), Some(15));
}
