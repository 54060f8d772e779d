//! Each call once, with ample memory, and reads at the end of the bytes.
use crate::{Reader, Writer};
use std::test::Fail;

#[test]
fn numbers_as_bytes(rt: HostRuntime) -> Result<(), Fail> {
    let mut writer = Writer::new(rt.alloc(), 15)?;
    writer.u8(0x01);
    writer.u16(0x0203);
    writer.u32(0x0405_0607);
    writer.u64(0x0809_0a0b_0c0d_0e0f);
    assert_eq!(rt;
        writer.finish().as_slice(),
        [1, 2, 3, 4, 5, 6, 7, 8, 9, 10, 11, 12, 13, 14, 15].as_slice()
    );
    Ok(())
}

#[test]
fn bytes_as_they_are(rt: HostRuntime) -> Result<(), Fail> {
    let mut writer = Writer::new(rt.alloc(), 3)?;
    writer.bytes(&[7, 8]);
    writer.bytes(&[9]);
    assert_eq!(rt; writer.finish().as_slice(), [7, 8, 9].as_slice());
    Ok(())
}

#[test]
fn numbers_of_bytes(rt: HostRuntime) {
    let bytes = [1, 2, 3, 4, 5, 6, 7, 8, 9, 10, 11, 12, 13, 14, 15];
    let mut reader = Reader::new(&bytes);
    assert_eq!(rt; reader.u8(), Some(0x01));
    assert_eq!(rt; reader.u16(), Some(0x0203));
    assert_eq!(rt; reader.u32(), Some(0x0405_0607));
    assert_eq!(rt; reader.u64(), Some(0x0809_0a0b_0c0d_0e0f));
    assert_eq!(rt; reader.at(), 15);
}

#[test]
fn bytes_taken(rt: HostRuntime) {
    let mut reader = Reader::new(&[7, 8, 9]);
    assert_eq!(rt; reader.take(2), Some([7, 8].as_slice()));
    assert_eq!(rt; reader.take(1), Some([9].as_slice()));
    assert_eq!(rt; reader.take(0), Some([].as_slice()));
    assert_eq!(rt; reader.at(), 3);
}

#[test]
fn too_few_bytes_for_a_number(rt: HostRuntime) {
    let mut reader = Reader::new(&[7, 8, 9]);
    assert_eq!(rt; reader.u32(), None);
    assert_eq!(rt; reader.u16(), Some(0x0708));
    assert_eq!(rt; reader.u16(), None);
    assert_eq!(rt; reader.at(), 2);
}

#[test]
fn too_few_bytes_to_take(rt: HostRuntime) {
    let mut reader = Reader::new(&[7, 8, 9]);
    assert_eq!(rt; reader.take(4), None);
    assert_eq!(rt; reader.at(), 0);
}

#[test]
fn nothing_at_the_end(rt: HostRuntime) {
    let mut reader = Reader::new(&[]);
    assert_eq!(rt; reader.u8(), None);
    assert_eq!(rt; reader.u64(), None);
    assert_eq!(rt; reader.at(), 0);
}
