//! Each call once.
use crate::{Command, Sense, Unmaps, data_len, decode, sense_bytes};
use std::test::Fail;

#[test]
fn blocks_of_ten_bytes(rt: HostRuntime) -> Result<(), Fail> {
    let read = [0x28, 0, 0, 0, 0, 6, 0, 0, 3, 0];
    assert_eq!(rt; decode(&read), Ok(Command::Read { lba: 6, blocks: 3 }));
    let capacity = [0x25, 0, 0, 0, 0, 0, 0, 0, 0, 0];
    assert_eq!(rt; decode(&capacity), Ok(Command::Capacity10));
    Ok(())
}

#[test]
fn blocks_of_sixteen_bytes(rt: HostRuntime) -> Result<(), Fail> {
    let compare = [0x89, 0, 0, 0, 0, 0, 0, 0, 0, 0, 0, 0, 0, 1, 0, 0];
    let command = Command::Compare { lba: 0, blocks: 1 };
    assert_eq!(rt; decode(&compare), Ok(command));
    assert_eq!(rt; data_len(&command), 1024);
    Ok(())
}

#[test]
fn unknown_operation_code(rt: HostRuntime) -> Result<(), Fail> {
    let sense = Sense {
        key: 5,
        asc: 0x20,
        ascq: 0,
    };
    assert_eq!(rt; decode(&[0xff]), Err(sense));
    Ok(())
}

#[test]
fn sense_data_of_no_logical_unit(rt: HostRuntime) -> Result<(), Fail> {
    let sense = Sense {
        key: 5,
        asc: 0x25,
        ascq: 0,
    };
    assert_eq!(rt;
        sense_bytes(sense),
        [0x70, 0, 5, 0, 0, 0, 0, 10, 0, 0, 0, 0, 0x25, 0, 0, 0, 0, 0]
    );
    Ok(())
}

#[test]
fn one_descriptor(rt: HostRuntime) -> Result<(), Fail> {
    let list = [
        0, 22, 0, 16, 0, 0, 0, 0, 0, 0, 0, 0, 0, 0, 0, 0, 0, 0, 8, 0, 0, 0, 0, 0,
    ];
    let unmaps = Unmaps::read(&list).map_err(|_| "a list")?;
    assert_eq!(rt; unmaps.len(), 1);
    assert_eq!(rt; unmaps.at(0), Some((0, 2048)));
    assert_eq!(rt; unmaps.at(1), None);
    Ok(())
}
