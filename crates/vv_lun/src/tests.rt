//! Answers of each kind of unit, and the set of attentions.
ghost use Rattle.vv_lun.specs.Decided.{IsAsked};

use crate::{Action, Attentions, Unit, decide};
use std::alloc::Global;
use std::test::Fail;
use vv_bind::BindTable;
use vv_cdb::{Command, Sense, decode};
use vv_units::{EndpointId, HostId, NoMemory, Secondary, VolumeId};

/// What volume 1 of 8192 blocks answers.
fn volume_answer(
    alloc: Global,
    snapshot: bool,
    attention: bool,
    command: &Result<Command, Sense>,
    payload: &[u8],
) -> Result<Action, NoMemory>
    requires { IsAsked command.now payload.now }
{
    let mut table = BindTable::new(alloc)?;
    table.restore(HostId(1), EndpointId(1), Secondary(1), VolumeId(1), 1);
    let answer = match table.find(HostId(1), EndpointId(1), Secondary(1)) {
        Some(binding) => {
            let unit = Unit::Bound {
                binding,
                blocks: 8192,
                snapshot,
                attention,
            };
            Ok(decide(unit, command, payload))
        }
        None => Err(NoMemory),
    };
    table.close();
    answer
}

/// Whether an answer is status GOOD with these bytes, and clears nothing.
fn is_good(action: &Action, list: &[u8]) -> bool {
    match action {
        Action::Reply {
            bytes,
            sense: None,
            clears: false,
        } => bytes.items() == list,
        _ => false,
    }
}

/// Whether an answer is a sense and no bytes, and clears the attention or not.
fn is_refusal(action: &Action, key: u8, asc: u8, ascq: u8, clears: bool) -> bool {
    match action {
        Action::Reply {
            bytes,
            sense: Some(sense),
            clears: c,
        } => bytes.items().is_empty() && *sense == Sense { key, asc, ascq } && *c == clears,
        _ => false,
    }
}

#[test]
fn serial_number_of_volume_1(rt: HostRuntime) -> Result<(), Fail> {
    let command = Ok(Command::Inquiry {
        evpd: true,
        page: 0x80,
        alloc_len: 21,
    });
    assert_eq!(rt; decode(&[0x12, 1, 0x80, 0, 0x15, 0]), command);
    let answer = volume_answer(rt.alloc(), false, false, &command, &[])?;
    assert!(rt; is_good(&answer, b"\x00\x80\x00\x11v0000000000000001"));
    Ok(())
}

#[test]
fn capacity_of_8192_blocks(rt: HostRuntime) -> Result<(), Fail> {
    let answer = volume_answer(rt.alloc(), false, false, &Ok(Command::Capacity10), &[])?;
    assert!(rt; is_good(&answer, &[0, 0, 0x1f, 0xff, 0, 0, 2, 0]));
    Ok(())
}

#[test]
fn an_endpoint_has_no_blocks(rt: HostRuntime) -> Result<(), Fail> {
    let ready = decide(Unit::Endpoint(EndpointId(1)), &Ok(Command::TestReady), &[]);
    assert!(rt; is_good(&ready, &[]));
    let read = Ok(Command::Read { lba: 0, blocks: 1 });
    let answer = decide(Unit::Endpoint(EndpointId(1)), &read, &[]);
    assert!(rt; is_refusal(&answer, 5, 0x20, 0, false));
    Ok(())
}

#[test]
fn nothing_is_read_where_nothing_is_bound(rt: HostRuntime) -> Result<(), Fail> {
    let read = Ok(Command::Read { lba: 0, blocks: 1 });
    let answer = decide(Unit::Unbound, &read, &[]);
    assert!(rt; is_refusal(&answer, 5, 0x25, 0, false));
    Ok(())
}

#[test]
fn no_range_begins_at_the_end(rt: HostRuntime) -> Result<(), Fail> {
    let read = Ok(Command::Read {
        lba: 8192,
        blocks: 0,
    });
    let answer = volume_answer(rt.alloc(), false, false, &read, &[])?;
    assert!(rt; is_refusal(&answer, 5, 0x21, 0, false));
    Ok(())
}

#[test]
fn a_snapshot_is_not_written(rt: HostRuntime) -> Result<(), Fail> {
    let write = Ok(Command::Write { lba: 0, blocks: 0 });
    let answer = volume_answer(rt.alloc(), true, false, &write, &[])?;
    assert!(rt; is_refusal(&answer, 7, 0x27, 0, false));
    Ok(())
}

#[test]
fn an_attention_is_told_once(rt: HostRuntime) -> Result<(), Fail> {
    let read = Ok(Command::Read { lba: 0, blocks: 1 });
    let answer = volume_answer(rt.alloc(), false, true, &read, &[])?;
    assert!(rt; is_refusal(&answer, 6, 0x2a, 9, true));
    let inquiry = Ok(Command::Inquiry {
        evpd: false,
        page: 0,
        alloc_len: 3,
    });
    let answer = volume_answer(rt.alloc(), false, true, &inquiry, &[])?;
    assert!(rt; is_good(&answer, &[0, 0x40, 7]));
    Ok(())
}

#[test]
fn a_list_of_five_bytes_is_refused(rt: HostRuntime) -> Result<(), Fail> {
    let unmap = Ok(Command::Unmap { list_len: 5 });
    let answer = volume_answer(rt.alloc(), false, false, &unmap, &[0, 3, 0, 0, 0])?;
    assert!(rt; is_refusal(&answer, 5, 0x1a, 0, false));
    Ok(())
}

#[test]
fn an_attention_set_twice_is_one(rt: HostRuntime) -> Result<(), Fail> {
    let mut attentions = Attentions::new(rt.alloc())?;
    attentions.set(HostId(1), EndpointId(1), Secondary(2));
    attentions.set(HostId(1), EndpointId(1), Secondary(2));
    assert!(rt; attentions.has(HostId(1), EndpointId(1), Secondary(2)));
    attentions.clear(HostId(1), EndpointId(1), Secondary(2));
    assert!(rt; !attentions.has(HostId(1), EndpointId(1), Secondary(2)));
    attentions.clear_all();
    Ok(())
}
