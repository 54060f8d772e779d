//! A queue up to its last place, and its commands in order.
use crate::HostQueue;
use std::alloc::Global;
use std::test::Fail;
use vv_calls::ScsiCall;
use vv_units::{ByteList, EndpointId, HostId, Secondary};

// The command of this number: TEST UNIT READY at that secondary identifier.
fn numbered(alloc: Global, number: u16) -> Result<ScsiCall, Fail> {
    Ok(ScsiCall {
        host: HostId(1),
        endpoint: EndpointId(1),
        secondary: Secondary(number),
        cdb: ByteList::of([0; 6].to_vec(alloc)?),
        payload: ByteList::of(Vec::new(alloc)),
    })
}

fn number(command: Option<&ScsiCall>) -> Option<u16> {
    Some(command?.secondary.0)
}

#[test]
fn commands_come_out_in_order(rt: HostRuntime) -> Result<(), Fail> {
    let alloc = rt.alloc();
    let mut queue = HostQueue::new(alloc)?;
    assert_eq!(rt; number(queue.head()), None);
    assert!(rt; queue.submit(numbered(alloc, 7)?).is_ok());
    assert!(rt; queue.submit(numbered(alloc, 8)?).is_ok());
    assert_eq!(rt; (number(queue.head()), queue.len()), (Some(7), 2));
    assert_eq!(rt; number(queue.pop().as_ref()), Some(7));
    assert_eq!(rt; number(queue.pop().as_ref()), Some(8));
    assert_eq!(rt; number(queue.pop().as_ref()), None);
    Ok(())
}

#[test]
fn a_queue_has_32_places(rt: HostRuntime) -> Result<(), Fail> {
    let alloc = rt.alloc();
    let mut queue = HostQueue::new(alloc)?;
    for i in 0..32 {
        assert!(rt; queue.submit(numbered(alloc, i)?).is_ok());
    }
    let refused = queue.submit(numbered(alloc, 99)?).err();
    assert_eq!(rt; refused.map(|full| full.command.secondary.0), Some(99));
    assert_eq!(rt; (number(queue.head()), queue.len()), (Some(0), 32));
    queue.clear();
    assert_eq!(rt; queue.len(), 0);
    Ok(())
}
