//! What waits, each call once.
ghost use Rattle.std.specs.Prelude.{◌≡◌, IfOk};

use crate::Waiting;
use std::alloc::Global;
use std::test::Fail;
use vv_bind::BindTable;
use vv_calls::ScsiCall;
use vv_units::{ByteList, EndpointId, HostId, Secondary, VolumeId};

/// TEST UNIT READY of host 2, at that secondary identifier.
fn numbered(alloc: Global, number: u16) -> Result<ScsiCall, Fail>
    ensures { IfOk result (λ command. command.host.0 ≡ 2) }
{
    Ok(ScsiCall {
        host: HostId(2),
        endpoint: EndpointId(1),
        secondary: Secondary(number),
        cdb: ByteList::of([0; 6].to_vec(alloc)?),
        payload: ByteList::of(Vec::new(alloc)),
    })
}

fn number(command: Option<&ScsiCall>) -> Option<u16> {
    Some(command?.secondary.0)
}

#[test]
fn a_command_waits_for_its_host(rt: HostRuntime) -> Result<(), Fail> {
    let mut waiting = Waiting::new(rt.alloc())?;
    waiting.submit(numbered(rt.alloc(), 7)?);
    assert_eq!(rt; number(waiting.head(HostId(1))), None);
    assert_eq!(rt; number(waiting.head(HostId(2))), Some(7));
    assert_eq!(rt; waiting.queue(HostId(2)).len(), 1);
    waiting.take_head(HostId(2));
    assert_eq!(rt; number(waiting.head(HostId(2))), None);
    Ok(())
}

#[test]
fn a_grown_volume_is_told_where_it_is_bound(rt: HostRuntime) -> Result<(), Fail> {
    let mut waiting = Waiting::new(rt.alloc())?;
    let mut bindings = BindTable::new(rt.alloc())?;
    bindings.restore(HostId(1), EndpointId(1), Secondary(1), VolumeId(3), 1);
    bindings.restore(HostId(2), EndpointId(1), Secondary(1), VolumeId(4), 1);
    bindings.restore(HostId(2), EndpointId(1), Secondary(2), VolumeId(3), 1);
    waiting.attend(&bindings, VolumeId(3));
    bindings.close();
    let has = |host, secondary| {
        waiting
            .attentions()
            .has(HostId(host), EndpointId(1), Secondary(secondary))
    };
    assert!(rt; has(1, 1) && has(2, 2) && !has(2, 1));
    Ok(())
}

#[test]
fn attentions_are_cleared(rt: HostRuntime) -> Result<(), Fail> {
    let mut waiting = Waiting::new(rt.alloc())?;
    let mut bindings = BindTable::new(rt.alloc())?;
    bindings.restore(HostId(1), EndpointId(1), Secondary(1), VolumeId(3), 1);
    bindings.restore(HostId(2), EndpointId(1), Secondary(2), VolumeId(3), 1);
    waiting.attend(&bindings, VolumeId(3));
    bindings.close();
    waiting.clear_attention(HostId(1), EndpointId(1), Secondary(1));
    assert!(rt;
        !waiting
            .attentions()
            .has(HostId(1), EndpointId(1), Secondary(1))
    );
    assert!(rt;
        waiting
            .attentions()
            .has(HostId(2), EndpointId(1), Secondary(2))
    );
    waiting.clear_host(HostId(2));
    assert!(rt;
        !waiting
            .attentions()
            .has(HostId(2), EndpointId(1), Secondary(2))
    );
    waiting.forget();
    Ok(())
}
