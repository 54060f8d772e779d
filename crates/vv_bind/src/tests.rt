//! The limits, and each call once.

ghost use Rattle.vv_bind.specs.Table.{IsHost};

use crate::{BindFault, BindTable};
use std::test::Fail;
use vv_units::{EndpointId, HostId, Secondary, VolumeId};

/// Binds where it may be done.
fn bind(
    table: &mut BindTable,
    host: HostId,
    volume: VolumeId,
) -> Result<(EndpointId, Secondary), BindFault>
    requires { IsHost host.0 }
{
    match table.may_bind(host, volume) {
        Ok(()) => Ok(table.bind(host, volume)),
        Err(fault) => Err(fault),
    }
}

#[test]
fn a_volume_is_bound_65535_times(rt: HostRuntime) -> Result<(), Fail> {
    let mut table = BindTable::new(rt.alloc())?;
    for _ in 0..65535 {
        let bound = bind(&mut table, HostId(1), VolumeId(7));
        assert_eq!(rt; bound, Ok((EndpointId(1), Secondary(1))));
    }
    assert_eq!(rt;
        bind(&mut table, HostId(1), VolumeId(7)),
        Err(BindFault::TooManyCount)
    );
    table.close();
    Ok(())
}

#[test]
fn a_table_has_1024_bindings(rt: HostRuntime) -> Result<(), Fail> {
    let mut table = BindTable::new(rt.alloc())?;
    for host in 1..65 {
        for volume in 1..17 {
            let bound = bind(&mut table, HostId(host), VolumeId(volume));
            assert!(rt; bound.is_ok());
        }
    }
    assert_eq!(rt;
        bind(&mut table, HostId(1), VolumeId(17)),
        Err(BindFault::TooManyBindings)
    );
    assert_eq!(rt;
        bind(&mut table, HostId(1), VolumeId(16)),
        Ok((EndpointId(1), Secondary(16)))
    );
    assert_eq!(rt; table.unbind_all(HostId(1)), 16);
    assert_eq!(rt;
        bind(&mut table, HostId(1), VolumeId(17)),
        Ok((EndpointId(1), Secondary(1)))
    );
    table.close();
    Ok(())
}

#[test]
fn each_call_once(rt: HostRuntime) -> Result<(), Fail> {
    let host = HostId(3);
    let mut table = BindTable::new(rt.alloc())?;
    table.restore(host, EndpointId(1), Secondary(1), VolumeId(9), 4);
    assert!(rt; !table.may_set(host, &[EndpointId(2)]));
    assert_eq!(rt;
        bind(&mut table, host, VolumeId(5)),
        Ok((EndpointId(1), Secondary(2)))
    );
    assert!(rt; table.bound(VolumeId(9)));
    assert_eq!(rt; table.unbind(host, EndpointId(1), Secondary(1)), Some(3));
    assert_eq!(rt; table.unbind(host, EndpointId(1), Secondary(7)), None);
    assert_eq!(rt;
        table
            .find(host, EndpointId(1), Secondary(2))
            .map(|b| b.volume()),
        Some(VolumeId(5))
    );
    assert_eq!(rt;
        table
            .at(0)
            .map(|b| (b.host(), b.endpoint(), b.secondary(), b.count())),
        Some((host, EndpointId(1), Secondary(1), 3))
    );
    assert_eq!(rt; table.unbind_all(host), 2);
    table.close();
    Ok(())
}

#[test]
fn a_host_without_endpoints_binds_nothing(rt: HostRuntime) -> Result<(), Fail> {
    let mut table = BindTable::new(rt.alloc())?;
    assert!(rt; table.endpoints(HostId(2)) == [EndpointId(1)].as_slice());
    table.set_endpoints(HostId(2), &[]);
    assert!(rt; table.was_set(HostId(2)));
    assert_eq!(rt;
        bind(&mut table, HostId(2), VolumeId(1)),
        Err(BindFault::NoEndpoint)
    );
    table.close();
    Ok(())
}
