//! Each call once.
ghost use Rattle.std.specs.Prelude.{◌≡◌, ◌<◌, ◌^◌};
ghost use Rattle.vv_container.specs.Table.{charge_of};

use crate::{Container, ContainerTable, OverQuota};
use std::alloc::Global;
use std::test::Fail;
use vv_units::{ContainerId, Field, OfferList, TooMany};

/// A container that offers nothing.
fn with_quota(alloc: Global, quota: u64) -> Container
    requires { quota < 2 ^ 32 }
    ensures { result.quota ≡ quota }
{
    Container {
        quota,
        offered: OfferList::of(Vec::new(alloc)),
    }
}

/// What a container is charged for, where it stands.
fn charge_if_any(table: &ContainerTable, id: ContainerId) -> Option<u64>
    ensures { result ≡ charge_of table.now id.0 }
{
    match table.get(id) {
        Some(_) => Some(table.charge(id)),
        None => None,
    }
}

#[test]
fn each_call_once(rt: HostRuntime) -> Result<(), Fail> {
    let mut table = ContainerTable::new(rt.alloc())?;
    assert_eq!(rt; table.may_add(), Ok(()));
    table.add(ContainerId(0), with_quota(rt.alloc(), 9));
    table.add(ContainerId(7), with_quota(rt.alloc(), 3));
    assert_eq!(rt; table.get(ContainerId(7)).map(|k| k.quota), Some(3));
    assert!(rt; table.get(ContainerId(1)).is_none());
    assert_eq!(rt; table.at(1), Some(ContainerId(7)));
    assert_eq!(rt; table.at(2), None);
    table.set_charge(ContainerId(7), 2);
    assert_eq!(rt; table.charge(ContainerId(7)), 2);
    assert_eq!(rt; charge_if_any(&table, ContainerId(0)), Some(0));
    assert_eq!(rt; charge_if_any(&table, ContainerId(8)), None);
    assert_eq!(rt; table.would_exceed(ContainerId(7), 1), Ok(()));
    assert_eq!(rt;
        table.would_exceed(ContainerId(7), 2),
        Err(OverQuota {
            charged: 2,
            asked: 2,
            quota: 3,
        })
    );
    Ok(())
}

#[test]
fn a_table_has_32_containers(rt: HostRuntime) -> Result<(), Fail> {
    let mut table = ContainerTable::new(rt.alloc())?;
    for number in 0..32 {
        assert_eq!(rt; table.may_add(), Ok(()));
        table.add(ContainerId(number), with_quota(rt.alloc(), 1));
    }
    assert_eq!(rt;
        table.may_add(),
        Err(TooMany {
            name: Field::Container,
            limit: 32,
        })
    );
    Ok(())
}
