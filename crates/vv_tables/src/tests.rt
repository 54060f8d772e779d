//! What the tables of a new array answer.
use crate::Tables;
use std::test::Fail;
use vv_units::{ContainerId, Geometry, TaskId, VolumeId};

/// A pool of 16 chunks of 8 blocks, and 64 entries.
fn small() -> Geometry {
    Geometry {
        chunk_blocks: 8,
        pool_chunks: 16,
        map_chunks: 64,
    }
}

#[test]
fn a_new_array_has_container_0_alone(rt: HostRuntime) -> Result<(), Fail> {
    let tables = Tables::new(rt.alloc(), small())?;
    assert_eq!(rt; tables.geometry(), small());
    assert_eq!(rt; tables.lsn(), 0);
    assert_eq!(rt; tables.container_count(), 1);
    assert_eq!(rt;
        tables.container(ContainerId(0)).map(|k| k.quota),
        Some(4_294_967_295)
    );
    assert!(rt; tables.container(ContainerId(1)).is_none());
    assert_eq!(rt; tables.volume_count(), 0);
    assert_eq!(rt; tables.pair_count(), 0);
    assert_eq!(rt; tables.running_count(), 0);
    tables.close();
    Ok(())
}

#[test]
fn a_new_array_has_all_its_space(rt: HostRuntime) -> Result<(), Fail> {
    let tables = Tables::new(rt.alloc(), small())?;
    assert_eq!(rt; tables.entries(), 0);
    assert_eq!(rt; tables.used(), 0);
    assert_eq!(rt; tables.reserved(), 0);
    assert_eq!(rt; tables.free(), 16);
    assert_eq!(rt; tables.size(VolumeId(1)), 0);
    assert!(rt; !tables.is_busy(VolumeId(1)));
    assert!(rt; tables.task(TaskId(1)).is_none());
    assert!(rt; tables.image_entry(TaskId(1), 0).is_none());
    tables.close();
    Ok(())
}

#[test]
fn an_interruption_of_a_new_array_changes_nothing(rt: HostRuntime) -> Result<(), Fail> {
    let mut tables = Tables::new(rt.alloc(), small())?;
    tables.interrupt();
    assert_eq!(rt; tables.lsn(), 0);
    assert_eq!(rt; tables.container_count(), 1);
    assert_eq!(rt; tables.running_count(), 0);
    assert_eq!(rt; tables.reserved(), 0);
    tables.close();
    Ok(())
}
