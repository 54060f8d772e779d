//! What a new array answers to each kind of change.
use crate::{Refusal, Verdict, judge};
use std::alloc::Global;
use std::test::Fail;
use vv_profile::Capabilities;
use vv_record::Event;
use vv_tables::Tables;
use vv_units::{
    ContainerId, EndpointId, Field, Geometry, HostId, ItemList, Key, Name, Need, Note, Secondary,
    TaskId, VolumeId, VvolType, Why,
};

/// A pool of 16 chunks of 8 blocks, and 256 entries, which are those of 1 MB.
fn small() -> Geometry {
    Geometry {
        chunk_blocks: 8,
        pool_chunks: 16,
        map_chunks: 256,
    }
}

/// What a new array, which has no capability, answers.
fn answer(alloc: Global, event: &Event) -> Result<Verdict, Fail> {
    let tables = Tables::new(alloc, small())?;
    let verdict = judge(&tables, &Capabilities::of(Vec::new(alloc)), event);
    tables.close();
    Ok(verdict)
}

/// The answer where a name is of nothing.
fn not_found(name: Field) -> Verdict {
    Verdict::Refuse(Refusal::NotFound { name })
}

#[test]
fn a_container_is_made(rt: HostRuntime) -> Result<(), Fail> {
    let event = Event::MakeContainer {
        quota: 5,
        offers: ItemList::of(Vec::new(rt.alloc())),
    };
    assert_eq!(rt; answer(rt.alloc(), &event)?, Verdict::Accept);
    Ok(())
}

/// The creation of a volume of so many chunks, with no needs.
fn creation(alloc: Global, container: u64, chunks: u32) -> Event {
    Event::MakeVolume {
        container: ContainerId(container),
        vtype: VvolType::Data,
        chunks,
        needs: ItemList::of(Vec::new(alloc)),
    }
}

#[test]
fn a_volume_is_made(rt: HostRuntime) -> Result<(), Fail> {
    let event = creation(rt.alloc(), 0, 256);
    assert_eq!(rt; answer(rt.alloc(), &event)?, Verdict::Accept);
    Ok(())
}

#[test]
fn a_volume_of_2_mb_is_too_large(rt: HostRuntime) -> Result<(), Fail> {
    let event = creation(rt.alloc(), 0, 512);
    let full = Refusal::MapFull {
        entries: 0,
        asked: 512,
        limit: 256,
    };
    assert_eq!(rt; answer(rt.alloc(), &event)?, Verdict::Refuse(full));
    Ok(())
}

#[test]
fn a_size_is_whole_mb(rt: HostRuntime) -> Result<(), Fail> {
    let event = creation(rt.alloc(), 0, 255);
    let name = Field::SizeInMb;
    assert_eq!(rt;
        answer(rt.alloc(), &event)?,
        Verdict::Refuse(Refusal::InvalidArgument { name })
    );
    Ok(())
}

#[test]
fn a_missing_container_comes_before_a_wrong_size(rt: HostRuntime) -> Result<(), Fail> {
    let event = creation(rt.alloc(), 1, 255);
    assert_eq!(rt; answer(rt.alloc(), &event)?, not_found(Field::Container));
    Ok(())
}

#[test]
fn an_unknown_need_comes_before_a_full_map(rt: HostRuntime) -> Result<(), Fail> {
    let mut needs = Vec::new(rt.alloc());
    needs.push(Need {
        name: Name::read(rt.alloc(), b"colour")?.ok_or("a name")?,
        value: 1,
    })?;
    let event = Event::MakeVolume {
        container: ContainerId(0),
        vtype: VvolType::Data,
        chunks: 512,
        needs: ItemList::of(needs),
    };
    let misfit = Refusal::InvalidProfile {
        at: 0,
        why: Why::Unknown,
    };
    assert_eq!(rt; answer(rt.alloc(), &event)?, Verdict::Refuse(misfit));
    Ok(())
}

#[test]
fn a_missing_volume_is_not_deleted(rt: HostRuntime) -> Result<(), Fail> {
    let event = Event::DeleteVolume {
        volume: VolumeId(1),
    };
    assert_eq!(rt; answer(rt.alloc(), &event)?, not_found(Field::Vvol));
    Ok(())
}

#[test]
fn a_missing_volume_does_not_grow(rt: HostRuntime) -> Result<(), Fail> {
    let event = Event::GrowVolume {
        volume: VolumeId(1),
        chunks: 256,
    };
    assert_eq!(rt; answer(rt.alloc(), &event)?, not_found(Field::Vvol));
    Ok(())
}

#[test]
fn a_missing_volume_has_no_note(rt: HostRuntime) -> Result<(), Fail> {
    let event = Event::SetMetadata {
        volume: VolumeId(1),
        key: Key::read(rt.alloc(), b"owner")?.ok_or("a key")?,
        note: Note::read(rt.alloc(), b"me")?,
    };
    assert_eq!(rt; answer(rt.alloc(), &event)?, not_found(Field::Vvol));
    Ok(())
}

#[test]
fn a_missing_volume_gets_no_snapshot(rt: HostRuntime) -> Result<(), Fail> {
    let event = Event::Snapshot {
        volume: VolumeId(1),
    };
    assert_eq!(rt; answer(rt.alloc(), &event)?, not_found(Field::Vvol));
    Ok(())
}

#[test]
fn a_missing_volume_gets_no_fast_clone(rt: HostRuntime) -> Result<(), Fail> {
    let event = Event::FastClone {
        volume: VolumeId(1),
    };
    assert_eq!(rt; answer(rt.alloc(), &event)?, not_found(Field::Vvol));
    Ok(())
}

#[test]
fn a_missing_volume_is_not_reverted(rt: HostRuntime) -> Result<(), Fail> {
    let event = Event::Revert {
        volume: VolumeId(1),
        snapshot: VolumeId(2),
    };
    assert_eq!(rt; answer(rt.alloc(), &event)?, not_found(Field::Vvol));
    Ok(())
}

#[test]
fn a_missing_volume_is_not_written(rt: HostRuntime) -> Result<(), Fail> {
    let event = Event::Write {
        volume: VolumeId(1),
        first_block: 0,
        blocks: 0,
        places: ItemList::of(Vec::new(rt.alloc())),
    };
    assert_eq!(rt; answer(rt.alloc(), &event)?, not_found(Field::Vvol));
    Ok(())
}

#[test]
fn a_missing_volume_is_not_unmapped(rt: HostRuntime) -> Result<(), Fail> {
    let event = Event::Unmap {
        volume: VolumeId(1),
        ranges: ItemList::of(Vec::new(rt.alloc())),
    };
    assert_eq!(rt; answer(rt.alloc(), &event)?, not_found(Field::Vvol));
    Ok(())
}

#[test]
fn a_host_gets_endpoints(rt: HostRuntime) -> Result<(), Fail> {
    let mut endpoints = Vec::new(rt.alloc());
    endpoints.push(EndpointId(2))?;
    let event = Event::SetEndpoints {
        host: HostId(1),
        endpoints: ItemList::of(endpoints),
    };
    assert_eq!(rt; answer(rt.alloc(), &event)?, Verdict::Accept);
    Ok(())
}

#[test]
fn a_missing_volume_is_not_bound(rt: HostRuntime) -> Result<(), Fail> {
    let event = Event::Bind {
        host: HostId(1),
        volume: VolumeId(1),
    };
    assert_eq!(rt; answer(rt.alloc(), &event)?, not_found(Field::Vvol));
    Ok(())
}

#[test]
fn what_is_not_bound_is_not_unbound(rt: HostRuntime) -> Result<(), Fail> {
    let event = Event::Unbind {
        host: HostId(1),
        endpoint: EndpointId(1),
        secondary: Secondary(0),
    };
    assert_eq!(rt; answer(rt.alloc(), &event)?, not_found(Field::Secondary));
    Ok(())
}

#[test]
fn a_host_without_bindings_has_none_to_lose(rt: HostRuntime) -> Result<(), Fail> {
    let event = Event::UnbindAll { host: HostId(1) };
    assert_eq!(rt; answer(rt.alloc(), &event)?, Verdict::Nothing);
    Ok(())
}

#[test]
fn a_missing_volume_is_not_cloned(rt: HostRuntime) -> Result<(), Fail> {
    let event = Event::StartClone {
        volume: VolumeId(1),
    };
    assert_eq!(rt; answer(rt.alloc(), &event)?, not_found(Field::Vvol));
    Ok(())
}

#[test]
fn a_missing_source_is_not_copied(rt: HostRuntime) -> Result<(), Fail> {
    let event = Event::StartCopy {
        source: VolumeId(1),
        base: VolumeId(2),
        target: VolumeId(3),
    };
    assert_eq!(rt; answer(rt.alloc(), &event)?, not_found(Field::Source));
    Ok(())
}

#[test]
fn a_missing_task_has_no_turn(rt: HostRuntime) -> Result<(), Fail> {
    let event = Event::Turn {
        task: TaskId(1),
        copies: ItemList::of(Vec::new(rt.alloc())),
    };
    assert_eq!(rt; answer(rt.alloc(), &event)?, not_found(Field::Task));
    Ok(())
}

#[test]
fn a_missing_task_is_not_cancelled(rt: HostRuntime) -> Result<(), Fail> {
    let event = Event::Cancel { task: TaskId(1) };
    assert_eq!(rt; answer(rt.alloc(), &event)?, not_found(Field::Task));
    Ok(())
}
