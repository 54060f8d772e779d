//! What a new array is asked for, and what it answers.
use crate::{
    CommandAsk, accepted_reply, allocated_bitmap, answered_reply, commanded, event_for, query_pool,
    queued, served,
};
use std::alloc::Global;
use std::test::Fail;
use vv_calls::{Call, ScsiCall};
use vv_lun::Attentions;
use vv_queue::HostQueue;
use vv_record::Event;
use vv_reply::{Answer, Refusal, Reply, ScsiReply};
use vv_tables::Tables;
use vv_units::{
    ByteList, ContainerId, EndpointId, Field, Geometry, HostId, NoMemory, Secondary, VolumeId,
    VvolType,
};

/// A pool of 16 chunks of 2048 blocks, and 256 entries.
fn small() -> Geometry {
    Geometry {
        chunk_blocks: 2048,
        pool_chunks: 16,
        map_chunks: 256,
    }
}

/// READ(10) of block 6 at secondary identifier 3 of endpoint 1, by host 2.
fn read_of_block_6(alloc: Global) -> Result<ScsiCall, NoMemory> {
    let cdb = [0x28, 0, 0, 0, 0, 6, 0, 0, 3, 0];
    Ok(ScsiCall {
        host: HostId(2),
        endpoint: EndpointId(1),
        secondary: Secondary(3),
        cdb: ByteList::of(Vec::from_slice(alloc, &cdb).map_err(|_| NoMemory)?),
        payload: ByteList::of(Vec::new(alloc)),
    })
}

/// A volume of 4 MB.
fn create_of_4_mb() -> Call {
    Call::CreateVirtualVolume {
        container: None,
        vvol_type: VvolType::Data,
        size_in_mb: 4,
        profile: None,
    }
}

#[test]
fn a_new_pool_is_free(rt: HostRuntime) -> Result<(), Fail> {
    let tables = Tables::new(rt.alloc(), small())?;
    let reply = query_pool(&tables);
    tables.close();
    assert!(rt;
        matches!(
            reply,
            Reply::Done(Answer::Pool {
                chunks: 16,
                entries: 0,
                free: 16,
                reserved: 0,
                used: 0
            })
        )
    );
    Ok(())
}

#[test]
fn a_missing_volume_has_no_bitmap(rt: HostRuntime) -> Result<(), Fail> {
    let tables = Tables::new(rt.alloc(), small())?;
    let reply = allocated_bitmap(rt.alloc(), &tables, VolumeId(1), None, None);
    tables.close();
    assert!(rt;
        matches!(
            reply?,
            Reply::Refused(Refusal::NotFound { name: Field::Vvol })
        )
    );
    Ok(())
}

#[test]
fn a_volume_of_4_mb_has_4_chunks(rt: HostRuntime) -> Result<(), Fail> {
    let tables = Tables::new(rt.alloc(), small())?;
    let event = event_for(rt.alloc(), &tables, &create_of_4_mb());
    let reply = accepted_reply(&tables, &create_of_4_mb());
    tables.close();
    assert!(rt;
        matches!(
            event?,
            Some(Event::MakeVolume {
                container: ContainerId(0),
                chunks: 4,
                ..
            })
        )
    );
    assert!(rt; matches!(reply, Some(Reply::Done(Answer::Vvol { vvol: VolumeId(1) }))));
    Ok(())
}

#[test]
fn a_change_is_not_answered_at_once(rt: HostRuntime) -> Result<(), Fail> {
    let tables = Tables::new(rt.alloc(), small())?;
    let reply = answered_reply(rt.alloc(), &tables, &create_of_4_mb());
    tables.close();
    assert!(rt; reply?.is_none());
    Ok(())
}

#[test]
fn nothing_is_read_where_nothing_is_bound(rt: HostRuntime) -> Result<(), Fail> {
    let attentions = Attentions::new(rt.alloc())?;
    let command = read_of_block_6(rt.alloc())?;
    let tables = Tables::new(rt.alloc(), small())?;
    let ask = commanded(rt.alloc(), &tables, &attentions, &command);
    tables.close();
    let CommandAsk::Answer {
        reply: Reply::Scsi(
            ScsiReply {
                status,
                sense: Some(sense),
                ..
            },
        ),
        clears: false,
    } = ask?
    else {
        return Err(Fail::from("an answer with a sense"));
    };
    assert_eq!(rt; status, 0x02);
    assert_eq!(rt; (sense.key, sense.asc, sense.ascq), (5, 0x25, 0));
    Ok(())
}

#[test]
fn a_command_is_queued_and_none_is_served(rt: HostRuntime) -> Result<(), Fail> {
    let attentions = Attentions::new(rt.alloc())?;
    let command = read_of_block_6(rt.alloc())?;
    let queues = [HostQueue::new(rt.alloc())?, HostQueue::new(rt.alloc())?];
    let submission = queued(rt.alloc(), &queues, &command);
    assert!(rt; submission.is_taken);
    assert!(rt; matches!(submission.reply, Reply::Done(Answer::Queued { queued: 1 })));
    let tables = Tables::new(rt.alloc(), small())?;
    let ask = served(rt.alloc(), &tables, &attentions, &queues, HostId(2));
    tables.close();
    assert!(rt; ask?.is_none());
    Ok(())
}
