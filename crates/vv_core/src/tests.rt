//! A new core, what a restart and an interruption leave of it, records that are replayed over it, and scripts of calls over a
//! core without a disk.
ghost use Rattle.std.specs.Prelude.{◌≡◌, ◌<◌, false, IsTrue, IfOk};
ghost use Rattle.vv_flat.specs.Fields.{change_has_forms};
ghost use Rattle.vv_flat.specs.Logs.{record_fits};
ghost use Rattle.vv_calls.specs.Formed.{IsFormed};
ghost use Rattle.vv_event.specs.Events.{change_of, log_record};
ghost use Rattle.vv_reply.specs.Replies.{FitsReply};
ghost use Rattle.vv_core.specs.Rooms.{IsEventRoomFor};

use crate::settling::good;
use crate::{Core, Planned, Replayed, Room};
use std::alloc::Global;
use std::marker::Brand;
use std::sync::ledger::{Blank, Ledger};
use std::test::Fail;
use vv_calls::{Call, read_line};
use vv_profile::{Capabilities, Capability, Kind, is_at_least, is_at_most, is_one_of};
use vv_record::{Event, PlaceList, Record};
use vv_reply::{Reply, ReplyBuffer};
use vv_units::{
    ContainerId, Geometry, ItemList, Name, NoMemory, Place, Steps, TaskId, VolumeId, VvolType,
};

#[test]
fn a_new_core_has_no_chunk(rt: HostRuntime) -> Result<(), Fail> {
    let geometry = Geometry {
        chunk_blocks: 8,
        pool_chunks: 16,
        map_chunks: 64,
    };
    let mut core = Core::empty(rt.alloc(), geometry)?;
    core.interrupt();
    core.restart();
    assert_eq!(rt; core.lsn(), 0);
    assert_eq!(rt; core.geometry().pool_chunks, 16);
    assert!(rt; core.place_in_volume(VolumeId(1), 0).is_none());
    assert!(rt; core.place_in_image(TaskId(1), 0).is_none());
    core.close();
    Ok(())
}

/// The record of a new volume of 1 MB.
#[tactic(auto, unfolding(vv_event::specs::Events::change_of, vv_flat::specs::Fields::change_has_forms))]
fn creation(alloc: Global) -> Record
    ensures { IsTrue (change_has_forms (change_of result.event)) }
{
    Record {
        first_after_open: false,
        event: Event::MakeVolume {
            container: ContainerId(0),
            vtype: VvolType::Data,
            chunks: 256,
            needs: ItemList::of(Vec::new(alloc)),
        },
    }
}

/// The record of a write of the third chunk of the volume 1.
#[tactic(auto, unfolding(vv_event::specs::Events::change_of, vv_flat::specs::Fields::change_has_forms))]
fn write(places: PlaceList) -> Record
    ensures { IsTrue (change_has_forms (change_of result.event)) }
{
    Record {
        first_after_open: false,
        event: Event::Write {
            volume: VolumeId(1),
            first_block: 16,
            blocks: 8,
            places,
        },
    }
}

#[test]
fn a_written_chunk_is_at_its_place(rt: HostRuntime) -> Result<(), Fail> {
    let geometry = Geometry {
        chunk_blocks: 8,
        pool_chunks: 16,
        map_chunks: 256,
    };
    let mut places = Vec::new(rt.alloc());
    places.push(Place(5))?;
    let written = write(ItemList::of(places));
    let made = creation(rt.alloc());
    let mut core = Core::empty(rt.alloc(), geometry)?;
    assert_eq!(rt; core.replay(rt.alloc(), &made), Ok(Replayed::Applied));
    assert_eq!(rt; core.replay(rt.alloc(), &written), Ok(Replayed::Applied));
    assert_eq!(rt; core.place_in_volume(VolumeId(1), 2), Some(Place(5)));
    assert_eq!(rt; core.replay(rt.alloc(), &written), Ok(Replayed::Misfit));
    core.close();
    Ok(())
}

/// Does a call that is answered with this.
fn answered(alloc: Global, core: &mut Core, call: &Call, reply: Reply) -> Result<Reply, NoMemory>
    requires formed { IsFormed call.now }
    requires fits { FitsReply reply }
    ensures { IfOk result FitsReply }
{
    let room = core.prepare(alloc, call)?;
    core.pass(call, room);
    Ok(reply)
}

/// Does a call with its event, and counts its steps for nobody.
fn apply<L: Ledger>(core: &mut Core, call: &Call, record: &Record, room: Room, blank: Blank)
    requires room { IsEventRoomFor core.old call.now «record».now.event room }
    requires name { blank.name ≡ L.name }
    requires parts { blank.parts ≡ L.parts }
    requires some { 0 < blank.parts }
{
    let mut steps: Steps<L> = Steps::new(blank);
    core.apply(call, record, room, &mut steps);
}

/// Does a call whose event is planned, and is answered with this.
fn done(
    alloc: Global,
    core: &mut Core,
    call: &Call,
    event: Event,
    reply: Reply,
) -> Result<Reply, NoMemory>
    requires formed { IsFormed call.now }
    requires fits { IsTrue (record_fits core.old.array.durable (log_record (record { first_after_open = false; event = event }))) }
    requires forms { IsTrue (change_has_forms (change_of event)) }
    requires text { FitsReply reply }
    ensures { IfOk result FitsReply }
{
    let record = Record {
        first_after_open: false,
        event,
    };
    let room = core.prepare_event(alloc, call, &record.event)?;
    apply::<Brand>(core, call, &record, room, Blank::new(1));
    Ok(reply)
}

/// The reply to a call, without the data of a read.
fn reply_to(
    alloc: Global,
    core: &mut Core,
    capabilities: &Capabilities,
    call: &Call,
) -> Result<Reply, NoMemory>
    requires { IsFormed call.now }
    ensures { IfOk result FitsReply }
{
    match core.plan(alloc, capabilities, call) {
        Ok(Planned::Answer(reply)) => answered(alloc, core, call, reply),
        Ok(Planned::Read { .. }) => answered(alloc, core, call, good(alloc)),
        Ok(Planned::Journal { event, reply, .. }) => done(alloc, core, call, event, reply),
        Err(refusal) => answered(alloc, core, call, Reply::Refused(refusal)),
    }
}

/// A line of a script, whose identifiers are written by two digits behind `#`.
fn written_out(alloc: Global, line: &str) -> Result<Vec<u8>, NoMemory> {
    let mut bytes = Vec::new(alloc);
    for byte in line.as_bytes() {
        if *byte == b'#' {
            bytes
                .extend_from_slice(b"rfc4122.00000000-0001-8000-8000-0000000000")
                .map_err(|_| NoMemory)?;
        } else {
            bytes.push(*byte).map_err(|_| NoMemory)?;
        }
    }
    Ok(bytes)
}

/// Whether the call of a line is answered so.
fn is_answered(
    alloc: Global,
    core: &mut Core,
    capabilities: &Capabilities,
    buffer: &mut ReplyBuffer,
    line: &str,
    wanted: &str,
) -> Result<bool, NoMemory> {
    let line = written_out(alloc, line)?;
    let mut wanted = written_out(alloc, wanted)?;
    wanted.push(b'\n').map_err(|_| NoMemory)?;
    let Ok(call) = read_line(alloc, line.as_slice()) else {
        return Ok(false);
    };
    let reply = reply_to(alloc, core, capabilities, &call)?;
    buffer.fill(&reply);
    Ok(buffer.bytes() == wanted.as_slice())
}

/// The first line of a script that is answered otherwise than the table says.
fn first_other(
    alloc: Global,
    core: &mut Core,
    capabilities: &Capabilities,
    script: &[(&str, &str)],
) -> Result<Option<usize>, NoMemory> {
    let mut buffer = ReplyBuffer::new(alloc)?;
    for (i, (line, wanted)) in script.iter().enumerate() {
        if !is_answered(alloc, core, capabilities, &mut buffer, line, wanted)? {
            return Ok(Some(i));
        }
    }
    Ok(None)
}

fn name(alloc: Global, text: &[u8]) -> Result<Name, Fail> {
    Ok(Name::read(alloc, text)?.ok_or("a name")?)
}

/// The first line of a script, over a new core, that is answered otherwise than the table says.
fn played(
    alloc: Global,
    geometry: Geometry,
    script: &[(&str, &str)],
) -> Result<Option<usize>, Fail> {
    let mut capabilities = Vec::new(alloc);
    capabilities.push(Capability {
        name: name(alloc, b"min-iops")?,
        kind: Kind::AtLeast,
        test: Box::new(
            alloc,
            |offered: u64, asked: u64| is_at_least(offered, asked),
        )?,
    })?;
    capabilities.push(Capability {
        name: name(alloc, b"max-latency-us")?,
        kind: Kind::AtMost,
        test: Box::new(alloc, |offered: u64, asked: u64| is_at_most(offered, asked))?,
    })?;
    capabilities.push(Capability {
        name: name(alloc, b"features")?,
        kind: Kind::OneOf,
        test: Box::new(alloc, |offered: u64, asked: u64| is_one_of(offered, asked))?,
    })?;
    let capabilities = Capabilities::of(capabilities);
    let mut core = Core::empty(alloc, geometry)?;
    let other = first_other(alloc, &mut core, &capabilities, script);
    core.close();
    Ok(other?)
}

/// 16 chunks of 1 MiB, and 256 entries.
fn usual() -> Geometry {
    Geometry {
        chunk_blocks: 2048,
        pool_chunks: 16,
        map_chunks: 256,
    }
}

/// Blocks written around a snapshot, and a revert to it.
const BITS: [(&str, &str); 19] = [
    (
        "{\"call\":\"createVirtualVolume\",\"sizeInMB\":4,\"vvolType\":\"Data\"}",
        "{\"ok\":true,\"vvol\":\"#01\"}",
    ),
    (
        "{\"call\":\"bindVirtualVolume\",\"host\":1,\"vvol\":\"#01\"}",
        "{\"endpoint\":1,\"ok\":true,\"secondary\":1}",
    ),
    (
        "{\"call\":\"scsi\",\"cdb\":\"2a000000080000000100\",\"data\":[[\"11\",512]],\"endpoint\":1,\"host\":1,\"secondary\":1}",
        "{\"data\":[],\"ok\":true,\"status\":\"00\"}",
    ),
    (
        "{\"call\":\"scsi\",\"cdb\":\"2a000000100000000100\",\"data\":[[\"22\",512]],\"endpoint\":1,\"host\":1,\"secondary\":1}",
        "{\"data\":[],\"ok\":true,\"status\":\"00\"}",
    ),
    (
        "{\"call\":\"snapshotVirtualVolume\",\"vvol\":\"#01\"}",
        "{\"ok\":true,\"vvol\":\"#05\"}",
    ),
    (
        "{\"call\":\"scsi\",\"cdb\":\"2a000000080000000100\",\"data\":[[\"33\",512]],\"endpoint\":1,\"host\":1,\"secondary\":1}",
        "{\"data\":[],\"ok\":true,\"status\":\"00\"}",
    ),
    (
        "{\"base\":\"#05\",\"call\":\"unsharedBitmapVirtualVolume\",\"vvol\":\"#01\"}",
        "{\"bits\":\"0100\",\"ok\":true}",
    ),
    (
        "{\"call\":\"scsi\",\"cdb\":\"2a000000100000000100\",\"data\":[[\"22\",512]],\"endpoint\":1,\"host\":1,\"secondary\":1}",
        "{\"data\":[],\"ok\":true,\"status\":\"00\"}",
    ),
    (
        "{\"base\":\"#05\",\"call\":\"unsharedBitmapVirtualVolume\",\"vvol\":\"#01\"}",
        "{\"bits\":\"0110\",\"ok\":true}",
    ),
    (
        "{\"base\":\"#05\",\"call\":\"unsharedChunksVirtualVolume\",\"vvol\":\"#01\"}",
        "{\"count\":2,\"ok\":true}",
    ),
    (
        "{\"base\":\"#05\",\"call\":\"unsharedBitmapVirtualVolume\",\"count\":2,\"first\":1,\"vvol\":\"#01\"}",
        "{\"bits\":\"11\",\"ok\":true}",
    ),
    (
        "{\"base\":\"#05\",\"call\":\"unsharedBitmapVirtualVolume\",\"count\":2,\"first\":3,\"vvol\":\"#01\"}",
        "{\"fault\":\"InvalidArgument\",\"name\":\"count\",\"ok\":false}",
    ),
    (
        "{\"call\":\"queryPool\"}",
        "{\"chunks\":16,\"entries\":8,\"free\":12,\"ok\":true,\"reserved\":0,\"used\":4}",
    ),
    (
        "{\"call\":\"revertVirtualVolume\",\"snapshot\":\"#05\",\"vvol\":\"#01\"}",
        "{\"fault\":\"ResourceInUse\",\"name\":\"vvol\",\"ok\":false}",
    ),
    (
        "{\"call\":\"unbindVirtualVolume\",\"endpoint\":1,\"host\":1,\"secondary\":1}",
        "{\"left\":0,\"ok\":true}",
    ),
    (
        "{\"call\":\"revertVirtualVolume\",\"snapshot\":\"#05\",\"vvol\":\"#01\"}",
        "{\"ok\":true}",
    ),
    (
        "{\"base\":\"#05\",\"call\":\"unsharedBitmapVirtualVolume\",\"vvol\":\"#01\"}",
        "{\"bits\":\"0000\",\"ok\":true}",
    ),
    (
        "{\"call\":\"queryPool\"}",
        "{\"chunks\":16,\"entries\":8,\"free\":14,\"ok\":true,\"reserved\":0,\"used\":2}",
    ),
    (
        "{\"call\":\"bindVirtualVolume\",\"host\":1,\"vvol\":\"#01\"}",
        "{\"endpoint\":1,\"ok\":true,\"secondary\":1}",
    ),
];

/// A full clone whose source is deleted ahead of its last turn.
const CLONE: [(&str, &str); 14] = [
    (
        "{\"call\":\"createVirtualVolume\",\"sizeInMB\":1,\"vvolType\":\"Data\"}",
        "{\"ok\":true,\"vvol\":\"#01\"}",
    ),
    (
        "{\"call\":\"bindVirtualVolume\",\"host\":1,\"vvol\":\"#01\"}",
        "{\"endpoint\":1,\"ok\":true,\"secondary\":1}",
    ),
    (
        "{\"call\":\"scsi\",\"cdb\":\"2a00000000000000a000\",\"data\":[[\"11\",81920]],\"endpoint\":1,\"host\":1,\"secondary\":1}",
        "{\"data\":[],\"ok\":true,\"status\":\"00\"}",
    ),
    (
        "{\"call\":\"cloneVirtualVolume\",\"vvol\":\"#01\"}",
        "{\"ok\":true,\"target\":\"#04\",\"task\":4,\"total\":20}",
    ),
    (
        "{\"call\":\"turn\",\"task\":4}",
        "{\"done\":16,\"ok\":true,\"state\":\"Running\",\"task\":4,\"total\":20}",
    ),
    (
        "{\"call\":\"queryPool\"}",
        "{\"chunks\":64,\"entries\":768,\"free\":24,\"ok\":true,\"reserved\":4,\"used\":36}",
    ),
    (
        "{\"call\":\"queryVirtualVolume\",\"vvol\":\"#04\"}",
        "{\"fault\":\"NotFound\",\"name\":\"vvol\",\"ok\":false}",
    ),
    (
        "{\"call\":\"scsi\",\"cdb\":\"2a000000000000000800\",\"data\":[[\"22\",4096]],\"endpoint\":1,\"host\":1,\"secondary\":1}",
        "{\"data\":[],\"ok\":true,\"status\":\"00\"}",
    ),
    (
        "{\"call\":\"unbindVirtualVolume\",\"endpoint\":1,\"host\":1,\"secondary\":1}",
        "{\"left\":0,\"ok\":true}",
    ),
    (
        "{\"call\":\"deleteVirtualVolume\",\"vvol\":\"#01\"}",
        "{\"ok\":true}",
    ),
    (
        "{\"call\":\"turn\",\"task\":4}",
        "{\"done\":20,\"ok\":true,\"state\":\"Success\",\"task\":4,\"total\":20}",
    ),
    (
        "{\"call\":\"queryPool\"}",
        "{\"chunks\":64,\"entries\":256,\"free\":44,\"ok\":true,\"reserved\":0,\"used\":20}",
    ),
    (
        "{\"call\":\"bindVirtualVolume\",\"host\":1,\"vvol\":\"#04\"}",
        "{\"endpoint\":1,\"ok\":true,\"secondary\":1}",
    ),
    (
        "{\"call\":\"turn\",\"task\":4}",
        "{\"done\":20,\"ok\":true,\"state\":\"Success\",\"task\":4,\"total\":20}",
    ),
];

/// A copy of differences that is cancelled.
const COPY: [(&str, &str); 13] = [
    (
        "{\"call\":\"createVirtualVolume\",\"sizeInMB\":4,\"vvolType\":\"Data\"}",
        "{\"ok\":true,\"vvol\":\"#01\"}",
    ),
    (
        "{\"call\":\"bindVirtualVolume\",\"host\":1,\"vvol\":\"#01\"}",
        "{\"endpoint\":1,\"ok\":true,\"secondary\":1}",
    ),
    (
        "{\"call\":\"scsi\",\"cdb\":\"2a000000080000000100\",\"data\":[[\"11\",512]],\"endpoint\":1,\"host\":1,\"secondary\":1}",
        "{\"data\":[],\"ok\":true,\"status\":\"00\"}",
    ),
    (
        "{\"call\":\"snapshotVirtualVolume\",\"vvol\":\"#01\"}",
        "{\"ok\":true,\"vvol\":\"#04\"}",
    ),
    (
        "{\"call\":\"scsi\",\"cdb\":\"2a000000080000000100\",\"data\":[[\"22\",512]],\"endpoint\":1,\"host\":1,\"secondary\":1}",
        "{\"data\":[],\"ok\":true,\"status\":\"00\"}",
    ),
    (
        "{\"call\":\"snapshotVirtualVolume\",\"vvol\":\"#01\"}",
        "{\"ok\":true,\"vvol\":\"#06\"}",
    ),
    (
        "{\"call\":\"createVirtualVolume\",\"sizeInMB\":4,\"vvolType\":\"Data\"}",
        "{\"ok\":true,\"vvol\":\"#07\"}",
    ),
    (
        "{\"base\":\"#04\",\"call\":\"copyDiffsToVirtualVolume\",\"source\":\"#06\",\"target\":\"#07\"}",
        "{\"ok\":true,\"task\":8,\"total\":1}",
    ),
    (
        "{\"call\":\"bindVirtualVolume\",\"host\":1,\"vvol\":\"#07\"}",
        "{\"fault\":\"ResourceInUse\",\"name\":\"vvol\",\"ok\":false}",
    ),
    (
        "{\"call\":\"cancelTask\",\"task\":8}",
        "{\"done\":0,\"ok\":true,\"state\":\"Cancelled\",\"task\":8,\"total\":1}",
    ),
    (
        "{\"call\":\"bindVirtualVolume\",\"host\":1,\"vvol\":\"#07\"}",
        "{\"endpoint\":1,\"ok\":true,\"secondary\":2}",
    ),
    (
        "{\"call\":\"cancelTask\",\"task\":8}",
        "{\"fault\":\"NotCancellable\",\"name\":\"task\",\"ok\":false}",
    ),
    (
        "{\"call\":\"allocatedBitmapVirtualVolume\",\"vvol\":\"#07\"}",
        "{\"bits\":\"0000\",\"ok\":true}",
    ),
];

/// A container whose quota is met.
const QUOTA: [(&str, &str); 8] = [
    (
        "{\"call\":\"createStorageContainer\",\"capabilities\":[],\"quota\":2}",
        "{\"container\":\"#01\",\"ok\":true}",
    ),
    (
        "{\"call\":\"createVirtualVolume\",\"container\":\"#01\",\"sizeInMB\":4,\"vvolType\":\"Data\"}",
        "{\"ok\":true,\"vvol\":\"#02\"}",
    ),
    (
        "{\"call\":\"bindVirtualVolume\",\"host\":1,\"vvol\":\"#02\"}",
        "{\"endpoint\":1,\"ok\":true,\"secondary\":1}",
    ),
    (
        "{\"call\":\"scsi\",\"cdb\":\"2a000000000000000100\",\"data\":[[\"11\",512]],\"endpoint\":1,\"host\":1,\"secondary\":1}",
        "{\"data\":[],\"ok\":true,\"status\":\"00\"}",
    ),
    (
        "{\"call\":\"scsi\",\"cdb\":\"2a000000080000000100\",\"data\":[[\"11\",512]],\"endpoint\":1,\"host\":1,\"secondary\":1}",
        "{\"data\":[],\"ok\":true,\"status\":\"00\"}",
    ),
    (
        "{\"call\":\"scsi\",\"cdb\":\"2a000000100000000100\",\"data\":[[\"11\",512]],\"endpoint\":1,\"host\":1,\"secondary\":1}",
        "{\"asked\":1,\"charged\":2,\"fault\":\"OverQuota\",\"ok\":false,\"quota\":2,\"sense\":\"700007000000000a00000000270700000000\",\"status\":\"02\"}",
    ),
    (
        "{\"call\":\"scsi\",\"cdb\":\"2a000000000000000100\",\"data\":[[\"22\",512]],\"endpoint\":1,\"host\":1,\"secondary\":1}",
        "{\"data\":[],\"ok\":true,\"status\":\"00\"}",
    ),
    (
        "{\"call\":\"snapshotVirtualVolume\",\"vvol\":\"#02\"}",
        "{\"asked\":2,\"charged\":2,\"fault\":\"OverQuota\",\"ok\":false,\"quota\":2}",
    ),
];

/// Profiles against what a container offers.
const PROFILES: [(&str, &str); 5] = [
    (
        "{\"call\":\"createStorageContainer\",\"capabilities\":[[\"min-iops\",1000],[\"features\",9223372036854775808]],\"quota\":9}",
        "{\"container\":\"#01\",\"ok\":true}",
    ),
    (
        "{\"call\":\"createVirtualVolume\",\"container\":\"#01\",\"profile\":[[\"min-iops\",500],[\"colour\",1]],\"sizeInMB\":1,\"vvolType\":\"Data\"}",
        "{\"at\":1,\"fault\":\"InvalidProfile\",\"ok\":false,\"why\":\"Unknown\"}",
    ),
    (
        "{\"call\":\"createVirtualVolume\",\"container\":\"#01\",\"profile\":[[\"features\",63]],\"sizeInMB\":1,\"vvolType\":\"Data\"}",
        "{\"ok\":true,\"vvol\":\"#02\"}",
    ),
    (
        "{\"call\":\"createVirtualVolume\",\"container\":\"#01\",\"profile\":[[\"features\",62]],\"sizeInMB\":1,\"vvolType\":\"Data\"}",
        "{\"at\":0,\"fault\":\"InvalidProfile\",\"ok\":false,\"why\":\"TooLittle\"}",
    ),
    (
        "{\"call\":\"createVirtualVolume\",\"container\":\"#01\",\"profile\":[[\"max-latency-us\",5]],\"sizeInMB\":1,\"vvolType\":\"Data\"}",
        "{\"at\":0,\"fault\":\"InvalidProfile\",\"ok\":false,\"why\":\"NotOffered\"}",
    ),
];

/// A volume that grows while it is bound.
const ATTENTIONS: [(&str, &str); 12] = [
    (
        "{\"call\":\"createVirtualVolume\",\"sizeInMB\":4,\"vvolType\":\"Data\"}",
        "{\"ok\":true,\"vvol\":\"#01\"}",
    ),
    (
        "{\"call\":\"bindVirtualVolume\",\"host\":1,\"vvol\":\"#01\"}",
        "{\"endpoint\":1,\"ok\":true,\"secondary\":1}",
    ),
    (
        "{\"call\":\"snapshotVirtualVolume\",\"vvol\":\"#01\"}",
        "{\"ok\":true,\"vvol\":\"#03\"}",
    ),
    (
        "{\"call\":\"resizeVirtualVolume\",\"sizeInMB\":5,\"vvol\":\"#01\"}",
        "{\"ok\":true}",
    ),
    (
        "{\"call\":\"scsi\",\"cdb\":\"28000000000000000100\",\"endpoint\":1,\"host\":1,\"secondary\":1}",
        "{\"ok\":false,\"sense\":\"700006000000000a000000002a0900000000\",\"status\":\"02\"}",
    ),
    (
        "{\"call\":\"scsi\",\"cdb\":\"28000000000000000100\",\"endpoint\":1,\"host\":1,\"secondary\":1}",
        "{\"data\":[],\"ok\":true,\"status\":\"00\"}",
    ),
    (
        "{\"call\":\"scsi\",\"cdb\":\"2a000000200000000100\",\"data\":[[\"44\",512]],\"endpoint\":1,\"host\":1,\"secondary\":1}",
        "{\"data\":[],\"ok\":true,\"status\":\"00\"}",
    ),
    (
        "{\"base\":\"#03\",\"call\":\"unsharedBitmapVirtualVolume\",\"vvol\":\"#01\"}",
        "{\"bits\":\"00001\",\"ok\":true}",
    ),
    (
        "{\"base\":\"#01\",\"call\":\"unsharedBitmapVirtualVolume\",\"vvol\":\"#03\"}",
        "{\"bits\":\"0000\",\"ok\":true}",
    ),
    (
        "{\"call\":\"resizeVirtualVolume\",\"sizeInMB\":4,\"vvol\":\"#01\"}",
        "{\"fault\":\"InvalidArgument\",\"name\":\"sizeInMB\",\"ok\":false}",
    ),
    (
        "{\"call\":\"resizeVirtualVolume\",\"sizeInMB\":5,\"vvol\":\"#01\"}",
        "{\"ok\":true}",
    ),
    (
        "{\"call\":\"scsi\",\"cdb\":\"28000000000000000100\",\"endpoint\":1,\"host\":1,\"secondary\":1}",
        "{\"data\":[],\"ok\":true,\"status\":\"00\"}",
    ),
];

/// A command that waits while its volume is unbound.
const QUEUE: [(&str, &str); 6] = [
    (
        "{\"call\":\"createVirtualVolume\",\"sizeInMB\":4,\"vvolType\":\"Data\"}",
        "{\"ok\":true,\"vvol\":\"#01\"}",
    ),
    (
        "{\"call\":\"bindVirtualVolume\",\"host\":1,\"vvol\":\"#01\"}",
        "{\"endpoint\":1,\"ok\":true,\"secondary\":1}",
    ),
    (
        "{\"call\":\"submit\",\"cdb\":\"2a000000000700000100\",\"data\":[[\"5a\",512]],\"endpoint\":1,\"host\":1,\"secondary\":1}",
        "{\"ok\":true,\"queued\":1}",
    ),
    (
        "{\"call\":\"unbindVirtualVolume\",\"endpoint\":1,\"host\":1,\"secondary\":1}",
        "{\"left\":0,\"ok\":true}",
    ),
    (
        "{\"call\":\"serve\",\"host\":1}",
        "{\"ok\":false,\"sense\":\"700005000000000a00000000250000000000\",\"status\":\"02\"}",
    ),
    (
        "{\"call\":\"serve\",\"host\":1}",
        "{\"ok\":true,\"served\":false}",
    ),
];

/// A volume bound twice, and a host without endpoints.
const HOSTS: [(&str, &str); 8] = [
    (
        "{\"call\":\"createVirtualVolume\",\"sizeInMB\":4,\"vvolType\":\"Data\"}",
        "{\"ok\":true,\"vvol\":\"#01\"}",
    ),
    (
        "{\"call\":\"bindVirtualVolume\",\"host\":1,\"vvol\":\"#01\"}",
        "{\"endpoint\":1,\"ok\":true,\"secondary\":1}",
    ),
    (
        "{\"call\":\"bindVirtualVolume\",\"host\":1,\"vvol\":\"#01\"}",
        "{\"endpoint\":1,\"ok\":true,\"secondary\":1}",
    ),
    (
        "{\"call\":\"unbindVirtualVolume\",\"endpoint\":1,\"host\":1,\"secondary\":1}",
        "{\"left\":1,\"ok\":true}",
    ),
    (
        "{\"call\":\"setPEContext\",\"endpoints\":[],\"host\":1}",
        "{\"fault\":\"ResourceInUse\",\"name\":\"endpoints\",\"ok\":false}",
    ),
    (
        "{\"call\":\"setPEContext\",\"endpoints\":[],\"host\":2}",
        "{\"ok\":true}",
    ),
    (
        "{\"call\":\"bindVirtualVolume\",\"host\":2,\"vvol\":\"#01\"}",
        "{\"fault\":\"NoEndpoint\",\"name\":\"host\",\"ok\":false}",
    ),
    (
        "{\"call\":\"unbindAllVirtualVolumesFromHost\",\"host\":1}",
        "{\"ok\":true,\"removed\":1}",
    ),
];

/// A pool of two chunks that is full.
const POOL: [(&str, &str); 5] = [
    (
        "{\"call\":\"createVirtualVolume\",\"sizeInMB\":2,\"vvolType\":\"Data\"}",
        "{\"ok\":true,\"vvol\":\"#01\"}",
    ),
    (
        "{\"call\":\"bindVirtualVolume\",\"host\":1,\"vvol\":\"#01\"}",
        "{\"endpoint\":1,\"ok\":true,\"secondary\":1}",
    ),
    (
        "{\"call\":\"scsi\",\"cdb\":\"2a000000000000000100\",\"data\":[[\"11\",512]],\"endpoint\":1,\"host\":1,\"secondary\":1}",
        "{\"data\":[],\"ok\":true,\"status\":\"00\"}",
    ),
    (
        "{\"call\":\"scsi\",\"cdb\":\"2a000000080000000100\",\"data\":[[\"11\",512]],\"endpoint\":1,\"host\":1,\"secondary\":1}",
        "{\"data\":[],\"ok\":true,\"status\":\"00\"}",
    ),
    (
        "{\"call\":\"scsi\",\"cdb\":\"2a000000000000000100\",\"data\":[[\"22\",512]],\"endpoint\":1,\"host\":1,\"secondary\":1}",
        "{\"asked\":1,\"fault\":\"PoolFull\",\"free\":0,\"ok\":false,\"sense\":\"700007000000000a00000000270700000000\",\"status\":\"02\"}",
    ),
];

/// A map that is full.
const MAP: [(&str, &str); 2] = [
    (
        "{\"call\":\"createVirtualVolume\",\"sizeInMB\":256,\"vvolType\":\"Data\"}",
        "{\"ok\":true,\"vvol\":\"#01\"}",
    ),
    (
        "{\"call\":\"createVirtualVolume\",\"sizeInMB\":1,\"vvolType\":\"Data\"}",
        "{\"asked\":1,\"entries\":256,\"fault\":\"MapFull\",\"limit\":256,\"ok\":false}",
    ),
];

/// Two fast clones of a volume, with the same chunk unmapped.
const UNMAPS: [(&str, &str); 13] = [
    (
        "{\"call\":\"createVirtualVolume\",\"sizeInMB\":2,\"vvolType\":\"Data\"}",
        "{\"ok\":true,\"vvol\":\"#01\"}",
    ),
    (
        "{\"call\":\"bindVirtualVolume\",\"host\":1,\"vvol\":\"#01\"}",
        "{\"endpoint\":1,\"ok\":true,\"secondary\":1}",
    ),
    (
        "{\"call\":\"scsi\",\"cdb\":\"2a000000000000000100\",\"data\":[[\"11\",512]],\"endpoint\":1,\"host\":1,\"secondary\":1}",
        "{\"data\":[],\"ok\":true,\"status\":\"00\"}",
    ),
    (
        "{\"call\":\"scsi\",\"cdb\":\"2a000000080000000100\",\"data\":[[\"22\",512]],\"endpoint\":1,\"host\":1,\"secondary\":1}",
        "{\"data\":[],\"ok\":true,\"status\":\"00\"}",
    ),
    (
        "{\"call\":\"fastCloneVirtualVolume\",\"vvol\":\"#01\"}",
        "{\"ok\":true,\"vvol\":\"#05\"}",
    ),
    (
        "{\"call\":\"fastCloneVirtualVolume\",\"vvol\":\"#01\"}",
        "{\"ok\":true,\"vvol\":\"#06\"}",
    ),
    (
        "{\"call\":\"bindVirtualVolume\",\"host\":1,\"vvol\":\"#05\"}",
        "{\"endpoint\":1,\"ok\":true,\"secondary\":2}",
    ),
    (
        "{\"call\":\"bindVirtualVolume\",\"host\":1,\"vvol\":\"#06\"}",
        "{\"endpoint\":1,\"ok\":true,\"secondary\":3}",
    ),
    (
        "{\"call\":\"scsi\",\"cdb\":\"42000000000000001800\",\"data\":[[\"001600100000000000000000000000000000080000000000\",1]],\"endpoint\":1,\"host\":1,\"secondary\":2}",
        "{\"data\":[],\"ok\":true,\"status\":\"00\"}",
    ),
    (
        "{\"call\":\"scsi\",\"cdb\":\"42000000000000001800\",\"data\":[[\"001600100000000000000000000000000000080000000000\",1]],\"endpoint\":1,\"host\":1,\"secondary\":3}",
        "{\"data\":[],\"ok\":true,\"status\":\"00\"}",
    ),
    (
        "{\"base\":\"#06\",\"call\":\"unsharedBitmapVirtualVolume\",\"vvol\":\"#05\"}",
        "{\"bits\":\"00\",\"ok\":true}",
    ),
    (
        "{\"base\":\"#01\",\"call\":\"unsharedBitmapVirtualVolume\",\"vvol\":\"#05\"}",
        "{\"bits\":\"10\",\"ok\":true}",
    ),
    (
        "{\"call\":\"queryPool\"}",
        "{\"chunks\":16,\"entries\":6,\"free\":14,\"ok\":true,\"reserved\":0,\"used\":2}",
    ),
];

#[test]
fn scripts_are_answered(rt: HostRuntime) -> Result<(), Fail> {
    for script in [
        &BITS as &[(&str, &str)],
        &COPY,
        &QUOTA,
        &PROFILES,
        &ATTENTIONS,
        &QUEUE,
        &HOSTS,
        &MAP,
        &UNMAPS,
    ] {
        assert_eq!(rt; played(rt.alloc(), usual(), script)?, None);
    }
    Ok(())
}

#[test]
fn a_clone_outlives_its_source(rt: HostRuntime) -> Result<(), Fail> {
    let geometry = Geometry {
        chunk_blocks: 8,
        pool_chunks: 64,
        map_chunks: 1024,
    };
    assert_eq!(rt; played(rt.alloc(), geometry, &CLONE)?, None);
    Ok(())
}

#[test]
fn a_full_pool_is_told(rt: HostRuntime) -> Result<(), Fail> {
    let geometry = Geometry {
        chunk_blocks: 2048,
        pool_chunks: 2,
        map_chunks: 256,
    };
    assert_eq!(rt; played(rt.alloc(), geometry, &POOL)?, None);
    Ok(())
}
