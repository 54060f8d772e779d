//! The line of each reply.
ghost use Rattle.std.specs.Prelude.{◌≤◌, IfOk, vec_len};
ghost use Rattle.vv_reply.specs.Replies.{FitsAnswer, FitsKind};

use crate::{Answer, BitList, Refusal, Reply, ReplyBuffer, ScsiReply};
use std::alloc::Global;
use std::process::Abort;
use std::test::Fail;
use vv_calls::LineFault;
use vv_cdb::Sense;
use vv_units::{
    ByteList, ContainerId, Damage, EndpointId, Field, Key, Name, Need, NeedList, Note, PairList,
    Part, Secondary, TaskId, TaskState, TooMany, VolumeId, VolumeKind, VvolType, Why,
};

/// Answers and their lines.
const ANSWERS: [(Plain, &str); 13] = [
    (Plain::Empty, "{\"ok\":true}\n"),
    (
        Plain::Container,
        "{\"container\":\"rfc4122.00000000-0001-8000-8000-000000000000\",\"ok\":true}\n",
    ),
    (
        Plain::Vvol,
        "{\"ok\":true,\"vvol\":\"rfc4122.00000000-0001-8000-8000-000000000001\"}\n",
    ),
    (
        Plain::CloneStart,
        "{\"ok\":true,\"target\":\"rfc4122.00000000-0001-8000-8000-000000000004\",\"task\":4,\"total\":20}\n",
    ),
    (Plain::CopyStart, "{\"ok\":true,\"task\":8,\"total\":1}\n"),
    (
        Plain::TaskNow,
        "{\"done\":16,\"ok\":true,\"state\":\"Running\",\"task\":4,\"total\":20}\n",
    ),
    (
        Plain::Bound,
        "{\"endpoint\":1,\"ok\":true,\"secondary\":2}\n",
    ),
    (Plain::Left, "{\"left\":0,\"ok\":true}\n"),
    (Plain::Removed, "{\"ok\":true,\"removed\":1}\n"),
    (Plain::Count, "{\"count\":2,\"ok\":true}\n"),
    (
        Plain::Pool,
        "{\"chunks\":16,\"entries\":4,\"free\":15,\"ok\":true,\"reserved\":0,\"used\":1}\n",
    ),
    (Plain::Charge, "{\"charged\":7,\"ok\":true,\"quota\":48}\n"),
    (Plain::Queued, "{\"ok\":true,\"queued\":1}\n"),
];

/// An answer without a list.
#[derive(Clone, Copy)]
enum Plain {
    Empty,
    Container,
    Vvol,
    CloneStart,
    CopyStart,
    TaskNow,
    Bound,
    Left,
    Removed,
    Count,
    Pool,
    Charge,
    Queued,
}

fn answer(plain: Plain) -> Answer
    ensures { FitsAnswer result }
{
    match plain {
        Plain::Empty => Answer::Empty,
        Plain::Container => Answer::Container {
            container: ContainerId(0),
        },
        Plain::Vvol => Answer::Vvol { vvol: VolumeId(1) },
        Plain::CloneStart => Answer::CloneStart {
            target: VolumeId(4),
            task: TaskId(4),
            total: 20,
        },
        Plain::CopyStart => Answer::CopyStart {
            task: TaskId(8),
            total: 1,
        },
        Plain::TaskNow => Answer::TaskNow {
            done: 16,
            state: TaskState::Running,
            task: TaskId(4),
            total: 20,
        },
        Plain::Bound => Answer::Bound {
            endpoint: EndpointId(1),
            secondary: Secondary(2),
        },
        Plain::Left => Answer::Left { left: 0 },
        Plain::Removed => Answer::Removed { removed: 1 },
        Plain::Count => Answer::Count { count: 2 },
        Plain::Pool => Answer::Pool {
            chunks: 16,
            entries: 4,
            free: 15,
            reserved: 0,
            used: 1,
        },
        Plain::Charge => Answer::Charge {
            charged: 7,
            quota: 48,
        },
        Plain::Queued => Answer::Queued { queued: 1 },
    }
}

#[test]
fn answers_have_their_lines(rt: HostRuntime) -> Result<(), Fail> {
    let mut buffer = ReplyBuffer::new(rt.alloc())?;
    for (plain, line) in ANSWERS {
        buffer.fill(&Reply::Done(answer(plain)));
        assert_eq!(rt; buffer.bytes(), line.as_bytes(), "{line}");
    }
    buffer.fill(&Reply::Done(Answer::NothingServed));
    assert_eq!(rt;
        buffer.bytes(),
        b"{\"ok\":true,\"served\":false}\n".as_slice()
    );
    buffer.fill_recovered(18_446_744_073_709_551_615);
    assert_eq!(rt;
        buffer.bytes(),
        b"{\"recovered\":18446744073709551615}\n".as_slice()
    );
    Ok(())
}

#[test]
fn bits_have_their_line(rt: HostRuntime) -> Result<(), Fail> {
    let alloc = rt.alloc();
    let mut buffer = ReplyBuffer::new(alloc)?;
    let bits = BitList::of([false, true, false, false].to_vec(alloc)?);
    buffer.fill(&Reply::Done(Answer::Bits { bits }));
    assert_eq!(rt;
        buffer.bytes(),
        b"{\"bits\":\"0100\",\"ok\":true}\n".as_slice()
    );
    Ok(())
}

#[test]
fn a_volume_has_its_line(rt: HostRuntime) -> Result<(), Fail> {
    let alloc = rt.alloc();
    let mut buffer = ReplyBuffer::new(alloc)?;
    buffer.fill(&Reply::Done(volume(alloc, VolumeKind::Plain)?));
    assert_eq!(rt; buffer.bytes(), PLAIN.as_bytes());
    buffer.fill(&Reply::Done(volume(alloc, VolumeKind::FastCloneOf(VolumeId(1)))?));
    assert_eq!(rt; buffer.bytes(), CLONE.as_bytes());
    Ok(())
}

const PLAIN: &str =
    "{\"allocated\":1,\"chunks\":4,\"container\":\"rfc4122.00000000-0001-8000-8000-000000000000\",\"kind\":\"Plain\",\"metadata\":[[\"a\",\"1\"],[\"b\",\"\"]],\"of\":null,\"ok\":true,\"profile\":[[\"min-iops\",500]],\"reverted\":9,\"type\":\"Data\"}\n";

const CLONE: &str =
    "{\"allocated\":1,\"chunks\":4,\"container\":\"rfc4122.00000000-0001-8000-8000-000000000000\",\"kind\":\"FastClone\",\"metadata\":[[\"a\",\"1\"],[\"b\",\"\"]],\"of\":\"rfc4122.00000000-0001-8000-8000-000000000001\",\"ok\":true,\"profile\":[[\"min-iops\",500]],\"reverted\":9,\"type\":\"Data\"}\n";

fn volume(alloc: Global, kind: VolumeKind) -> Result<Answer, Fail>
    requires { FitsKind kind }
    ensures { IfOk result FitsAnswer }
{
    let mut metadata = PairList::new(alloc);
    for (key, note) in [("a", "1"), ("b", "")] {
        if let Some(key) = Key::read(alloc, key.as_bytes())? {
            metadata.set(key, Note::read(alloc, note.as_bytes())?)?;
        }
    }
    let mut profile = Vec::new(alloc);
    if let Some(name) = Name::read(alloc, b"min-iops")? {
        profile.push(Need { name, value: 500 })?;
    }
    if metadata.len() > 64 || profile.len() > 8 {
        return Ok(Answer::Empty);
    }
    Ok(Answer::Volume {
        allocated: 1,
        chunks: 4,
        container: ContainerId(0),
        kind,
        metadata,
        profile: NeedList::of(profile),
        reverted: 9,
        vtype: VvolType::Data,
    })
}

/// Refusals and their lines, alone.
const REFUSALS: [(Refusal, &str); 16] = [
    (
        Refusal::NotFound { name: Field::Vvol },
        "{\"fault\":\"NotFound\",\"name\":\"vvol\",\"ok\":false}\n",
    ),
    (
        Refusal::InvalidArgument {
            name: Field::SizeInMb,
        },
        "{\"fault\":\"InvalidArgument\",\"name\":\"sizeInMB\",\"ok\":false}\n",
    ),
    (
        Refusal::IncompatibleVolume {
            name: Field::Snapshot,
        },
        "{\"fault\":\"IncompatibleVolume\",\"name\":\"snapshot\",\"ok\":false}\n",
    ),
    (
        Refusal::NoEndpoint { name: Field::Host },
        "{\"fault\":\"NoEndpoint\",\"name\":\"host\",\"ok\":false}\n",
    ),
    (
        Refusal::ResourceInUse {
            name: Field::Endpoints,
        },
        "{\"fault\":\"ResourceInUse\",\"name\":\"endpoints\",\"ok\":false}\n",
    ),
    (
        Refusal::NotCancellable { name: Field::Task },
        "{\"fault\":\"NotCancellable\",\"name\":\"task\",\"ok\":false}\n",
    ),
    (
        Refusal::Exhausted,
        "{\"fault\":\"Exhausted\",\"ok\":false}\n",
    ),
    (
        Refusal::TooMany(TooMany {
            name: Field::Pairs,
            limit: 4352,
        }),
        "{\"fault\":\"TooMany\",\"limit\":4352,\"name\":\"pairs\",\"ok\":false}\n",
    ),
    (
        Refusal::InvalidProfile {
            at: 1,
            why: Why::Unknown,
        },
        "{\"at\":1,\"fault\":\"InvalidProfile\",\"ok\":false,\"why\":\"Unknown\"}\n",
    ),
    (
        Refusal::OverQuota {
            charged: 2,
            asked: 1,
            quota: 3,
        },
        "{\"asked\":1,\"charged\":2,\"fault\":\"OverQuota\",\"ok\":false,\"quota\":3}\n",
    ),
    (
        Refusal::PoolFull { free: 0, asked: 1 },
        "{\"asked\":1,\"fault\":\"PoolFull\",\"free\":0,\"ok\":false}\n",
    ),
    (
        Refusal::MapFull {
            entries: 255,
            asked: 2,
            limit: 256,
        },
        "{\"asked\":2,\"entries\":255,\"fault\":\"MapFull\",\"limit\":256,\"ok\":false}\n",
    ),
    (
        Refusal::ReadFault,
        "{\"fault\":\"ReadFault\",\"ok\":false}\n",
    ),
    (
        Refusal::WriteFault,
        "{\"fault\":\"WriteFault\",\"ok\":false}\n",
    ),
    (
        Refusal::Damaged(Damage {
            part: Part::Rule,
            place: 6,
            found: 3,
        }),
        "{\"fault\":\"Damaged\",\"found\":3,\"ok\":false,\"part\":\"Rule\",\"place\":6}\n",
    ),
    (Refusal::NoMemory, "{\"fault\":\"NoMemory\",\"ok\":false}\n"),
];

#[test]
fn refusals_have_their_lines(rt: HostRuntime) -> Result<(), Fail> {
    let mut buffer = ReplyBuffer::new(rt.alloc())?;
    for (refusal, line) in REFUSALS {
        buffer.fill(&Reply::Refused(refusal));
        assert_eq!(rt; buffer.bytes(), line.as_bytes(), "{line}");
    }
    Ok(())
}

/// Faults of lines.
const FAULTS: [(LineFault, &str); 6] = [
    (LineFault::NotJson, "{\"fault\":\"NotJson\",\"ok\":false}\n"),
    (
        LineFault::UnknownCall,
        "{\"fault\":\"UnknownCall\",\"ok\":false}\n",
    ),
    (
        LineFault::MissingField {
            name: Field::SizeInMb,
        },
        "{\"fault\":\"MissingField\",\"name\":\"sizeInMB\",\"ok\":false}\n",
    ),
    (
        LineFault::BadField {
            name: Field::VvolType,
        },
        "{\"fault\":\"BadField\",\"name\":\"vvolType\",\"ok\":false}\n",
    ),
    (
        LineFault::LineTooLong,
        "{\"fault\":\"LineTooLong\",\"ok\":false}\n",
    ),
    (
        LineFault::NoMemory,
        "{\"fault\":\"NoMemory\",\"ok\":false}\n",
    ),
];

#[test]
fn faults_of_lines_have_their_lines(rt: HostRuntime) -> Result<(), Fail> {
    let mut buffer = ReplyBuffer::new(rt.alloc())?;
    for (fault, line) in FAULTS {
        buffer.fill(&Reply::Line(fault));
        assert_eq!(rt; buffer.bytes(), line.as_bytes(), "{line}");
    }
    Ok(())
}

/// A sense of SPC-5: logical unit not supported.
const UNSUPPORTED: Sense = Sense {
    key: 5,
    asc: 0x25,
    ascq: 0,
};

/// Space allocation failed write protect.
const NO_SPACE: Sense = Sense {
    key: 7,
    asc: 0x27,
    ascq: 7,
};

/// Commands that ended badly: their status, sense and cause, and the line.
const ENDS: [(u8, Option<Sense>, Option<Refusal>, &str); 6] = [
    (
        2,
        Some(UNSUPPORTED),
        None,
        "{\"ok\":false,\"sense\":\"700005000000000a00000000250000000000\",\"status\":\"02\"}\n",
    ),
    (
        2,
        Some(NO_SPACE),
        Some(Refusal::PoolFull { free: 0, asked: 1 }),
        "{\"asked\":1,\"fault\":\"PoolFull\",\"free\":0,\"ok\":false,\"sense\":\"700007000000000a00000000270700000000\",\"status\":\"02\"}\n",
    ),
    (
        2,
        Some(NO_SPACE),
        Some(Refusal::OverQuota {
            charged: 2,
            asked: 1,
            quota: 2,
        }),
        "{\"asked\":1,\"charged\":2,\"fault\":\"OverQuota\",\"ok\":false,\"quota\":2,\"sense\":\"700007000000000a00000000270700000000\",\"status\":\"02\"}\n",
    ),
    (
        2,
        Some(NO_SPACE),
        Some(Refusal::InvalidProfile {
            at: 0,
            why: Why::TooLittle,
        }),
        "{\"at\":0,\"fault\":\"InvalidProfile\",\"ok\":false,\"sense\":\"700007000000000a00000000270700000000\",\"status\":\"02\",\"why\":\"TooLittle\"}\n",
    ),
    (0x28, None, None, "{\"ok\":false,\"status\":\"28\"}\n"),
    (0x18, None, None, "{\"ok\":false,\"status\":\"18\"}\n"),
];

#[test]
fn ends_of_commands_have_their_lines(rt: HostRuntime) -> Result<(), Fail> {
    let alloc = rt.alloc();
    let mut buffer = ReplyBuffer::new(alloc)?;
    for (status, sense, cause, line) in ENDS {
        let payload = ByteList::of(Vec::new(alloc));
        buffer.fill(&Reply::Scsi(ScsiReply {
            status,
            sense,
            cause,
            payload,
        }));
        assert_eq!(rt; buffer.bytes(), line.as_bytes(), "{line}");
    }
    Ok(())
}

// Whether GOOD with these bytes has this line.
fn gives(rt: &impl Abort, alloc: Global, bytes: Vec<u8>, line: &str) -> Result<(), Fail>
    requires { vec_len bytes ≤ 1048576 }
{
    let mut buffer = ReplyBuffer::new(alloc)?;
    buffer.fill(&Reply::Scsi(ScsiReply {
        status: 0,
        sense: None,
        cause: None,
        payload: ByteList::of(bytes),
    }));
    assert_eq!(rt; buffer.bytes(), line.as_bytes(), "{line}");
    Ok(())
}

#[test]
fn data_are_runs_of_equal_bytes(rt: HostRuntime) -> Result<(), Fail> {
    let alloc = rt.alloc();
    let none = Vec::new(alloc);
    gives(
        &rt,
        alloc,
        none,
        "{\"data\":[],\"ok\":true,\"status\":\"00\"}\n",
    )?;
    let bytes = [0, 0, 0xff, 0x5a, 0x5a, 0x5a, 0].to_vec(alloc)?;
    let line =
        "{\"data\":[[\"00\",2],[\"ff\",1],[\"5a\",3],[\"00\",1]],\"ok\":true,\"status\":\"00\"}\n";
    gives(&rt, alloc, bytes, line)?;
    let mut long = Vec::new(alloc);
    long.resize(1_048_576, 0xab)?;
    let line = "{\"data\":[[\"ab\",1048576]],\"ok\":true,\"status\":\"00\"}\n";
    gives(&rt, alloc, long, line)
}

#[test]
fn the_longest_line_fits(rt: HostRuntime) -> Result<(), Fail> {
    let alloc = rt.alloc();
    let mut bytes = Vec::new(alloc);
    for _pair in 0..524_288u32 {
        bytes.extend_from_slice(&[1, 2])?;
    }
    let mut buffer = ReplyBuffer::new(alloc)?;
    buffer.fill(&Reply::Scsi(ScsiReply {
        status: 0,
        sense: None,
        cause: None,
        payload: ByteList::of(bytes),
    }));
    assert_eq!(rt; buffer.bytes().len(), 9_437_219);
    Ok(())
}
