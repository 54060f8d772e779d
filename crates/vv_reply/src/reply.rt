//! What a call is answered.
use vv_calls::LineFault;
use vv_cdb::Sense;
use vv_units::{
    ByteList, ContainerId, Damage, EndpointId, Field, ItemList, NeedList, PairList, Secondary,
    TaskId, TaskState, TooMany, VolumeId, VolumeKind, VvolType, Why,
};

/// A list of bits.
pub type BitList = ItemList<bool>;

/// The reply to a line.
#[derive(Drop)]
pub enum Reply {
    Done(Answer),
    Refused(Refusal),
    Scsi(ScsiReply),
    Line(LineFault),
}

/// How a command ended.
#[derive(Drop)]
pub struct ScsiReply {
    /// The status of SAM-5.
    pub status: u8,
    pub sense: Option<Sense>,
    /// What the sense stands for, where a rule of the array refused the command or its disk failed.
    pub cause: Option<Refusal>,
    /// The bytes that the command gives.
    pub payload: ByteList,
}

/// What a call gives.
#[derive(Drop)]
pub enum Answer {
    Empty,
    Container {
        container: ContainerId,
    },
    Vvol {
        vvol: VolumeId,
    },
    CloneStart {
        target: VolumeId,
        task: TaskId,
        total: u32,
    },
    CopyStart {
        task: TaskId,
        total: u32,
    },
    TaskNow {
        done: u32,
        state: TaskState,
        task: TaskId,
        total: u32,
    },
    Bound {
        endpoint: EndpointId,
        secondary: Secondary,
    },
    Left {
        left: u16,
    },
    Removed {
        removed: u32,
    },
    Bits {
        bits: BitList,
    },
    Count {
        count: u32,
    },
    Pool {
        chunks: u32,
        entries: u32,
        free: u32,
        reserved: u32,
        used: u32,
    },
    Charge {
        charged: u64,
        quota: u64,
    },
    Volume {
        allocated: u32,
        chunks: u32,
        container: ContainerId,
        kind: VolumeKind,
        metadata: PairList,
        profile: NeedList,
        reverted: u64,
        vtype: VvolType,
    },
    Queued {
        queued: u32,
    },
    NothingServed,
}

/// Why a call is refused, or what failed.
#[derive(Clone, Copy, Debug, PartialEq, Eq)]
pub enum Refusal {
    NotFound {
        name: Field,
    },
    InvalidArgument {
        name: Field,
    },
    IncompatibleVolume {
        name: Field,
    },
    NoEndpoint {
        name: Field,
    },
    ResourceInUse {
        name: Field,
    },
    NotCancellable {
        name: Field,
    },
    /// There is no log number left.
    Exhausted,
    TooMany(TooMany),
    /// The need at this place of the profile is not met.
    InvalidProfile {
        at: u32,
        why: Why,
    },
    OverQuota {
        charged: u64,
        asked: u64,
        quota: u64,
    },
    PoolFull {
        free: u32,
        asked: u32,
    },
    MapFull {
        entries: u32,
        asked: u32,
        limit: u32,
    },
    ReadFault,
    WriteFault,
    Damaged(Damage),
    NoMemory,
}
