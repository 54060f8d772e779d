//! What a line asks for, and why a line asks for nothing.
ghost use Rattle.std.specs.Prelude.{◌≡◌, IfOk};

use std::alloc::Global;
use vv_units::{
    ByteList, ContainerId, EndpointId, Field, HostId, ItemList, Key, NeedList, NoMemory, Note,
    OfferList, Secondary, TaskId, VolumeId, VvolType,
};

/// The endpoints of a host, in order.
pub type EndpointList = ItemList<EndpointId>;

/// A command for the logical unit at an address.
#[derive(Debug, Drop)]
pub struct ScsiCall {
    pub host: HostId,
    pub endpoint: EndpointId,
    pub secondary: Secondary,
    /// The command descriptor block.
    pub cdb: ByteList,
    /// The bytes that come with the command.
    pub payload: ByteList,
}

impl ScsiCall {
    /// The same command.
    pub fn copy(&self, alloc: Global) -> Result<ScsiCall, NoMemory>
        ensures { IfOk result (λ copy. copy ≡ self.now) }
    {
        Ok(ScsiCall {
            host: self.host,
            endpoint: self.endpoint,
            secondary: self.secondary,
            cdb: copy_of(alloc, &self.cdb)?,
            payload: copy_of(alloc, &self.payload)?,
        })
    }
}

fn copy_of(alloc: Global, bytes: &ByteList) -> Result<ByteList, NoMemory>
    ensures { IfOk result (λ copy. copy ≡ bytes.now) }
{
    let copy = Vec::from_slice(alloc, bytes.items()).map_err(|_| NoMemory)?;
    Ok(ByteList::of(copy))
}

/// A call of a client.
#[derive(Debug, Drop)]
pub enum Call {
    CreateStorageContainer {
        quota: u64,
        capabilities: OfferList,
    },
    CreateVirtualVolume {
        container: Option<ContainerId>,
        vvol_type: VvolType,
        size_in_mb: u64,
        profile: Option<NeedList>,
    },
    DeleteVirtualVolume {
        vvol: VolumeId,
    },
    ResizeVirtualVolume {
        vvol: VolumeId,
        size_in_mb: u64,
    },
    SetMetadata {
        vvol: VolumeId,
        key: Key,
        value: Option<Note>,
    },
    SnapshotVirtualVolume {
        vvol: VolumeId,
    },
    FastCloneVirtualVolume {
        vvol: VolumeId,
    },
    RevertVirtualVolume {
        vvol: VolumeId,
        snapshot: VolumeId,
    },
    CloneVirtualVolume {
        vvol: VolumeId,
    },
    CopyDiffsToVirtualVolume {
        source: VolumeId,
        base: VolumeId,
        target: VolumeId,
    },
    Turn {
        task: TaskId,
    },
    GetTaskUpdate {
        task: TaskId,
    },
    CancelTask {
        task: TaskId,
    },
    SetPEContext {
        host: HostId,
        endpoints: EndpointList,
    },
    BindVirtualVolume {
        host: HostId,
        vvol: VolumeId,
    },
    UnbindVirtualVolume {
        host: HostId,
        endpoint: EndpointId,
        secondary: Secondary,
    },
    UnbindAllVirtualVolumesFromHost {
        host: HostId,
    },
    Scsi(ScsiCall),
    Submit(ScsiCall),
    Serve {
        host: HostId,
    },
    AllocatedBitmapVirtualVolume {
        vvol: VolumeId,
        first: Option<u32>,
        count: Option<u32>,
    },
    UnsharedBitmapVirtualVolume {
        vvol: VolumeId,
        base: VolumeId,
        first: Option<u32>,
        count: Option<u32>,
    },
    UnsharedChunksVirtualVolume {
        vvol: VolumeId,
        base: VolumeId,
    },
    QueryPool,
    QueryStorageContainer {
        container: ContainerId,
    },
    QueryVirtualVolume {
        vvol: VolumeId,
    },
    Restart,
}

/// Why a line is no call.
#[derive(Clone, Copy, Debug, PartialEq, Eq)]
pub enum LineFault {
    /// The line is no JSON text in UTF-8, or one that nests too deep.
    NotJson,
    /// No call has that name.
    UnknownCall,
    /// The line lacks this field.
    MissingField { name: Field },
    /// The field isn't of its form.
    BadField { name: Field },
    /// The line is longer than a line may be.
    LineTooLong,
    /// There was no memory to read the line.
    NoMemory,
}

impl From<NoMemory> for LineFault {
    ghost use Rattle.std.specs.Prelude.{◌≡◌};
    ghost use Rattle.vv_calls.specs.declared.call.LineFault.TheVariants as fault;

    ghost from_gives = { λ _ e. e ≡ fault.NoMemory };

    fn from(_none: NoMemory) -> LineFault {
        LineFault::NoMemory
    }
}
