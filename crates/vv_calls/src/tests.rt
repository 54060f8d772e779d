//! Lines, and what they are read as.
use crate::{Call, LineFault, read_line};
use std::alloc::Global;
use std::process::Abort;
use std::test::Fail;
use vv_units::Field;

/// Calls about volumes and containers.
const VOLUMES: [(&str, &str); 10] = [
    (
        "{\"call\":\"createStorageContainer\",\"capabilities\":[[\"a-1\",5],[\"b\",18446744073709551615]],\"quota\":4294967295}",
        "CreateStorageContainer { quota: 4294967295, capabilities: ItemList { items: [Offer { name: Name { bytes: [97, 45, 49] }, value: 5 }, Offer { name: Name { bytes: [98] }, value: 18446744073709551615 }] } }",
    ),
    (
        "{\"call\":\"createVirtualVolume\",\"container\":\"rfc4122.00000000-0001-8000-8000-000000000001\",\"profile\":[[\"a\",7]],\"sizeInMB\":18446744073709551615,\"vvolType\":\"Config\"}",
        "CreateVirtualVolume { container: Some(ContainerId(1)), vvol_type: Config, size_in_mb: 18446744073709551615, profile: Some(ItemList { items: [Need { name: Name { bytes: [97] }, value: 7 }] }) }",
    ),
    (
        "{\"call\":\"createVirtualVolume\",\"sizeInMB\":0,\"vvolType\":\"Swap\"}",
        "CreateVirtualVolume { container: None, vvol_type: Swap, size_in_mb: 0, profile: None }",
    ),
    (
        "{\"call\":\"createVirtualVolume\",\"container\":null,\"profile\":null,\"sizeInMB\":4,\"vvolType\":\"Memory\"}",
        "CreateVirtualVolume { container: None, vvol_type: Memory, size_in_mb: 4, profile: None }",
    ),
    (
        "{\"call\":\"deleteVirtualVolume\",\"vvol\":\"rfc4122.00000000-0001-8000-8000-00000000000A\"}",
        "DeleteVirtualVolume { vvol: VolumeId(10) }",
    ),
    (
        "{\"call\":\"resizeVirtualVolume\",\"sizeInMB\":5,\"vvol\":\"rfc4122.00000000-0001-8000-8000-000000000001\"}",
        "ResizeVirtualVolume { vvol: VolumeId(1), size_in_mb: 5 }",
    ),
    (
        "{\"call\":\"setMetadata\",\"key\":\"~ \",\"value\":\"v\",\"vvol\":\"rfc4122.00000000-0001-8000-8000-000000000001\"}",
        "SetMetadata { vvol: VolumeId(1), key: Key { bytes: [126, 32] }, value: Some(Note { bytes: [118] }) }",
    ),
    (
        "{\"call\":\"setMetadata\",\"key\":\"k\",\"value\":\"\",\"vvol\":\"rfc4122.00000000-0001-8000-8000-000000000001\"}",
        "SetMetadata { vvol: VolumeId(1), key: Key { bytes: [107] }, value: Some(Note { bytes: [] }) }",
    ),
    (
        "{\"call\":\"setMetadata\",\"key\":\"k\",\"vvol\":\"rfc4122.00000000-0001-8000-8000-000000000001\"}",
        "SetMetadata { vvol: VolumeId(1), key: Key { bytes: [107] }, value: None }",
    ),
    (
        "{\"call\":\"setMetadata\",\"key\":\"k\",\"value\":null,\"vvol\":\"rfc4122.00000000-0001-8000-8000-000000000001\"}",
        "SetMetadata { vvol: VolumeId(1), key: Key { bytes: [107] }, value: None }",
    ),
];

/// Calls about copies and tasks.
const COPIES: [(&str, &str); 8] = [
    (
        "{\"call\":\"snapshotVirtualVolume\",\"vvol\":\"rfc4122.00000000-0001-8000-8000-000000000001\"}",
        "SnapshotVirtualVolume { vvol: VolumeId(1) }",
    ),
    (
        "{\"call\":\"fastCloneVirtualVolume\",\"vvol\":\"rfc4122.00000000-0001-8000-8000-000000000001\"}",
        "FastCloneVirtualVolume { vvol: VolumeId(1) }",
    ),
    (
        "{\"call\":\"revertVirtualVolume\",\"snapshot\":\"rfc4122.00000000-0001-8000-8000-000000000002\",\"vvol\":\"rfc4122.00000000-0001-8000-8000-000000000001\"}",
        "RevertVirtualVolume { vvol: VolumeId(1), snapshot: VolumeId(2) }",
    ),
    (
        "{\"call\":\"cloneVirtualVolume\",\"vvol\":\"rfc4122.00000000-0001-8000-8000-000000000001\"}",
        "CloneVirtualVolume { vvol: VolumeId(1) }",
    ),
    (
        "{\"base\":\"rfc4122.00000000-0001-8000-8000-000000000002\",\"call\":\"copyDiffsToVirtualVolume\",\"source\":\"rfc4122.00000000-0001-8000-8000-000000000001\",\"target\":\"rfc4122.00000000-0001-8000-8000-00000000000A\"}",
        "CopyDiffsToVirtualVolume { source: VolumeId(1), base: VolumeId(2), target: VolumeId(10) }",
    ),
    (
        "{\"call\":\"turn\",\"task\":18446744073709551615}",
        "Turn { task: TaskId(18446744073709551615) }",
    ),
    (
        "{\"call\":\"getTaskUpdate\",\"task\":0}",
        "GetTaskUpdate { task: TaskId(0) }",
    ),
    (
        "{\"call\":\"cancelTask\",\"task\":3}",
        "CancelTask { task: TaskId(3) }",
    ),
];

/// Calls of hosts. Of a repeated key the last counts.
const HOSTS: [(&str, &str); 10] = [
    (
        "{\"call\":\"setPEContext\",\"endpoints\":[3,1,65535],\"host\":64}",
        "SetPEContext { host: HostId(64), endpoints: ItemList { items: [EndpointId(3), EndpointId(1), EndpointId(65535)] } }",
    ),
    (
        "{\"call\":\"setPEContext\",\"endpoints\":[],\"host\":1}",
        "SetPEContext { host: HostId(1), endpoints: ItemList { items: [] } }",
    ),
    (
        "{\"call\":\"bindVirtualVolume\",\"host\":1,\"vvol\":\"rfc4122.00000000-0001-8000-8000-000000000002\"}",
        "BindVirtualVolume { host: HostId(1), vvol: VolumeId(2) }",
    ),
    (
        "{\"call\":\"unbindVirtualVolume\",\"endpoint\":65535,\"host\":2,\"secondary\":0}",
        "UnbindVirtualVolume { host: HostId(2), endpoint: EndpointId(65535), secondary: Secondary(0) }",
    ),
    (
        "{\"call\":\"unbindAllVirtualVolumesFromHost\",\"host\":3}",
        "UnbindAllVirtualVolumesFromHost { host: HostId(3) }",
    ),
    (
        "{\"call\":\"scsi\",\"cdb\":\"aB0c\",\"data\":[[\"5a\",2],[\"Ff00\",1]],\"endpoint\":1,\"host\":1,\"secondary\":65535}",
        "Scsi(ScsiCall { host: HostId(1), endpoint: EndpointId(1), secondary: Secondary(65535), cdb: ItemList { items: [171, 12] }, payload: ItemList { items: [90, 90, 255, 0] } })",
    ),
    (
        "{\"call\":\"submit\",\"cdb\":\"00\",\"data\":null,\"endpoint\":1,\"host\":1,\"secondary\":1}",
        "Submit(ScsiCall { host: HostId(1), endpoint: EndpointId(1), secondary: Secondary(1), cdb: ItemList { items: [0] }, payload: ItemList { items: [] } })",
    ),
    (
        "{\"call\":\"submit\",\"cdb\":\"00\",\"data\":[],\"endpoint\":1,\"host\":1,\"secondary\":1}",
        "Submit(ScsiCall { host: HostId(1), endpoint: EndpointId(1), secondary: Secondary(1), cdb: ItemList { items: [0] }, payload: ItemList { items: [] } })",
    ),
    (
        "{\"call\":\"serve\",\"host\":1}",
        "Serve { host: HostId(1) }",
    ),
    (
        "{\"call\":\"fly\",\"host\":0,\"call\":\"serve\",\"host\":7}",
        "Serve { host: HostId(7) }",
    ),
];

/// Queries, and the restart. A field that the call does not have is ignored.
const QUERIES: [(&str, &str); 9] = [
    (
        "{\"call\":\"allocatedBitmapVirtualVolume\",\"count\":4294967295,\"first\":0,\"vvol\":\"rfc4122.00000000-0001-8000-8000-000000000001\"}",
        "AllocatedBitmapVirtualVolume { vvol: VolumeId(1), first: Some(0), count: Some(4294967295) }",
    ),
    (
        "{\"call\":\"allocatedBitmapVirtualVolume\",\"count\":null,\"vvol\":\"rfc4122.00000000-0001-8000-8000-000000000001\"}",
        "AllocatedBitmapVirtualVolume { vvol: VolumeId(1), first: None, count: None }",
    ),
    (
        "{\"base\":\"rfc4122.00000000-0001-8000-8000-000000000002\",\"call\":\"unsharedBitmapVirtualVolume\",\"count\":2,\"first\":1,\"vvol\":\"rfc4122.00000000-0001-8000-8000-000000000001\"}",
        "UnsharedBitmapVirtualVolume { vvol: VolumeId(1), base: VolumeId(2), first: Some(1), count: Some(2) }",
    ),
    (
        "{\"base\":\"rfc4122.00000000-0001-8000-8000-000000000002\",\"call\":\"unsharedBitmapVirtualVolume\",\"first\":null,\"vvol\":\"rfc4122.00000000-0001-8000-8000-000000000001\"}",
        "UnsharedBitmapVirtualVolume { vvol: VolumeId(1), base: VolumeId(2), first: None, count: None }",
    ),
    (
        "{\"base\":\"rfc4122.00000000-0001-8000-8000-000000000002\",\"call\":\"unsharedChunksVirtualVolume\",\"vvol\":\"rfc4122.00000000-0001-8000-8000-000000000001\"}",
        "UnsharedChunksVirtualVolume { vvol: VolumeId(1), base: VolumeId(2) }",
    ),
    ("{\"call\":\"queryPool\"}", "QueryPool"),
    (
        "{\"call\":\"queryStorageContainer\",\"container\":\"rfc4122.00000000-0001-8000-8000-000000000002\"}",
        "QueryStorageContainer { container: ContainerId(2) }",
    ),
    (
        "{\"call\":\"queryVirtualVolume\",\"vvol\":\"rfc4122.00000000-0001-8000-8000-000000000001\"}",
        "QueryVirtualVolume { vvol: VolumeId(1) }",
    ),
    ("{\"call\":\"restart\",\"vvol\":7}", "Restart"),
];

/// Lines that name no call.
const NO_CALLS: [(&str, LineFault); 10] = [
    ("[]", LineFault::MissingField { name: Field::Call }),
    ("7", LineFault::MissingField { name: Field::Call }),
    ("{}", LineFault::MissingField { name: Field::Call }),
    ("{\"call\":null}", LineFault::BadField { name: Field::Call }),
    ("{\"call\":7}", LineFault::BadField { name: Field::Call }),
    ("{\"call\":\"fly\"}", LineFault::UnknownCall),
    ("{\"call\":\"queryPool \"}", LineFault::UnknownCall),
    ("{\"call\":\"QueryPool\"}", LineFault::UnknownCall),
    ("{\"call\":\"getEvents\"}", LineFault::UnknownCall),
    (
        "{\"call\":\"queryPool\",\"call\":\"fly\"}",
        LineFault::UnknownCall,
    ),
];

/// Calls about volumes and containers whose first faulty field is missing or bad.
const BAD_VOLUMES: [(&str, LineFault); 31] = [
    (
        "{\"call\":\"createStorageContainer\",\"capabilities\":7}",
        LineFault::MissingField { name: Field::Quota },
    ),
    (
        "{\"call\":\"createStorageContainer\",\"quota\":4294967296}",
        LineFault::BadField { name: Field::Quota },
    ),
    (
        "{\"call\":\"createStorageContainer\",\"quota\":1}",
        LineFault::MissingField {
            name: Field::Capabilities,
        },
    ),
    (
        "{\"call\":\"createStorageContainer\",\"capabilities\":null,\"quota\":1}",
        LineFault::BadField {
            name: Field::Capabilities,
        },
    ),
    (
        "{\"call\":\"createStorageContainer\",\"capabilities\":[[\"a\",1],[\"a\",2]],\"quota\":1}",
        LineFault::BadField {
            name: Field::Capabilities,
        },
    ),
    (
        "{\"call\":\"createStorageContainer\",\"capabilities\":[[\"A\",1]],\"quota\":1}",
        LineFault::BadField {
            name: Field::Capabilities,
        },
    ),
    (
        "{\"call\":\"createStorageContainer\",\"capabilities\":[[\"\",1]],\"quota\":1}",
        LineFault::BadField {
            name: Field::Capabilities,
        },
    ),
    (
        "{\"call\":\"createStorageContainer\",\"capabilities\":[[\"abcdefghijklmnopqrstuvwxy\",1]],\"quota\":1}",
        LineFault::BadField {
            name: Field::Capabilities,
        },
    ),
    (
        "{\"call\":\"createStorageContainer\",\"capabilities\":[[\"a\",1,2]],\"quota\":1}",
        LineFault::BadField {
            name: Field::Capabilities,
        },
    ),
    (
        "{\"call\":\"createStorageContainer\",\"capabilities\":[[\"a\",-1]],\"quota\":1}",
        LineFault::BadField {
            name: Field::Capabilities,
        },
    ),
    (
        "{\"call\":\"createStorageContainer\",\"capabilities\":[[\"n0\",0],[\"n1\",0],[\"n2\",0],[\"n3\",0],[\"n4\",0],[\"n5\",0],[\"n6\",0],[\"n7\",0],[\"n8\",0],[\"n9\",0],[\"n10\",0],[\"n11\",0],[\"n12\",0],[\"n13\",0],[\"n14\",0],[\"n15\",0],[\"n16\",0]],\"quota\":1}",
        LineFault::BadField {
            name: Field::Capabilities,
        },
    ),
    (
        "{\"call\":\"createVirtualVolume\"}",
        LineFault::MissingField {
            name: Field::VvolType,
        },
    ),
    (
        "{\"call\":\"createVirtualVolume\",\"container\":7}",
        LineFault::BadField {
            name: Field::Container,
        },
    ),
    (
        "{\"call\":\"createVirtualVolume\",\"container\":\"rfc4122.00000000-0001-4000-8000-000000000001\"}",
        LineFault::BadField {
            name: Field::Container,
        },
    ),
    (
        "{\"call\":\"createVirtualVolume\",\"vvolType\":null}",
        LineFault::BadField {
            name: Field::VvolType,
        },
    ),
    (
        "{\"call\":\"createVirtualVolume\",\"vvolType\":\"data\"}",
        LineFault::BadField {
            name: Field::VvolType,
        },
    ),
    (
        "{\"call\":\"createVirtualVolume\",\"profile\":7,\"vvolType\":\"Data\"}",
        LineFault::MissingField {
            name: Field::SizeInMb,
        },
    ),
    (
        "{\"call\":\"createVirtualVolume\",\"sizeInMB\":4.5,\"vvolType\":\"Data\"}",
        LineFault::BadField {
            name: Field::SizeInMb,
        },
    ),
    (
        "{\"call\":\"createVirtualVolume\",\"sizeInMB\":18446744073709551616,\"vvolType\":\"Data\"}",
        LineFault::BadField {
            name: Field::SizeInMb,
        },
    ),
    (
        "{\"call\":\"createVirtualVolume\",\"sizeInMB\":\"4\",\"vvolType\":\"Data\"}",
        LineFault::BadField {
            name: Field::SizeInMb,
        },
    ),
    (
        "{\"call\":\"createVirtualVolume\",\"profile\":[[\"n0\",0],[\"n1\",0],[\"n2\",0],[\"n3\",0],[\"n4\",0],[\"n5\",0],[\"n6\",0],[\"n7\",0],[\"n8\",0]],\"sizeInMB\":4,\"vvolType\":\"Data\"}",
        LineFault::BadField {
            name: Field::Profile,
        },
    ),
    (
        "{\"call\":\"deleteVirtualVolume\"}",
        LineFault::MissingField { name: Field::Vvol },
    ),
    (
        "{\"call\":\"deleteVirtualVolume\",\"vvol\":1}",
        LineFault::BadField { name: Field::Vvol },
    ),
    (
        "{\"call\":\"resizeVirtualVolume\",\"sizeInMB\":-1}",
        LineFault::MissingField { name: Field::Vvol },
    ),
    (
        "{\"call\":\"resizeVirtualVolume\",\"sizeInMB\":-1,\"vvol\":\"rfc4122.00000000-0001-8000-8000-000000000001\"}",
        LineFault::BadField {
            name: Field::SizeInMb,
        },
    ),
    (
        "{\"call\":\"setMetadata\",\"key\":\"k\"}",
        LineFault::MissingField { name: Field::Vvol },
    ),
    (
        "{\"call\":\"setMetadata\",\"vvol\":\"rfc4122.00000000-0001-8000-8000-000000000001\"}",
        LineFault::MissingField { name: Field::Key },
    ),
    (
        "{\"call\":\"setMetadata\",\"key\":\"\",\"vvol\":\"rfc4122.00000000-0001-8000-8000-000000000001\"}",
        LineFault::BadField { name: Field::Key },
    ),
    (
        "{\"call\":\"setMetadata\",\"key\":\"123456789012345678901234567890123\",\"vvol\":\"rfc4122.00000000-0001-8000-8000-000000000001\"}",
        LineFault::BadField { name: Field::Key },
    ),
    (
        "{\"call\":\"setMetadata\",\"key\":\"\\\\\",\"value\":7,\"vvol\":\"rfc4122.00000000-0001-8000-8000-000000000001\"}",
        LineFault::BadField { name: Field::Key },
    ),
    (
        "{\"call\":\"setMetadata\",\"key\":\"k\",\"value\":\"xxxxxxxxxxxxxxxxxxxxxxxxxxxxxxxxxxxxxxxxxxxxxxxxxxxxxxxxxxxxxxxxxxxxxxxxxxxxxxxxxxxxxxxxxxxxxxxxx\",\"vvol\":\"rfc4122.00000000-0001-8000-8000-000000000001\"}",
        LineFault::BadField { name: Field::Value },
    ),
];

/// Other calls with such a field.
const BAD_CALLS: [(&str, LineFault); 35] = [
    (
        "{\"call\":\"snapshotVirtualVolume\"}",
        LineFault::MissingField { name: Field::Vvol },
    ),
    (
        "{\"call\":\"fastCloneVirtualVolume\",\"vvol\":null}",
        LineFault::BadField { name: Field::Vvol },
    ),
    (
        "{\"call\":\"revertVirtualVolume\",\"snapshot\":7}",
        LineFault::MissingField { name: Field::Vvol },
    ),
    (
        "{\"call\":\"revertVirtualVolume\",\"vvol\":\"rfc4122.00000000-0001-8000-8000-000000000001\"}",
        LineFault::MissingField {
            name: Field::Snapshot,
        },
    ),
    (
        "{\"call\":\"cloneVirtualVolume\",\"vvol\":\"#1\"}",
        LineFault::BadField { name: Field::Vvol },
    ),
    (
        "{\"base\":7,\"call\":\"copyDiffsToVirtualVolume\"}",
        LineFault::MissingField {
            name: Field::Source,
        },
    ),
    (
        "{\"base\":7,\"call\":\"copyDiffsToVirtualVolume\",\"source\":\"rfc4122.00000000-0001-8000-8000-000000000001\"}",
        LineFault::BadField { name: Field::Base },
    ),
    (
        "{\"base\":\"rfc4122.00000000-0001-8000-8000-000000000002\",\"call\":\"copyDiffsToVirtualVolume\",\"source\":\"rfc4122.00000000-0001-8000-8000-000000000001\"}",
        LineFault::MissingField {
            name: Field::Target,
        },
    ),
    (
        "{\"call\":\"turn\"}",
        LineFault::MissingField { name: Field::Task },
    ),
    (
        "{\"call\":\"getTaskUpdate\",\"task\":null}",
        LineFault::BadField { name: Field::Task },
    ),
    (
        "{\"call\":\"cancelTask\",\"task\":0.5}",
        LineFault::BadField { name: Field::Task },
    ),
    (
        "{\"call\":\"setPEContext\",\"endpoints\":[]}",
        LineFault::MissingField { name: Field::Host },
    ),
    (
        "{\"call\":\"setPEContext\",\"endpoints\":[],\"host\":0}",
        LineFault::BadField { name: Field::Host },
    ),
    (
        "{\"call\":\"setPEContext\",\"host\":65}",
        LineFault::BadField { name: Field::Host },
    ),
    (
        "{\"call\":\"setPEContext\",\"host\":1}",
        LineFault::MissingField {
            name: Field::Endpoints,
        },
    ),
    (
        "{\"call\":\"setPEContext\",\"endpoints\":[1,2,3,4,5,6,7,8,9],\"host\":1}",
        LineFault::BadField {
            name: Field::Endpoints,
        },
    ),
    (
        "{\"call\":\"setPEContext\",\"endpoints\":[1,2,1],\"host\":1}",
        LineFault::BadField {
            name: Field::Endpoints,
        },
    ),
    (
        "{\"call\":\"setPEContext\",\"endpoints\":[0],\"host\":1}",
        LineFault::BadField {
            name: Field::Endpoints,
        },
    ),
    (
        "{\"call\":\"bindVirtualVolume\",\"host\":1}",
        LineFault::MissingField { name: Field::Vvol },
    ),
    (
        "{\"call\":\"bindVirtualVolume\",\"host\":-1,\"vvol\":\"rfc4122.00000000-0001-8000-8000-000000000001\"}",
        LineFault::BadField { name: Field::Host },
    ),
    (
        "{\"call\":\"unbindVirtualVolume\",\"host\":1}",
        LineFault::MissingField {
            name: Field::Endpoint,
        },
    ),
    (
        "{\"call\":\"unbindVirtualVolume\",\"endpoint\":0,\"host\":1}",
        LineFault::BadField {
            name: Field::Endpoint,
        },
    ),
    (
        "{\"call\":\"unbindVirtualVolume\",\"endpoint\":65536,\"host\":1}",
        LineFault::BadField {
            name: Field::Endpoint,
        },
    ),
    (
        "{\"call\":\"unbindVirtualVolume\",\"endpoint\":1,\"host\":1}",
        LineFault::MissingField {
            name: Field::Secondary,
        },
    ),
    (
        "{\"call\":\"unbindVirtualVolume\",\"endpoint\":1,\"host\":1,\"secondary\":65536}",
        LineFault::BadField {
            name: Field::Secondary,
        },
    ),
    (
        "{\"call\":\"unbindAllVirtualVolumesFromHost\"}",
        LineFault::MissingField { name: Field::Host },
    ),
    (
        "{\"call\":\"serve\",\"host\":\"1\"}",
        LineFault::BadField { name: Field::Host },
    ),
    (
        "{\"call\":\"allocatedBitmapVirtualVolume\",\"first\":-1}",
        LineFault::MissingField { name: Field::Vvol },
    ),
    (
        "{\"call\":\"allocatedBitmapVirtualVolume\",\"first\":4294967296,\"vvol\":\"rfc4122.00000000-0001-8000-8000-000000000001\"}",
        LineFault::BadField { name: Field::First },
    ),
    (
        "{\"call\":\"allocatedBitmapVirtualVolume\",\"count\":\"1\",\"vvol\":\"rfc4122.00000000-0001-8000-8000-000000000001\"}",
        LineFault::BadField { name: Field::Count },
    ),
    (
        "{\"call\":\"unsharedBitmapVirtualVolume\",\"vvol\":\"rfc4122.00000000-0001-8000-8000-000000000001\"}",
        LineFault::MissingField { name: Field::Base },
    ),
    (
        "{\"call\":\"unsharedChunksVirtualVolume\",\"vvol\":\"rfc4122.00000000-0001-8000-8000-000000000001\"}",
        LineFault::MissingField { name: Field::Base },
    ),
    (
        "{\"call\":\"queryStorageContainer\"}",
        LineFault::MissingField {
            name: Field::Container,
        },
    ),
    (
        "{\"call\":\"queryStorageContainer\",\"container\":null}",
        LineFault::BadField {
            name: Field::Container,
        },
    ),
    (
        "{\"call\":\"queryVirtualVolume\"}",
        LineFault::MissingField { name: Field::Vvol },
    ),
];

/// Commands with such a field.
const BAD_COMMANDS: [(&str, LineFault); 20] = [
    (
        "{\"call\":\"scsi\",\"cdb\":\"00\",\"endpoint\":0,\"secondary\":1}",
        LineFault::MissingField { name: Field::Host },
    ),
    (
        "{\"call\":\"scsi\",\"endpoint\":0,\"host\":1,\"secondary\":1}",
        LineFault::BadField {
            name: Field::Endpoint,
        },
    ),
    (
        "{\"call\":\"scsi\",\"cdb\":\"00\",\"endpoint\":1,\"host\":1}",
        LineFault::MissingField {
            name: Field::Secondary,
        },
    ),
    (
        "{\"call\":\"scsi\",\"endpoint\":1,\"host\":1,\"secondary\":1}",
        LineFault::MissingField { name: Field::Cdb },
    ),
    (
        "{\"call\":\"scsi\",\"cdb\":\"\",\"endpoint\":1,\"host\":1,\"secondary\":1}",
        LineFault::BadField { name: Field::Cdb },
    ),
    (
        "{\"call\":\"scsi\",\"cdb\":\"000\",\"endpoint\":1,\"host\":1,\"secondary\":1}",
        LineFault::BadField { name: Field::Cdb },
    ),
    (
        "{\"call\":\"scsi\",\"cdb\":\"0g\",\"endpoint\":1,\"host\":1,\"secondary\":1}",
        LineFault::BadField { name: Field::Cdb },
    ),
    (
        "{\"call\":\"scsi\",\"cdb\":\"0000000000000000000000000000000000\",\"endpoint\":1,\"host\":1,\"secondary\":1}",
        LineFault::BadField { name: Field::Cdb },
    ),
    (
        "{\"call\":\"scsi\",\"cdb\":null,\"endpoint\":1,\"host\":1,\"secondary\":1}",
        LineFault::BadField { name: Field::Cdb },
    ),
    (
        "{\"call\":\"scsi\",\"cdb\":\"00\",\"endpoint\":1,\"host\":1,\"secondary\":1,\"data\":\"5a\"}",
        LineFault::BadField { name: Field::Data },
    ),
    (
        "{\"call\":\"scsi\",\"cdb\":\"00\",\"endpoint\":1,\"host\":1,\"secondary\":1,\"data\":[\"5a\"]}",
        LineFault::BadField { name: Field::Data },
    ),
    (
        "{\"call\":\"scsi\",\"cdb\":\"00\",\"endpoint\":1,\"host\":1,\"secondary\":1,\"data\":[[\"5a\"]]}",
        LineFault::BadField { name: Field::Data },
    ),
    (
        "{\"call\":\"scsi\",\"cdb\":\"00\",\"endpoint\":1,\"host\":1,\"secondary\":1,\"data\":[[\"5a\",0]]}",
        LineFault::BadField { name: Field::Data },
    ),
    (
        "{\"call\":\"scsi\",\"cdb\":\"00\",\"endpoint\":1,\"host\":1,\"secondary\":1,\"data\":[[\"\",1]]}",
        LineFault::BadField { name: Field::Data },
    ),
    (
        "{\"call\":\"scsi\",\"cdb\":\"00\",\"endpoint\":1,\"host\":1,\"secondary\":1,\"data\":[[\"5\",1]]}",
        LineFault::BadField { name: Field::Data },
    ),
    (
        "{\"call\":\"scsi\",\"cdb\":\"00\",\"endpoint\":1,\"host\":1,\"secondary\":1,\"data\":[[\"5g\",1]]}",
        LineFault::BadField { name: Field::Data },
    ),
    (
        "{\"call\":\"scsi\",\"cdb\":\"00\",\"endpoint\":1,\"host\":1,\"secondary\":1,\"data\":[[\"5a\",1,1]]}",
        LineFault::BadField { name: Field::Data },
    ),
    (
        "{\"call\":\"scsi\",\"cdb\":\"00\",\"endpoint\":1,\"host\":1,\"secondary\":1,\"data\":[[\"5a\",1048577]]}",
        LineFault::BadField { name: Field::Data },
    ),
    (
        "{\"call\":\"scsi\",\"cdb\":\"00\",\"endpoint\":1,\"host\":1,\"secondary\":1,\"data\":[[\"5a\",1048576],[\"5a\",1]]}",
        LineFault::BadField { name: Field::Data },
    ),
    (
        "{\"call\":\"scsi\",\"cdb\":\"00\",\"endpoint\":1,\"host\":1,\"secondary\":1,\"data\":[[\"5a5a\",524289]]}",
        LineFault::BadField { name: Field::Data },
    ),
];

/// Lines that are no JSON: a text that ends too soon, none at all, a number beyond all floats, two values, a comma too
/// many.
const NO_JSON: [&str; 5] = [
    "{\"call\":\"queryPool\"",
    "",
    "1e999",
    "[] []",
    "{\"call\":\"fly\",}",
];

/// Each line is read as the call with this text.
fn reads(rt: &impl Abort, alloc: Global, rows: &[(&str, &str)]) -> Result<(), Fail> {
    for (line, wanted) in rows {
        match read_line(alloc, line.as_bytes()) {
            Ok(call) => assert_eq!(rt; format!(in alloc; "{call:?}")?.as_str(), *wanted, "{line}"),
            Err(fault) => panic!(rt; "{fault:?} for {line}"),
        }
    }
    Ok(())
}

fn refuses(rt: &impl Abort, alloc: Global, rows: &[(&str, LineFault)]) {
    for (line, wanted) in rows {
        assert_eq!(rt;
            read_line(alloc, line.as_bytes()).err(),
            Some(*wanted),
            "{line}"
        );
    }
}

#[test]
fn calls_about_volumes_are_read(rt: HostRuntime) -> Result<(), Fail> {
    reads(&rt, rt.alloc(), &VOLUMES)
}

#[test]
fn calls_about_copies_are_read(rt: HostRuntime) -> Result<(), Fail> {
    reads(&rt, rt.alloc(), &COPIES)
}

#[test]
fn calls_of_hosts_are_read(rt: HostRuntime) -> Result<(), Fail> {
    reads(&rt, rt.alloc(), &HOSTS)
}

#[test]
fn queries_are_read(rt: HostRuntime) -> Result<(), Fail> {
    reads(&rt, rt.alloc(), &QUERIES)
}

#[test]
fn faults_are_answered_in_order(rt: HostRuntime) {
    refuses(&rt, rt.alloc(), &NO_CALLS);
    refuses(&rt, rt.alloc(), &BAD_VOLUMES);
    refuses(&rt, rt.alloc(), &BAD_CALLS);
    refuses(&rt, rt.alloc(), &BAD_COMMANDS);
}

#[test]
fn lines_that_are_no_json_are_refused(rt: HostRuntime) -> Result<(), Fail> {
    let alloc = rt.alloc();
    for line in NO_JSON {
        assert_eq!(rt;
            read_line(alloc, line.as_bytes()).err(),
            Some(LineFault::NotJson),
            "{line}"
        );
    }
    assert_eq!(rt;
        read_line(alloc, b"\"\xff\"").err(),
        Some(LineFault::NotJson)
    );
    let mut nested = Vec::new(alloc);
    nested.resize(128, b'[')?;
    nested.resize(256, b']')?;
    assert_eq!(rt;
        read_line(alloc, nested.as_slice()).err(),
        Some(LineFault::NotJson)
    );
    let missing = LineFault::MissingField { name: Field::Call };
    assert_eq!(rt;
        read_line(alloc, &nested.as_slice()[1..255]).err(),
        Some(missing)
    );
    Ok(())
}

/// The line with so many blanks behind it.
fn padded(alloc: Global, length: usize) -> Result<Option<LineFault>, Fail> {
    let mut line = b"{\"call\":\"queryPool\"}".to_vec(alloc)?;
    line.resize(length, b' ')?;
    Ok(read_line(alloc, line.as_slice()).err())
}

#[test]
fn long_lines_are_refused(rt: HostRuntime) -> Result<(), Fail> {
    assert_eq!(rt; padded(rt.alloc(), 4_194_304)?, None);
    assert_eq!(rt;
        padded(rt.alloc(), 4_194_305)?,
        Some(LineFault::LineTooLong)
    );
    Ok(())
}

/// Lines at the limits: a name of 24 characters, 16 offers, 8 needs, 8 endpoints, a key of 32 characters, a CDB of 16
/// bytes, and 1,048,576 bytes in one run and in two.
const AT_LIMITS: [&str; 8] = [
    "{\"call\":\"createStorageContainer\",\"capabilities\":[[\"abcdefghijklmnopqrstuvwx\",1]],\"quota\":1}",
    "{\"call\":\"createStorageContainer\",\"capabilities\":[[\"n0\",0],[\"n1\",0],[\"n2\",0],[\"n3\",0],[\"n4\",0],[\"n5\",0],[\"n6\",0],[\"n7\",0],[\"n8\",0],[\"n9\",0],[\"n10\",0],[\"n11\",0],[\"n12\",0],[\"n13\",0],[\"n14\",0],[\"n15\",0]],\"quota\":1}",
    "{\"call\":\"createVirtualVolume\",\"profile\":[[\"n0\",0],[\"n1\",0],[\"n2\",0],[\"n3\",0],[\"n4\",0],[\"n5\",0],[\"n6\",0],[\"n7\",0]],\"sizeInMB\":4,\"vvolType\":\"Data\"}",
    "{\"call\":\"setPEContext\",\"endpoints\":[1,2,3,4,5,6,7,8],\"host\":1}",
    "{\"call\":\"setMetadata\",\"key\":\"12345678901234567890123456789012\",\"value\":\"xxxxxxxxxxxxxxxxxxxxxxxxxxxxxxxxxxxxxxxxxxxxxxxxxxxxxxxxxxxxxxxxxxxxxxxxxxxxxxxxxxxxxxxxxxxxxxxx\",\"vvol\":\"rfc4122.00000000-0001-8000-8000-000000000001\"}",
    "{\"call\":\"scsi\",\"cdb\":\"00000000000000000000000000000000\",\"endpoint\":1,\"host\":1,\"secondary\":1}",
    "{\"call\":\"scsi\",\"cdb\":\"00\",\"endpoint\":1,\"host\":1,\"secondary\":1,\"data\":[[\"5a\",1048576]]}",
    "{\"call\":\"scsi\",\"cdb\":\"00\",\"endpoint\":1,\"host\":1,\"secondary\":1,\"data\":[[\"5a5a\",262144],[\"00\",524288]]}",
];

#[test]
fn fields_at_their_limits_are_read(rt: HostRuntime) {
    for line in AT_LIMITS {
        assert!(rt; read_line(rt.alloc(), line.as_bytes()).is_ok(), "{line}");
    }
}

#[test]
fn a_command_is_copied(rt: HostRuntime) -> Result<(), Fail> {
    let alloc = rt.alloc();
    let line =
        "{\"call\":\"scsi\",\"cdb\":\"2a00\",\"endpoint\":1,\"host\":1,\"secondary\":1,\"data\":[[\"5a\",3]]}";
    let Ok(Call::Scsi(command)) = read_line(alloc, line.as_bytes()) else {
        panic!(&rt; "no command");
    };
    let copy = command.copy(alloc)?;
    assert_eq!(rt; copy.cdb.items(), [0x2a, 0].as_slice());
    assert_eq!(rt; copy.payload.items(), [0x5a, 0x5a, 0x5a].as_slice());
    Ok(())
}
