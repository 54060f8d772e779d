//! Every field of every call: left out, wrong, and, where it may be, absent and null.
use crate::{LineFault, read_line};
use vv_units::Field;

/// Each field of each call left out, where it may not be; the others are right.
const MISSING: [(&str, Field); 44] = [
    (
        "{\"call\":\"createStorageContainer\",\"capabilities\":[]}",
        Field::Quota,
    ),
    (
        "{\"call\":\"createStorageContainer\",\"quota\":1}",
        Field::Capabilities,
    ),
    (
        "{\"call\":\"createVirtualVolume\",\"container\":\"rfc4122.00000000-0001-8000-8000-000000000001\",\"sizeInMB\":4,\"profile\":[]}",
        Field::VvolType,
    ),
    (
        "{\"call\":\"createVirtualVolume\",\"container\":\"rfc4122.00000000-0001-8000-8000-000000000001\",\"vvolType\":\"Data\",\"profile\":[]}",
        Field::SizeInMb,
    ),
    ("{\"call\":\"deleteVirtualVolume\"}", Field::Vvol),
    (
        "{\"call\":\"resizeVirtualVolume\",\"sizeInMB\":4}",
        Field::Vvol,
    ),
    (
        "{\"call\":\"resizeVirtualVolume\",\"vvol\":\"rfc4122.00000000-0001-8000-8000-000000000001\"}",
        Field::SizeInMb,
    ),
    (
        "{\"call\":\"setMetadata\",\"key\":\"k\",\"value\":\"v\"}",
        Field::Vvol,
    ),
    (
        "{\"call\":\"setMetadata\",\"vvol\":\"rfc4122.00000000-0001-8000-8000-000000000001\",\"value\":\"v\"}",
        Field::Key,
    ),
    ("{\"call\":\"snapshotVirtualVolume\"}", Field::Vvol),
    ("{\"call\":\"fastCloneVirtualVolume\"}", Field::Vvol),
    (
        "{\"call\":\"revertVirtualVolume\",\"snapshot\":\"rfc4122.00000000-0001-8000-8000-000000000002\"}",
        Field::Vvol,
    ),
    (
        "{\"call\":\"revertVirtualVolume\",\"vvol\":\"rfc4122.00000000-0001-8000-8000-000000000001\"}",
        Field::Snapshot,
    ),
    ("{\"call\":\"cloneVirtualVolume\"}", Field::Vvol),
    (
        "{\"call\":\"copyDiffsToVirtualVolume\",\"base\":\"rfc4122.00000000-0001-8000-8000-000000000002\",\"target\":\"rfc4122.00000000-0001-8000-8000-000000000003\"}",
        Field::Source,
    ),
    (
        "{\"call\":\"copyDiffsToVirtualVolume\",\"source\":\"rfc4122.00000000-0001-8000-8000-000000000001\",\"target\":\"rfc4122.00000000-0001-8000-8000-000000000003\"}",
        Field::Base,
    ),
    (
        "{\"call\":\"copyDiffsToVirtualVolume\",\"source\":\"rfc4122.00000000-0001-8000-8000-000000000001\",\"base\":\"rfc4122.00000000-0001-8000-8000-000000000002\"}",
        Field::Target,
    ),
    ("{\"call\":\"turn\"}", Field::Task),
    ("{\"call\":\"getTaskUpdate\"}", Field::Task),
    ("{\"call\":\"cancelTask\"}", Field::Task),
    ("{\"call\":\"setPEContext\",\"endpoints\":[1]}", Field::Host),
    ("{\"call\":\"setPEContext\",\"host\":1}", Field::Endpoints),
    (
        "{\"call\":\"bindVirtualVolume\",\"vvol\":\"rfc4122.00000000-0001-8000-8000-000000000001\"}",
        Field::Host,
    ),
    ("{\"call\":\"bindVirtualVolume\",\"host\":1}", Field::Vvol),
    (
        "{\"call\":\"unbindVirtualVolume\",\"endpoint\":1,\"secondary\":1}",
        Field::Host,
    ),
    (
        "{\"call\":\"unbindVirtualVolume\",\"host\":1,\"secondary\":1}",
        Field::Endpoint,
    ),
    (
        "{\"call\":\"unbindVirtualVolume\",\"host\":1,\"endpoint\":1}",
        Field::Secondary,
    ),
    (
        "{\"call\":\"unbindAllVirtualVolumesFromHost\"}",
        Field::Host,
    ),
    (
        "{\"call\":\"scsi\",\"endpoint\":1,\"secondary\":1,\"cdb\":\"00\",\"data\":[]}",
        Field::Host,
    ),
    (
        "{\"call\":\"scsi\",\"host\":1,\"secondary\":1,\"cdb\":\"00\",\"data\":[]}",
        Field::Endpoint,
    ),
    (
        "{\"call\":\"scsi\",\"host\":1,\"endpoint\":1,\"cdb\":\"00\",\"data\":[]}",
        Field::Secondary,
    ),
    (
        "{\"call\":\"scsi\",\"host\":1,\"endpoint\":1,\"secondary\":1,\"data\":[]}",
        Field::Cdb,
    ),
    (
        "{\"call\":\"submit\",\"endpoint\":1,\"secondary\":1,\"cdb\":\"00\",\"data\":[]}",
        Field::Host,
    ),
    (
        "{\"call\":\"submit\",\"host\":1,\"secondary\":1,\"cdb\":\"00\",\"data\":[]}",
        Field::Endpoint,
    ),
    (
        "{\"call\":\"submit\",\"host\":1,\"endpoint\":1,\"cdb\":\"00\",\"data\":[]}",
        Field::Secondary,
    ),
    (
        "{\"call\":\"submit\",\"host\":1,\"endpoint\":1,\"secondary\":1,\"data\":[]}",
        Field::Cdb,
    ),
    ("{\"call\":\"serve\"}", Field::Host),
    (
        "{\"call\":\"allocatedBitmapVirtualVolume\",\"first\":0,\"count\":0}",
        Field::Vvol,
    ),
    (
        "{\"call\":\"unsharedBitmapVirtualVolume\",\"base\":\"rfc4122.00000000-0001-8000-8000-000000000002\",\"first\":0,\"count\":0}",
        Field::Vvol,
    ),
    (
        "{\"call\":\"unsharedBitmapVirtualVolume\",\"vvol\":\"rfc4122.00000000-0001-8000-8000-000000000001\",\"first\":0,\"count\":0}",
        Field::Base,
    ),
    (
        "{\"call\":\"unsharedChunksVirtualVolume\",\"base\":\"rfc4122.00000000-0001-8000-8000-000000000002\"}",
        Field::Vvol,
    ),
    (
        "{\"call\":\"unsharedChunksVirtualVolume\",\"vvol\":\"rfc4122.00000000-0001-8000-8000-000000000001\"}",
        Field::Base,
    ),
    ("{\"call\":\"queryStorageContainer\"}", Field::Container),
    ("{\"call\":\"queryVirtualVolume\"}", Field::Vvol),
];

/// Each field of each call with a value that is wrong for it; the others are right.
const BAD: [(&str, Field); 53] = [
    (
        "{\"call\":\"createStorageContainer\",\"quota\":4294967296,\"capabilities\":[]}",
        Field::Quota,
    ),
    (
        "{\"call\":\"createStorageContainer\",\"quota\":1,\"capabilities\":[[\"a\"]]}",
        Field::Capabilities,
    ),
    (
        "{\"call\":\"createVirtualVolume\",\"container\":7,\"vvolType\":\"Data\",\"sizeInMB\":4,\"profile\":[]}",
        Field::Container,
    ),
    (
        "{\"call\":\"createVirtualVolume\",\"container\":\"rfc4122.00000000-0001-8000-8000-000000000001\",\"vvolType\":\"Disk\",\"sizeInMB\":4,\"profile\":[]}",
        Field::VvolType,
    ),
    (
        "{\"call\":\"createVirtualVolume\",\"container\":\"rfc4122.00000000-0001-8000-8000-000000000001\",\"vvolType\":\"Data\",\"sizeInMB\":-1,\"profile\":[]}",
        Field::SizeInMb,
    ),
    (
        "{\"call\":\"createVirtualVolume\",\"container\":\"rfc4122.00000000-0001-8000-8000-000000000001\",\"vvolType\":\"Data\",\"sizeInMB\":4,\"profile\":{}}",
        Field::Profile,
    ),
    (
        "{\"call\":\"deleteVirtualVolume\",\"vvol\":\"rfc4122.00000000-0001-8000-8000-00000000000\"}",
        Field::Vvol,
    ),
    (
        "{\"call\":\"resizeVirtualVolume\",\"vvol\":\"rfc4122.00000000-0001-8000-8000-00000000000\",\"sizeInMB\":4}",
        Field::Vvol,
    ),
    (
        "{\"call\":\"resizeVirtualVolume\",\"vvol\":\"rfc4122.00000000-0001-8000-8000-000000000001\",\"sizeInMB\":-1}",
        Field::SizeInMb,
    ),
    (
        "{\"call\":\"setMetadata\",\"vvol\":\"rfc4122.00000000-0001-8000-8000-00000000000\",\"key\":\"k\",\"value\":\"v\"}",
        Field::Vvol,
    ),
    (
        "{\"call\":\"setMetadata\",\"vvol\":\"rfc4122.00000000-0001-8000-8000-000000000001\",\"key\":7,\"value\":\"v\"}",
        Field::Key,
    ),
    (
        "{\"call\":\"setMetadata\",\"vvol\":\"rfc4122.00000000-0001-8000-8000-000000000001\",\"key\":\"k\",\"value\":\"\\u0001\"}",
        Field::Value,
    ),
    (
        "{\"call\":\"snapshotVirtualVolume\",\"vvol\":\"rfc4122.00000000-0001-8000-8000-00000000000\"}",
        Field::Vvol,
    ),
    (
        "{\"call\":\"fastCloneVirtualVolume\",\"vvol\":\"rfc4122.00000000-0001-8000-8000-00000000000\"}",
        Field::Vvol,
    ),
    (
        "{\"call\":\"revertVirtualVolume\",\"vvol\":\"rfc4122.00000000-0001-8000-8000-00000000000\",\"snapshot\":\"rfc4122.00000000-0001-8000-8000-000000000002\"}",
        Field::Vvol,
    ),
    (
        "{\"call\":\"revertVirtualVolume\",\"vvol\":\"rfc4122.00000000-0001-8000-8000-000000000001\",\"snapshot\":\"rfc4122.00000000-0001-8000-8000-00000000000\"}",
        Field::Snapshot,
    ),
    (
        "{\"call\":\"cloneVirtualVolume\",\"vvol\":\"rfc4122.00000000-0001-8000-8000-00000000000\"}",
        Field::Vvol,
    ),
    (
        "{\"call\":\"copyDiffsToVirtualVolume\",\"source\":\"rfc4122.00000000-0001-8000-8000-00000000000\",\"base\":\"rfc4122.00000000-0001-8000-8000-000000000002\",\"target\":\"rfc4122.00000000-0001-8000-8000-000000000003\"}",
        Field::Source,
    ),
    (
        "{\"call\":\"copyDiffsToVirtualVolume\",\"source\":\"rfc4122.00000000-0001-8000-8000-000000000001\",\"base\":\"rfc4122.00000000-0001-8000-8000-00000000000\",\"target\":\"rfc4122.00000000-0001-8000-8000-000000000003\"}",
        Field::Base,
    ),
    (
        "{\"call\":\"copyDiffsToVirtualVolume\",\"source\":\"rfc4122.00000000-0001-8000-8000-000000000001\",\"base\":\"rfc4122.00000000-0001-8000-8000-000000000002\",\"target\":\"rfc4122.00000000-0001-8000-8000-00000000000\"}",
        Field::Target,
    ),
    ("{\"call\":\"turn\",\"task\":\"1\"}", Field::Task),
    ("{\"call\":\"getTaskUpdate\",\"task\":\"1\"}", Field::Task),
    ("{\"call\":\"cancelTask\",\"task\":\"1\"}", Field::Task),
    (
        "{\"call\":\"setPEContext\",\"host\":65,\"endpoints\":[1]}",
        Field::Host,
    ),
    (
        "{\"call\":\"setPEContext\",\"host\":1,\"endpoints\":1}",
        Field::Endpoints,
    ),
    (
        "{\"call\":\"bindVirtualVolume\",\"host\":65,\"vvol\":\"rfc4122.00000000-0001-8000-8000-000000000001\"}",
        Field::Host,
    ),
    (
        "{\"call\":\"bindVirtualVolume\",\"host\":1,\"vvol\":\"rfc4122.00000000-0001-8000-8000-00000000000\"}",
        Field::Vvol,
    ),
    (
        "{\"call\":\"unbindVirtualVolume\",\"host\":65,\"endpoint\":1,\"secondary\":1}",
        Field::Host,
    ),
    (
        "{\"call\":\"unbindVirtualVolume\",\"host\":1,\"endpoint\":65536,\"secondary\":1}",
        Field::Endpoint,
    ),
    (
        "{\"call\":\"unbindVirtualVolume\",\"host\":1,\"endpoint\":1,\"secondary\":-1}",
        Field::Secondary,
    ),
    (
        "{\"call\":\"unbindAllVirtualVolumesFromHost\",\"host\":65}",
        Field::Host,
    ),
    (
        "{\"call\":\"scsi\",\"host\":65,\"endpoint\":1,\"secondary\":1,\"cdb\":\"00\",\"data\":[]}",
        Field::Host,
    ),
    (
        "{\"call\":\"scsi\",\"host\":1,\"endpoint\":65536,\"secondary\":1,\"cdb\":\"00\",\"data\":[]}",
        Field::Endpoint,
    ),
    (
        "{\"call\":\"scsi\",\"host\":1,\"endpoint\":1,\"secondary\":-1,\"cdb\":\"00\",\"data\":[]}",
        Field::Secondary,
    ),
    (
        "{\"call\":\"scsi\",\"host\":1,\"endpoint\":1,\"secondary\":1,\"cdb\":\"0\",\"data\":[]}",
        Field::Cdb,
    ),
    (
        "{\"call\":\"scsi\",\"host\":1,\"endpoint\":1,\"secondary\":1,\"cdb\":\"00\",\"data\":[[]]}",
        Field::Data,
    ),
    (
        "{\"call\":\"submit\",\"host\":65,\"endpoint\":1,\"secondary\":1,\"cdb\":\"00\",\"data\":[]}",
        Field::Host,
    ),
    (
        "{\"call\":\"submit\",\"host\":1,\"endpoint\":65536,\"secondary\":1,\"cdb\":\"00\",\"data\":[]}",
        Field::Endpoint,
    ),
    (
        "{\"call\":\"submit\",\"host\":1,\"endpoint\":1,\"secondary\":-1,\"cdb\":\"00\",\"data\":[]}",
        Field::Secondary,
    ),
    (
        "{\"call\":\"submit\",\"host\":1,\"endpoint\":1,\"secondary\":1,\"cdb\":\"0\",\"data\":[]}",
        Field::Cdb,
    ),
    (
        "{\"call\":\"submit\",\"host\":1,\"endpoint\":1,\"secondary\":1,\"cdb\":\"00\",\"data\":[[]]}",
        Field::Data,
    ),
    ("{\"call\":\"serve\",\"host\":65}", Field::Host),
    (
        "{\"call\":\"allocatedBitmapVirtualVolume\",\"vvol\":\"rfc4122.00000000-0001-8000-8000-00000000000\",\"first\":0,\"count\":0}",
        Field::Vvol,
    ),
    (
        "{\"call\":\"allocatedBitmapVirtualVolume\",\"vvol\":\"rfc4122.00000000-0001-8000-8000-000000000001\",\"first\":4294967296,\"count\":0}",
        Field::First,
    ),
    (
        "{\"call\":\"allocatedBitmapVirtualVolume\",\"vvol\":\"rfc4122.00000000-0001-8000-8000-000000000001\",\"first\":0,\"count\":0.5}",
        Field::Count,
    ),
    (
        "{\"call\":\"unsharedBitmapVirtualVolume\",\"vvol\":\"rfc4122.00000000-0001-8000-8000-00000000000\",\"base\":\"rfc4122.00000000-0001-8000-8000-000000000002\",\"first\":0,\"count\":0}",
        Field::Vvol,
    ),
    (
        "{\"call\":\"unsharedBitmapVirtualVolume\",\"vvol\":\"rfc4122.00000000-0001-8000-8000-000000000001\",\"base\":\"rfc4122.00000000-0001-8000-8000-00000000000\",\"first\":0,\"count\":0}",
        Field::Base,
    ),
    (
        "{\"call\":\"unsharedBitmapVirtualVolume\",\"vvol\":\"rfc4122.00000000-0001-8000-8000-000000000001\",\"base\":\"rfc4122.00000000-0001-8000-8000-000000000002\",\"first\":4294967296,\"count\":0}",
        Field::First,
    ),
    (
        "{\"call\":\"unsharedBitmapVirtualVolume\",\"vvol\":\"rfc4122.00000000-0001-8000-8000-000000000001\",\"base\":\"rfc4122.00000000-0001-8000-8000-000000000002\",\"first\":0,\"count\":0.5}",
        Field::Count,
    ),
    (
        "{\"call\":\"unsharedChunksVirtualVolume\",\"vvol\":\"rfc4122.00000000-0001-8000-8000-00000000000\",\"base\":\"rfc4122.00000000-0001-8000-8000-000000000002\"}",
        Field::Vvol,
    ),
    (
        "{\"call\":\"unsharedChunksVirtualVolume\",\"vvol\":\"rfc4122.00000000-0001-8000-8000-000000000001\",\"base\":\"rfc4122.00000000-0001-8000-8000-00000000000\"}",
        Field::Base,
    ),
    (
        "{\"call\":\"queryStorageContainer\",\"container\":7}",
        Field::Container,
    ),
    (
        "{\"call\":\"queryVirtualVolume\",\"vvol\":\"rfc4122.00000000-0001-8000-8000-00000000000\"}",
        Field::Vvol,
    ),
];

/// Each field that may be absent, once absent and once null; the others are right.
const OPTIONAL: [&str; 18] = [
    "{\"call\":\"createVirtualVolume\",\"vvolType\":\"Data\",\"sizeInMB\":4,\"profile\":[]}",
    "{\"call\":\"createVirtualVolume\",\"container\":null,\"vvolType\":\"Data\",\"sizeInMB\":4,\"profile\":[]}",
    "{\"call\":\"createVirtualVolume\",\"container\":\"rfc4122.00000000-0001-8000-8000-000000000001\",\"vvolType\":\"Data\",\"sizeInMB\":4}",
    "{\"call\":\"createVirtualVolume\",\"container\":\"rfc4122.00000000-0001-8000-8000-000000000001\",\"vvolType\":\"Data\",\"sizeInMB\":4,\"profile\":null}",
    "{\"call\":\"setMetadata\",\"vvol\":\"rfc4122.00000000-0001-8000-8000-000000000001\",\"key\":\"k\"}",
    "{\"call\":\"setMetadata\",\"vvol\":\"rfc4122.00000000-0001-8000-8000-000000000001\",\"key\":\"k\",\"value\":null}",
    "{\"call\":\"scsi\",\"host\":1,\"endpoint\":1,\"secondary\":1,\"cdb\":\"00\"}",
    "{\"call\":\"scsi\",\"host\":1,\"endpoint\":1,\"secondary\":1,\"cdb\":\"00\",\"data\":null}",
    "{\"call\":\"submit\",\"host\":1,\"endpoint\":1,\"secondary\":1,\"cdb\":\"00\"}",
    "{\"call\":\"submit\",\"host\":1,\"endpoint\":1,\"secondary\":1,\"cdb\":\"00\",\"data\":null}",
    "{\"call\":\"allocatedBitmapVirtualVolume\",\"vvol\":\"rfc4122.00000000-0001-8000-8000-000000000001\",\"count\":0}",
    "{\"call\":\"allocatedBitmapVirtualVolume\",\"vvol\":\"rfc4122.00000000-0001-8000-8000-000000000001\",\"first\":null,\"count\":0}",
    "{\"call\":\"allocatedBitmapVirtualVolume\",\"vvol\":\"rfc4122.00000000-0001-8000-8000-000000000001\",\"first\":0}",
    "{\"call\":\"allocatedBitmapVirtualVolume\",\"vvol\":\"rfc4122.00000000-0001-8000-8000-000000000001\",\"first\":0,\"count\":null}",
    "{\"call\":\"unsharedBitmapVirtualVolume\",\"vvol\":\"rfc4122.00000000-0001-8000-8000-000000000001\",\"base\":\"rfc4122.00000000-0001-8000-8000-000000000002\",\"count\":0}",
    "{\"call\":\"unsharedBitmapVirtualVolume\",\"vvol\":\"rfc4122.00000000-0001-8000-8000-000000000001\",\"base\":\"rfc4122.00000000-0001-8000-8000-000000000002\",\"first\":null,\"count\":0}",
    "{\"call\":\"unsharedBitmapVirtualVolume\",\"vvol\":\"rfc4122.00000000-0001-8000-8000-000000000001\",\"base\":\"rfc4122.00000000-0001-8000-8000-000000000002\",\"first\":0}",
    "{\"call\":\"unsharedBitmapVirtualVolume\",\"vvol\":\"rfc4122.00000000-0001-8000-8000-000000000001\",\"base\":\"rfc4122.00000000-0001-8000-8000-000000000002\",\"first\":0,\"count\":null}",
];

#[test]
fn missing_fields_are_told(rt: HostRuntime) {
    for (line, name) in MISSING {
        assert_eq!(rt;
            read_line(rt.alloc(), line.as_bytes()).err(),
            Some(LineFault::MissingField { name }),
            "{line}"
        );
    }
}

#[test]
fn wrong_fields_are_told(rt: HostRuntime) {
    for (line, name) in BAD {
        assert_eq!(rt;
            read_line(rt.alloc(), line.as_bytes()).err(),
            Some(LineFault::BadField { name }),
            "{line}"
        );
    }
}

#[test]
fn fields_that_may_be_absent_may_be_null(rt: HostRuntime) {
    for line in OPTIONAL {
        assert!(rt; read_line(rt.alloc(), line.as_bytes()).is_ok(), "{line}");
    }
}
