//! Lines of calls, and of replies.

pub(super) const MAKE: &str =
    "{\"call\":\"createVirtualVolume\",\"sizeInMB\":1,\"vvolType\":\"Data\"}";

pub(super) const MAKE_4: &str =
    "{\"call\":\"createVirtualVolume\",\"sizeInMB\":4,\"vvolType\":\"Data\"}";

pub(super) const BIND: &str =
    "{\"call\":\"bindVirtualVolume\",\"host\":1,\"vvol\":\"rfc4122.00000000-0001-8000-8000-000000000001\"}";

pub(super) const UNBIND: &str =
    "{\"call\":\"unbindVirtualVolume\",\"endpoint\":1,\"host\":1,\"secondary\":1}";

pub(super) const SNAPSHOT: &str =
    "{\"call\":\"snapshotVirtualVolume\",\"vvol\":\"rfc4122.00000000-0001-8000-8000-000000000001\"}";

pub(super) const REVERT: &str =
    "{\"call\":\"revertVirtualVolume\",\"snapshot\":\"rfc4122.00000000-0001-8000-8000-000000000004\",\"vvol\":\"rfc4122.00000000-0001-8000-8000-000000000001\"}";

/// Changes, where each comes behind the other.
pub(super) const NOTES: [&str; 2] = [
    "{\"call\":\"setMetadata\",\"key\":\"k\",\"value\":\"a\",\"vvol\":\"rfc4122.00000000-0001-8000-8000-000000000001\"}",
    "{\"call\":\"setMetadata\",\"key\":\"k\",\"value\":\"b\",\"vvol\":\"rfc4122.00000000-0001-8000-8000-000000000001\"}",
];

pub(super) const POOL: &str = "{\"call\":\"queryPool\"}";

/// Writes of eight blocks, at the first block.
pub(super) const WRITE_11: &str =
    "{\"call\":\"scsi\",\"cdb\":\"2a000000000000000800\",\"data\":[[\"11\",4096]],\"endpoint\":1,\"host\":1,\"secondary\":1}";

pub(super) const WRITE_22: &str =
    "{\"call\":\"scsi\",\"cdb\":\"2a000000000000000800\",\"data\":[[\"22\",4096]],\"endpoint\":1,\"host\":1,\"secondary\":1}";

pub(super) const WRITE_33: &str =
    "{\"call\":\"scsi\",\"cdb\":\"2a000000000000000800\",\"data\":[[\"33\",4096]],\"endpoint\":1,\"host\":1,\"secondary\":1}";

/// A write of the first block alone, and a read of it.
pub(super) const WRITE_BLOCK: &str =
    "{\"call\":\"scsi\",\"cdb\":\"2a000000000000000100\",\"data\":[[\"11\",512]],\"endpoint\":1,\"host\":1,\"secondary\":1}";

pub(super) const READ: &str =
    "{\"call\":\"scsi\",\"cdb\":\"28000000000000000100\",\"endpoint\":1,\"host\":1,\"secondary\":1}";

pub(super) const BLOCK_00: &str = "{\"data\":[[\"00\",512]],\"ok\":true,\"status\":\"00\"}\n";

pub(super) const BLOCK_11: &str = "{\"data\":[[\"11\",512]],\"ok\":true,\"status\":\"00\"}\n";

pub(super) const BLOCK_22: &str = "{\"data\":[[\"22\",512]],\"ok\":true,\"status\":\"00\"}\n";

pub(super) const BLOCK_33: &str = "{\"data\":[[\"33\",512]],\"ok\":true,\"status\":\"00\"}\n";

/// Nothing is bound at an address.
pub(super) const UNBOUND: &str =
    "{\"ok\":false,\"sense\":\"700005000000000a00000000250000000000\",\"status\":\"02\"}\n";

pub(super) const NO_VOLUME: &str = "{\"fault\":\"NotFound\",\"name\":\"vvol\",\"ok\":false}\n";

pub(super) const BOUND_1: &str = "{\"endpoint\":1,\"ok\":true,\"secondary\":1}\n";
