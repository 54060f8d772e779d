//! The senses of answers (SPC-5). Which one answers which case is this project's own choice.

use vv_cdb::Sense;

/// Nothing is to be told.
pub(crate) const NO_SENSE: Sense = Sense {
    key: 0,
    asc: 0,
    ascq: 0,
};

/// The unit does not have this command.
pub(crate) const INVALID_OPERATION_CODE: Sense = Sense {
    key: 5,
    asc: 0x20,
    ascq: 0,
};

/// Blocks are outside the volume.
pub(crate) const LBA_OUT_OF_RANGE: Sense = Sense {
    key: 5,
    asc: 0x21,
    ascq: 0,
};

/// Nothing is at the address.
pub(crate) const LOGICAL_UNIT_NOT_SUPPORTED: Sense = Sense {
    key: 5,
    asc: 0x25,
    ascq: 0,
};

/// The unit attention: the volume has another size than the host knows.
pub(crate) const CAPACITY_DATA_HAS_CHANGED: Sense = Sense {
    key: 6,
    asc: 0x2a,
    ascq: 9,
};

/// A snapshot is not written.
pub(crate) const WRITE_PROTECTED: Sense = Sense {
    key: 7,
    asc: 0x27,
    ascq: 0,
};
