//! Senses: why a command was not done.
ghost use Rattle.std.specs.Prelude.{◌≡◌};
ghost use Rattle.vv_cdb.specs.Senses.{sense_data};

/// A sense key with an additional sense code and its qualifier (SPC-5).
#[derive(Clone, Copy, Debug, PartialEq, Eq)]
pub struct Sense {
    pub key: u8,
    pub asc: u8,
    pub ascq: u8,
}

/// The parameter list has a length that can't be.
pub(crate) const PARAMETER_LIST_LENGTH_ERROR: Sense = Sense {
    key: 5,
    asc: 0x1a,
    ascq: 0,
};

/// The operation code is not known.
pub(crate) const INVALID_OPERATION_CODE: Sense = Sense {
    key: 5,
    asc: 0x20,
    ascq: 0,
};

/// A field of the command descriptor block is not valid, or the block is too short.
pub(crate) const INVALID_FIELD_IN_CDB: Sense = Sense {
    key: 5,
    asc: 0x24,
    ascq: 0,
};

/// A field of the parameter list is not valid.
pub(crate) const INVALID_FIELD_IN_PARAMETER_LIST: Sense = Sense {
    key: 5,
    asc: 0x26,
    ascq: 0,
};

/// Sense data in the fixed format, 18 bytes (SPC-5).
pub fn sense_bytes(sense: Sense) -> [u8; 18]
    ensures { result ≡ sense_data sense }
{
    let Sense { key, asc, ascq } = sense;
    [
        0x70, 0, key, 0, 0, 0, 0, 10, 0, 0, 0, 0, asc, ascq, 0, 0, 0, 0,
    ]
}
