//! Logical units, and what is done with a command to one.

use crate::short_bytes::ShortBytes;
use vv_bind::Binding;
use vv_cdb::{Sense, Unmaps};
use vv_units::EndpointId;

/// What is at the address of a command.
#[derive(Clone, Copy, Debug)]
pub enum Unit<'a> {
    /// Nothing is bound there.
    Unbound,
    /// A protocol endpoint itself.
    Endpoint(EndpointId),
    /// A volume of so many blocks; a snapshot is not written. `attention` says that a unit attention (SAM-5) waits.
    Bound {
        binding: &'a Binding,
        blocks: u64,
        snapshot: bool,
        attention: bool,
    },
}

/// What is done with a command: it is answered, or so many blocks from the first on are moved, and it is answered then.
#[derive(Debug, Drop)]
pub enum Action {
    /// With no sense the status is GOOD, and with a sense CHECK CONDITION. Where `clears` is true, the unit attention is
    /// to be cleared.
    Reply {
        bytes: ShortBytes,
        sense: Option<Sense>,
        clears: bool,
    },
    Read {
        first: u64,
        blocks: u32,
    },
    Write {
        first: u64,
        blocks: u32,
    },
    Same {
        first: u64,
        blocks: u32,
    },
    Compare {
        first: u64,
        blocks: u32,
    },
    Unmap(Unmaps),
}
