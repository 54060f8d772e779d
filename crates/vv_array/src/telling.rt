//! What calls that move blocks are answered.
ghost use Rattle.std.specs.Prelude.{◌≡◌, [], Option, Some, None};
ghost use Rattle.vv_cdb.specs.declared.sense.Sense.{Sense as seen_sense};
ghost use Rattle.vv_meaning.specs.Told.{good, check_condition, miscompared, read_failed_as, write_failed_as};
ghost use Rattle.vv_array.specs.Telling.{ends_command, form_when};

use std::alloc::Global;
use vv_cdb::Sense;
use vv_reply::{Refusal, Reply, ScsiReply};
use vv_units::ItemList;

/// The blocks that stand are others than those to compare with.
const MISCOMPARE_DURING_VERIFY: Sense = Sense {
    key: 14,
    asc: 0x1d,
    ascq: 0,
};

/// Blocks can't be read.
const UNRECOVERED_READ_ERROR: Sense = Sense {
    key: 3,
    asc: 0x11,
    ascq: 0,
};

/// Blocks can't be written.
const WRITE_ERROR: Sense = Sense {
    key: 3,
    asc: 0x0c,
    ascq: 0,
};

/// The reply to a command that ends well, with these bytes.
pub(crate) fn good(bytes: Vec<u8>) -> Reply
    ensures { result ≡ good bytes.items }
{
    Reply::Scsi(ScsiReply {
        status: 0x00,
        sense: None,
        cause: None,
        payload: ItemList::of(bytes),
    })
}

/// The reply to a command that ends with a sense.
fn check_condition(alloc: Global, sense: Sense, cause: Option<Refusal>) -> Reply
    ensures { result ≡ check_condition sense cause }
{
    Reply::Scsi(ScsiReply {
        status: 0x02,
        sense: Some(sense),
        cause,
        payload: ItemList::of(Vec::new(alloc)),
    })
}

/// The reply to a command whose blocks to compare with aren't those that stand.
pub(crate) fn miscompared(alloc: Global) -> Reply
    ensures { result ≡ miscompared }
{
    check_condition(alloc, MISCOMPARE_DURING_VERIFY, None)
}

/// Whether a reply is that of a command to a logical unit.
pub(crate) fn ends_command(reply: &Reply) -> bool
    ensures { result ≡ ends_command reply.now }
{
    match reply {
        Reply::Done(_) => false,
        Reply::Refused(_) => false,
        Reply::Scsi(_) => true,
        Reply::Line(_) => false,
    }
}

/// The reply to a call for which a read failed: with a sense to a command.
pub(crate) fn read_failed(alloc: Global, is_command: bool) -> Reply
    ensures { result ≡ read_failed_as (form_when is_command) }
{
    if is_command {
        check_condition(alloc, UNRECOVERED_READ_ERROR, Some(Refusal::ReadFault))
    } else {
        Reply::Refused(Refusal::ReadFault)
    }
}

/// The reply to a call for which a write failed: with a sense to a command.
pub(crate) fn write_failed(alloc: Global, is_command: bool) -> Reply
    ensures { result ≡ write_failed_as (form_when is_command) }
{
    if is_command {
        check_condition(alloc, WRITE_ERROR, Some(Refusal::WriteFault))
    } else {
        Reply::Refused(Refusal::WriteFault)
    }
}
