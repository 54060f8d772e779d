//! What is answered without moving a block: refusals as a call or a command is told them, and replies that are known.
ghost use Rattle.std.specs.Prelude.{ℕ, ◌≡◌, List, [], Some, None, IfOk, IfErr};
ghost use Rattle.vv_flat.specs.State.{Durable};
ghost use Rattle.vv_flat.specs.Chunks.{Entry as SeenEntry, shape_of_tables};
ghost use Rattle.vv_flat.specs.Profiles.{Capability};
ghost use Rattle.vv_judge.specs.Seen.{seen_refusal};
ghost use Rattle.vv_reply.specs.declared.reply.Reply.TheVariants as seen_reply;
ghost use Rattle.vv_meaning.specs.Asks.{AsFault, AsSense, Deed};
ghost use Rattle.vv_meaning.specs.Told.{good, check_condition, fault_of, sense_of, refused_as};
ghost use Rattle.vv_core.specs.Plans.{settled_reply};
ghost use Rattle.vv_core.specs.PlannedDeeds.{IsTellable, IsDeedPlanned, IsDeedRefused};

use crate::planned::Planned;
use std::alloc::Global;
use vv_cdb::Sense;
use vv_reply::{Refusal, Reply, ScsiReply};
use vv_units::ItemList;

/// Blocks are outside their volume.
const LBA_OUT_OF_RANGE: Sense = Sense {
    key: 5,
    asc: 0x21,
    ascq: 0,
};

/// There is no room for blocks.
const SPACE_ALLOCATION_FAILED: Sense = Sense {
    key: 7,
    asc: 0x27,
    ascq: 7,
};

/// Blocks may not be written.
const WRITE_PROTECTED: Sense = Sense {
    key: 7,
    asc: 0x27,
    ascq: 0,
};

/// The fault that tells why a change is refused. Two refusals, which come of blocks alone, have none.
fn fault_of(refusal: vv_judge::Refusal) -> Option<Refusal>
    requires { IsTellable (seen_refusal refusal) }
    ensures { result ≡ fault_of (seen_refusal refusal) }
{
    use vv_judge::Refusal as Cause;
    let fault = match refusal {
        Cause::NotFound { name } => Refusal::NotFound { name },
        Cause::InvalidArgument { name } => Refusal::InvalidArgument { name },
        Cause::IncompatibleVolume { name } => Refusal::IncompatibleVolume { name },
        Cause::NoEndpoint { name } => Refusal::NoEndpoint { name },
        Cause::ResourceInUse { name } => Refusal::ResourceInUse { name },
        Cause::NotCancellable { name } => Refusal::NotCancellable { name },
        Cause::OutOfRange | Cause::WriteProtected => return None,
        Cause::Exhausted => Refusal::Exhausted,
        Cause::TooMany(limit) => Refusal::TooMany(limit),
        Cause::InvalidProfile { at, why } => Refusal::InvalidProfile { at: at as u32, why },
        Cause::OverQuota {
            charged,
            asked,
            quota,
        } => Refusal::OverQuota {
            charged,
            asked,
            quota,
        },
        Cause::PoolFull { free, asked } => Refusal::PoolFull { free, asked },
        Cause::MapFull {
            entries,
            asked,
            limit,
        } => Refusal::MapFull {
            entries,
            asked,
            limit,
        },
    };
    Some(fault)
}

/// The sense that tells why a change is refused.
fn sense_of(refusal: vv_judge::Refusal) -> Sense
    ensures { result ≡ sense_of (seen_refusal refusal) }
{
    use vv_judge::Refusal as Cause;
    match refusal {
        Cause::OutOfRange => LBA_OUT_OF_RANGE,
        Cause::OverQuota { .. } | Cause::PoolFull { .. } => SPACE_ALLOCATION_FAILED,
        _ => WRITE_PROTECTED,
    }
}

/// A command ended with a sense, and with what it stands for.
fn check_condition(alloc: Global, sense: Sense, cause: Option<Refusal>) -> Reply
    ensures { result ≡ check_condition sense cause }
{
    Reply::Scsi(ScsiReply {
        status: 0x02,
        sense: Some(sense),
        cause,
        payload: ItemList::of(Vec::new(alloc)),
    })
}

/// A command ended well, and has no data.
pub(crate) fn good(alloc: Global) -> Reply
    ensures { result ≡ good [] }
{
    Reply::Scsi(ScsiReply {
        status: 0x00,
        sense: None,
        cause: None,
        payload: ItemList::of(Vec::new(alloc)),
    })
}

/// A refusal as it is told to a call.
pub(crate) fn told_to_call(alloc: Global, refusal: vv_judge::Refusal) -> Reply
    requires { IsTellable (seen_refusal refusal) }
    ensures { result ≡ refused_as AsFault (seen_refusal refusal) }
{
    match fault_of(refusal) {
        Some(fault) => Reply::Refused(fault),
        None => check_condition(alloc, sense_of(refusal), None),
    }
}

/// A refusal as it is told to a command: by its sense, with the fault beside it.
pub(crate) fn told_to_command(alloc: Global, refusal: vv_judge::Refusal) -> Reply
    requires { IsTellable (seen_refusal refusal) }
    ensures { result ≡ refused_as AsSense (seen_refusal refusal) }
{
    check_condition(alloc, sense_of(refusal), fault_of(refusal))
}

/// What a call is planned to do whose reply is known.
pub(crate) fn settle(answer: Reply) -> Result<Planned, Refusal>
    ensures planned { IfOk result (λ plan. (capabilities : List Capability) (d : Durable SeenEntry) (deed : Deed) (payload : List ℕ)
        → settled_reply capabilities (shape_of_tables d) deed ≡ Some answer → IsDeedPlanned capabilities d deed payload plan) }
    ensures refused { IfErr result (λ refusal. (capabilities : List Capability) (d : Durable SeenEntry) (deed : Deed)
        → settled_reply capabilities (shape_of_tables d) deed ≡ Some answer → IsDeedRefused capabilities d deed refusal) }
{
    match answer {
        Reply::Refused(refusal) => Err(refusal),
        answer => Ok(Planned::Answer(answer)),
    }
}
