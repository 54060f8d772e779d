//! What a change is answered.
ghost use Rattle.std.specs.Prelude.{◌≡◌, map};
ghost use Rattle.vv_flat.specs.Refusals.{refuse_if};
ghost use Rattle.vv_judge.specs.Seen.{seen_check, seen_refusal, refused_by};

use vv_units::{Field, TooMany, Why};

/// Why a change is refused.
#[derive(Clone, Copy, Debug, PartialEq, Eq)]
pub enum Refusal {
    /// What the field names doesn't stand.
    NotFound {
        name: Field,
    },
    InvalidArgument {
        name: Field,
    },
    IncompatibleVolume {
        name: Field,
    },
    NoEndpoint {
        name: Field,
    },
    ResourceInUse {
        name: Field,
    },
    NotCancellable {
        name: Field,
    },
    /// Blocks past the end of a volume.
    OutOfRange,
    /// A write to a snapshot.
    WriteProtected,
    /// The log numbers have come to their end.
    Exhausted,
    TooMany(TooMany),
    /// The first need that is not met, from 0.
    InvalidProfile {
        at: usize,
        why: Why,
    },
    OverQuota {
        charged: u64,
        asked: u64,
        quota: u64,
    },
    PoolFull {
        free: u32,
        asked: u32,
    },
    MapFull {
        entries: u32,
        asked: u32,
        limit: u32,
    },
}

/// How a change is answered.
#[derive(Clone, Copy, Debug, PartialEq, Eq)]
pub enum Verdict {
    Refuse(Refusal),
    /// It would change nothing durable.
    Nothing,
    Accept,
}

/// Refuses where this is so.
pub(crate) fn refuse_if(this: bool, refusal: Refusal) -> Option<Refusal>
    ensures { seen_check result ≡ refuse_if this (seen_refusal refusal) }
{
    if this { Some(refusal) } else { None }
}

/// The first refusal of some checks in their order.
pub(crate) fn first_refusal(checks: &[Option<Refusal>]) -> Option<Refusal>
    ensures { seen_check result ≡ refused_by (map seen_check checks.now) }
{
    for check in checks {
        if check.is_some() {
            return *check;
        }
    }
    None
}
