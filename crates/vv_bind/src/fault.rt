//! The refusals of a bind.

/// Why a host may not bind a volume.
#[derive(Clone, Copy, Debug, PartialEq, Eq)]
pub enum BindFault {
    /// The host has no endpoint.
    NoEndpoint,
    /// The volume is bound for the host as often as a count can say.
    TooManyCount,
    /// No further binding has room.
    TooManyBindings,
}
