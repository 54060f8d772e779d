//! Where a profile doesn't comply.
use vv_units::Why;

/// The first need that is not met.
#[derive(Clone, Copy, Debug, PartialEq, Eq)]
pub struct Misfit {
    /// Its place, from 0.
    pub at: usize,
    /// Why it is not met.
    pub why: Why,
}
