//! The refusal of a pool.

/// More places were asked for than are free.
#[derive(Clone, Copy, Debug, PartialEq, Eq)]
pub struct Full {
    pub free: u32,
    pub asked: u32,
}
