//! The refusal of more entries than the map has.

/// So many entries stand in lists, so many more were asked for, and so many may stand.
#[derive(Clone, Copy, Debug, PartialEq, Eq)]
pub struct MapFull {
    pub entries: u32,
    pub asked: u32,
    pub limit: u32,
}
