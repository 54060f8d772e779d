//! A few bytes, in place.
ghost use Rattle.std.specs.Prelude.{◌≡◌, ◌≤◌, [], length, take};

use std::marker::Model;

/// The most bytes of a list.
const LIMIT: usize = 36;

/// At most 36 bytes.
#[derive(Clone, Debug, Drop)]
pub struct ShortBytes {
    bytes: [u8; LIMIT],
    count: usize,
}

impl Model for ShortBytes {
    ghost use Rattle.std.specs.Prelude.{List, ℕ, take, ◌≤◌};

    ghost Value = { List ℕ };

    ghost view = { λ a. take a.count a.bytes };

    ghost invariant = { λ a. a.count ≤ 36 };
}

impl ShortBytes {
    /// No byte.
    pub(crate) fn empty() -> ShortBytes
        ensures { result ≡ [] }
    {
        ShortBytes {
            bytes: [0; LIMIT],
            count: 0,
        }
    }

    /// The first bytes of a list, at most so many.
    pub(crate) fn cut(list: &[u8], most: u32) -> ShortBytes
        requires { length list.now ≤ 36 }
        ensures { result ≡ take most list.now }
    {
        let mut bytes = [0; LIMIT];
        let count = list.len().min(most as usize);
        let (front, _) = list.split_at(count);
        bytes[..count].copy_from_slice(front);
        ShortBytes { bytes, count }
    }

    /// All bytes of a list.
    pub(crate) fn of(list: &[u8]) -> ShortBytes
        requires { length list.now ≤ 36 }
        ensures { result ≡ list.now }
    {
        let mut bytes = [0; LIMIT];
        let count = list.len();
        bytes[..count].copy_from_slice(list);
        ShortBytes { bytes, count }
    }

    /// The bytes.
    pub fn items(&self) -> &[u8]
        ensures list { result.now ≡ self.now }
        ensures few { length result.now ≤ 36 }
    {
        &self.bytes[..self.count]
    }
}
