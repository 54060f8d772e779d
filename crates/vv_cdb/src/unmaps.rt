//! The ranges that an UNMAP unmaps.
ghost use Rattle.std.specs.Prelude.{◌≡◌, ◌≤◌, ◌-◌, ◌*◌, ◌+◌, ◌++◌, length, take, drop, slice_get, MatchResult, Ok, Err};
ghost use Rattle.vv_cdb.specs.Numbers.{number_at};
ghost use Rattle.vv_cdb.specs.UnmapLists.{ranges_in, descriptor_count as count_in, descriptors};

use crate::sense::{INVALID_FIELD_IN_PARAMETER_LIST, PARAMETER_LIST_LENGTH_ERROR, Sense};
use byteorder::{BigEndian, ByteOrder};
use std::marker::Model;

/// The most descriptors of a list.
const DESCRIPTOR_LIMIT: usize = 64;

/// The bytes before the first descriptor.
const HEAD: usize = 8;

/// The bytes of a descriptor.
const DESCRIPTOR: usize = 16;

/// Ranges of blocks: the logical block address of the first, and how many they are. There are at most 64.
#[derive(Debug, Drop)]
pub struct Unmaps {
    ranges: [(u64, u32); DESCRIPTOR_LIMIT],
    count: usize,
}

impl Model for Unmaps {
    ghost use Rattle.std.specs.Prelude.{List, ℕ, take, ◌≤◌};

    ghost Value = { List (ℕ × ℕ) };

    ghost view = { λ a. take a.count a.ranges };

    ghost invariant = { λ a. a.count ≤ 64 };
}

impl Unmaps {
    /// The ranges of a parameter list (SBC-4). A list of 1 to 7 bytes is the sense 5/1A/00, one of more than 64
    /// descriptors 5/26/00. A list of no byte has no range, and an incomplete last descriptor is ignored.
    #[tactic(auto, unfolding(crate::specs::UnmapLists::ranges_in))]
    pub fn read(list: &[u8]) -> Result<Unmaps, Sense>
        ensures { MatchResult result (λ unmaps. ranges_in list.now ≡ Ok unmaps) (λ sense. ranges_in list.now ≡ Err sense) }
    {
        if list.is_empty() {
            return Ok(Unmaps {
                ranges: [(0, 0); DESCRIPTOR_LIMIT],
                count: 0,
            });
        }
        if list.len() < HEAD {
            return Err(PARAMETER_LIST_LENGTH_ERROR);
        }
        let count = descriptor_count(list);
        if count > DESCRIPTOR_LIMIT {
            return Err(INVALID_FIELD_IN_PARAMETER_LIST);
        }
        Ok(first_ranges(&list[HEAD..], count))
    }

    /// How many ranges there are.
    pub fn len(&self) -> u32
        ensures len { result ≡ length self.now }
        ensures few { length self.now ≤ 64 }
    {
        self.ranges[..self.count].len() as u32
    }

    /// The range at a place, from 0, in the order of the list.
    pub fn at(&self, i: u32) -> Option<(u64, u32)>
        ensures { result ≡ slice_get self.now i }
    {
        self.ranges[..self.count].get(i as usize).copied()
    }
}

/// How many whole descriptors a list announces and has.
fn descriptor_count(list: &[u8]) -> usize
    requires { 8 ≤ length list.now }
    ensures { result ≡ count_in list.now }
{
    let announced = usize::from(BigEndian::read_u16(&list[2..]));
    announced.min(list.len() - HEAD) / DESCRIPTOR
}

/// The first descriptors.
fn first_ranges(bytes: &[u8], count: usize) -> Unmaps
    requires few { count ≤ 64 }
    requires there { 16 * count ≤ length bytes.now }
    ensures { result ≡ descriptors count bytes.now }
{
    let mut ranges = [(0, 0); DESCRIPTOR_LIMIT];
    for i in 0..count {
        let (_, rest) = bytes.split_at(DESCRIPTOR * i);
        ranges[i] = range_of(rest);
    }
    Unmaps { ranges, count }
}

/// The range of the descriptor that these bytes begin with.
fn range_of(bytes: &[u8]) -> (u64, u32)
    requires { 16 ≤ length bytes.now }
    ensures address { result.0 ≡ number_at 0 8 bytes.now }
    ensures number { result.1 ≡ number_at 8 4 bytes.now }
{
    let lba = BigEndian::read_u64(bytes);
    let blocks = BigEndian::read_u32(&bytes[8..]);
    (lba, blocks)
}
