//! A reader of fields.
ghost use Rattle.std.specs.Prelude.{◌≡◌, ◌^◌, ◌<◌, ◌≤◌, length, IfSome};
ghost use Rattle.std.specs.Option.{option_copied};
ghost use Rattle.vv_fields.specs.Fields.{be_number, field_at, taken_at, moved_on};

use std::marker::Model;

/// Reads numbers, big endian, and bytes, one after another. Contracts see all the bytes, and the place of the next one.
#[derive(Debug, Drop)]
pub struct Reader<'a> {
    bytes: &'a [u8],
    /// The place of the next byte, from 0.
    at: usize,
}

impl<'a> Model for Reader<'a> {
    ghost use Rattle.std.specs.Prelude.{◌≤◌, length};
    ghost use Rattle.vv_fields.specs.Fields.{ReaderState};

    ghost Value = { ReaderState };

    ghost view = { λ a. record { bytes = a.bytes.now; at = a.at } };

    ghost invariant = { λ a. a.at ≤ length a.bytes.now };
}

impl<'a> Reader<'a> {
    /// A reader of these bytes, at the first of them.
    pub fn new(bytes: &'a [u8]) -> Reader<'a>
        ensures { result ≡ record { bytes = bytes.now; at = 0 } }
    {
        Reader { bytes, at: 0 }
    }

    /// The place of the next byte, from 0.
    pub fn at(&self) -> usize
        ensures place { result ≡ self.now.at }
        ensures within { self.now.at ≤ length self.now.bytes }
    {
        self.at
    }

    /// The next byte. At the end of the bytes it is None, and the reader stays at its place.
    #[tactic(auto, unfolding(crate::specs::Fields::field_at))]
    pub fn u8(&mut self) -> Option<u64>
        ensures value { result ≡ field_at 1 self.old.bytes self.old.at }
        ensures moved { self.new ≡ moved_on 1 result self.old }
        ensures below { IfSome result (λ value. value < 2 ^ 8) }
    {
        let bytes = self.take(1)?;
        Some(number_of_1(bytes))
    }

    /// The next number of 2 bytes. Where fewer are left it is None, and the reader stays at its place.
    #[tactic(auto, unfolding(crate::specs::Fields::field_at))]
    pub fn u16(&mut self) -> Option<u64>
        ensures value { result ≡ field_at 2 self.old.bytes self.old.at }
        ensures moved { self.new ≡ moved_on 2 result self.old }
        ensures below { IfSome result (λ value. value < 2 ^ 16) }
    {
        let bytes = self.take(2)?;
        Some(number_of_2(bytes))
    }

    /// The next number of 4 bytes. Where fewer are left it is None, and the reader stays at its place.
    #[tactic(auto, unfolding(crate::specs::Fields::field_at))]
    pub fn u32(&mut self) -> Option<u64>
        ensures value { result ≡ field_at 4 self.old.bytes self.old.at }
        ensures moved { self.new ≡ moved_on 4 result self.old }
        ensures below { IfSome result (λ value. value < 2 ^ 32) }
    {
        let bytes = self.take(4)?;
        Some(number_of_4(bytes))
    }

    /// The next number of 8 bytes. Where fewer are left it is None, and the reader stays at its place.
    #[tactic(auto, unfolding(crate::specs::Fields::field_at))]
    pub fn u64(&mut self) -> Option<u64>
        ensures value { result ≡ field_at 8 self.old.bytes self.old.at }
        ensures moved { self.new ≡ moved_on 8 result self.old }
        ensures below { IfSome result (λ value. value < 2 ^ 64) }
    {
        let bytes = self.take(8)?;
        Some(number_of_8(bytes))
    }

    /// The next `n` bytes, lent. Where fewer are left it is None, and the reader stays at its place.
    #[tactic(auto, unfolding(crate::specs::Fields::taken_at))]
    pub fn take(&mut self, n: usize) -> Option<&'a [u8]>
        ensures value { option_copied result ≡ taken_at n self.old.bytes self.old.at }
        ensures moved { self.new ≡ moved_on n result self.old }
        ensures size { IfSome result (λ bytes. length bytes.now ≡ n) }
    {
        let (_, rest) = self.bytes.split_at(self.at);
        if rest.len() < n {
            return None;
        }
        self.at += n;
        let (bytes, _) = rest.split_at(n);
        Some(bytes)
    }
}

/// The number of one byte.
#[tactic(auto, using(crate::proofs::Numbers::number_of_1))]
fn number_of_1(bytes: &[u8]) -> u64
    requires { length bytes.now ≡ 1 }
    ensures value { result ≡ be_number bytes.now }
    ensures below { result < 2 ^ 8 }
{
    u64::from(u8::from_be_bytes([bytes[0]]))
}

/// The number of 2 bytes.
#[tactic(auto, using(crate::proofs::Numbers::number_of_2))]
fn number_of_2(bytes: &[u8]) -> u64
    requires { length bytes.now ≡ 2 }
    ensures value { result ≡ be_number bytes.now }
    ensures below { result < 2 ^ 16 }
{
    u64::from(u16::from_be_bytes([bytes[0], bytes[1]]))
}

/// The number of 4 bytes.
#[tactic(auto, using(crate::proofs::Numbers::number_of_4))]
fn number_of_4(bytes: &[u8]) -> u64
    requires { length bytes.now ≡ 4 }
    ensures value { result ≡ be_number bytes.now }
    ensures below { result < 2 ^ 32 }
{
    u64::from(u32::from_be_bytes([bytes[0], bytes[1], bytes[2], bytes[3]]))
}

/// The number of 8 bytes.
#[tactic(auto, using(crate::proofs::Numbers::number_of_8))]
fn number_of_8(bytes: &[u8]) -> u64
    requires { length bytes.now ≡ 8 }
    ensures value { result ≡ be_number bytes.now }
    ensures below { result < 2 ^ 64 }
{
    u64::from(u64::from_be_bytes([
        bytes[0], bytes[1], bytes[2], bytes[3], bytes[4], bytes[5], bytes[6], bytes[7],
    ]))
}
