//! Values of members are written.
ghost use Rattle.std.specs.Prelude.{◌≡◌, ◌<◌, ◌≤◌, ◌+◌, ◌*◌, ◌++◌, ◌/◌, ◌%◌, codes, length};
ghost use Rattle.vv_units.specs.Identifiers.{identifier_limit, uuid_of};
ghost use Rattle.vv_reply.specs.Objects.{quoted, number, flag, identifier, buffer_limit};
ghost use Rattle.vv_reply.specs.Runs.{hex_digit, hex_text, hex_texts};
ghost use Rattle.vv_reply.specs.Values.{sense_text, origin};
ghost use Rattle.vv_reply.specs.Replies.{FitsKind};

use crate::ReplyBuffer;
use itoa::Buffer;
use uuid::Uuid;
use vv_cdb::{Sense, sense_bytes};
use vv_units::VolumeKind;

/// The UUID of number 0: custom_a is 1, the version 8, custom_b 0, and the variant 2 (RFC 9562).
const FIRST_UUID: u128 = (1 << 80) + (8 << 76) + (2 << 62);

#[tactic(auto, unfolding(vv_units::specs::Identifiers::uuid_of))]
fn uuid_for(number: u64) -> Uuid
    requires { number < identifier_limit }
    ensures { result ≡ uuid_of number }
{
    Uuid::from_u128(FIRST_UUID + u128::from(number))
}

fn hex_digit(digit: u8) -> u8
    requires { digit < 16 }
    ensures { result ≡ hex_digit digit }
{
    if digit < 10 {
        b'0' + digit
    } else {
        b'a' + (digit - 10)
    }
}

impl ReplyBuffer {
    /// A number in decimal.
    pub(crate) fn number(&mut self, n: u64)
        requires { length self.old + 64 ≤ buffer_limit }
        ensures text { self.new ≡ self.old ++ number n }
        ensures size { length self.new ≤ length self.old + 20 }
    {
        let mut buffer = Buffer::new();
        self.put(buffer.format(n).as_bytes());
    }

    /// True or false.
    pub(crate) fn flag(&mut self, value: bool)
        requires { length self.old + 64 ≤ buffer_limit }
        ensures text { self.new ≡ self.old ++ flag value }
        ensures size { length self.new ≤ length self.old + 64 }
    {
        if value {
            self.put(b"true");
        } else {
            self.put(b"false");
        }
    }

    /// A short text in quotes.
    pub(crate) fn text(&mut self, text: &str)
        requires short { length text.now ≤ 32 }
        requires room { length self.old + 64 ≤ buffer_limit }
        ensures text { self.new ≡ self.old ++ quoted text.now }
        ensures size { length self.new ≤ length self.old + 64 }
    {
        self.put(b"\"");
        self.put(text.as_bytes());
        self.put(b"\"");
    }

    /// The identifier of a number.
    pub(crate) fn identifier(&mut self, number: u64)
        requires below { number < identifier_limit }
        requires room { length self.old + 64 ≤ buffer_limit }
        ensures text { self.new ≡ self.old ++ identifier number }
        ensures size { length self.new ≤ length self.old + 64 }
    {
        let mut buffer = Uuid::encode_buffer();
        let hyphenated = uuid_for(number).hyphenated();
        let digits = hyphenated.encode_lower(&mut buffer);
        self.put(b"\"rfc4122.");
        self.put(digits.as_bytes());
        self.put(b"\"");
    }

    /// The volume that a snapshot or a clone was made of.
    pub(crate) fn origin(&mut self, kind: VolumeKind)
        requires fits { FitsKind kind }
        requires room { length self.old + 64 ≤ buffer_limit }
        ensures text { self.new ≡ self.old ++ origin kind }
        ensures size { length self.new ≤ length self.old + 64 }
    {
        match kind {
            VolumeKind::Plain => self.put(b"null"),
            VolumeKind::SnapshotOf(volume)
            | VolumeKind::FastCloneOf(volume)
            | VolumeKind::FullCloneOf(volume) => self.identifier(volume.0),
        }
    }

    /// A byte in two hexadecimal digits.
    pub(crate) fn hex(&mut self, byte: u8)
        requires { length self.old + 2 ≤ buffer_limit }
        ensures text { self.new ≡ self.old ++ hex_text byte }
        ensures size { length self.new ≡ length self.old + 2 }
    {
        self.put(&[hex_digit(byte / 16), hex_digit(byte % 16)]);
    }

    /// A byte in two hexadecimal digits, in quotes.
    pub(crate) fn hex_byte(&mut self, byte: u8)
        requires { length self.old + 64 ≤ buffer_limit }
        ensures text { self.new ≡ self.old ++ quoted (hex_text byte) }
        ensures size { length self.new ≤ length self.old + 64 }
    {
        self.put(b"\"");
        self.hex(byte);
        self.put(b"\"");
    }

    /// Sense data in hexadecimal digits, in quotes.
    pub(crate) fn sense(&mut self, sense: Sense)
        requires { length self.old + 64 ≤ buffer_limit }
        ensures text { self.new ≡ self.old ++ sense_text sense }
        ensures size { length self.new ≤ length self.old + 64 }
    {
        let bytes = sense_bytes(sense);
        self.put(b"\"");
        self.hex_bytes(&bytes);
        self.put(b"\"");
    }

    fn hex_bytes(&mut self, bytes: &[u8])
        requires { length self.old + 2 * length bytes.now ≤ buffer_limit }
        ensures text { self.new ≡ self.old ++ hex_texts bytes.now }
        ensures size { length self.new ≡ length self.old + 2 * length bytes.now }
    {
        for byte in bytes {
            self.hex(*byte);
        }
    }
}
