//! A writer of fields into memory that was taken before.
ghost use Rattle.std.specs.Prelude.{◌≡◌, ◌-◌, ◌≤◌, ◌++◌, [], length, IfOk};
ghost use Rattle.vv_fields.specs.Fields.{be_bytes};

use std::alloc::Global;
use std::marker::Model;
use vv_units::NoMemory;

/// Writes numbers, big endian, and bytes, one after another. Contracts see the bytes written so far, and how many bytes
/// are left of the capacity. All memory is taken at first, so no write can fail.
#[derive(Debug, Drop)]
pub struct Writer {
    bytes: Vec<u8>,
    /// How many bytes are left of the capacity.
    left: usize,
}

impl Model for Writer {
    ghost use Rattle.std.specs.Prelude.{◌+◌, ◌≤◌, vec_len, vec_capacity};
    ghost use Rattle.vv_fields.specs.Fields.{WriterState};

    ghost Value = { WriterState };

    ghost view = { λ a. record { bytes = a.bytes.items; left = a.left } };

    ghost invariant = { λ a. vec_len a.bytes + a.left ≤ vec_capacity a.bytes };
}

impl Writer {
    /// A writer with memory for so many bytes, and none written.
    pub fn new(alloc: Global, capacity: usize) -> Result<Writer, NoMemory>
        ensures { IfOk result (λ writer. writer ≡ record { bytes = []; left = capacity }) }
    {
        match Vec::with_capacity(alloc, capacity) {
            Ok(bytes) => Ok(Writer {
                bytes,
                left: capacity,
            }),
            Err(_) => Err(NoMemory),
        }
    }

    /// Writes a number of one byte.
    #[tactic(auto, unfolding(crate::specs::Fields::be_bytes))]
    pub fn u8(&mut self, value: u8)
        requires { 1 ≤ self.old.left }
        ensures { self.new ≡ record { bytes = self.old.bytes ++ be_bytes 1 value; left = self.old.left - 1 } }
    {
        self.bytes(&u8::to_be_bytes(value));
    }

    /// Writes a number of 2 bytes.
    #[tactic(auto, unfolding(crate::specs::Fields::be_bytes))]
    pub fn u16(&mut self, value: u16)
        requires { 2 ≤ self.old.left }
        ensures { self.new ≡ record { bytes = self.old.bytes ++ be_bytes 2 value; left = self.old.left - 2 } }
    {
        self.bytes(&u16::to_be_bytes(value));
    }

    /// Writes a number of 4 bytes.
    #[tactic(auto, unfolding(crate::specs::Fields::be_bytes))]
    pub fn u32(&mut self, value: u32)
        requires { 4 ≤ self.old.left }
        ensures { self.new ≡ record { bytes = self.old.bytes ++ be_bytes 4 value; left = self.old.left - 4 } }
    {
        self.bytes(&u32::to_be_bytes(value));
    }

    /// Writes a number of 8 bytes.
    #[tactic(auto, unfolding(crate::specs::Fields::be_bytes))]
    pub fn u64(&mut self, value: u64)
        requires { 8 ≤ self.old.left }
        ensures { self.new ≡ record { bytes = self.old.bytes ++ be_bytes 8 value; left = self.old.left - 8 } }
    {
        self.bytes(&u64::to_be_bytes(value));
    }

    /// Writes bytes as they are.
    pub fn bytes(&mut self, value: &[u8])
        requires { length value.now ≤ self.old.left }
        ensures { self.new ≡ record { bytes = self.old.bytes ++ value.now; left = self.old.left - length value.now } }
    {
        match self.bytes.extend_from_slice(value) {
            Ok(()) => self.left -= value.len(),
            Err(_) => unreachable!(),
        }
    }

    /// The bytes written.
    pub fn finish(self) -> Vec<u8>
        ensures { result.items ≡ self.bytes }
    {
        let Writer { bytes, left: _ } = self;
        bytes
    }
}
