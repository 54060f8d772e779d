//! A plain list of entries.
ghost use Rattle.std.specs.Prelude.{◌≡◌, ◌-◌, ◌<◌, ◌≤◌, ◌++◌, length, replicate, slice_get, slice_set, IfOk, OnOk, OnErr};

use std::alloc::Global;
use std::marker::Model;
use vv_units::NoMemory;

/// A list of entries. Contracts see the list.
#[derive(Debug, Drop)]
pub struct ChunkMap<E> {
    entries: Vec<E>,
}

impl<E> Model for ChunkMap<E> {
    ghost use Rattle.std.specs.Prelude.{List, length, ◌<◌, ◌^◌};

    ghost Value = { List E };

    ghost view = { λ a. a.entries.items };

    ghost invariant = { λ a. length a.entries.items < 2 ^ 32 };
}

impl<E: Copy> ChunkMap<E> {
    /// A list of `n` equal entries.
    pub fn new_filled(alloc: Global, n: u32, entry: E) -> Result<ChunkMap<E>, NoMemory>
        ensures { IfOk result (λ map. map ≡ replicate n entry) }
    {
        let mut entries = Vec::new(alloc);
        match entries.resize(n as usize, entry) {
            Ok(()) => Ok(ChunkMap { entries }),
            Err(_) => Err(NoMemory),
        }
    }

    /// The entry at a place.
    pub fn get(&self, at: u32) -> E
        requires { at < length self.now }
        ensures { slice_get self.now at ≡ Some result }
    {
        self.entries[at as usize]
    }

    /// Writes the entry at a place.
    pub fn set(&mut self, at: u32, entry: E)
        requires { at < length self.old }
        ensures { self.new ≡ slice_set self.old at entry }
    {
        self.entries[at as usize] = entry;
    }

    /// Appends `entry` until the list has `n` entries.
    pub fn grow(&mut self, n: u32, entry: E) -> Result<(), NoMemory>
        requires { length self.old ≤ n }
        ensures ok { OnOk result (self.new ≡ self.old ++ replicate (n - length self.old) entry) }
        ensures err { OnErr result (self.new ≡ self.old) }
    {
        match self.entries.resize(n as usize, entry) {
            Ok(()) => Ok(()),
            Err(_) => Err(NoMemory),
        }
    }

    /// A list of the same entries, of its own.
    pub fn copy(&self, alloc: Global) -> Result<ChunkMap<E>, NoMemory>
        ensures { IfOk result (λ map. map ≡ self.now) }
    {
        match Vec::from_slice(alloc, &self.entries) {
            Ok(entries) => Ok(ChunkMap { entries }),
            Err(_) => Err(NoMemory),
        }
    }

    /// How many entries there are.
    pub fn len(&self) -> u32
        ensures { result ≡ length self.now }
    {
        self.entries.len() as u32
    }
}
