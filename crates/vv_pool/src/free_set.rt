//! Numbers that are found in a few steps, with two levels of summary above their bits.
ghost use Rattle.std.specs.Prelude.{◌≡◌, ◌*◌, ◌<◌, ◌≤◌, ◌^◌, ℕ, length, IfOk, IfSome, IfNone, if◌then◌else◌};
ghost use Rattle.vv_pool.specs.Bits.{bit_of, IsFilled, IsNextBit, Puts};

use crate::bits;
use std::alloc::{AllocError, Global};
use std::marker::Model;

/// A set of numbers. Contracts see the words of its bits.
#[derive(Drop)]
pub(crate) struct FreeSet {
    words: Vec<u64>,
    /// Which words have a number.
    groups: Vec<u64>,
    /// Which words of `groups` have one.
    top: Vec<u64>,
}

impl Model for FreeSet {
    ghost use Rattle.std.specs.Prelude.{List, ℕ};
    ghost use Rattle.vv_pool.specs.Bits.{IsIndex};

    ghost Value = { List ℕ };

    ghost view = { λ a. a.words.items };

    ghost invariant = { λ a. IsIndex a.words.items a.groups.items a.top.items };
}

impl FreeSet {
    /// The numbers below `n`.
    pub(crate) fn filled(alloc: Global, n: u32) -> Result<FreeSet, AllocError>
        ensures { IfOk result (λ set. IsFilled set n) }
    {
        let words = bits::filled(alloc, n as usize)?;
        let groups = bits::filled(alloc, words.len())?;
        let top = bits::filled(alloc, groups.len())?;
        Ok(FreeSet { words, groups, top })
    }

    /// Puts a number in, or takes it out.
    pub(crate) fn put(&mut self, at: usize, is_member: bool)
        requires { at < 64 * length self.old }
        ensures { Puts self.old self.new at (if is_member then 1 else 0) }
    {
        if is_member {
            self.insert(at);
        } else {
            self.remove(at);
        }
    }

    /// Puts a number in.
    fn insert(&mut self, at: usize)
        requires { at < 64 * length self.old }
        ensures { Puts self.old self.new at 1 }
    {
        bits::insert(self.words.as_mut_slice(), at);
        bits::note(self.groups.as_mut_slice(), &self.words, at / 64);
        bits::note(self.top.as_mut_slice(), &self.groups, at / 4096);
    }

    /// Takes a number out.
    fn remove(&mut self, at: usize)
        requires { at < 64 * length self.old }
        ensures { Puts self.old self.new at 0 }
    {
        bits::remove(self.words.as_mut_slice(), at);
        bits::note(self.groups.as_mut_slice(), &self.words, at / 64);
        bits::note(self.top.as_mut_slice(), &self.groups, at / 4096);
    }

    /// The least number from `from` on.
    pub(crate) fn next(&self, from: usize) -> Option<usize>
        ensures none { IfNone result ((k : ℕ) → from ≤ k → bit_of self.now k ≡ 0) }
        ensures some { IfSome result (λ at. IsNextBit self.now from at) }
    {
        bits::next_by_summaries(&self.words, &self.groups, &self.top, from)
    }
}
