//! Metadata pairs, in the order in which their keys came.
ghost use Rattle.std.specs.Prelude.{◌≡◌, ◌==◌, ◌≤◌, [], length, slice_get, None, IfOk, OnOk, OnErr, IsOk};
ghost use Rattle.std.specs.Option.{option_map, option_copied};
ghost use Rattle.std.specs.Map.Iter.{deref_pair};
ghost use Rattle.vv_units.specs.Pairs.{after_set, without_pair, note_of, HaveOwnKeys};

use crate::{Key, NoMemory, Note};
use indexmap::IndexMap;
use std::alloc::Global;
use std::marker::Model;

/// Pairs of a key and a note, the keys all different.
#[derive(Drop)]
pub struct PairList {
    pairs: IndexMap<Key, Note>,
}

impl Model for PairList {
    ghost use Rattle.std.specs.Prelude.{List, ℕ, length, ◌<◌, ◌^◌};

    ghost Value = { List (List ℕ × List ℕ) };

    ghost view = { λ a. a.pairs.entries };

    ghost invariant = { λ a. length a.pairs.entries < 2 ^ 32 };
}

impl PairList {
    /// No pair.
    pub fn new(alloc: Global) -> PairList
        ensures { result ≡ [] }
    {
        PairList {
            pairs: IndexMap::new(alloc),
        }
    }

    /// Sets the note at a key, or removes the key. An old key keeps its place, a new one goes last, and behind a
    /// removed one the others close up. Want of memory, which a removal doesn't meet, leaves the list as it was.
    pub fn set(&mut self, key: Key, value: Option<Note>) -> Result<(), NoMemory>
        ensures ok { OnOk result (self.new ≡ after_set self.old key value) }
        ensures err { OnErr result (self.new ≡ self.old) }
        ensures removal { value ≡ None → IsOk result }
    {
        let Some(note) = value else {
            remove_pair(&mut self.pairs, &key);
            return Ok(());
        };
        if self.pairs.len() >= MOST_PAIRS {
            return Err(NoMemory);
        }
        match self.pairs.insert(key, note) {
            Ok(_) => Ok(()),
            Err(_) => Err(NoMemory),
        }
    }

    /// The note at a key.
    pub fn get(&self, key: &Key) -> Option<&Note>
        ensures { option_copied result ≡ note_of self.now key.now }
    {
        self.pairs.get(key)
    }

    /// The pair at a place, from 0.
    pub fn at(&self, i: u32) -> Option<(&Key, &Note)>
        ensures { option_map deref_pair result ≡ slice_get self.now i }
    {
        self.pairs.get_index(i as usize)
    }

    /// How many pairs there are.
    pub fn len(&self) -> u32
        ensures count { result ≡ length self.now }
        ensures keys { HaveOwnKeys self.now }
    {
        self.pairs.len() as u32
    }

    /// Whether there is no pair.
    pub fn is_empty(&self) -> bool
        ensures { result ≡ (length self.now == 0) }
    {
        self.pairs.is_empty()
    }

    /// The same pairs.
    pub fn copy(&self) -> Result<PairList, NoMemory>
        ensures { IfOk result (λ copy. copy ≡ self.now) }
    {
        match self.pairs.clone() {
            Ok(pairs) => Ok(PairList { pairs }),
            Err(_) => Err(NoMemory),
        }
    }
}

/// Removes a key. Behind it the other pairs close up.
#[tactic(auto, using(crate::proofs::PairLemmas::pair_removed))]
fn remove_pair(pairs: &mut IndexMap<Key, Note>, key: &Key)
    ensures rest { pairs.new.entries ≡ without_pair pairs.old.entries key.now }
    ensures fewer { length pairs.new.entries ≤ length pairs.old.entries }
{
    pairs.shift_remove(key);
}

/// The most pairs that can be counted.
const MOST_PAIRS: usize = u32::MAX as usize;
