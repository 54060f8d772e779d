//! Names of capabilities, and keys and notes of metadata: short texts of a form of their own.
ghost use Rattle.std.specs.Prelude.{◌≡◌, ◌↔◌, IsTrue, IfOk, IfSome, IsSome, nat_eq};
ghost use Rattle.std.specs.Hash as fed;
ghost use Rattle.std.specs.Cmp.Lexicographic.{pointwise, nat_list_eq_equiv};
ghost use Rattle.std.specs.Cmp.{partial_equiv_from_equiv};
ghost use Rattle.std.specs.Cmp.Rules.{hashing};
ghost use Rattle.std.proofs.Common.{rules};
ghost use Rattle.std.specs.List.{list_all};
ghost use Rattle.vv_units.specs.Names.{is_name_byte, is_name, is_text_byte, is_key, is_note};

use crate::NoMemory;
use std::alloc::{AllocError, Global};
use std::hash::{Hash, Hasher};
use std::marker::Model;

/// The name of a capability: 1 to 24 of `a` to `z`, `0` to `9` and `-`.
#[derive(Debug, Drop)]
pub struct Name {
    bytes: Vec<u8>,
}

impl Model for Name {
    ghost use Rattle.std.specs.Prelude.{List, ℕ, IsTrue};
    ghost use Rattle.vv_units.specs.Names.{is_name};

    ghost Value = { List ℕ };

    ghost view = { λ a. a.bytes.items };

    ghost invariant = { λ a. IsTrue (is_name a.bytes.items) };
}

/// The key of a metadata pair: 1 to 32 printable characters of ASCII, but neither `"` nor `\`.
#[derive(Debug, Drop)]
pub struct Key {
    bytes: Vec<u8>,
}

impl Model for Key {
    ghost use Rattle.std.specs.Prelude.{List, ℕ, IsTrue};
    ghost use Rattle.vv_units.specs.Names.{is_key};

    ghost Value = { List ℕ };

    ghost view = { λ a. a.bytes.items };

    ghost invariant = { λ a. IsTrue (is_key a.bytes.items) };
}

/// The value of a metadata pair: at most 96 printable characters of ASCII, but neither `"` nor `\`.
#[derive(Debug, Drop)]
pub struct Note {
    bytes: Vec<u8>,
}

impl Model for Note {
    ghost use Rattle.std.specs.Prelude.{List, ℕ, IsTrue};
    ghost use Rattle.vv_units.specs.Names.{is_note};

    ghost Value = { List ℕ };

    ghost view = { λ a. a.bytes.items };

    ghost invariant = { λ a. IsTrue (is_note a.bytes.items) };
}

fn has_name_form(text: &[u8]) -> bool
    ensures { result ≡ is_name text.now }
{
    !text.is_empty() && text.len() <= 24 && has_name_bytes(text)
}

fn has_name_bytes(text: &[u8]) -> bool
    ensures { result ≡ list_all is_name_byte text.now }
{
    text.iter()
        .all(|c| matches!(*c, b'a'..=b'z' | b'0'..=b'9' | b'-'))
}

fn has_key_form(text: &[u8]) -> bool
    ensures { result ≡ is_key text.now }
{
    !text.is_empty() && text.len() <= 32 && has_text_bytes(text)
}

fn has_note_form(text: &[u8]) -> bool
    ensures { result ≡ is_note text.now }
{
    text.len() <= 96 && has_text_bytes(text)
}

fn has_text_bytes(text: &[u8]) -> bool
    ensures { result ≡ list_all is_text_byte text.now }
{
    text.iter()
        .all(|c| matches!(*c, b' '..=b'~') && *c != b'"' && *c != b'\\')
}

fn copy_of(alloc: Global, text: &[u8]) -> Result<Vec<u8>, NoMemory>
    ensures { IfOk result (λ bytes. bytes.items ≡ text.now) }
{
    Vec::from_slice(alloc, text).map_err(|_| NoMemory)
}

impl Name {
    /// The name, if the text has the form of one.
    pub fn read(alloc: Global, text: &[u8]) -> Result<Option<Name>, NoMemory>
        ensures form { IfOk result (λ name. IsSome name ↔ IsTrue (is_name text.now)) }
        ensures value { IfOk result (λ name. IfSome name (λ bytes. bytes ≡ text.now)) }
    {
        if !has_name_form(text) {
            return Ok(None);
        }
        let bytes = copy_of(alloc, text)?;
        Ok(Some(Name { bytes }))
    }

    /// Its characters.
    pub fn items(&self) -> &[u8]
        ensures text { result.now ≡ self.now }
        ensures form { IsTrue (is_name self.now) }
    {
        &self.bytes
    }
}

impl Key {
    /// The key, if the text has the form of one.
    pub fn read(alloc: Global, text: &[u8]) -> Result<Option<Key>, NoMemory>
        ensures form { IfOk result (λ key. IsSome key ↔ IsTrue (is_key text.now)) }
        ensures value { IfOk result (λ key. IfSome key (λ bytes. bytes ≡ text.now)) }
    {
        if !has_key_form(text) {
            return Ok(None);
        }
        let bytes = copy_of(alloc, text)?;
        Ok(Some(Key { bytes }))
    }

    /// Its characters.
    pub fn items(&self) -> &[u8]
        ensures text { result.now ≡ self.now }
        ensures form { IsTrue (is_key self.now) }
    {
        &self.bytes
    }
}

impl Note {
    /// The note, if the text has the form of one.
    pub fn read(alloc: Global, text: &[u8]) -> Result<Option<Note>, NoMemory>
        ensures form { IfOk result (λ note. IsSome note ↔ IsTrue (is_note text.now)) }
        ensures value { IfOk result (λ note. IfSome note (λ bytes. bytes ≡ text.now)) }
    {
        if !has_note_form(text) {
            return Ok(None);
        }
        let bytes = copy_of(alloc, text)?;
        Ok(Some(Note { bytes }))
    }

    /// Its characters.
    pub fn items(&self) -> &[u8]
        ensures text { result.now ≡ self.now }
        ensures form { IsTrue (is_note self.now) }
    {
        &self.bytes
    }
}

impl PartialEq for Key {
    ghost eq = { pointwise nat_eq };

    ghost laws = { partial_equiv_from_equiv nat_list_eq_equiv };

    fn eq(&self, other: &Key) -> bool {
        self.items() == other.items()
    }
}

impl Eq for Key {
    ghost laws = { nat_list_eq_equiv };
}

impl Hash for Key {
    ghost hash_input = { fed.slice fed.u8 };

    ghost respects_eq = { Prim.search (hashing, rules) };

    fn hash<H: Hasher>(&self, state: &mut H) {
        self.items().hash(state);
    }
}

impl Clone for Key {
    ghost is_clone = { λ key copy. copy ≡ key };

    fn clone(&self) -> Result<Key, AllocError> {
        let bytes = self.bytes.clone()?;
        Ok(Key { bytes })
    }
}

impl Clone for Note {
    ghost is_clone = { λ note copy. copy ≡ note };

    fn clone(&self) -> Result<Note, AllocError> {
        let bytes = self.bytes.clone()?;
        Ok(Note { bytes })
    }
}
