//! Sets of numbers as bits: number k is bit `k % 64` of word `k / 64`.
ghost use Rattle.std.specs.Prelude.{◌≡◌, ◌≢◌, ◌+◌, ◌*◌, ◌/◌, ◌^◌, ◌<◌, ◌≤◌, ℕ, length, slice_index, IfOk, IfSome, IfNone, replicate};
ghost use Rattle.vv_pool.specs.Bits.{bit_of, IsFilled, NoBits, IsNextBit, Puts, Summarizes, SummarizesBut, IsIndex};

use std::alloc::{AllocError, Global};

/// The bits of a word.
const WORD: usize = 64;

/// So many equal words.
fn words_of(alloc: Global, word: u64, n: usize) -> Result<Vec<u64>, AllocError>
    ensures { IfOk result (λ words. words.items ≡ replicate n word) }
{
    vec![in alloc; word; n]
}

/// The numbers below `n`, in as few words as they take.
pub(crate) fn filled(alloc: Global, n: usize) -> Result<Vec<u64>, AllocError>
    ensures { IfOk result (λ words. IsFilled words.items n) }
{
    let rest = n % WORD;
    let mut words = words_of(alloc, u64::MAX, n / WORD)?;
    if rest > 0 {
        words.push((1 << rest) - 1)?;
    }
    Ok(words)
}

/// Puts a number into the set.
pub(crate) fn insert(words: &mut [u64], at: usize)
    requires { at < 64 * length words.old }
    ensures bits { Puts words.old words.new at 1 }
    ensures other_words { (j : ℕ) → j ≢ at / 64 → slice_index words.new j ≡ slice_index words.old j }
{
    words[at / WORD] |= 1 << (at % WORD);
}

/// Takes a number out of the set.
pub(crate) fn remove(words: &mut [u64], at: usize)
    requires { at < 64 * length words.old }
    ensures bits { Puts words.old words.new at 0 }
    ensures other_words { (j : ℕ) → j ≢ at / 64 → slice_index words.new j ≡ slice_index words.old j }
{
    words[at / WORD] &= !(1 << (at % WORD));
}

/// The least number of the set from `from` on that is in the word of `from`.
pub(crate) fn next_in_word(words: &[u64], from: usize) -> Option<usize>
    ensures none { IfNone result (NoBits words.now from (64 * (from / 64) + 64)) }
    ensures some { IfSome result (λ at. IsNextBit words.now from at) }
{
    let word = from / WORD;
    if word >= words.len() {
        return None;
    }
    let rest = words[word] >> (from % WORD);
    if rest == 0 {
        return None;
    }
    Some(from + rest.trailing_zeros() as usize)
}

/// The least number of the set from `from` on.
pub(crate) fn next(words: &[u64], from: usize) -> Option<usize>
    requires { length words.now < 2 ^ 58 }
    ensures none { IfNone result ((k : ℕ) → from ≤ k → bit_of words.now k ≡ 0) }
    ensures some { IfSome result (λ at. IsNextBit words.now from at) }
{
    let mut from = from;
    while from / WORD < words.len() {
        if let Some(at) = next_in_word(words, from) {
            return Some(at);
        }
        from = (from / WORD + 1) * WORD;
    }
    None
}

/// The least number in a word that has one.
pub(crate) fn first_in_word(words: &[u64], word: usize) -> usize
    requires some { 0 < slice_index words.now word }
    requires few { length words.now < 2 ^ 58 }
    ensures { IsNextBit words.now (64 * word) result }
{
    word * WORD + words[word].trailing_zeros() as usize
}

/// Brings a summary up to date with one word.
pub(crate) fn note(upper: &mut [u64], lower: &[u64], word: usize)
    requires within { word < length lower.now }
    requires others { SummarizesBut upper.old lower.now word }
    ensures summary { Summarizes upper.new lower.now }
    ensures size { length upper.new ≡ length upper.old }
    ensures other_words { (j : ℕ) → j ≢ word / 64 → slice_index upper.new j ≡ slice_index upper.old j }
{
    if lower[word] == 0 {
        remove(upper, word);
    } else {
        insert(upper, word);
    }
}

/// The least number from `from` on, by the summaries of the words and of the groups of words.
pub(crate) fn next_by_summaries(
    words: &[u64],
    groups: &[u64],
    top: &[u64],
    from: usize,
) -> Option<usize>
    requires { IsIndex words.now groups.now top.now }
    ensures none { IfNone result ((k : ℕ) → from ≤ k → bit_of words.now k ≡ 0) }
    ensures some { IfSome result (λ at. IsNextBit words.now from at) }
{
    if let Some(at) = next_in_word(words, from) {
        return Some(at);
    }
    let word = next_word(groups, top, from / WORD + 1)?;
    let at = first_in_word(words, word);
    Some(at)
}

/// The next word that is not empty, by the summary of the groups of words.
fn next_word(groups: &[u64], top: &[u64], from: usize) -> Option<usize>
    requires summary { Summarizes top.now groups.now }
    requires few_groups { length groups.now < 2 ^ 58 }
    requires few { length top.now < 2 ^ 58 }
    ensures none { IfNone result ((k : ℕ) → from ≤ k → bit_of groups.now k ≡ 0) }
    ensures some { IfSome result (λ at. IsNextBit groups.now from at) }
{
    if let Some(at) = next_in_word(groups, from) {
        return Some(at);
    }
    let group = next(top, from / WORD + 1)?;
    let at = first_in_word(groups, group);
    Some(at)
}
