//! How many bytes the lists of a head are spelled in.
ghost use Rattle.std.specs.Prelude.{◌≡◌, ◌<◌, ◌^◌};
ghost use Rattle.vv_area.specs.Lengths.{offers_length, needs_length, metadata_length};
ghost use Rattle.vv_flat.specs.Lists.{if_found};
ghost use Rattle.std.specs.Prelude.{ℕ, List, ◌+◌, length, slice_get};

use vv_units::{Need, Offer, PairList};

/// How many bytes offers are spelled in.
pub(crate) fn offers_len(offers: &[Offer]) -> u64
    requires { offers_length offers.now < 2 ^ 64 }
    ensures { result ≡ offers_length offers.now }
{
    let mut bytes = 1;
    for offer in offers {
        bytes += 9 + offer.name.items().len() as u64;
    }
    bytes
}

/// How many bytes the needs of a profile are spelled in.
pub(crate) fn needs_len(needs: &[Need]) -> u64
    requires { needs_length needs.now < 2 ^ 64 }
    ensures { result ≡ needs_length needs.now }
{
    let mut bytes = 1;
    for need in needs {
        bytes += 9 + need.name.items().len() as u64;
    }
    bytes
}

/// How many bytes a pair is spelled in: none past the last.
fn pair_len_at(pairs: &PairList, i: u32) -> u64
    ensures { result ≡ if_found (slice_get pairs.now i) (λ (p : List ℕ × List ℕ). 2 + length p.0 + length p.1) 0 }
{
    match pairs.at(i) {
        Some((key, note)) => 2 + key.items().len() as u64 + note.items().len() as u64,
        None => 0,
    }
}

/// How many bytes metadata are spelled in.
pub(crate) fn pairs_len(pairs: &PairList) -> u64
    requires { metadata_length pairs.now < 2 ^ 64 }
    ensures { result ≡ metadata_length pairs.now }
{
    let mut bytes = 1;
    for i in 0..pairs.len() {
        bytes += pair_len_at(pairs, i);
    }
    bytes
}
