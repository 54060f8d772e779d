//! Fields that several tables have.
ghost use Rattle.std.specs.Prelude.{◌≡◌, ℕ, List, Some, option_map, slice_get};
ghost use Rattle.vv_fields.specs.Fields.{be_bytes};
ghost use Rattle.std.specs.List.{flat_map};
ghost use Rattle.vv_record.specs.Spelling.{text_spelling, offer_spelling, need_spelling, offers_spelling, needs_spelling, type_number};
ghost use Rattle.vv_area.specs.Spelling.{metadata_spelling, pair_spelling, entry_spelling, place_spelling};
ghost use Rattle.vv_vols.specs.Rows.{seen_entry};
ghost use Rattle.vv_spell.specs.Window.{seen, behind};

use crate::window::Window;
use vv_entries::Entry;
use vv_units::{Key, Need, Note, Offer, PairList, Place, VvolType};

/// Puts a length byte, and the bytes.
#[tactic(auto, using(crate::proofs::WindowLemmas::put_two))]
pub(crate) fn put_text(window: &mut Window, into: &mut [u8], text: &[u8])
    ensures { seen window.new into.new ≡ behind (seen window.old into.old) (text_spelling text.now) }
{
    window.put_number(into, 1, text.len() as u64);
    window.put_bytes(into, text);
}

#[tactic(auto, using(crate::proofs::WindowLemmas::put_two))]
fn put_offer(window: &mut Window, into: &mut [u8], offer: &Offer)
    ensures { seen window.new into.new ≡ behind (seen window.old into.old) (offer_spelling offer.now) }
{
    put_text(window, into, offer.name.items());
    window.put_number(into, 8, offer.value);
}

fn put_each_offer(window: &mut Window, into: &mut [u8], offers: &[Offer])
    ensures { seen window.new into.new ≡ behind (seen window.old into.old) (flat_map offer_spelling offers.now) }
{
    for offer in offers {
        put_offer(window, into, offer);
    }
}

/// Puts what a container offers.
#[tactic(auto, using(crate::proofs::WindowLemmas::put_two))]
pub(crate) fn put_offers(window: &mut Window, into: &mut [u8], offers: &[Offer])
    ensures { seen window.new into.new ≡ behind (seen window.old into.old) (offers_spelling offers.now) }
{
    window.put_number(into, 1, offers.len() as u64);
    put_each_offer(window, into, offers);
}

#[tactic(auto, using(crate::proofs::WindowLemmas::put_two))]
fn put_need(window: &mut Window, into: &mut [u8], need: &Need)
    ensures { seen window.new into.new ≡ behind (seen window.old into.old) (need_spelling need.now) }
{
    put_text(window, into, need.name.items());
    window.put_number(into, 8, need.value);
}

fn put_each_need(window: &mut Window, into: &mut [u8], needs: &[Need])
    ensures { seen window.new into.new ≡ behind (seen window.old into.old) (flat_map need_spelling needs.now) }
{
    for need in needs {
        put_need(window, into, need);
    }
}

/// Puts what a profile asks for.
#[tactic(auto, using(crate::proofs::WindowLemmas::put_two))]
pub(crate) fn put_needs(window: &mut Window, into: &mut [u8], needs: &[Need])
    ensures { seen window.new into.new ≡ behind (seen window.old into.old) (needs_spelling needs.now) }
{
    window.put_number(into, 1, needs.len() as u64);
    put_each_need(window, into, needs);
}

#[tactic(auto, using(crate::proofs::WindowLemmas::put_two, crate::proofs::WindowLemmas::put_end))]
fn put_pair(window: &mut Window, into: &mut [u8], key: &Key, note: &Note)
    ensures { seen window.new into.new ≡ behind (seen window.old into.old) (pair_spelling (key.now, note.now)) }
{
    put_text(window, into, key.items());
    put_text(window, into, note.items());
}

fn put_pair_at(window: &mut Window, into: &mut [u8], pairs: &PairList, i: u32)
    ensures { (pair : List ℕ × List ℕ) → slice_get pairs.now i ≡ Some pair → seen window.new into.new ≡ behind (seen window.old into.old) (pair_spelling pair) }
{
    if let Some((key, note)) = pairs.at(i) {
        put_pair(window, into, key, note);
    }
}

fn put_each_pair(window: &mut Window, into: &mut [u8], pairs: &PairList)
    ensures { seen window.new into.new ≡ behind (seen window.old into.old) (flat_map pair_spelling pairs.now) }
{
    for i in 0..pairs.len() {
        put_pair_at(window, into, pairs, i);
    }
}

/// Puts metadata.
#[tactic(auto, using(crate::proofs::WindowLemmas::put_two))]
pub(crate) fn put_metadata(window: &mut Window, into: &mut [u8], pairs: &PairList)
    ensures { seen window.new into.new ≡ behind (seen window.old into.old) (metadata_spelling pairs.now) }
{
    window.put_number(into, 1, pairs.len() as u64);
    put_each_pair(window, into, pairs);
}

fn place_number(place: Option<Place>) -> u32
    ensures { be_bytes 4 result ≡ place_spelling (option_map (λ p. p.0) place) }
{
    match place {
        Some(place) => place.0,
        None => u32::MAX,
    }
}

/// Puts an entry.
#[tactic(auto, using(crate::proofs::WindowLemmas::put_two, crate::proofs::WindowLemmas::put_end))]
pub(crate) fn put_entry(window: &mut Window, into: &mut [u8], entry: &Entry)
    ensures { seen window.new into.new ≡ behind (seen window.old into.old) (entry_spelling (seen_entry entry.now)) }
{
    window.put_number(into, 4, place_number(entry.place) as u64);
    window.put_number(into, 8, entry.stamp);
}

/// The number of a type.
pub(crate) fn type_number(vtype: VvolType) -> u64
    ensures { result ≡ type_number vtype }
{
    match vtype {
        VvolType::Config => 0,
        VvolType::Data => 1,
        VvolType::Swap => 2,
        VvolType::Memory => 3,
        VvolType::Other => 4,
    }
}
