//! The lists of a volume are read: its metadata and its entries.
ghost use Rattle.std.specs.Prelude.{◌≡◌, []};
ghost use Rattle.vv_record.specs.Reading.{Gives, GivesSeen, items};
ghost use Rattle.vv_area.specs.Forms as form;
ghost use Rattle.vv_area.specs.Places.{place_number};

use crate::rows::{ChunkEntry, EntryList, PairRows};
use std::alloc::Global;
use vv_record::{Fields, RecordFault};
use vv_units::{ItemList, Key, Note, Place};

/// The number in place of the place where there is none.
const NO_PLACE: u32 = u32::MAX;

/// The metadata of a volume or of a running clone.
#[tactic(auto, unfolding(crate::specs::Forms::metadata))]
pub fn metadata_pairs(
    alloc: Global,
    spelling: u8,
    fields: &mut Fields,
) -> Result<PairRows, RecordFault>
    ensures { Gives result fields.new (form.metadata spelling fields.old) }
{
    let count = fields.u8_within(0, most_pairs(spelling))?;
    let pairs = pair_items(alloc, count, fields)?;
    Ok(ItemList::of(pairs))
}

fn most_pairs(spelling: u8) -> u8
    ensures { result ≡ form.most_pairs spelling }
{
    if spelling == 1 { 16 } else { 64 }
}

fn pair_items(
    alloc: Global,
    count: u8,
    fields: &mut Fields,
) -> Result<Vec<(Key, Note)>, RecordFault>
    ensures { GivesSeen (λ v. v.items) result fields.new (items form.pair count [] fields.old) }
{
    let mut pairs = Vec::new(alloc);
    for _ in 0..count {
        let next = pair(alloc, &pairs, fields)?;
        pairs.push(next)?;
    }
    Ok(pairs)
}

#[tactic(auto, unfolding(crate::specs::Forms::pair))]
fn pair(
    alloc: Global,
    before: &[(Key, Note)],
    fields: &mut Fields,
) -> Result<(Key, Note), RecordFault>
    ensures { Gives result fields.new (form.pair before.now fields.old) }
{
    let key = other_key(alloc, before, fields)?;
    let note = fields.note(alloc)?;
    Ok((key, note))
}

/// A key that no pair has.
#[tactic(auto, unfolding(crate::specs::Forms::other_key, vv_record::specs::Reading::allowed))]
fn other_key(alloc: Global, before: &[(Key, Note)], fields: &mut Fields) -> Result<Key, RecordFault>
    ensures { Gives result fields.new (form.other_key before.now fields.old) }
{
    let length = fields.u8_within(1, 32)?;
    let at = fields.at();
    let key = key_bytes(alloc, length, fields)?;
    if pairs_have(before, key.items()) {
        return Err(RecordFault::Bad { at });
    }
    Ok(key)
}

/// So many bytes that are a key.
#[tactic(auto, unfolding(crate::specs::Forms::key_bytes, vv_record::specs::Reading::allowed))]
fn key_bytes(alloc: Global, length: u8, fields: &mut Fields) -> Result<Key, RecordFault>
    ensures { Gives result fields.new (form.key_bytes length fields.old) }
{
    let at = fields.at();
    let text = fields.bytes(length as usize)?;
    match Key::read(alloc, text)? {
        Some(key) => Ok(key),
        None => Err(RecordFault::Bad { at }),
    }
}

fn pairs_have(pairs: &[(Key, Note)], key: &[u8]) -> bool
    ensures { result ≡ form.pairs_have pairs.now key.now }
{
    pairs.iter().any(|pair| pair.0.items() == key)
}

#[tactic(auto, unfolding(crate::specs::Forms::entries))]
pub(crate) fn entries(alloc: Global, fields: &mut Fields) -> Result<EntryList, RecordFault>
    ensures { Gives result fields.new (form.entries fields.old) }
{
    let count = fields.u32()?;
    let entries = entry_items(alloc, count, fields)?;
    Ok(ItemList::of(entries))
}

fn entry_items(
    alloc: Global,
    count: u32,
    fields: &mut Fields,
) -> Result<Vec<ChunkEntry>, RecordFault>
    ensures { GivesSeen (λ v. v.items) result fields.new (items (λ before. form.entry) count [] fields.old) }
{
    let mut entries = Vec::new(alloc);
    for _ in 0..count {
        let next = entry(fields)?;
        entries.push(next)?;
    }
    Ok(entries)
}

/// An entry of a list of chunks.
#[tactic(auto, unfolding(crate::specs::Forms::entry))]
pub fn entry(fields: &mut Fields) -> Result<ChunkEntry, RecordFault>
    ensures { Gives result fields.new (form.entry fields.old) }
{
    let place = place(fields)?;
    let stamp = fields.u64()?;
    Ok(ChunkEntry { place, stamp })
}

#[tactic(auto, unfolding(crate::specs::Forms::place_field))]
fn place(fields: &mut Fields) -> Result<Option<Place>, RecordFault>
    ensures { GivesSeen place_number result fields.new (form.place_field fields.old) }
{
    let number = fields.u32()?;
    Ok(place_numbered(number))
}

fn place_numbered(number: u32) -> Option<Place>
    ensures { place_number result ≡ form.place_numbered number }
{
    if number == NO_PLACE {
        None
    } else {
        Some(Place(number))
    }
}
