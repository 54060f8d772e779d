//! The bitmaps of volumes, and how many chunks are unshared.
ghost use Rattle.std.specs.Prelude.{◌≡◌, ◌+◌, ◌≤◌, false, replicate, IfOk, IfErr, IsSome, is_none, MatchResult};
ghost use Rattle.vv_units.specs.declared.field.Field.TheVariants as field;
ghost use Rattle.vv_flat.specs.State.{volume_of};
ghost use Rattle.vv_flat.specs.Chunks.{shape_of_tables};
ghost use Rattle.vv_flat.specs.Bits.{allocated_bits, unshared_bits, unshared_count, bits_within};
ghost use Rattle.vv_flat.specs.Changes.{stamps_of, size_of};
ghost use Rattle.vv_reply.specs.declared.reply.Answer.TheVariants.{Bits, Count};
ghost use Rattle.vv_reply.specs.declared.reply.Reply.TheVariants.{Done, Refused};
ghost use Rattle.vv_reply.specs.declared.reply.Refusal.TheVariants.{InvalidArgument};
ghost use Rattle.vv_meaning.specs.Calls.{if_stands, bits_asked};
ghost use Rattle.vv_plan.specs.BitRanges.{range_asked};

use crate::queries::not_found;
use std::alloc::Global;
use vv_reply::{Answer, BitList, Refusal, Reply};
use vv_tables::Tables;
use vv_units::{Field, ItemList, NoMemory, VolumeId};

/// Which bits are asked for: so many from a first one on.
#[derive(Clone, Copy)]
pub(crate) struct BitRange {
    pub(crate) first: u32,
    pub(crate) count: u32,
}

/// The bits that are asked for of so many, or the field that is past the end.
fn range_asked(size: u32, first: Option<u32>, count: Option<u32>) -> Result<BitRange, Field>
    ensures { result ≡ range_asked size first count }
{
    let first = first.unwrap_or(0);
    if first > size {
        return Err(Field::First);
    }
    let rest = size - first;
    let count = count.unwrap_or(rest);
    if count > rest {
        return Err(Field::Count);
    }
    Ok(BitRange { first, count })
}

/// A field of the call is out of its range.
pub(crate) fn invalid(name: Field) -> Reply
    ensures { result ≡ Refused (InvalidArgument name) }
{
    Reply::Refused(Refusal::InvalidArgument { name })
}

/// Whether no volume has this number.
pub(crate) fn is_missing(tables: &Tables, id: VolumeId) -> bool
    ensures { result ≡ is_none (volume_of (shape_of_tables tables.now.durable) id.0) }
{
    match tables.volume(id) {
        Some(_) => false,
        None => true,
    }
}

/// So many clear bits.
fn clear_bits(alloc: Global, count: u32) -> Result<Vec<bool>, NoMemory>
    ensures { IfOk result (λ bits. bits.items ≡ replicate count false) }
{
    vec![in alloc; false; count as usize].map_err(|_| NoMemory)
}

/// Bits of a volume that stands: whether chunks are allocated.
fn allocated_within(
    alloc: Global,
    tables: &Tables,
    id: VolumeId,
    range: BitRange,
) -> Result<BitList, NoMemory>
    requires standing { is_none (volume_of (shape_of_tables tables.now.durable) id.0) ≡ false }
    requires within { range.first + range.count ≤ size_of (shape_of_tables tables.now.durable) id.0 }
    ensures { IfOk result (λ bits. bits ≡ bits_within range.first range.count (allocated_bits (stamps_of (shape_of_tables tables.now.durable) id.0))) }
{
    let mut bits = clear_bits(alloc, range.count)?;
    vv_bitmap::allocated(tables.shelf(), id, range.first, &mut bits);
    Ok(ItemList::of(bits))
}

/// Bits of a volume that stands: whether chunks are unshared against a base that stands.
fn unshared_within(
    alloc: Global,
    tables: &Tables,
    id: VolumeId,
    base: VolumeId,
    range: BitRange,
) -> Result<BitList, NoMemory>
    requires standing { is_none (volume_of (shape_of_tables tables.now.durable) id.0) ≡ false }
    requires base_standing { is_none (volume_of (shape_of_tables tables.now.durable) base.0) ≡ false }
    requires within { range.first + range.count ≤ size_of (shape_of_tables tables.now.durable) id.0 }
    ensures { IfOk result (λ bits. bits ≡ bits_within range.first range.count (unshared_bits (stamps_of (shape_of_tables tables.now.durable) id.0) (stamps_of (shape_of_tables tables.now.durable) base.0))) }
{
    let mut bits = clear_bits(alloc, range.count)?;
    vv_bitmap::unshared(tables.shelf(), id, base, range.first, &mut bits);
    Ok(ItemList::of(bits))
}

/// Which chunks of a volume are allocated, from a first one on. The reply is NotFound where the volume doesn't stand, and
/// InvalidArgument where the first one or the number is past its end.
pub fn allocated_bitmap(
    alloc: Global,
    tables: &Tables,
    id: VolumeId,
    first: Option<u32>,
    count: Option<u32>,
) -> Result<Reply, NoMemory>
    ensures { IfOk result (λ reply. reply ≡ if_stands (shape_of_tables tables.now.durable) id.0 field.Vvol
        (bits_asked (allocated_bits (stamps_of (shape_of_tables tables.now.durable) id.0)) first count)) }
{
    if is_missing(tables, id) {
        return Ok(not_found(Field::Vvol));
    }
    match range_asked(tables.size(id), first, count) {
        Ok(range) => {
            let bits = allocated_within(alloc, tables, id, range)?;
            Ok(Reply::Done(Answer::Bits { bits }))
        }
        Err(name) => Ok(invalid(name)),
    }
}

/// The bits that are asked for of a volume that stands: whether chunks are unshared against a base that stands.
fn unshared_from(
    alloc: Global,
    tables: &Tables,
    id: VolumeId,
    base: VolumeId,
    first: Option<u32>,
    count: Option<u32>,
) -> Result<Reply, NoMemory>
    requires standing { is_none (volume_of (shape_of_tables tables.now.durable) id.0) ≡ false }
    requires base_standing { is_none (volume_of (shape_of_tables tables.now.durable) base.0) ≡ false }
    ensures { IfOk result (λ reply. reply ≡ bits_asked (unshared_bits (stamps_of (shape_of_tables tables.now.durable) id.0) (stamps_of (shape_of_tables tables.now.durable) base.0)) first count) }
{
    match range_asked(tables.size(id), first, count) {
        Ok(range) => {
            let bits = unshared_within(alloc, tables, id, base, range)?;
            Ok(Reply::Done(Answer::Bits { bits }))
        }
        Err(name) => Ok(invalid(name)),
    }
}

/// Which chunks of a volume are unshared against a base, from a first one on. The reply is NotFound where one of both
/// doesn't stand, and InvalidArgument where the first one or the number is past the volume's end.
pub fn unshared_bitmap(
    alloc: Global,
    tables: &Tables,
    id: VolumeId,
    base: VolumeId,
    first: Option<u32>,
    count: Option<u32>,
) -> Result<Reply, NoMemory>
    ensures { IfOk result (λ reply. reply ≡ if_stands (shape_of_tables tables.now.durable) id.0 field.Vvol
        (if_stands (shape_of_tables tables.now.durable) base.0 field.Base
        (bits_asked (unshared_bits (stamps_of (shape_of_tables tables.now.durable) id.0) (stamps_of (shape_of_tables tables.now.durable) base.0)) first count))) }
{
    if is_missing(tables, id) {
        return Ok(not_found(Field::Vvol));
    }
    if is_missing(tables, base) {
        return Ok(not_found(Field::Base));
    }
    unshared_from(alloc, tables, id, base, first, count)
}

/// How many chunks of a volume that stands are unshared against a base that stands.
pub(crate) fn count_unshared(tables: &Tables, id: VolumeId, base: VolumeId) -> u32
    requires standing { is_none (volume_of (shape_of_tables tables.now.durable) id.0) ≡ false }
    requires base_standing { is_none (volume_of (shape_of_tables tables.now.durable) base.0) ≡ false }
    ensures { result ≡ unshared_count (stamps_of (shape_of_tables tables.now.durable) id.0) (stamps_of (shape_of_tables tables.now.durable) base.0) }
{
    vv_bitmap::unshared_count(tables.shelf(), id, base)
}

/// How many chunks of a volume are unshared against a base. The reply is NotFound where one of both doesn't stand.
pub fn unshared_chunks(tables: &Tables, id: VolumeId, base: VolumeId) -> Reply
    ensures { result ≡ if_stands (shape_of_tables tables.now.durable) id.0 field.Vvol
        (if_stands (shape_of_tables tables.now.durable) base.0 field.Base
        (Done (Count (unshared_count (stamps_of (shape_of_tables tables.now.durable) id.0) (stamps_of (shape_of_tables tables.now.durable) base.0))))) }
{
    if is_missing(tables, id) {
        return not_found(Field::Vvol);
    }
    if is_missing(tables, base) {
        return not_found(Field::Base);
    }
    Reply::Done(Answer::Count {
        count: count_unshared(tables, id, base),
    })
}
