//! What is done with the data of a command.
ghost use Rattle.std.specs.Prelude.{ℕ, ◌≡◌, ◌+◌, ◌≤◌, ◌^◌, ◌++◌, true, List, IfOk, OnOk, map};
ghost use Rattle.vv_flat.specs.Chunks.{whole_chunks, unmap_ranges};
ghost use Rattle.vv_meaning.specs.Commands.{ended, deed_of, clears_attention};
ghost use Rattle.vv_plan.specs.CommandAsks.{pair_of, unless_empty, deed_asked, clears_asked, are_low, is_low};

use std::alloc::Global;
use vv_cdb::{Sense, Unmaps};
use vv_lun::Action;
use vv_record::{ChunkRange, RangeList};
use vv_reply::{Reply, ScsiReply};
use vv_units::{Geometry, ItemList, NoMemory, VolumeId};

/// What a command asks for: it is answered, or so many blocks of a volume from the first on are read, or a change is asked
/// for. A write brings the bytes that came with the command, one block as often as there are blocks, or the half behind that
/// with which the blocks are to compare.
#[derive(Drop)]
pub enum CommandAsk {
    /// Where `clears` is true, the unit attention at the command's address is cleared.
    Answer {
        reply: Reply,
        clears: bool,
    },
    Read {
        volume: VolumeId,
        first: u64,
        blocks: u32,
    },
    Write {
        volume: VolumeId,
        first: u64,
        blocks: u32,
    },
    Same {
        volume: VolumeId,
        first: u64,
        blocks: u32,
    },
    Compare {
        volume: VolumeId,
        first: u64,
        blocks: u32,
    },
    /// Whole chunks are unmapped.
    Unmap {
        volume: VolumeId,
        ranges: RangeList,
    },
}

/// The chunks that a descriptor of an UNMAP covers wholly.
fn whole_chunks(geometry: Geometry, first: u64, blocks: u32) -> ChunkRange
    requires { first + blocks ≤ 2 ^ 31 }
    ensures { pair_of result ≡ whole_chunks geometry.chunk_blocks first blocks }
{
    let size = u64::from(geometry.chunk_blocks);
    let from = (first + size - 1) / size;
    let end = (first + u64::from(blocks)) / size;
    ChunkRange {
        first_chunk: from as u32,
        chunks: end.saturating_sub(from) as u32,
    }
}

/// Adds a range that isn't empty.
fn add_range(ranges: &mut Vec<ChunkRange>, range: ChunkRange) -> Result<(), NoMemory>
    ensures { OnOk result (ranges.new.items ≡ ranges.old.items ++ unless_empty range) }
{
    if range.chunks == 0 {
        return Ok(());
    }
    ranges.push(range).map_err(|_| NoMemory)
}

/// The ranges of whole chunks that the descriptors of an UNMAP cover, without the empty ones.
fn unmap_ranges(alloc: Global, geometry: Geometry, unmaps: &Unmaps) -> Result<RangeList, NoMemory>
    requires { are_low unmaps.now ≡ true }
    ensures { IfOk result (λ ranges. map pair_of ranges ≡ unmap_ranges geometry.chunk_blocks unmaps.now) }
{
    let _count = unmaps.len();
    let mut ranges = Vec::new(alloc);
    let mut i = 0;
    while let Some((first, number)) = unmaps.at(i) {
        add_range(&mut ranges, whole_chunks(geometry, first, number))?;
        i += 1;
    }
    Ok(ItemList::of(ranges))
}

/// How a command ends that is answered with bytes or with a sense.
fn ended(alloc: Global, bytes: &[u8], sense: Option<Sense>) -> Result<Reply, NoMemory>
    ensures { IfOk result (λ reply. reply ≡ ended bytes.now sense) }
{
    let status = if sense.is_some() { 0x02 } else { 0x00 };
    let payload = Vec::from_slice(alloc, bytes).map_err(|_| NoMemory)?;
    Ok(Reply::Scsi(ScsiReply {
        status,
        sense,
        cause: None,
        payload: ItemList::of(payload),
    }))
}

/// What is asked for by what a unit does with a command. The volume is that whose blocks are moved.
pub(crate) fn ask_for(
    alloc: Global,
    geometry: Geometry,
    volume: VolumeId,
    action: Action,
) -> Result<CommandAsk, NoMemory>
    requires { is_low action ≡ true }
    ensures deed { IfOk result (λ ask. (payload : List ℕ) → deed_asked payload ask ≡ deed_of geometry.chunk_blocks volume.0 payload action) }
    ensures clears { IfOk result (λ ask. clears_asked ask ≡ clears_attention action) }
{
    let ask = match action {
        Action::Reply {
            bytes,
            sense,
            clears,
        } => CommandAsk::Answer {
            reply: ended(alloc, bytes.items(), sense)?,
            clears,
        },
        Action::Read { first, blocks } => CommandAsk::Read {
            volume,
            first,
            blocks,
        },
        Action::Write { first, blocks } => CommandAsk::Write {
            volume,
            first,
            blocks,
        },
        Action::Same { first, blocks } => CommandAsk::Same {
            volume,
            first,
            blocks,
        },
        Action::Compare { first, blocks } => CommandAsk::Compare {
            volume,
            first,
            blocks,
        },
        Action::Unmap(unmaps) => CommandAsk::Unmap {
            volume,
            ranges: unmap_ranges(alloc, geometry, &unmaps)?,
        },
    };
    Ok(ask)
}
