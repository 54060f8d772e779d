//! What commands to logical units are planned to do.
ghost use Rattle.std.specs.Prelude.{ℕ, ◌≡◌, ◌≤◌, List, [], None, true, map, IfOk, IfErr};
ghost use Rattle.vv_flat.specs.State.{QueuedCommand};
ghost use Rattle.vv_flat.specs.Chunks.{shape_of_tables};
ghost use Rattle.vv_flat.specs.Profiles.{Capability};
ghost use Rattle.vv_flat.specs.Refusals.{Accept};
ghost use Rattle.vv_flat.specs.Changes.{Write, Unmap, judge};
ghost use Rattle.vv_meaning.specs.Commands.{command_of, writes, commanded};
ghost use Rattle.vv_meaning.specs.Meaning.{verdict_on};
ghost use Rattle.vv_plan.specs.CommandAsks.{deed_asked, unmaps_ranges, pair_of};
ghost use Rattle.vv_plan.specs.FitDeeds.{is_fit, is_fit_change};
ghost use Rattle.vv_plan.specs.SeenArrays.{seen_array};
ghost use Rattle.vv_profile.specs.Known.{all_known};
ghost use Rattle.vv_reply.specs.declared.reply.Refusal.TheVariants as fault;
ghost use Rattle.vv_core.specs.Plans.{bytes_filled, image_filling, blocks_compared};
ghost use Rattle.vv_core.specs.PlannedDeeds.{IsDeedPlanned, IsDeedRefused};

use crate::event_forms::has_forms;
use crate::judging::verdict_on;
use crate::placing::{is_placed, write_event};
use crate::planned::{Fill, Planned};
use crate::settling::{good, settle, told_to_command};
use std::alloc::Global;
use vv_calls::ScsiCall;
use vv_judge::Verdict;
use vv_lun::Attentions;
use vv_plan::{CommandAsk, commanded};
use vv_profile::Capabilities;
use vv_record::{Event, RangeList};
use vv_reply::Refusal;
use vv_tables::Tables;
use vv_units::{ItemList, VolumeId};

/// A write of blocks: where they are, what fills them, and whether those that stand are compared first.
#[derive(Clone, Copy)]
struct BlockWrite {
    volume: VolumeId,
    first: u64,
    blocks: u32,
    fill: Fill,
    compare: bool,
}

impl BlockWrite {
    /// A write of so many blocks of a volume from the first on.
    fn of(volume: VolumeId, first: u64, blocks: u32, fill: Fill, compare: bool) -> BlockWrite
        ensures { result ≡ record { volume = volume; first = first; blocks = blocks; fill = fill; compare = compare } }
    {
        BlockWrite {
            volume,
            first,
            blocks,
            fill,
            compare,
        }
    }
}

/// What a command is planned to do that is done at once.
pub(crate) fn plan_command(
    alloc: Global,
    tables: &Tables,
    attentions: &Attentions,
    capabilities: &Capabilities,
    command: &ScsiCall,
) -> Result<Planned, Refusal>
    ensures planned { (queues : List (List QueuedCommand)) → IfOk result (IsDeedPlanned (all_known capabilities.now) tables.now.durable
        (commanded (seen_array tables.now queues attentions.now) (command_of command.now)).deed command.now.payload) }
    ensures refused { (queues : List (List QueuedCommand)) → IfErr result (IsDeedRefused (all_known capabilities.now) tables.now.durable
        (commanded (seen_array tables.now queues attentions.now) (command_of command.now)).deed) }
{
    let Ok(ask) = commanded(alloc, tables, attentions, command) else {
        return Err(Refusal::NoMemory);
    };
    plan_ask(alloc, tables, capabilities, ask)
}

/// What is planned where a command asks for this.
fn plan_ask(
    alloc: Global,
    tables: &Tables,
    capabilities: &Capabilities,
    ask: CommandAsk,
) -> Result<Planned, Refusal>
    requires { is_fit (shape_of_tables tables.now.durable) (deed_asked [] ask) ≡ true }
    ensures planned { (payload : List ℕ) → IfOk result (IsDeedPlanned (all_known capabilities.now) tables.now.durable (deed_asked payload ask) payload) }
    ensures refused { (payload : List ℕ) → IfErr result (IsDeedRefused (all_known capabilities.now) tables.now.durable (deed_asked payload ask)) }
{
    match ask {
        CommandAsk::Answer { reply, clears: _ } => settle(reply),
        CommandAsk::Read {
            volume,
            first,
            blocks,
        } => Ok(Planned::Read {
            volume,
            first,
            blocks,
        }),
        CommandAsk::Write {
            volume,
            first,
            blocks,
        } => {
            let write = BlockWrite::of(volume, first, blocks, Fill::Bytes, false);
            plan_write(alloc, tables, capabilities, write)
        }
        CommandAsk::Same {
            volume,
            first,
            blocks,
        } => {
            let write = BlockWrite::of(volume, first, blocks, Fill::Same, false);
            plan_write(alloc, tables, capabilities, write)
        }
        CommandAsk::Compare {
            volume,
            first,
            blocks,
        } => {
            let write = BlockWrite::of(volume, first, blocks, Fill::Bytes, true);
            plan_write(alloc, tables, capabilities, write)
        }
        CommandAsk::Unmap { volume, ranges } => {
            plan_unmap(alloc, tables, capabilities, volume, ranges)
        }
    }
}

/// What is planned where a command asks to write blocks.
fn plan_write(
    alloc: Global,
    tables: &Tables,
    capabilities: &Capabilities,
    write: BlockWrite,
) -> Result<Planned, Refusal>
    requires few { write.blocks ≤ 2048 }
    requires image { image_filling write.fill ≡ None }
    ensures planned { (payload : List ℕ) → IfOk result (IsDeedPlanned (all_known capabilities.now) tables.now.durable
        (writes write.volume.0 write.first write.blocks (bytes_filled write.fill write.compare write.blocks payload) (blocks_compared write.compare write.blocks payload)) payload) }
    ensures refused { (payload : List ℕ) → IfErr result (IsDeedRefused (all_known capabilities.now) tables.now.durable
        (writes write.volume.0 write.first write.blocks (bytes_filled write.fill write.compare write.blocks payload) (blocks_compared write.compare write.blocks payload))) }
{
    let event = Event::Write {
        volume: write.volume,
        first_block: write.first,
        blocks: write.blocks,
        places: ItemList::of(Vec::new(alloc)),
    };
    match verdict_on(tables, capabilities, &event) {
        Verdict::Refuse(refusal) => Ok(Planned::Answer(told_to_command(alloc, refusal))),
        Verdict::Nothing => Ok(Planned::Answer(good(alloc))),
        Verdict::Accept => journal_write(alloc, tables, write),
    }
}

/// The plan of a write that is accepted.
fn journal_write(alloc: Global, tables: &Tables, write: BlockWrite) -> Result<Planned, Refusal>
    requires few { write.blocks ≤ 2048 }
    requires image { image_filling write.fill ≡ None }
    requires accepted { judge None (shape_of_tables tables.now.durable) (Write write.volume.0 write.first write.blocks) ≡ Accept }
    ensures planned { (capabilities : List Capability) (payload : List ℕ) → verdict_on capabilities (shape_of_tables tables.now.durable) (Write write.volume.0 write.first write.blocks) ≡ Accept
        → IfOk result (IsDeedPlanned capabilities tables.now.durable
        (writes write.volume.0 write.first write.blocks (bytes_filled write.fill write.compare write.blocks payload) (blocks_compared write.compare write.blocks payload)) payload) }
    ensures refused { IfErr result (λ refusal. refusal ≡ fault.NoMemory) }
{
    let Ok(event) = write_event(alloc, tables, write.volume, write.first, write.blocks) else {
        return Err(Refusal::NoMemory);
    };
    Ok(Planned::Journal {
        event,
        fill: write.fill,
        compare: write.compare,
        reply: good(alloc),
    })
}

/// What is planned where a command asks to unmap ranges.
fn plan_unmap(
    alloc: Global,
    tables: &Tables,
    capabilities: &Capabilities,
    volume: VolumeId,
    ranges: RangeList,
) -> Result<Planned, Refusal>
    requires { is_fit_change (Unmap volume.0 (map pair_of ranges)) ≡ true }
    ensures planned { (payload : List ℕ) → IfOk result (IsDeedPlanned (all_known capabilities.now) tables.now.durable (unmaps_ranges volume.0 (map pair_of ranges)) payload) }
    ensures refused { IfErr result (IsDeedRefused (all_known capabilities.now) tables.now.durable (unmaps_ranges volume.0 (map pair_of ranges))) }
{
    let event = Event::Unmap { volume, ranges };
    match verdict_on(tables, capabilities, &event) {
        Verdict::Refuse(refusal) => Ok(Planned::Answer(told_to_command(alloc, refusal))),
        Verdict::Nothing => Ok(Planned::Answer(good(alloc))),
        Verdict::Accept => {
            has_forms(tables, &event);
            is_placed(tables, &event);
            Ok(Planned::Journal {
                event,
                fill: Fill::Nothing,
                compare: false,
                reply: good(alloc),
            })
        }
    }
}
