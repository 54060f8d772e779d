//! Whether the event of a record fits tables.
ghost use Rattle.std.specs.Prelude.{◌≡◌, ◌==◌, ◌&&◌, false, None, map, length, IsTrue, IfOk};
ghost use Rattle.std.specs.List.{list_all};
ghost use Rattle.vv_units.specs.declared.numbers.Place.{Place as place};
ghost use Rattle.vv_record.specs.declared.record.ChunkCopy.{ChunkCopy as chunk_copy};
ghost use Rattle.vv_flat.specs.Lists.{all_different};
ghost use Rattle.vv_flat.specs.Chunks.{Entry as SeenEntry, shape_of_tables};
ghost use Rattle.vv_flat.specs.Refusals.{Accept};
ghost use Rattle.vv_flat.specs.Changes.{Write, Turn, judge, changed_indexes};
ghost use Rattle.vv_flat.specs.Replay.{is_accepted, is_fresh};
ghost use Rattle.vv_flat.specs.Logs.{record_fits, has_turn_indexes};
ghost use Rattle.vv_event.specs.Events.{log_record, change_of};
ghost use Rattle.vv_core.specs.Replays.{are_so_many, are_its_places, has_its_places};

use crate::places::{are_different, are_fresh};
use crate::replaying::is_accepted;
use crate::turns::{are_copies_at, turn_indexes};
use std::alloc::Global;
use vv_record::{ChunkCopy, Event};
use vv_tables::Tables;
use vv_units::{NoMemory, Place, TaskId, VolumeId, touched};

/// Whether the event of a record without a mark fits: it is accepted, has a fresh place for each chunk that gets a new value,
/// no place twice, and is at the indexes of its turn.
pub(crate) fn event_fits(alloc: Global, tables: &Tables, event: &Event) -> Result<bool, NoMemory>
    ensures { IfOk result (λ fit. fit ≡ record_fits tables.now.durable (log_record (record { first_after_open = false; event = event.now }))) }
{
    if is_accepted(tables, event) {
        has_its_places(alloc, tables, event)
    } else {
        Ok(false)
    }
}

/// Whether an event that is accepted has the places that it needs, at the indexes of its turn.
#[tactic(auto, unfolding(crate::specs::Replays::has_its_places, vv_event::specs::Events::change_of, vv_event::specs::Events::places_of, vv_event::specs::Events::indexes_of, vv_flat::specs::Changes::changed_indexes))]
fn has_its_places(alloc: Global, tables: &Tables, event: &Event) -> Result<bool, NoMemory>
    requires { IsTrue (is_accepted (judge None (shape_of_tables tables.now.durable) (change_of event.now))) }
    ensures { IfOk result (λ fit. fit ≡ has_its_places tables.now.durable event.now) }
{
    match event {
        Event::Write {
            volume,
            first_block,
            blocks,
            places,
        } => write_has_its_places(
            alloc,
            tables,
            *volume,
            *first_block,
            *blocks,
            places.items(),
        ),
        Event::Turn { task, copies } => turn_has_its_places(alloc, tables, *task, copies.items()),
        Event::MakeContainer { .. } => Ok(true),
        Event::MakeVolume { .. } => Ok(true),
        Event::DeleteVolume { .. } => Ok(true),
        Event::GrowVolume { .. } => Ok(true),
        Event::SetMetadata { .. } => Ok(true),
        Event::Snapshot { .. } => Ok(true),
        Event::FastClone { .. } => Ok(true),
        Event::Revert { .. } => Ok(true),
        Event::Unmap { .. } => Ok(true),
        Event::SetEndpoints { .. } => Ok(true),
        Event::Bind { .. } => Ok(true),
        Event::Unbind { .. } => Ok(true),
        Event::UnbindAll { .. } => Ok(true),
        Event::StartClone { .. } => Ok(true),
        Event::StartCopy { .. } => Ok(true),
        Event::Cancel { .. } => Ok(true),
    }
}

/// Whether these are the places of an accepted write: one for each chunk that it touches.
fn write_has_its_places(
    alloc: Global,
    tables: &Tables,
    volume: VolumeId,
    first_block: u64,
    blocks: u32,
    places: &[Place],
) -> Result<bool, NoMemory>
    requires { IsTrue (is_accepted (judge None (shape_of_tables tables.now.durable) (Write volume.0 first_block blocks))) }
    ensures { IfOk result (λ fit. fit ≡ are_its_places tables.now.durable (Write volume.0 first_block blocks) (map (λ (p : place). p.0) places.now)) }
{
    let count = touched_chunks(tables, volume, first_block, blocks);
    are_so_many(alloc, tables, places, count as usize)
}

/// How many chunks an accepted write touches.
fn touched_chunks(tables: &Tables, volume: VolumeId, first_block: u64, blocks: u32) -> u32
    requires { IsTrue (is_accepted (judge None (shape_of_tables tables.now.durable) (Write volume.0 first_block blocks))) }
    ensures { result ≡ length (changed_indexes (λ (e : SeenEntry). e.stamp) tables.now.durable (Write volume.0 first_block blocks)) }
{
    let _well_formed = tables.lsn();
    let (_, count) = touched(first_block, blocks, tables.geometry().chunk_blocks);
    count
}

/// Whether these are the copies of a turn: at its indexes, and each at a place of its own.
fn turn_has_its_places(
    alloc: Global,
    tables: &Tables,
    task: TaskId,
    copies: &[ChunkCopy],
) -> Result<bool, NoMemory>
    ensures { IfOk result (λ fit. fit ≡ (are_its_places tables.now.durable (Turn task.0) (map (λ (c : chunk_copy). c.place.0) copies.now) && has_turn_indexes tables.now.durable (Turn task.0) (map (λ (c : chunk_copy). c.index) copies.now))) }
{
    let indexes = turn_indexes(alloc, tables, task)?;
    if !are_copies_at(copies, &indexes) {
        return Ok(false);
    }
    let places = places_of(alloc, copies)?;
    are_so_many(alloc, tables, &places, indexes.len())
}

/// The places of copies.
fn places_of(alloc: Global, copies: &[ChunkCopy]) -> Result<Vec<Place>, NoMemory>
    ensures { IfOk result (λ places. places.items ≡ map (λ (c : chunk_copy). c.place) copies.now) }
{
    let mut places = Vec::new(alloc);
    for copy in copies {
        places.push(copy.place).map_err(|_| NoMemory)?;
    }
    Ok(places)
}

/// Whether these are so many places, all different, and each one that a new chunk may take.
fn are_so_many(
    alloc: Global,
    tables: &Tables,
    places: &[Place],
    count: usize,
) -> Result<bool, NoMemory>
    ensures { IfOk result (λ fit. fit ≡ are_so_many tables.now.durable count (map (λ (p : place). p.0) places.now)) }
{
    if places.len() != count {
        return Ok(false);
    }
    if are_different(alloc, places)? {
        Ok(are_fresh(tables, places))
    } else {
        Ok(false)
    }
}
