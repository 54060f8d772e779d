//! The events that are planned: at the lowest places that no entry names.
ghost use Rattle.std.specs.Prelude.{◌≡◌, ◌≤◌, ◌<◌, ◌+◌, ◌^◌, ◌++◌, ℕ, [], ◌∷◌, slice_index, false, map, take, length, None, IsTrue, IfOk, OnOk};
ghost use Rattle.vv_units.specs.declared.numbers.Place.{Place as place};
ghost use Rattle.vv_flat.specs.Chunks.{Entry as SeenEntry, shape_of_tables};
ghost use Rattle.vv_flat.specs.Refusals.{Accept};
ghost use Rattle.vv_flat.specs.Changes.{Write, Turn, judge, changed_indexes};
ghost use Rattle.vv_flat.specs.Fields.{change_has_forms};
ghost use Rattle.vv_flat.specs.Plans.{fresh_places};
ghost use Rattle.vv_record.specs.declared.record.ChunkCopy.{ChunkCopy as copy};
ghost use Rattle.vv_record.specs.Spelling.{is_spellable};
ghost use Rattle.vv_event.specs.Events.{change_of, places_of, indexes_of};
ghost use Rattle.vv_core.specs.Placed.{IsPlacedEvent};

use crate::turns::turn_indexes;
use std::alloc::Global;
use vv_judge::touched_chunks;
use vv_record::{ChunkCopy, CopyList, Event, PlaceList};
use vv_tables::Tables;
use vv_units::{NoMemory, Place, TaskId, VolumeId};

/// The event of a write of these blocks, at the lowest places that no entry names. It is accepted.
pub(crate) fn write_event(
    alloc: Global,
    tables: &Tables,
    volume: VolumeId,
    first_block: u64,
    blocks: u32,
) -> Result<Event, NoMemory>
    requires accepted { judge None (shape_of_tables tables.now.durable) (Write volume.0 first_block blocks) ≡ Accept }
    requires few { blocks ≤ 2048 }
    ensures { IfOk result (λ event. IsPlacedEvent tables.now.durable (Write volume.0 first_block blocks) event) }
{
    let _well_formed = tables.lsn();
    is_wide(volume.0);
    let count = touched_chunks(tables, volume, first_block, blocks);
    let places = lowest_places(alloc, tables, count)?;
    Ok(Event::Write {
        volume,
        first_block,
        blocks,
        places: PlaceList::of(places),
    })
}

/// The event of a turn of a task, which is accepted: with a copy for each index that it copies, at the lowest places.
pub(crate) fn turn_event(alloc: Global, tables: &Tables, task: TaskId) -> Result<Event, NoMemory>
    requires accepted { judge None (shape_of_tables tables.now.durable) (Turn task.0) ≡ Accept }
    ensures { IfOk result (λ event. IsPlacedEvent tables.now.durable (Turn task.0) event) }
{
    let _well_formed = tables.lsn();
    is_wide(task.0);
    let indexes = turn_indexes(alloc, tables, task)?;
    are_wide(&indexes);
    let places = lowest_places(alloc, tables, indexes.len() as u32)?;
    let copies = copies_of(alloc, &indexes, &places)?;
    Ok(Event::Turn {
        task,
        copies: CopyList::of(copies),
    })
}

/// Says of an event that takes no place, and is accepted, that it is planned. It does nothing.
pub(crate) fn is_placed(tables: &Tables, event: &Event)
    requires accepted { judge None (shape_of_tables tables.now.durable) (change_of event.now) ≡ Accept }
    requires none { changed_indexes (λ (e : SeenEntry). e.stamp) tables.now.durable (change_of event.now) ≡ [] }
    requires places { places_of event.now ≡ [] }
    requires indexes { indexes_of event.now ≡ [] }
    requires forms { IsTrue (change_has_forms (change_of event.now)) }
    requires spellable { IsTrue (is_spellable (record { first_after_open = false; event = event.now })) }
    ensures { IsPlacedEvent tables.now.durable (change_of event.now) event.now }
{
    let _well_formed = tables.lsn();
    let _event = event;
}

/// Says of a number that it has 64 bits. It does nothing.
fn is_wide(number: u64)
    ensures { number < 2 ^ 64 }
{
    let _number = number;
}

/// Says of each number of a list that it has 32 bits. It does nothing.
fn are_wide(numbers: &[u32])
    ensures { (k : ℕ) → slice_index numbers.now k < 2 ^ 32 }
{
    let _numbers = numbers;
}

/// The number behind a place of the pool.
fn behind(tables: &Tables, place: Place) -> u32
    requires { place.0 < tables.now.durable.geometry.pool_chunks }
    ensures { result ≡ place.0 + 1 }
{
    let _sizes = tables.geometry();
    place.0 + 1
}

/// The lowest places that no entry names, as many as this, or all where there are fewer.
fn lowest_places(alloc: Global, tables: &Tables, count: u32) -> Result<Vec<Place>, NoMemory>
    ensures { IfOk result (λ places. map (λ (p : place). p.0) places.items ≡ take count (fresh_places tables.now.durable)) }
{
    let mut places = Vec::new(alloc);
    let mut from = 0;
    for _ in 0..count {
        let Some(place) = tables.lowest_fresh(from) else {
            return Ok(places);
        };
        add(&mut places, place)?;
        from = behind(tables, place);
    }
    Ok(places)
}

/// A copy for each index, at the place that comes with it.
fn copies_of(alloc: Global, indexes: &[u32], places: &[Place]) -> Result<Vec<ChunkCopy>, NoMemory>
    requires { length indexes.now ≡ length places.now }
    ensures indexes { IfOk result (λ copies. map (λ (c : copy). c.index) copies.items ≡ indexes.now) }
    ensures places { IfOk result (λ copies. map (λ (c : copy). c.place.0) copies.items ≡ map (λ (p : place). p.0) places.now) }
{
    let mut copies = Vec::new(alloc);
    for at in 0..indexes.len() {
        let copy = ChunkCopy {
            index: indexes[at],
            place: places[at],
        };
        add(&mut copies, copy)?;
    }
    Ok(copies)
}

/// Puts an item behind the others.
fn add<T: Drop>(items: &mut Vec<T>, item: T) -> Result<(), NoMemory>
    ensures { OnOk result (items.new.items ≡ items.old.items ++ item ∷ []) }
{
    items.push(item).map_err(|_| NoMemory)
}
