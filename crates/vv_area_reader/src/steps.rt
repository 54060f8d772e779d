//! The steps in which an area is read.
ghost use Rattle.std.specs.Prelude.{◌≡◌, ◌∷◌, [], ◌++◌, IfOk};
ghost use Rattle.vv_record.specs.Reading.{GivesSeen};
ghost use Rattle.vv_flat.specs.State.{Durable};
ghost use Rattle.vv_flat.specs.Chunks.{Entry};
ghost use Rattle.vv_area_reader.specs.Progress.{come_to};
ghost use Rattle.vv_area_reader.specs.Steps as form;

use crate::begun::Begun;
use crate::heads::{clone_head, volume_head};
use crate::stage::Stage;
use std::alloc::Global;
use vv_area::{
    EntryList, PieceList, RawClone, RawCopy, RawTask, RawVolume, binding, container, context,
    entry, is_clone, is_running, piece, task,
};
use vv_record::{Fields, RecordFault};
use vv_units::{ItemList, NoMemory, TaskId};

/// Makes the step that comes next.
pub(crate) fn step(
    alloc: Global,
    spelling: u8,
    begun: &mut Begun,
    stage: Stage,
    fields: &mut Fields,
) -> Result<Stage, RecordFault>
    ensures { GivesSeen (come_to begun.new) result fields.new (form.step_at spelling begun.old stage fields.old) }
{
    match stage {
        Stage::Start => start(begun, fields),
        Stage::Containers { left } => next_container(alloc, begun, left, fields),
        Stage::Volumes { left } => next_volume(alloc, spelling, begun, left, fields),
        Stage::VolumeEntries {
            head,
            entries,
            left,
            volumes,
        } => next_volume_entry(begun, head, entries, left, volumes, fields),
        Stage::Contexts { left } => next_context(alloc, begun, left, fields),
        Stage::Bindings { left } => next_binding(begun, left, fields),
        Stage::Tasks { left } => next_task(begun, left, fields),
        Stage::Runs { next } => next_run(alloc, spelling, begun, next, fields),
        Stage::Image {
            head,
            entries,
            left,
            next,
        } => next_image_entry(alloc, begun, head, entries, left, next, fields),
        Stage::Target {
            head,
            entries,
            left,
            next,
        } => next_target_entry(begun, head, entries, left, next, fields),
        Stage::Pieces {
            number,
            pieces,
            left,
            next,
        } => next_piece(begun, number, pieces, left, next, fields),
    }
}

#[tactic(auto, unfolding(crate::specs::Steps::start_step))]
fn start(begun: &mut Begun, fields: &mut Fields) -> Result<Stage, RecordFault>
    ensures { GivesSeen (come_to begun.new) result fields.new (form.start_step begun.old fields.old) }
{
    let lsn = fields.u64()?;
    let count = fields.u8_within(1, 255)?;
    begun.lsn = lsn;
    Ok(Stage::Containers { left: count })
}

#[tactic(auto, unfolding(crate::specs::Steps::next_container, crate::specs::Steps::volume_count))]
fn next_container(
    alloc: Global,
    begun: &mut Begun,
    left: u8,
    fields: &mut Fields,
) -> Result<Stage, RecordFault>
    ensures { GivesSeen (come_to begun.new) result fields.new (form.container_step left begun.old fields.old) }
{
    if left == 0 {
        let count = fields.u16()?;
        return Ok(Stage::Volumes { left: count });
    }
    let next = container(alloc, &begun.containers, fields)?;
    begun.containers.push(next)?;
    Ok(Stage::Containers { left: left - 1 })
}

#[tactic(auto, unfolding(crate::specs::Steps::next_volume, crate::specs::Steps::context_count))]
fn next_volume(
    alloc: Global,
    spelling: u8,
    begun: &mut Begun,
    left: u16,
    fields: &mut Fields,
) -> Result<Stage, RecordFault>
    ensures { GivesSeen (come_to begun.new) result fields.new (form.volume_step spelling left begun.old fields.old) }
{
    if left == 0 {
        let count = fields.u8()?;
        return Ok(Stage::Contexts { left: count });
    }
    let head = volume_head(alloc, spelling, &begun.volumes, fields)?;
    let count = fields.u32()?;
    Ok(Stage::VolumeEntries {
        head,
        entries: ItemList::of(Vec::new(alloc)),
        left: count,
        volumes: left - 1,
    })
}

#[tactic(auto, unfolding(crate::specs::Steps::next_volume_entry))]
fn next_volume_entry(
    begun: &mut Begun,
    head: RawVolume,
    entries: EntryList,
    left: u32,
    volumes: u16,
    fields: &mut Fields,
) -> Result<Stage, RecordFault>
    ensures { GivesSeen (come_to begun.new) result fields.new (form.volume_entry_step head entries left volumes begun.old fields.old) }
{
    if left == 0 {
        begun.volumes.push(with_entries(head, entries))?;
        return Ok(Stage::Volumes { left: volumes });
    }
    let next = entry(fields)?;
    let entries = with_item(entries, next)?;
    Ok(Stage::VolumeEntries {
        head,
        entries,
        left: left - 1,
        volumes,
    })
}

/// The volume with these entries.
fn with_entries(head: RawVolume, entries: EntryList) -> RawVolume
    ensures { result ≡ record head { chunks = entries } }
{
    let mut volume = head;
    volume.entries = entries;
    volume
}

/// The list with one item more.
fn with_item<T: Drop>(list: ItemList<T>, item: T) -> Result<ItemList<T>, NoMemory>
    ensures { IfOk result (λ longer. longer ≡ list ++ item ∷ []) }
{
    let mut items = list.into_items();
    items.push(item).map_err(|_| NoMemory)?;
    Ok(ItemList::of(items))
}

#[tactic(auto, unfolding(crate::specs::Steps::next_context, crate::specs::Steps::binding_count))]
fn next_context(
    alloc: Global,
    begun: &mut Begun,
    left: u8,
    fields: &mut Fields,
) -> Result<Stage, RecordFault>
    ensures { GivesSeen (come_to begun.new) result fields.new (form.context_step left begun.old fields.old) }
{
    if left == 0 {
        let count = fields.u16()?;
        return Ok(Stage::Bindings { left: count });
    }
    let next = context(alloc, &begun.contexts, fields)?;
    begun.contexts.push(next)?;
    Ok(Stage::Contexts { left: left - 1 })
}

#[tactic(auto, unfolding(crate::specs::Steps::next_binding, crate::specs::Steps::task_count))]
fn next_binding(begun: &mut Begun, left: u16, fields: &mut Fields) -> Result<Stage, RecordFault>
    ensures { GivesSeen (come_to begun.new) result fields.new (form.binding_step left begun.old fields.old) }
{
    if left == 0 {
        let count = fields.u16()?;
        return Ok(Stage::Tasks { left: count });
    }
    let next = binding(&begun.bindings, fields)?;
    begun.bindings.push(next)?;
    Ok(Stage::Bindings { left: left - 1 })
}

#[tactic(auto, unfolding(crate::specs::Steps::next_task))]
fn next_task(begun: &mut Begun, left: u16, fields: &mut Fields) -> Result<Stage, RecordFault>
    ensures { GivesSeen (come_to begun.new) result fields.new (form.task_step left begun.old fields.old) }
{
    if left == 0 {
        return Ok(Stage::Runs { next: 0 });
    }
    let next = task(&begun.tasks, fields)?;
    begun.tasks.push(next)?;
    Ok(Stage::Tasks { left: left - 1 })
}

/// Begins what the task at a place holds, if it runs.
fn next_run(
    alloc: Global,
    spelling: u8,
    begun: &mut Begun,
    next: usize,
    fields: &mut Fields,
) -> Result<Stage, RecordFault>
    ensures { GivesSeen (come_to begun.new) result fields.new (form.run_step spelling next begun.old fields.old) }
{
    match begun.tasks.get(next) {
        Some(task) => begin_run(alloc, spelling, task, next + 1, fields),
        None => Ok(Stage::Runs { next }),
    }
}

/// Begins what a task holds, if it runs; `next` is the place behind it.
fn begin_run(
    alloc: Global,
    spelling: u8,
    task: &RawTask,
    next: usize,
    fields: &mut Fields,
) -> Result<Stage, RecordFault>
    ensures { (d : Durable Entry) → GivesSeen (come_to d) result fields.new (form.begin_run spelling task.now next d fields.old) }
{
    if !is_running(task) {
        return Ok(Stage::Runs { next });
    }
    if is_clone(task) {
        begin_clone(alloc, spelling, task.number, next, fields)
    } else {
        begin_copy(alloc, task.number, next, fields)
    }
}

#[tactic(auto, unfolding(crate::specs::Steps::begin_clone))]
fn begin_clone(
    alloc: Global,
    spelling: u8,
    number: TaskId,
    next: usize,
    fields: &mut Fields,
) -> Result<Stage, RecordFault>
    ensures { (d : Durable Entry) → GivesSeen (come_to d) result fields.new (form.begin_clone spelling number.0 next d fields.old) }
{
    let head = clone_head(alloc, spelling, number, fields)?;
    let count = fields.u32()?;
    Ok(Stage::Image {
        head,
        entries: ItemList::of(Vec::new(alloc)),
        left: count,
        next,
    })
}

#[tactic(auto, unfolding(crate::specs::Steps::begin_copy))]
fn begin_copy(
    alloc: Global,
    number: TaskId,
    next: usize,
    fields: &mut Fields,
) -> Result<Stage, RecordFault>
    ensures { (d : Durable Entry) → GivesSeen (come_to d) result fields.new (form.begin_copy number.0 next d fields.old) }
{
    let count = fields.u32()?;
    Ok(Stage::Pieces {
        number,
        pieces: ItemList::of(Vec::new(alloc)),
        left: count,
        next,
    })
}

#[tactic(auto, unfolding(crate::specs::Steps::next_image_entry, crate::specs::Steps::target_count))]
fn next_image_entry(
    alloc: Global,
    begun: &mut Begun,
    head: RawClone,
    entries: EntryList,
    left: u32,
    next: usize,
    fields: &mut Fields,
) -> Result<Stage, RecordFault>
    ensures { GivesSeen (come_to begun.new) result fields.new (form.image_step head entries left next begun.old fields.old) }
{
    if left == 0 {
        let count = fields.u32()?;
        return Ok(Stage::Target {
            head: with_image(head, entries),
            entries: ItemList::of(Vec::new(alloc)),
            left: count,
            next,
        });
    }
    let more = entry(fields)?;
    let entries = with_item(entries, more)?;
    Ok(Stage::Image {
        head,
        entries,
        left: left - 1,
        next,
    })
}

/// The running clone with this image.
fn with_image(head: RawClone, image: EntryList) -> RawClone
    ensures { result ≡ record head { image = image } }
{
    let mut clone = head;
    clone.image = image;
    clone
}

#[tactic(auto, unfolding(crate::specs::Steps::next_target_entry))]
fn next_target_entry(
    begun: &mut Begun,
    head: RawClone,
    entries: EntryList,
    left: u32,
    next: usize,
    fields: &mut Fields,
) -> Result<Stage, RecordFault>
    ensures { GivesSeen (come_to begun.new) result fields.new (form.target_step head entries left next begun.old fields.old) }
{
    if left == 0 {
        begun.clones.push(with_target(head, entries))?;
        return Ok(Stage::Runs { next });
    }
    let more = entry(fields)?;
    let entries = with_item(entries, more)?;
    Ok(Stage::Target {
        head,
        entries,
        left: left - 1,
        next,
    })
}

/// The running clone with this target.
fn with_target(head: RawClone, target: EntryList) -> RawClone
    ensures { result ≡ record head { target = target } }
{
    let mut clone = head;
    clone.target = target;
    clone
}

#[tactic(auto, unfolding(crate::specs::Steps::next_piece))]
fn next_piece(
    begun: &mut Begun,
    number: TaskId,
    pieces: PieceList,
    left: u32,
    next: usize,
    fields: &mut Fields,
) -> Result<Stage, RecordFault>
    ensures { GivesSeen (come_to begun.new) result fields.new (form.piece_step number.0 pieces left next begun.old fields.old) }
{
    if left == 0 {
        begun.copies.push(RawCopy { number, pieces })?;
        return Ok(Stage::Runs { next });
    }
    let more = piece(fields)?;
    let pieces = with_item(pieces, more)?;
    Ok(Stage::Pieces {
        number,
        pieces,
        left: left - 1,
        next,
    })
}

/// The stage behind a step, and how many bytes the step read.
#[derive(Drop)]
pub(crate) struct Made {
    pub(crate) stage: Stage,
    pub(crate) read: usize,
}
