//! The turns of running tasks.
ghost use Rattle.std.specs.Prelude.{◌≡◌, ◌+◌, ◌*◌, ◌≤◌, [], vec_capacity, IsTrue, IsSome, IfSome, IfOk, Some, None, option_map, option_and_then};
ghost use Rattle.std.specs.List.{find, position};
ghost use Rattle.vv_flat.specs.Chunks.{Entry, shape_of_tables};
ghost use Rattle.vv_flat.specs.Changes.{Turn, size_of, changed_indexes, is_task_running};
ghost use Rattle.vv_flat.specs.State.{Task as TaskRecord};
ghost use Rattle.vv_flat.specs.Space.{running_target};
ghost use Rattle.vv_task.specs.Table.{task_numbered, runs, job_of};
ghost use Rattle.vv_tables.specs.TurnRooms.{IsTurnRoom};
ghost use Rattle.vv_flat.specs.Replay.{fits, replayed};
ghost use Rattle.vv_tables.specs.Rooms.{IsChangeRoomOf};
ghost use Rattle.vv_tables.specs.Rows.{is_clone_row};
ghost use Rattle.vv_tables.specs.Turns.{RunsClone, RunsCopy, with_clone_made, running_source, ends_next};
ghost use Rattle.vv_tables.specs.Filling.{MayFill, with_filled, copy_indexes, copy_places};
ghost use Rattle.vv_units.specs.declared.volume.VolumeKind.TheVariants.{FullCloneOf};
ghost use Rattle.vv_vols.specs.Shelf.{volume_in, held_in, size_in};
ghost use Rattle.vv_vols.specs.Calls.{without_held};
ghost use Rattle.vv_vols.specs.Conditions.{HasEveryIndex};
ghost use Rattle.vv_laws.specs.Counts.{entries_taken};

use crate::filling::fill_places;
use crate::piece_counts::unmapping;
use crate::rows::{CloneRow, CopyRow, clone_place, take_clone, take_copy};
use crate::tables::Tables;
use crate::turn_room::{RoomKind, TurnRoom, let_go};
use std::alloc::Global;
use std::sync::ledger::Ledger;
use vv_diff::{Pieces, Steps, apply};
use vv_pool::FreshList;
use vv_record::ChunkCopy;
use vv_task::{Job, TaskTable};
use vv_units::{NoMemory, TaskId, VolumeId, VolumeKind};
use vv_vols::{Head, MapRoom, Shelf};

impl Tables {
    /// Takes memory for the next turn of a task that runs. The tables stay as they are, also where there is no memory.
    pub fn reserve_turn(&mut self, alloc: Global, task: TaskId) -> Result<TurnRoom, NoMemory>
        requires { IsTrue (is_task_running (shape_of_tables self.old.durable) task.0) }
        ensures room { IfOk result (λ room. IsTurnRoom self.old task.0 room) }
        ensures same { self.new ≡ self.old }
    {
        match running_job(&self.tasks, task) {
            Job::Clone { volume: _ } => {
                let taken = FreshList::new(alloc, 1)?;
                Ok(TurnRoom::of_clone(taken))
            }
            Job::Copy {
                source: _,
                base: _,
                target,
            } => {
                let chunks = changed_chunks(&self.shelf, &self.tasks, task, target);
                let room = self.shelf.reserve_change(target, 0, chunks)?;
                Ok(TurnRoom::of_copy(room))
            }
        }
    }

    /// Does the next turn of a task that runs. `copies` has the index and the place of each chunk that the turn of a clone
    /// copies, in rising order of the indexes, and nothing for a copy. `room` is from `reserve_turn`.
    pub fn turn<L: Ledger>(
        &mut self,
        task: TaskId,
        copies: &[ChunkCopy],
        room: TurnRoom,
        steps: &mut Steps<L>,
    )
        requires fits { IsTrue (fits self.old.durable (Turn task.0) (copy_places copies.now)) }
        requires indexes { copy_indexes copies.now ≡ changed_indexes (λ (e : Entry). e.stamp) self.old.durable (Turn task.0) }
        requires room { IsTurnRoom self.old task.0 room }
        ensures durable { self.new.durable ≡ replayed self.old.durable (Turn task.0) (copy_places copies.now) }
        ensures rooms { self.new.rooms ≡ self.old.rooms }
        ensures rise { steps.old ≤ steps.new }
        ensures steps { steps.new ≤ steps.old + 65 * entries_taken (shape_of_tables self.old.durable) (Turn task.0) }
    {
        match room.into_kind() {
            RoomKind::Clone(taken) => {
                let source = source_of(&self.tasks, task);
                self.turn_clone(task, source, copies, taken);
            }
            RoomKind::Copy(room) => {
                let target = target_of(&self.tasks, task);
                self.turn_copy(task, target, room, steps);
            }
        }
    }

    /// Does a turn of a running clone of a volume: puts each place into the target at its index. The last one makes the target
    /// the chunks of a new volume, whose number is that of the task. `taken` is memory for one fresh place.
    fn turn_clone(&mut self, task: TaskId, source: VolumeId, copies: &[ChunkCopy], taken: FreshList)
        requires runs { RunsClone self.old.durable task.0 source.0 }
        requires fits { IsTrue (fits self.old.durable (Turn task.0) (copy_places copies.now)) }
        requires indexes { copy_indexes copies.now ≡ changed_indexes (λ (e : Entry). e.stamp) self.old.durable (Turn task.0) }
        requires empty { taken.places ≡ [] }
        requires memory { 1 ≤ taken.capacity }
        ensures durable { self.new.durable ≡ replayed self.old.durable (Turn task.0) (copy_places copies.now) }
        ensures rooms { self.new.rooms ≡ self.old.rooms }
    {
        fill_clone(&mut self.shelf, &mut self.clones, task, copies, taken);
        self.lsn += 1;
        if self.tasks.note(task, copies.len() as u32) {
            let row = take_clone(&mut self.clones, task);
            end_clone(&mut self.shelf, row, source);
        }
    }

    /// Does a turn of a running copy into a target. The last one puts all pieces into the target, and its container is
    /// charged no longer for the chunks that they unmap. `room` is for changes
    /// of the whole target, where the turn is the last.
    fn turn_copy<L: Ledger>(
        &mut self,
        task: TaskId,
        target: VolumeId,
        room: MapRoom,
        steps: &mut Steps<L>,
    )
        requires runs { RunsCopy self.old.durable task.0 target.0 }
        requires fits { IsTrue (fits self.old.durable (Turn task.0) []) }
        requires room { IsTrue (ends_next self.old.durable.tasks task.0) → IsChangeRoomOf self.old target.0 0 (size_of (shape_of_tables self.old.durable) target.0) room }
        ensures durable { self.new.durable ≡ replayed self.old.durable (Turn task.0) [] }
        ensures rooms { self.new.rooms ≡ self.old.rooms }
        ensures rise { steps.old ≤ steps.new }
        ensures steps { steps.new ≤ steps.old + 65 * entries_taken (shape_of_tables self.old.durable) (Turn task.0) }
    {
        let home = self.home_of(target);
        let charged = self.containers.charge(home);
        let done = self.tasks.next_piece(task);
        self.lsn += 1;
        if self.tasks.note(task, done) {
            let CopyRow { id: _, pieces } = take_copy(&mut self.copies, task);
            let gone = unmapping(&self.shelf, &pieces, target);
            self.containers.set_charge(home, charged - gone as u64);
            apply(
                &mut self.shelf,
                target,
                Pieces::of_held(pieces),
                room,
                steps,
            );
        } else {
            let_go(room);
        }
    }
}

/// The place of a running clone that stands.
fn standing_clone(rows: &[CloneRow], id: TaskId) -> usize
    requires { IsSome (find (is_clone_row id.0) rows.now) }
    ensures { position (is_clone_row id.0) rows.now ≡ Some result }
{
    match clone_place(rows, id) {
        Some(at) => at,
        None => unreachable!(),
    }
}

/// Puts the places of copies into the target of a running clone that stands.
fn fill_clone(
    shelf: &mut Shelf,
    rows: &mut Vec<CloneRow>,
    id: TaskId,
    copies: &[ChunkCopy],
    taken: FreshList,
)
    requires standing { IsSome (find (is_clone_row id.0) rows.old.items) }
    requires may { IfSome (find (is_clone_row id.0) rows.old.items) (λ row. MayFill shelf.old.shelf row.target.number id.0 (copy_indexes copies.now) (copy_places copies.now)) }
    requires empty { taken.places ≡ [] }
    requires memory { 1 ≤ taken.capacity }
    ensures rows { rows.new.items ≡ rows.old.items }
    ensures capacity { vec_capacity rows.new ≡ vec_capacity rows.old }
    ensures shelf { IfSome (find (is_clone_row id.0) rows.old.items) (λ row. shelf.new.shelf ≡ with_filled shelf.old.shelf row.target.number id.0 (copy_indexes copies.now) (copy_places copies.now)) }
    ensures rooms { shelf.new.rooms ≡ shelf.old.rooms }
{
    let mut taken = taken;
    let at = standing_clone(rows, id);
    let row = &mut rows[at];
    fill_places(shelf, &mut row.target, copies, id.0, &mut taken);
    taken.close();
}

/// Ends a running clone whose target has all chunks: the target becomes the list of a volume, a full clone of the source.
fn end_clone(shelf: &mut Shelf, row: CloneRow, source: VolumeId)
    requires image { IsSome (held_in shelf.old.shelf row.image.number) }
    requires target { IsSome (held_in (without_held shelf.old.shelf row.image.number) row.target.number) }
    requires whole { HasEveryIndex (without_held shelf.old.shelf row.image.number) row.target.number }
    requires unused { volume_in shelf.old.shelf row.id.0 ≡ None }
    ensures shelf { shelf.new.shelf ≡ with_clone_made shelf.old.shelf row source }
    ensures rooms { shelf.new.rooms ≡ shelf.old.rooms }
{
    let CloneRow {
        id,
        head,
        image,
        target,
    } = row;
    shelf.drop_image(image);
    shelf.make_held(VolumeId(id.0), clone_head(head, source), target);
}

/// The head of a volume that is a full clone of another one.
fn clone_head(head: Head, source: VolumeId) -> Head
    ensures { result ≡ record head { kind = FullCloneOf source; reverted = 0 } }
{
    let Head {
        container,
        vtype,
        kind: _,
        reverted: _,
        needs,
        metadata,
    } = head;
    Head {
        container,
        vtype,
        kind: VolumeKind::FullCloneOf(source),
        reverted: 0,
        needs,
        metadata,
    }
}

/// The job of a task that runs.
fn running_job(tasks: &TaskTable, id: TaskId) -> Job
    requires { IsTrue (runs tasks.now id.0) }
    ensures { option_map (λ (t : TaskRecord). t.job) (task_numbered tasks.now id.0) ≡ Some (job_of result) }
{
    match tasks.get(id) {
        Some(task) => task.job,
        None => unreachable!(),
    }
}

/// Whether the next turn of a task that runs is its last.
fn ends_next(tasks: &TaskTable, id: TaskId) -> bool
    requires { IsTrue (runs tasks.now id.0) }
    ensures { result ≡ ends_next tasks.now id.0 }
{
    match tasks.get(id) {
        Some(task) => tasks.next_piece(id) == task.total - task.done,
        None => unreachable!(),
    }
}

/// How many chunks of its target the next turn of a running copy may change: all at the last, else none.
fn changed_chunks(shelf: &Shelf, tasks: &TaskTable, id: TaskId, target: VolumeId) -> u32
    requires runs { IsTrue (runs tasks.now id.0) }
    requires standing { IsSome (volume_in shelf.now.shelf target.0) }
    ensures last { IsTrue (ends_next tasks.now id.0) → result ≡ size_in shelf.now.shelf target.0 }
    ensures within { result ≤ size_in shelf.now.shelf target.0 }
{
    if ends_next(tasks, id) {
        shelf.entries(target)
    } else {
        0
    }
}

/// The volume that a running clone copies.
fn source_of(tasks: &TaskTable, id: TaskId) -> VolumeId
    requires { IsSome (option_and_then running_source (task_numbered tasks.now id.0)) }
    ensures { option_and_then running_source (task_numbered tasks.now id.0) ≡ Some result.0 }
{
    match tasks.get(id) {
        Some(task) => match task.job {
            Job::Clone { volume } => volume,
            Job::Copy {
                source: _,
                base: _,
                target: _,
            } => unreachable!(),
        },
        None => unreachable!(),
    }
}

/// The volume that a running copy changes.
fn target_of(tasks: &TaskTable, id: TaskId) -> VolumeId
    requires { IsSome (option_and_then running_target (task_numbered tasks.now id.0)) }
    ensures { option_and_then running_target (task_numbered tasks.now id.0) ≡ Some result.0 }
{
    match tasks.get(id) {
        Some(task) => match task.job {
            Job::Clone { volume: _ } => unreachable!(),
            Job::Copy {
                source: _,
                base: _,
                target,
            } => target,
        },
        None => unreachable!(),
    }
}
