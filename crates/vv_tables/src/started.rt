//! The start of tasks: full clones.
ghost use Rattle.std.specs.Prelude.{◌≡◌, ◌+◌, ◌-◌, ◌≤◌, [], IsSome, IsTrue, IfOk, OnOk, OnErr};
ghost use Rattle.vv_map.specs.Pages.{pages_for};
ghost use Rattle.vv_flat.specs.State.{volume_of};
ghost use Rattle.vv_flat.specs.Replay.{fits, replayed};
ghost use Rattle.vv_flat.specs.Changes.{StartClone};
ghost use Rattle.vv_vols.specs.Calls.{with_reserve};
ghost use Rattle.vv_vols.specs.Places.{shelf_free};
ghost use Rattle.vv_tables.specs.CopyRooms.{size_in_tables, IsCloneRoom};

use crate::clone_room::CloneRoom;
use crate::copied::charge_copy;
use crate::rows::{CloneRow, push_clone};
use crate::tables::Tables;
use std::alloc::Global;
use std::sync::ledger::Ledger;
use vv_pool::Steps;
use vv_snap::copy_head;
use vv_task::{Job, Task};
use vv_units::{NoMemory, TaskId, TaskState, VolumeId};
use vv_vols::Shelf;

impl Tables {
    /// Takes memory for a full clone of a volume: for the lists of its image and its target, with a copy of the volume's head.
    /// Where memory runs out the tables stay as they were.
    pub fn reserve_clone(&mut self, alloc: Global, volume: VolumeId) -> Result<CloneRoom, NoMemory>
        requires { IsSome (volume_of self.old.durable volume.0) }
        ensures room { IfOk result (λ room. IsCloneRoom self.old volume.0 room) }
        ensures ok { OnOk result (self.new ≡ record self.old { rooms = self.old.rooms + 2 }) }
        ensures err { OnErr result (self.new ≡ self.old) }
    {
        let head = copy_head(alloc, &self.shelf, volume)?;
        let chunks = self.shelf.entries(volume);
        let image = self.shelf.reserve_list(chunks)?;
        let Ok(target) = self.shelf.reserve_list(chunks) else {
            self.shelf.give_up_list(image);
            return Err(NoMemory);
        };
        Ok(CloneRoom {
            head,
            image,
            target,
        })
    }

    /// Gives back memory that was taken for a full clone.
    pub fn give_up_clone(&mut self, room: CloneRoom)
        requires { 2 ≤ self.old.rooms }
        ensures { self.new ≡ record self.old { rooms = self.old.rooms - 2 } }
    {
        let CloneRoom {
            head: _,
            image,
            target,
        } = room;
        self.shelf.give_up_list(image);
        self.shelf.give_up_list(target);
    }

    /// Starts a full clone of a volume, as a task whose number is the new log number: the image shares the volume's pages, each
    /// of which is one step, no chunk of the target is allocated yet, and as many places are reserved as chunks of the
    /// volume are allocated. It takes the memory of the room.
    pub fn start_clone<L: Ledger>(
        &mut self,
        volume: VolumeId,
        room: CloneRoom,
        steps: &mut Steps<L>,
    )
        requires fits { IsTrue (fits self.old.durable (StartClone volume.0) []) }
        requires room { IsCloneRoom self.old volume.0 room }
        requires rows { 2 ≤ self.old.rooms }
        ensures durable { self.new.durable ≡ replayed self.old.durable (StartClone volume.0) [] }
        ensures rooms { self.new.rooms + 2 ≡ self.old.rooms }
        ensures steps { steps.new ≡ steps.old + pages_for (size_in_tables self.old.durable volume.0) }
    {
        let id = TaskId(self.lsn + 1);
        let CloneRoom {
            head,
            image,
            target,
        } = room;
        let chunks = self.shelf.entries(volume);
        let total = self.shelf.allocated_count(volume);
        charge_copy(&self.shelf, &mut self.containers, volume);
        reserve_places(&mut self.shelf, total);
        let image = self.shelf.hold_image(volume, image, steps);
        let target = self.shelf.hold_target(chunks, target);
        self.tasks.start(Task {
            id,
            job: Job::Clone { volume },
            state: TaskState::Running,
            done: 0,
            total,
        });
        push_clone(
            &mut self.clones,
            CloneRow {
                id,
                head,
                image,
                target,
            },
        );
        self.lsn += 1;
    }
}

/// Promises so many places of those that are free.
fn reserve_places(shelf: &mut Shelf, n: u32)
    requires { n ≤ shelf_free shelf.old.shelf }
    ensures { shelf.new ≡ record shelf.old { shelf = with_reserve shelf.old.shelf (shelf.old.shelf.reserved + n) } }
{
    match shelf.reserve(n) {
        Ok(()) => {}
        Err(_) => unreachable!(),
    }
}
