//! The start of a difference copy.
ghost use Rattle.std.specs.Prelude.{◌≡◌, ◌+◌, ◌≤◌, [], IsTrue};
ghost use Rattle.vv_flat.specs.Changes.{StartCopy};
ghost use Rattle.vv_flat.specs.Replay.{fits, replayed};
ghost use Rattle.vv_vols.specs.Rows.{IsListRoom};
ghost use Rattle.vv_tables.specs.Copies.{differing};

use crate::piece_counts::allocating;
use crate::rows::{CopyRow, push_copy};
use crate::tables::Tables;
use std::sync::ledger::Ledger;
use vv_diff::{Steps, difference};
use vv_task::{Job, Task};
use vv_units::{TaskId, TaskState, VolumeId};
use vv_vols::MapRoom;

impl Tables {
    /// Starts a copy into a target of what differs between a source and a base. The number of its task is the change's log
    /// number. The target's container is charged for the pieces that will allocate a chunk. `room` is that of a list of at
    /// least as many entries as there will be pieces.
    pub fn start_copy<L: Ledger>(
        &mut self,
        source: VolumeId,
        base: VolumeId,
        target: VolumeId,
        room: MapRoom,
        steps: &mut Steps<L>,
    )
        requires fits { IsTrue (fits self.old.durable (StartCopy source.0 base.0 target.0) []) }
        requires room { IsListRoom room.indexes room }
        requires enough { differing self.old.durable source.0 base.0 ≤ room.indexes }
        requires rows { 1 ≤ self.old.rooms }
        ensures durable { self.new.durable ≡ replayed self.old.durable (StartCopy source.0 base.0 target.0) [] }
        ensures rooms { self.new.rooms + 1 ≡ self.old.rooms }
        ensures rise { steps.old ≤ steps.new }
        ensures steps { steps.new ≤ steps.old + differing self.old.durable source.0 base.0 }
    {
        let home = self.home_of(target);
        let pieces = difference(&mut self.shelf, source, base, room, steps).into_held();
        let total = pieces.len();
        let more = allocating(&self.shelf, &pieces, target);
        let charged = self.containers.charge(home);
        self.containers.set_charge(home, charged + more as u64);
        self.lsn += 1;
        let id = TaskId(self.lsn);
        self.tasks.start(Task {
            id,
            job: Job::Copy {
                source,
                base,
                target,
            },
            state: TaskState::Running,
            done: 0,
            total,
        });
        push_copy(&mut self.copies, CopyRow { id, pieces });
    }
}
