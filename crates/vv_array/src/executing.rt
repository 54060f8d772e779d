//! Calls of an array.
ghost use Rattle.std.specs.Prelude.{◌≡◌, ◌≤◌, ◌↔◌, true, false, None, IfSome};
ghost use Rattle.vv_data.specs.Layout.{disk_len};
ghost use Rattle.vv_disk.specs.Images.{LeavesOnly};
ghost use Rattle.vv_flat.specs.State.{Array as SeenArray};
ghost use Rattle.vv_flat.specs.Chunks.{ChunkValue};
ghost use Rattle.vv_calls.specs.Formed.{IsFormed};
ghost use Rattle.vv_profile.specs.Known.{all_known};
ghost use Rattle.vv_reply.specs.Replies.{FitsReply};
ghost use Rattle.vv_image.specs.Opening.{opened};
ghost use Rattle.vv_meaning.specs.Steps.{State, Up, CallStep, ReopenedStep, is_restart, no_memory};
ghost use Rattle.vv_array.specs.Seen.{geometry_of};
ghost use Rattle.vv_array.specs.Standing.{StandsFor};
ghost use Rattle.vv_array.specs.Moments.{StandsBetween};
ghost use Rattle.vv_array.specs.Faults.{HasItsCause};
ghost use Rattle.vv_array.specs.FaultsTold.{TellsItsFailure};
ghost use Rattle.vv_array.specs.Served.{answer_of, LeftIn, IsCaused, IsWithoutMemory};
ghost use Rattle.vv_array.specs.Executing.{IsStep, is_reopening, is_up, TellsReopened, IsUndamaged};
ghost use Rattle.vv_array.specs.Reopening.{IsServedUp, HasStayedUp, IsAsBefore};

use crate::array::{Array, Standing};
use crate::ended::Ended;
use crate::reopening::refusal_of;
use crate::serving::serve;
use std::alloc::Global;
use vv_calls::Call;
use vv_disk::Disk;
use vv_profile::Capabilities;
use vv_reply::{Answer, Refusal, Reply};

/// What a call was answered: the log number that was recovered, where the image was opened again, and the reply.
pub struct Served {
    pub recovered: Option<u64>,
    pub reply: Reply,
}

impl Array {
    /// Serves a call. An array that is down, and one that is asked to restart, opens its image again first.
    pub fn execute<D: Disk>(
        &mut self,
        alloc: Global,
        disk: &mut D,
        capabilities: &Capabilities,
        call: &Call,
    ) -> Served
        requires formed { IsFormed call.now }
        requires disk { D.size disk.old ≡ disk_len (geometry_of self.old) }

        // The call is a step of the state for which the array stood, and it stands for the one after that step. A crash at any
        // moment of the call leaves an array of the one or of the other.
        ensures step { D.is_honest disk.old → (before : State) → StandsFor self.old (D.content disk.old) (D.is_image disk.old) before
            → (after : State) × StandsFor self.new (D.content disk.new) (D.is_image disk.new) after
            × IsStep (all_known capabilities.now) before call.now result.recovered result.reply after
            × LeavesOnly D.moment D.left_since disk.old disk.new (StandsBetween before after) }

        // A fault of the disk is told only where its count rose.
        ensures cause { HasItsCause (D.read_faults disk.old) (D.read_faults disk.new) (D.write_faults disk.old) (D.write_faults disk.new) result.reply }

        // Opening the image again finds what is read of it, on every disk; and where nothing is opened, nothing is recovered.
        ensures reopened { is_reopening self.old call.now ≡ true → IfSome (D.content disk.old) (λ image. TellsReopened (opened image) result.recovered result.reply) }
        ensures recovers { is_reopening self.old call.now ≡ false → result.recovered ≡ None }
        ensures undamaged { D.is_honest disk.old → (before : State) → StandsFor self.old (D.content disk.old) (D.is_image disk.old) before → IsUndamaged result.reply }

        // Want of memory leaves an array that is up, and its disk, as they were, but at a restart.
        ensures memory { is_up self.old ≡ true → is_restart call.now ≡ false → result.reply ≡ no_memory
            → (D.content disk.new ≡ D.content disk.old) × IsAsBefore self.old self.new }
        ensures unwritten { is_up self.old ≡ true → is_restart call.now ≡ false → result.reply ≡ no_memory → D.is_honest disk.old
            → LeavesOnly D.moment D.left_since disk.old disk.new (D.is_image disk.old) }

        // The reply has a text.
        ensures fits { FitsReply result.reply }

        ensures sizes { D.size disk.new ≡ disk_len (geometry_of self.new) }
        ensures len { D.size disk.new ≡ D.size disk.old }
        ensures honesty { D.is_honest disk.new ↔ D.is_honest disk.old }
        ensures reads { D.read_faults disk.old ≤ D.read_faults disk.new }
        ensures writes { D.write_faults disk.old ≤ D.write_faults disk.new }
    {
        if self.opens_first(call) {
            self.reopen_and_serve(alloc, disk, capabilities, call)
        } else {
            Served {
                recovered: None,
                reply: self.serve_up(alloc, disk, capabilities, call),
            }
        }
    }

    /// Whether the image is opened again before a call.
    fn opens_first(&self, call: &Call) -> bool
        ensures reopening { result ≡ is_reopening self.now call.now }
        ensures up { result ≡ false → is_up self.now ≡ true }
        ensures other { result ≡ false → is_restart call.now ≡ false }
    {
        match &self.standing {
            Standing::Up { .. } => asks_restart(call),
            Standing::Down { .. } => true,
        }
    }

    /// Opens the image again, and serves a call then. Where the image couldn't be opened, that is told.
    fn reopen_and_serve<D: Disk>(
        &mut self,
        alloc: Global,
        disk: &mut D,
        capabilities: &Capabilities,
        call: &Call,
    ) -> Served
        requires formed { IsFormed call.now }
        requires reopening { is_reopening self.old call.now ≡ true }
        requires disk { D.size disk.old ≡ disk_len (geometry_of self.old) }

        ensures step { D.is_honest disk.old → (before : State) → StandsFor self.old (D.content disk.old) (D.is_image disk.old) before
            → (after : State) × StandsFor self.new (D.content disk.new) (D.is_image disk.new) after
            × IsStep (all_known capabilities.now) before call.now result.recovered result.reply after
            × LeavesOnly D.moment D.left_since disk.old disk.new (StandsBetween before after) }
        ensures cause { HasItsCause (D.read_faults disk.old) (D.read_faults disk.new) (D.write_faults disk.old) (D.write_faults disk.new) result.reply }
        ensures reopened { IfSome (D.content disk.old) (λ image. TellsReopened (opened image) result.recovered result.reply) }
        ensures undamaged { D.is_honest disk.old → (before : State) → StandsFor self.old (D.content disk.old) (D.is_image disk.old) before → IsUndamaged result.reply }
        ensures fits { FitsReply result.reply }

        ensures sizes { D.size disk.new ≡ disk_len (geometry_of self.new) }
        ensures len { D.size disk.new ≡ D.size disk.old }
        ensures honesty { D.is_honest disk.new ↔ D.is_honest disk.old }
        ensures reads { D.read_faults disk.old ≤ D.read_faults disk.new }
        ensures writes { D.write_faults disk.old ≤ D.write_faults disk.new }
    {
        match self.reopen(alloc, disk) {
            Ok(recovered) => Served {
                recovered: Some(recovered),
                reply: self.serve_reopened(alloc, disk, capabilities, call),
            },
            Err(fault) => Served {
                recovered: None,
                reply: Reply::Refused(refusal_of(fault)),
            },
        }
    }

    /// Serves a call for which the image was opened again. A restart is done already.
    fn serve_reopened<D: Disk>(
        &mut self,
        alloc: Global,
        disk: &mut D,
        capabilities: &Capabilities,
        call: &Call,
    ) -> Reply
        requires formed { IsFormed call.now }
        requires up { is_up self.old ≡ true }
        requires disk { D.size disk.old ≡ disk_len (geometry_of self.old) }

        ensures step { D.is_honest disk.old → (m : SeenArray ChunkValue) → StandsFor self.old (D.content disk.old) (D.is_image disk.old) (Up m)
            → (after : State) × StandsFor self.new (D.content disk.new) (D.is_image disk.new) after
            × ReopenedStep (all_known capabilities.now) m call.now result after
            × LeavesOnly D.moment D.left_since disk.old disk.new (StandsBetween (Up m) after) }
        ensures cause { HasItsCause (D.read_faults disk.old) (D.read_faults disk.new) (D.write_faults disk.old) (D.write_faults disk.new) result }
        ensures undamaged { IsUndamaged result }
        ensures fits { FitsReply result }

        ensures sizes { D.size disk.new ≡ disk_len (geometry_of self.new) }
        ensures len { D.size disk.new ≡ D.size disk.old }
        ensures honesty { D.is_honest disk.new ↔ D.is_honest disk.old }
        ensures reads { D.read_faults disk.old ≤ D.read_faults disk.new }
        ensures writes { D.write_faults disk.old ≤ D.write_faults disk.new }
    {
        if asks_restart(call) {
            Reply::Done(Answer::Empty)
        } else {
            self.serve_up(alloc, disk, capabilities, call)
        }
    }

    /// Serves a call, other than a restart, of an array that is up. Where a write fails, the array goes down.
    fn serve_up<D: Disk>(
        &mut self,
        alloc: Global,
        disk: &mut D,
        capabilities: &Capabilities,
        call: &Call,
    ) -> Reply
        requires formed { IsFormed call.now }
        requires other { is_restart call.now ≡ false }
        requires up { is_up self.old ≡ true }
        requires disk { D.size disk.old ≡ disk_len (geometry_of self.old) }

        ensures step { D.is_honest disk.old → (m : SeenArray ChunkValue) → StandsFor self.old (D.content disk.old) (D.is_image disk.old) (Up m)
            → (after : State) × StandsFor self.new (D.content disk.new) (D.is_image disk.new) after
            × CallStep (all_known capabilities.now) m call.now result after
            × LeavesOnly D.moment D.left_since disk.old disk.new (StandsBetween (Up m) after) }
        ensures cause { HasItsCause (D.read_faults disk.old) (D.read_faults disk.new) (D.write_faults disk.old) (D.write_faults disk.new) result }
        ensures undamaged { IsUndamaged result }
        ensures memory { result ≡ no_memory → (D.content disk.new ≡ D.content disk.old) × IsAsBefore self.old self.new }
        ensures unwritten { result ≡ no_memory → LeavesOnly D.moment D.left_since disk.old disk.new (D.is_image disk.old) }
        ensures fits { FitsReply result }

        ensures sizes { D.size disk.new ≡ disk_len (geometry_of self.new) }
        ensures len { D.size disk.new ≡ D.size disk.old }
        ensures honesty { D.is_honest disk.new ↔ D.is_honest disk.old }
        ensures reads { D.read_faults disk.old ≤ D.read_faults disk.new }
        ensures writes { D.write_faults disk.old ≤ D.write_faults disk.new }
    {
        match self.serve_standing(alloc, disk, capabilities, call) {
            Ended::Replied(reply) => reply,
            Ended::ReadFailed(reply) => reply,
            Ended::WriteFailed(reply) => {
                self.go_down();
                reply
            }
            Ended::NoMemory => Reply::Refused(Refusal::NoMemory),
        }
    }

    /// Serves a call, other than a restart, of an array that is up, which stays up up to the end of the call.
    fn serve_standing<D: Disk>(
        &mut self,
        alloc: Global,
        disk: &mut D,
        capabilities: &Capabilities,
        call: &Call,
    ) -> Ended
        requires formed { IsFormed call.now }
        requires other { is_restart call.now ≡ false }
        requires up { is_up self.old ≡ true }
        requires disk { D.size disk.old ≡ disk_len (geometry_of self.old) }

        ensures served { D.is_honest disk.old → (m : SeenArray ChunkValue) → StandsFor self.old (D.content disk.old) (D.is_image disk.old) (Up m)
            → IsServedUp (all_known capabilities.now) m call.now self.new (D.content disk.new) (D.is_image disk.new) result }
        ensures left { D.is_honest disk.old → (m : SeenArray ChunkValue) → StandsFor self.old (D.content disk.old) (D.is_image disk.old) (Up m)
            → LeavesOnly D.moment D.left_since disk.old disk.new (LeftIn (all_known capabilities.now) m call.now result) }
        ensures stayed { HasStayedUp result self.old self.new (D.content disk.old) (D.content disk.new) }
        ensures unwritten { IsWithoutMemory result → LeavesOnly D.moment D.left_since disk.old disk.new (D.is_image disk.old) }
        ensures cause { IsCaused (D.read_faults disk.old) (D.read_faults disk.new) (D.write_faults disk.old) (D.write_faults disk.new) result }
        ensures told { TellsItsFailure result }
        ensures fits { FitsReply (answer_of result) }

        ensures sizes { geometry_of self.new ≡ geometry_of self.old }
        ensures len { D.size disk.new ≡ D.size disk.old }
        ensures honesty { D.is_honest disk.new ↔ D.is_honest disk.old }
        ensures reads { D.read_faults disk.old ≤ D.read_faults disk.new }
        ensures writes { D.write_faults disk.old ≤ D.write_faults disk.new }
    {
        match &mut self.standing {
            Standing::Up { journal, core } => {
                serve(alloc, journal, core, disk, capabilities, call)
            }
            Standing::Down { .. } => unreachable!(),
        }
    }
}

/// Whether a call asks for a restart.
fn asks_restart(call: &Call) -> bool
    ensures { result ≡ is_restart call.now }
{
    matches!(call, Call::Restart)
}
