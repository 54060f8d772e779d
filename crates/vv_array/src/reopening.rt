//! Opening the image of an array again, which takes down the array that stood.
ghost use Rattle.std.specs.Prelude.{◌≡◌, ◌≤◌, ◌↔◌, true, IfOk, IfErr, OnOk, OnErr, IfSome};
ghost use Rattle.vv_data.specs.Layout.{disk_len};
ghost use Rattle.vv_disk.specs.Images.{EachImage, LeavesOnly};
ghost use Rattle.vv_journal.specs.Log.{Log, Holds};
ghost use Rattle.vv_array.specs.Seen.{IsDown, geometry_of};
ghost use Rattle.vv_array.specs.Executing.{is_up};
ghost use Rattle.vv_array.specs.Opening.{IsFoundFault, OpensAs, StandsOpened, HasArrayCause};
ghost use Rattle.vv_array.specs.Reopening.{refusal_for};

use crate::array::{Array, Standing};
use crate::fault::ArrayFault;
use std::alloc::Global;
use std::mem;
use vv_disk::Disk;
use vv_reply::Refusal;
use vv_units::{Damage, DiskFault, Part};

impl Array {
    /// Takes the array down: its tables in memory are given up.
    pub(crate) fn go_down(&mut self)
        ensures { self.new ≡ IsDown (geometry_of self.old) }
    {
        let geometry = self.geometry();
        let old = mem::replace(&mut self.standing, Standing::Down { geometry });
        old.close();
    }

    /// Puts an array in the place of this one, which ends.
    fn give_way_to(&mut self, other: Array)
        ensures { self.new ≡ other }
    {
        let old = mem::replace(self, other);
        old.close();
    }

    /// Takes the array down and opens its image again, and tells the log number that was recovered. The array that is opened
    /// takes the place of this one; where that fails, this one stays down.
    pub(crate) fn reopen<D: Disk>(&mut self, alloc: Global, disk: &mut D) -> Result<u64, ArrayFault>
        ensures fault { IfErr result (λ fault. IfSome (D.content disk.old) (IsFoundFault fault)) }
        ensures down { OnErr result (self.new ≡ IsDown (geometry_of self.old)) }
        ensures opened { IfOk result (λ recovered. IfSome (D.content disk.old) (OpensAs self.new recovered)) }
        ensures up { OnOk result (is_up self.new ≡ true) }
        ensures sizes { OnOk result (D.size disk.new ≡ disk_len (geometry_of self.new)) }
        ensures stands { OnOk result (D.is_honest disk.old → IfSome (D.content disk.old) (λ c. (log : Log) → Holds log c
            → StandsOpened self.new c (D.content disk.new) (D.is_image disk.new))) }
        ensures cause { IfErr result (HasArrayCause (D.read_faults disk.old) (D.read_faults disk.new) (D.write_faults disk.old) (D.write_faults disk.new)) }

        ensures len { D.size disk.new ≡ D.size disk.old }
        ensures content { D.content disk.new ≡ D.content disk.old }
        ensures each { D.is_honest disk.old → EachImage (D.is_image disk.old) (D.is_image disk.new) }
        ensures any_moment { D.is_honest disk.old → LeavesOnly D.moment D.left_since disk.old disk.new (D.is_image disk.old) }
        ensures honesty { D.is_honest disk.new ↔ D.is_honest disk.old }
        ensures reads { D.read_faults disk.old ≤ D.read_faults disk.new }
        ensures writes { D.write_faults disk.old ≤ D.write_faults disk.new }
    {
        self.go_down();
        match Array::open(alloc, disk) {
            Ok((opened, recovered)) => {
                self.give_way_to(opened);
                Ok(recovered)
            }
            Err(fault) => Err(fault),
        }
    }
}

/// How a call is told that the image couldn't be opened again.
pub(crate) fn refusal_of(fault: ArrayFault) -> Refusal
    ensures { result ≡ refusal_for fault }
{
    match fault {
        ArrayFault::NotFormatted { found } => Refusal::Damaged(Damage {
            part: Part::Gate,
            place: 0,
            found,
        }),
        ArrayFault::Damaged(damage) => Refusal::Damaged(damage),
        ArrayFault::Disk(DiskFault::Read) => Refusal::ReadFault,
        ArrayFault::Disk(DiskFault::Write) => Refusal::WriteFault,
        ArrayFault::NoMemory => Refusal::NoMemory,
    }
}
