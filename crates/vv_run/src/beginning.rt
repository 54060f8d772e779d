//! Making or opening the array that a script is served on.
ghost use Rattle.std.specs.Prelude.{◌≡◌, ◌≤◌, ◌↔◌, true, Some, IfOk, IfErr, OnOk};
ghost use Rattle.vv_data.specs.Layout.{disk_len};
ghost use Rattle.vv_disk.specs.Images.{LeavesOnly};
ghost use Rattle.vv_meaning.specs.Steps.{State};
ghost use Rattle.vv_array.specs.Seen.{geometry_of};
ghost use Rattle.vv_array.specs.Standing.{StandsFor};
ghost use Rattle.vv_run.specs.Replies.{recovered_line};
ghost use Rattle.vv_run.specs.Starts.{IsStart, head_of};
ghost use Rattle.vv_run.specs.Status.{is_before_disk, status_of, IsFit, Unfit, Stopped};

use crate::Status;
use crate::words::{Command, disk_len};
use std::alloc::Global;
use vv_array::{Array, ArrayFault};
use vv_disk::Disk;
use vv_units::Geometry;

/// An array that a script is to be served on, and the log number that was recovered, where its image was opened. The array must
/// be closed at its end.
pub(crate) struct Begun {
    pub(crate) array: Array,
    pub(crate) recovered: Option<u64>,
}

/// Makes the image of an empty array, or opens the one that is there.
pub(crate) fn begin<D: Disk>(alloc: Global, command: Command, disk: &mut D) -> Result<Begun, Status>
    ensures stands { IfOk result (λ begun. D.is_honest disk.old → (start : State) → IsStart (Some command) (D.size disk.old) (D.content disk.old) (D.is_image disk.old) start
        → StandsFor begun.array (D.content disk.new) (D.is_image disk.new) start × (recovered_line begun.recovered ≡ head_of (Some command) start)) }
    ensures sizes { IfOk result (λ begun. D.size disk.new ≡ disk_len (geometry_of begun.array)) }
    ensures fit { OnOk result (IsFit command (D.size disk.old) (D.content disk.old)) }
    ensures opened { OnOk result (command ≡ Command.Run → D.is_honest disk.old → LeavesOnly D.moment D.left_since disk.old disk.new (D.is_image disk.old)) }
    ensures later { OnOk result (D.is_honest disk.old → D.moment disk.old ≤ D.moment disk.new) }
    ensures stopped { IfErr result (Stopped command (D.size disk.old) (D.content disk.old) (D.read_faults disk.old) (D.read_faults disk.new) (D.write_faults disk.old) (D.write_faults disk.new)) }
    ensures unfit { IfErr result (Unfit command (D.size disk.old) (D.content disk.old)) }
    ensures untouched { IfErr result (λ status. is_before_disk status ≡ true → disk.new ≡ disk.old) }
    ensures len { D.size disk.new ≡ D.size disk.old }
    ensures honesty { D.is_honest disk.new ↔ D.is_honest disk.old }
    ensures reads { D.read_faults disk.old ≤ D.read_faults disk.new }
    ensures writes { D.write_faults disk.old ≤ D.write_faults disk.new }
{
    match command {
        Command::New(geometry) => make(alloc, geometry, disk),
        Command::Run => open(alloc, disk),
    }
}

/// Makes the image of an empty array, on a disk of the length that it needs.
fn make<D: Disk>(alloc: Global, geometry: Geometry, disk: &mut D) -> Result<Begun, Status>
    ensures stands { IfOk result (λ begun. D.is_honest disk.old → (start : State) → IsStart (Some (Command.New geometry)) (D.size disk.old) (D.content disk.old) (D.is_image disk.old) start
        → StandsFor begun.array (D.content disk.new) (D.is_image disk.new) start × (recovered_line begun.recovered ≡ head_of (Some (Command.New geometry)) start)) }
    ensures sizes { IfOk result (λ begun. D.size disk.new ≡ disk_len (geometry_of begun.array)) }
    ensures fit { OnOk result (D.size disk.old ≡ disk_len geometry) }
    ensures later { OnOk result (D.is_honest disk.old → D.moment disk.old ≤ D.moment disk.new) }
    ensures stopped { IfErr result (Stopped (Command.New geometry) (D.size disk.old) (D.content disk.old) (D.read_faults disk.old) (D.read_faults disk.new) (D.write_faults disk.old) (D.write_faults disk.new)) }
    ensures unfit { IfErr result (Unfit (Command.New geometry) (D.size disk.old) (D.content disk.old)) }
    ensures untouched { IfErr result (λ status. is_before_disk status ≡ true → disk.new ≡ disk.old) }
    ensures len { D.size disk.new ≡ D.size disk.old }
    ensures honesty { D.is_honest disk.new ↔ D.is_honest disk.old }
    ensures reads { D.read_faults disk.old ≤ D.read_faults disk.new }
    ensures writes { D.write_faults disk.old ≤ D.write_faults disk.new }
{
    let needed = disk_len(geometry);
    let found = disk.len();
    if found != needed {
        return Err(Status::WrongSize { needed, found });
    }
    match Array::format(alloc, disk, geometry) {
        Ok(array) => Ok(Begun {
            array,
            recovered: None,
        }),
        Err(fault) => Err(status_of(fault)),
    }
}

/// Opens the image that is there.
fn open<D: Disk>(alloc: Global, disk: &mut D) -> Result<Begun, Status>
    ensures stands { IfOk result (λ begun. D.is_honest disk.old → (start : State) → IsStart (Some Command.Run) (D.size disk.old) (D.content disk.old) (D.is_image disk.old) start
        → StandsFor begun.array (D.content disk.new) (D.is_image disk.new) start × (recovered_line begun.recovered ≡ head_of (Some Command.Run) start)) }
    ensures sizes { IfOk result (λ begun. D.size disk.new ≡ disk_len (geometry_of begun.array)) }
    ensures fit { OnOk result (IsFit Command.Run (D.size disk.old) (D.content disk.old)) }
    ensures opened { OnOk result (D.is_honest disk.old → LeavesOnly D.moment D.left_since disk.old disk.new (D.is_image disk.old)) }
    ensures stopped { IfErr result (Stopped Command.Run (D.size disk.old) (D.content disk.old) (D.read_faults disk.old) (D.read_faults disk.new) (D.write_faults disk.old) (D.write_faults disk.new)) }
    ensures unfit { IfErr result (Unfit Command.Run (D.size disk.old) (D.content disk.old)) }
    ensures untouched { IfErr result (λ status. is_before_disk status ≡ true → disk.new ≡ disk.old) }
    ensures len { D.size disk.new ≡ D.size disk.old }
    ensures honesty { D.is_honest disk.new ↔ D.is_honest disk.old }
    ensures reads { D.read_faults disk.old ≤ D.read_faults disk.new }
    ensures writes { D.write_faults disk.old ≤ D.write_faults disk.new }
{
    match Array::open(alloc, disk) {
        Ok((array, recovered)) => Ok(Begun {
            array,
            recovered: Some(recovered),
        }),
        Err(fault) => Err(status_of(fault)),
    }
}

/// How a run ends whose image can't be made or opened.
fn status_of(fault: ArrayFault) -> Status
    ensures { result ≡ status_of fault }
{
    match fault {
        ArrayFault::NotFormatted { .. } => Status::NotFormatted,
        ArrayFault::Damaged(damage) => Status::Damaged(damage),
        ArrayFault::Disk(_) => Status::DeviceFault,
        ArrayFault::NoMemory => Status::NoMemory,
    }
}
