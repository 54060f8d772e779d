//! Opening the image of an array.
ghost use Rattle.std.specs.Prelude.{◌≡◌, ◌≤◌, ◌+◌, ◌↔◌, true, IfOk, IfErr, IfSome, OnOk};
ghost use Rattle.vv_data.specs.Layout.{area_bytes, disk_len};
ghost use Rattle.vv_disk.specs.Images.{EachImage, LeavesOnly};
ghost use Rattle.vv_journal.specs.Log.{Log, Holds};
ghost use Rattle.vv_journal.specs.Openings.{HasHead, journal_at_first};
ghost use Rattle.vv_array.specs.OpeningSteps.{HasReadCause, OnlyReads};
ghost use Rattle.vv_array.specs.Seen.{IsUp, geometry_of};
ghost use Rattle.vv_array.specs.Executing.{is_up};
ghost use Rattle.vv_array.specs.Opening.{IsOpened, IsFoundFault, OpensAs, StandsOpened, HasArrayCause};

use crate::area::read_tables;
use crate::array::{Array, Standing};
use crate::fault::ArrayFault;
use crate::slots::replay_records;
use std::alloc::Global;
use vv_core::Core;
use vv_disk::Disk;
use vv_journal::{Journal, LogHead, open_log};

impl Array {
    /// Opens the image of a disk, and tells the log number that was recovered. The disk is synced first, and no byte of it is
    /// written.
    pub fn open<D: Disk>(alloc: Global, disk: &mut D) -> Result<(Array, u64), ArrayFault>
        // What is found is told: the array with the tables of the image, or the first thing that is wrong with it.
        ensures fault { IfErr result (λ fault. IfSome (D.content disk.old) (IsFoundFault fault)) }
        ensures opened { IfOk result (λ opened. IfSome (D.content disk.old) (OpensAs opened.0 opened.1)) }
        ensures up { IfOk result (λ opened. is_up opened.0 ≡ true) }
        ensures sizes { IfOk result (λ opened. D.size disk.new ≡ disk_len (geometry_of opened.0)) }

        // An image that is well kept is opened as the array that stands on it.
        ensures stands { IfOk result (λ opened. D.is_honest disk.old → IfSome (D.content disk.old) (λ c. (log : Log) → Holds log c
            → StandsOpened opened.0 c (D.content disk.new) (D.is_image disk.new))) }

        ensures cause { IfErr result (HasArrayCause (D.read_faults disk.old) (D.read_faults disk.new) (D.write_faults disk.old) (D.write_faults disk.new)) }

        ensures len { D.size disk.new ≡ D.size disk.old }
        ensures content { D.content disk.new ≡ D.content disk.old }
        ensures each { D.is_honest disk.old → EachImage (D.is_image disk.old) (D.is_image disk.new) }
        ensures any_moment { D.is_honest disk.old → LeavesOnly D.moment D.left_since disk.old disk.new (D.is_image disk.old) }
        ensures honesty { D.is_honest disk.new ↔ D.is_honest disk.old }
        ensures reads { D.read_faults disk.old ≤ D.read_faults disk.new }
        ensures writes { D.write_faults disk.old ≤ D.write_faults disk.new }
    {
        let (mut journal, head) = open_log(disk)?;
        let core = load(alloc, &mut journal, &head, disk)?;
        let recovered = core.lsn();
        Ok((up(journal, core), recovered))
    }
}

/// The core of an image that has this head: its tables, with the records of its slots replayed. The journal stands before the
/// first slot, and behind the last record afterwards.
fn load<D: Disk>(
    alloc: Global,
    journal: &mut Journal,
    head: &LogHead,
    disk: &mut D,
) -> Result<Core, ArrayFault>
    requires journal { journal.old ≡ journal_at_first head.now }
    requires fits { 8 + head.now.area_len ≤ area_bytes head.now.geometry }
    requires disk { D.size disk.old ≡ disk_len head.now.geometry }

    ensures opened { IfOk result (λ core. IfSome (D.content disk.old) (λ c. HasHead head.now c → IsOpened journal.new core c)) }
    ensures fault { IfErr result (λ fault. IfSome (D.content disk.old) (λ c. HasHead head.now c → IsFoundFault fault c)) }
    ensures place { OnOk result (journal.new.geometry ≡ head.now.geometry) }
    ensures sizes { IfOk result (λ core. core.array.durable.geometry ≡ head.now.geometry) }
    ensures cause { IfErr result (HasReadCause (D.read_faults disk.old) (D.read_faults disk.new)) }
    ensures disk { OnlyReads D.size D.content D.is_image D.is_honest D.moment D.left_since D.read_faults D.write_faults disk.old disk.new }
{
    let mut core = read_tables(alloc, journal, head, disk)?;
    match replay_records(alloc, journal, &mut core, disk) {
        Ok(()) => Ok(core),
        Err(fault) => {
            core.close();
            Err(fault)
        }
    }
}

/// An array that is up.
fn up(journal: Journal, core: Core) -> Array
    requires sizes { journal.geometry ≡ core.array.durable.geometry }
    ensures { result ≡ IsUp journal core }
{
    Array {
        standing: Standing::Up { journal, core },
    }
}
