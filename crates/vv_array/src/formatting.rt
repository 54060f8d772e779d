//! Making the image of an empty array, and the array on it.
ghost use Rattle.std.specs.Prelude.{◌≡◌, ◌≢◌, ◌≤◌, ◌+◌, ◌↔◌, length, replicate, OnOk, IfOk, IfErr};
ghost use Rattle.vv_disk.specs.Images.{EachImage, LeavesOnly};
ghost use Rattle.vv_data.specs.Layout.{area_bytes, disk_len};
ghost use Rattle.vv_flat.specs.State.{empty_array};
ghost use Rattle.vv_journal.specs.Log.{Holds, fresh_log};
ghost use Rattle.vv_journal.specs.Calls.{journal_of, IsBeingMade};
ghost use Rattle.vv_meaning.specs.Steps.{Up};
ghost use Rattle.vv_array.specs.Seen.{geometry_of};
ghost use Rattle.vv_array.specs.Standing.{StandsFor};
ghost use Rattle.vv_array.specs.Making.{empty_area, IsMakingFault};

use crate::array::{Array, Standing};
use crate::fault::ArrayFault;
use std::alloc::Global;
use vv_core::Core;
use vv_disk::Disk;
use vv_journal::Journal;
use vv_units::{Geometry, NoMemory};

impl Array {
    /// Makes the image of an empty array of these sizes, and the array on it. All memory is taken before the first write.
    pub fn format<D: Disk>(
        alloc: Global,
        disk: &mut D,
        geometry: Geometry,
    ) -> Result<Array, ArrayFault>
        requires disk { D.size disk.old ≡ disk_len geometry }

        ensures stands { IfOk result (λ array. D.is_honest disk.old → StandsFor array (D.content disk.new) (D.is_image disk.new) (Up (empty_array geometry))) }
        ensures sizes { IfOk result (λ array. geometry_of array ≡ geometry) }

        // A crash at any moment of the call leaves an image from before but for its first byte, or one that isn't
        // formatted, or the one that is made.
        ensures made { D.is_honest disk.old → LeavesOnly D.moment D.left_since disk.old disk.new (IsBeingMade geometry (empty_area geometry) (D.is_image disk.old)) }

        ensures fault { IfErr result (IsMakingFault (D.write_faults disk.old) (D.write_faults disk.new)) }

        // Want of memory leaves the disk as it was.
        ensures memory { IfErr result (λ fault. fault ≡ ArrayFault.NoMemory
            → (D.content disk.new ≡ D.content disk.old) × EachImage (D.is_image disk.old) (D.is_image disk.new)) }

        ensures len { D.size disk.new ≡ D.size disk.old }
        ensures honesty { D.is_honest disk.new ↔ D.is_honest disk.old }
        ensures writes { D.write_faults disk.old ≤ D.write_faults disk.new }
        ensures kept { OnOk result (D.write_faults disk.new ≡ D.write_faults disk.old) }
        ensures read_faults { D.read_faults disk.new ≡ D.read_faults disk.old }
    {
        let Ok(core) = Core::empty(alloc, geometry) else {
            return Err(ArrayFault::NoMemory);
        };
        match made_journal(alloc, disk, geometry, &core) {
            Ok(journal) => Ok(Array {
                standing: Standing::Up { journal, core },
            }),
            Err(fault) => {
                core.close();
                Err(fault)
            }
        }
    }
}

/// Makes the image of this empty core, and its journal.
fn made_journal<D: Disk>(
    alloc: Global,
    disk: &mut D,
    geometry: Geometry,
    core: &Core,
) -> Result<Journal, ArrayFault>
    requires disk { D.size disk.old ≡ disk_len geometry }
    requires empty { core.now.array ≡ empty_array geometry }

    ensures ok { OnOk result (D.is_honest disk.old → EachImage (Holds (fresh_log geometry (empty_area geometry))) (D.is_image disk.new)) }
    ensures journal { IfOk result (λ journal. journal ≡ journal_of (fresh_log geometry (empty_area geometry))) }
    ensures made { D.is_honest disk.old → LeavesOnly D.moment D.left_since disk.old disk.new (IsBeingMade geometry (empty_area geometry) (D.is_image disk.old)) }
    ensures fault { IfErr result (IsMakingFault (D.write_faults disk.old) (D.write_faults disk.new)) }
    ensures memory { IfErr result (λ fault. fault ≡ ArrayFault.NoMemory
        → (D.content disk.new ≡ D.content disk.old) × EachImage (D.is_image disk.old) (D.is_image disk.new)) }

    ensures len { D.size disk.new ≡ D.size disk.old }
    ensures honesty { D.is_honest disk.new ↔ D.is_honest disk.old }
    ensures writes { D.write_faults disk.old ≤ D.write_faults disk.new }
    ensures kept { OnOk result (D.write_faults disk.new ≡ D.write_faults disk.old) }
    ensures read_faults { D.read_faults disk.new ≡ D.read_faults disk.old }
{
    let area = area_of(alloc, geometry, core).map_err(|_| ArrayFault::NoMemory)?;
    write_image(disk, geometry, &area)
}

/// Writes the image of an empty array with this area.
fn write_image<D: Disk>(
    disk: &mut D,
    geometry: Geometry,
    area: &[u8],
) -> Result<Journal, ArrayFault>
    requires disk { D.size disk.old ≡ disk_len geometry }
    requires empty { area.now ≡ empty_area geometry }
    requires fits { 8 + length area.now ≤ area_bytes geometry }

    ensures ok { OnOk result (D.is_honest disk.old → EachImage (Holds (fresh_log geometry (empty_area geometry))) (D.is_image disk.new)) }
    ensures journal { IfOk result (λ journal. journal ≡ journal_of (fresh_log geometry (empty_area geometry))) }
    ensures made { D.is_honest disk.old → LeavesOnly D.moment D.left_since disk.old disk.new (IsBeingMade geometry (empty_area geometry) (D.is_image disk.old)) }
    ensures fault { IfErr result (IsMakingFault (D.write_faults disk.old) (D.write_faults disk.new)) }
    ensures memory { IfErr result (λ fault. fault ≢ ArrayFault.NoMemory) }

    ensures len { D.size disk.new ≡ D.size disk.old }
    ensures honesty { D.is_honest disk.new ↔ D.is_honest disk.old }
    ensures writes { D.write_faults disk.old ≤ D.write_faults disk.new }
    ensures kept { OnOk result (D.write_faults disk.new ≡ D.write_faults disk.old) }
    ensures read_faults { D.read_faults disk.new ≡ D.read_faults disk.old }
{
    match vv_journal::format(disk, geometry, area) {
        Ok(journal) => Ok(journal),
        Err(fault) => Err(ArrayFault::Disk(fault)),
    }
}

/// The whole area of this empty core.
fn area_of(alloc: Global, geometry: Geometry, core: &Core) -> Result<Vec<u8>, NoMemory>
    requires empty { core.now.array ≡ empty_array geometry }
    ensures area { IfOk result (λ area. area.items ≡ empty_area geometry) }
    ensures fits { IfOk result (λ area. 8 + length area.items ≤ area_bytes geometry) }
{
    let len = core.area_len();
    let mut area = zeros(alloc, len as usize)?;
    core.area_piece(0, &mut area);
    Ok(area)
}

/// So many zeros.
fn zeros(alloc: Global, count: usize) -> Result<Vec<u8>, NoMemory>
    ensures bytes { IfOk result (λ bytes. bytes.items ≡ replicate count 0) }
    ensures length { IfOk result (λ bytes. length bytes.items ≡ count) }
{
    vec![in alloc; 0; count].map_err(|_| NoMemory)
}
