//! Volumes and running clones are read without the lists of entries that end them.
ghost use Rattle.std.specs.Prelude.{◌≡◌};
ghost use Rattle.vv_record.specs.Reading.{Gives};
ghost use Rattle.vv_area_reader.specs.Heads as form;

use std::alloc::Global;
use vv_area::{RawClone, RawVolume, metadata_pairs, reverted, volume_kind, volume_number};
use vv_record::{Fields, RecordFault, needs};
use vv_units::{ContainerId, ItemList, TaskId, VolumeId};

/// A volume without its entries, behind these.
#[tactic(auto, unfolding(crate::specs::Heads::volume_head))]
pub(crate) fn volume_head(
    alloc: Global,
    spelling: u8,
    before: &[RawVolume],
    fields: &mut Fields,
) -> Result<RawVolume, RecordFault>
    ensures { Gives result fields.new (form.volume_head spelling before.now fields.old) }
{
    let number = volume_number(before, fields)?;
    let container = fields.u64()?;
    let vtype = fields.vvol_type()?;
    let kind = volume_kind(fields)?;
    let reverted = reverted(spelling, fields)?;
    let needs = needs(alloc, fields)?;
    let metadata = metadata_pairs(alloc, spelling, fields)?;
    Ok(RawVolume {
        number: VolumeId(number),
        container: ContainerId(container),
        vtype,
        kind,
        reverted,
        needs,
        metadata,
        entries: ItemList::of(Vec::new(alloc)),
    })
}

/// A running clone without its image and its target.
#[tactic(auto, unfolding(crate::specs::Heads::clone_head))]
pub(crate) fn clone_head(
    alloc: Global,
    spelling: u8,
    number: TaskId,
    fields: &mut Fields,
) -> Result<RawClone, RecordFault>
    ensures { Gives result fields.new (form.clone_head spelling number.0 fields.old) }
{
    let container = fields.u64()?;
    let vtype = fields.vvol_type()?;
    let needs = needs(alloc, fields)?;
    let metadata = metadata_pairs(alloc, spelling, fields)?;
    Ok(RawClone {
        number,
        container: ContainerId(container),
        vtype,
        needs,
        metadata,
        image: ItemList::of(Vec::new(alloc)),
        target: ItemList::of(Vec::new(alloc)),
    })
}
