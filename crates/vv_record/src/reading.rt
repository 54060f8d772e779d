//! Records are read.
ghost use Rattle.std.specs.Prelude.{◌≡◌};
ghost use Rattle.vv_record.specs.Reading.{Gives};
ghost use Rattle.vv_record.specs.Records as form;
ghost use Rattle.vv_record.specs.Records.{Tells, record_in, record_form};

use crate::fields::Fields;
use crate::kinds::*;
use crate::lists::{copies, endpoints, needs, offers, places, ranges};
use crate::record::{Event, Record, RecordFault};
use std::alloc::Global;

/// The record that bytes spell. Where they spell none, the fault tells at which place.
#[tactic(auto, unfolding(crate::specs::Records::record_in))]
pub fn decode(alloc: Global, bytes: &[u8]) -> Result<Record, RecordFault>
    ensures { Tells result (record_in bytes.now) }
{
    let mut fields = Fields::new(bytes);
    let record = record(alloc, &mut fields)?;
    if !fields.is_at_end() {
        return Err(RecordFault::Bad { at: fields.at() });
    }
    Ok(record)
}

#[tactic(auto, unfolding(crate::specs::Records::record_form))]
fn record(alloc: Global, fields: &mut Fields) -> Result<Record, RecordFault>
    ensures { Gives result fields.new (record_form fields.old) }
{
    let mark = fields.u8_within(0, 1)?;
    let kind = fields.u8_within(1, 18)?;
    let event = event(alloc, kind, fields)?;
    Ok(Record {
        first_after_open: mark == 1,
        event,
    })
}

/// The event of a kind from 1 to 18.
#[tactic(auto, unfolding(crate::specs::Records::fields_of))]
fn event(alloc: Global, kind: u8, fields: &mut Fields) -> Result<Event, RecordFault>
    ensures { Gives result fields.new (form.fields_of kind fields.old) }
{
    match kind {
        MAKE_CONTAINER => make_container(alloc, fields),
        MAKE_VOLUME => make_volume(alloc, fields),
        DELETE_VOLUME => delete_volume(fields),
        GROW_VOLUME => grow_volume(fields),
        SET_METADATA => set_metadata(alloc, fields),
        SNAPSHOT => snapshot(fields),
        FAST_CLONE => fast_clone(fields),
        REVERT => revert(fields),
        WRITE => write(alloc, fields),
        UNMAP => unmap(alloc, fields),
        SET_ENDPOINTS => set_endpoints(alloc, fields),
        BIND => bind(fields),
        UNBIND => unbind(fields),
        UNBIND_ALL => unbind_all(fields),
        START_CLONE => start_clone(fields),
        START_COPY => start_copy(fields),
        TURN => turn(alloc, fields),
        _ => cancel(fields),
    }
}

#[tactic(auto, unfolding(crate::specs::Records::make_container))]
fn make_container(alloc: Global, fields: &mut Fields) -> Result<Event, RecordFault>
    ensures { Gives result fields.new (form.make_container fields.old) }
{
    let quota = fields.quota()?;
    let offers = offers(alloc, fields)?;
    Ok(Event::MakeContainer { quota, offers })
}

#[tactic(auto, unfolding(crate::specs::Records::make_volume))]
fn make_volume(alloc: Global, fields: &mut Fields) -> Result<Event, RecordFault>
    ensures { Gives result fields.new (form.make_volume fields.old) }
{
    let container = fields.container()?;
    let vtype = fields.vvol_type()?;
    let chunks = fields.size()?;
    let needs = needs(alloc, fields)?;
    Ok(Event::MakeVolume {
        container,
        vtype,
        chunks,
        needs,
    })
}

#[tactic(auto, unfolding(crate::specs::Records::delete_volume))]
fn delete_volume(fields: &mut Fields) -> Result<Event, RecordFault>
    ensures { Gives result fields.new (form.delete_volume fields.old) }
{
    let volume = fields.volume()?;
    Ok(Event::DeleteVolume { volume })
}

#[tactic(auto, unfolding(crate::specs::Records::grow_volume))]
fn grow_volume(fields: &mut Fields) -> Result<Event, RecordFault>
    ensures { Gives result fields.new (form.grow_volume fields.old) }
{
    let volume = fields.volume()?;
    let chunks = fields.size()?;
    Ok(Event::GrowVolume { volume, chunks })
}

#[tactic(auto, unfolding(crate::specs::Records::set_metadata))]
fn set_metadata(alloc: Global, fields: &mut Fields) -> Result<Event, RecordFault>
    ensures { Gives result fields.new (form.set_metadata fields.old) }
{
    let volume = fields.volume()?;
    let key = fields.key(alloc)?;
    let note = fields.optional_note(alloc)?;
    Ok(Event::SetMetadata { volume, key, note })
}

#[tactic(auto, unfolding(crate::specs::Records::snapshot))]
fn snapshot(fields: &mut Fields) -> Result<Event, RecordFault>
    ensures { Gives result fields.new (form.snapshot fields.old) }
{
    let volume = fields.volume()?;
    Ok(Event::Snapshot { volume })
}

#[tactic(auto, unfolding(crate::specs::Records::fast_clone))]
fn fast_clone(fields: &mut Fields) -> Result<Event, RecordFault>
    ensures { Gives result fields.new (form.fast_clone fields.old) }
{
    let volume = fields.volume()?;
    Ok(Event::FastClone { volume })
}

#[tactic(auto, unfolding(crate::specs::Records::revert))]
fn revert(fields: &mut Fields) -> Result<Event, RecordFault>
    ensures { Gives result fields.new (form.revert fields.old) }
{
    let volume = fields.volume()?;
    let snapshot = fields.volume()?;
    Ok(Event::Revert { volume, snapshot })
}

#[tactic(auto, unfolding(crate::specs::Records::write))]
fn write(alloc: Global, fields: &mut Fields) -> Result<Event, RecordFault>
    ensures { Gives result fields.new (form.write fields.old) }
{
    let volume = fields.volume()?;
    let first_block = fields.u64()?;
    let blocks = fields.u32_within(1, 2048)?;
    let places = places(alloc, fields)?;
    Ok(Event::Write {
        volume,
        first_block,
        blocks,
        places,
    })
}

#[tactic(auto, unfolding(crate::specs::Records::unmap))]
fn unmap(alloc: Global, fields: &mut Fields) -> Result<Event, RecordFault>
    ensures { Gives result fields.new (form.unmap fields.old) }
{
    let volume = fields.volume()?;
    let ranges = ranges(alloc, fields)?;
    Ok(Event::Unmap { volume, ranges })
}

#[tactic(auto, unfolding(crate::specs::Records::set_endpoints))]
fn set_endpoints(alloc: Global, fields: &mut Fields) -> Result<Event, RecordFault>
    ensures { Gives result fields.new (form.set_endpoints fields.old) }
{
    let host = fields.host()?;
    let endpoints = endpoints(alloc, fields)?;
    Ok(Event::SetEndpoints { host, endpoints })
}

#[tactic(auto, unfolding(crate::specs::Records::bind))]
fn bind(fields: &mut Fields) -> Result<Event, RecordFault>
    ensures { Gives result fields.new (form.bind fields.old) }
{
    let host = fields.host()?;
    let volume = fields.volume()?;
    Ok(Event::Bind { host, volume })
}

#[tactic(auto, unfolding(crate::specs::Records::unbind))]
fn unbind(fields: &mut Fields) -> Result<Event, RecordFault>
    ensures { Gives result fields.new (form.unbind fields.old) }
{
    let host = fields.host()?;
    let endpoint = fields.endpoint()?;
    let secondary = fields.secondary()?;
    Ok(Event::Unbind {
        host,
        endpoint,
        secondary,
    })
}

#[tactic(auto, unfolding(crate::specs::Records::unbind_all))]
fn unbind_all(fields: &mut Fields) -> Result<Event, RecordFault>
    ensures { Gives result fields.new (form.unbind_all fields.old) }
{
    let host = fields.host()?;
    Ok(Event::UnbindAll { host })
}

#[tactic(auto, unfolding(crate::specs::Records::start_clone))]
fn start_clone(fields: &mut Fields) -> Result<Event, RecordFault>
    ensures { Gives result fields.new (form.start_clone fields.old) }
{
    let volume = fields.volume()?;
    Ok(Event::StartClone { volume })
}

#[tactic(auto, unfolding(crate::specs::Records::start_copy))]
fn start_copy(fields: &mut Fields) -> Result<Event, RecordFault>
    ensures { Gives result fields.new (form.start_copy fields.old) }
{
    let source = fields.volume()?;
    let base = fields.volume()?;
    let target = fields.volume()?;
    Ok(Event::StartCopy {
        source,
        base,
        target,
    })
}

#[tactic(auto, unfolding(crate::specs::Records::turn))]
fn turn(alloc: Global, fields: &mut Fields) -> Result<Event, RecordFault>
    ensures { Gives result fields.new (form.turn fields.old) }
{
    let task = fields.task()?;
    let copies = copies(alloc, fields)?;
    Ok(Event::Turn { task, copies })
}

#[tactic(auto, unfolding(crate::specs::Records::cancel))]
fn cancel(fields: &mut Fields) -> Result<Event, RecordFault>
    ensures { Gives result fields.new (form.cancel fields.old) }
{
    let task = fields.task()?;
    Ok(Event::Cancel { task })
}
