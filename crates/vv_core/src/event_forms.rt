//! Why the events that are planned have their forms, and can be spelled. No function here does anything: each says what is so.
ghost use Rattle.std.specs.Prelude.{◌≡◌, ◌&&◌, true, false, None, IsTrue};
ghost use Rattle.std.specs.List.{list_all};
ghost use Rattle.vv_units.specs.Names.{is_key};
ghost use Rattle.vv_flat.specs.Chunks.{shape_of_tables};
ghost use Rattle.vv_flat.specs.Refusals.{Accept};
ghost use Rattle.vv_flat.specs.Changes.{judge};
ghost use Rattle.vv_flat.specs.Fields.{change_has_forms, is_number, is_optional_note};
ghost use Rattle.vv_record.specs.Spelling.{is_spellable};
ghost use Rattle.vv_event.specs.Events.{change_of};
ghost use Rattle.vv_core.specs.FormedChanges.{IsFormedChange};
ghost use Rattle.vv_core.specs.TypedEvents.{is_typed_offer, is_typed_need, is_typed_endpoint, is_typed};

use vv_record::Event;
use vv_tables::Tables;
use vv_units::{EndpointId, Key, Need, Note, Offer};

/// Says of an event that takes no place, and is accepted, that its fields have their forms and that it can be spelled.
pub(crate) fn has_forms(tables: &Tables, event: &Event)
    requires formed { IsFormedChange (change_of event.now) }
    requires accepted { judge None (shape_of_tables tables.now.durable) (change_of event.now) ≡ Accept }
    ensures forms { IsTrue (change_has_forms (change_of event.now)) }
    ensures spellable { IsTrue (is_spellable (record { first_after_open = false; event = event.now })) }
{
    let _well_formed = tables.lsn();
    is_typed(event);
}

/// Says what the types of an event's fields say of them.
fn is_typed(event: &Event)
    ensures { is_typed event.now ≡ true }
{
    match event {
        Event::MakeContainer { quota: _, offers } => are_typed_offers(offers.items()),
        Event::MakeVolume {
            container,
            vtype: _,
            chunks: _,
            needs,
        } => {
            is_wide(container.0);
            are_typed_needs(needs.items());
        }
        Event::SetMetadata { volume, key, note } => {
            is_wide(volume.0);
            is_typed_key(key);
            is_typed_note(note);
        }
        Event::SetEndpoints { host: _, endpoints } => are_typed_endpoints(endpoints.items()),
        Event::Unbind {
            host: _,
            endpoint,
            secondary,
        } => {
            is_short(endpoint.0);
            is_short(secondary.0);
        }
        Event::Revert { volume, snapshot } => {
            is_wide(volume.0);
            is_wide(snapshot.0);
        }
        Event::StartCopy {
            source,
            base,
            target,
        } => {
            is_wide(source.0);
            is_wide(base.0);
            is_wide(target.0);
        }
        Event::DeleteVolume { volume } => is_wide(volume.0),
        Event::GrowVolume { volume, chunks: _ } => is_wide(volume.0),
        Event::Snapshot { volume } => is_wide(volume.0),
        Event::FastClone { volume } => is_wide(volume.0),
        Event::Unmap { volume, ranges: _ } => is_wide(volume.0),
        Event::Bind { host: _, volume } => is_wide(volume.0),
        Event::StartClone { volume } => is_wide(volume.0),
        Event::Cancel { task } => is_wide(task.0),
        Event::Write { .. } => {}
        Event::UnbindAll { .. } => {}
        Event::Turn { .. } => {}
    }
}

/// A number of 64 bits.
fn is_wide(number: u64)
    ensures { is_number 64 number ≡ true }
{}

/// A number of 16 bits.
fn is_short(number: u16)
    ensures { is_number 16 number ≡ true }
{}

fn is_typed_key(key: &Key)
    ensures { is_key key.now ≡ true }
{
    let _characters = key.items();
}

fn is_typed_note(note: &Option<Note>)
    ensures { is_optional_note note.now ≡ true }
{
    match note {
        Some(note) => {
            let _characters = note.items();
        }
        None => {}
    }
}

fn is_typed_offer(offer: &Offer)
    ensures { is_typed_offer offer.now ≡ true }
{
    let _characters = offer.name.items();
    is_wide(offer.value);
}

fn are_typed_offers(offers: &[Offer])
    ensures { list_all is_typed_offer offers.now ≡ true }
{
    for offer in offers {
        is_typed_offer(offer);
    }
}

fn is_typed_need(need: &Need)
    ensures { is_typed_need need.now ≡ true }
{
    let _characters = need.name.items();
    is_wide(need.value);
}

fn are_typed_needs(needs: &[Need])
    ensures { list_all is_typed_need needs.now ≡ true }
{
    for need in needs {
        is_typed_need(need);
    }
}

fn is_typed_endpoint(endpoint: &EndpointId)
    ensures { is_typed_endpoint endpoint.now ≡ true }
{
    is_short(endpoint.0);
}

fn are_typed_endpoints(endpoints: &[EndpointId])
    ensures { list_all is_typed_endpoint endpoints.now ≡ true }
{
    for endpoint in endpoints {
        is_typed_endpoint(endpoint);
    }
}
