//! Records are written.
ghost use Rattle.std.specs.Prelude.{◌≡◌, ◌≤◌, ◌+◌, ◌-◌, ◌++◌, IsTrue, IfOk, length, vec_len};
ghost use Rattle.std.specs.List.{flat_map};
ghost use Rattle.vv_fields.specs.Fields.{be_bytes};
ghost use Rattle.vv_record.specs.Spelling as spelled;
ghost use Rattle.vv_record.specs.Spelling.{is_spellable, is_spellable_event, spelling, record_limit, fields_spelling};
ghost use Rattle.vv_record.specs.declared.record.Event.TheVariants as event_of;

use crate::kinds::*;
use crate::record::{
    ChunkCopy, ChunkRange, CopyList, EndpointList, Event, PlaceList, RangeList, Record,
};
use std::alloc::Global;
use vv_fields::Writer;
use vv_units::{
    ContainerId, EndpointId, HostId, Key, Need, NeedList, NoMemory, Note, Offer, OfferList, Place,
    Secondary, TaskId, VolumeId, VvolType,
};

/// The most bytes of a record.
const MOST_BYTES: usize = 4088;

/// The spelling of a record.
pub fn encode(alloc: Global, record: &Record) -> Result<Vec<u8>, NoMemory>
    requires { IsTrue (is_spellable «record».now) }
    ensures exact { IfOk result (λ bytes. bytes.items ≡ spelling «record».now) }
    ensures limited { IfOk result (λ bytes. vec_len bytes ≤ record_limit) }
{
    let mut out = Writer::new(alloc, MOST_BYTES)?;
    out.u8(mark_of(record.first_after_open));
    out.u8(kind_of(&record.event));
    put_event(&mut out, &record.event);
    Ok(out.finish())
}

fn mark_of(first_after_open: bool) -> u8
    ensures { result ≡ spelled.mark_of first_after_open }
{
    if first_after_open { 1 } else { 0 }
}

fn kind_of(event: &Event) -> u8
    ensures { result ≡ spelled.kind_of event.now }
{
    match event {
        Event::MakeContainer { .. } => MAKE_CONTAINER,
        Event::MakeVolume { .. } => MAKE_VOLUME,
        Event::DeleteVolume { .. } => DELETE_VOLUME,
        Event::GrowVolume { .. } => GROW_VOLUME,
        Event::SetMetadata { .. } => SET_METADATA,
        Event::Snapshot { .. } => SNAPSHOT,
        Event::FastClone { .. } => FAST_CLONE,
        Event::Revert { .. } => REVERT,
        Event::Write { .. } => WRITE,
        Event::Unmap { .. } => UNMAP,
        Event::SetEndpoints { .. } => SET_ENDPOINTS,
        Event::Bind { .. } => BIND,
        Event::Unbind { .. } => UNBIND,
        Event::UnbindAll { .. } => UNBIND_ALL,
        Event::StartClone { .. } => START_CLONE,
        Event::StartCopy { .. } => START_COPY,
        Event::Turn { .. } => TURN,
        Event::Cancel { .. } => CANCEL,
    }
}

fn type_number(vtype: VvolType) -> u8
    ensures { result ≡ spelled.type_number vtype }
{
    match vtype {
        VvolType::Config => 0,
        VvolType::Data => 1,
        VvolType::Swap => 2,
        VvolType::Memory => 3,
        VvolType::Other => 4,
    }
}

/// Writes a length byte and the bytes.
fn put_text(out: &mut Writer, text: &[u8])
    requires size { length text.now ≤ 96 }
    requires room { 1 + length text.now ≤ out.old.left }
    ensures bytes { out.new.bytes ≡ out.old.bytes ++ spelled.text_spelling text.now }
    ensures left { out.old.left ≡ out.new.left + (1 + length text.now) }
{
    out.u8(text.len() as u8);
    out.bytes(text);
}

fn put_key(out: &mut Writer, key: &Key)
    requires room { 33 ≤ out.old.left }
    ensures bytes { out.new.bytes ≡ out.old.bytes ++ spelled.text_spelling key.now }
    ensures left { out.old.left ≤ out.new.left + 33 }
{
    put_text(out, key.items());
}

/// Writes a 1 and the note, or a 0.
fn put_note(out: &mut Writer, note: &Option<Note>)
    requires room { 98 ≤ out.old.left }
    ensures bytes { out.new.bytes ≡ out.old.bytes ++ spelled.note_spelling note.now }
{
    match note {
        Some(note) => {
            out.u8(1);
            put_text(out, note.items());
        }
        None => out.u8(0),
    }
}

fn put_offer(out: &mut Writer, offer: &Offer)
    requires room { 33 ≤ out.old.left }
    ensures bytes { out.new.bytes ≡ out.old.bytes ++ spelled.offer_spelling offer.now }
    ensures left { out.old.left ≤ out.new.left + 33 }
{
    put_text(out, offer.name.items());
    out.u64(offer.value);
}

fn put_offers(out: &mut Writer, offers: &OfferList)
    requires list { IsTrue (spelled.are_offers offers.now) }
    requires room { 529 ≤ out.old.left }
    ensures { out.new.bytes ≡ out.old.bytes ++ spelled.offers_spelling offers.now }
{
    let items = offers.items();
    out.u8(items.len() as u8);
    for offer in items {
        put_offer(out, offer);
    }
}

fn put_need(out: &mut Writer, need: &Need)
    requires room { 33 ≤ out.old.left }
    ensures bytes { out.new.bytes ≡ out.old.bytes ++ spelled.need_spelling need.now }
    ensures left { out.old.left ≤ out.new.left + 33 }
{
    put_text(out, need.name.items());
    out.u64(need.value);
}

fn put_needs(out: &mut Writer, needs: &NeedList)
    requires list { IsTrue (spelled.are_needs needs.now) }
    requires room { 265 ≤ out.old.left }
    ensures { out.new.bytes ≡ out.old.bytes ++ spelled.needs_spelling needs.now }
{
    let items = needs.items();
    out.u8(items.len() as u8);
    for need in items {
        put_need(out, need);
    }
}

fn put_place(out: &mut Writer, place: &Place)
    requires room { 4 ≤ out.old.left }
    ensures bytes { out.new.bytes ≡ out.old.bytes ++ spelled.place_spelling place.now }
    ensures left { out.old.left ≤ out.new.left + 4 }
{
    out.u32(place.0);
}

fn put_places(out: &mut Writer, places: &PlaceList)
    requires list { IsTrue (spelled.are_places places.now) }
    requires room { 1030 ≤ out.old.left }
    ensures { out.new.bytes ≡ out.old.bytes ++ spelled.places_spelling places.now }
{
    let items = places.items();
    out.u16(items.len() as u16);
    for place in items {
        put_place(out, place);
    }
}

fn put_range(out: &mut Writer, range: &ChunkRange)
    requires room { 8 ≤ out.old.left }
    ensures bytes { out.new.bytes ≡ out.old.bytes ++ spelled.range_spelling range.now }
    ensures left { out.old.left ≤ out.new.left + 8 }
{
    out.u32(range.first_chunk);
    out.u32(range.chunks);
}

fn put_ranges(out: &mut Writer, ranges: &RangeList)
    requires list { IsTrue (spelled.are_ranges ranges.now) }
    requires room { 513 ≤ out.old.left }
    ensures { out.new.bytes ≡ out.old.bytes ++ spelled.ranges_spelling ranges.now }
{
    let items = ranges.items();
    out.u8(items.len() as u8);
    for range in items {
        put_range(out, range);
    }
}

fn put_endpoint(out: &mut Writer, endpoint: &EndpointId)
    requires room { 2 ≤ out.old.left }
    ensures bytes { out.new.bytes ≡ out.old.bytes ++ spelled.endpoint_spelling endpoint.now }
    ensures left { out.old.left ≤ out.new.left + 2 }
{
    out.u16(endpoint.0);
}

fn put_endpoints(out: &mut Writer, endpoints: &EndpointList)
    requires list { IsTrue (spelled.are_endpoints endpoints.now) }
    requires room { 17 ≤ out.old.left }
    ensures { out.new.bytes ≡ out.old.bytes ++ spelled.endpoints_spelling endpoints.now }
{
    let items = endpoints.items();
    out.u8(items.len() as u8);
    for endpoint in items {
        put_endpoint(out, endpoint);
    }
}

fn put_copy(out: &mut Writer, copy: &ChunkCopy)
    requires room { 8 ≤ out.old.left }
    ensures bytes { out.new.bytes ≡ out.old.bytes ++ spelled.copy_spelling copy.now }
    ensures left { out.old.left ≤ out.new.left + 8 }
{
    out.u32(copy.index);
    out.u32(copy.place.0);
}

fn put_copies(out: &mut Writer, copies: &CopyList)
    requires list { IsTrue (spelled.are_copies copies.now) }
    requires room { 129 ≤ out.old.left }
    ensures { out.new.bytes ≡ out.old.bytes ++ spelled.copies_spelling copies.now }
{
    let items = copies.items();
    out.u8(items.len() as u8);
    for copy in items {
        put_copy(out, copy);
    }
}

fn put_make_container(out: &mut Writer, quota: u64, offers: &OfferList)
    requires list { IsTrue (spelled.are_offers offers.now) }
    requires room { 537 ≤ out.old.left }
    ensures { out.new.bytes ≡ out.old.bytes ++ fields_spelling (event_of.MakeContainer quota offers.now) }
{
    out.u64(quota);
    put_offers(out, offers);
}

fn put_make_volume(
    out: &mut Writer,
    container: ContainerId,
    vtype: VvolType,
    chunks: u32,
    needs: &NeedList,
)
    requires list { IsTrue (spelled.are_needs needs.now) }
    requires room { 278 ≤ out.old.left }
    ensures { out.new.bytes ≡ out.old.bytes ++ fields_spelling (event_of.MakeVolume container vtype chunks needs.now) }
{
    out.u64(container.0);
    out.u8(type_number(vtype));
    out.u32(chunks);
    put_needs(out, needs);
}

fn put_set_metadata(out: &mut Writer, volume: VolumeId, key: &Key, note: &Option<Note>)
    requires room { 139 ≤ out.old.left }
    ensures { out.new.bytes ≡ out.old.bytes ++ fields_spelling (event_of.SetMetadata volume key.now note.now) }
{
    out.u64(volume.0);
    put_key(out, key);
    put_note(out, note);
}

fn put_write(out: &mut Writer, volume: VolumeId, first_block: u64, blocks: u32, places: &PlaceList)
    requires list { IsTrue (spelled.are_places places.now) }
    requires room { 1050 ≤ out.old.left }
    ensures { out.new.bytes ≡ out.old.bytes ++ fields_spelling (event_of.Write volume first_block blocks places.now) }
{
    out.u64(volume.0);
    out.u64(first_block);
    out.u32(blocks);
    put_places(out, places);
}

fn put_unmap(out: &mut Writer, volume: VolumeId, ranges: &RangeList)
    requires list { IsTrue (spelled.are_ranges ranges.now) }
    requires room { 521 ≤ out.old.left }
    ensures { out.new.bytes ≡ out.old.bytes ++ fields_spelling (event_of.Unmap volume ranges.now) }
{
    out.u64(volume.0);
    put_ranges(out, ranges);
}

fn put_set_endpoints(out: &mut Writer, host: HostId, endpoints: &EndpointList)
    requires list { IsTrue (spelled.are_endpoints endpoints.now) }
    requires room { 21 ≤ out.old.left }
    ensures { out.new.bytes ≡ out.old.bytes ++ fields_spelling (event_of.SetEndpoints host endpoints.now) }
{
    out.u32(host.0);
    put_endpoints(out, endpoints);
}

fn put_unbind(out: &mut Writer, host: HostId, endpoint: EndpointId, secondary: Secondary)
    requires room { 8 ≤ out.old.left }
    ensures { out.new.bytes ≡ out.old.bytes ++ fields_spelling (event_of.Unbind host endpoint secondary) }
{
    out.u32(host.0);
    out.u16(endpoint.0);
    out.u16(secondary.0);
}

fn put_start_copy(out: &mut Writer, source: VolumeId, base: VolumeId, target: VolumeId)
    requires room { 24 ≤ out.old.left }
    ensures { out.new.bytes ≡ out.old.bytes ++ fields_spelling (event_of.StartCopy source base target) }
{
    out.u64(source.0);
    out.u64(base.0);
    out.u64(target.0);
}

fn put_turn(out: &mut Writer, task: TaskId, copies: &CopyList)
    requires list { IsTrue (spelled.are_copies copies.now) }
    requires room { 137 ≤ out.old.left }
    ensures { out.new.bytes ≡ out.old.bytes ++ fields_spelling (event_of.Turn task copies.now) }
{
    out.u64(task.0);
    put_copies(out, copies);
}

/// Writes the fields of an event.
fn put_event(out: &mut Writer, event: &Event)
    requires event { IsTrue (is_spellable_event event.now) }
    requires room { 1050 ≤ out.old.left }
    ensures { out.new.bytes ≡ out.old.bytes ++ fields_spelling event.now }
{
    match event {
        Event::MakeContainer { quota, offers } => put_make_container(out, *quota, offers),
        Event::MakeVolume {
            container,
            vtype,
            chunks,
            needs,
        } => put_make_volume(out, *container, *vtype, *chunks, needs),
        Event::DeleteVolume { volume } => out.u64(volume.0),
        Event::GrowVolume { volume, chunks } => {
            out.u64(volume.0);
            out.u32(*chunks);
        }
        Event::SetMetadata { volume, key, note } => put_set_metadata(out, *volume, key, note),
        Event::Snapshot { volume } => out.u64(volume.0),
        Event::FastClone { volume } => out.u64(volume.0),
        Event::Revert { volume, snapshot } => {
            out.u64(volume.0);
            out.u64(snapshot.0);
        }
        Event::Write {
            volume,
            first_block,
            blocks,
            places,
        } => put_write(out, *volume, *first_block, *blocks, places),
        Event::Unmap { volume, ranges } => put_unmap(out, *volume, ranges),
        Event::SetEndpoints { host, endpoints } => put_set_endpoints(out, *host, endpoints),
        Event::Bind { host, volume } => {
            out.u32(host.0);
            out.u64(volume.0);
        }
        Event::Unbind {
            host,
            endpoint,
            secondary,
        } => put_unbind(out, *host, *endpoint, *secondary),
        Event::UnbindAll { host } => out.u32(host.0),
        Event::StartClone { volume } => out.u64(volume.0),
        Event::StartCopy {
            source,
            base,
            target,
        } => put_start_copy(out, *source, *base, *target),
        Event::Turn { task, copies } => put_turn(out, *task, copies),
        Event::Cancel { task } => out.u64(task.0),
    }
}
