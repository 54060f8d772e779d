//! The table of volumes.
ghost use Rattle.std.specs.Prelude.{◌≡◌, ◌<◌, ◌^◌, Some, slice_get};
ghost use Rattle.std.specs.List.{flat_map};
ghost use Rattle.vv_flat.specs.Lists.{if_found};
ghost use Rattle.vv_flat.specs.State.{Volume};
ghost use Rattle.vv_flat.specs.Chunks.{Entry as SeenEntry};
ghost use Rattle.vv_record.specs.Spelling.{list_spelling};
ghost use Rattle.vv_vols.specs.Rows.{seen_entry, volume_with};
ghost use Rattle.vv_tables.specs.Places.{chunks_at};
ghost use Rattle.vv_area.specs.Spelling.{kind_number, source_number, kind_spelling, entry_spelling, entries_spelling, volume_spelling};
ghost use Rattle.vv_area.specs.Lengths.{volume_length, area_length};
ghost use Rattle.vv_spell.specs.Window.{seen, behind};

use crate::fields::{put_entry, put_metadata, put_needs, type_number};
use crate::lengths::{needs_len, pairs_len};
use crate::window::Window;
use vv_entries::Entry;
use vv_tables::Tables;
use vv_units::{VolumeId, VolumeKind};
use vv_vols::Head;

/// How many entries a page has.
const PAGE: u32 = 64;

/// How many bytes a page is spelled in.
const PAGE_BYTES: u32 = 768;

fn kind_number(kind: VolumeKind) -> u64
    ensures { result ≡ kind_number kind }
{
    match kind {
        VolumeKind::Plain => 0,
        VolumeKind::SnapshotOf(_) => 1,
        VolumeKind::FastCloneOf(_) => 2,
        VolumeKind::FullCloneOf(_) => 3,
    }
}

fn source_number(kind: VolumeKind) -> u64
    ensures { result ≡ source_number kind }
{
    match kind {
        VolumeKind::Plain => 0,
        VolumeKind::SnapshotOf(volume)
        | VolumeKind::FastCloneOf(volume)
        | VolumeKind::FullCloneOf(volume) => volume.0,
    }
}

#[tactic(auto, using(crate::proofs::WindowLemmas::put_two))]
fn put_kind(window: &mut Window, into: &mut [u8], kind: VolumeKind)
    ensures { seen window.new into.new ≡ behind (seen window.old into.old) (kind_spelling kind) }
{
    window.put_number(into, 1, kind_number(kind));
    window.put_number(into, 8, source_number(kind));
}

fn put_page(window: &mut Window, into: &mut [u8], page: &[Entry])
    ensures { seen window.new into.new ≡ behind (seen window.old into.old) (flat_map (λ e. entry_spelling (seen_entry e)) page.now) }
{
    for entry in page {
        put_entry(window, into, entry);
    }
}

fn put_pages(window: &mut Window, into: &mut [u8], tables: &Tables, i: u32)
    ensures { seen window.new into.new ≡ behind (seen window.old into.old) (flat_map entry_spelling (chunks_at tables.now.durable i)) }
{
    let count = tables.chunk_count_at(i);
    let first = window.pass_items(count / PAGE, PAGE_BYTES);
    for k in first..count.div_ceil(PAGE) {
        if window.is_full(into) {
            return;
        }
        put_page(window, into, tables.page_at(i, k));
    }
}

#[tactic(auto, using(crate::proofs::WindowLemmas::put_two))]
fn put_chunks(window: &mut Window, into: &mut [u8], tables: &Tables, i: u32)
    ensures { seen window.new into.new ≡ behind (seen window.old into.old) (entries_spelling (chunks_at tables.now.durable i)) }
{
    window.put_number(into, 4, tables.chunk_count_at(i) as u64);
    put_pages(window, into, tables, i);
}

#[tactic(auto, using(crate::proofs::WindowLemmas::put_two, crate::proofs::WindowLemmas::put_end))]
fn put_volume(
    window: &mut Window,
    into: &mut [u8],
    tables: &Tables,
    i: u32,
    id: VolumeId,
    head: &Head,
)
    ensures { seen window.new into.new ≡ behind (seen window.old into.old) (volume_spelling 2 (volume_with id.0 head.now (chunks_at tables.now.durable i))) }
{
    window.put_number(into, 8, id.0);
    window.put_number(into, 8, head.container.0);
    window.put_number(into, 1, type_number(head.vtype));
    put_kind(window, into, head.kind);
    window.put_number(into, 8, head.reverted);
    put_needs(window, into, head.needs.items());
    put_metadata(window, into, &head.metadata);
    put_chunks(window, into, tables, i);
}

/// How many bytes the volume at a place is spelled in: none past the last.
pub(crate) fn volume_len_at(tables: &Tables, i: u32) -> u64
    requires fits { area_length 2 tables.now.durable < 2 ^ 64 }
    ensures { result ≡ if_found (slice_get tables.now.durable.volumes i) (volume_length 2) 0 }
{
    match tables.volume_at(i) {
        Some((_, head)) => {
            let chunks = tables.chunk_count_at(i) as u64;
            38 + needs_len(head.needs.items()) + pairs_len(&head.metadata) + 12 * chunks
        }
        None => 0,
    }
}

fn put_volume_at(window: &mut Window, into: &mut [u8], tables: &Tables, i: u32)
    requires fits { area_length 2 tables.now.durable < 2 ^ 64 }
    ensures { (v : Volume SeenEntry) → slice_get tables.now.durable.volumes i ≡ Some v → seen window.new into.new ≡ behind (seen window.old into.old) (volume_spelling 2 v) }
{
    if window.pass(into, volume_len_at(tables, i)) {
        return;
    }
    if let Some((id, head)) = tables.volume_at(i) {
        put_volume(window, into, tables, i, id, head);
    }
}

fn put_each_volume(window: &mut Window, into: &mut [u8], tables: &Tables)
    requires fits { area_length 2 tables.now.durable < 2 ^ 64 }
    ensures { seen window.new into.new ≡ behind (seen window.old into.old) (flat_map (volume_spelling 2) tables.now.durable.volumes) }
{
    for i in 0..tables.standing_volumes() {
        put_volume_at(window, into, tables, i);
    }
}

/// Puts the volumes.
#[tactic(auto, using(crate::proofs::WindowLemmas::put_two))]
pub(crate) fn put_volumes(window: &mut Window, into: &mut [u8], tables: &Tables)
    requires fits { area_length 2 tables.now.durable < 2 ^ 64 }
    ensures { seen window.new into.new ≡ behind (seen window.old into.old) (list_spelling 2 (volume_spelling 2) tables.now.durable.volumes) }
{
    window.put_number(into, 2, tables.standing_volumes() as u64);
    put_each_volume(window, into, tables);
}
