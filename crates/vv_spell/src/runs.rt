//! What running tasks hold: the clones and the copies, in the order of the tasks.
ghost use Rattle.std.specs.Prelude.{◌≡◌, ◌+◌, ◌<◌, ◌≤◌, ◌^◌, Some, length, slice_get, take, drop};
ghost use Rattle.std.specs.List.{flat_map};
ghost use Rattle.vv_flat.specs.Lists.{if_found};
ghost use Rattle.vv_flat.specs.State.{Piece};
ghost use Rattle.vv_flat.specs.Chunks.{Entry as SeenEntry};
ghost use Rattle.vv_vols.specs.Rows.{seen_entry};
ghost use Rattle.vv_record.specs.Spelling.{list_spelling};
ghost use Rattle.vv_area.specs.Spelling.{entry_spelling, entries_spelling, piece_spelling, clone_spelling, copy_spelling, runs_spelling};
ghost use Rattle.vv_area.specs.Lengths.{clone_length, copy_length, area_length};
ghost use Rattle.vv_spell.specs.Window.{seen, behind};
ghost use Rattle.vv_spell.specs.Runs.{image_at, target_at, pieces_at, full_clone, rest_from};

use crate::fields::{put_entry, put_metadata, put_needs, type_number};
use crate::lengths::{needs_len, pairs_len};
use crate::window::Window;
use vv_entries::Entry;
use vv_tables::Tables;
use vv_task::Job;
use vv_units::TaskState;
use vv_vols::Head;

/// How many bytes an entry is spelled in.
const ENTRY_BYTES: u32 = 12;

/// How many bytes a piece is spelled in.
const PIECE_BYTES: u32 = 16;

fn put_image_entry(window: &mut Window, into: &mut [u8], tables: &Tables, i: u32, k: u32)
    ensures { (e : SeenEntry) → slice_get (image_at tables.now.durable i) k ≡ Some e → seen window.new into.new ≡ behind (seen window.old into.old) (entry_spelling e) }
{
    if let Some(entry) = tables.image_entry_at(i, k) {
        put_entry(window, into, &entry);
    }
}

fn put_image_entries(window: &mut Window, into: &mut [u8], tables: &Tables, i: u32)
    ensures { seen window.new into.new ≡ behind (seen window.old into.old) (flat_map entry_spelling (image_at tables.now.durable i)) }
{
    let count = tables.image_len_at(i);
    let first = window.pass_items(count, ENTRY_BYTES);
    for k in first..count {
        if window.is_full(into) {
            return;
        }
        put_image_entry(window, into, tables, i, k);
    }
}

#[tactic(auto, using(crate::proofs::WindowLemmas::put_two))]
fn put_image(window: &mut Window, into: &mut [u8], tables: &Tables, i: u32)
    ensures { seen window.new into.new ≡ behind (seen window.old into.old) (entries_spelling (image_at tables.now.durable i)) }
{
    window.put_number(into, 4, tables.image_len_at(i) as u64);
    put_image_entries(window, into, tables, i);
}

fn put_target_entry(window: &mut Window, into: &mut [u8], tables: &Tables, i: u32, k: u32)
    ensures { (e : SeenEntry) → slice_get (target_at tables.now.durable i) k ≡ Some e → seen window.new into.new ≡ behind (seen window.old into.old) (entry_spelling e) }
{
    if let Some(entry) = tables.target_entry_at(i, k) {
        put_entry(window, into, &entry);
    }
}

fn put_target_entries(window: &mut Window, into: &mut [u8], tables: &Tables, i: u32)
    ensures { seen window.new into.new ≡ behind (seen window.old into.old) (flat_map entry_spelling (target_at tables.now.durable i)) }
{
    let count = tables.target_len_at(i);
    let first = window.pass_items(count, ENTRY_BYTES);
    for k in first..count {
        if window.is_full(into) {
            return;
        }
        put_target_entry(window, into, tables, i, k);
    }
}

#[tactic(auto, using(crate::proofs::WindowLemmas::put_two))]
fn put_target(window: &mut Window, into: &mut [u8], tables: &Tables, i: u32)
    ensures { seen window.new into.new ≡ behind (seen window.old into.old) (entries_spelling (target_at tables.now.durable i)) }
{
    window.put_number(into, 4, tables.target_len_at(i) as u64);
    put_target_entries(window, into, tables, i);
}

#[tactic(auto, using(crate::proofs::WindowLemmas::put_two, crate::proofs::WindowLemmas::put_end))]
fn put_clone(window: &mut Window, into: &mut [u8], tables: &Tables, i: u32, head: &Head)
    ensures { seen window.new into.new ≡ behind (seen window.old into.old) (clone_spelling (full_clone tables.now.durable i 0 head.now)) }
{
    window.put_number(into, 8, head.container.0);
    window.put_number(into, 1, type_number(head.vtype));
    put_needs(window, into, head.needs.items());
    put_metadata(window, into, &head.metadata);
    put_image(window, into, tables, i);
    put_target(window, into, tables, i);
}

/// How many bytes the running clone at a place is spelled in: none past the last.
pub(crate) fn clone_len_at(tables: &Tables, i: u32) -> u64
    requires fits { area_length 2 tables.now.durable < 2 ^ 64 }
    ensures { result ≡ if_found (slice_get tables.now.durable.clones i) clone_length 0 }
{
    match tables.clone_at(i) {
        Some((_, head)) => {
            let image = tables.image_len_at(i) as u64;
            let target = tables.target_len_at(i) as u64;
            17 + needs_len(head.needs.items())
                + pairs_len(&head.metadata)
                + 12 * image
                + 12 * target
        }
        None => 0,
    }
}

/// Puts the running clone at a place: nothing past the last.
fn put_clone_at(window: &mut Window, into: &mut [u8], tables: &Tables, i: u32)
    requires fits { area_length 2 tables.now.durable < 2 ^ 64 }
    ensures { seen window.new into.new ≡ behind (seen window.old into.old) (flat_map clone_spelling (take 1 (drop i tables.now.durable.clones))) }
{
    if window.pass(into, clone_len_at(tables, i)) {
        return;
    }
    match tables.clone_at(i) {
        Some((_, head)) => put_clone(window, into, tables, i, head),
        None => {}
    }
}

#[tactic(auto, using(crate::proofs::WindowLemmas::put_two, crate::proofs::WindowLemmas::put_end))]
fn put_piece(window: &mut Window, into: &mut [u8], index: u32, entry: &Entry)
    ensures { seen window.new into.new ≡ behind (seen window.old into.old) (piece_spelling (record { index = index; chunk = seen_entry entry.now })) }
{
    window.put_number(into, 4, index as u64);
    put_entry(window, into, entry);
}

fn put_piece_at(window: &mut Window, into: &mut [u8], tables: &Tables, i: u32, k: u32)
    ensures { (p : Piece SeenEntry) → slice_get (pieces_at tables.now.durable i) k ≡ Some p → seen window.new into.new ≡ behind (seen window.old into.old) (piece_spelling p) }
{
    if let Some((index, entry)) = tables.piece_at(i, k) {
        put_piece(window, into, index, &entry);
    }
}

fn put_each_piece(window: &mut Window, into: &mut [u8], tables: &Tables, i: u32)
    ensures { seen window.new into.new ≡ behind (seen window.old into.old) (flat_map piece_spelling (pieces_at tables.now.durable i)) }
{
    let count = tables.piece_count_at(i);
    let first = window.pass_items(count, PIECE_BYTES);
    for k in first..count {
        if window.is_full(into) {
            return;
        }
        put_piece_at(window, into, tables, i, k);
    }
}

#[tactic(auto, using(crate::proofs::WindowLemmas::put_two))]
fn put_pieces(window: &mut Window, into: &mut [u8], tables: &Tables, i: u32)
    ensures { seen window.new into.new ≡ behind (seen window.old into.old) (list_spelling 4 piece_spelling (pieces_at tables.now.durable i)) }
{
    window.put_number(into, 4, tables.piece_count_at(i) as u64);
    put_each_piece(window, into, tables, i);
}

/// How many bytes the running copy at a place is spelled in: none past the last.
pub(crate) fn copy_len_at(tables: &Tables, i: u32) -> u64
    ensures { result ≡ if_found (slice_get tables.now.durable.copies i) copy_length 0 }
{
    match tables.copy_at(i) {
        Some(_) => 4 + 16 * tables.piece_count_at(i) as u64,
        None => 0,
    }
}

/// Puts the running copy at a place: nothing past the last.
fn put_copy_at(window: &mut Window, into: &mut [u8], tables: &Tables, i: u32)
    ensures { seen window.new into.new ≡ behind (seen window.old into.old) (flat_map copy_spelling (take 1 (drop i tables.now.durable.copies))) }
{
    if window.pass(into, copy_len_at(tables, i)) {
        return;
    }
    match tables.copy_at(i) {
        Some(_) => put_pieces(window, into, tables, i),
        None => {}
    }
}

/// The places of the next running clone and the next running copy.
#[derive(Clone, Copy)]
struct Next {
    clones: u32,
    copies: u32,
}

/// Puts what the task at a place holds, if it runs, and says what comes next.
fn put_run(window: &mut Window, into: &mut [u8], tables: &Tables, i: u32, next: Next) -> Next
    requires fits { area_length 2 tables.now.durable < 2 ^ 64 }
    requires few { i + 1 < 2 ^ 32 }
    requires within { i < length tables.now.durable.tasks }
    requires clones { next.clones ≤ i }
    requires copies { next.copies ≤ i }
    ensures text { behind (seen window.new into.new) (rest_from tables.now.durable (i + 1) result) ≡ behind (seen window.old into.old) (rest_from tables.now.durable i next) }
    ensures clones { result.clones ≤ i + 1 }
    ensures copies { result.copies ≤ i + 1 }
{
    let Some(task) = tables.task_at(i) else {
        return next;
    };
    if task.state != TaskState::Running {
        return next;
    }
    match task.job {
        Job::Clone { .. } => {
            put_clone_at(window, into, tables, next.clones);
            Next {
                clones: next.clones + 1,
                copies: next.copies,
            }
        }
        Job::Copy { .. } => {
            put_copy_at(window, into, tables, next.copies);
            Next {
                clones: next.clones,
                copies: next.copies + 1,
            }
        }
    }
}

/// Puts the running clones and copies.
pub(crate) fn put_runs(window: &mut Window, into: &mut [u8], tables: &Tables)
    requires fits { area_length 2 tables.now.durable < 2 ^ 64 }
    ensures { seen window.new into.new ≡ behind (seen window.old into.old) (runs_spelling tables.now.durable.tasks tables.now.durable.clones tables.now.durable.copies) }
{
    let mut next = Next {
        clones: 0,
        copies: 0,
    };
    for i in 0..tables.task_count() {
        next = put_run(window, into, tables, i, next);
    }
}
