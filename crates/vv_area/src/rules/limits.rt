//! Rule 3: no limit is passed.
ghost use Rattle.std.specs.Prelude.{◌≡◌, ◌+◌, ◌&&◌, nat_le, map, length, sum, IfOk};
ghost use Rattle.std.specs.List.{list_all};
ghost use Rattle.vv_flat.specs.State.{Container, Volume, Context, Binding, RunningClone, RunningCopy};
ghost use Rattle.vv_flat.specs.Chunks.{Entry, shape_of_tables};
ghost use Rattle.vv_flat.specs.Space.{entries, volume_count, pair_count, running_count};
ghost use Rattle.vv_flat.specs.Rules.{is_host, limits_rule};
ghost use Rattle.vv_flat.specs.Refusals.{pairs_limit};
ghost use Rattle.vv_area.specs.Area.{tables_of};

use super::items::all_hold;
use crate::rows::{RawBinding, RawClone, RawContainer, RawContext, RawCopy, RawVolume};
use crate::runs::is_running;
use crate::tables::RawTables;
use std::alloc::{AllocError, Global};
use vv_rules::is_sum_within;

pub(super) fn limits_hold(alloc: Global, tables: &RawTables) -> Result<bool, AllocError>
    ensures { IfOk result (λ holds. holds ≡ limits_rule (shape_of_tables (tables_of tables.now))) }
{
    let pairs = are_pairs_within(alloc, tables)?;
    let entries = are_entries_within(alloc, tables)?;
    Ok(all_hold(&[
        are_volumes_within(tables),
        tables.containers.items().len() <= 32,
        tables.bindings.items().len() <= 1024,
        running_count(tables) <= 16,
        tables.tasks.items().len() <= 256,
        pairs,
        entries,
        are_offers_within(tables),
        are_volume_lists_within(tables),
        are_clone_lists_within(tables),
        are_contexts_within(tables),
        are_bindings_within(tables),
    ]))
}

fn are_volumes_within(tables: &RawTables) -> bool
    ensures { result ≡ nat_le (volume_count (tables_of tables.now)) 256 }
{
    let volumes = tables.volumes.items().len() as u64;
    let clones = tables.clones.items().len() as u64;
    is_sum_within(&[volumes, clones], 256)
}

fn running_count(tables: &RawTables) -> usize
    ensures { result ≡ running_count (tables_of tables.now) }
{
    let tasks = tables.tasks.items();
    tasks.iter().filter(|task| is_running(task)).count()
}

fn are_pairs_within(alloc: Global, tables: &RawTables) -> Result<bool, AllocError>
    ensures { IfOk result (λ within. within ≡ nat_le (pair_count (tables_of tables.now)) pairs_limit) }
{
    let mut counts = volume_pairs(alloc, tables)?;
    let clones = clone_pairs(alloc, tables)?;
    counts.extend_from_slice(&clones)?;
    Ok(is_sum_within(&counts, 4352))
}

fn volume_pairs(alloc: Global, tables: &RawTables) -> Result<Vec<u64>, AllocError>
    ensures { IfOk result (λ counts. counts.items ≡ map (λ (v : Volume Entry). length v.metadata) tables.now.volumes) }
{
    let volumes = tables.volumes.items();
    volumes
        .iter()
        .map(|volume| pairs_of_volume(volume))
        .collect(alloc)
}

fn pairs_of_volume(volume: &RawVolume) -> u64
    ensures { result ≡ length volume.now.metadata }
{
    volume.metadata.items().len() as u64
}

fn clone_pairs(alloc: Global, tables: &RawTables) -> Result<Vec<u64>, AllocError>
    ensures { IfOk result (λ counts. counts.items ≡ map (λ (c : RunningClone Entry). length c.metadata) tables.now.clones) }
{
    let clones = tables.clones.items();
    clones
        .iter()
        .map(|clone| pairs_of_clone(clone))
        .collect(alloc)
}

fn pairs_of_clone(clone: &RawClone) -> u64
    ensures { result ≡ length clone.now.metadata }
{
    clone.metadata.items().len() as u64
}

fn are_entries_within(alloc: Global, tables: &RawTables) -> Result<bool, AllocError>
    ensures { IfOk result (λ within. within ≡ nat_le (entries (tables_of tables.now)) tables.now.geometry.map_chunks) }
{
    let mut counts = volume_entries(alloc, tables)?;
    let images = image_entries(alloc, tables)?;
    let targets = target_entries(alloc, tables)?;
    let pieces = piece_counts(alloc, tables)?;
    counts.extend_from_slice(&images)?;
    counts.extend_from_slice(&targets)?;
    counts.extend_from_slice(&pieces)?;
    Ok(is_sum_within(&counts, u64::from(tables.geometry.map_chunks)))
}

fn volume_entries(alloc: Global, tables: &RawTables) -> Result<Vec<u64>, AllocError>
    ensures { IfOk result (λ counts. counts.items ≡ map (λ (v : Volume Entry). length v.chunks) tables.now.volumes) }
{
    let volumes = tables.volumes.items();
    volumes
        .iter()
        .map(|volume| entries_of_volume(volume))
        .collect(alloc)
}

fn entries_of_volume(volume: &RawVolume) -> u64
    ensures { result ≡ length volume.now.chunks }
{
    volume.entries.items().len() as u64
}

fn image_entries(alloc: Global, tables: &RawTables) -> Result<Vec<u64>, AllocError>
    ensures { IfOk result (λ counts. counts.items ≡ map (λ (c : RunningClone Entry). length c.image) tables.now.clones) }
{
    let clones = tables.clones.items();
    clones
        .iter()
        .map(|clone| entries_of_image(clone))
        .collect(alloc)
}

fn entries_of_image(clone: &RawClone) -> u64
    ensures { result ≡ length clone.now.image }
{
    clone.image.items().len() as u64
}

fn target_entries(alloc: Global, tables: &RawTables) -> Result<Vec<u64>, AllocError>
    ensures { IfOk result (λ counts. counts.items ≡ map (λ (c : RunningClone Entry). length c.target) tables.now.clones) }
{
    let clones = tables.clones.items();
    clones
        .iter()
        .map(|clone| entries_of_target(clone))
        .collect(alloc)
}

fn entries_of_target(clone: &RawClone) -> u64
    ensures { result ≡ length clone.now.target }
{
    clone.target.items().len() as u64
}

fn piece_counts(alloc: Global, tables: &RawTables) -> Result<Vec<u64>, AllocError>
    ensures { IfOk result (λ counts. counts.items ≡ map (λ (c : RunningCopy Entry). length c.pieces) tables.now.copies) }
{
    let copies = tables.copies.items();
    copies
        .iter()
        .map(|copy| pieces_of_copy(copy))
        .collect(alloc)
}

fn pieces_of_copy(copy: &RawCopy) -> u64
    ensures { result ≡ length copy.now.pieces }
{
    copy.pieces.items().len() as u64
}

fn are_offers_within(tables: &RawTables) -> bool
    ensures { result ≡ list_all (λ (k : Container). nat_le (length k.offers) 16) tables.now.containers }
{
    let containers = tables.containers.items();
    containers
        .iter()
        .all(|container| has_offers_within(container))
}

fn has_offers_within(container: &RawContainer) -> bool
    ensures { result ≡ nat_le (length container.now.offers) 16 }
{
    container.offers.items().len() <= 16
}

fn are_volume_lists_within(tables: &RawTables) -> bool
    ensures { result ≡ list_all (λ (v : Volume Entry). nat_le (length v.needs) 8 && nat_le (length v.metadata) 64) tables.now.volumes }
{
    let volumes = tables.volumes.items();
    volumes.iter().all(|volume| has_lists_within(volume))
}

fn has_lists_within(volume: &RawVolume) -> bool
    ensures { result ≡ (nat_le (length volume.now.needs) 8 && nat_le (length volume.now.metadata) 64) }
{
    volume.needs.items().len() <= 8 && volume.metadata.items().len() <= 64
}

fn are_clone_lists_within(tables: &RawTables) -> bool
    ensures { result ≡ list_all (λ (c : RunningClone Entry). nat_le (length c.needs) 8 && nat_le (length c.metadata) 64) tables.now.clones }
{
    let clones = tables.clones.items();
    clones.iter().all(|clone| has_clone_lists_within(clone))
}

fn has_clone_lists_within(clone: &RawClone) -> bool
    ensures { result ≡ (nat_le (length clone.now.needs) 8 && nat_le (length clone.now.metadata) 64) }
{
    clone.needs.items().len() <= 8 && clone.metadata.items().len() <= 64
}

fn are_contexts_within(tables: &RawTables) -> bool
    ensures { result ≡ list_all (λ (c : Context). is_host c.host && nat_le (length c.endpoints) 8) tables.now.contexts }
{
    let contexts = tables.contexts.items();
    contexts.iter().all(|context| is_context_within(context))
}

fn is_context_within(context: &RawContext) -> bool
    ensures { result ≡ (is_host context.now.host && nat_le (length context.now.endpoints) 8) }
{
    is_host(context.host.0) && context.endpoints.items().len() <= 8
}

fn is_host(host: u32) -> bool
    ensures { result ≡ is_host host }
{
    1 <= host && host <= 64
}

fn are_bindings_within(tables: &RawTables) -> bool
    ensures { result ≡ list_all (λ (b : Binding). is_host b.address.host && nat_le b.count 65535) tables.now.bindings }
{
    let bindings = tables.bindings.items();
    bindings.iter().all(|binding| is_binding_within(binding))
}

fn is_binding_within(binding: &RawBinding) -> bool
    ensures { result ≡ (is_host binding.now.address.host && nat_le binding.now.count 65535) }
{
    is_host(binding.host.0) && u32::from(binding.count) <= 65_535
}
