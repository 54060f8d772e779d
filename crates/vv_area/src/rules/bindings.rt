//! Rule 7: bindings are where they may be, and none is of a volume that a running copy is to change.
ghost use Rattle.std.specs.Prelude.{◌≡◌, ◌==◌, ◌&&◌, true, not, map, nat_le, IfOk, option_copied};
ghost use Rattle.std.specs.List.{find, list_all, list_any};
ghost use Rattle.vv_flat.specs.Lists.{if_found};
ghost use Rattle.vv_flat.specs.State.{Context, Binding, Task};
ghost use Rattle.vv_flat.specs.Chunks.{shape_of_tables};
ghost use Rattle.vv_flat.specs.Space.{running_target};
ghost use Rattle.vv_flat.specs.Bindings.{context_of, endpoints_of, is_bound};
ghost use Rattle.vv_flat.specs.Rules.{is_single, bindings_rule};
ghost use Rattle.vv_area.specs.Area.{tables_of};
ghost use Rattle.vv_area.specs.Forms.{endpoint_numbers};
ghost use Rattle.vv_area.specs.Ruled.{binding_pair, is_binding_placed};

use super::items::{all_hold, running_target};
use crate::rows::{RawBinding, RawContext, RawTask};
use crate::tables::RawTables;
use std::alloc::{AllocError, Global};
use vv_rules::{Pair, pairs_differ};
use vv_units::EndpointId;

pub(super) fn bindings_hold(alloc: Global, tables: &RawTables) -> Result<bool, AllocError>
    ensures { IfOk result (λ holds. holds ≡ bindings_rule (shape_of_tables (tables_of tables.now))) }
{
    let single = are_bindings_single(alloc, tables)?;
    Ok(all_hold(&[
        are_bindings_placed(tables),
        single,
        are_targets_unbound(tables),
    ]))
}

/// Whether no host has two bindings of a volume.
fn are_bindings_single(alloc: Global, tables: &RawTables) -> Result<bool, AllocError>
    ensures { IfOk result (λ single. single ≡ is_single tables.now.bindings) }
{
    let pairs = binding_pairs(alloc, tables)?;
    pairs_differ(pairs)
}

fn binding_pairs(alloc: Global, tables: &RawTables) -> Result<Vec<Pair>, AllocError>
    ensures { IfOk result (λ pairs. pairs.items ≡ map binding_pair tables.now.bindings) }
{
    let bindings = tables.bindings.items();
    bindings
        .iter()
        .map(|binding| binding_pair(binding))
        .collect(alloc)
}

/// The host and the volume.
fn binding_pair(binding: &RawBinding) -> Pair
    ensures { result ≡ binding_pair binding.now }
{
    Pair {
        first: u64::from(binding.host.0),
        second: binding.volume.0,
    }
}

fn are_bindings_placed(tables: &RawTables) -> bool
    ensures { result ≡ list_all (is_binding_placed tables.now.contexts) tables.now.bindings }
{
    let contexts = tables.contexts.items();
    let bindings = tables.bindings.items();
    bindings
        .iter()
        .all(|binding| is_binding_placed(contexts, binding))
}

/// Whether it is at an endpoint of its host, and secondary identifier and count are at least 1.
#[tactic(auto, unfolding(crate::specs::Ruled::is_binding_placed))]
fn is_binding_placed(contexts: &[RawContext], binding: &RawBinding) -> bool
    ensures { result ≡ is_binding_placed contexts.now binding.now }
{
    is_endpoint_of(contexts, binding.host.0, binding.endpoint.0)
        && 1 <= binding.secondary.0
        && 1 <= binding.count
}

/// Whether a host may bind at an endpoint.
fn is_endpoint_of(contexts: &[RawContext], host: u32, endpoint: u16) -> bool
    ensures { result ≡ list_any (λ e. e == endpoint) (endpoints_of contexts.now host) }
{
    match context_of(contexts, host) {
        Some(context) => has_endpoint(context, endpoint),
        None => endpoint == 1,
    }
}

fn context_of(contexts: &[RawContext], host: u32) -> Option<&RawContext>
    ensures { option_copied result ≡ context_of contexts.now host }
{
    contexts.iter().find(|context| context.host.0 == host)
}

fn has_endpoint(context: &RawContext, endpoint: u16) -> bool
    ensures { result ≡ list_any (λ e. e == endpoint) context.now.endpoints }
{
    is_listed(context.endpoints.items(), endpoint)
}

fn is_listed(endpoints: &[EndpointId], endpoint: u16) -> bool
    ensures { result ≡ list_any (λ e. e == endpoint) (endpoint_numbers endpoints.now) }
{
    has_number(endpoints, endpoint)
}

fn has_number(endpoints: &[EndpointId], endpoint: u16) -> bool
    ensures { result ≡ list_any (λ e. e.0 == endpoint) endpoints.now }
{
    endpoints.iter().any(|e| e.0 == endpoint)
}

fn are_targets_unbound(tables: &RawTables) -> bool
    ensures { result ≡ list_all (λ (t : Task). if_found (running_target t) (λ n. not (is_bound tables.now.bindings n)) true) tables.now.tasks }
{
    let bindings = tables.bindings.items();
    let tasks = tables.tasks.items();
    tasks.iter().all(|task| is_target_unbound(bindings, task))
}

fn is_target_unbound(bindings: &[RawBinding], task: &RawTask) -> bool
    ensures { result ≡ if_found (running_target task.now) (λ n. not (is_bound bindings.now n)) true }
{
    match running_target(task) {
        Some(target) => !is_bound(bindings, target),
        None => true,
    }
}

fn is_bound(bindings: &[RawBinding], volume: u64) -> bool
    ensures { result ≡ is_bound bindings.now volume }
{
    bindings.iter().any(|binding| binding.volume.0 == volume)
}
