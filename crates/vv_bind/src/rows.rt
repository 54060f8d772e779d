//! Places in the rows of a table, and edits of the rows.
ghost use Rattle.std.specs.Prelude.{false, slice_index, ◌≢◌, ◌≡◌, ◌==◌, ◌+◌, ◌≤◌, ◌<◌, length, nat_lt, vec_len, vec_capacity, ◌-◌, Some, None, IfSome, option_map, option_copied};
ghost use Rattle.std.specs.List.{position, position_or_len, list_any, remove};
ghost use Rattle.vv_flat.specs.Bindings.{is_address, is_below, is_binding_of, is_of_host, keeps_bindings, free_secondary, endpoints_of, binding_of, binding_at, without_binding, without_host, host_bindings, is_bound, was_set, with_context};
ghost use Rattle.vv_flat.specs.Lists.{put_before, first_changed};
ghost use Rattle.vv_bind.specs.Table.{address, numbers, with_one_more, context_below};

use crate::binding::Binding;
use crate::context::HostContext;
use vv_units::{EndpointId, HostId, Secondary, VolumeId};

/// The place of the binding at an address.
pub(crate) fn place_at(
    bindings: &[Binding],
    host: HostId,
    endpoint: EndpointId,
    secondary: Secondary,
) -> Option<usize>
    ensures { result ≡ position (λ b. is_address b.address (address host.0 endpoint.0 secondary.0)) bindings.now }
{
    bindings
        .iter()
        .position(|b| b.is_at(host, endpoint, secondary))
}

/// The place of the binding of a volume for a host.
pub(crate) fn place_of(bindings: &[Binding], host: HostId, volume: VolumeId) -> Option<usize>
    ensures { result ≡ position (is_binding_of host.0 volume.0) bindings.now }
{
    bindings.iter().position(|b| b.binds(host, volume))
}

/// The place of the first binding of a host.
pub(crate) fn place_of_host(bindings: &[Binding], host: HostId) -> Option<usize>
    ensures { result ≡ position (is_of_host host.0) bindings.now }
{
    bindings.iter().position(|b| b.is_of(host))
}

/// The place of the first binding above an address.
fn place_above(
    bindings: &[Binding],
    host: HostId,
    endpoint: EndpointId,
    secondary: Secondary,
) -> Option<usize>
    ensures { result ≡ position (λ b. is_below (address host.0 endpoint.0 secondary.0) b.address) bindings.now }
{
    bindings
        .iter()
        .position(|b| b.is_above(host, endpoint, secondary))
}

/// The place where a binding at an address comes in the order.
fn place_in_order(
    bindings: &[Binding],
    host: HostId,
    endpoint: EndpointId,
    secondary: Secondary,
) -> usize
    ensures at { result ≡ position_or_len (λ b. is_below (address host.0 endpoint.0 secondary.0) b.address) bindings.now }
    ensures within { result ≤ length bindings.now }
{
    place_above(bindings, host, endpoint, secondary).unwrap_or(bindings.len())
}

/// The place of the context of a host.
pub(crate) fn context_place(contexts: &[HostContext], host: HostId) -> Option<usize>
    ensures { result ≡ position (λ c. c.host == host.0) contexts.now }
{
    contexts.iter().position(|c| c.host().0 == host.0)
}

/// The place of the first context of a host above this one.
fn context_place_above(contexts: &[HostContext], host: HostId) -> Option<usize>
    ensures { result ≡ position (λ c. nat_lt host.0 c.host) contexts.now }
{
    contexts.iter().position(|c| host.0 < c.host().0)
}

/// The place where the context of a host comes in the order.
fn context_place_in_order(contexts: &[HostContext], host: HostId) -> usize
    ensures at { result ≡ position_or_len (λ c. nat_lt host.0 c.host) contexts.now }
    ensures within { result ≤ length contexts.now }
{
    context_place_above(contexts, host).unwrap_or(contexts.len())
}

/// Whether an endpoint of this number is listed.
fn has_number(list: &[EndpointId], number: u16) -> bool
    ensures { result ≡ list_any (λ e. e.0 == number) list.now }
{
    list.iter().any(|e| e.0 == number)
}

/// Whether an endpoint is listed.
pub(crate) fn is_listed(list: &[EndpointId], endpoint: EndpointId) -> bool
    ensures { result ≡ list_any (λ e. e == endpoint.0) (numbers list.now) }
{
    has_number(list, endpoint.0)
}

/// Whether each binding of a host is at an endpoint of the list.
pub(crate) fn are_kept(bindings: &[Binding], host: HostId, list: &[EndpointId]) -> bool
    ensures { result ≡ keeps_bindings bindings.now host.0 (numbers list.now) }
{
    bindings
        .iter()
        .all(|b| !b.is_of(host) || is_listed(list, b.endpoint()))
}

/// Whether no further binding has room.
pub(crate) fn is_full(bindings: &[Binding]) -> bool
    ensures { result ≡ (length bindings.now == 1024) }
{
    bindings.len() == 1024
}

/// Adds a binding at its place in the order.
pub(crate) fn put(bindings: &mut Vec<Binding>, binding: Binding)
    requires { vec_len bindings.old < vec_capacity bindings.old }
    ensures items { bindings.new.items ≡ with_one_more bindings.old.items binding }
    ensures capacity { vec_capacity bindings.old ≤ vec_capacity bindings.new }
{
    let at = place_in_order(
        bindings,
        binding.host(),
        binding.endpoint(),
        binding.secondary(),
    );
    match bindings.insert(at, binding) {
        Ok(()) => {}
        Err(_) => unreachable!(),
    }
}

/// Adds a context at its place in the order.
pub(crate) fn put_context(contexts: &mut Vec<HostContext>, context: HostContext)
    requires { vec_len contexts.old < vec_capacity contexts.old }
    ensures items { contexts.new.items ≡ put_before (context_below context) context contexts.old.items }
    ensures capacity { vec_capacity contexts.old ≤ vec_capacity contexts.new }
{
    let at = context_place_in_order(contexts, context.host());
    match contexts.insert(at, context) {
        Ok(()) => {}
        Err(_) => unreachable!(),
    }
}

/// The endpoint of a host whose context was never set.
static FIRST_ENDPOINT: [EndpointId; 1] = [EndpointId(1)];

/// The endpoints of a host.
pub(crate) fn endpoints_in(contexts: &[HostContext], host: HostId) -> &[EndpointId]
    ensures { numbers result.now ≡ endpoints_of contexts.now host.0 }
{
    match context_place(contexts, host) {
        Some(at) => contexts[at].endpoints(),
        None => &FIRST_ENDPOINT,
    }
}

/// The first endpoint of a host that has one.
pub(crate) fn first_endpoint(contexts: &[HostContext], host: HostId) -> EndpointId
    requires { 0 < length (endpoints_of contexts.now host.0) }
    ensures { result.0 ≡ slice_index (endpoints_of contexts.now host.0) 0 }
{
    endpoints_in(contexts, host)[0]
}

/// The least secondary identifier that is free at an endpoint of a host.
pub(crate) fn least_free(bindings: &[Binding], host: HostId, endpoint: EndpointId) -> Secondary
    requires { length bindings.now ≤ 1024 }
    ensures least { result.0 ≡ free_secondary bindings.now host.0 endpoint.0 }
    ensures free { binding_at bindings.now (address host.0 endpoint.0 result.0) ≡ None }
{
    let mut secondary = 1;
    while place_at(bindings, host, endpoint, Secondary(secondary)).is_some() {
        secondary += 1;
    }
    Secondary(secondary)
}

/// Counts one more at the binding of a volume for a host, and gives where it is.
pub(crate) fn raise(
    bindings: &mut Vec<Binding>,
    host: HostId,
    volume: VolumeId,
    at: usize,
) -> (EndpointId, Secondary)
    requires found { position (is_binding_of host.0 volume.0) bindings.old.items ≡ Some at }
    requires few { IfSome (binding_of bindings.old.items host.0 volume.0) (λ b. b.count ≢ 65535) }
    ensures address { IfSome (binding_of bindings.old.items host.0 volume.0) (λ b. b.address ≡ address host.0 result.0.0 result.1.0) }
    ensures items { bindings.new.items ≡ first_changed (is_binding_of host.0 volume.0) (λ b. record b { count = b.count + 1 }) bindings.old.items }
    ensures capacity { vec_capacity bindings.new ≡ vec_capacity bindings.old }
{
    let binding = &mut bindings[at];
    binding.raise();
    (binding.endpoint(), binding.secondary())
}

/// Counts one less at the binding at an address, which goes at 0, and gives the count that is left.
pub(crate) fn lower(
    bindings: &mut Vec<Binding>,
    host: HostId,
    endpoint: EndpointId,
    secondary: Secondary,
    at: usize,
) -> u16
    requires { position (λ b. is_address b.address (address host.0 endpoint.0 secondary.0)) bindings.old.items ≡ Some at }
    ensures left { option_map (λ b. b.count - 1) (binding_at bindings.old.items (address host.0 endpoint.0 secondary.0)) ≡ Some result }
    ensures items { bindings.new.items ≡ without_binding bindings.old.items (address host.0 endpoint.0 secondary.0) }
    ensures capacity { vec_capacity bindings.new ≡ vec_capacity bindings.old }
{
    let left = bindings[at].count() - 1;
    if bindings[at].is_last() {
        bindings.remove(at).spend();
    } else {
        bindings[at].lower();
    }
    left
}

/// Takes out all bindings of a host, and counts them.
pub(crate) fn take_out(bindings: &mut Vec<Binding>, host: HostId) -> u32
    requires { vec_len bindings.old ≤ 1024 }
    ensures count { result ≡ host_bindings bindings.old.items host.0 }
    ensures items { bindings.new.items ≡ without_host bindings.old.items host.0 }
    ensures capacity { vec_capacity bindings.new ≡ vec_capacity bindings.old }
{
    let mut removed = 0;
    while let Some(at) = place_of_host(bindings, host) {
        bindings.remove(at).spend();
        removed += 1;
    }
    removed
}

/// Whether a volume is bound for any host.
pub(crate) fn is_volume_bound(bindings: &[Binding], volume: VolumeId) -> bool
    ensures { result ≡ is_bound bindings.now volume.0 }
{
    bindings.iter().any(|b| b.volume().0 == volume.0)
}

/// Puts a context in place of the host's, or at its place in the order.
pub(crate) fn set_context(contexts: &mut Vec<HostContext>, context: HostContext)
    requires { was_set contexts.old.items context.host ≡ false → length contexts.old.items < vec_capacity contexts.old }
    ensures items { contexts.new.items ≡ with_context contexts.old.items context.host context.endpoints }
    ensures capacity { vec_capacity contexts.old ≤ vec_capacity contexts.new }
{
    match context_place(contexts, context.host()) {
        Some(at) => contexts[at] = context,
        None => put_context(contexts, context),
    }
}

/// Whether a context was set for a host.
pub(crate) fn has_context(contexts: &[HostContext], host: HostId) -> bool
    ensures { result ≡ was_set contexts.now host.0 }
{
    context_place(contexts, host).is_some()
}

/// The binding at an address.
pub(crate) fn binding_at(
    bindings: &[Binding],
    host: HostId,
    endpoint: EndpointId,
    secondary: Secondary,
) -> Option<&Binding>
    ensures { option_copied result ≡ binding_at bindings.now (address host.0 endpoint.0 secondary.0) }
{
    match place_at(bindings, host, endpoint, secondary) {
        Some(at) => Some(&bindings[at]),
        None => None,
    }
}
