//! Contexts of hosts, and bindings.
ghost use Rattle.std.specs.Prelude.{◌≡◌, ◌==◌, not, length, is_none, is_some, None, option_map, ℕ};
ghost use Rattle.std.specs.List.{list_any};
ghost use Rattle.vv_units.specs.declared.numbers.EndpointId.{EndpointId as Endpoint};
ghost use Rattle.vv_flat.specs.State.{Binding as SeenBinding, Durable};
ghost use Rattle.vv_flat.specs.Chunks.{shape_of_tables};
ghost use Rattle.vv_flat.specs.Bindings.{keeps_bindings, binding_at, binding_of, is_of_host, is_address, is_binding_of};
ghost use Rattle.vv_flat.specs.Changes.{SetEndpoints, Bind, Unbind, UnbindAll, state_checks, changes_nothing, room_checks, too_many_bindings};
ghost use Rattle.vv_bind.specs.Table.{address, numbers};
ghost use Rattle.vv_judge.specs.Seen.{seen_check, refused_by};
ghost use Rattle.vv_judge.specs.Hosts.{keeps_binding};

use crate::answer::{Refusal, first_refusal, refuse_if};
use crate::checks::{busy, exhausted, missing_volume, too_many};
use vv_bind::{BindTable, Binding};
use vv_tables::Tables;
use vv_units::{EndpointId, Field, HostId, Secondary, VolumeId};

/// Whether a list has an endpoint of this number.
fn has_number(endpoints: &[EndpointId], number: u16) -> bool
    ensures { result ≡ list_any (λ (e : Endpoint). e.0 == number) endpoints.now }
{
    endpoints.iter().any(|e| e.0 == number)
}

/// Whether an endpoint is in a list.
fn has_endpoint(endpoints: &[EndpointId], endpoint: EndpointId) -> bool
    ensures { result ≡ list_any (λ e. e == endpoint.0) (numbers endpoints.now) }
{
    has_number(endpoints, endpoint.0)
}

/// Whether a binding isn't of this host, or is at one of these endpoints.
fn is_kept(binding: &Binding, host: HostId, endpoints: &[EndpointId]) -> bool
    ensures { result ≡ keeps_binding host.0 (numbers endpoints.now) binding.now }
{
    binding.host().0 != host.0 || has_endpoint(endpoints, binding.endpoint())
}

/// Whether a binding is of this host, and at none of these endpoints.
fn is_lost(binding: &Binding, host: HostId, endpoints: &[EndpointId]) -> bool
    ensures { result ≡ not (keeps_binding host.0 (numbers endpoints.now) binding.now) }
{
    !is_kept(binding, host, endpoints)
}

/// Whether each binding of a host is at one of these endpoints.
fn keeps_bindings(bindings: &BindTable, host: HostId, endpoints: &[EndpointId]) -> bool
    ensures { result ≡ keeps_bindings bindings.now.bindings host.0 (numbers endpoints.now) }
{
    let mut i = 0;
    while let Some(binding) = bindings.at(i) {
        if is_lost(binding, host, endpoints) {
            return false;
        }
        i += 1;
    }
    true
}

/// Whether something is bound at an address.
fn is_bound_at(
    bindings: &BindTable,
    host: HostId,
    endpoint: EndpointId,
    secondary: Secondary,
) -> bool
    ensures { result ≡ is_some (binding_at bindings.now.bindings (address host.0 endpoint.0 secondary.0)) }
{
    let mut i = 0;
    while let Some(binding) = bindings.at(i) {
        if is_at(binding, host, endpoint, secondary) {
            return true;
        }
        i += 1;
    }
    false
}

/// Whether a host has a binding.
fn binds_any(bindings: &BindTable, host: HostId) -> bool
    ensures { result ≡ list_any (is_of_host host.0) bindings.now.bindings }
{
    let mut i = 0;
    while let Some(binding) = bindings.at(i) {
        if is_of(binding, host) {
            return true;
        }
        i += 1;
    }
    false
}

/// How often a volume is bound for a host, if it is.
fn bound_count(bindings: &BindTable, host: HostId, volume: VolumeId) -> Option<u16>
    ensures { result ≡ option_map (λ (b : SeenBinding). b.count) (binding_of bindings.now.bindings host.0 volume.0) }
{
    let mut i = 0;
    while let Some(binding) = bindings.at(i) {
        if is_binding_of(binding, host, volume) {
            return Some(binding.count());
        }
        i += 1;
    }
    None
}

/// How many bindings there are.
fn binding_count(bindings: &BindTable) -> u32
    ensures { result ≡ length bindings.now.bindings }
{
    let mut count = 0;
    while bindings.at(count).is_some() {
        count += 1;
    }
    count
}

/// Whether a binding is of a host.
fn is_of(binding: &Binding, host: HostId) -> bool
    ensures { result ≡ is_of_host host.0 binding.now }
{
    binding.host().0 == host.0
}

/// Whether a binding is at an address.
fn is_at(binding: &Binding, host: HostId, endpoint: EndpointId, secondary: Secondary) -> bool
    ensures { result ≡ is_address binding.now.address (address host.0 endpoint.0 secondary.0) }
{
    binding.host().0 == host.0
        && binding.endpoint().0 == endpoint.0
        && binding.secondary().0 == secondary.0
}

/// Whether a binding is of a volume for a host.
fn is_binding_of(binding: &Binding, host: HostId, volume: VolumeId) -> bool
    ensures { result ≡ is_binding_of host.0 volume.0 binding.now }
{
    binding.host().0 == host.0 && binding.volume().0 == volume.0
}

/// What is wrong with a context that is to be set.
#[tactic(auto, unfolding(vv_flat::specs::Changes::state_checks))]
pub(crate) fn set_endpoints_state(
    tables: &Tables,
    host: HostId,
    endpoints: &[EndpointId],
) -> Option<Refusal>
    ensures { seen_check result ≡ refused_by (state_checks (shape_of_tables tables.now.durable) (SetEndpoints host.0 (numbers endpoints.now))) }
{
    let name = Field::Endpoints;
    let is_kept = keeps_bindings(tables.bindings(), host, endpoints);
    first_refusal(&[refuse_if(!is_kept, Refusal::ResourceInUse { name })])
}

/// Whether the context is as it was set last.
#[tactic(auto, unfolding(vv_flat::specs::Changes::changes_nothing))]
pub(crate) fn set_endpoints_nothing(tables: &Tables, host: HostId, endpoints: &[EndpointId]) -> bool
    ensures { result ≡ changes_nothing (shape_of_tables tables.now.durable) (SetEndpoints host.0 (numbers endpoints.now)) }
{
    tables.is_set_to(host, endpoints)
}

/// What is wrong with a volume that is to be bound, or with the host.
#[tactic(auto, unfolding(vv_flat::specs::Changes::state_checks))]
pub(crate) fn bind_state(tables: &Tables, host: HostId, id: VolumeId) -> Option<Refusal>
    ensures { seen_check result ≡ refused_by (state_checks (shape_of_tables tables.now.durable) (Bind host.0 id.0)) }
{
    let name = Field::Host;
    let has_none = !tables.has_endpoints(host);
    first_refusal(&[
        missing_volume(tables, id, Field::Vvol),
        refuse_if(has_none, Refusal::NoEndpoint { name }),
        busy(tables, id),
    ])
}

/// The count of a binding, or the number of bindings, is at its limit.
fn too_many_bindings(tables: &Tables, host: HostId, id: VolumeId) -> Option<Refusal>
    ensures { seen_check result ≡ too_many_bindings (shape_of_tables tables.now.durable) host.0 id.0 }
{
    match bound_count(tables.bindings(), host, id) {
        Some(count) => too_many(u32::from(count), 65_535, Field::Count),
        None => too_many(binding_count(tables.bindings()), 1024, Field::Binding),
    }
}

/// The limits that may be in the way of a bind.
#[tactic(auto, unfolding(vv_flat::specs::Changes::room_checks))]
pub(crate) fn bind_room(tables: &Tables, host: HostId, id: VolumeId) -> Option<Refusal>
    ensures { seen_check result ≡ refused_by (room_checks None (shape_of_tables tables.now.durable) (Bind host.0 id.0)) }
{
    first_refusal(&[exhausted(tables), too_many_bindings(tables, host, id)])
}

/// Nothing is bound at an address.
#[tactic(auto, unfolding(vv_flat::specs::Changes::state_checks))]
pub(crate) fn unbind_state(
    tables: &Tables,
    host: HostId,
    endpoint: EndpointId,
    secondary: Secondary,
) -> Option<Refusal>
    ensures { seen_check result ≡ refused_by (state_checks (shape_of_tables tables.now.durable) (Unbind host.0 endpoint.0 secondary.0)) }
{
    let name = Field::Secondary;
    let is_bound = is_bound_at(tables.bindings(), host, endpoint, secondary);
    first_refusal(&[refuse_if(!is_bound, Refusal::NotFound { name })])
}

/// Nothing can be wrong where all volumes are unbound from a host.
#[tactic(auto, unfolding(vv_flat::specs::Changes::state_checks))]
pub(crate) fn unbind_all_state() -> Option<Refusal>
    ensures { (d : Durable ℕ) → (host : ℕ) → seen_check result ≡ refused_by (state_checks d (UnbindAll host)) }
{
    first_refusal(&[])
}

/// Whether a host has no binding.
#[tactic(auto, unfolding(vv_flat::specs::Changes::changes_nothing))]
pub(crate) fn unbind_all_nothing(tables: &Tables, host: HostId) -> bool
    ensures { result ≡ changes_nothing (shape_of_tables tables.now.durable) (UnbindAll host.0) }
{
    !binds_any(tables.bindings(), host)
}
