//! Questions on what a bind or an unbind will answer.
ghost use Rattle.std.specs.Prelude.{◌≡◌, ◌==◌, ◌≤◌, length, slice_index};
ghost use Rattle.std.specs.List.{list_any};
ghost use Rattle.std.specs.Option.{option_copied};
ghost use Rattle.vv_flat.specs.Bindings.{endpoints_of, binding_at, binding_of, new_address, bound_address, count_left, host_bindings};
ghost use Rattle.vv_bind.specs.Table.{address};

use crate::binding::Binding;
use crate::context::HostContext;
use crate::rows::{binding_at, endpoints_in, is_listed, least_free, place_of};
use crate::table::BindTable;
use vv_units::{EndpointId, HostId, Secondary, VolumeId};

/// The binding of a volume for a host.
fn binding_of(bindings: &[Binding], host: HostId, volume: VolumeId) -> Option<&Binding>
    ensures { option_copied result ≡ binding_of bindings.now host.0 volume.0 }
{
    match place_of(bindings, host, volume) {
        Some(at) => Some(&bindings[at]),
        None => None,
    }
}

/// The first endpoint of a host, or 0 where it has none.
fn first_or_zero(contexts: &[HostContext], host: HostId) -> EndpointId
    ensures { result.0 ≡ slice_index (endpoints_of contexts.now host.0) 0 }
{
    let endpoints = endpoints_in(contexts, host);
    if endpoints.is_empty() {
        EndpointId(0)
    } else {
        endpoints[0]
    }
}

/// Where a volume is bound anew for a host.
fn new_place(
    contexts: &[HostContext],
    bindings: &[Binding],
    host: HostId,
) -> (EndpointId, Secondary)
    requires { length bindings.now ≤ 1024 }
    ensures endpoint { result.0.0 ≡ (new_address contexts.now bindings.now host.0).endpoint }
    ensures secondary { result.1.0 ≡ (new_address contexts.now bindings.now host.0).secondary }
{
    let endpoint = first_or_zero(contexts, host);
    (endpoint, least_free(bindings, host, endpoint))
}

/// Where a bind of a volume for a host is answered.
fn bound_place(
    contexts: &[HostContext],
    bindings: &[Binding],
    host: HostId,
    volume: VolumeId,
) -> (EndpointId, Secondary)
    requires { length bindings.now ≤ 1024 }
    ensures endpoint { result.0.0 ≡ (bound_address contexts.now bindings.now host.0 volume.0).endpoint }
    ensures secondary { result.1.0 ≡ (bound_address contexts.now bindings.now host.0 volume.0).secondary }
{
    match binding_of(bindings, host, volume) {
        Some(binding) => (binding.endpoint(), binding.secondary()),
        None => new_place(contexts, bindings, host),
    }
}

/// The count that an unbind leaves at an address.
fn count_left(bindings: &[Binding], host: HostId, endpoint: EndpointId, secondary: Secondary) -> u16
    ensures { result ≡ count_left bindings.now (address host.0 endpoint.0 secondary.0) }
{
    match binding_at(bindings, host, endpoint, secondary) {
        Some(binding) => binding.count() - 1,
        None => 0,
    }
}

/// How many bindings a host has.
fn host_count(bindings: &[Binding], host: HostId) -> u32
    requires { length bindings.now ≤ 1024 }
    ensures { result ≡ host_bindings bindings.now host.0 }
{
    let mut count = 0;
    for binding in bindings {
        if binding.is_of(host) {
            count += 1;
        }
    }
    count
}

impl BindTable {
    /// Where a bind of a volume for a host is answered: where it is bound already, and else at the first endpoint of the
    /// host, or at endpoint 0 where the host has none.
    pub fn bound_address(&self, host: HostId, volume: VolumeId) -> (EndpointId, Secondary)
        ensures endpoint { result.0.0 ≡ (bound_address self.now.contexts self.now.bindings host.0 volume.0).endpoint }
        ensures secondary { result.1.0 ≡ (bound_address self.now.contexts self.now.bindings host.0 volume.0).secondary }
    {
        bound_place(&self.contexts, &self.bindings, host, volume)
    }

    /// The count that an unbind leaves at an address: 0 where nothing is bound.
    pub fn count_left(&self, host: HostId, endpoint: EndpointId, secondary: Secondary) -> u16
        ensures { result ≡ count_left self.now.bindings (address host.0 endpoint.0 secondary.0) }
    {
        count_left(&self.bindings, host, endpoint, secondary)
    }

    /// How many bindings a host has.
    pub fn host_bindings(&self, host: HostId) -> u32
        ensures { result ≡ host_bindings self.now.bindings host.0 }
    {
        host_count(&self.bindings, host)
    }

    /// Whether an endpoint is one at which a host may bind.
    pub fn has_endpoint(&self, host: HostId, endpoint: EndpointId) -> bool
        ensures { result ≡ list_any (λ e. e == endpoint.0) (endpoints_of self.now.contexts host.0) }
    {
        is_listed(endpoints_in(&self.contexts, host), endpoint)
    }

    /// The binding at an address, of any host.
    pub fn at_address(
        &self,
        host: HostId,
        endpoint: EndpointId,
        secondary: Secondary,
    ) -> Option<&Binding>
        ensures { option_copied result ≡ binding_at self.now.bindings (address host.0 endpoint.0 secondary.0) }
    {
        binding_at(&self.bindings, host, endpoint, secondary)
    }
}
