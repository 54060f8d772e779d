//! The table.
ghost use Rattle.std.specs.Prelude.{◌≡◌, ◌==◌, ◌+◌, ◌-◌, ◌≤◌, ◌<◌, [], length, nat_lt, IsTrue, None, Some, slice_get, option_map, option_copied, IfOk, IfNone, MatchResult};
ghost use Rattle.std.specs.List.{list_any, list_all};
ghost use Rattle.vv_flat.specs.Lists.{all_different};
ghost use Rattle.vv_flat.specs.Form.{bindings_rise};
ghost use Rattle.vv_flat.specs.Bindings.{endpoints_of, was_set, with_context, keeps_bindings, binding_at, binding_of, is_bound, bound_address, with_binding, without_binding, without_host, host_bindings};
ghost use Rattle.vv_bind.specs.Table.{IsHost, address, numbers, bind_fault, with_one_more, is_of_a_host};

use crate::binding::Binding;
use crate::context::HostContext;
use crate::fault::BindFault;
use crate::rows;
use std::alloc::Global;
use std::marker::Model;
use vv_units::{EndpointId, HostId, NoMemory, Secondary, VolumeId};

/// The contexts that were set, and the bindings, of at most 1024. It must be closed at its end.
pub struct BindTable {
    pub(crate) contexts: Vec<HostContext>,
    pub(crate) bindings: Vec<Binding>,
}

impl Model for BindTable {
    ghost use Rattle.std.specs.Prelude.{vec_capacity};
    ghost use Rattle.vv_bind.specs.Table.{BindState, IsKept};

    ghost Value = { BindState };

    ghost view = { λ a. record { contexts = a.contexts.items; bindings = a.bindings.items } };

    ghost invariant = { λ a. IsKept a.contexts.items a.bindings.items (vec_capacity a.contexts) (vec_capacity a.bindings) };
}

impl BindTable {
    /// A table with no context set and no binding, with all its memory.
    pub fn new(alloc: Global) -> Result<BindTable, NoMemory>
        ensures { IfOk result (λ table. table ≡ record { contexts = []; bindings = [] }) }
    {
        let Ok(contexts) = Vec::with_capacity(alloc, 64) else {
            return Err(NoMemory);
        };
        match Vec::with_capacity(alloc, 1024) {
            Ok(bindings) => Ok(BindTable { contexts, bindings }),
            Err(_) => Err(NoMemory),
        }
    }

    /// The endpoints that a host may bind at: those that were set, and else endpoint 1 alone.
    pub fn endpoints(&self, host: HostId) -> &[EndpointId]
        requires { IsHost host.0 }
        ensures endpoints { numbers result.now ≡ endpoints_of self.now.contexts host.0 }
        ensures few { length result.now ≤ 8 }
        ensures different { IsTrue (all_different (numbers result.now)) }
        ensures not_zero { IsTrue (list_all (λ e. nat_lt 0 e) (numbers result.now)) }
    {
        rows::endpoints_in(&self.contexts, host)
    }

    /// Whether a context was set for a host.
    pub fn was_set(&self, host: HostId) -> bool
        requires { IsHost host.0 }
        ensures { result ≡ was_set self.now.contexts host.0 }
    {
        rows::has_context(&self.contexts, host)
    }

    /// Whether each binding of a host is at an endpoint of the list.
    pub fn may_set(&self, host: HostId, list: &[EndpointId]) -> bool
        requires { IsHost host.0 }
        ensures { result ≡ keeps_bindings self.now.bindings host.0 (numbers list.now) }
    {
        rows::are_kept(&self.bindings, host, list)
    }

    /// Sets the endpoints of a host.
    pub fn set_endpoints(&mut self, host: HostId, list: &[EndpointId])
        requires host { IsHost host.0 }
        requires few { length list.now ≤ 8 }
        requires different { IsTrue (all_different (numbers list.now)) }
        requires not_zero { IsTrue (list_all (λ e. nat_lt 0 e) (numbers list.now)) }
        requires may { IsTrue (keeps_bindings self.old.bindings host.0 (numbers list.now)) }
        ensures { self.new ≡ record self.old { contexts = with_context self.old.contexts host.0 (numbers list.now) } }
    {
        rows::set_context(&mut self.contexts, HostContext::of(host, list));
    }

    /// Whether a host may bind a volume once more.
    pub fn may_bind(&self, host: HostId, volume: VolumeId) -> Result<(), BindFault>
        requires { IsHost host.0 }
        ensures { MatchResult result (λ _. bind_fault self.now host.0 volume.0 ≡ None) (λ fault. bind_fault self.now host.0 volume.0 ≡ Some fault) }
    {
        if rows::endpoints_in(&self.contexts, host).is_empty() {
            return Err(BindFault::NoEndpoint);
        }
        match rows::place_of(&self.bindings, host, volume) {
            Some(at) => {
                if self.bindings[at].count() == u16::MAX {
                    return Err(BindFault::TooManyCount);
                }
                Ok(())
            }
            None => {
                if rows::is_full(&self.bindings) {
                    return Err(BindFault::TooManyBindings);
                }
                Ok(())
            }
        }
    }

    /// Binds a volume for a host, and gives where.
    pub fn bind(&mut self, host: HostId, volume: VolumeId) -> (EndpointId, Secondary)
        requires host { IsHost host.0 }
        requires may { bind_fault self.old host.0 volume.0 ≡ None }
        ensures address { address host.0 result.0.0 result.1.0 ≡ bound_address self.old.contexts self.old.bindings host.0 volume.0 }
        ensures table { self.new ≡ record self.old { bindings = with_binding self.old.contexts self.old.bindings host.0 volume.0 } }
    {
        if let Some(at) = rows::place_of(&self.bindings, host, volume) {
            return rows::raise(&mut self.bindings, host, volume, at);
        }
        let endpoint = rows::first_endpoint(&self.contexts, host);
        let secondary = rows::least_free(&self.bindings, host, endpoint);
        rows::put(
            &mut self.bindings,
            Binding::of(host, endpoint, secondary, volume, 1),
        );
        (endpoint, secondary)
    }

    /// Unbinds once what is bound at an address, and gives the count that is left. At 0 the binding is gone.
    pub fn unbind(
        &mut self,
        host: HostId,
        endpoint: EndpointId,
        secondary: Secondary,
    ) -> Option<u16>
        requires { IsHost host.0 }
        ensures left { result ≡ option_map (λ b. b.count - 1) (binding_at self.old.bindings (address host.0 endpoint.0 secondary.0)) }
        ensures table { self.new ≡ record self.old { bindings = without_binding self.old.bindings (address host.0 endpoint.0 secondary.0) } }
        ensures unbound { IfNone result (self.new ≡ self.old) }
    {
        match rows::place_at(&self.bindings, host, endpoint, secondary) {
            Some(at) => Some(rows::lower(&mut self.bindings, host, endpoint, secondary, at)),
            None => None,
        }
    }

    /// Takes out all bindings of a host, and gives how many there were.
    pub fn unbind_all(&mut self, host: HostId) -> u32
        requires { IsHost host.0 }
        ensures count { result ≡ host_bindings self.old.bindings host.0 }
        ensures table { self.new ≡ record self.old { bindings = without_host self.old.bindings host.0 } }
    {
        rows::take_out(&mut self.bindings, host)
    }

    /// The binding at an address.
    pub fn find(&self, host: HostId, endpoint: EndpointId, secondary: Secondary) -> Option<&Binding>
        requires { IsHost host.0 }
        ensures { option_copied result ≡ binding_at self.now.bindings (address host.0 endpoint.0 secondary.0) }
    {
        rows::binding_at(&self.bindings, host, endpoint, secondary)
    }

    /// Whether a volume is bound for any host.
    pub fn bound(&self, volume: VolumeId) -> bool
        ensures { result ≡ is_bound self.now.bindings volume.0 }
    {
        rows::is_volume_bound(&self.bindings, volume)
    }

    /// The binding at a place, in rising order of host, endpoint and secondary identifier.
    pub fn at(&self, i: u32) -> Option<&Binding>
        ensures item { option_copied result ≡ slice_get self.now.bindings i }
        ensures rising { IsTrue (bindings_rise self.now.bindings) }
        ensures few { length self.now.bindings ≤ 1024 }
        ensures hosts { IsTrue (list_all is_of_a_host self.now.bindings) }
    {
        self.bindings.get(i as usize)
    }

    /// Adds a binding as it stood.
    pub fn restore(
        &mut self,
        host: HostId,
        endpoint: EndpointId,
        secondary: Secondary,
        volume: VolumeId,
        count: u16,
    )
        requires host { IsHost host.0 }
        requires room { length self.old.bindings < 1024 }
        requires free { binding_at self.old.bindings (address host.0 endpoint.0 secondary.0) ≡ None }
        requires listed { IsTrue (list_any (λ e. e == endpoint.0) (endpoints_of self.old.contexts host.0)) }
        requires secondary { 1 ≤ secondary.0 }
        requires count { 1 ≤ count }
        requires unbound { binding_of self.old.bindings host.0 volume.0 ≡ None }
        ensures { self.new ≡ record self.old { bindings = with_one_more self.old.bindings (record { address = address host.0 endpoint.0 secondary.0; volume = volume.0; count = count }) } }
    {
        rows::put(
            &mut self.bindings,
            Binding::of(host, endpoint, secondary, volume, count),
        );
    }

    /// Ends the table and its bindings.
    pub fn close(self) {
        let BindTable {
            contexts,
            mut bindings,
        } = self;
        while let Some(binding) = bindings.pop() {
            binding.spend();
        }
        bindings.destroy_empty();
        drop(contexts);
    }
}
