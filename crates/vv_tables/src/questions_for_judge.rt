//! Questions that the answers to changes ask.
ghost use Rattle.std.specs.Prelude.{◌≡◌, ◌≤◌, ◌^◌, ◌==◌, not, length};
ghost use Rattle.vv_flat.specs.Lists.{numbers_eq};
ghost use Rattle.vv_flat.specs.Chunks.{shape_of_tables};
ghost use Rattle.vv_flat.specs.Bindings.{endpoints_of, is_set_to};
ghost use Rattle.vv_flat.specs.Changes.{size_of};
ghost use Rattle.vv_flat.specs.Rules.{is_host};
ghost use Rattle.vv_bind.specs.Table.{IsHost, numbers};

use crate::tables::Tables;
use vv_bind::BindTable;
use vv_units::{EndpointId, HostId, VolumeId};

impl Tables {
    /// How many chunks a volume has, of which there are at most 2^20: none where there is no such volume.
    pub fn chunks_of(&self, id: VolumeId) -> u32
        ensures exact { result ≡ size_of (shape_of_tables self.now.durable) id.0 }
        ensures few { result ≤ 2 ^ 20 }
    {
        let _kept = &self.geometry;
        self.size(id)
    }

    /// Whether a host may bind at some endpoint. A number that is no host's has no context, so it has endpoint 1.
    pub fn has_endpoints(&self, host: HostId) -> bool
        ensures { result ≡ not (length (endpoints_of self.now.durable.contexts host.0) == 0) }
    {
        !is_host(host) || !self.bindings.endpoints(host).is_empty()
    }

    /// Whether these endpoints were the last that were set for a host, in this order.
    pub fn is_set_to(&self, host: HostId, endpoints: &[EndpointId]) -> bool
        ensures { result ≡ is_set_to self.now.durable.contexts host.0 (numbers endpoints.now) }
    {
        let _kept = &self.geometry;
        if !is_host(host) {
            return false;
        }
        was_last_set(&self.bindings, host, endpoints)
    }
}

/// Whether a number is a host's.
fn is_host(host: HostId) -> bool
    ensures { result ≡ is_host host.0 }
{
    1 <= host.0 && host.0 <= 64
}

/// Whether these endpoints were the last that were set for a host.
fn was_last_set(bindings: &BindTable, host: HostId, endpoints: &[EndpointId]) -> bool
    requires { IsHost host.0 }
    ensures { result ≡ is_set_to bindings.now.contexts host.0 (numbers endpoints.now) }
{
    if !bindings.was_set(host) {
        return false;
    }
    are_same(bindings.endpoints(host), endpoints)
}

/// Whether two lists have the same endpoints in the same order.
fn are_same(endpoints: &[EndpointId], others: &[EndpointId]) -> bool
    ensures { result ≡ numbers_eq (numbers endpoints.now) (numbers others.now) }
{
    if endpoints.len() != others.len() {
        return false;
    }
    for (i, endpoint) in endpoints.iter().enumerate() {
        if endpoint.0 != others[i].0 {
            return false;
        }
    }
    true
}
