//! The context that was set for a host.
ghost use Rattle.std.specs.Prelude.{◌≡◌, ◌==◌, ◌≤◌, length};
ghost use Rattle.vv_bind.specs.Table.{numbers};

use std::marker::Model;
use vv_units::{EndpointId, HostId};

/// A host's endpoints in order.
#[derive(Drop)]
pub(crate) struct HostContext {
    host: HostId,
    listed: [EndpointId; 8],
    count: usize,
}

impl Model for HostContext {
    ghost use Rattle.std.specs.Prelude.{◌≤◌, take};
    ghost use Rattle.vv_flat.specs.State.{Context};
    ghost use Rattle.vv_bind.specs.Table.{numbers};

    ghost Value = { Context };

    ghost view = { λ a. record { host = a.host.0; endpoints = numbers (take a.count a.listed) } };

    ghost invariant = { λ a. a.count ≤ 8 };
}

impl HostContext {
    pub(crate) fn of(host: HostId, list: &[EndpointId]) -> HostContext
        requires { length list.now ≤ 8 }
        ensures { result ≡ record { host = host.0; endpoints = numbers list.now } }
    {
        let mut listed = [EndpointId(0); 8];
        let count = list.len();
        listed[..count].copy_from_slice(list);
        HostContext {
            host,
            listed,
            count,
        }
    }

    pub(crate) fn host(&self) -> HostId
        ensures { result.0 ≡ self.now.host }
    {
        self.host
    }

    pub(crate) fn endpoints(&self) -> &[EndpointId]
        ensures { numbers result.now ≡ self.now.endpoints }
    {
        &self.listed[..self.count]
    }
}
