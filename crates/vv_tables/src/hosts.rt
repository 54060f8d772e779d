//! Changes of hosts: their endpoints, and what is bound for them.
ghost use Rattle.std.specs.Prelude.{◌≡◌, [], IsTrue};
ghost use Rattle.vv_flat.specs.Bindings.{bound_address, count_left, host_bindings};
ghost use Rattle.vv_flat.specs.Changes.{SetEndpoints, Bind, Unbind, UnbindAll};
ghost use Rattle.vv_flat.specs.Fields.{change_has_forms};
ghost use Rattle.vv_flat.specs.Replay.{fits, replayed};
ghost use Rattle.vv_bind.specs.Table.{address, numbers};

use crate::tables::Tables;
use vv_units::{EndpointId, HostId, Secondary, VolumeId};

impl Tables {
    /// Sets the endpoints of a host, in this order.
    pub fn set_endpoints(&mut self, host: HostId, endpoints: &[EndpointId])
        requires fits { IsTrue (fits self.old.durable (SetEndpoints host.0 (numbers endpoints.now)) []) }
        requires forms { IsTrue (change_has_forms (SetEndpoints host.0 (numbers endpoints.now))) }
        ensures durable { self.new.durable ≡ replayed self.old.durable (SetEndpoints host.0 (numbers endpoints.now)) [] }
        ensures pages { self.new.pages ≡ self.old.pages }
        ensures rooms { self.new.rooms ≡ self.old.rooms }
    {
        self.bindings.set_endpoints(host, endpoints);
        self.lsn += 1;
    }

    /// Binds a volume for a host once more, and gives where.
    pub fn bind(&mut self, host: HostId, volume: VolumeId) -> (EndpointId, Secondary)
        requires fits { IsTrue (fits self.old.durable (Bind host.0 volume.0) []) }
        requires forms { IsTrue (change_has_forms (Bind host.0 volume.0)) }
        ensures address { address host.0 result.0.0 result.1.0 ≡ bound_address self.old.durable.contexts self.old.durable.bindings host.0 volume.0 }
        ensures durable { self.new.durable ≡ replayed self.old.durable (Bind host.0 volume.0) [] }
        ensures pages { self.new.pages ≡ self.old.pages }
        ensures rooms { self.new.rooms ≡ self.old.rooms }
    {
        self.lsn += 1;
        self.bindings.bind(host, volume)
    }

    /// Unbinds once what is bound at an address, and gives the count that is left. At 0 the binding is gone.
    pub fn unbind(&mut self, host: HostId, endpoint: EndpointId, secondary: Secondary) -> u16
        requires fits { IsTrue (fits self.old.durable (Unbind host.0 endpoint.0 secondary.0) []) }
        requires forms { IsTrue (change_has_forms (Unbind host.0 endpoint.0 secondary.0)) }
        ensures left { result ≡ count_left self.old.durable.bindings (address host.0 endpoint.0 secondary.0) }
        ensures durable { self.new.durable ≡ replayed self.old.durable (Unbind host.0 endpoint.0 secondary.0) [] }
        ensures pages { self.new.pages ≡ self.old.pages }
        ensures rooms { self.new.rooms ≡ self.old.rooms }
    {
        self.lsn += 1;
        self.bindings.unbind(host, endpoint, secondary).unwrap_or(0)
    }

    /// Unbinds all that is bound for a host, and gives how many bindings there were.
    pub fn unbind_all(&mut self, host: HostId) -> u32
        requires fits { IsTrue (fits self.old.durable (UnbindAll host.0) []) }
        requires forms { IsTrue (change_has_forms (UnbindAll host.0)) }
        ensures count { result ≡ host_bindings self.old.durable.bindings host.0 }
        ensures durable { self.new.durable ≡ replayed self.old.durable (UnbindAll host.0) [] }
        ensures pages { self.new.pages ≡ self.old.pages }
        ensures rooms { self.new.rooms ≡ self.old.rooms }
    {
        self.lsn += 1;
        self.bindings.unbind_all(host)
    }
}
