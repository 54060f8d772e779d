//! One binding. It must be spent: none can be dropped.
ghost use Rattle.std.specs.Prelude.{◌≡◌, ◌≢◌, ◌==◌, ◌&&◌, ◌+◌, ◌-◌, ◌<◌, ◌≤◌};
ghost use Rattle.vv_flat.specs.Bindings.{is_address, is_below, is_binding_of, is_of_host};
ghost use Rattle.vv_bind.specs.Table.{address};

use std::marker::Model;
use vv_units::{EndpointId, HostId, Secondary, VolumeId};

/// A volume bound for a host at a secondary identifier of an endpoint, as often as the count says.
#[derive(Debug)]
pub struct Binding {
    host: HostId,
    endpoint: EndpointId,
    secondary: Secondary,
    volume: VolumeId,
    count: u16,
}

impl Model for Binding {
    ghost use Rattle.std.specs.Prelude.{◌≤◌};
    ghost use Rattle.vv_flat.specs.State.{Binding as BindingState};

    ghost Value = { BindingState };

    ghost view = { λ a. record { address = record { host = a.host.0; endpoint = a.endpoint.0; secondary = a.secondary.0 }; volume = a.volume.0; count = a.count } };

    ghost invariant = { λ a. 1 ≤ a.count };
}

impl Binding {
    pub(crate) fn of(
        host: HostId,
        endpoint: EndpointId,
        secondary: Secondary,
        volume: VolumeId,
        count: u16,
    ) -> Binding
        requires { 1 ≤ count }
        ensures { result ≡ record { address = address host.0 endpoint.0 secondary.0; volume = volume.0; count = count } }
    {
        Binding {
            host,
            endpoint,
            secondary,
            volume,
            count,
        }
    }

    /// The host that the volume is bound for.
    pub fn host(&self) -> HostId
        ensures { result.0 ≡ self.now.address.host }
    {
        self.host
    }

    /// The endpoint that the volume is bound at.
    pub fn endpoint(&self) -> EndpointId
        ensures { result.0 ≡ self.now.address.endpoint }
    {
        self.endpoint
    }

    /// The secondary identifier at the endpoint.
    pub fn secondary(&self) -> Secondary
        ensures { result.0 ≡ self.now.address.secondary }
    {
        self.secondary
    }

    /// The volume.
    pub fn volume(&self) -> VolumeId
        ensures { result.0 ≡ self.now.volume }
    {
        self.volume
    }

    /// How often the volume is bound here.
    pub fn count(&self) -> u16
        ensures exact { result ≡ self.now.count }
        ensures some { 1 ≤ result }
    {
        self.count
    }

    pub(crate) fn is_of(&self, host: HostId) -> bool
        ensures { result ≡ is_of_host host.0 self.now }
    {
        self.host.0 == host.0
    }

    pub(crate) fn is_at(&self, host: HostId, endpoint: EndpointId, secondary: Secondary) -> bool
        ensures { result ≡ is_address self.now.address (address host.0 endpoint.0 secondary.0) }
    {
        self.host.0 == host.0 && self.endpoint.0 == endpoint.0 && self.secondary.0 == secondary.0
    }

    pub(crate) fn is_above(&self, host: HostId, endpoint: EndpointId, secondary: Secondary) -> bool
        ensures { result ≡ is_below (address host.0 endpoint.0 secondary.0) self.now.address }
    {
        host.0 < self.host.0
            || (host.0 == self.host.0
                && (endpoint.0 < self.endpoint.0
                    || (endpoint.0 == self.endpoint.0 && secondary.0 < self.secondary.0)))
    }

    pub(crate) fn binds(&self, host: HostId, volume: VolumeId) -> bool
        ensures { result ≡ is_binding_of host.0 volume.0 self.now }
    {
        self.host.0 == host.0 && self.volume.0 == volume.0
    }

    /// Whether an unbind leaves nothing of it.
    pub(crate) fn is_last(&self) -> bool
        ensures { result ≡ (self.now.count == 1) }
    {
        self.count == 1
    }

    pub(crate) fn raise(&mut self)
        requires { self.old.count ≢ 65535 }
        ensures { self.new ≡ record self.old { count = self.old.count + 1 } }
    {
        self.count += 1;
    }

    pub(crate) fn lower(&mut self)
        requires { 2 ≤ self.old.count }
        ensures { self.new ≡ record self.old { count = self.old.count - 1 } }
    {
        self.count -= 1;
    }

    /// Ends it.
    pub(crate) fn spend(self) {
        let Binding {
            host: _host,
            endpoint: _endpoint,
            secondary: _secondary,
            volume: _volume,
            count: _count,
        } = self;
    }
}
