//! Unit attentions (SAM-5).
ghost use Rattle.std.specs.Prelude.{◌≡◌, ◌≤◌, ◌<◌, [], length, IsTrue, IfOk, vec_len, vec_capacity};
ghost use Rattle.std.specs.List.{position, position_or_len};
ghost use Rattle.vv_flat.specs.Bindings.{is_address, is_below};
ghost use Rattle.vv_flat.specs.Lists.{put_before};
ghost use Rattle.vv_flat.specs.Volatile.{has_attention, with_attention, without_attention, without_attentions_of};
ghost use Rattle.vv_bind.specs.Table.{address};
ghost use Rattle.vv_lun.specs.Attentions.{may_wait, addresses_rise};

use std::alloc::Global;
use std::marker::Model;
use vv_units::{EndpointId, HostId, NoMemory, Secondary};

/// The most addresses.
const LIMIT: usize = 1024;

/// A host's address of a logical unit.
#[derive(Clone, Copy)]
struct Address {
    host: HostId,
    endpoint: EndpointId,
    secondary: Secondary,
}

impl Model for Address {
    ghost use Rattle.vv_flat.specs.State.{Address as AddressState};

    ghost Value = { AddressState };

    ghost view = { λ a. record { host = a.host.0; endpoint = a.endpoint.0; secondary = a.secondary.0 } };

    ghost inverse = { λ d. record { host = record { 0 = d.host }; endpoint = record { 0 = d.endpoint }; secondary = record { 0 = d.secondary } } };
}

impl Address {
    fn of(host: HostId, endpoint: EndpointId, secondary: Secondary) -> Address
        ensures { result ≡ address host.0 endpoint.0 secondary.0 }
    {
        Address {
            host,
            endpoint,
            secondary,
        }
    }

    fn is(&self, other: Address) -> bool
        ensures { result ≡ is_address self.now other }
    {
        self.host.0 == other.host.0
            && self.endpoint.0 == other.endpoint.0
            && self.secondary.0 == other.secondary.0
    }

    fn is_above(&self, other: Address) -> bool
        ensures { result ≡ is_below other self.now }
    {
        other.host.0 < self.host.0
            || (other.host.0 == self.host.0
                && (other.endpoint.0 < self.endpoint.0
                    || (other.endpoint.0 == self.endpoint.0
                        && other.secondary.0 < self.secondary.0)))
    }
}

/// Whether an address is among these.
fn is_among(addresses: &[Address], address: Address) -> bool
    ensures { result ≡ has_attention addresses.now address }
{
    addresses.iter().any(|b| b.is(address))
}

/// The place of the first address above this one.
fn place_above(addresses: &[Address], address: Address) -> Option<usize>
    ensures { result ≡ position (λ b. is_below address b) addresses.now }
{
    addresses.iter().position(|b| b.is_above(address))
}

/// The place where an address comes in the order.
fn place_in_order(addresses: &[Address], address: Address) -> usize
    ensures at { result ≡ position_or_len (λ b. is_below address b) addresses.now }
    ensures within { result ≤ length addresses.now }
{
    place_above(addresses, address).unwrap_or(addresses.len())
}

/// Adds an address at its place in the order.
fn put(addresses: &mut Vec<Address>, address: Address)
    requires { vec_len addresses.old < vec_capacity addresses.old }
    ensures items { addresses.new.items ≡ put_before (λ b. is_below address b) address addresses.old.items }
    ensures capacity { vec_capacity addresses.old ≤ vec_capacity addresses.new }
{
    let at = place_in_order(addresses, address);
    match addresses.insert(at, address) {
        Ok(()) => {}
        Err(_) => unreachable!(),
    }
}

/// Takes an address out.
fn take_out(addresses: &mut Vec<Address>, address: Address)
    ensures items { addresses.new.items ≡ without_attention addresses.old.items address }
    ensures capacity { vec_capacity addresses.new ≡ vec_capacity addresses.old }
{
    addresses.retain(|b| !b.is(address));
}

/// Takes all addresses of a host out.
fn take_out_of(addresses: &mut Vec<Address>, host: HostId)
    ensures items { addresses.new.items ≡ without_attentions_of addresses.old.items host.0 }
    ensures capacity { vec_capacity addresses.new ≡ vec_capacity addresses.old }
{
    addresses.retain(|b| b.host.0 != host.0);
}

/// The addresses at which a unit attention waits, of at most 1024.
#[derive(Drop)]
pub struct Attentions {
    addresses: Vec<Address>,
}

impl Model for Attentions {
    ghost use Rattle.std.specs.Prelude.{List, vec_capacity};
    ghost use Rattle.vv_flat.specs.State.{Address as AddressState};
    ghost use Rattle.vv_lun.specs.Attentions.{IsKept};

    ghost Value = { List AddressState };

    ghost view = { λ a. a.addresses.items };

    ghost invariant = { λ a. IsKept a.addresses.items (vec_capacity a.addresses) };
}

impl Attentions {
    /// No attention, with all memory.
    pub fn new(alloc: Global) -> Result<Attentions, NoMemory>
        ensures { IfOk result (λ attentions. attentions ≡ []) }
    {
        match Vec::with_capacity(alloc, LIMIT) {
            Ok(addresses) => Ok(Attentions { addresses }),
            Err(_) => Err(NoMemory),
        }
    }

    /// Sets an attention at an address. Where one waits already, nothing changes.
    pub fn set(&mut self, host: HostId, endpoint: EndpointId, secondary: Secondary)
        requires { IsTrue (may_wait self.old (address host.0 endpoint.0 secondary.0)) }
        ensures { self.new ≡ with_attention self.old (address host.0 endpoint.0 secondary.0) }
    {
        let address = Address::of(host, endpoint, secondary);
        if !is_among(&self.addresses, address) {
            put(&mut self.addresses, address);
        }
    }

    /// Clears the attention at an address, if one waits there.
    pub fn clear(&mut self, host: HostId, endpoint: EndpointId, secondary: Secondary)
        ensures { self.new ≡ without_attention self.old (address host.0 endpoint.0 secondary.0) }
    {
        take_out(&mut self.addresses, Address::of(host, endpoint, secondary));
    }

    /// Clears the attentions at all addresses of a host.
    pub fn clear_host(&mut self, host: HostId)
        ensures { self.new ≡ without_attentions_of self.old host.0 }
    {
        take_out_of(&mut self.addresses, host);
    }

    /// Whether an attention waits at an address. Each address with one is there once.
    pub fn has(&self, host: HostId, endpoint: EndpointId, secondary: Secondary) -> bool
        ensures rise { IsTrue (addresses_rise self.now) }
        ensures value { result ≡ has_attention self.now (address host.0 endpoint.0 secondary.0) }
    {
        is_among(&self.addresses, Address::of(host, endpoint, secondary))
    }

    /// Clears all attentions.
    pub fn clear_all(&mut self)
        ensures { self.new ≡ [] }
    {
        self.addresses.clear();
    }
}
