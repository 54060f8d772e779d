//! The table of contexts: the endpoints that were set for hosts.
ghost use Rattle.std.specs.Prelude.{◌≡◌, length};
ghost use Rattle.std.specs.List.{flat_map};
ghost use Rattle.vv_flat.specs.Lists.{if_found};
ghost use Rattle.vv_flat.specs.Bindings.{context_of};
ghost use Rattle.vv_bind.specs.Table.{IsHost, numbers};
ghost use Rattle.vv_record.specs.Spelling.{list_spelling, endpoint_spelling, endpoints_spelling};
ghost use Rattle.vv_area.specs.Spelling.{as_endpoints, context_spelling};
ghost use Rattle.vv_area.specs.Lengths.{context_length};
ghost use Rattle.vv_spell.specs.Window.{seen, behind};
ghost use Rattle.vv_spell.specs.Hosts.{found_in};

use crate::window::Window;
use vv_tables::Tables;
use vv_units::{EndpointId, HostId};

/// The number behind those of hosts, which are from 1 to 64.
pub(crate) const PAST_HOSTS: u32 = 65;

fn put_endpoint(window: &mut Window, into: &mut [u8], endpoint: &EndpointId)
    ensures { seen window.new into.new ≡ behind (seen window.old into.old) (endpoint_spelling endpoint.now) }
{
    window.put_number(into, 2, endpoint.0 as u64);
}

fn put_each_endpoint(window: &mut Window, into: &mut [u8], endpoints: &[EndpointId])
    ensures { seen window.new into.new ≡ behind (seen window.old into.old) (flat_map endpoint_spelling endpoints.now) }
{
    for endpoint in endpoints {
        put_endpoint(window, into, endpoint);
    }
}

#[tactic(auto, using(crate::proofs::WindowLemmas::put_two))]
fn put_endpoints(window: &mut Window, into: &mut [u8], endpoints: &[EndpointId])
    ensures { seen window.new into.new ≡ behind (seen window.old into.old) (endpoints_spelling endpoints.now) }
{
    window.put_number(into, 1, endpoints.len() as u64);
    put_each_endpoint(window, into, endpoints);
}

fn put_context(window: &mut Window, into: &mut [u8], host: HostId, endpoints: &[EndpointId])
    ensures { seen window.new into.new ≡ behind (seen window.old into.old) (context_spelling (record { host = host.0; endpoints = numbers endpoints.now })) }
{
    window.put_number(into, 4, host.0 as u64);
    put_endpoints(window, into, endpoints);
}

/// How many bytes the context of a host is spelled in: none where it was not set.
pub(crate) fn context_len(tables: &Tables, host: HostId) -> u64
    requires { IsHost host.0 }
    ensures { result ≡ if_found (context_of tables.now.durable.contexts host.0) context_length 0 }
{
    match tables.context(host) {
        Some(endpoints) => 5 + 2 * endpoints.len() as u64,
        None => 0,
    }
}

/// Puts the context of a host, if it was set.
fn put_context_of(window: &mut Window, into: &mut [u8], tables: &Tables, host: HostId)
    requires { IsHost host.0 }
    ensures { seen window.new into.new ≡ behind (seen window.old into.old) (flat_map context_spelling (found_in (context_of tables.now.durable.contexts host.0))) }
{
    if window.pass(into, context_len(tables, host)) {
        return;
    }
    match tables.context(host) {
        Some(endpoints) => put_context(window, into, host, endpoints),
        None => {}
    }
}

fn put_each_context(window: &mut Window, into: &mut [u8], tables: &Tables)
    ensures { seen window.new into.new ≡ behind (seen window.old into.old) (flat_map context_spelling tables.now.durable.contexts) }
{
    let _well_formed = tables.lsn();
    for host in 1..PAST_HOSTS {
        put_context_of(window, into, tables, HostId(host));
    }
}

/// 1 where the endpoints of a host were set, and else 0.
fn contexts_of(tables: &Tables, host: HostId) -> u64
    requires { IsHost host.0 }
    ensures { result ≡ length (found_in (context_of tables.now.durable.contexts host.0)) }
{
    match tables.context(host) {
        Some(_) => 1,
        None => 0,
    }
}

/// How many contexts there are.
fn context_count(tables: &Tables) -> u64
    ensures { result ≡ length tables.now.durable.contexts }
{
    let _well_formed = tables.lsn();
    let mut count = 0;
    for host in 1..PAST_HOSTS {
        count += contexts_of(tables, HostId(host));
    }
    count
}

/// Puts the contexts.
#[tactic(auto, using(crate::proofs::WindowLemmas::put_two))]
pub(crate) fn put_contexts(window: &mut Window, into: &mut [u8], tables: &Tables)
    ensures { seen window.new into.new ≡ behind (seen window.old into.old) (list_spelling 1 context_spelling tables.now.durable.contexts) }
{
    window.put_number(into, 1, context_count(tables));
    put_each_context(window, into, tables);
}
