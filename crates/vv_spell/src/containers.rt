//! The table of containers.
ghost use Rattle.std.specs.Prelude.{◌≡◌, ◌<◌, ◌^◌, Some, slice_get};
ghost use Rattle.std.specs.List.{flat_map};
ghost use Rattle.vv_flat.specs.Lists.{if_found};
ghost use Rattle.vv_flat.specs.State.{Container as SeenContainer};
ghost use Rattle.vv_container.specs.Table.{numbered};
ghost use Rattle.vv_record.specs.Spelling.{list_spelling};
ghost use Rattle.vv_area.specs.Spelling.{container_spelling};
ghost use Rattle.vv_area.specs.Lengths.{container_length, area_length};
ghost use Rattle.vv_spell.specs.Window.{seen, behind};

use crate::fields::put_offers;
use crate::lengths::offers_len;
use crate::window::Window;
use vv_container::Container;
use vv_tables::Tables;
use vv_units::ContainerId;

/// How many bytes the container at a place is spelled in: none past the last.
pub(crate) fn container_len_at(tables: &Tables, i: u32) -> u64
    requires fits { area_length 2 tables.now.durable < 2 ^ 64 }
    ensures { result ≡ if_found (slice_get tables.now.durable.containers i) container_length 0 }
{
    match tables.container_at(i) {
        Some((_, container)) => 16 + offers_len(container.offered.items()),
        None => 0,
    }
}

#[tactic(auto, using(crate::proofs::WindowLemmas::put_two, crate::proofs::WindowLemmas::put_end))]
fn put_container(window: &mut Window, into: &mut [u8], id: ContainerId, container: &Container)
    ensures { seen window.new into.new ≡ behind (seen window.old into.old) (container_spelling (numbered id.0 container.now)) }
{
    window.put_number(into, 8, id.0);
    window.put_number(into, 8, container.quota);
    put_offers(window, into, container.offered.items());
}

fn put_container_at(window: &mut Window, into: &mut [u8], tables: &Tables, i: u32)
    requires fits { area_length 2 tables.now.durable < 2 ^ 64 }
    ensures { (k : SeenContainer) → slice_get tables.now.durable.containers i ≡ Some k → seen window.new into.new ≡ behind (seen window.old into.old) (container_spelling k) }
{
    if window.pass(into, container_len_at(tables, i)) {
        return;
    }
    if let Some((id, container)) = tables.container_at(i) {
        put_container(window, into, id, container);
    }
}

fn put_each_container(window: &mut Window, into: &mut [u8], tables: &Tables)
    requires fits { area_length 2 tables.now.durable < 2 ^ 64 }
    ensures { seen window.new into.new ≡ behind (seen window.old into.old) (flat_map container_spelling tables.now.durable.containers) }
{
    for i in 0..tables.container_count() {
        put_container_at(window, into, tables, i);
    }
}

/// Puts the containers.
#[tactic(auto, using(crate::proofs::WindowLemmas::put_two))]
pub(crate) fn put_containers(window: &mut Window, into: &mut [u8], tables: &Tables)
    requires fits { area_length 2 tables.now.durable < 2 ^ 64 }
    ensures { seen window.new into.new ≡ behind (seen window.old into.old) (list_spelling 1 container_spelling tables.now.durable.containers) }
{
    window.put_number(into, 1, tables.container_count() as u64);
    put_each_container(window, into, tables);
}
