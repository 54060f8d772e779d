//! How many bytes an area has, section by section. No entry is looked at.
ghost use Rattle.std.specs.Prelude.{◌≡◌, ◌<◌, ◌^◌, sum_by};
ghost use Rattle.vv_area.specs.Lengths.{containers_length, volumes_length, contexts_length, bindings_length, tasks_length, clone_length, copy_length, area_length};

use crate::area::has_length;
use crate::containers::container_len_at;
use crate::contexts::{PAST_HOSTS, context_len};
use crate::runs::{clone_len_at, copy_len_at};
use crate::tasks::task_len_at;
use crate::volumes::volume_len_at;
use vv_tables::Tables;
use vv_units::HostId;

fn containers_len(tables: &Tables) -> u64
    requires fits { area_length 2 tables.now.durable < 2 ^ 64 }
    ensures { result ≡ containers_length tables.now.durable.containers }
{
    let mut bytes = 1;
    for i in 0..tables.container_count() {
        bytes += container_len_at(tables, i);
    }
    bytes
}

fn volumes_len(tables: &Tables) -> u64
    requires fits { area_length 2 tables.now.durable < 2 ^ 64 }
    ensures { result ≡ volumes_length 2 tables.now.durable.volumes }
{
    let mut bytes = 2;
    for i in 0..tables.standing_volumes() {
        bytes += volume_len_at(tables, i);
    }
    bytes
}

fn contexts_len(tables: &Tables) -> u64
    requires fits { area_length 2 tables.now.durable < 2 ^ 64 }
    ensures { result ≡ contexts_length tables.now.durable.contexts }
{
    let _well_formed = tables.lsn();
    let mut bytes = 1;
    for host in 1..PAST_HOSTS {
        bytes += context_len(tables, HostId(host));
    }
    bytes
}

fn bindings_len(tables: &Tables) -> u64
    ensures { result ≡ bindings_length tables.now.durable.bindings }
{
    2 + 18 * tables.binding_count() as u64
}

fn tasks_len(tables: &Tables) -> u64
    requires fits { area_length 2 tables.now.durable < 2 ^ 64 }
    ensures { result ≡ tasks_length tables.now.durable.tasks }
{
    let mut bytes = 2;
    for i in 0..tables.task_count() {
        bytes += task_len_at(tables, i);
    }
    bytes
}

fn clones_len(tables: &Tables) -> u64
    requires fits { area_length 2 tables.now.durable < 2 ^ 64 }
    ensures { result ≡ sum_by clone_length tables.now.durable.clones }
{
    let _well_formed = tables.lsn();
    let mut bytes = 0;
    for i in 0..tables.running_count() {
        bytes += clone_len_at(tables, i);
    }
    bytes
}

fn copies_len(tables: &Tables) -> u64
    requires fits { area_length 2 tables.now.durable < 2 ^ 64 }
    ensures { result ≡ sum_by copy_length tables.now.durable.copies }
{
    let _well_formed = tables.lsn();
    let mut bytes = 0;
    for i in 0..tables.running_count() {
        bytes += copy_len_at(tables, i);
    }
    bytes
}

/// How many bytes the area of an image has in which these tables stand.
pub fn area_len(tables: &Tables) -> u64
    ensures { result ≡ area_length 2 tables.now.durable }
{
    has_length(tables);
    let heads = 8 + containers_len(tables) + volumes_len(tables);
    let hosts = contexts_len(tables) + bindings_len(tables);
    let tasks = tasks_len(tables) + clones_len(tables) + copies_len(tables);
    heads + hosts + tasks
}
