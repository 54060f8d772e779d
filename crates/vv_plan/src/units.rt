//! The logical unit at an address.
ghost use Rattle.std.specs.Prelude.{◌≡◌, ◌*◌, ◌≤◌, ◌^◌, List};
ghost use Rattle.vv_flat.specs.State.{QueuedCommand};
ghost use Rattle.vv_flat.specs.Chunks.{shape_of_tables, volume_blocks};
ghost use Rattle.vv_flat.specs.Changes.{stamps_of, is_snapshot};
ghost use Rattle.vv_bind.specs.Table.{address};
ghost use Rattle.vv_lun.specs.Units.{Bound, state_of, IsUnit};
ghost use Rattle.vv_meaning.specs.Commands.{unit_at, is_endpoint_of_host, volume_in};
ghost use Rattle.vv_plan.specs.SeenArrays.{seen_array, IsBoundIn};

use vv_bind::Binding;
use vv_lun::{Attentions, Unit};
use vv_tables::Tables;
use vv_units::{EndpointId, HostId, Secondary, VolumeId};

/// How many blocks a bound volume has.
fn bound_blocks(tables: &Tables, binding: &Binding) -> u64
    requires { IsBoundIn tables.now binding.now }
    ensures exact { result ≡ volume_blocks tables.now.durable.geometry.chunk_blocks (stamps_of (shape_of_tables tables.now.durable) binding.now.volume) }
    ensures some { 1 ≤ result }
    ensures few { result ≤ 2 ^ 31 }
{
    let _lsn = tables.lsn();
    u64::from(tables.size(binding.volume())) * u64::from(tables.geometry().chunk_blocks)
}

/// The unit of a binding.
fn bound_unit<'a>(tables: &Tables, binding: &'a Binding, attention: bool) -> Unit<'a>
    requires { IsBoundIn tables.now binding.now }
    ensures unit { IsUnit (state_of result) }
    ensures state { state_of result ≡ Bound binding.now.volume
        (volume_blocks tables.now.durable.geometry.chunk_blocks (stamps_of (shape_of_tables tables.now.durable) binding.now.volume))
        (is_snapshot (shape_of_tables tables.now.durable) binding.now.volume) attention }
{
    Unit::Bound {
        binding,
        blocks: bound_blocks(tables, binding),
        snapshot: tables.is_snapshot(binding.volume()),
        attention,
    }
}

/// What is at an address, by the tables and by the unit attentions that wait.
#[tactic(auto, unfolding(vv_meaning::specs::Commands::unit_at))]
pub fn unit_at<'a>(
    tables: &'a Tables,
    attentions: &Attentions,
    host: HostId,
    endpoint: EndpointId,
    secondary: Secondary,
) -> Unit<'a>
    ensures unit { IsUnit (state_of result) }
    ensures state { (queues : List (List QueuedCommand)) → state_of result ≡ unit_at (seen_array tables.now queues attentions.now) (address host.0 endpoint.0 secondary.0) }
{
    if secondary.0 == 0 {
        if tables.bindings().has_endpoint(host, endpoint) {
            return Unit::Endpoint(endpoint);
        }
        return Unit::Unbound;
    }
    match tables.bindings().at_address(host, endpoint, secondary) {
        Some(binding) => { bound_unit(tables, binding, attentions.has(host, endpoint, secondary)) }
        None => Unit::Unbound,
    }
}

/// The volume of a unit whose blocks a command moves: none but a volume has blocks.
pub(crate) fn volume_in(unit: Unit) -> VolumeId
    ensures { result.0 ≡ volume_in (state_of unit.entry) }
{
    match unit {
        Unit::Bound { binding, .. } => binding.volume(),
        Unit::Unbound | Unit::Endpoint(_) => VolumeId(0),
    }
}
