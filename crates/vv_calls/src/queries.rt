//! Queries, and the restart.
ghost use Rattle.std.specs.Prelude.{◌≡◌, IfOk};
ghost use Rattle.serde_json.specs.View.{view};
ghost use Rattle.vv_calls.specs.Calls as row;
ghost use Rattle.vv_calls.specs.Formed.{IsFormed};
ghost use Rattle.vv_calls.specs.Steps.{Reads};

use crate::call::{Call, LineFault};
use crate::fields::{container, optional_number, volume};
use serde_json::Value;
use vv_units::Field;

/// The call of this name.
pub(crate) fn query_call(name: &str, line: &Value) -> Result<Call, LineFault>
    ensures read { Reads result (row.query_call name.now (view line.now)) }
    ensures formed { IfOk result IsFormed }
{
    match name {
        "allocatedBitmapVirtualVolume" => allocated_bitmap_virtual_volume(line),
        "unsharedBitmapVirtualVolume" => unshared_bitmap_virtual_volume(line),
        "unsharedChunksVirtualVolume" => unshared_chunks_virtual_volume(line),
        "queryPool" => Ok(Call::QueryPool),
        "queryStorageContainer" => query_storage_container(line),
        "queryVirtualVolume" => query_virtual_volume(line),
        "restart" => Ok(Call::Restart),
        _ => Err(LineFault::UnknownCall),
    }
}

fn allocated_bitmap_virtual_volume(line: &Value) -> Result<Call, LineFault>
    ensures read { result ≡ row.allocated_bitmap_virtual_volume (view line.now) }
    ensures formed { IfOk result IsFormed }
{
    let vvol = volume(line, Field::Vvol)?;
    let first = optional_number(line, Field::First)?;
    let count = optional_number(line, Field::Count)?;
    Ok(Call::AllocatedBitmapVirtualVolume { vvol, first, count })
}

fn unshared_bitmap_virtual_volume(line: &Value) -> Result<Call, LineFault>
    ensures read { result ≡ row.unshared_bitmap_virtual_volume (view line.now) }
    ensures formed { IfOk result IsFormed }
{
    let vvol = volume(line, Field::Vvol)?;
    let base = volume(line, Field::Base)?;
    let first = optional_number(line, Field::First)?;
    let count = optional_number(line, Field::Count)?;
    Ok(Call::UnsharedBitmapVirtualVolume {
        vvol,
        base,
        first,
        count,
    })
}

fn unshared_chunks_virtual_volume(line: &Value) -> Result<Call, LineFault>
    ensures read { result ≡ row.unshared_chunks_virtual_volume (view line.now) }
    ensures formed { IfOk result IsFormed }
{
    let vvol = volume(line, Field::Vvol)?;
    let base = volume(line, Field::Base)?;
    Ok(Call::UnsharedChunksVirtualVolume { vvol, base })
}

fn query_storage_container(line: &Value) -> Result<Call, LineFault>
    ensures read { result ≡ row.query_storage_container (view line.now) }
    ensures formed { IfOk result IsFormed }
{
    let container = container(line)?;
    Ok(Call::QueryStorageContainer { container })
}

fn query_virtual_volume(line: &Value) -> Result<Call, LineFault>
    ensures read { result ≡ row.query_virtual_volume (view line.now) }
    ensures formed { IfOk result IsFormed }
{
    let vvol = volume(line, Field::Vvol)?;
    Ok(Call::QueryVirtualVolume { vvol })
}
