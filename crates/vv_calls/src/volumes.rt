//! Volumes and containers.
ghost use Rattle.std.specs.Prelude.{◌≡◌, IfOk};
ghost use Rattle.serde_json.specs.View.{view};
ghost use Rattle.vv_calls.specs.Calls as row;
ghost use Rattle.vv_calls.specs.Formed.{IsFormed};
ghost use Rattle.vv_calls.specs.Steps.{Reads};

use crate::call::{Call, LineFault};
use crate::copies::copy_call;
use crate::fields::{
    capabilities, key, optional_container, optional_profile, optional_value, quota, size_in_mb,
    volume, vvol_type,
};
use serde_json::Value;
use std::alloc::Global;
use vv_units::Field;

/// The call of this name.
pub(crate) fn volume_call(alloc: Global, name: &str, line: &Value) -> Result<Call, LineFault>
    ensures read { Reads result (row.volume_call name.now (view line.now)) }
    ensures formed { IfOk result IsFormed }
{
    match name {
        "createStorageContainer" => create_storage_container(alloc, line),
        "createVirtualVolume" => create_virtual_volume(alloc, line),
        "deleteVirtualVolume" => delete_virtual_volume(line),
        "resizeVirtualVolume" => resize_virtual_volume(line),
        "setMetadata" => set_metadata(alloc, line),
        _ => copy_call(alloc, name, line),
    }
}

fn create_storage_container(alloc: Global, line: &Value) -> Result<Call, LineFault>
    ensures read { Reads result (row.create_storage_container (view line.now)) }
    ensures formed { IfOk result IsFormed }
{
    let quota = quota(line)?;
    let capabilities = capabilities(alloc, line)?;
    Ok(Call::CreateStorageContainer {
        quota,
        capabilities,
    })
}

fn create_virtual_volume(alloc: Global, line: &Value) -> Result<Call, LineFault>
    ensures read { Reads result (row.create_virtual_volume (view line.now)) }
    ensures formed { IfOk result IsFormed }
{
    let container = optional_container(line)?;
    let vvol_type = vvol_type(line)?;
    let size_in_mb = size_in_mb(line)?;
    let profile = optional_profile(alloc, line)?;
    Ok(Call::CreateVirtualVolume {
        container,
        vvol_type,
        size_in_mb,
        profile,
    })
}

fn delete_virtual_volume(line: &Value) -> Result<Call, LineFault>
    ensures read { result ≡ row.delete_virtual_volume (view line.now) }
    ensures formed { IfOk result IsFormed }
{
    let vvol = volume(line, Field::Vvol)?;
    Ok(Call::DeleteVirtualVolume { vvol })
}

fn resize_virtual_volume(line: &Value) -> Result<Call, LineFault>
    ensures read { result ≡ row.resize_virtual_volume (view line.now) }
    ensures formed { IfOk result IsFormed }
{
    let vvol = volume(line, Field::Vvol)?;
    let size_in_mb = size_in_mb(line)?;
    Ok(Call::ResizeVirtualVolume { vvol, size_in_mb })
}

fn set_metadata(alloc: Global, line: &Value) -> Result<Call, LineFault>
    ensures read { Reads result (row.set_metadata (view line.now)) }
    ensures formed { IfOk result IsFormed }
{
    let vvol = volume(line, Field::Vvol)?;
    let key = key(alloc, line)?;
    let value = optional_value(alloc, line)?;
    Ok(Call::SetMetadata { vvol, key, value })
}
