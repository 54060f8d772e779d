//! Hosts, their bindings and their commands.
ghost use Rattle.std.specs.Prelude.{◌≡◌, IfOk};
ghost use Rattle.serde_json.specs.View.{view};
ghost use Rattle.vv_calls.specs.Calls as row;
ghost use Rattle.vv_calls.specs.Formed.{IsFormed};
ghost use Rattle.vv_calls.specs.Steps.{Reads};

use crate::call::{Call, LineFault};
use crate::fields::{command, endpoint, endpoints, host, secondary, volume};
use crate::queries::query_call;
use serde_json::Value;
use std::alloc::Global;
use vv_units::Field;

/// The call of this name.
pub(crate) fn host_call(alloc: Global, name: &str, line: &Value) -> Result<Call, LineFault>
    ensures read { Reads result (row.host_call name.now (view line.now)) }
    ensures formed { IfOk result IsFormed }
{
    match name {
        "setPEContext" => set_pe_context(alloc, line),
        "bindVirtualVolume" => bind_virtual_volume(line),
        "unbindVirtualVolume" => unbind_virtual_volume(line),
        "unbindAllVirtualVolumesFromHost" => unbind_all_virtual_volumes_from_host(line),
        "scsi" => scsi(alloc, line),
        "submit" => submit(alloc, line),
        "serve" => serve(line),
        _ => query_call(name, line),
    }
}

fn set_pe_context(alloc: Global, line: &Value) -> Result<Call, LineFault>
    ensures read { Reads result (row.set_pe_context (view line.now)) }
    ensures formed { IfOk result IsFormed }
{
    let host = host(line)?;
    let endpoints = endpoints(alloc, line)?;
    Ok(Call::SetPEContext { host, endpoints })
}

fn bind_virtual_volume(line: &Value) -> Result<Call, LineFault>
    ensures read { result ≡ row.bind_virtual_volume (view line.now) }
    ensures formed { IfOk result IsFormed }
{
    let host = host(line)?;
    let vvol = volume(line, Field::Vvol)?;
    Ok(Call::BindVirtualVolume { host, vvol })
}

fn unbind_virtual_volume(line: &Value) -> Result<Call, LineFault>
    ensures read { result ≡ row.unbind_virtual_volume (view line.now) }
    ensures formed { IfOk result IsFormed }
{
    let host = host(line)?;
    let endpoint = endpoint(line)?;
    let secondary = secondary(line)?;
    Ok(Call::UnbindVirtualVolume {
        host,
        endpoint,
        secondary,
    })
}

fn unbind_all_virtual_volumes_from_host(line: &Value) -> Result<Call, LineFault>
    ensures read { result ≡ row.unbind_all_virtual_volumes_from_host (view line.now) }
    ensures formed { IfOk result IsFormed }
{
    let host = host(line)?;
    Ok(Call::UnbindAllVirtualVolumesFromHost { host })
}

fn scsi(alloc: Global, line: &Value) -> Result<Call, LineFault>
    ensures read { Reads result (row.scsi (view line.now)) }
    ensures formed { IfOk result IsFormed }
{
    let command = command(alloc, line)?;
    Ok(Call::Scsi(command))
}

fn submit(alloc: Global, line: &Value) -> Result<Call, LineFault>
    ensures read { Reads result (row.submit (view line.now)) }
    ensures formed { IfOk result IsFormed }
{
    let command = command(alloc, line)?;
    Ok(Call::Submit(command))
}

fn serve(line: &Value) -> Result<Call, LineFault>
    ensures read { result ≡ row.serve (view line.now) }
    ensures formed { IfOk result IsFormed }
{
    let host = host(line)?;
    Ok(Call::Serve { host })
}
