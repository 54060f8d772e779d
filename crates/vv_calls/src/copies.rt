//! Copies and tasks.
ghost use Rattle.std.specs.Prelude.{◌≡◌, IfOk};
ghost use Rattle.serde_json.specs.View.{view};
ghost use Rattle.vv_calls.specs.Calls as row;
ghost use Rattle.vv_calls.specs.Formed.{IsFormed};
ghost use Rattle.vv_calls.specs.Steps.{Reads};

use crate::call::{Call, LineFault};
use crate::fields::{task, volume};
use crate::hosts::host_call;
use serde_json::Value;
use std::alloc::Global;
use vv_units::Field;

/// The call of this name.
pub(crate) fn copy_call(alloc: Global, name: &str, line: &Value) -> Result<Call, LineFault>
    ensures read { Reads result (row.copy_call name.now (view line.now)) }
    ensures formed { IfOk result IsFormed }
{
    match name {
        "snapshotVirtualVolume" => snapshot_virtual_volume(line),
        "fastCloneVirtualVolume" => fast_clone_virtual_volume(line),
        "revertVirtualVolume" => revert_virtual_volume(line),
        "cloneVirtualVolume" => clone_virtual_volume(line),
        "copyDiffsToVirtualVolume" => copy_diffs_to_virtual_volume(line),
        "turn" => turn(line),
        "getTaskUpdate" => get_task_update(line),
        "cancelTask" => cancel_task(line),
        _ => host_call(alloc, name, line),
    }
}

fn snapshot_virtual_volume(line: &Value) -> Result<Call, LineFault>
    ensures read { result ≡ row.snapshot_virtual_volume (view line.now) }
    ensures formed { IfOk result IsFormed }
{
    let vvol = volume(line, Field::Vvol)?;
    Ok(Call::SnapshotVirtualVolume { vvol })
}

fn fast_clone_virtual_volume(line: &Value) -> Result<Call, LineFault>
    ensures read { result ≡ row.fast_clone_virtual_volume (view line.now) }
    ensures formed { IfOk result IsFormed }
{
    let vvol = volume(line, Field::Vvol)?;
    Ok(Call::FastCloneVirtualVolume { vvol })
}

fn revert_virtual_volume(line: &Value) -> Result<Call, LineFault>
    ensures read { result ≡ row.revert_virtual_volume (view line.now) }
    ensures formed { IfOk result IsFormed }
{
    let vvol = volume(line, Field::Vvol)?;
    let snapshot = volume(line, Field::Snapshot)?;
    Ok(Call::RevertVirtualVolume { vvol, snapshot })
}

fn clone_virtual_volume(line: &Value) -> Result<Call, LineFault>
    ensures read { result ≡ row.clone_virtual_volume (view line.now) }
    ensures formed { IfOk result IsFormed }
{
    let vvol = volume(line, Field::Vvol)?;
    Ok(Call::CloneVirtualVolume { vvol })
}

fn copy_diffs_to_virtual_volume(line: &Value) -> Result<Call, LineFault>
    ensures read { result ≡ row.copy_diffs_to_virtual_volume (view line.now) }
    ensures formed { IfOk result IsFormed }
{
    let source = volume(line, Field::Source)?;
    let base = volume(line, Field::Base)?;
    let target = volume(line, Field::Target)?;
    Ok(Call::CopyDiffsToVirtualVolume {
        source,
        base,
        target,
    })
}

fn turn(line: &Value) -> Result<Call, LineFault>
    ensures read { result ≡ row.turn (view line.now) }
    ensures formed { IfOk result IsFormed }
{
    let task = task(line)?;
    Ok(Call::Turn { task })
}

fn get_task_update(line: &Value) -> Result<Call, LineFault>
    ensures read { result ≡ row.get_task_update (view line.now) }
    ensures formed { IfOk result IsFormed }
{
    let task = task(line)?;
    Ok(Call::GetTaskUpdate { task })
}

fn cancel_task(line: &Value) -> Result<Call, LineFault>
    ensures read { result ≡ row.cancel_task (view line.now) }
    ensures formed { IfOk result IsFormed }
{
    let task = task(line)?;
    Ok(Call::CancelTask { task })
}
