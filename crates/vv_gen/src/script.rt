//! A whole script.
ghost use Rattle.std.specs.Prelude.{◌≡◌, ◌≤◌, ◌++◌, OnOk, IfOk};
ghost use Rattle.vv_gen.specs.Script.{first_lines, create_text, bind_text, bind_host_text, bind_volume_text, lines_text, script};

use crate::line::{Line, push_decimal, push_name};
use crate::numbers::Numbers;
use std::alloc::{AllocError, Global};
use vv_units::NoMemory;

/// The script of a seed, with so many drawn lines behind the four that make and bind two volumes. One seed gives one
/// script.
pub fn generate(alloc: Global, seed: u64, lines: u32) -> Result<Vec<u8>, NoMemory>
    ensures { IfOk result (λ text. text.items ≡ script seed lines) }
{
    let mut text = Vec::new(alloc);
    if push_first(&mut text, alloc).is_err() {
        return Err(NoMemory);
    }
    match push_lines(&mut text, alloc, seed, lines) {
        Ok(()) => Ok(text),
        Err(_) => Err(NoMemory),
    }
}

/// Writes the four lines that make and bind the volumes.
fn push_first(text: &mut Vec<u8>, alloc: Global) -> Result<(), AllocError>
    ensures { OnOk result (text.new.items ≡ text.old.items ++ first_lines) }
{
    push_create(text)?;
    push_create(text)?;
    push_bind(text, alloc, 1)?;
    push_bind(text, alloc, 2)
}

fn push_create(text: &mut Vec<u8>) -> Result<(), AllocError>
    ensures { OnOk result (text.new.items ≡ text.old.items ++ create_text) }
{
    text.extend_from_slice(
        b"{\"call\":\"createVirtualVolume\",\"sizeInMB\":4,\"vvolType\":\"Data\"}\n",
    )
}

fn push_bind(text: &mut Vec<u8>, alloc: Global, volume: u64) -> Result<(), AllocError>
    requires { volume ≤ 3 }
    ensures { OnOk result (text.new.items ≡ text.old.items ++ bind_text volume) }
{
    push_host(text, alloc, volume)?;
    push_vvol(text, alloc, volume)
}

fn push_host(text: &mut Vec<u8>, alloc: Global, host: u64) -> Result<(), AllocError>
    ensures { OnOk result (text.new.items ≡ text.old.items ++ bind_host_text host) }
{
    text.extend_from_slice(b"{\"call\":\"bindVirtualVolume\",\"host\":")?;
    push_decimal(text, alloc, host)?;
    Ok(())
}

fn push_vvol(text: &mut Vec<u8>, alloc: Global, volume: u64) -> Result<(), AllocError>
    requires { volume ≤ 3 }
    ensures { OnOk result (text.new.items ≡ text.old.items ++ bind_volume_text volume) }
{
    text.extend_from_slice(b",\"vvol\":")?;
    push_name(text, alloc, volume)?;
    text.extend_from_slice(b"}\n")
}

/// Draws so many lines from a state on, and writes them.
fn push_lines(text: &mut Vec<u8>, alloc: Global, seed: u64, lines: u32) -> Result<(), AllocError>
    ensures { OnOk result (text.new.items ≡ text.old.items ++ lines_text lines seed) }
{
    let mut numbers = Numbers { state: seed };
    for _line in 0..lines {
        Line::draw(&mut numbers).push(alloc, text)?;
    }
    Ok(())
}
