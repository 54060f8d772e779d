//! Lines of JSON, one call a line.
ghost use Rattle.std.specs.Prelude.{◌≡◌, IfOk};
ghost use Rattle.serde_json.specs.View.{view};
ghost use Rattle.vv_calls.specs.Calls.{call_of};
ghost use Rattle.vv_calls.specs.Lines.{line_reading};
ghost use Rattle.vv_calls.specs.Formed.{IsFormed};
ghost use Rattle.vv_calls.specs.Steps.{Reads, seen};
ghost use Rattle.vv_calls.specs.Fields as field;

use crate::call::{Call, LineFault};
use crate::fields::present;
use crate::volumes::volume_call;
use serde_json::Value;
use std::alloc::Global;
use vv_units::Field;

/// The most bytes of a line.
pub const LINE_LIMIT: usize = 4_194_304;

/// The call that a line asks for, or why it asks for none. `NoMemory` may come of any line.
pub fn read_line(alloc: Global, line: &[u8]) -> Result<Call, LineFault>
    ensures reading { Reads result (line_reading line.now) }
    ensures formed { IfOk result IsFormed }
{
    if line.len() > LINE_LIMIT {
        return Err(LineFault::LineTooLong);
    }
    let Ok(text) = str::from_utf8(line) else {
        return Err(LineFault::NotJson);
    };
    match Value::from_str(alloc, text) {
        Ok(value) => call(alloc, &value),
        Err(e) if e.is_memory() => Err(LineFault::NoMemory),
        Err(_) => Err(LineFault::NotJson),
    }
}

fn call(alloc: Global, line: &Value) -> Result<Call, LineFault>
    ensures reading { Reads result (call_of (view line.now)) }
    ensures formed { IfOk result IsFormed }
{
    let name = call_name(line)?;
    volume_call(alloc, name, line)
}

fn call_name(line: &Value) -> Result<&str, LineFault>
    ensures { seen (λ name. name.now) result ≡ field.call_name (view line.now) }
{
    match present(line, Field::Call)?.as_str() {
        Some(name) => Ok(name),
        None => Err(LineFault::BadField { name: Field::Call }),
    }
}
