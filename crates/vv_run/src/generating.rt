//! Generated scripts.
ghost use Rattle.std.specs.Prelude.{◌≡◌, ◌≢◌, ◌≤◌, ◌++◌, IfOk};
ghost use Rattle.vv_units.specs.Causes.{Rose};
ghost use Rattle.vv_gen.specs.Script.{script};
ghost use Rattle.vv_run.specs.Loading.{query_line, GenerateEnds};

use crate::Status;
use crate::words::Recipe;
use crate::writing::write_all;
use std::alloc::Global;
use vv_gen::generate;
use vv_io::Sink;
use vv_units::{Failed, NoMemory};

/// Writes a generated script. Its memory is taken before anything is written.
pub(crate) fn write_script<K: Sink>(alloc: Global, recipe: Recipe, sink: &mut K) -> Status
    ensures ends { GenerateEnds result (K.taken sink.old) (K.taken sink.new) (script recipe.seed recipe.lines) }
    ensures sink_fault { result ≡ Status.SinkFault → Rose (K.faults sink.old) (K.faults sink.new) }
    ensures no_sink_fault { result ≢ Status.SinkFault → K.faults sink.new ≡ K.faults sink.old }
    ensures sink_later { K.faults sink.old ≤ K.faults sink.new }
    ensures unwritten { result ≡ Status.NoMemory → sink.new ≡ sink.old }
{
    let Ok(text) = generate(alloc, recipe.seed, recipe.lines) else {
        return Status::NoMemory;
    };
    match write_all(sink, &text) {
        Ok(()) => Status::Done,
        Err(Failed) => Status::SinkFault,
    }
}

/// A generated script, with a last line behind it that asks for the pool's figures.
pub(crate) fn script_to_load(alloc: Global, recipe: Recipe) -> Result<Vec<u8>, NoMemory>
    ensures { IfOk result (λ text. text.items ≡ script recipe.seed recipe.lines ++ query_line) }
{
    let mut text = generate(alloc, recipe.seed, recipe.lines)?;
    match text.extend_from_slice(b"{\"call\":\"queryPool\"}\n") {
        Ok(()) => Ok(text),
        Err(_) => Err(NoMemory),
    }
}
