//! Reading the next line of a script.
ghost use Rattle.std.specs.Prelude.{◌≤◌};
ghost use Rattle.vv_units.specs.Causes.{HasCause};
ghost use Rattle.vv_io.specs.Reading.{script_limit};
ghost use Rattle.vv_run.specs.Reading.{NextIs};

use vv_io::{LineReader, Next, Source};
use vv_units::Failed;

/// Goes to the next line of a script.
pub fn next_line<S: Source>(lines: &mut LineReader, source: &mut S) -> Result<Next, Failed>
    requires { lines.old.taken ≤ script_limit }
    ensures answer { NextIs result lines.old lines.new (S.left source.old) (S.left source.new) }
    ensures cause { HasCause (S.faults source.old) (S.faults source.new) result }
{
    lines.next(source)
}
