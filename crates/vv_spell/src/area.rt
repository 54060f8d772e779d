//! The whole area, and a piece of it.
ghost use Rattle.std.specs.Prelude.{◌≡◌, ◌≤◌, ◌+◌, ◌<◌, ◌^◌, length, true};
ghost use Rattle.vv_area.specs.Spelling.{area_spelling, is_spellable};
ghost use Rattle.vv_area.specs.Lengths.{area_length};
ghost use Rattle.vv_area.specs.Pieces.{bytes_within};
ghost use Rattle.vv_spell.specs.Window.{seen, behind};

use crate::bindings::put_bindings;
use crate::containers::put_containers;
use crate::contexts::put_contexts;
use crate::runs::put_runs;
use crate::tasks::put_tasks;
use crate::volumes::put_volumes;
use crate::window::Window;
use vv_tables::Tables;

/// Says that the tables have a spelling whose length is a number of 64 bits. It does nothing.
pub(crate) fn has_length(tables: &Tables)
    ensures spellable { is_spellable 2 tables.now.durable ≡ true }
    ensures fits { area_length 2 tables.now.durable < 2 ^ 64 }
{
    let _well_formed = tables.lsn();
    let _sizes = tables.geometry();
}

/// Puts the whole area.
fn put_area(window: &mut Window, into: &mut [u8], tables: &Tables)
    requires fits { area_length 2 tables.now.durable < 2 ^ 64 }
    ensures { seen window.new into.new ≡ behind (seen window.old into.old) (area_spelling 2 tables.now.durable) }
{
    window.put_number(into, 8, tables.lsn());
    put_containers(window, into, tables);
    put_volumes(window, into, tables);
    put_contexts(window, into, tables);
    put_bindings(window, into, tables);
    put_tasks(window, into, tables);
    put_runs(window, into, tables);
}

/// The bytes of the area of an image in which these tables stand, from `at` on: as many as there is memory given for. What
/// is ahead of them is passed over by its length, item by item, and the entries, bindings and pieces ahead of them at once.
pub fn area_piece(tables: &Tables, at: u64, into: &mut [u8])
    requires { at + length into.old ≤ area_length 2 tables.now.durable }
    ensures { into.new ≡ bytes_within at (length into.old) (area_spelling 2 tables.now.durable) }
{
    has_length(tables);
    let mut window = Window::at(at);
    put_area(&mut window, into, tables);
}
