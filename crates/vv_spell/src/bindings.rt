//! The table of bindings.
ghost use Rattle.std.specs.Prelude.{◌≡◌, Some, slice_get};
ghost use Rattle.std.specs.List.{flat_map};
ghost use Rattle.vv_flat.specs.State.{Binding as SeenBinding};
ghost use Rattle.vv_record.specs.Spelling.{list_spelling};
ghost use Rattle.vv_area.specs.Spelling.{address_spelling, binding_spelling};
ghost use Rattle.vv_spell.specs.Window.{seen, behind};

use crate::window::Window;
use vv_bind::Binding;
use vv_tables::Tables;

/// How many bytes a binding is spelled in.
const BINDING_BYTES: u32 = 18;

#[tactic(auto, using(crate::proofs::WindowLemmas::put_two, crate::proofs::WindowLemmas::put_end))]
fn put_address(window: &mut Window, into: &mut [u8], binding: &Binding)
    ensures { seen window.new into.new ≡ behind (seen window.old into.old) (address_spelling binding.now.address) }
{
    window.put_number(into, 4, binding.host().0 as u64);
    window.put_number(into, 2, binding.endpoint().0 as u64);
    window.put_number(into, 2, binding.secondary().0 as u64);
}

#[tactic(auto, using(crate::proofs::WindowLemmas::put_two, crate::proofs::WindowLemmas::put_end))]
fn put_binding(window: &mut Window, into: &mut [u8], binding: &Binding)
    ensures { seen window.new into.new ≡ behind (seen window.old into.old) (binding_spelling binding.now) }
{
    put_address(window, into, binding);
    window.put_number(into, 8, binding.volume().0);
    window.put_number(into, 2, binding.count() as u64);
}

fn put_binding_at(window: &mut Window, into: &mut [u8], tables: &Tables, i: u32)
    ensures { (b : SeenBinding) → slice_get tables.now.durable.bindings i ≡ Some b → seen window.new into.new ≡ behind (seen window.old into.old) (binding_spelling b) }
{
    if let Some(binding) = tables.bindings().at(i) {
        put_binding(window, into, binding);
    }
}

fn put_each_binding(window: &mut Window, into: &mut [u8], tables: &Tables)
    ensures { seen window.new into.new ≡ behind (seen window.old into.old) (flat_map binding_spelling tables.now.durable.bindings) }
{
    let count = tables.binding_count();
    let first = window.pass_items(count, BINDING_BYTES);
    for i in first..count {
        if window.is_full(into) {
            return;
        }
        put_binding_at(window, into, tables, i);
    }
}

/// Puts the bindings.
#[tactic(auto, using(crate::proofs::WindowLemmas::put_two))]
pub(crate) fn put_bindings(window: &mut Window, into: &mut [u8], tables: &Tables)
    ensures { seen window.new into.new ≡ behind (seen window.old into.old) (list_spelling 2 binding_spelling tables.now.durable.bindings) }
{
    window.put_number(into, 2, tables.binding_count() as u64);
    put_each_binding(window, into, tables);
}
