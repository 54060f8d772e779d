//! Contexts of hosts and bindings of volumes, copied from raw tables.
ghost use Rattle.std.specs.Prelude.{◌≡◌, ◌<◌, ◌≤◌, ◌==◌, ◌++◌, ◌∷◌, [], true, length, nat_lt, IsTrue, None};
ghost use Rattle.std.specs.List.{list_all, list_any};
ghost use Rattle.vv_flat.specs.Lists.{all_different};
ghost use Rattle.vv_flat.specs.State.{Context, Binding};
ghost use Rattle.vv_flat.specs.Bindings.{endpoints_of, binding_of, is_below};
ghost use Rattle.vv_flat.specs.WellFormed.{is_well_formed};
ghost use Rattle.vv_bind.specs.Table.{IsHost};
ghost use Rattle.vv_area.specs.Area.{tables_of};
ghost use Rattle.vv_restore.specs.Restoring.{containers_of, contexts_of, bindings_of};

use vv_area::{RawBinding, RawContext, RawTables};
use vv_tables::Restored;

/// Adds the contexts of well-formed tables, behind their containers.
pub(crate) fn add_contexts(restored: &mut Restored, raw: &RawTables)
    requires well { is_well_formed (tables_of raw.now) ≡ true }
    requires so_far { restored.old ≡ containers_of (tables_of raw.now) }
    ensures { restored.new ≡ contexts_of (tables_of raw.now) }
{
    for row in raw.contexts.items() {
        add_context(restored, row);
    }
}

/// Adds the context of a host, by a number above all others, while there is no binding.
fn add_context(restored: &mut Restored, row: &RawContext)
    requires host { IsHost row.now.host }
    requires above { IsTrue (list_all (λ (c : Context). nat_lt c.host row.now.host) restored.old.contexts) }
    requires few { length row.now.endpoints ≤ 8 }
    requires different { IsTrue (all_different row.now.endpoints) }
    requires not_zero { IsTrue (list_all (λ e. nat_lt 0 e) row.now.endpoints) }
    requires unbound { restored.old.bindings ≡ [] }
    ensures { restored.new ≡ record restored.old { contexts = restored.old.contexts ++ row.now ∷ [] } }
{
    restored.add_context(row.host, row.endpoints.items());
}

/// Adds the bindings of well-formed tables, behind their contexts.
pub(crate) fn add_bindings(restored: &mut Restored, raw: &RawTables)
    requires well { is_well_formed (tables_of raw.now) ≡ true }
    requires so_far { restored.old ≡ contexts_of (tables_of raw.now) }
    ensures { restored.new ≡ bindings_of (tables_of raw.now) }
{
    for row in raw.bindings.items() {
        add_binding(restored, row);
    }
}

/// Adds a binding, at an address above all others.
fn add_binding(restored: &mut Restored, row: &RawBinding)
    requires host { IsHost row.now.address.host }
    requires room { length restored.old.bindings < 1024 }
    requires above { IsTrue (list_all (λ (b : Binding). is_below b.address row.now.address) restored.old.bindings) }
    requires listed { IsTrue (list_any (λ e. e == row.now.address.endpoint) (endpoints_of restored.old.contexts row.now.address.host)) }
    requires secondary { 1 ≤ row.now.address.secondary }
    requires count { 1 ≤ row.now.count }
    requires unbound { binding_of restored.old.bindings row.now.address.host row.now.volume ≡ None }
    ensures { restored.new ≡ record restored.old { bindings = restored.old.bindings ++ row.now ∷ [] } }
{
    restored.add_binding(row.host, row.endpoint, row.secondary, row.volume, row.count);
}
