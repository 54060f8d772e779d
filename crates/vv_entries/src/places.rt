//! What entries do to the counts of their places.
ghost use Rattle.std.specs.Prelude.{ℕ, ◌≡◌, ◌+◌, ◌-◌, ◌^◌, ◌<◌, ◌≤◌, [], ◌∷◌, length};
ghost use Rattle.vv_pool.specs.Pool.{count_of};
ghost use Rattle.vv_entries.specs.Entries.{named};
ghost use Rattle.vv_entries.specs.Changes.{Raises, Lowers, AreCounted};

use crate::entry::Entry;
use std::sync::ledger::Ledger;
use vv_map::EndedPages;
use vv_pool::{Pool, Steps};

/// An entry more names its place, if it has one.
pub(crate) fn raise_entry<L: Ledger>(pool: &mut Pool, entry: Entry, steps: &mut Steps<L>)
    requires counted { AreCounted pool.old (entry ∷ []) }
    requires small { (p : ℕ) → count_of pool.old p < 2 ^ 32 - 1 }
    ensures raised { Raises pool.old pool.new (entry ∷ []) }
    ensures steps { steps.new ≤ steps.old + 1 }
    ensures rise { steps.old ≤ steps.new }
{
    match entry.place {
        Some(place) => pool.raise(place, steps),
        None => {}
    }
}

/// Each entry of a page that was copied names its place once more.
pub(crate) fn raise_page<L: Ledger>(pool: &mut Pool, page: &[Entry], steps: &mut Steps<L>)
    requires counted { AreCounted pool.old page.now }
    requires small { (p : ℕ) → count_of pool.old p + length page.now < 2 ^ 32 - 1 }
    ensures raised { Raises pool.old pool.new page.now }
    ensures steps { steps.new ≤ steps.old + length page.now }
    ensures rise { steps.old ≤ steps.new }
{
    for entry in page {
        raise_entry(pool, *entry, steps);
    }
}

/// An entry less names its place, if it has one.
pub(crate) fn lower_entry(pool: &mut Pool, entry: Entry)
    requires { AreCounted pool.old (entry ∷ []) }
    ensures { Lowers pool.old pool.new (entry ∷ []) }
{
    match entry.place {
        Some(place) => pool.lower(place),
        None => {}
    }
}

/// The entries of pages that ended name no place any more.
pub(crate) fn lower_ended(pool: &mut Pool, ended: EndedPages<Entry>)
    requires { (p : ℕ) → named p ended ≤ count_of pool.old p }
    ensures { Lowers pool.old pool.new ended }
{
    let mut ended = ended;
    while let Some(entry) = ended.next() {
        lower_entry(pool, entry);
    }
    ended.close();
}
