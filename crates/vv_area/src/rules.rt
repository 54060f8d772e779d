//! The nine rules that tables keep.
ghost use Rattle.vv_flat.specs.Rules.{first_fault};
ghost use Rattle.vv_area.specs.Area.{tables_of};
ghost use Rattle.vv_area.specs.Ruled.{Judges, Expects, ExpectsNone};

mod bindings;
mod clones;
mod copies;
mod items;
mod limits;
mod names;
mod numbers;
mod sharing;
mod sizes;
mod space;
mod standings;

use crate::fault::AreaFault;
use crate::tables::RawTables;
use bindings::bindings_hold;
use clones::clones_hold;
use copies::copies_hold;
use limits::limits_hold;
use names::names_hold;
use numbers::numbers_hold;
use sharing::sharing_fault;
use sizes::sizes_hold;
use space::space_holds;
use standings::standings;
use std::alloc::Global;

impl RawTables {
    /// Whether the tables keep the nine rules. Where they don't, the fault tells the first that fails, with what was
    /// found.
    pub fn rules(&self, alloc: Global) -> Result<(), AreaFault>
        ensures { Judges result (first_fault (tables_of self.now)) }
    {
        expect(1, numbers_hold(alloc, self)?)?;
        expect(2, names_hold(alloc, self)?)?;
        expect(3, limits_hold(alloc, self)?)?;
        expect(4, sizes_hold(self))?;
        let entries = standings(alloc, self)?;
        expect(5, space_holds(alloc, self, &entries)?)?;
        expect_none(sharing_fault(alloc, self, &entries)?)?;
        expect(7, bindings_hold(alloc, self)?)?;
        expect(8, clones_hold(alloc, self)?)?;
        expect(9, copies_hold(alloc, self)?)
    }
}

/// A fault of a rule where it doesn't hold.
fn expect(rule: u64, holds: bool) -> Result<(), AreaFault>
    ensures { Expects rule holds result }
{
    if holds {
        Ok(())
    } else {
        Err(AreaFault::Rule { rule, found: 0 })
    }
}

/// A fault of rule 6 where a place was found.
fn expect_none(found: Option<u32>) -> Result<(), AreaFault>
    ensures { ExpectsNone found result }
{
    match found {
        None => Ok(()),
        Some(place) => Err(AreaFault::Rule {
            rule: 6,
            found: u64::from(place),
        }),
    }
}
