//! Which places an event may take.
ghost use Rattle.std.specs.Prelude.{◌≡◌, map, IfOk};
ghost use Rattle.std.specs.List.{list_all};
ghost use Rattle.vv_units.specs.declared.numbers.Place.{Place as place};
ghost use Rattle.vv_flat.specs.Lists.{all_different};
ghost use Rattle.vv_flat.specs.Replay.{is_fresh};

use std::alloc::Global;
use vv_rules::Numbers;
use vv_tables::Tables;
use vv_units::{NoMemory, Place};

/// Whether a place is one of the pool that no entry names.
pub(crate) fn is_fresh(tables: &Tables, place: Place) -> bool
    ensures { result ≡ is_fresh tables.now.durable place.0 }
{
    match tables.lowest_fresh(place.0) {
        Some(found) => found.0 == place.0,
        None => false,
    }
}

/// Whether all of these places are.
pub(crate) fn are_fresh(tables: &Tables, places: &[Place]) -> bool
    ensures { result ≡ list_all (is_fresh tables.now.durable) (map (λ (p : place). p.0) places.now) }
{
    for place in places {
        if !is_fresh(tables, *place) {
            return false;
        }
    }
    true
}

/// The numbers of places.
fn numbers_of(alloc: Global, places: &[Place]) -> Result<Vec<u64>, NoMemory>
    ensures { IfOk result (λ numbers. numbers.items ≡ map (λ (p : place). p.0) places.now) }
{
    let mut numbers = Vec::new(alloc);
    for place in places {
        numbers.push(u64::from(place.0)).map_err(|_| NoMemory)?;
    }
    Ok(numbers)
}

/// Whether no place comes twice.
pub(crate) fn are_different(alloc: Global, places: &[Place]) -> Result<bool, NoMemory>
    ensures { IfOk result (λ different. different ≡ all_different (map (λ (p : place). p.0) places.now)) }
{
    let numbers = numbers_of(alloc, places)?;
    match Numbers::of(numbers) {
        Ok(sorted) => Ok(sorted.are_different()),
        Err(_) => Err(NoMemory),
    }
}
