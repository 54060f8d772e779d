//! Rows of entries that have a place: which of them don't agree is told by neighbours.
ghost use Rattle.std.specs.Prelude.{◌≡◌, IfOk};
ghost use Rattle.vv_rules.specs.Rows.{same_key, is_mixed_place, is_mixed_key, place_if, least_wrong, least_mixed};
ghost use Rattle.vv_rules.specs.Least.{sooner};

use std::alloc::AllocError;

/// An entry that has a place.
#[derive(Clone, Copy, Debug, PartialEq, Eq, PartialOrd, Ord)]
pub struct Row {
    pub index: u64,
    pub stamp: u64,
    pub place: u32,
}

/// The least place of the rows that don't agree with all: two have one place exactly where index and stamp are the same.
pub(crate) fn least_mixed(rows: Vec<Row>) -> Result<Option<u32>, AllocError>
    ensures { IfOk result (λ found. found ≡ least_mixed rows.items) }
{
    let mut sorted = rows;
    sorted.sort()?;
    let by_key = least_mixed_key(sorted.as_slice());
    sorted.sort_by_key(|row| row.place)?;
    let by_place = least_mixed_place(sorted.as_slice());
    Ok(sooner(by_place, by_key))
}

/// The lesser of two places that may be missing.
pub fn sooner(one: Option<u32>, other: Option<u32>) -> Option<u32>
    ensures { result ≡ sooner one other }
{
    match (one, other) {
        (Some(a), Some(b)) => Some(a.min(b)),
        (Some(a), None) => Some(a),
        (None, _) => other,
    }
}

/// The least place of a row whose neighbour behind it has the same place and another index or stamp.
fn least_mixed_place(rows: &[Row]) -> Option<u32>
    ensures { result ≡ least_wrong is_mixed_place rows.now }
{
    let mut least = None;
    for i in 1..rows.len() {
        least = sooner(least, mixed_place(&rows[i - 1], &rows[i]));
    }
    least
}

/// The least place of a row whose neighbour behind it has the same index and stamp and another place.
fn least_mixed_key(rows: &[Row]) -> Option<u32>
    ensures { result ≡ least_wrong is_mixed_key rows.now }
{
    let mut least = None;
    for i in 1..rows.len() {
        least = sooner(least, mixed_key(&rows[i - 1], &rows[i]));
    }
    least
}

fn mixed_place(row: &Row, other: &Row) -> Option<u32>
    ensures { result ≡ place_if (is_mixed_place row.now other.now) row.now }
{
    if row.place == other.place && !has_key_of(row, other) {
        Some(row.place)
    } else {
        None
    }
}

fn mixed_key(row: &Row, other: &Row) -> Option<u32>
    ensures { result ≡ place_if (is_mixed_key row.now other.now) row.now }
{
    if has_key_of(row, other) && row.place != other.place {
        Some(row.place)
    } else {
        None
    }
}

/// Whether index and stamp are the same.
fn has_key_of(row: &Row, other: &Row) -> bool
    ensures { result ≡ same_key row.now other.now }
{
    row.index == other.index && row.stamp == other.stamp
}
