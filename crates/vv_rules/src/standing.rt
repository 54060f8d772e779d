//! An entry of tables where it stands.
ghost use Rattle.std.specs.Prelude.{◌≡◌, ◌==◌, not};
ghost use Rattle.vv_rules.specs.Pairs.{pair_of};
ghost use Rattle.vv_rules.specs.Rows.{row_of};
ghost use Rattle.vv_rules.specs.Least.{place_of};

use crate::pairs::Pair;
use crate::rows::Row;
use std::marker::Model;

/// An entry in a list at its index: in the target of a running clone, or in another list.
#[derive(Debug, Drop)]
pub struct StandingEntry {
    pub target_of: Option<u64>,
    pub index: u64,
    pub place: Option<u32>,
    pub stamp: u64,
}

impl Model for StandingEntry {
    ghost use Rattle.vv_flat.specs.Sharing.{Standing};

    ghost Value = { Standing };

    ghost view = { λ a. record { target_of = a.target_of; piece = record { index = a.index; chunk = record { place = a.place; stamp = a.stamp } } } };
}

impl StandingEntry {
    pub(crate) fn is_allocated(&self) -> bool
        ensures { result ≡ not (self.now.piece.chunk.stamp == 0) }
    {
        self.stamp != 0
    }

    pub(crate) fn pair(&self) -> Pair
        ensures { result ≡ pair_of self.now }
    {
        Pair {
            first: self.index,
            second: self.stamp,
        }
    }

    /// Its row, if it has a place.
    pub(crate) fn row(&self) -> Option<Row>
        ensures { result ≡ row_of self.now }
    {
        match self.place {
            Some(place) => Some(Row {
                index: self.index,
                stamp: self.stamp,
                place,
            }),
            None => None,
        }
    }
}
