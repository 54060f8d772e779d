//! The table.
ghost use Rattle.std.specs.Prelude.{◌≡◌, ◌<◌, ◌≤◌, ◌++◌, ◌∷◌, [], length, slice_get, IsTrue, IsSome, None, Some, IfOk, IfErr, MatchResult, option_map, option_copied};
ghost use Rattle.std.specs.List.{list_all};
ghost use Rattle.vv_flat.specs.Lists.{all_rising};
ghost use Rattle.vv_container.specs.Table.{numbered, numbers, is_above_all, row_of, container_of, charge_of, with_charge, refusal, full, has_forms};

use crate::container::{Container, OverQuota};
use crate::row::Row;
use crate::rows;
use std::alloc::Global;
use std::marker::Model;
use vv_units::{ContainerId, Field, NoMemory, TooMany};

/// Containers in rising order of their numbers, at most 32, each with what it is charged for.
#[derive(Drop)]
pub struct ContainerTable {
    rows: Vec<Row>,
}

impl Model for ContainerTable {
    ghost use Rattle.std.specs.Prelude.{List, vec_capacity};
    ghost use Rattle.vv_container.specs.Table.{ChargedContainer, IsKept};

    ghost Value = { List ChargedContainer };

    ghost view = { λ a. a.rows.items };

    ghost invariant = { λ a. IsKept a.rows.items (vec_capacity a.rows) };
}

impl ContainerTable {
    /// A table with no container, with all its memory.
    pub fn new(alloc: Global) -> Result<ContainerTable, NoMemory>
        ensures { IfOk result (λ table. table ≡ []) }
    {
        match Vec::with_capacity(alloc, 32) {
            Ok(rows) => Ok(ContainerTable { rows }),
            Err(_) => Err(NoMemory),
        }
    }

    /// Whether one more container has room. It has none where 32 stand.
    pub fn may_add(&self) -> Result<(), TooMany>
        ensures room { MatchResult result (λ _. length self.now < 32) (λ _. length self.now ≡ 32) }
        ensures fault { IfErr result (λ fault. fault ≡ full) }
    {
        if rows::is_full(&self.rows) {
            return Err(TooMany {
                name: Field::Container,
                limit: 32,
            });
        }
        Ok(())
    }

    /// Adds a container that is charged for nothing, by a number above all that stand.
    pub fn add(&mut self, id: ContainerId, container: Container)
        requires room { length self.old < 32 }
        requires above { IsTrue (is_above_all id.0 self.old) }
        ensures { self.new ≡ self.old ++ record { container = numbered id.0 container; charged = 0 } ∷ [] }
    {
        rows::push(&mut self.rows, Row::of(id, container));
    }

    /// The container of a number.
    pub fn get(&self, id: ContainerId) -> Option<&Container>
        ensures { option_map (numbered id.0) (option_copied result) ≡ container_of self.now id.0 }
    {
        match rows::find(&self.rows, id) {
            Some(row) => Some(row.container()),
            None => None,
        }
    }

    /// The number of the container at a place, in rising order. There is none past the last.
    pub fn at(&self, i: u32) -> Option<ContainerId>
        ensures item { option_map (λ id. id.0) result ≡ slice_get (numbers self.now) i }
        ensures rising { IsTrue (all_rising (numbers self.now)) }
        ensures few { length self.now ≤ 32 }
        ensures forms { IsTrue (list_all has_forms self.now) }
    {
        match self.rows.get(i as usize) {
            Some(row) => Some(row.id()),
            None => None,
        }
    }

    /// Charges a container that stands for so many chunks.
    pub fn set_charge(&mut self, id: ContainerId, charge: u64)
        requires { IsSome (row_of self.old id.0) }
        ensures { self.new ≡ with_charge self.old id.0 charge }
    {
        rows::set_charge(&mut self.rows, id, charge);
    }

    /// How many chunks a container that stands is charged for.
    pub fn charge(&self, id: ContainerId) -> u64
        requires { IsSome (row_of self.now id.0) }
        ensures { charge_of self.now id.0 ≡ Some result }
    {
        rows::standing(&self.rows, id).charged()
    }

    /// Whether the quota of a container that stands is too small for as many chunks more as are asked for.
    pub fn would_exceed(&self, id: ContainerId, asked: u64) -> Result<(), OverQuota>
        requires { IsSome (row_of self.now id.0) }
        ensures { MatchResult result (λ _. refusal self.now id.0 asked ≡ None) (λ over. refusal self.now id.0 asked ≡ Some over) }
    {
        rows::standing(&self.rows, id).would_exceed(asked)
    }
}
