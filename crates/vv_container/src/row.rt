//! One row of the table.
ghost use Rattle.std.specs.Prelude.{◌≡◌, ◌+◌, nat_lt, None, Some, IsTrue, MatchResult};
ghost use Rattle.vv_container.specs.Table.{numbered, is_numbered, over_quota, has_forms};

use crate::container::{Container, OverQuota};
use std::marker::Model;
use vv_units::ContainerId;

/// A container with its number, and what it is charged for.
#[derive(Drop)]
pub(crate) struct Row {
    id: ContainerId,
    container: Container,
    charged: u64,
}

impl Model for Row {
    ghost use Rattle.vv_container.specs.Table.{ChargedContainer};

    ghost Value = { ChargedContainer };

    ghost view = { λ a. record { container = record { number = a.id.0; quota = a.container.quota; offers = a.container.offered }; charged = a.charged } };
}

impl Row {
    pub(crate) fn of(id: ContainerId, container: Container) -> Row
        ensures row { result ≡ record { container = numbered id.0 container; charged = 0 } }
        ensures forms { IsTrue (has_forms result) }
    {
        Row {
            id,
            container,
            charged: 0,
        }
    }

    pub(crate) fn id(&self) -> ContainerId
        ensures { result.0 ≡ self.now.container.number }
    {
        self.id
    }

    pub(crate) fn is_numbered(&self, id: ContainerId) -> bool
        ensures { result ≡ is_numbered id.0 self.now }
    {
        self.id.0 == id.0
    }

    pub(crate) fn container(&self) -> &Container
        ensures { numbered self.now.container.number result.now ≡ self.now.container }
    {
        &self.container
    }

    pub(crate) fn charged(&self) -> u64
        ensures { result ≡ self.now.charged }
    {
        self.charged
    }

    pub(crate) fn set_charge(&mut self, charge: u64)
        ensures { self.new ≡ record self.old { charged = charge } }
    {
        self.charged = charge;
    }

    /// Whether the quota is too small for so many chunks more.
    pub(crate) fn would_exceed(&self, asked: u64) -> Result<(), OverQuota>
        ensures { MatchResult result (λ _. over_quota self.now asked ≡ None) (λ over. over_quota self.now asked ≡ Some over) }
    {
        let quota = self.container.quota;
        let charged = self.charged;
        if exceeds(charged, asked, quota) {
            return Err(OverQuota {
                charged,
                asked,
                quota,
            });
        }
        Ok(())
    }
}

/// Whether two numbers are more than a third one together.
fn exceeds(charged: u64, asked: u64, quota: u64) -> bool
    ensures { result ≡ nat_lt quota (charged + asked) }
{
    quota < charged || quota - charged < asked
}
