//! A capability that the array knows, with its test.
ghost use Rattle.std.specs.Prelude.{◌≡◌};
ghost use Rattle.vv_flat.specs.Profiles.{admits};
ghost use Rattle.vv_profile.specs.Kinds.{kind_of, TakesAll, AnswersAs};

use crate::Kind;
use vv_units::Name;

/// A capability. Its test is called with what is offered and then what is asked for, and answers as the kind says.
///
/// Make the box of the test in the function that makes the list, of a closure that calls `is_at_least`, `is_at_most`,
/// `is_equal` or `is_one_of`, or of any closure that answers the same. A function that hands out a box that it made
/// isn't admitted, so there is no constructor for each kind.
#[derive(Drop)]
pub struct Capability {
    pub name: Name,
    pub kind: Kind,
    pub test: Box<dyn Fn(u64, u64) -> bool>,
    pub ghost takes_all: { TakesAll (pre test) },
    pub ghost answers: { AnswersAs kind (post test) },
}

impl Capability {
    /// What the test says.
    pub(crate) fn admits(&self, offered: u64, asked: u64) -> bool
        ensures { result ≡ admits (kind_of self.now.kind) offered asked }
    {
        (self.test)(offered, asked)
    }
}
