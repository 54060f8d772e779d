//! The kinds of capability, and the test of each.
ghost use Rattle.std.specs.Prelude.{◌≡◌, ◌==◌, ◌<◌};
ghost use Rattle.std.specs.Int.{bit_at};
ghost use Rattle.vv_flat.specs.Profiles.{AtLeast, AtMost, Equal, OneOf, admits};

/// How what is offered is compared with what is asked for.
#[derive(Clone, Copy, Debug, PartialEq, Eq)]
pub enum Kind {
    /// At least as much is offered.
    AtLeast,
    /// At most as much is offered.
    AtMost,
    /// The same is offered.
    Equal,
    /// The bits of the offer are the numbers that may be asked for.
    OneOf,
}

/// The test of `Kind::AtLeast`.
pub fn is_at_least(offered: u64, asked: u64) -> bool
    ensures { result ≡ admits AtLeast offered asked }
{
    offered >= asked
}

/// The test of `Kind::AtMost`.
pub fn is_at_most(offered: u64, asked: u64) -> bool
    ensures { result ≡ admits AtMost offered asked }
{
    offered <= asked
}

/// The test of `Kind::Equal`.
pub fn is_equal(offered: u64, asked: u64) -> bool
    ensures { result ≡ admits Equal offered asked }
{
    offered == asked
}

/// The test of `Kind::OneOf`.
pub fn is_one_of(offered: u64, asked: u64) -> bool
    ensures { result ≡ admits OneOf offered asked }
{
    asked < 64 && has_bit(offered, asked)
}

/// Whether a bit is set.
fn has_bit(number: u64, bit: u64) -> bool
    requires { bit < 64 }
    ensures { result ≡ (bit_at number bit == 1) }
{
    number >> bit & 1 == 1
}
