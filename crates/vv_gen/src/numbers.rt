//! Numbers that look like chance, and are the same for one seed.
ghost use Rattle.std.specs.Prelude.{◌≡◌, ◌<◌};
ghost use Rattle.vv_gen.specs.Numbers.{after, number_below};

/// The multiplier and the increment of Knuth's MMIX.
const MULTIPLIER: u128 = 6_364_136_223_846_793_005;

const INCREMENT: u128 = 1_442_695_040_888_963_407;

/// A linear congruential generator over 64 bits.
#[derive(Clone, Copy, Debug, PartialEq, Eq)]
pub(crate) struct Numbers {
    pub(crate) state: u64,
}

impl Numbers {
    /// The next number below `n`, from the upper half of the next state.
    pub(crate) fn below(&mut self, n: u64) -> u64
        requires { 0 < n }
        ensures state { self.new.state ≡ after self.old.state }
        ensures number { result ≡ number_below n (after self.old.state) }
        ensures small { result < n }
    {
        self.state = next_state(self.state);
        (self.state >> 33) % n
    }
}

fn next_state(state: u64) -> u64
    ensures { result ≡ after state }
{
    ((u128::from(state) * MULTIPLIER + INCREMENT) % (1 << 64)) as u64
}
