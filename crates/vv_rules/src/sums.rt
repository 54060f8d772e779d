//! Sums that are held against a limit.
ghost use Rattle.std.specs.Prelude.{◌≡◌, sum, nat_le};

/// Whether the sum of these numbers is at most so much.
pub fn is_sum_within(numbers: &[u64], limit: u64) -> bool
    ensures { result ≡ nat_le (sum numbers.now) limit }
{
    let mut left = limit;
    for number in numbers {
        if *number > left {
            return false;
        }
        left -= *number;
    }
    true
}
