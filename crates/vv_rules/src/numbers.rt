//! Numbers in order, by which a number is found and one that comes twice is told.
ghost use Rattle.std.specs.Prelude.{◌≡◌, ◌==◌, IfOk};
ghost use Rattle.std.specs.List.{list_any};
ghost use Rattle.std.specs.List.Sorted.{IsPermutation};
ghost use Rattle.vv_flat.specs.Lists.{all_different, all_rising};

use std::alloc::AllocError;
use std::marker::Model;

/// Numbers that don't fall. Contracts see the list of them.
#[derive(Debug, Drop)]
pub struct Numbers {
    sorted: Vec<u64>,
}

impl Model for Numbers {
    ghost use Rattle.std.specs.Prelude.{ℕ, List};
    ghost use Rattle.std.specs.List.Sorted.{IsNonDecreasing};

    ghost Value = { List ℕ };

    ghost view = { λ a. a.sorted.items };

    ghost invariant = { λ a. IsNonDecreasing a.sorted.items };
}

impl Numbers {
    /// These numbers, in order.
    pub fn of(numbers: Vec<u64>) -> Result<Numbers, AllocError>
        ensures { IfOk result (λ sorted. IsPermutation numbers.items sorted) }
    {
        let mut sorted = numbers;
        sorted.sort()?;
        Ok(Numbers { sorted })
    }

    /// Whether a number is among them.
    pub fn has(&self, number: u64) -> bool
        ensures { result ≡ list_any (λ n. n == number) self.now }
    {
        self.sorted.binary_search(&number).is_ok()
    }

    /// Whether no number comes twice.
    pub fn are_different(&self) -> bool
        ensures { result ≡ all_different self.now }
    {
        all_rising(self.sorted.as_slice())
    }
}

/// Whether each number is above the one before.
pub fn all_rising(numbers: &[u64]) -> bool
    ensures { result ≡ all_rising numbers.now }
{
    for i in 1..numbers.len() {
        if numbers[i] <= numbers[i - 1] {
            return false;
        }
    }
    true
}
