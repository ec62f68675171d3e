//! A sum that goes up and down.
ghost use Rattle.std.specs.Prelude.{◌≡◌, ◌<◌, ◌≤◌, ◌+◌, ◌^◌};
ghost use Rattle.ac_table.specs.Sums.{top};

use std::marker::Model;

/// A sum of numbers of 64 bits, fewer than 2^64 of them, so that it is exact.
#[derive(Drop)]
pub struct Sum {
    sum: u128,
}

impl Model for Sum {
    ghost use Rattle.std.specs.Prelude.{ℕ};

    ghost Value = { ℕ };

    ghost view = { λ s. s.sum };
}

impl Sum {
    /// The sum of no numbers.
    pub fn none() -> Sum
        ensures { result ≡ 0 }
    {
        Sum { sum: 0 }
    }

    /// One number more.
    pub fn add(&mut self, number: u64)
        requires { self.old + number < 2 ^ 128 }
        ensures { self.new ≡ self.old + number }
    {
        self.sum += u128::from(number);
    }

    /// One number less.
    pub fn take_off(&mut self, number: u64)
        requires { number ≤ self.old }
        ensures { self.new + number ≡ self.old }
    {
        self.sum -= u128::from(number);
    }

    /// The sum, which ends at the greatest u64.
    pub fn told(&self) -> u64
        ensures { result ≡ top self.now }
    {
        if self.sum < u128::from(u64::MAX) {
            self.sum as u64
        } else {
            u64::MAX
        }
    }
}
