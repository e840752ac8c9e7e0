//! Exact sums.
ghost use Rattle.std.specs.Prelude.{◌≡◌, pos, ◌+ℤ◌, ◌-ℤ◌, FitsSigned, SomeIff};
ghost use Rattle.std.specs.Int.{w128};
ghost use Rattle.dw_value.specs.Sums.{IsSum};

use std::marker::Model;

/// The exact sum of numbers of 128 bits, up to 2^64 of them: it has 192 bits, so it may pass 128 bits and come back.
/// Contracts see it as an integer. It takes no memory.
#[derive(Debug, Drop)]
pub struct Sum {
    high: i64,
    low: u128,
}

impl Model for Sum {
    ghost use Rattle.std.specs.Prelude.{ℤ, pos, ◌+ℤ◌, ◌*ℤ◌, ◌^◌, ◌<◌};
    ghost use Rattle.std.specs.Coded.{coded_ℤ};

    ghost Value = { ℤ };

    ghost coded = { coded_ℤ };

    ghost view = { λ sum. (sum.high *ℤ pos (2 ^ 128)) +ℤ pos sum.low };

    ghost invariant = { λ sum. sum.low < 2 ^ 128 };
}

impl Sum {
    /// The sum of no numbers.
    pub fn new() -> Sum
        ensures { result ≡ pos 0 }
    {
        Sum { high: 0, low: 0 }
    }

    /// Adds a number. The new sum must be one of 192 bits, as it is while at most 2^64 numbers are added.
    pub fn add(&mut self, number: i128)
        requires { IsSum (self.old +ℤ number) }
        ensures { self.new ≡ self.old +ℤ number }
    {
        let size = number.unsigned_abs();
        if number < 0 {
            self.take(size);
        } else {
            self.put(size);
        }
    }

    /// Adds a size.
    fn put(&mut self, size: u128)
        requires { IsSum (self.old +ℤ pos size) }
        ensures { self.new ≡ self.old +ℤ pos size }
    {
        match self.low.checked_add(size) {
            Some(low) => self.low = low,
            None => {
                self.low -= u128::MAX - size + 1;
                self.high += 1;
            }
        }
    }

    /// Takes a size off.
    fn take(&mut self, size: u128)
        requires { IsSum (self.old -ℤ pos size) }
        ensures { self.new ≡ self.old -ℤ pos size }
    {
        match self.low.checked_sub(size) {
            Some(low) => self.low = low,
            None => {
                self.low += u128::MAX - size + 1;
                self.high -= 1;
            }
        }
    }

    /// The sum as a number of 128 bits. `None` comes exactly where it doesn't fit.
    pub fn number(&self) -> Option<i128>
        ensures { SomeIff result (FitsSigned w128 self.now) self.now }
    {
        let (high, low) = (self.high, self.low);
        if high == 0 {
            i128::try_from(low).ok()
        } else if high == -1 {
            let below = i128::try_from(u128::MAX - low).ok()?;
            Some(-1 - below)
        } else {
            None
        }
    }
}
