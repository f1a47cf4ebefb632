//! The gas that a call has left.

ghost use Rattle.std.specs.Prelude.{◌≡◌, ◌-◌, ℕ, nat_le};
ghost use Rattle.std.specs.Bool.{OnTrue, OnFalse};

use std::marker::Model;

/// The gas that a call has left, 0 to 2^32 - 1.
#[derive(Clone, Copy, Debug, PartialEq, Eq)]
pub struct Meter {
    rest: u32,
}

impl Model for Meter {
    ghost Value = { ℕ };

    ghost view = { λ meter. meter.rest };

    ghost inverse = { λ rest. record { rest = rest } };
}

impl Meter {
    /// A meter that has `gas` left.
    pub fn new(gas: u32) -> Self
        ensures { result ≡ gas }
    {
        Meter { rest: gas }
    }

    /// The gas that is left.
    pub fn left(&self) -> u32
        ensures { result ≡ self.now }
    {
        self.rest
    }

    /// Takes `amount` from the gas that is left, and answers true. If less than `amount` is left, it
    /// answers false and changes nothing.
    #[inline(always)]
    pub fn charge(&mut self, amount: u32) -> bool
        ensures answer { result ≡ nat_le amount self.old }
        ensures taken { OnTrue result (self.new ≡ self.old - amount) }
        ensures unchanged { OnFalse result (self.new ≡ self.old) }
    {
        if amount <= self.rest {
            self.rest -= amount;
            true
        } else {
            false
        }
    }

    /// Takes all that is left: a call that runs out of gas uses its whole limit.
    pub fn spend_all(&mut self)
        ensures { self.new ≡ 0 }
    {
        self.rest = 0;
    }
}
