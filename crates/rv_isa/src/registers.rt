//! The register file.

ghost use Rattle.std.specs.Prelude.{◌≡◌, ℕ, List, length, slice_index};
ghost use Rattle.rv_isa.specs.Registers.{zeros, written};

use crate::Reg;
use std::marker::Model;

/// The registers x0 to x31. x0 is always 0.
#[derive(Clone, Copy, Debug, PartialEq, Eq)]
pub struct Regs {
    numbers: [u32; 32],
}

impl Model for Regs {
    ghost Value = { List ℕ };

    ghost view = { λ r. r.numbers };

    ghost invariant = { λ r. slice_index r.numbers 0 ≡ 0 };

    ghost inverse = { λ numbers. record { numbers = numbers } };
}

impl Regs {
    /// The register file with all registers 0.
    pub fn zero() -> Self
        ensures { result ≡ zeros }
    {
        Regs { numbers: [0; 32] }
    }

    /// What `register` holds.
    pub fn get(&self, register: Reg) -> u32
        ensures { result ≡ slice_index self.now register.number }
    {
        self.numbers[register.number as usize]
    }

    /// Writes `value` to `register`; a write to x0 is lost.
    pub fn set(&mut self, register: Reg, value: u32)
        ensures { self.new ≡ written self.old register.number value }
    {
        if register.number != 0 {
            let index = register.number as usize;
            self.numbers[index] = value;
        }
    }

    /// The 32 registers in order, x0 first.
    pub fn values(&self) -> &[u32; 32]
        ensures all { result.now ≡ self.now }
        ensures count { length self.now ≡ 32 }
        ensures zero { slice_index self.now 0 ≡ 0 }
    {
        &self.numbers
    }
}
