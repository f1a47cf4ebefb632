//! Why room can't be reserved.

ghost use Rattle.std.specs.Prelude.{◌≡◌};
ghost use Rattle.version_arena.specs.Faults.{name_of, number_of};
ghost use Rattle.version_arena.specs.declared.fault.ReserveFault.TheVariants.{Memory};

use std::alloc::{AllocError, AllocFailed};
use std::fmt;
use thiserror::Error;

/// Why room for more records is refused.
#[derive(Clone, Copy, Debug, PartialEq, Eq, Error)]
pub enum ReserveFault {
    /// There would be more than 1,048,576 records.
    ArenaFull = 1,
    /// Memory ran out.
    Memory = 2,
}

impl ReserveFault {
    /// Its number, 1 or 2.
    pub fn number(self) -> u8
        ensures { result ≡ number_of self }
    {
        self as u8
    }

    /// The name that a refusal prints: `ArenaFull` or `Memory`.
    pub fn name(self) -> &'static str
        ensures { result.now ≡ name_of self }
    {
        match self {
            ReserveFault::ArenaFull => "ArenaFull",
            ReserveFault::Memory => "Memory",
        }
    }
}

impl fmt::Display for ReserveFault {
    ghost use Rattle.std.specs.Prelude.{Some};
    ghost use Rattle.version_arena.specs.Faults.{fault_text};

    ghost output = { λ fault. Some (fault_text fault) };

    /// The name and the number.
    #[tactic(auto, unfolding(crate::specs::Faults::fault_text))]
    fn fmt<W: fmt::Write>(&self, f: &mut fmt::Formatter<W>) -> fmt::Result {
        write!(f, "{} {}", self.name(), self.number())
    }
}

impl From<AllocError> for ReserveFault {
    ghost from_gives = { λ _ e. e ≡ Memory };

    fn from(_e: AllocError) -> ReserveFault {
        ReserveFault::Memory
    }
}

impl<T: Drop> From<AllocFailed<T>> for ReserveFault {
    ghost from_gives = { λ _ e. e ≡ Memory };

    fn from(_e: AllocFailed<T>) -> ReserveFault {
        ReserveFault::Memory
    }
}
