//! Why a replay or a session is refused.

ghost use Rattle.std.specs.Prelude.{◌≡◌, ◌≤◌, length};
ghost use Rattle.debugger.specs.Faults.{name_of, number_of};

use byte_streams::WriteFault;
use std::fmt;
use thiserror::Error;

/// Why a replay or a move of it is refused.
#[derive(Clone, Copy, Debug, PartialEq, Eq, Error)]
pub enum ReplayFault {
    /// The block has no call of this number. Calls count from 0.
    NoSuchCall = 1,
    /// The call is at its last moment, or is over before the moment that `t` names.
    AtEnd = 2,
    /// The call is at its first moment, and `b` asks for one before it.
    AtStart = 3,
    /// Some of the bytes that `m` or `c` names are outside memory.
    BadRange = 4,
    /// Memory ran out.
    Memory = 5,
}

impl ReplayFault {
    /// The number in the refusal's line, 1 to 5.
    pub fn number(self) -> u8
        ensures { result ≡ number_of self }
    {
        self as u8
    }

    /// The name in the refusal's line.
    pub fn name(self) -> &'static str
        ensures text { result.now ≡ name_of self }
        ensures short { length result.now ≤ 16 }
    {
        match self {
            ReplayFault::NoSuchCall => "NoSuchCall",
            ReplayFault::AtEnd => "AtEnd",
            ReplayFault::AtStart => "AtStart",
            ReplayFault::BadRange => "BadRange",
            ReplayFault::Memory => "Memory",
        }
    }
}

impl fmt::Display for ReplayFault {
    ghost use Rattle.std.specs.Prelude.{Some};
    ghost use Rattle.debugger.specs.Faults.{fault_text};

    ghost output = { λ fault. Some (fault_text fault) };

    /// The name and the number.
    #[tactic(auto, unfolding(crate::specs::Faults::fault_text))]
    fn fmt<W: fmt::Write>(&self, f: &mut fmt::Formatter<W>) -> fmt::Result {
        write!(f, "{} {}", self.name(), self.number())
    }
}

/// Why a session of `debug` is refused.
#[derive(Clone, Copy, Debug, PartialEq, Eq)]
pub enum DebugFault {
    /// A read failed.
    Unreadable,
    /// A write failed.
    Output(WriteFault),
    /// Memory ran out.
    Memory,
}
