//! Why a write is refused.

ghost use Rattle.std.specs.Prelude.{◌≡◌, ◌≤◌, length};
ghost use Rattle.byte_streams.specs.Faults.{name_of, number_of};

use std::fmt;
use thiserror::Error;

/// Why an output is refused.
#[derive(Clone, Copy, Debug, PartialEq, Eq, Error)]
pub enum WriteFault {
    /// A write to the output failed, such as one to a closed pipe or to a full disk.
    Io = 1,
    /// A write to the output took no byte.
    WroteNothing = 2,
    /// Memory ran out for the text, and nothing was written.
    Memory = 3,
}

impl WriteFault {
    /// The number in the refusal's line, 1 to 3.
    pub fn number(self) -> u8
        ensures { result ≡ number_of self }
    {
        self as u8
    }

    /// The name in the refusal's line.
    pub fn name(self) -> &'static str
        ensures text { result.now ≡ name_of self }
        ensures short { length result.now ≤ 16 }
    {
        match self {
            WriteFault::Io => "Io",
            WriteFault::WroteNothing => "WroteNothing",
            WriteFault::Memory => "Memory",
        }
    }
}

impl fmt::Display for WriteFault {
    ghost use Rattle.std.specs.Prelude.{Some};
    ghost use Rattle.byte_streams.specs.Faults.{fault_text};

    ghost output = { λ fault. Some (fault_text fault) };

    /// The name and the number.
    #[tactic(auto, unfolding(crate::specs::Faults::fault_text))]
    fn fmt<W: fmt::Write>(&self, f: &mut fmt::Formatter<W>) -> fmt::Result {
        write!(f, "{} {}", self.name(), self.number())
    }
}
