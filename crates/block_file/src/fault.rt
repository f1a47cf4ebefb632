//! Why a text is refused.

ghost use Rattle.std.specs.Prelude.{◌≡◌};
ghost use Rattle.block_file.specs.Faults.{name_of, number_of};
ghost use Rattle.block_file.specs.declared.fault.Cause.TheVariants.{Memory};

use std::alloc::{AllocError, AllocFailed};
use std::fmt;
use thiserror::Error;

/// What is wrong with a line. If a line has several faults, the one with the least number is reported.
#[derive(Clone, Copy, Debug, PartialEq, Eq, Error)]
pub enum Cause {
    /// Line 1 is neither `rvblock 1` nor `rvblock 2`. For `migrate`: line 1 is not `rvblock 1`.
    BadHeader = 1,
    /// Line 2 of format 2 is not `gas 1`, `gas 2` or `gas 3`; a line has an unknown kind, comes out of order, or has a
    /// wrong number of fields or an empty one; a PATH has a byte that is not 0x21 to 0x7e; or the last line has no LF.
    BadLine = 2,
    /// A number is not 1 to 10 digits without a leading zero, or the N of a `program` line is not the next one. In a
    /// schedule: a line is not such a number of at most 65,535, or the last line has no LF.
    BadNumber = 3,
    /// Bytes are neither `-` nor an even number of lower-case hex digits, or a key is not 64 such digits.
    BadHex = 4,
    /// The key of a `store` line is not above the key of the `store` line before it.
    KeyOrder = 5,
    /// The PROGRAM of a `call` line is not below the number of `program` lines.
    UnknownProgram = 6,
    /// There is a 65th program or a 1,025th call, a GAS is not 1 to 10,000,000, an INPUT has more than 4,096 bytes, or
    /// a value has more bytes than the rules allow: 64 under rules one, 256 under rules two and three.
    Limit = 7,
    /// Memory ran out. This is printed without a line.
    Memory = 8,
}

impl Cause {
    /// The number in the refusal's line, 1 to 8.
    pub fn number(self) -> u8
        ensures { result ≡ number_of self }
    {
        self as u8
    }

    /// The name in the refusal's line.
    pub fn name(self) -> &'static str
        ensures { result.now ≡ name_of self }
    {
        match self {
            Cause::BadHeader => "BadHeader",
            Cause::BadLine => "BadLine",
            Cause::BadNumber => "BadNumber",
            Cause::BadHex => "BadHex",
            Cause::KeyOrder => "KeyOrder",
            Cause::UnknownProgram => "UnknownProgram",
            Cause::Limit => "Limit",
            Cause::Memory => "Memory",
        }
    }
}

impl fmt::Display for Cause {
    ghost use Rattle.std.specs.Prelude.{Some};
    ghost use Rattle.block_file.specs.Faults.{cause_text};

    ghost output = { λ cause. Some (cause_text cause) };

    /// The name and the number.
    #[tactic(auto, unfolding(crate::specs::Faults::cause_text))]
    fn fmt<W: fmt::Write>(&self, f: &mut fmt::Formatter<W>) -> fmt::Result {
        write!(f, "{} {}", self.name(), self.number())
    }
}

impl From<AllocError> for Cause {
    ghost from_gives = { λ _ e. e ≡ Memory };

    fn from(_e: AllocError) -> Cause {
        Cause::Memory
    }
}

impl<T: Drop> From<AllocFailed<T>> for Cause {
    ghost from_gives = { λ _ e. e ≡ Memory };

    fn from(_e: AllocFailed<T>) -> Cause {
        Cause::Memory
    }
}

/// The first faulty line, counted from 1, and the least cause on it.
#[derive(Clone, Copy, Debug, PartialEq, Eq)]
pub struct BlockFault {
    /// The line's number, counted from 1. If memory ran out, no line before this one has a fault.
    pub line: usize,
    /// What is wrong with it.
    pub cause: Cause,
}

impl fmt::Display for BlockFault {
    ghost use Rattle.std.specs.Prelude.{Some};
    ghost use Rattle.block_file.specs.Faults.{fault_text};

    ghost output = { λ fault. Some (fault_text fault) };

    /// The line, then the cause's name and number. Running out of memory has no line.
    fn fmt<W: fmt::Write>(&self, f: &mut fmt::Formatter<W>) -> fmt::Result {
        match self.cause {
            Cause::Memory => write!(f, "{}", self.cause),
            _ => write!(f, "{} {}", self.line, self.cause),
        }
    }
}
