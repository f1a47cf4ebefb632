//! Why a source is refused.

ghost use Rattle.std.specs.Prelude.{◌≡◌};
ghost use Rattle.rv_text.specs.Faults.{name_of, number_of};
ghost use Rattle.rv_text.specs.declared.fault.AsmCause.TheVariants.{Memory};

use rv_names::LineCause;
use std::alloc::{AllocError, AllocFailed};
use std::fmt;
use thiserror::Error;

/// What is wrong with a source.
#[derive(Clone, Copy, Debug, PartialEq, Eq, Error)]
pub enum AsmCause {
    /// The first word of a line is neither a mnemonic nor a directive.
    UnknownMnemonic = 1,
    /// A label is not a name, the operands are wrong in number or form, or the statement may not be in its section.
    BadOperand = 2,
    /// A number is out of the range of its operand, or a distance that is written as a number is odd.
    ImmediateRange = 3,
    /// An operand is a label that no line defines, and no line has fault 1, 2, 3, 5 or 7.
    UnknownLabel = 4,
    /// A line defines a label that an earlier line defines.
    DuplicateLabel = 5,
    /// A label is out of reach of a branch or jump, or at an odd distance, and no line has fault 1, 2, 3, 5 or 7.
    LabelRange = 6,
    /// The bytes of a line pass the size of its section: 65,536 bytes of text, 61,440 of data.
    TooLarge = 7,
    /// Memory ran out. This is printed without a line.
    Memory = 8,
}

impl AsmCause {
    /// The number in the refusal's line, 1 to 8.
    pub fn number(self) -> u8
        ensures { result ≡ number_of self }
    {
        self as u8
    }

    /// The name in the refusal's line.
    pub fn name(self) -> &'static str
        ensures { result.now ≡ name_of self }
    {
        match self {
            AsmCause::UnknownMnemonic => "UnknownMnemonic",
            AsmCause::BadOperand => "BadOperand",
            AsmCause::ImmediateRange => "ImmediateRange",
            AsmCause::UnknownLabel => "UnknownLabel",
            AsmCause::DuplicateLabel => "DuplicateLabel",
            AsmCause::LabelRange => "LabelRange",
            AsmCause::TooLarge => "TooLarge",
            AsmCause::Memory => "Memory",
        }
    }
}

impl fmt::Display for AsmCause {
    ghost use Rattle.std.specs.Prelude.{Some};
    ghost use Rattle.rv_text.specs.Faults.{cause_text};

    ghost output = { λ cause. Some (cause_text cause) };

    /// The name and the number.
    #[tactic(auto, unfolding(crate::specs::Faults::cause_text))]
    fn fmt<W: fmt::Write>(&self, f: &mut fmt::Formatter<W>) -> fmt::Result {
        write!(f, "{} {}", self.name(), self.number())
    }
}

impl From<AllocError> for AsmCause {
    ghost from_gives = { λ _ e. e ≡ Memory };

    fn from(_e: AllocError) -> AsmCause {
        AsmCause::Memory
    }
}

impl<T: Drop> From<AllocFailed<T>> for AsmCause {
    ghost from_gives = { λ _ e. e ≡ Memory };

    fn from(_e: AllocFailed<T>) -> AsmCause {
        AsmCause::Memory
    }
}

impl From<LineCause> for AsmCause {
    ghost use Rattle.rv_text.specs.Assembly.{cause_of};

    ghost from_gives = { λ cause e. e ≡ cause_of cause };

    fn from(cause: LineCause) -> AsmCause {
        match cause {
            LineCause::UnknownMnemonic => AsmCause::UnknownMnemonic,
            LineCause::BadOperand => AsmCause::BadOperand,
            LineCause::ImmediateRange => AsmCause::ImmediateRange,
        }
    }
}

/// The first fault of a source. Of the causes 1, 2, 3, 5 and 7 it is the one on the least line, and on that line the
/// one with the least number. If no line has such a fault, it is found among 4 and 6 in the same way.
#[derive(Clone, Copy, Debug, PartialEq, Eq)]
pub struct AsmError {
    /// The number of the line, counted from 1. It is 1 if memory ran out.
    pub line: usize,
    /// What is wrong with it.
    pub cause: AsmCause,
}

impl fmt::Display for AsmError {
    ghost use Rattle.std.specs.Prelude.{Some};
    ghost use Rattle.rv_text.specs.Faults.{fault_text};

    ghost output = { λ fault. Some (fault_text fault) };

    /// The line, the cause's name and its number. `Memory` is written without a line.
    fn fmt<W: fmt::Write>(&self, f: &mut fmt::Formatter<W>) -> fmt::Result {
        match self.cause {
            AsmCause::Memory => write!(f, "{}", self.cause),
            _ => write!(f, "{} {}", self.line, self.cause),
        }
    }
}
