//! What a line of source says.

ghost use Rattle.std.specs.Prelude.{◌≡◌};

use rv_isa::{Condition, Instr, Reg};

/// The section that bytes are put into.
#[derive(Clone, Copy, Debug, PartialEq, Eq)]
pub enum Section {
    /// The instructions.
    Text,
    /// What they work on.
    Data,
}

/// What is wrong with a line by itself. If several causes hold, the one with the least number is returned.
#[derive(Clone, Copy, Debug, PartialEq, Eq)]
pub enum LineCause {
    /// The first word is neither a mnemonic nor a directive.
    UnknownMnemonic = 1,
    /// The label is not a name, the operands are wrong in number or form, or the statement may not be in the section.
    BadOperand = 2,
    /// A number is out of the range of its operand, or a distance that is written as a number is odd.
    ImmediateRange = 3,
}

/// What a line says beside its label.
#[derive(Clone, Copy, Debug, PartialEq, Eq)]
pub enum Statement {
    /// Nothing.
    Empty,
    /// One instruction.
    Plain(Instr),
    /// Two instructions, in this order.
    Pair(Instr, Instr),
    /// A branch to the line's target.
    BranchTo {
        condition: Condition,
        left: Reg,
        right: Reg,
    },
    /// JAL to the line's target.
    JumpTo {
        rd: Reg,
    },
    /// The two instructions that load the address of the line's target.
    AddressOf {
        rd: Reg,
    },
    /// Four bytes, the lowest first.
    WordValue(u32),
    /// One byte.
    ByteValue(u8),
    /// This number of bytes of 0, at most 65,536.
    ZeroBytes(u32),
    /// The section of the lines that follow.
    Enter(Section),
}

/// A line of source. `N` is the type of the names of labels in it.
#[derive(Clone, Copy, Debug, PartialEq, Eq)]
pub struct Line<N> {
    /// The name of the place at which the line begins.
    pub label: Option<N>,
    /// What the line says beside its label.
    pub statement: Statement,
    /// The label that the statement refers to. `BranchTo`, `JumpTo` and `AddressOf` have one, and no other
    /// statement has.
    // It is not a field of these variants: the borrow checker covers no enum that holds a reference beside a struct
    // with a ghost field, as `Reg` has one.
    pub target: Option<N>,
}

impl<N> Line<N> {
    /// A line with a statement that refers to no label.
    pub(crate) fn saying(statement: Statement) -> Self
        ensures { result ≡ record { label = None; statement = statement; target = None } }
    {
        Line {
            label: None,
            statement,
            target: None,
        }
    }

    /// A line with a statement that refers to the label `target`.
    pub(crate) fn naming(target: N, statement: Statement) -> Self
        ensures { result ≡ record { label = None; statement = statement; target = Some target } }
    {
        Line {
            label: None,
            statement,
            target: Some(target),
        }
    }
}
