//! The outcome of one instruction.

ghost use Rattle.std.specs.Prelude.{◌≡◌};
ghost use Rattle.rv_step.specs.Step.{is_ecall};

use rv_isa::Instr;
use rv_ledger::End;

/// The outcome of one instruction. An ECALL is only found; its work is not done yet. The type is small, since every instruction
/// returns one.
#[derive(Clone, Copy, Debug, PartialEq, Eq)]
pub enum InstructionOutcome {
    /// The machine continues.
    Next,
    /// The machine is at an ECALL.
    StorageCall,
    /// The call ends, without an output.
    End(End),
}

/// Whether an instruction is ECALL.
#[inline(always)]
pub(crate) fn is_ecall(instr: &Instr) -> bool
    ensures { result ≡ is_ecall instr.now }
{
    matches!(instr, Instr::Ecall)
}
