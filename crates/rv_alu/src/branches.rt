//! The conditions of branches.

ghost use Rattle.std.specs.Prelude.{◌≡◌};
ghost use Rattle.rv_alu.specs.Branches.{is_taken};

use rv_isa::Condition;

/// Whether a branch is taken when rs1 holds `left` and rs2 holds `right`.
#[inline(always)]
pub(crate) fn holds(condition: Condition, left: u32, right: u32) -> bool
    ensures { result ≡ is_taken condition left right }
{
    match condition {
        Condition::Beq => left == right,
        Condition::Bne => left != right,
        Condition::Blt => left.cast_signed() < right.cast_signed(),
        Condition::Bge => left.cast_signed() >= right.cast_signed(),
        Condition::Bltu => left < right,
        Condition::Bgeu => left >= right,
    }
}
