//! Computations with an immediate.

ghost use Rattle.std.specs.Prelude.{◌≡◌};
ghost use Rattle.rv_isa.specs.Number.{wrapped};
ghost use Rattle.rv_alu.specs.Operations.{immediate_value, shift_value};

use rv_isa::{Immediate, ImmediateOperation, Shift, ShiftAmount};

/// The result of `operation` on `source`, the value of rs1, and `immediate`.
#[inline(always)]
pub(crate) fn compute_immediate(
    operation: ImmediateOperation,
    source: u32,
    immediate: Immediate,
) -> u32
    ensures { result ≡ wrapped (immediate_value operation source immediate.value) }
{
    let signed = immediate.value;
    let bits = signed.cast_unsigned();
    match operation {
        ImmediateOperation::Addi => source.wrapping_add(bits),
        ImmediateOperation::Slti => u32::from(source.cast_signed() < signed),
        ImmediateOperation::Sltiu => u32::from(source < bits),
        ImmediateOperation::Xori => source ^ bits,
        ImmediateOperation::Ori => source | bits,
        ImmediateOperation::Andi => source & bits,
    }
}

/// The result of shifting `source`, the value of rs1, by `amount` places.
#[inline(always)]
pub(crate) fn compute_shift(shift: Shift, source: u32, amount: ShiftAmount) -> u32
    ensures { result ≡ wrapped (shift_value shift source amount.value) }
{
    match shift {
        Shift::Slli => source << amount.value,
        Shift::Srli => source >> amount.value,
        Shift::Srai => (source.cast_signed() >> amount.value).cast_unsigned(),
    }
}
