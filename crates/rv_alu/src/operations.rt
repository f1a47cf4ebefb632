//! Computations of two registers.

ghost use Rattle.std.specs.Prelude.{◌≡◌};
ghost use Rattle.rv_isa.specs.Number.{wrapped};
ghost use Rattle.rv_alu.specs.Operations.{value_of};

use crate::division::{quotient, remainder, unsigned_quotient, unsigned_remainder};
use crate::products::{high_mixed, high_signed, high_unsigned};
use rv_isa::Operation;

/// The result of `operation` when rs1 holds `left` and rs2 holds `right`.
#[inline(always)]
pub(crate) fn compute(operation: Operation, left: u32, right: u32) -> u32
    ensures { result ≡ wrapped (value_of operation left right) }
{
    match operation {
        Operation::Add => left.wrapping_add(right),
        Operation::Sub => left.wrapping_sub(right),
        Operation::Sll => left << (right & 31),
        Operation::Slt => u32::from(left.cast_signed() < right.cast_signed()),
        Operation::Sltu => u32::from(left < right),
        Operation::Xor => left ^ right,
        Operation::Srl => left >> (right & 31),
        Operation::Sra => (left.cast_signed() >> (right & 31)).cast_unsigned(),
        Operation::Or => left | right,
        Operation::And => left & right,
        Operation::Mul => left.wrapping_mul(right),
        Operation::Mulh => high_signed(left, right),
        Operation::Mulhsu => high_mixed(left, right),
        Operation::Mulhu => high_unsigned(left, right),
        Operation::Div => quotient(left, right),
        Operation::Divu => unsigned_quotient(left, right),
        Operation::Rem => remainder(left, right),
        Operation::Remu => unsigned_remainder(left, right),
    }
}
