//! Quotients and remainders.

ghost use Rattle.std.specs.Prelude.{◌≡◌, ◌≢◌, pos, ◌-ℤ◌, ◌*ℤ◌, int_div};
ghost use Rattle.rv_isa.specs.Number.{wrapped};
ghost use Rattle.rv_alu.specs.Operations.{value_of};
ghost use Rattle.rv_isa.specs.declared.instruction.Operation.TheVariants as operation;

/// The result of DIV and DIVU if the divisor is 0: 2^32 - 1.
const QUOTIENT_BY_ZERO: u32 = u32::MAX;

/// The quotient of two signed numbers, rounded towards zero; 2^32 - 1 if the divisor is 0. -2^31 divided
/// by -1 gives -2^31.
pub(crate) fn quotient(left: u32, right: u32) -> u32
    ensures { result ≡ wrapped (value_of operation.Div left right) }
{
    if right == 0 {
        QUOTIENT_BY_ZERO
    } else {
        left.cast_signed()
            .wrapping_div(right.cast_signed())
            .cast_unsigned()
    }
}

/// The quotient of two unsigned numbers; 2^32 - 1 if the divisor is 0.
pub(crate) fn unsigned_quotient(left: u32, right: u32) -> u32
    ensures { result ≡ wrapped (value_of operation.Divu left right) }
{
    if right == 0 {
        QUOTIENT_BY_ZERO
    } else {
        left / right
    }
}

/// The remainder that belongs to `quotient`: 0, or a number with the sign of `left`; `left` if the
/// divisor is 0.
pub(crate) fn remainder(left: u32, right: u32) -> u32
    ensures { result ≡ wrapped (value_of operation.Rem left right) }
{
    if right == 0 {
        left
    } else {
        rest(left.cast_signed(), right.cast_signed()).cast_unsigned()
    }
}

/// The remainder that belongs to `unsigned_quotient`; `left` if the divisor is 0.
pub(crate) fn unsigned_remainder(left: u32, right: u32) -> u32
    ensures { result ≡ wrapped (value_of operation.Remu left right) }
{
    if right == 0 { left } else { left % right }
}

/// The remainder of a division that rounds towards zero; 0 for -2^31 by -1.
#[tactic(auto, using(crate::proofs::Rest::rem_is_rest))]
fn rest(dividend: i32, divisor: i32) -> i32
    requires { divisor ≢ pos 0 }
    ensures { result ≡ dividend -ℤ (divisor *ℤ int_div dividend divisor) }
{
    dividend.wrapping_rem(divisor)
}
