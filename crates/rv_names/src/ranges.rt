//! The ranges of the numbers in source.

ghost use Rattle.std.specs.Prelude.{◌≡◌, ◌<◌, ◌≤◌, ◌/◌, ◌^◌, IfOk};
ghost use Rattle.rv_isa.specs.Number.{residue};
ghost use Rattle.rv_isa.specs.Ranges.{IsImmediate, IsBranchOffset, IsJumpOffset};
ghost use Rattle.rv_isa.specs.Decoding.{immediate_at, branch_at, jump_at, upper_at, amount_at};
ghost use Rattle.rv_names.specs.Operands.{immediate_of, branch_offset_of, jump_offset_of, upper_of, amount_of, word_value_of, count_of};
ghost use Rattle.rv_names.specs.Statements.{high_of, load_number};

use crate::LineCause;
use rv_isa::{
    BranchOffset, Immediate, ImmediateOperation, Instr, JumpOffset, Reg, ShiftAmount, Upper,
};

/// The immediate of a number in range.
fn immediate_in_range(number: i64) -> Immediate
    requires { IsImmediate number }
    ensures { result ≡ immediate_at (residue 12 number) }
{
    Immediate {
        value: number as i32,
    }
}

/// An immediate, -2048 to 2047; ImmediateRange for any other number.
#[tactic(auto, unfolding(crate::specs::Operands::immediate_of))]
pub(crate) fn immediate(number: i64) -> Result<Immediate, LineCause>
    ensures { result ≡ immediate_of number }
{
    if number < -2048 || 2047 < number {
        return Err(LineCause::ImmediateRange);
    }
    Ok(immediate_in_range(number))
}

/// The branch offset of a number in range.
fn branch_in_range(number: i64) -> BranchOffset
    requires { IsBranchOffset number }
    ensures { result ≡ branch_at (residue 13 number / 2) }
{
    BranchOffset {
        value: number as i32,
    }
}

/// The offset of a branch, -4096 to 4094 and even; `None` for any other number.
#[tactic(auto, unfolding(crate::specs::Operands::branch_offset_of))]
pub fn branch_offset(number: i64) -> Option<BranchOffset>
    ensures { result ≡ branch_offset_of number }
{
    if number < -4096 || 4094 < number || number.rem_euclid(2) != 0 {
        return None;
    }
    Some(branch_in_range(number))
}

/// The jump offset of a number in range.
fn jump_in_range(number: i64) -> JumpOffset
    requires { IsJumpOffset number }
    ensures { result ≡ jump_at (residue 21 number / 2) }
{
    JumpOffset {
        value: number as i32,
    }
}

/// The offset of JAL, -1048576 to 1048574 and even; `None` for any other number.
#[tactic(auto, unfolding(crate::specs::Operands::jump_offset_of))]
pub fn jump_offset(number: i64) -> Option<JumpOffset>
    ensures { result ≡ jump_offset_of number }
{
    if number < -1048576 || 1048574 < number || number.rem_euclid(2) != 0 {
        return None;
    }
    Some(jump_in_range(number))
}

/// The upper immediate of a number in range.
fn upper_in_range(n: u32) -> Upper
    requires { n < 2 ^ 20 }
    ensures { result ≡ upper_at n }
{
    Upper { value: n }
}

/// The upper 20 bits of LUI and AUIPC, 0 to 1048575; ImmediateRange for any other number.
#[tactic(auto, unfolding(crate::specs::Operands::upper_of))]
pub(crate) fn upper(number: i64) -> Result<Upper, LineCause>
    ensures { result ≡ upper_of number }
{
    if number < 0 || 1048575 < number {
        return Err(LineCause::ImmediateRange);
    }
    Ok(upper_in_range(number as u32))
}

/// The shift amount of a number in range.
fn amount_in_range(n: u8) -> ShiftAmount
    requires { n < 32 }
    ensures { result ≡ amount_at n }
{
    ShiftAmount { value: n }
}

/// The number of places of a shift, 0 to 31; ImmediateRange for any other number.
#[tactic(auto, unfolding(crate::specs::Operands::amount_of))]
pub(crate) fn amount(number: i64) -> Result<ShiftAmount, LineCause>
    ensures { result ≡ amount_of number }
{
    if number < 0 || 31 < number {
        return Err(LineCause::ImmediateRange);
    }
    Ok(amount_in_range(number as u8))
}

/// A word: a number from -2147483648 to 4294967295, taken modulo 2^32; ImmediateRange for any other number.
#[tactic(auto, unfolding(crate::specs::Operands::word_value_of))]
pub(crate) fn word_value(number: i64) -> Result<u32, LineCause>
    ensures { result ≡ word_value_of number }
{
    if number < -2147483648 || 4294967295 < number {
        return Err(LineCause::ImmediateRange);
    }
    Ok(number.rem_euclid(4294967296) as u32)
}

/// A number from 0 to `most`; ImmediateRange for any other number.
#[tactic(auto, unfolding(crate::specs::Operands::count_of))]
pub(crate) fn count(most: u32, number: i64) -> Result<u32, LineCause>
    ensures count { result ≡ count_of most number }
    ensures within { IfOk result (λ n. n ≤ most) }
{
    if number < 0 || i64::from(most) < number {
        return Err(LineCause::ImmediateRange);
    }
    Ok(number as u32)
}

/// The low 12 bits of a number as a signed number.
fn low_part(number: u32) -> Immediate
    ensures { result ≡ immediate_at number }
{
    let low = (number & 0xfff) as i32;
    Immediate {
        value: if low < 2048 { low } else { low - 4096 },
    }
}

/// The upper 20 bits that LUI loads, so that adding the low part gives the number modulo 2^32.
fn high_part(number: u32) -> Upper
    ensures { result ≡ upper_at (high_of number) }
{
    let high = (number >> 12) + (number >> 11 & 1);
    Upper {
        value: high & 0xfffff,
    }
}

/// LUI and then ADDI, the two instructions that load a number into a register.
#[tactic(auto, unfolding(crate::specs::Statements::load_number))]
pub fn load_number(rd: Reg, number: u32) -> (Instr, Instr)
    ensures { result ≡ load_number rd number }
{
    let high = Instr::Lui {
        rd,
        immediate: high_part(number),
    };
    let low = Instr::ComputeImmediate {
        operation: ImmediateOperation::Addi,
        rd,
        source: rd,
        immediate: low_part(number),
    };
    (high, low)
}
