//! The fields of a word.

ghost use Rattle.std.specs.Prelude.{◌≡◌, ℕ, ◌+◌, ◌-◌, ◌*◌, ◌/◌, ◌%◌, ◌^◌, ◌<◌};
ghost use Rattle.rv_isa.specs.Decoding.{slots_of, register_at, immediate_at, amount_at, upper_at, branch_at, jump_at, i_immediate, s_immediate, b_offset, u_immediate, j_offset};

use crate::{BranchOffset, Immediate, JumpOffset, Reg, ShiftAmount, Upper};

/// The bits 31 to 20 of a jump's offset that is negative.
const SIGN_OF_JUMP: u32 = 0xfff0_0000;

/// The register of a number below 32.
#[tactic(auto, using(crate::proofs::Same::same_register))]
fn register(number: u32) -> Reg
    requires { number < 2 ^ 5 }
    ensures { result ≡ register_at number }
{
    Reg { number }
}

/// The destination, rd.
pub fn rd(word: u32) -> Reg
    ensures { result ≡ register_at (slots_of word).rd }
{
    register(word >> 7 & 0x1f)
}

/// The first source, rs1.
pub fn rs1(word: u32) -> Reg
    ensures { result ≡ register_at (slots_of word).rs1 }
{
    register(word >> 15 & 0x1f)
}

/// The second source, rs2.
pub fn rs2(word: u32) -> Reg
    ensures { result ≡ register_at (slots_of word).rs2 }
{
    register(word >> 20 & 0x1f)
}

/// The field funct3, bits 14 to 12.
pub fn funct3(word: u32) -> u32
    ensures value { result ≡ (slots_of word).funct3 }
    ensures small { result < 2 ^ 3 }
{
    word >> 12 & 0x7
}

/// The field funct7, bits 31 to 25.
pub fn funct7(word: u32) -> u32
    ensures value { result ≡ (slots_of word).funct7 }
    ensures small { result < 2 ^ 7 }
{
    word >> 25
}

/// The shift amount of a number below 32.
#[tactic(auto, using(crate::proofs::Same::same_amount))]
fn amount(number: u32) -> ShiftAmount
    requires { number < 2 ^ 5 }
    ensures { result ≡ amount_at number }
{
    ShiftAmount {
        value: number as u8,
    }
}

/// The shift amount, in the bits of rs2.
pub fn shift_amount(word: u32) -> ShiftAmount
    ensures { result ≡ amount_at (slots_of word).rs2 }
{
    amount(word >> 20 & 0x1f)
}

/// The signed number whose 12-bit two's complement is `number`.
fn extend_12(number: u32) -> Immediate
    requires { number < 2 ^ 12 }
    ensures { result ≡ immediate_at number }
{
    Immediate {
        value: (number << 20).cast_signed() >> 20,
    }
}

/// The immediate of the I format.
pub fn immediate_of_i(word: u32) -> Immediate
    ensures { result ≡ i_immediate (slots_of word) }
{
    extend_12(word >> 20)
}

/// The immediate of the S format.
pub fn immediate_of_s(word: u32) -> Immediate
    ensures { result ≡ s_immediate (slots_of word) }
{
    extend_12((word >> 25 << 5) + (word >> 7 & 0x1f))
}

/// The bits of a branch's offset that bits 31 to 25 of its word give: 10 to 5, and 12 and those above, which are the sign.
fn high_branch_bits(word: u32) -> u32
    ensures { result ≡ (slots_of word).funct7 / 2 ^ 6 * (2 ^ 32 - 2 ^ 12) + (slots_of word).funct7 % 2 ^ 6 * 2 ^ 5 }
{
    let bits = extend_12(word >> 25 << 5).value.cast_unsigned();
    bits - ((bits >> 11 & 0x1) << 11)
}

/// The offset of the B format.
pub fn branch_offset(word: u32) -> BranchOffset
    ensures { result ≡ b_offset (slots_of word) }
{
    let bits = high_branch_bits(word) + ((word >> 7 & 0x1) << 11) + ((word >> 8 & 0xf) << 1);
    BranchOffset {
        value: bits.cast_signed(),
    }
}

/// The immediate of the U format.
#[tactic(auto, using(crate::proofs::Same::same_upper))]
pub fn upper(word: u32) -> Upper
    ensures { result ≡ u_immediate (slots_of word) }
{
    Upper { value: word >> 12 }
}

/// The offset of the J format.
pub fn jump_offset(word: u32) -> JumpOffset
    ensures { result ≡ j_offset (slots_of word) }
{
    let bits = (word >> 31) * SIGN_OF_JUMP
        + ((word >> 12 & 0xff) << 12)
        + ((word >> 20 & 0x1) << 11)
        + ((word >> 21 & 0x3ff) << 1);
    JumpOffset {
        value: bits.cast_signed(),
    }
}
