//! Words by their formats (RISC-V Unprivileged ISA, 2.2 and 2.3).

ghost use Rattle.std.specs.Prelude.{◌≡◌, ◌<◌, ◌^◌};
ghost use Rattle.rv_isa.specs.Format.{r_word, i_word, s_word, b_word, u_word, j_word};

use crate::{BranchOffset, Immediate, JumpOffset, Reg, Upper};

/// The number of a register.
fn number(register: Reg) -> u32
    ensures value { result ≡ register.number }
    ensures small { result < 2 ^ 5 }
{
    register.number
}

/// A word of the R format.
pub fn r_word(funct7: u32, rs2: u32, rs1: Reg, funct3: u32, rd: Reg, opcode: u32) -> u32
    requires funct7 { funct7 < 2 ^ 7 }
    requires rs2 { rs2 < 2 ^ 5 }
    requires funct3 { funct3 < 2 ^ 3 }
    requires opcode { opcode < 2 ^ 7 }
    ensures { result ≡ r_word funct7 rs2 rs1.number funct3 rd.number opcode }
{
    (funct7 << 25) + (rs2 << 20) + (number(rs1) << 15) + (funct3 << 12) + (number(rd) << 7) + opcode
}

/// A word of the I format.
pub fn i_word(immediate: Immediate, rs1: Reg, funct3: u32, rd: Reg, opcode: u32) -> u32
    requires funct3 { funct3 < 2 ^ 3 }
    requires opcode { opcode < 2 ^ 7 }
    ensures { result ≡ i_word immediate.value rs1.number funct3 rd.number opcode }
{
    (immediate.value.cast_unsigned() << 20)
        + (number(rs1) << 15)
        + (funct3 << 12)
        + (number(rd) << 7)
        + opcode
}

/// A word of the S format.
pub fn s_word(immediate: Immediate, rs2: Reg, rs1: Reg, funct3: u32, opcode: u32) -> u32
    requires funct3 { funct3 < 2 ^ 3 }
    requires opcode { opcode < 2 ^ 7 }
    ensures { result ≡ s_word immediate.value rs2.number rs1.number funct3 opcode }
{
    let bits = immediate.value.cast_unsigned();
    ((bits >> 5 & 0x7f) << 25)
        + (number(rs2) << 20)
        + (number(rs1) << 15)
        + (funct3 << 12)
        + ((bits & 0x1f) << 7)
        + opcode
}

/// A word of the B format.
pub fn b_word(offset: BranchOffset, rs2: Reg, rs1: Reg, funct3: u32, opcode: u32) -> u32
    requires funct3 { funct3 < 2 ^ 3 }
    requires opcode { opcode < 2 ^ 7 }
    ensures { result ≡ b_word offset.value rs2.number rs1.number funct3 opcode }
{
    let bits = offset.value.cast_unsigned();
    ((bits >> 12 & 0x1) << 31)
        + ((bits >> 5 & 0x3f) << 25)
        + (number(rs2) << 20)
        + (number(rs1) << 15)
        + (funct3 << 12)
        + ((bits >> 1 & 0xf) << 8)
        + ((bits >> 11 & 0x1) << 7)
        + opcode
}

/// A word of the U format.
pub fn u_word(immediate: Upper, rd: Reg, opcode: u32) -> u32
    requires { opcode < 2 ^ 7 }
    ensures { result ≡ u_word immediate.value rd.number opcode }
{
    (immediate.value << 12) + (number(rd) << 7) + opcode
}

/// A word of the J format.
pub fn j_word(offset: JumpOffset, rd: Reg, opcode: u32) -> u32
    requires { opcode < 2 ^ 7 }
    ensures { result ≡ j_word offset.value rd.number opcode }
{
    let bits = offset.value.cast_unsigned();
    ((bits >> 20 & 0x1) << 31)
        + ((bits >> 1 & 0x3ff) << 21)
        + ((bits >> 11 & 0x1) << 20)
        + ((bits >> 12 & 0xff) << 12)
        + (number(rd) << 7)
        + opcode
}
