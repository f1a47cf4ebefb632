//! The fields of a word that determine its instruction, in their places, and the numbers that they have there.

ghost use Rattle.std.specs.Prelude.{◌≡◌, ◌+◌, ◌*◌, ◌%◌, ◌^◌};
ghost use Rattle.rv_isa.specs.Decoding.{slots_of};

use rv_isa::{funct3, funct7, opcode};

/// The opcode of a word.
#[inline(always)]
pub(crate) fn opcode_of(word: u32) -> u32
    ensures { result ≡ word % 2 ^ 7 }
{
    word & opcode::MASK
}

/// funct3 of a word, in its place.
#[inline(always)]
pub(crate) fn placed_funct3(word: u32) -> u32
    ensures { result ≡ (slots_of word).funct3 * 2 ^ 12 }
{
    funct3(word) << 12
}

/// funct7 and funct3 of a word, in their places.
#[inline(always)]
pub(crate) fn placed_functs(word: u32) -> u32
    ensures { result ≡ (slots_of word).funct7 * 2 ^ 25 + (slots_of word).funct3 * 2 ^ 12 }
{
    (funct7(word) << 25) + (funct3(word) << 12)
}

/// The word of ECALL.
pub(crate) const ECALL: u32 = 0x0000_0073;

/// funct3 of JALR, in its place.
pub(crate) const JALR: u32 = 0b000 << 12;

/// funct3 of BEQ, in its place.
pub(crate) const BEQ: u32 = 0b000 << 12;

/// funct3 of BNE, in its place.
pub(crate) const BNE: u32 = 0b001 << 12;

/// funct3 of BLT, in its place.
pub(crate) const BLT: u32 = 0b100 << 12;

/// funct3 of BLTU, in its place.
pub(crate) const BLTU: u32 = 0b110 << 12;

/// funct3 of BGEU, in its place.
pub(crate) const BGEU: u32 = 0b111 << 12;

/// funct3 of LB, in its place.
pub(crate) const LB: u32 = 0b000 << 12;

/// funct3 of LH, in its place.
pub(crate) const LH: u32 = 0b001 << 12;

/// funct3 of LW, in its place.
pub(crate) const LW: u32 = 0b010 << 12;

/// funct3 of LBU, in its place.
pub(crate) const LBU: u32 = 0b100 << 12;

/// funct3 of LHU, in its place.
pub(crate) const LHU: u32 = 0b101 << 12;

/// funct3 of SB, in its place.
pub(crate) const SB: u32 = 0b000 << 12;

/// funct3 of SH, in its place.
pub(crate) const SH: u32 = 0b001 << 12;

/// funct3 of SW, in its place.
pub(crate) const SW: u32 = 0b010 << 12;

/// funct3 of ADDI, in its place.
pub(crate) const ADDI: u32 = 0b000 << 12;

/// funct3 of SLLI, in its place.
pub(crate) const SLLI: u32 = 0b001 << 12;

/// funct3 of SLTI, in its place.
pub(crate) const SLTI: u32 = 0b010 << 12;

/// funct3 of XORI, in its place.
pub(crate) const XORI: u32 = 0b100 << 12;

/// funct3 of SRLI, in its place.
pub(crate) const SRLI: u32 = 0b101 << 12;

/// funct3 of ORI, in its place.
pub(crate) const ORI: u32 = 0b110 << 12;

/// funct7 and funct3 of ADD, in their places.
pub(crate) const ADD: u32 = 0b000 << 12;

/// funct7 and funct3 of SLL, in their places.
pub(crate) const SLL: u32 = 0b001 << 12;

/// funct7 and funct3 of SLTU, in their places.
pub(crate) const SLTU: u32 = 0b011 << 12;

/// funct7 and funct3 of XOR, in their places.
pub(crate) const XOR: u32 = 0b100 << 12;

/// funct7 and funct3 of OR, in their places.
pub(crate) const OR: u32 = 0b110 << 12;

/// funct7 and funct3 of AND, in their places.
pub(crate) const AND: u32 = 0b111 << 12;

/// funct7 and funct3 of MUL, in their places.
pub(crate) const MUL: u32 = (0b0000001 << 25) + (0b000 << 12);

/// funct7 and funct3 of MULHSU, in their places.
pub(crate) const MULHSU: u32 = (0b0000001 << 25) + (0b010 << 12);

/// funct7 and funct3 of MULHU, in their places.
pub(crate) const MULHU: u32 = (0b0000001 << 25) + (0b011 << 12);

/// funct7 and funct3 of DIVU, in their places.
pub(crate) const DIVU: u32 = (0b0000001 << 25) + (0b101 << 12);

/// funct7 and funct3 of REM, in their places.
pub(crate) const REM: u32 = (0b0000001 << 25) + (0b110 << 12);

/// funct7 and funct3 of REMU, in their places.
pub(crate) const REMU: u32 = (0b0000001 << 25) + (0b111 << 12);

/// funct7 and funct3 of SUB, in their places.
pub(crate) const SUB: u32 = (0b0100000 << 25) + (0b000 << 12);

/// funct7 and funct3 of SRA, in their places.
pub(crate) const SRA: u32 = (0b0100000 << 25) + (0b101 << 12);
