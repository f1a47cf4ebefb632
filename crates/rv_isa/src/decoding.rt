//! The instruction of a word.

ghost use Rattle.std.specs.Prelude.{◌≡◌, ◌↔◌, ◌%◌, ◌^◌, IfSome};
ghost use Rattle.rv_isa.specs.Word.{word_of};
ghost use Rattle.rv_isa.specs.Decoded.{decoded};
ghost use Rattle.rv_isa.specs.Decoding.{slots_of, instr_of, compute_immediate_of, shift_of};
ghost use Rattle.rv_isa.specs.declared.instruction.Instr.{Instr};

use crate::fields::{
    branch_offset, funct3, funct7, immediate_of_i, immediate_of_s, jump_offset, rd, rs1, rs2,
    shift_amount, upper,
};
use crate::tables::{condition, immediate_operation, load_kind, operation, shift, store_kind};
use crate::{Instr, opcode};

/// The instruction whose word is `word`; `None` if `word` is illegal: no instruction has it.
#[inline(always)]
#[tactic(auto, using(crate::proofs::Again::decoded_again), unfolding(crate::specs::Decoded::decoded))]
pub fn decode(word: u32) -> Option<Instr>
    ensures word { (x : Instr) → (result ≡ Some x) ↔ (word_of x ≡ word) }
    ensures function { result ≡ decoded word }
{
    decode_slots(word)
}

/// The instruction of a word by its opcode.
#[inline(always)]
#[tactic(auto, unfolding(crate::specs::Decoded::decoded, crate::specs::Decoding::instr_of))]
fn decode_slots(word: u32) -> Option<Instr>
    ensures function { result ≡ decoded word }
    ensures found { IfSome result (λ x. word_of x ≡ word) }
{
    match word & opcode::MASK {
        opcode::LUI => decode_lui(word),
        opcode::AUIPC => decode_auipc(word),
        opcode::JAL => decode_jal(word),
        opcode::JALR => decode_jalr(word),
        opcode::BRANCH => decode_branch(word),
        opcode::LOAD => decode_load(word),
        opcode::STORE => decode_store(word),
        opcode::OP_IMM => decode_immediate(word),
        opcode::OP => decode_compute(word),
        opcode::MISC_MEM => decode_fence(word),
        opcode::SYSTEM => decode_system(word),
        _ => None,
    }
}

/// The instruction of a word of the opcode LUI.
#[inline(always)]
#[tactic(auto, unfolding(crate::specs::Decoded::decoded, crate::specs::Decoding::instr_of))]
pub fn decode_lui(word: u32) -> Option<Instr>
    requires { word % 2 ^ 7 ≡ 0b0110111 }
    ensures function { result ≡ decoded word }
    ensures found { IfSome result (λ x. word_of x ≡ word) }
{
    Some(Instr::Lui {
        rd: rd(word),
        immediate: upper(word),
    })
}

/// The instruction of a word of the opcode AUIPC.
#[inline(always)]
#[tactic(auto, unfolding(crate::specs::Decoded::decoded, crate::specs::Decoding::instr_of))]
pub fn decode_auipc(word: u32) -> Option<Instr>
    requires { word % 2 ^ 7 ≡ 0b0010111 }
    ensures function { result ≡ decoded word }
    ensures found { IfSome result (λ x. word_of x ≡ word) }
{
    Some(Instr::Auipc {
        rd: rd(word),
        immediate: upper(word),
    })
}

/// The instruction of a word of the opcode JAL.
#[inline(always)]
#[tactic(auto, unfolding(crate::specs::Decoded::decoded, crate::specs::Decoding::instr_of))]
pub fn decode_jal(word: u32) -> Option<Instr>
    requires { word % 2 ^ 7 ≡ 0b1101111 }
    ensures function { result ≡ decoded word }
    ensures found { IfSome result (λ x. word_of x ≡ word) }
{
    Some(Instr::Jal {
        rd: rd(word),
        offset: jump_offset(word),
    })
}

/// The instruction of a word of the opcode JALR; `None` if its funct3 is not 0.
#[inline(always)]
#[tactic(auto, unfolding(crate::specs::Decoded::decoded, crate::specs::Decoding::instr_of))]
pub fn decode_jalr(word: u32) -> Option<Instr>
    requires { word % 2 ^ 7 ≡ 0b1100111 }
    ensures function { result ≡ decoded word }
    ensures found { IfSome result (λ x. word_of x ≡ word) }
{
    if funct3(word) != 0b000 {
        return None;
    }
    Some(Instr::Jalr {
        rd: rd(word),
        base: rs1(word),
        offset: immediate_of_i(word),
    })
}

/// The branch of a word of the opcode BRANCH; `None` if no condition has its funct3.
#[inline(always)]
#[tactic(auto, unfolding(crate::specs::Decoded::decoded, crate::specs::Decoding::instr_of))]
pub fn decode_branch(word: u32) -> Option<Instr>
    requires { word % 2 ^ 7 ≡ 0b1100011 }
    ensures function { result ≡ decoded word }
    ensures found { IfSome result (λ x. word_of x ≡ word) }
{
    Some(Instr::Branch {
        condition: condition(funct3(word))?,
        left: rs1(word),
        right: rs2(word),
        offset: branch_offset(word),
    })
}

/// The load of a word of the opcode LOAD; `None` if none has its funct3.
#[inline(always)]
#[tactic(auto, unfolding(crate::specs::Decoded::decoded, crate::specs::Decoding::instr_of))]
pub fn decode_load(word: u32) -> Option<Instr>
    requires { word % 2 ^ 7 ≡ 0b0000011 }
    ensures function { result ≡ decoded word }
    ensures found { IfSome result (λ x. word_of x ≡ word) }
{
    Some(Instr::Load {
        kind: load_kind(funct3(word))?,
        rd: rd(word),
        base: rs1(word),
        offset: immediate_of_i(word),
    })
}

/// The store of a word of the opcode STORE; `None` if none has its funct3.
#[inline(always)]
#[tactic(auto, unfolding(crate::specs::Decoded::decoded, crate::specs::Decoding::instr_of))]
pub fn decode_store(word: u32) -> Option<Instr>
    requires { word % 2 ^ 7 ≡ 0b0100011 }
    ensures function { result ≡ decoded word }
    ensures found { IfSome result (λ x. word_of x ≡ word) }
{
    Some(Instr::Store {
        kind: store_kind(funct3(word))?,
        source: rs2(word),
        base: rs1(word),
        offset: immediate_of_s(word),
    })
}

/// The computation or shift of a word of the opcode OP-IMM. The shifts are those with funct3 001 and 101;
/// `None` if no shift has the word's funct7.
#[inline(always)]
#[tactic(auto, unfolding(crate::specs::Decoded::decoded, crate::specs::Decoding::instr_of))]
pub fn decode_immediate(word: u32) -> Option<Instr>
    requires { word % 2 ^ 7 ≡ 0b0010011 }
    ensures function { result ≡ decoded word }
    ensures found { IfSome result (λ x. word_of x ≡ word) }
{
    match funct3(word) {
        0b001 | 0b101 => decode_shift(word),
        _ => decode_compute_immediate(word),
    }
}

/// A shift by a fixed amount; `None` if no shift has its funct7.
#[inline(always)]
fn decode_shift(word: u32) -> Option<Instr>
    requires { word % 2 ^ 7 ≡ 0b0010011 }
    ensures exact { result ≡ shift_of (slots_of word) }
    ensures found { IfSome result (λ x. word_of x ≡ word) }
{
    Some(Instr::ShiftImmediate {
        shift: shift(funct7(word), funct3(word))?,
        rd: rd(word),
        source: rs1(word),
        amount: shift_amount(word),
    })
}

/// A computation with an immediate; `None` if none has its funct3.
#[inline(always)]
fn decode_compute_immediate(word: u32) -> Option<Instr>
    requires { word % 2 ^ 7 ≡ 0b0010011 }
    ensures exact { result ≡ compute_immediate_of (slots_of word) }
    ensures found { IfSome result (λ x. word_of x ≡ word) }
{
    Some(Instr::ComputeImmediate {
        operation: immediate_operation(funct3(word))?,
        rd: rd(word),
        source: rs1(word),
        immediate: immediate_of_i(word),
    })
}

/// The computation of a word of the opcode OP; `None` if none has its funct7 and funct3.
#[inline(always)]
#[tactic(auto, unfolding(crate::specs::Decoded::decoded, crate::specs::Decoding::instr_of))]
pub fn decode_compute(word: u32) -> Option<Instr>
    requires { word % 2 ^ 7 ≡ 0b0110011 }
    ensures function { result ≡ decoded word }
    ensures found { IfSome result (λ x. word_of x ≡ word) }
{
    Some(Instr::Compute {
        operation: operation(funct7(word), funct3(word))?,
        rd: rd(word),
        left: rs1(word),
        right: rs2(word),
    })
}

/// The fence of a word of the opcode MISC-MEM; `None` if its funct3 is not 0.
#[inline(always)]
#[tactic(auto, unfolding(crate::specs::Decoded::decoded, crate::specs::Decoding::instr_of))]
pub fn decode_fence(word: u32) -> Option<Instr>
    requires { word % 2 ^ 7 ≡ 0b0001111 }
    ensures function { result ≡ decoded word }
    ensures found { IfSome result (λ x. word_of x ≡ word) }
{
    if funct3(word) != 0b000 {
        return None;
    }
    Some(Instr::Fence {
        rd: rd(word),
        source: rs1(word),
        immediate: immediate_of_i(word),
    })
}

/// ECALL or EBREAK, of a word of the opcode SYSTEM; `None` if it is neither.
#[inline(always)]
#[tactic(auto, unfolding(crate::specs::Decoded::decoded, crate::specs::Decoding::instr_of))]
pub fn decode_system(word: u32) -> Option<Instr>
    requires { word % 2 ^ 7 ≡ 0b1110011 }
    ensures function { result ≡ decoded word }
    ensures found { IfSome result (λ x. word_of x ≡ word) }
{
    match word >> 7 {
        0x0000 => Some(Instr::Ecall),
        0x2000 => Some(Instr::Ebreak),
        _ => None,
    }
}
