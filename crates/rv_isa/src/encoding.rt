//! The word of an instruction.

ghost use Rattle.std.specs.Prelude.{◌≡◌};
ghost use Rattle.rv_isa.specs.Word.{word_of};
ghost use Rattle.rv_isa.specs.declared.instruction.Instr.{Instr};
ghost use Rattle.rv_isa.specs.declared.instruction.Instr.TheVariants.{ShiftImmediate, Compute};

use crate::formats::{b_word, i_word, j_word, r_word, s_word, u_word};
use crate::tables::{
    condition_funct3, immediate_funct3, load_funct3, operation_functs, shift_functs, store_funct3,
};
use crate::{Instr, Operation, Reg, Shift, ShiftAmount, opcode};

/// The word of an instruction.
pub fn encode(instr: &Instr) -> u32
    ensures { result ≡ word_of instr.now }
{
    match *instr {
        Instr::Lui { rd, immediate } => u_word(immediate, rd, opcode::LUI),
        Instr::Auipc { rd, immediate } => u_word(immediate, rd, opcode::AUIPC),
        Instr::Jal { rd, offset } => j_word(offset, rd, opcode::JAL),
        Instr::Jalr { rd, base, offset } => i_word(offset, base, 0b000, rd, opcode::JALR),
        Instr::Branch {
            condition,
            left,
            right,
            offset,
        } => {
            let funct3 = condition_funct3(condition);
            b_word(offset, right, left, funct3, opcode::BRANCH)
        }
        Instr::Load {
            kind,
            rd,
            base,
            offset,
        } => i_word(offset, base, load_funct3(kind), rd, opcode::LOAD),
        Instr::Store {
            kind,
            source,
            base,
            offset,
        } => s_word(offset, source, base, store_funct3(kind), opcode::STORE),
        Instr::ComputeImmediate {
            operation,
            rd,
            source,
            immediate,
        } => {
            let funct3 = immediate_funct3(operation);
            i_word(immediate, source, funct3, rd, opcode::OP_IMM)
        }
        Instr::ShiftImmediate {
            shift,
            rd,
            source,
            amount,
        } => shift_word(shift, rd, source, amount),
        Instr::Compute {
            operation,
            rd,
            left,
            right,
        } => compute_word(operation, rd, left, right),
        Instr::Fence {
            rd,
            source,
            immediate,
        } => i_word(immediate, source, 0b000, rd, opcode::MISC_MEM),
        Instr::Ecall => 0x0000_0073,
        Instr::Ebreak => 0x0010_0073,
    }
}

/// The word of a shift by a fixed amount.
fn shift_word(shift: Shift, rd: Reg, source: Reg, amount: ShiftAmount) -> u32
    ensures { result ≡ word_of (ShiftImmediate shift rd source amount) }
{
    let (funct7, funct3) = shift_functs(shift);
    let rs2 = u32::from(amount.value);
    r_word(funct7, rs2, source, funct3, rd, opcode::OP_IMM)
}

/// The word of a computation of two registers.
fn compute_word(operation: Operation, rd: Reg, left: Reg, right: Reg) -> u32
    ensures { result ≡ word_of (Compute operation rd left right) }
{
    let (funct7, funct3) = operation_functs(operation);
    let rs2 = u32::from(right.number);
    r_word(funct7, rs2, left, funct3, rd, opcode::OP)
}

/// A law: two instructions that have the same word are the same instruction.
#[tactic(auto, using(crate::proofs::Again::one_word))]
pub fn one_instr()
    ensures { (x y : Instr) → word_of x ≡ word_of y → x ≡ y }
{}
