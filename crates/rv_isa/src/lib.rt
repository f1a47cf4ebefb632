//! The instructions of RV32IM and the 32-bit words that stand for them, and the register file.
#![tactic(auto)]

mod decoding;
mod encoding;
mod fields;
mod formats;
mod instruction;
pub mod opcode;
mod operands;
mod register;
mod registers;
mod tables;

pub use decoding::decode;
pub use encoding::{encode, one_instr};
pub use fields::{
    branch_offset, funct3, funct7, immediate_of_i, immediate_of_s, jump_offset, rd, rs1, rs2,
    shift_amount, upper,
};
pub use instruction::{
    Condition, ImmediateOperation, Instr, LoadKind, Operation, Shift, StoreKind,
};
pub use operands::{BranchOffset, Immediate, JumpOffset, ShiftAmount, Upper};
pub use register::Reg;
pub use registers::Regs;
