//! The instructions of RV32IM.

use crate::{BranchOffset, Immediate, JumpOffset, Reg, ShiftAmount, Upper};

/// When a branch is taken, by its mnemonic.
#[derive(Clone, Copy, Debug, PartialEq, Eq)]
pub enum Condition {
    Beq,
    Bne,
    Blt,
    Bge,
    Bltu,
    Bgeu,
}

/// What a load reads and how it extends it, by its mnemonic.
#[derive(Clone, Copy, Debug, PartialEq, Eq)]
pub enum LoadKind {
    Lb,
    Lh,
    Lw,
    Lbu,
    Lhu,
}

/// What a store writes, by its mnemonic.
#[derive(Clone, Copy, Debug, PartialEq, Eq)]
pub enum StoreKind {
    Sb,
    Sh,
    Sw,
}

/// An operation on a register and an immediate, by its mnemonic.
#[derive(Clone, Copy, Debug, PartialEq, Eq)]
pub enum ImmediateOperation {
    Addi,
    Slti,
    Sltiu,
    Xori,
    Ori,
    Andi,
}

/// A shift by a fixed amount, by its mnemonic.
#[derive(Clone, Copy, Debug, PartialEq, Eq)]
pub enum Shift {
    Slli,
    Srli,
    Srai,
}

/// An operation on two registers, by its mnemonic.
#[derive(Clone, Copy, Debug, PartialEq, Eq)]
pub enum Operation {
    Add,
    Sub,
    Sll,
    Slt,
    Sltu,
    Xor,
    Srl,
    Sra,
    Or,
    And,
    Mul,
    Mulh,
    Mulhsu,
    Mulhu,
    Div,
    Divu,
    Rem,
    Remu,
}

/// An instruction of RV32IM with its operands. Each has one word, and no two have the same.
#[derive(Clone, Copy, Debug, PartialEq, Eq)]
pub enum Instr {
    Lui {
        rd: Reg,
        immediate: Upper,
    },
    Auipc {
        rd: Reg,
        immediate: Upper,
    },
    Jal {
        rd: Reg,
        offset: JumpOffset,
    },
    Jalr {
        rd: Reg,
        base: Reg,
        offset: Immediate,
    },
    /// `left` is rs1 and `right` is rs2.
    Branch {
        condition: Condition,
        left: Reg,
        right: Reg,
        offset: BranchOffset,
    },
    Load {
        kind: LoadKind,
        rd: Reg,
        base: Reg,
        offset: Immediate,
    },
    /// Stores `source`, rs2, at the address `base`, rs1, plus `offset`.
    Store {
        kind: StoreKind,
        source: Reg,
        base: Reg,
        offset: Immediate,
    },
    ComputeImmediate {
        operation: ImmediateOperation,
        rd: Reg,
        source: Reg,
        immediate: Immediate,
    },
    ShiftImmediate {
        shift: Shift,
        rd: Reg,
        source: Reg,
        amount: ShiftAmount,
    },
    /// `left` is rs1 and `right` is rs2.
    Compute {
        operation: Operation,
        rd: Reg,
        left: Reg,
        right: Reg,
    },
    /// A fence with all its fields: `immediate` is fm, pred and succ. `rd` and `source`, which is rs1, have
    /// no meaning; they are kept so that each word of a fence has its own instruction.
    Fence {
        rd: Reg,
        source: Reg,
        immediate: Immediate,
    },
    Ecall,
    Ebreak,
}
