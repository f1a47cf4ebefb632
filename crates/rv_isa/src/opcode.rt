//! The opcodes, bits 6 to 0 of a word.

/// The bits of a word that are its opcode.
pub const MASK: u32 = 0x7f;
/// LUI.
pub const LUI: u32 = 0b0110111;
/// AUIPC.
pub const AUIPC: u32 = 0b0010111;
/// JAL.
pub const JAL: u32 = 0b1101111;
/// JALR.
pub const JALR: u32 = 0b1100111;
/// The branches.
pub const BRANCH: u32 = 0b1100011;
/// The loads.
pub const LOAD: u32 = 0b0000011;
/// The stores.
pub const STORE: u32 = 0b0100011;
/// The computations with an immediate, and the shifts by a fixed amount.
pub const OP_IMM: u32 = 0b0010011;
/// The computations of two registers.
pub const OP: u32 = 0b0110011;
/// FENCE.
pub(crate) const MISC_MEM: u32 = 0b0001111;
/// ECALL and EBREAK.
pub(crate) const SYSTEM: u32 = 0b1110011;
