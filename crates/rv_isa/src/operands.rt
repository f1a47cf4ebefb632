//! Operands, each in its range.

ghost use Rattle.rv_isa.specs.Ranges.{IsImmediate, IsBranchOffset, IsJumpOffset, IsUpper, IsShiftAmount};

/// The signed immediate of the I and S formats, -2048 to 2047.
#[derive(Clone, Copy, Debug, PartialEq, Eq)]
pub struct Immediate {
    pub value: i32,
    pub ghost in_range: { IsImmediate value },
}

/// The offset of a branch in bytes, -4096 to 4094 and even.
#[derive(Clone, Copy, Debug, PartialEq, Eq)]
pub struct BranchOffset {
    pub value: i32,
    pub ghost in_range: { IsBranchOffset value },
}

/// The offset of JAL in bytes, -1048576 to 1048574 and even.
#[derive(Clone, Copy, Debug, PartialEq, Eq)]
pub struct JumpOffset {
    pub value: i32,
    pub ghost in_range: { IsJumpOffset value },
}

/// The operand of LUI and AUIPC, the upper 20 bits imm\[31:12\]: 0 to 2^20 - 1.
#[derive(Clone, Copy, Debug, PartialEq, Eq)]
pub struct Upper {
    pub value: u32,
    pub ghost in_range: { IsUpper value },
}

/// The number of places by which SLLI, SRLI and SRAI shift, 0 to 31.
#[derive(Clone, Copy, Debug, PartialEq, Eq)]
pub struct ShiftAmount {
    pub value: u8,
    pub ghost in_range: { IsShiftAmount value },
}
