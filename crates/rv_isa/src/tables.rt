//! The tables of funct3 and funct7, in both directions.

ghost use Rattle.std.specs.Prelude.{◌≡◌, ◌<◌, ◌^◌};
ghost use Rattle.rv_isa.specs.Word.{condition_funct3, load_funct3, store_funct3, immediate_funct3, shift_functs, operation_functs};
ghost use Rattle.rv_isa.specs.Decoding.{condition_at, load_at, store_at, immediate_operation_at, shift_at, operation_at};

use crate::{Condition, ImmediateOperation, LoadKind, Operation, Shift, StoreKind};

/// The condition of a branch by its funct3; `None` if no branch has it.
pub fn condition(funct3: u32) -> Option<Condition>
    ensures { result ≡ condition_at funct3 }
{
    match funct3 {
        0b000 => Some(Condition::Beq),
        0b001 => Some(Condition::Bne),
        0b100 => Some(Condition::Blt),
        0b101 => Some(Condition::Bge),
        0b110 => Some(Condition::Bltu),
        0b111 => Some(Condition::Bgeu),
        _ => None,
    }
}

/// The kind of a load by its funct3; `None` if no load has it.
pub fn load_kind(funct3: u32) -> Option<LoadKind>
    ensures { result ≡ load_at funct3 }
{
    match funct3 {
        0b000 => Some(LoadKind::Lb),
        0b001 => Some(LoadKind::Lh),
        0b010 => Some(LoadKind::Lw),
        0b100 => Some(LoadKind::Lbu),
        0b101 => Some(LoadKind::Lhu),
        _ => None,
    }
}

/// The kind of a store by its funct3; `None` if no store has it.
pub fn store_kind(funct3: u32) -> Option<StoreKind>
    ensures { result ≡ store_at funct3 }
{
    match funct3 {
        0b000 => Some(StoreKind::Sb),
        0b001 => Some(StoreKind::Sh),
        0b010 => Some(StoreKind::Sw),
        _ => None,
    }
}

/// The computation with an immediate by its funct3; `None` if none has it. 001 and 101 are the shifts.
pub fn immediate_operation(funct3: u32) -> Option<ImmediateOperation>
    ensures { result ≡ immediate_operation_at funct3 }
{
    match funct3 {
        0b000 => Some(ImmediateOperation::Addi),
        0b010 => Some(ImmediateOperation::Slti),
        0b011 => Some(ImmediateOperation::Sltiu),
        0b100 => Some(ImmediateOperation::Xori),
        0b110 => Some(ImmediateOperation::Ori),
        0b111 => Some(ImmediateOperation::Andi),
        _ => None,
    }
}

/// The shift by a fixed amount that has this funct7 and funct3; `None` if there is none.
pub fn shift(funct7: u32, funct3: u32) -> Option<Shift>
    ensures { result ≡ shift_at funct7 funct3 }
{
    match (funct7, funct3) {
        (0b0000000, 0b001) => Some(Shift::Slli),
        (0b0000000, 0b101) => Some(Shift::Srli),
        (0b0100000, 0b101) => Some(Shift::Srai),
        _ => None,
    }
}

/// The computation of two registers that has this funct7 and funct3; `None` if there is none.
pub fn operation(funct7: u32, funct3: u32) -> Option<Operation>
    ensures { result ≡ operation_at funct7 funct3 }
{
    match (funct7, funct3) {
        (0b0000000, 0b000) => Some(Operation::Add),
        (0b0100000, 0b000) => Some(Operation::Sub),
        (0b0000000, 0b001) => Some(Operation::Sll),
        (0b0000000, 0b010) => Some(Operation::Slt),
        (0b0000000, 0b011) => Some(Operation::Sltu),
        (0b0000000, 0b100) => Some(Operation::Xor),
        (0b0000000, 0b101) => Some(Operation::Srl),
        (0b0100000, 0b101) => Some(Operation::Sra),
        (0b0000000, 0b110) => Some(Operation::Or),
        (0b0000000, 0b111) => Some(Operation::And),
        (0b0000001, 0b000) => Some(Operation::Mul),
        (0b0000001, 0b001) => Some(Operation::Mulh),
        (0b0000001, 0b010) => Some(Operation::Mulhsu),
        (0b0000001, 0b011) => Some(Operation::Mulhu),
        (0b0000001, 0b100) => Some(Operation::Div),
        (0b0000001, 0b101) => Some(Operation::Divu),
        (0b0000001, 0b110) => Some(Operation::Rem),
        (0b0000001, 0b111) => Some(Operation::Remu),
        _ => None,
    }
}

/// A branch's funct3.
pub fn condition_funct3(condition: Condition) -> u32
    ensures value { result ≡ condition_funct3 condition }
    ensures small { result < 2 ^ 3 }
{
    match condition {
        Condition::Beq => 0b000,
        Condition::Bne => 0b001,
        Condition::Blt => 0b100,
        Condition::Bge => 0b101,
        Condition::Bltu => 0b110,
        Condition::Bgeu => 0b111,
    }
}

/// A load's funct3.
pub fn load_funct3(kind: LoadKind) -> u32
    ensures value { result ≡ load_funct3 kind }
    ensures small { result < 2 ^ 3 }
{
    match kind {
        LoadKind::Lb => 0b000,
        LoadKind::Lh => 0b001,
        LoadKind::Lw => 0b010,
        LoadKind::Lbu => 0b100,
        LoadKind::Lhu => 0b101,
    }
}

/// A store's funct3.
pub fn store_funct3(kind: StoreKind) -> u32
    ensures value { result ≡ store_funct3 kind }
    ensures small { result < 2 ^ 3 }
{
    match kind {
        StoreKind::Sb => 0b000,
        StoreKind::Sh => 0b001,
        StoreKind::Sw => 0b010,
    }
}

/// The funct3 of a computation with an immediate.
pub fn immediate_funct3(operation: ImmediateOperation) -> u32
    ensures value { result ≡ immediate_funct3 operation }
    ensures small { result < 2 ^ 3 }
{
    match operation {
        ImmediateOperation::Addi => 0b000,
        ImmediateOperation::Slti => 0b010,
        ImmediateOperation::Sltiu => 0b011,
        ImmediateOperation::Xori => 0b100,
        ImmediateOperation::Ori => 0b110,
        ImmediateOperation::Andi => 0b111,
    }
}

/// The funct7 and funct3 of a shift by a fixed amount.
pub fn shift_functs(shift: Shift) -> (u32, u32)
    ensures value { result ≡ shift_functs shift }
    ensures small7 { result.0 < 2 ^ 7 }
    ensures small3 { result.1 < 2 ^ 3 }
{
    match shift {
        Shift::Slli => (0b0000000, 0b001),
        Shift::Srli => (0b0000000, 0b101),
        Shift::Srai => (0b0100000, 0b101),
    }
}

/// The funct7 and funct3 of a computation of two registers.
pub fn operation_functs(operation: Operation) -> (u32, u32)
    ensures value { result ≡ operation_functs operation }
    ensures small7 { result.0 < 2 ^ 7 }
    ensures small3 { result.1 < 2 ^ 3 }
{
    match operation {
        Operation::Add => (0b0000000, 0b000),
        Operation::Sub => (0b0100000, 0b000),
        Operation::Sll => (0b0000000, 0b001),
        Operation::Slt => (0b0000000, 0b010),
        Operation::Sltu => (0b0000000, 0b011),
        Operation::Xor => (0b0000000, 0b100),
        Operation::Srl => (0b0000000, 0b101),
        Operation::Sra => (0b0100000, 0b101),
        Operation::Or => (0b0000000, 0b110),
        Operation::And => (0b0000000, 0b111),
        Operation::Mul => (0b0000001, 0b000),
        Operation::Mulh => (0b0000001, 0b001),
        Operation::Mulhsu => (0b0000001, 0b010),
        Operation::Mulhu => (0b0000001, 0b011),
        Operation::Div => (0b0000001, 0b100),
        Operation::Divu => (0b0000001, 0b101),
        Operation::Rem => (0b0000001, 0b110),
        Operation::Remu => (0b0000001, 0b111),
    }
}
