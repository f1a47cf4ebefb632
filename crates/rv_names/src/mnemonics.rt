//! The text of each keyword: its mnemonic or directive.

ghost use Rattle.std.specs.Prelude.{◌≡◌};
ghost use Rattle.rv_names.specs.Mnemonics.{condition_name, load_name, store_name, immediate_name, shift_name, operation_name, mnemonic};

use crate::Keyword;
use rv_isa::{Condition, ImmediateOperation, LoadKind, Operation, Shift, StoreKind};

/// A branch's mnemonic.
fn condition_name(condition: Condition) -> &'static str
    ensures { result.now ≡ condition_name condition }
{
    match condition {
        Condition::Beq => "beq",
        Condition::Bne => "bne",
        Condition::Blt => "blt",
        Condition::Bge => "bge",
        Condition::Bltu => "bltu",
        Condition::Bgeu => "bgeu",
    }
}

/// A load's mnemonic.
fn load_name(kind: LoadKind) -> &'static str
    ensures { result.now ≡ load_name kind }
{
    match kind {
        LoadKind::Lb => "lb",
        LoadKind::Lh => "lh",
        LoadKind::Lw => "lw",
        LoadKind::Lbu => "lbu",
        LoadKind::Lhu => "lhu",
    }
}

/// A store's mnemonic.
fn store_name(kind: StoreKind) -> &'static str
    ensures { result.now ≡ store_name kind }
{
    match kind {
        StoreKind::Sb => "sb",
        StoreKind::Sh => "sh",
        StoreKind::Sw => "sw",
    }
}

/// The mnemonic of a computation with an immediate.
fn immediate_name(operation: ImmediateOperation) -> &'static str
    ensures { result.now ≡ immediate_name operation }
{
    match operation {
        ImmediateOperation::Addi => "addi",
        ImmediateOperation::Slti => "slti",
        ImmediateOperation::Sltiu => "sltiu",
        ImmediateOperation::Xori => "xori",
        ImmediateOperation::Ori => "ori",
        ImmediateOperation::Andi => "andi",
    }
}

/// The mnemonic of a shift by a fixed amount.
fn shift_name(shift: Shift) -> &'static str
    ensures { result.now ≡ shift_name shift }
{
    match shift {
        Shift::Slli => "slli",
        Shift::Srli => "srli",
        Shift::Srai => "srai",
    }
}

/// The mnemonic of a computation of two registers.
fn operation_name(operation: Operation) -> &'static str
    ensures { result.now ≡ operation_name operation }
{
    match operation {
        Operation::Add => "add",
        Operation::Sub => "sub",
        Operation::Sll => "sll",
        Operation::Slt => "slt",
        Operation::Sltu => "sltu",
        Operation::Xor => "xor",
        Operation::Srl => "srl",
        Operation::Sra => "sra",
        Operation::Or => "or",
        Operation::And => "and",
        Operation::Mul => "mul",
        Operation::Mulh => "mulh",
        Operation::Mulhsu => "mulhsu",
        Operation::Mulhu => "mulhu",
        Operation::Div => "div",
        Operation::Divu => "divu",
        Operation::Rem => "rem",
        Operation::Remu => "remu",
    }
}

/// The mnemonic or directive of a keyword, in lower case.
#[tactic(auto, unfolding(crate::specs::Mnemonics::mnemonic))]
pub fn mnemonic(keyword: Keyword) -> &'static str
    ensures { result.now ≡ mnemonic keyword }
{
    match keyword {
        Keyword::Lui => "lui",
        Keyword::Auipc => "auipc",
        Keyword::Jal => "jal",
        Keyword::Jalr => "jalr",
        Keyword::Branch(condition) => condition_name(condition),
        Keyword::Load(kind) => load_name(kind),
        Keyword::Store(kind) => store_name(kind),
        Keyword::ComputeImmediate(operation) => immediate_name(operation),
        Keyword::ShiftImmediate(shift) => shift_name(shift),
        Keyword::Compute(operation) => operation_name(operation),
        Keyword::Fence => "fence",
        Keyword::Ecall => "ecall",
        Keyword::Ebreak => "ebreak",
        Keyword::Nop => "nop",
        Keyword::Mv => "mv",
        Keyword::J => "j",
        Keyword::Ret => "ret",
        Keyword::Li => "li",
        Keyword::TextSection => ".text",
        Keyword::DataSection => ".data",
        Keyword::WordDirective => ".word",
        Keyword::ByteDirective => ".byte",
        Keyword::ZeroDirective => ".zero",
    }
}
