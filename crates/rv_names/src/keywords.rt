//! The keywords of source, and the words that they are found by.

ghost use Rattle.std.specs.Prelude.{◌≡◌};
ghost use Rattle.std.specs.List.{find};
ghost use Rattle.std.specs.Str.{bytes_eq};
ghost use Rattle.rv_names.specs.Mnemonics.{mnemonic, keyword_of};

use crate::mnemonics::mnemonic;
use rv_isa::{Condition, ImmediateOperation, LoadKind, Operation, Shift, StoreKind};

/// What a mnemonic or directive stands for. Each comment shows one with the operands that follow it.
#[derive(Clone, Copy, Debug, PartialEq, Eq)]
pub enum Keyword {
    /// `lui rd,N`
    Lui,
    /// `auipc rd,N`
    Auipc,
    /// `jal rd,TARGET`
    Jal,
    /// `jalr rd,N(rs1)`
    Jalr,
    /// `beq rs1,rs2,TARGET`
    Branch(Condition),
    /// `lw rd,N(rs1)`
    Load(LoadKind),
    /// `sw rs2,N(rs1)`
    Store(StoreKind),
    /// `addi rd,rs1,N`
    ComputeImmediate(ImmediateOperation),
    /// `slli rd,rs1,N`
    ShiftImmediate(Shift),
    /// `add rd,rs1,rs2`
    Compute(Operation),
    /// `fence`
    Fence,
    /// `ecall`
    Ecall,
    /// `ebreak`
    Ebreak,
    /// `nop`
    Nop,
    /// `mv rd,rs`
    Mv,
    /// `j TARGET`
    J,
    /// `ret`
    Ret,
    /// `li rd,N` or `li rd,LABEL`
    Li,
    /// `.text`
    TextSection,
    /// `.data`
    DataSection,
    /// `.word N`
    WordDirective,
    /// `.byte N`
    ByteDirective,
    /// `.zero N`
    ZeroDirective,
}

/// Every keyword.
const KEYWORDS: [Keyword; 58] = [
    Keyword::Lui,
    Keyword::Auipc,
    Keyword::Jal,
    Keyword::Jalr,
    Keyword::Branch(Condition::Beq),
    Keyword::Branch(Condition::Bne),
    Keyword::Branch(Condition::Blt),
    Keyword::Branch(Condition::Bge),
    Keyword::Branch(Condition::Bltu),
    Keyword::Branch(Condition::Bgeu),
    Keyword::Load(LoadKind::Lb),
    Keyword::Load(LoadKind::Lh),
    Keyword::Load(LoadKind::Lw),
    Keyword::Load(LoadKind::Lbu),
    Keyword::Load(LoadKind::Lhu),
    Keyword::Store(StoreKind::Sb),
    Keyword::Store(StoreKind::Sh),
    Keyword::Store(StoreKind::Sw),
    Keyword::ComputeImmediate(ImmediateOperation::Addi),
    Keyword::ComputeImmediate(ImmediateOperation::Slti),
    Keyword::ComputeImmediate(ImmediateOperation::Sltiu),
    Keyword::ComputeImmediate(ImmediateOperation::Xori),
    Keyword::ComputeImmediate(ImmediateOperation::Ori),
    Keyword::ComputeImmediate(ImmediateOperation::Andi),
    Keyword::ShiftImmediate(Shift::Slli),
    Keyword::ShiftImmediate(Shift::Srli),
    Keyword::ShiftImmediate(Shift::Srai),
    Keyword::Compute(Operation::Add),
    Keyword::Compute(Operation::Sub),
    Keyword::Compute(Operation::Sll),
    Keyword::Compute(Operation::Slt),
    Keyword::Compute(Operation::Sltu),
    Keyword::Compute(Operation::Xor),
    Keyword::Compute(Operation::Srl),
    Keyword::Compute(Operation::Sra),
    Keyword::Compute(Operation::Or),
    Keyword::Compute(Operation::And),
    Keyword::Compute(Operation::Mul),
    Keyword::Compute(Operation::Mulh),
    Keyword::Compute(Operation::Mulhsu),
    Keyword::Compute(Operation::Mulhu),
    Keyword::Compute(Operation::Div),
    Keyword::Compute(Operation::Divu),
    Keyword::Compute(Operation::Rem),
    Keyword::Compute(Operation::Remu),
    Keyword::Fence,
    Keyword::Ecall,
    Keyword::Ebreak,
    Keyword::Nop,
    Keyword::Mv,
    Keyword::J,
    Keyword::Ret,
    Keyword::Li,
    Keyword::TextSection,
    Keyword::DataSection,
    Keyword::WordDirective,
    Keyword::ByteDirective,
    Keyword::ZeroDirective,
];

/// The first of the keywords whose mnemonic or directive is `word`; `None` if there is none.
fn found(keywords: &[Keyword], word: &[u8]) -> Option<Keyword>
    ensures { result ≡ find (λ keyword. bytes_eq (mnemonic keyword) word.now) keywords.now }
{
    keywords
        .iter()
        .copied()
        .find(|keyword| mnemonic(*keyword).as_bytes() == word)
}

/// The keyword whose mnemonic or directive is `word`; `None` for any other word, also for one in capitals.
#[tactic(auto, unfolding(crate::specs::Mnemonics::keyword_of))]
pub fn keyword_of(word: &[u8]) -> Option<Keyword>
    ensures { result ≡ keyword_of word.now }
{
    found(KEYWORDS.as_slice(), word)
}
