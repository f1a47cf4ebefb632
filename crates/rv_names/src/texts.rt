//! The text of an instruction, and of a word.

ghost use Rattle.std.specs.Prelude.{◌≡◌, ◌∷◌, [], IfOk};
ghost use Rattle.std.specs.Fmt.{decimal, signed_decimal};
ghost use Rattle.rv_names.specs.Registers.{x_name};
ghost use Rattle.rv_names.specs.Mnemonics.{mnemonic};
ghost use Rattle.rv_names.specs.declared.keywords.Keyword.TheVariants.{Jal};
ghost use Rattle.std.specs.String.{string_bytes};
ghost use Rattle.rv_names.specs.Text.{command, upper_text, place_text, word_directive, fence_text, instruction_text, disassembly, text_or_word};

use crate::Keyword;
use crate::mnemonics::mnemonic;
use crate::registers::x_name;
use rv_isa::{Immediate, Instr, Reg, Upper, decode, encode};
use std::alloc::{AllocError, Global};

/// A command with two operands.
fn with_two(
    alloc: Global,
    keyword: Keyword,
    first: &str,
    second: &str,
) -> Result<String, AllocError>
    ensures { IfOk result (λ t. string_bytes t ≡ command keyword (first.now ∷ second.now ∷ [])) }
{
    let name = mnemonic(keyword);
    format!(in alloc; "{name} {first},{second}")
}

/// A command with three operands.
fn with_three(
    alloc: Global,
    keyword: Keyword,
    first: &str,
    second: &str,
    third: &str,
) -> Result<String, AllocError>
    ensures { IfOk result (λ t. string_bytes t ≡ command keyword (first.now ∷ second.now ∷ third.now ∷ [])) }
{
    let name = mnemonic(keyword);
    format!(in alloc; "{name} {first},{second},{third}")
}

/// The text of a signed number, in decimal.
fn signed_text(alloc: Global, value: i32) -> Result<String, AllocError>
    ensures { IfOk result (λ t. string_bytes t ≡ signed_decimal value) }
{
    format!(in alloc; "{value}")
}

/// A command with a register and the upper 20 bits in hex.
fn upper_text(
    alloc: Global,
    keyword: Keyword,
    rd: Reg,
    immediate: Upper,
) -> Result<String, AllocError>
    ensures { IfOk result (λ t. string_bytes t ≡ command keyword (x_name rd ∷ upper_text immediate ∷ [])) }
{
    let value = immediate.value;
    let operand = format!(in alloc; "0x{value:x}")?;
    with_two(alloc, keyword, x_name(rd), operand.as_str())
}

/// A command with a register and the operand `N(REGISTER)`.
fn place_text(
    alloc: Global,
    keyword: Keyword,
    register: Reg,
    base: Reg,
    offset: Immediate,
) -> Result<String, AllocError>
    ensures { IfOk result (λ t. string_bytes t ≡ command keyword (x_name register ∷ place_text offset base ∷ [])) }
{
    let value = offset.value;
    let base = x_name(base);
    let operand = format!(in alloc; "{value}({base})")?;
    with_two(alloc, keyword, x_name(register), operand.as_str())
}

/// A command with two registers and a signed number.
fn number_text(
    alloc: Global,
    keyword: Keyword,
    first: Reg,
    second: Reg,
    value: i32,
) -> Result<String, AllocError>
    ensures { IfOk result (λ t. string_bytes t ≡ command keyword (x_name first ∷ x_name second ∷ signed_decimal value ∷ [])) }
{
    let operand = signed_text(alloc, value)?;
    with_three(
        alloc,
        keyword,
        x_name(first),
        x_name(second),
        operand.as_str(),
    )
}

/// A command with two registers and the number of places of a shift.
fn amount_text(
    alloc: Global,
    keyword: Keyword,
    first: Reg,
    second: Reg,
    value: u8,
) -> Result<String, AllocError>
    ensures { IfOk result (λ t. string_bytes t ≡ command keyword (x_name first ∷ x_name second ∷ decimal value ∷ [])) }
{
    let operand = format!(in alloc; "{value}")?;
    with_three(
        alloc,
        keyword,
        x_name(first),
        x_name(second),
        operand.as_str(),
    )
}

/// JAL with its register and its distance in bytes.
fn jal_text(alloc: Global, rd: Reg, value: i32) -> Result<String, AllocError>
    ensures { IfOk result (λ t. string_bytes t ≡ command Jal (x_name rd ∷ signed_decimal value ∷ [])) }
{
    let operand = signed_text(alloc, value)?;
    with_two(alloc, Keyword::Jal, x_name(rd), operand.as_str())
}

/// `.word 0x` and eight hex digits.
fn word_directive(alloc: Global, word: u32) -> Result<String, AllocError>
    ensures { IfOk result (λ t. string_bytes t ≡ word_directive word) }
{
    let name = mnemonic(Keyword::WordDirective);
    let digits = hex::encode(alloc, word.to_be_bytes().as_slice())?;
    format!(in alloc; "{name} 0x{digits}")
}

/// A mnemonic alone.
fn alone(alloc: Global, keyword: Keyword) -> Result<String, AllocError>
    ensures { IfOk result (λ t. string_bytes t ≡ mnemonic keyword) }
{
    String::from_str(alloc, mnemonic(keyword))
}

/// `fence` for the word 0x0ff0000f; for any other word `.word 0x` and eight hex digits.
fn fence_text(alloc: Global, word: u32) -> Result<String, AllocError>
    ensures { IfOk result (λ t. string_bytes t ≡ fence_text word) }
{
    if word == 0x0ff0000f {
        return alone(alloc, Keyword::Fence);
    }
    word_directive(alloc, word)
}

/// The text of an instruction: registers by their x names, distances in bytes. A fence whose word is not 0x0ff0000f
/// is printed as `.word 0x` and eight hex digits. Refused if memory ran out.
#[tactic(auto, unfolding(crate::specs::Text::instruction_text))]
pub fn instruction_text(alloc: Global, instr: &Instr) -> Result<String, AllocError>
    ensures { IfOk result (λ t. string_bytes t ≡ instruction_text instr.now) }
{
    match *instr {
        Instr::Lui { rd, immediate } => upper_text(alloc, Keyword::Lui, rd, immediate),
        Instr::Auipc { rd, immediate } => upper_text(alloc, Keyword::Auipc, rd, immediate),
        Instr::Jal { rd, offset } => jal_text(alloc, rd, offset.value),
        Instr::Jalr { rd, base, offset } => { place_text(alloc, Keyword::Jalr, rd, base, offset) }
        Instr::Branch {
            condition,
            left,
            right,
            offset,
        } => number_text(alloc, Keyword::Branch(condition), left, right, offset.value),
        Instr::Load {
            kind,
            rd,
            base,
            offset,
        } => place_text(alloc, Keyword::Load(kind), rd, base, offset),
        Instr::Store {
            kind,
            source,
            base,
            offset,
        } => place_text(alloc, Keyword::Store(kind), source, base, offset),
        Instr::ComputeImmediate {
            operation,
            rd,
            source,
            immediate,
        } => number_text(
            alloc,
            Keyword::ComputeImmediate(operation),
            rd,
            source,
            immediate.value,
        ),
        Instr::ShiftImmediate {
            shift,
            rd,
            source,
            amount,
        } => amount_text(
            alloc,
            Keyword::ShiftImmediate(shift),
            rd,
            source,
            amount.value,
        ),
        Instr::Compute {
            operation,
            rd,
            left,
            right,
        } => with_three(
            alloc,
            Keyword::Compute(operation),
            x_name(rd),
            x_name(left),
            x_name(right),
        ),
        Instr::Fence { .. } => fence_text(alloc, encode(instr)),
        Instr::Ecall => alone(alloc, Keyword::Ecall),
        Instr::Ebreak => alone(alloc, Keyword::Ebreak),
    }
}

/// The text of a word: the text of its instruction, or `.word 0x` and eight hex digits if the word is illegal.
/// Refused if memory ran out.
#[tactic(auto, unfolding(crate::specs::Text::disassembly))]
pub fn disassembly(alloc: Global, word: u32) -> Result<String, AllocError>
    ensures { IfOk result (λ t. string_bytes t ≡ disassembly word) }
{
    match decode(word) {
        Some(instr) => instruction_text(alloc, &instr),
        None => word_directive(alloc, word),
    }
}
