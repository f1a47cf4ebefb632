//! The statements of source: one function for each keyword, which reads the operands.

ghost use Rattle.std.specs.Prelude.{◌≡◌, ◌<◌};
ghost use Rattle.rv_names.specs.Shown.{shown_line, target_map};
ghost use Rattle.rv_names.specs.Statements.{lui, auipc, jump_to, jal, jalr, branch_to, branch, load, store, compute_immediate, shift_immediate, compute, alone, mv, j, load_target, li, only_number, word_statement, byte_statement, zero_statement, fence, nop, ret, keyword_statement, is_data, may_stand_in, statement_of};
ghost use Rattle.rv_isa.specs.Decoding.{register_at, immediate_at};

use crate::operands::{
    no_operand, number_operand, one_operand, place_operand, register_operand, target_operand,
    three_operands, two_operands,
};
use crate::ranges::{
    amount, branch_offset, count, immediate, jump_offset, load_number, upper, word_value,
};
use crate::target::Target;
use crate::{Keyword, Line, LineCause, Section, Statement};
use rv_isa::{
    Condition, Immediate, ImmediateOperation, Instr, LoadKind, Operation, Reg, Shift, StoreKind,
};

/// x0.
#[tactic(auto, using(rv_isa::proofs::Same::same_register))]
fn zero() -> Reg
    ensures { result ≡ register_at 0 }
{
    Reg { number: 0 }
}

/// x1, the return address.
#[tactic(auto, using(rv_isa::proofs::Same::same_register))]
fn return_address() -> Reg
    ensures { result ≡ register_at 1 }
{
    Reg { number: 1 }
}

/// The immediate of a number below 2048.
#[tactic(auto, using(rv_isa::proofs::Same::same_immediate))]
fn small(n: u16) -> Immediate
    requires { n < 2048 }
    ensures { result ≡ immediate_at n }
{
    Immediate {
        value: i32::from(n),
    }
}

/// `lui rd,N`
#[tactic(auto, unfolding(crate::specs::Statements::lui))]
fn lui(rest: &[u8]) -> Result<Line<&[u8]>, LineCause>
    ensures { shown_line result ≡ lui rest.now }
{
    let (rd, n) = two_operands(rest)?;
    let rd = register_operand(rd)?;
    let immediate = upper(number_operand(n)?)?;
    Ok(Line::saying(Statement::Plain(Instr::Lui { rd, immediate })))
}

/// `auipc rd,N`
#[tactic(auto, unfolding(crate::specs::Statements::auipc))]
fn auipc(rest: &[u8]) -> Result<Line<&[u8]>, LineCause>
    ensures { shown_line result ≡ auipc rest.now }
{
    let (rd, n) = two_operands(rest)?;
    let rd = register_operand(rd)?;
    let immediate = upper(number_operand(n)?)?;
    Ok(Line::saying(Statement::Plain(Instr::Auipc { rd, immediate })))
}

/// JAL to a target; ImmediateRange if a number is odd or out of range.
fn jump_to(rd: Reg, target: Target<&[u8]>) -> Result<Line<&[u8]>, LineCause>
    ensures { shown_line result ≡ jump_to rd (target_map (λ label. label.now) target.entry) }
{
    match target {
        Target::Number(n) => {
            let offset = jump_offset(n).ok_or(LineCause::ImmediateRange)?;
            Ok(Line::saying(Statement::Plain(Instr::Jal { rd, offset })))
        }
        Target::Label(label) => Ok(Line::naming(label, Statement::JumpTo { rd })),
    }
}

/// `jal rd,TARGET`
#[tactic(auto, unfolding(crate::specs::Statements::jal))]
fn jal(rest: &[u8]) -> Result<Line<&[u8]>, LineCause>
    ensures { shown_line result ≡ jal rest.now }
{
    let (rd, target) = two_operands(rest)?;
    let rd = register_operand(rd)?;
    jump_to(rd, target_operand(target)?)
}

/// `jalr rd,N(rs1)`
#[tactic(auto, unfolding(crate::specs::Statements::jalr))]
fn jalr(rest: &[u8]) -> Result<Line<&[u8]>, LineCause>
    ensures { shown_line result ≡ jalr rest.now }
{
    let (rd, place) = two_operands(rest)?;
    let rd = register_operand(rd)?;
    let (n, base) = place_operand(place)?;
    let offset = immediate(n)?;
    Ok(Line::saying(Statement::Plain(Instr::Jalr { rd, base, offset })))
}

/// A branch to a target; ImmediateRange if a number is odd or out of range.
fn branch_to(
    condition: Condition,
    left: Reg,
    right: Reg,
    target: Target<&[u8]>,
) -> Result<Line<&[u8]>, LineCause>
    ensures { shown_line result ≡ branch_to condition left right (target_map (λ label. label.now) target.entry) }
{
    match target {
        Target::Number(n) => {
            let offset = branch_offset(n).ok_or(LineCause::ImmediateRange)?;
            Ok(Line::saying(Statement::Plain(Instr::Branch {
                condition,
                left,
                right,
                offset,
            })))
        }
        Target::Label(label) => {
            let statement = Statement::BranchTo {
                condition,
                left,
                right,
            };
            Ok(Line::naming(label, statement))
        }
    }
}

/// `beq rs1,rs2,TARGET`
#[tactic(auto, unfolding(crate::specs::Statements::branch))]
fn branch(condition: Condition, rest: &[u8]) -> Result<Line<&[u8]>, LineCause>
    ensures { shown_line result ≡ branch condition rest.now }
{
    let (left, right, target) = three_operands(rest)?;
    let left = register_operand(left)?;
    let right = register_operand(right)?;
    branch_to(condition, left, right, target_operand(target)?)
}

/// `lw rd,N(rs1)`
#[tactic(auto, unfolding(crate::specs::Statements::load))]
fn load(kind: LoadKind, rest: &[u8]) -> Result<Line<&[u8]>, LineCause>
    ensures { shown_line result ≡ load kind rest.now }
{
    let (rd, place) = two_operands(rest)?;
    let rd = register_operand(rd)?;
    let (n, base) = place_operand(place)?;
    let offset = immediate(n)?;
    Ok(Line::saying(Statement::Plain(Instr::Load {
        kind,
        rd,
        base,
        offset,
    })))
}

/// `sw rs2,N(rs1)`
#[tactic(auto, unfolding(crate::specs::Statements::store))]
fn store(kind: StoreKind, rest: &[u8]) -> Result<Line<&[u8]>, LineCause>
    ensures { shown_line result ≡ store kind rest.now }
{
    let (source, place) = two_operands(rest)?;
    let source = register_operand(source)?;
    let (n, base) = place_operand(place)?;
    let offset = immediate(n)?;
    Ok(Line::saying(Statement::Plain(Instr::Store {
        kind,
        source,
        base,
        offset,
    })))
}

/// `addi rd,rs1,N`
#[tactic(auto, unfolding(crate::specs::Statements::compute_immediate))]
fn compute_immediate(operation: ImmediateOperation, rest: &[u8]) -> Result<Line<&[u8]>, LineCause>
    ensures { shown_line result ≡ compute_immediate operation rest.now }
{
    let (rd, source, n) = three_operands(rest)?;
    let rd = register_operand(rd)?;
    let source = register_operand(source)?;
    let immediate = immediate(number_operand(n)?)?;
    Ok(Line::saying(Statement::Plain(Instr::ComputeImmediate {
        operation,
        rd,
        source,
        immediate,
    })))
}

/// `slli rd,rs1,N`
#[tactic(auto, unfolding(crate::specs::Statements::shift_immediate))]
fn shift_immediate(shift: Shift, rest: &[u8]) -> Result<Line<&[u8]>, LineCause>
    ensures { shown_line result ≡ shift_immediate shift rest.now }
{
    let (rd, source, n) = three_operands(rest)?;
    let rd = register_operand(rd)?;
    let source = register_operand(source)?;
    let amount = amount(number_operand(n)?)?;
    Ok(Line::saying(Statement::Plain(Instr::ShiftImmediate {
        shift,
        rd,
        source,
        amount,
    })))
}

/// `add rd,rs1,rs2`
#[tactic(auto, unfolding(crate::specs::Statements::compute))]
fn compute(operation: Operation, rest: &[u8]) -> Result<Line<&[u8]>, LineCause>
    ensures { shown_line result ≡ compute operation rest.now }
{
    let (rd, left, right) = three_operands(rest)?;
    let rd = register_operand(rd)?;
    let left = register_operand(left)?;
    let right = register_operand(right)?;
    Ok(Line::saying(Statement::Plain(Instr::Compute {
        operation,
        rd,
        left,
        right,
    })))
}

/// A statement without operands; BadOperand if there are any.
fn alone(statement: Statement, rest: &[u8]) -> Result<Line<&[u8]>, LineCause>
    ensures { shown_line result ≡ alone statement rest.now }
{
    no_operand(rest)?;
    Ok(Line::saying(statement))
}

/// `mv rd,rs`, which is `addi rd,rs,0`
#[tactic(auto, unfolding(crate::specs::Statements::mv))]
fn mv(rest: &[u8]) -> Result<Line<&[u8]>, LineCause>
    ensures { shown_line result ≡ mv rest.now }
{
    let (rd, source) = two_operands(rest)?;
    let rd = register_operand(rd)?;
    let source = register_operand(source)?;
    Ok(Line::saying(Statement::Plain(Instr::ComputeImmediate {
        operation: ImmediateOperation::Addi,
        rd,
        source,
        immediate: small(0),
    })))
}

/// `j TARGET`, which is `jal x0,TARGET`
#[tactic(auto, unfolding(crate::specs::Statements::j))]
fn j(rest: &[u8]) -> Result<Line<&[u8]>, LineCause>
    ensures { shown_line result ≡ j rest.now }
{
    let target = target_operand(one_operand(rest)?)?;
    jump_to(zero(), target)
}

/// LUI and ADDI that load a number or the address of a label; ImmediateRange if a number is out of range.
fn load_target(rd: Reg, target: Target<&[u8]>) -> Result<Line<&[u8]>, LineCause>
    ensures { shown_line result ≡ load_target rd (target_map (λ label. label.now) target.entry) }
{
    match target {
        Target::Number(n) => {
            let (first, second) = load_number(rd, word_value(n)?);
            Ok(Line::saying(Statement::Pair(first, second)))
        }
        Target::Label(label) => Ok(Line::naming(label, Statement::AddressOf { rd })),
    }
}

/// `li rd,N` and `li rd,LABEL`
#[tactic(auto, unfolding(crate::specs::Statements::li))]
fn li(rest: &[u8]) -> Result<Line<&[u8]>, LineCause>
    ensures { shown_line result ≡ li rest.now }
{
    let (rd, target) = two_operands(rest)?;
    let rd = register_operand(rd)?;
    load_target(rd, target_operand(target)?)
}

/// The one operand of a directive, a number; BadOperand if it is not one number.
fn only_number(rest: &[u8]) -> Result<i64, LineCause>
    ensures { result ≡ only_number rest.now }
{
    number_operand(one_operand(rest)?)
}

/// `.word N`
#[tactic(auto, unfolding(crate::specs::Statements::word_statement))]
fn word_statement(rest: &[u8]) -> Result<Line<&[u8]>, LineCause>
    ensures { shown_line result ≡ word_statement rest.now }
{
    let word = word_value(only_number(rest)?)?;
    Ok(Line::saying(Statement::WordValue(word)))
}

/// `.byte N`
#[tactic(auto, unfolding(crate::specs::Statements::byte_statement))]
fn byte_statement(rest: &[u8]) -> Result<Line<&[u8]>, LineCause>
    ensures { shown_line result ≡ byte_statement rest.now }
{
    let byte = count(255, only_number(rest)?)?;
    Ok(Line::saying(Statement::ByteValue(byte as u8)))
}

/// `.zero N`
#[tactic(auto, unfolding(crate::specs::Statements::zero_statement))]
fn zero_statement(rest: &[u8]) -> Result<Line<&[u8]>, LineCause>
    ensures { shown_line result ≡ zero_statement rest.now }
{
    let bytes = count(65536, only_number(rest)?)?;
    Ok(Line::saying(Statement::ZeroBytes(bytes)))
}

/// `fence`, whose word is 0x0ff0000f.
fn fence() -> Instr
    ensures { result ≡ fence }
{
    Instr::Fence {
        rd: zero(),
        source: zero(),
        immediate: small(0xff),
    }
}

/// `nop`, which is `addi x0,x0,0`.
fn nop() -> Instr
    ensures { result ≡ nop }
{
    Instr::ComputeImmediate {
        operation: ImmediateOperation::Addi,
        rd: zero(),
        source: zero(),
        immediate: small(0),
    }
}

/// `ret`, which is `jalr x0,0(x1)`.
fn ret() -> Instr
    ensures { result ≡ ret }
{
    Instr::Jalr {
        rd: zero(),
        base: return_address(),
        offset: small(0),
    }
}

/// The statement of a keyword with the operands `rest`.
#[tactic(auto, unfolding(crate::specs::Statements::keyword_statement))]
fn keyword_statement(keyword: Keyword, rest: &[u8]) -> Result<Line<&[u8]>, LineCause>
    ensures { shown_line result ≡ keyword_statement keyword rest.now }
{
    match keyword {
        Keyword::Lui => lui(rest),
        Keyword::Auipc => auipc(rest),
        Keyword::Jal => jal(rest),
        Keyword::Jalr => jalr(rest),
        Keyword::Branch(condition) => branch(condition, rest),
        Keyword::Load(kind) => load(kind, rest),
        Keyword::Store(kind) => store(kind, rest),
        Keyword::ComputeImmediate(operation) => compute_immediate(operation, rest),
        Keyword::ShiftImmediate(shift) => shift_immediate(shift, rest),
        Keyword::Compute(operation) => compute(operation, rest),
        Keyword::Fence => alone(Statement::Plain(fence()), rest),
        Keyword::Ecall => alone(Statement::Plain(Instr::Ecall), rest),
        Keyword::Ebreak => alone(Statement::Plain(Instr::Ebreak), rest),
        Keyword::Nop => alone(Statement::Plain(nop()), rest),
        Keyword::Mv => mv(rest),
        Keyword::J => j(rest),
        Keyword::Ret => alone(Statement::Plain(ret()), rest),
        Keyword::Li => li(rest),
        Keyword::TextSection => alone(Statement::Enter(Section::Text), rest),
        Keyword::DataSection => alone(Statement::Enter(Section::Data), rest),
        Keyword::WordDirective => word_statement(rest),
        Keyword::ByteDirective => byte_statement(rest),
        Keyword::ZeroDirective => zero_statement(rest),
    }
}

/// Whether a keyword is allowed in a section.
#[tactic(auto, unfolding(crate::specs::Statements::may_stand_in))]
fn may_stand_in(section: Section, keyword: Keyword) -> bool
    ensures { result ≡ may_stand_in section keyword }
{
    match keyword {
        Keyword::TextSection | Keyword::DataSection | Keyword::WordDirective => true,
        Keyword::ByteDirective | Keyword::ZeroDirective => is_data(section),
        _ => !is_data(section),
    }
}

/// Whether a section is the one of data.
fn is_data(section: Section) -> bool
    ensures { result ≡ is_data section }
{
    match section {
        Section::Text => false,
        Section::Data => true,
    }
}

/// The statement of a keyword with the operands `rest`; BadOperand if the section does not allow it.
#[tactic(auto, unfolding(crate::specs::Statements::statement_of))]
pub(crate) fn statement(
    section: Section,
    keyword: Keyword,
    rest: &[u8],
) -> Result<Line<&[u8]>, LineCause>
    ensures { shown_line result ≡ statement_of section keyword rest.now }
{
    if !may_stand_in(section, keyword) {
        return Err(LineCause::BadOperand);
    }
    keyword_statement(keyword, rest)
}
