//! The operands of a line of source.

ghost use Rattle.std.specs.Prelude.{◌≡◌, ◌≤◌, ◌==◌, length};
ghost use Rattle.std.specs.Result.{result_map_both};
ghost use Rattle.std.specs.List.{list_all, list_any, prefix_len, suffix_len, position, before_first, after_first};
ghost use Rattle.rv_names.specs.Operands.{is_blank, is_name_byte, trimmed, without_blanks_before, without_blanks_behind, first_operand, last_operand, no_operand, one_operand, two_operands, three_operands, is_name, register_operand, number_operand, inside_parenthesis, place_operand, target_operand};
ghost use Rattle.rv_names.specs.Shown.{target_map};

use crate::LineCause;
use crate::numbers::number;
use crate::registers::register;
use crate::target::Target;
use rv_isa::Reg;

/// Whether a byte is a blank, that is, a space or a tab.
pub(crate) fn is_blank(byte: u8) -> bool
    ensures { result ≡ is_blank byte }
{
    byte == b' ' || byte == b'\t'
}

/// How many blanks a text begins with.
fn blanks_before(text: &[u8]) -> usize
    ensures count { result ≡ prefix_len is_blank text.now }
    ensures within { result ≤ length text.now }
{
    text.iter().take_while(|byte| is_blank(**byte)).count()
}

/// How many blanks a text ends with.
fn blanks_behind(text: &[u8]) -> usize
    ensures count { result ≡ suffix_len is_blank text.now }
    ensures within { result ≤ length text.now }
{
    text.iter()
        .rev()
        .take_while(|byte| is_blank(**byte))
        .count()
}

/// A text without the blanks at its beginning.
fn without_blanks_before(text: &[u8]) -> &[u8]
    ensures { result.now ≡ without_blanks_before text.now }
{
    &text[blanks_before(text)..]
}

/// A text without the blanks at its end.
fn without_blanks_behind(text: &[u8]) -> &[u8]
    ensures { result.now ≡ without_blanks_behind text.now }
{
    &text[..text.len() - blanks_behind(text)]
}

/// A text without the blanks at its beginning and its end. Blanks are space and tab.
#[tactic(auto, unfolding(crate::specs::Operands::trimmed))]
pub fn trimmed(text: &[u8]) -> &[u8]
    ensures { result.now ≡ trimmed text.now }
{
    without_blanks_behind(without_blanks_before(text))
}

/// The first place of a byte in a text; `None` if the text does not have it.
pub(crate) fn place_of(text: &[u8], byte: u8) -> Option<usize>
    ensures { result ≡ position (λ b. b == byte) text.now }
{
    text.iter().position(|b| *b == byte)
}

/// What comes before the first such byte; the whole text if there is none.
pub(crate) fn before(text: &[u8], byte: u8) -> &[u8]
    ensures { result.now ≡ before_first (λ b. b == byte) text.now }
{
    match place_of(text, byte) {
        Some(place) => &text[..place],
        None => text,
    }
}

/// What comes after the first such byte; nothing if there is none.
pub(crate) fn behind(text: &[u8], byte: u8) -> &[u8]
    ensures { result.now ≡ after_first (λ b. b == byte) text.now }
{
    match place_of(text, byte) {
        Some(place) => &text[place + 1..],
        None => &text[text.len()..],
    }
}

/// Whether a text contains a byte.
pub(crate) fn has(text: &[u8], byte: u8) -> bool
    ensures { result ≡ list_any (λ b. b == byte) text.now }
{
    text.contains(&byte)
}

/// The first of several operands, and the text of the others; BadOperand if there is no comma.
fn first_operand(text: &[u8]) -> Result<(&[u8], &[u8]), LineCause>
    ensures { result_map_both (λ p. (p.0.now, p.1.now)) (λ cause. cause) result ≡ first_operand text.now }
{
    if !has(text, b',') {
        return Err(LineCause::BadOperand);
    }
    Ok((trimmed(before(text, b',')), behind(text, b',')))
}

/// The last operand; BadOperand if there is a comma.
fn last_operand(text: &[u8]) -> Result<&[u8], LineCause>
    ensures { result_map_both (λ a. a.now) (λ cause. cause) result ≡ last_operand text.now }
{
    if has(text, b',') {
        return Err(LineCause::BadOperand);
    }
    Ok(trimmed(text))
}

/// Checks that there is no operand; BadOperand if there is one.
#[tactic(auto, unfolding(crate::specs::Operands::no_operand))]
pub(crate) fn no_operand(text: &[u8]) -> Result<(), LineCause>
    ensures { result ≡ no_operand text.now }
{
    if text.is_empty() {
        return Ok(());
    }
    Err(LineCause::BadOperand)
}

/// The one operand; BadOperand if there is none or more than one.
#[tactic(auto, unfolding(crate::specs::Operands::one_operand))]
pub(crate) fn one_operand(text: &[u8]) -> Result<&[u8], LineCause>
    ensures { result_map_both (λ a. a.now) (λ cause. cause) result ≡ one_operand text.now }
{
    if text.is_empty() {
        return Err(LineCause::BadOperand);
    }
    last_operand(text)
}

/// The two operands; BadOperand if there is another number of them.
#[tactic(auto, unfolding(crate::specs::Operands::two_operands))]
pub(crate) fn two_operands(text: &[u8]) -> Result<(&[u8], &[u8]), LineCause>
    ensures { result_map_both (λ p. (p.0.now, p.1.now)) (λ cause. cause) result ≡ two_operands text.now }
{
    let (first, rest) = first_operand(text)?;
    let last = last_operand(rest)?;
    Ok((first, last))
}

/// The three operands; BadOperand if there is another number of them.
#[tactic(auto, unfolding(crate::specs::Operands::three_operands))]
pub(crate) fn three_operands(text: &[u8]) -> Result<(&[u8], &[u8], &[u8]), LineCause>
    ensures { result_map_both (λ p. (p.0.now, p.1.now, p.2.now)) (λ cause. cause) result ≡ three_operands text.now }
{
    let (first, rest) = first_operand(text)?;
    let (second, rest) = first_operand(rest)?;
    let last = last_operand(rest)?;
    Ok((first, second, last))
}

/// Whether a byte is allowed in a name.
fn is_name_byte(byte: u8) -> bool
    ensures { result ≡ is_name_byte byte }
{
    byte.is_ascii_alphanumeric() || byte == b'_'
}

/// Whether each byte is allowed in a name.
fn are_name_bytes(text: &[u8]) -> bool
    ensures { result ≡ list_all is_name_byte text.now }
{
    text.iter().all(|byte| is_name_byte(*byte))
}

/// Whether a text is a name: one or more ASCII letters, ASCII digits and `_`, and the first is not a digit.
#[tactic(auto, unfolding(crate::specs::Operands::is_name))]
pub(crate) fn is_name(text: &[u8]) -> bool
    ensures { result ≡ is_name text.now }
{
    if text.is_empty() || text[0].is_ascii_digit() {
        return false;
    }
    are_name_bytes(text)
}

/// A register; BadOperand if the text names none.
pub(crate) fn register_operand(text: &[u8]) -> Result<Reg, LineCause>
    ensures { result ≡ register_operand text.now }
{
    register(text).ok_or(LineCause::BadOperand)
}

/// A number; BadOperand if the text writes none.
pub(crate) fn number_operand(text: &[u8]) -> Result<i64, LineCause>
    ensures { result ≡ number_operand text.now }
{
    number(text).ok_or(LineCause::BadOperand)
}

/// The text without the closing parenthesis at its end; BadOperand if it has none there.
fn inside_parenthesis(text: &[u8]) -> Result<&[u8], LineCause>
    ensures { result_map_both (λ a. a.now) (λ cause. cause) result ≡ inside_parenthesis text.now }
{
    if text.is_empty() || text[text.len() - 1] != b')' {
        return Err(LineCause::BadOperand);
    }
    Ok(&text[..text.len() - 1])
}

/// The number and the register of `N(REGISTER)`; BadOperand for any other text.
#[tactic(auto, unfolding(crate::specs::Operands::place_operand))]
pub(crate) fn place_operand(text: &[u8]) -> Result<(i64, Reg), LineCause>
    ensures { result ≡ place_operand text.now }
{
    let number = number_operand(before(text, b'('))?;
    let name = inside_parenthesis(behind(text, b'('))?;
    let base = register_operand(name)?;
    Ok((number, base))
}

/// A number or a name; BadOperand for any other text.
#[tactic(auto, unfolding(crate::specs::Operands::target_operand))]
pub(crate) fn target_operand(text: &[u8]) -> Result<Target<&[u8]>, LineCause>
    ensures { result_map_both (target_map (λ label. label.now)) (λ cause. cause) result ≡ target_operand text.now }
{
    if let Some(n) = number(text) {
        return Ok(Target::Number(n));
    }
    if !is_name(text) {
        return Err(LineCause::BadOperand);
    }
    Ok(Target::Label(text))
}
