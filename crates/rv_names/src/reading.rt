//! Reading a line of source.

ghost use Rattle.std.specs.Prelude.{◌≡◌, ◌==◌};
ghost use Rattle.std.specs.Option.{option_map};
ghost use Rattle.std.specs.Result.{result_map_both};
ghost use Rattle.std.specs.List.{position, after_first};
ghost use Rattle.rv_names.specs.Operands.{is_blank};
ghost use Rattle.rv_names.specs.Shown.{shown_line};
ghost use Rattle.rv_names.specs.Line.{content_of, label_of, body_of, word_of_body, rest_of_body, command_of, said_by, line_of};

use crate::keywords::keyword_of;
use crate::operands::{before, behind, has, is_blank, is_name, trimmed};
use crate::statements::statement;
use crate::{Keyword, Line, LineCause, Section, Statement};

/// A line without its comment, and without the blanks at its beginning and its end.
#[tactic(auto, unfolding(crate::specs::Line::content_of))]
fn content(text: &[u8]) -> &[u8]
    ensures { result.now ≡ content_of text.now }
{
    trimmed(before(text, b'#'))
}

/// The label, if there is one; BadOperand if it is not a name.
#[tactic(auto, unfolding(crate::specs::Line::label_of))]
fn label(content: &[u8]) -> Result<Option<&[u8]>, LineCause>
    ensures { result_map_both (option_map (λ label. label.now)) (λ cause. cause) result ≡ label_of content.now }
{
    if !has(content, b':') {
        return Ok(None);
    }
    let label = before(content, b':');
    if !is_name(label) {
        return Err(LineCause::BadOperand);
    }
    Ok(Some(label))
}

/// What comes after the label; the whole content if there is no label.
#[tactic(auto, unfolding(crate::specs::Line::body_of))]
fn body(content: &[u8]) -> &[u8]
    ensures { result.now ≡ body_of content.now }
{
    if !has(content, b':') {
        return content;
    }
    trimmed(behind(content, b':'))
}

/// The place of the first blank; `None` if there is none.
fn first_blank(body: &[u8]) -> Option<usize>
    ensures { result ≡ position is_blank body.now }
{
    body.iter().position(|byte| is_blank(*byte))
}

/// The first word of a statement.
fn first_word(body: &[u8]) -> &[u8]
    ensures { result.now ≡ word_of_body body.now }
{
    match first_blank(body) {
        Some(place) => &body[..place],
        None => body,
    }
}

/// What comes after the first blank; nothing if there is none.
fn behind_word(body: &[u8]) -> &[u8]
    ensures { result.now ≡ after_first is_blank body.now }
{
    match first_blank(body) {
        Some(place) => &body[place + 1..],
        None => &body[body.len()..],
    }
}

/// The keyword of a statement; `None` if the statement is empty, UnknownMnemonic if its first word is neither a
/// mnemonic nor a directive.
#[tactic(auto, unfolding(crate::specs::Line::command_of))]
fn command(body: &[u8]) -> Result<Option<Keyword>, LineCause>
    ensures { result ≡ command_of body.now }
{
    if body.is_empty() {
        return Ok(None);
    }
    let keyword = keyword_of(first_word(body)).ok_or(LineCause::UnknownMnemonic)?;
    Ok(Some(keyword))
}

/// The statement of a keyword, or the empty statement if there is no keyword.
fn said(section: Section, body: &[u8], command: Option<Keyword>) -> Result<Line<&[u8]>, LineCause>
    ensures { shown_line result ≡ said_by section body.now command }
{
    match command {
        Some(keyword) => statement(section, keyword, trimmed(behind_word(body))),
        None => Ok(Line::saying(Statement::Empty)),
    }
}

/// What a line of source says. `text` is the line without its line feed, and `section` is the section that is in
/// force. Names are borrowed from `text`. Refused with the least cause that holds of the line by itself:
/// UnknownMnemonic if the first word is neither a mnemonic nor a directive, otherwise BadOperand, otherwise
/// ImmediateRange.
#[tactic(auto, unfolding(crate::specs::Line::line_of))]
pub fn read_line(section: Section, text: &[u8]) -> Result<Line<&[u8]>, LineCause>
    ensures { shown_line result ≡ line_of section text.now }
{
    let content = content(text);
    let body = body(content);
    let command = command(body)?;
    let label = label(content)?;
    let said = said(section, body, command)?;
    Ok(Line { label, ..said })
}
