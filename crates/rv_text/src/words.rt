//! The words of the text section.

ghost use Rattle.std.specs.Prelude.{◌≡◌, ◌++◌, ◌∷◌, [], pos, ◌-ℤ◌, map, OnOk};
ghost use Rattle.std.specs.Option.{option_map};
ghost use Rattle.std.specs.Result.{result_map_both};
ghost use Rattle.rv_isa.specs.Word.{word_of};
ghost use Rattle.rv_text.specs.Answer.{Answers, ReadsLines};
ghost use Rattle.rv_text.specs.Assembly.{target_place, branch_words, jump_words, words_of_item, item_words};
ghost use Rattle.rv_text.specs.Shown.{shown_item, shown_labels, shown_words};

use crate::fault::{AsmCause, AsmError};
use crate::item::Item;
use indexmap::IndexMap;
use rv_isa::{Condition, Instr, Reg, encode};
use rv_names::{Statement, branch_offset, jump_offset, load_number};
use std::alloc::{AllocError, Global};

/// The words of one statement.
#[derive(Clone, Copy)]
pub enum Words {
    /// No word.
    Nothing,
    /// One.
    One(u32),
    /// Two, in this order.
    Two(u32, u32),
}

/// The place of a label; UnknownLabel if no line defines it.
#[tactic(auto, using(crate::proofs::Places::place_shown))]
fn target_place(labels: &IndexMap<&[u8], u32>, target: Option<&[u8]>) -> Result<u32, AsmCause>
    ensures { result ≡ target_place (shown_labels labels.now.entries) (option_map (λ name. name.now) target.entry) }
{
    let name = target.ok_or(AsmCause::UnknownLabel)?;
    labels.get(name).copied().ok_or(AsmCause::UnknownLabel)
}

/// The distance from an address to a place, in bytes.
fn distance(place: u32, address: u32) -> i64
    ensures { result ≡ pos place -ℤ pos address }
{
    i64::from(place) - i64::from(address)
}

/// The branch over this distance; LabelRange if the distance is out of range or odd.
fn branch(condition: Condition, left: Reg, right: Reg, distance: i64) -> Result<Words, AsmCause>
    ensures { result_map_both shown_words (λ cause. cause) result ≡ branch_words condition left right distance }
{
    let offset = branch_offset(distance).ok_or(AsmCause::LabelRange)?;
    Ok(Words::One(encode(&Instr::Branch {
        condition,
        left,
        right,
        offset,
    })))
}

/// JAL over this distance; LabelRange if the distance is out of range or odd.
fn jump(rd: Reg, distance: i64) -> Result<Words, AsmCause>
    ensures { result_map_both shown_words (λ cause. cause) result ≡ jump_words rd distance }
{
    let offset = jump_offset(distance).ok_or(AsmCause::LabelRange)?;
    Ok(Words::One(encode(&Instr::Jal { rd, offset })))
}

/// The words of two instructions.
fn pair(first: Instr, second: Instr) -> Words
    ensures { shown_words result ≡ word_of first ∷ word_of second ∷ [] }
{
    Words::Two(encode(&first), encode(&second))
}

/// The words of a statement of text; UnknownLabel or LabelRange if its label is at fault.
#[tactic(auto, unfolding(crate::specs::Assembly::words_of_item))]
fn words_at(labels: &IndexMap<&[u8], u32>, item: &Item<'_>) -> Result<Words, AsmCause>
    ensures { result_map_both shown_words (λ cause. cause) result ≡ words_of_item (shown_labels labels.now.entries) (shown_item item.now) }
{
    match item.statement {
        Statement::Plain(instr) => Ok(Words::One(encode(&instr))),
        Statement::Pair(first, second) => Ok(pair(first, second)),
        Statement::WordValue(word) => Ok(Words::One(word)),
        Statement::BranchTo {
            condition,
            left,
            right,
        } => {
            let place = target_place(labels, item.target)?;
            branch(condition, left, right, distance(place, item.address))
        }
        Statement::JumpTo { rd } => {
            let place = target_place(labels, item.target)?;
            jump(rd, distance(place, item.address))
        }
        Statement::AddressOf { rd } => {
            let (first, second) = load_number(rd, target_place(labels, item.target)?);
            Ok(pair(first, second))
        }
        _ => Ok(Words::Nothing),
    }
}

/// Appends words to text; refused if memory ran out.
fn push(text: &mut Vec<u32>, words: Words) -> Result<(), AllocError>
    ensures { OnOk result (text.new.items ≡ text.old.items ++ shown_words words) }
{
    match words {
        Words::Nothing => Ok(()),
        Words::One(word) => {
            text.push(word)?;
            Ok(())
        }
        Words::Two(first, second) => {
            text.push(first)?;
            text.push(second)?;
            Ok(())
        }
    }
}

/// Appends the words of a statement; UnknownLabel, LabelRange, or Memory if memory ran out.
fn add_words(
    text: &mut Vec<u32>,
    labels: &IndexMap<&[u8], u32>,
    item: &Item<'_>,
) -> Result<(), AsmCause>
    ensures { Answers (λ _. text.new.items) result (result_map_both (λ words. text.old.items ++ words) (λ cause. cause) (words_of_item (shown_labels labels.now.entries) (shown_item item.now))) }
{
    push(text, words_at(labels, item)?)?;
    Ok(())
}

/// The words of all statements of text, or the first fault of a label.
pub fn words_of(
    alloc: Global,
    labels: &IndexMap<&[u8], u32>,
    items: &[Item<'_>],
) -> Result<Vec<u32>, AsmError>
    ensures { ReadsLines (λ text. text.items) result (item_words (shown_labels labels.now.entries) (map shown_item items.now)) }
{
    let mut text = Vec::new(alloc);
    for item in items {
        if let Err(cause) = add_words(&mut text, labels, item) {
            return Err(AsmError {
                line: item.line,
                cause,
            });
        }
    }
    Ok(text)
}
