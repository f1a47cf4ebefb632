//! Block files.

ghost use Rattle.std.specs.Prelude.{◌≡◌, ◌≤◌, ◌∷◌, []};
ghost use Rattle.std.specs.Option.{option_map_or};
ghost use Rattle.std.specs.Result.{result_map_both};
ghost use Rattle.block_file.specs.Answer.{ReadsFile};
ghost use Rattle.block_file.specs.Block.{block_value, parts_after, parsed_block, lines_from, rules_of, second_format};
ghost use Rattle.block_file.specs.Line.{cut};
ghost use Rattle.block_file.specs.Reader.{parsed};

use crate::block_text::BlockText;
use crate::fault::{BlockFault, Cause};
use crate::fields;
use crate::reader::Reader;
use rv_ledger::Rules;
use std::alloc::Global;

/// What a block file of format 1 or 2 says, or its first faulty line with the least cause on it (BadHeader to Limit).
/// Refused as Memory if memory runs out; then no earlier line has a fault.
pub fn parse(alloc: Global, bytes: &[u8]) -> Result<BlockText, BlockFault>
    ensures { ReadsFile block_value result (parsed_block bytes.now) }
{
    let (header, body) = first_line(bytes);
    if header == b"rvblock 1".as_slice() {
        return behind(alloc, 1, Rules::One, body);
    }
    if header == b"rvblock 2".as_slice() {
        return second_format(alloc, body);
    }
    Err(fault(1, Cause::BadHeader))
}

/// The first line without its line feed, and what comes after the line feed. None if there is no line feed.
fn first_line(text: &[u8]) -> (&[u8], Option<&[u8]>)
    ensures { cut 10 text.now ≡ result.0.now ∷ option_map_or (λ rest. cut 10 rest.now) result.1 [] }
{
    match fields::cut_once(text, b'\n') {
        Some((line, rest)) => (line, Some(rest)),
        None => (text, None),
    }
}

/// What a text after the line `rvblock 2` says.
fn second_format(alloc: Global, text: Option<&[u8]>) -> Result<BlockText, BlockFault>
    ensures { ReadsFile block_value result (second_format (option_map_or (λ rest. cut 10 rest.now) text.entry [])) }
{
    let Some(text) = text else {
        return Err(fault(1, Cause::BadLine));
    };
    let (line, body) = first_line(text);
    match rules_of(line) {
        Some(rules) => behind(alloc, 2, rules, body),
        None => Err(fault(2, Cause::BadLine)),
    }
}

/// The rules that a `gas` line names, None for any other line.
fn rules_of(line: &[u8]) -> Option<Rules>
    ensures { result ≡ rules_of line.now }
{
    if line == b"gas 1".as_slice() {
        return Some(Rules::One);
    }
    if line == b"gas 2".as_slice() {
        return Some(Rules::Two);
    }
    if line == b"gas 3".as_slice() {
        return Some(Rules::Three);
    }
    None
}

/// What a text says that follows line 1 or 2, the last line before the body.
fn behind(
    alloc: Global,
    line: usize,
    rules: Rules,
    text: Option<&[u8]>,
) -> Result<BlockText, BlockFault>
    requires { line ≤ 2 }
    ensures { ReadsFile block_value result (parts_after line rules (option_map_or (λ rest. cut 10 rest.now) text.entry [])) }
{
    match text {
        Some(text) => body(alloc, line + 1, rules, text),
        None => Err(fault(line, Cause::BadLine)),
    }
}

/// What a body says, the first line of which is line `first`. If memory for the storage's tree runs out, that line is
/// refused as Memory.
fn body(alloc: Global, first: usize, rules: Rules, text: &[u8]) -> Result<BlockText, BlockFault>
    requires { first ≤ 3 }
    ensures { ReadsFile block_value result (result_map_both (λ s. s.block) (λ fault. fault) (lines_from first rules (cut 10 text.now))) }
{
    let reader = body_of(alloc, first, rules, text)?;
    match reader.finish() {
        Ok(block) => Ok(block),
        Err(AllocError) => Err(fault(first, Cause::Memory)),
    }
}

/// What the lines of a text say, the first of which is line `first`.
fn body_of(alloc: Global, first: usize, rules: Rules, text: &[u8]) -> Result<Reader, BlockFault>
    requires { first ≤ 3 }
    ensures { ReadsFile parsed result (lines_from first rules (cut 10 text.now)) }
{
    let mut reader = Reader::new(alloc, rules);
    let mut line = first;
    let mut rest = text;
    'lines: while let Some((part, behind)) = fields::cut_once(rest, b'\n') {
        if let Err(cause) = reader.read(alloc, part) {
            return Err(fault(line, cause));
        }
        line += 1;
        rest = behind;
    }
    if !rest.is_empty() {
        return Err(fault(line, Cause::BadLine));
    }
    Ok(reader)
}

/// The fault of a line.
fn fault(line: usize, cause: Cause) -> BlockFault
    ensures { result ≡ record { line = line; cause = cause } }
{
    BlockFault { line, cause }
}
