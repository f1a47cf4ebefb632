//! The commands of `debug`, and the lines that give them.

ghost use Rattle.std.specs.Prelude.{◌≡◌, map, IfOk};
ghost use Rattle.debugger.specs.Command.{bytes_command, change_command, command_of_fields, heard_of, moment_of, more_command_of_fields, more_operand_command, more_word_command, run_to_command, typed_address, typed_byte_count, word_command};

use block_file::fields::{decimal, is_lower_hex, key, parts};
use rv_ledger::Key;
use std::alloc::{AllocError, Global};

/// The greatest number of bytes that one line shows.
const BYTE_LIMIT: u64 = 4096;

/// The greatest moment that a line can name.
const MOMENT_LIMIT: u64 = 0xffff_ffff;

/// A command of `debug`.
#[derive(Clone, Copy, Debug, PartialEq, Eq)]
pub enum Command {
    /// Go to the next moment.
    Step,
    /// Go to the moment before.
    Back,
    /// Go to the first later moment with this pc, or to the last moment.
    RunTo(u32),
    /// Show the moment, its pc and the word there.
    Where,
    /// Show the registers.
    Registers,
    /// Show bytes of memory: the address of the first one, and their number, at most 4,096.
    Bytes(u32, u32),
    /// End the session.
    Quit,
    /// Go to this moment.
    GoTo(u32),
    /// Go to the first later moment at which one of these bytes of memory has changed, or to the last moment: the address of
    /// the first byte, and the number of bytes, at most 4,096.
    RunToChange(u32, u32),
    /// Show how the call ends.
    End,
    /// Show what a READ of this key would find.
    Value(Key),
    /// Show the help: each line, and what it does.
    Help,
}

/// The command of a line without its LF, or None if the line is not a command. If `has_more` is true, the lines of `--more` are
/// commands, too. Refused if memory ran out.
pub(crate) fn heard_of(
    alloc: Global,
    has_more: bool,
    line: &[u8],
) -> Result<Option<Command>, AllocError>
    ensures { IfOk result (λ command. command ≡ heard_of has_more line.now) }
{
    let fields = parts(alloc, line, b' ')?;
    match command_of_fields(fields.as_slice()) {
        None if has_more => Ok(more_command_of_fields(fields.as_slice())),
        command => Ok(command),
    }
}

/// The command of the fields of a line.
fn command_of_fields(fields: &[&[u8]]) -> Option<Command>
    ensures { result ≡ command_of_fields (map (λ field. field.now) fields.now) }
{
    match *fields {
        [word] => word_command(word),
        [word, address] => run_to_command(word, address),
        [word, address, count] => bytes_command(word, address, count),
        _ => None,
    }
}

/// The command of a line of one field.
fn word_command(word: &[u8]) -> Option<Command>
    ensures { result ≡ word_command word.now }
{
    if word == b"s".as_slice() {
        return Some(Command::Step);
    }
    if word == b"b".as_slice() {
        return Some(Command::Back);
    }
    if word == b"w".as_slice() {
        return Some(Command::Where);
    }
    if word == b"r".as_slice() {
        return Some(Command::Registers);
    }
    if word == b"q".as_slice() {
        return Some(Command::Quit);
    }
    None
}

/// The command of a line `g HHHHHHHH`.
fn run_to_command(word: &[u8], address: &[u8]) -> Option<Command>
    ensures { result ≡ run_to_command word.now address.now }
{
    if word != b"g".as_slice() {
        return None;
    }
    match address_of(address) {
        Some(address) => Some(Command::RunTo(address)),
        None => None,
    }
}

/// The command of a line `m HHHHHHHH LEN`.
fn bytes_command(word: &[u8], address: &[u8], count: &[u8]) -> Option<Command>
    ensures { result ≡ bytes_command word.now address.now count.now }
{
    if word != b"m".as_slice() {
        return None;
    }
    match (address_of(address), count_of(count)) {
        (Some(address), Some(count)) => Some(Command::Bytes(address, count)),
        _ => None,
    }
}

/// The address that eight lower-case hex digits give, the highest first.
fn address_of(text: &[u8]) -> Option<u32>
    ensures { result ≡ typed_address text.now }
{
    let mut bytes = [0; 4];
    if !is_lower_hex(text) || hex::decode_to_slice(text, &mut bytes).is_err() {
        return None;
    }
    Some(u32::from_be_bytes(bytes))
}

/// The number of bytes that a decimal up to 4096 gives.
fn count_of(text: &[u8]) -> Option<u32>
    ensures { result ≡ typed_byte_count text.now }
{
    match decimal(text) {
        Some(count) if count <= BYTE_LIMIT => Some(count as u32),
        _ => None,
    }
}

/// The command of `--more` that the fields of a line give.
fn more_command_of_fields(fields: &[&[u8]]) -> Option<Command>
    ensures { result ≡ more_command_of_fields (map (λ field. field.now) fields.now) }
{
    match *fields {
        [] => None,
        [word] => more_word_command(word),
        [word, operand] => more_operand_command(word, operand),
        [word, address, count] => change_command(word, address, count),
        [_, _, _, _, ..] => None,
    }
}

/// The command of a line `e` or `h`.
fn more_word_command(word: &[u8]) -> Option<Command>
    ensures { result ≡ more_word_command word.now }
{
    if word == b"e".as_slice() {
        return Some(Command::End);
    }
    if word == b"h".as_slice() {
        return Some(Command::Help);
    }
    None
}

/// The command of a line `t MOMENT` or `v KEY`.
fn more_operand_command(word: &[u8], operand: &[u8]) -> Option<Command>
    ensures { result ≡ more_operand_command word.now operand.now }
{
    if word == b"t".as_slice() {
        return match moment_of(operand) {
            Some(moment) => Some(Command::GoTo(moment)),
            None => None,
        };
    }
    if word != b"v".as_slice() {
        return None;
    }
    match key(operand) {
        Ok(key) => Some(Command::Value(key)),
        Err(_) => None,
    }
}

/// The command of a line `c HHHHHHHH LEN`.
fn change_command(word: &[u8], address: &[u8], count: &[u8]) -> Option<Command>
    ensures { result ≡ change_command word.now address.now count.now }
{
    if word != b"c".as_slice() {
        return None;
    }
    match (address_of(address), count_of(count)) {
        (Some(address), Some(count)) => Some(Command::RunToChange(address, count)),
        _ => None,
    }
}

/// The moment that a decimal up to 4294967295 gives.
fn moment_of(text: &[u8]) -> Option<u32>
    ensures { result ≡ moment_of text.now }
{
    match decimal(text) {
        Some(moment) if moment <= MOMENT_LIMIT => Some(moment as u32),
        _ => None,
    }
}
