//! The fields of a line.

ghost use Rattle.std.specs.Prelude.{◌≡◌, ◌<◌, ◌≤◌, ◌%◌, [], ◌∷◌, length, map, nat_lt, Some, None, IfOk, IfSome, MatchOption, if◌then◌else◌};
ghost use Rattle.std.specs.Result.{result_map_both};
ghost use Rattle.std.specs.String.{string_bytes};
ghost use Rattle.std.specs.List.{list_all};
ghost use Rattle.block_file.specs.Line.{cut, sum_of_digits, decimal_of, field_bytes, hex_of, field_key, path_of, is_path_byte, is_lower_digit};
ghost use Rattle.std.specs.Char.{is_ascii_digit};
ghost use Rattle.block_file.specs.Answer.{GivesValue};

use crate::fault::Cause;
use crate::hex_text;
use crate::scan::place_of;
use rv_ledger::{Key, VALUE_LIMIT, Value};
use std::alloc::{AllocError, Global};
use std::str;

/// The greatest number of digits of a decimal.
const DIGITS: usize = 10;

/// The parts of a text between the occurrences of a byte; refused if memory ran out.
pub fn parts(alloc: Global, text: &[u8], byte: u8) -> Result<Vec<&[u8]>, AllocError>
    ensures { IfOk result (λ v. map (λ part. part.now) v.items ≡ cut byte text.now) }
{
    text.split(|b| *b == byte).collect(alloc)
}

/// What a text has before the first occurrence of a byte, and what it has after it. None if the byte does not occur.
pub(crate) fn cut_once(text: &[u8], byte: u8) -> Option<(&[u8], &[u8])>
    ensures parts { MatchOption result (cut byte text.now ≡ text.now ∷ []) (λ parts. cut byte text.now ≡ parts.0.now ∷ cut byte parts.1.now) }
    ensures shorter { IfSome result (λ parts. length parts.1.now < length text.now) }
{
    match place_of(text, byte) {
        Some(place) => Some((&text[..place], &text[place + 1..])),
        None => None,
    }
}

/// The number of a decimal: 1 to 10 digits without a leading zero. None for any other text.
pub fn decimal(text: &[u8]) -> Option<u64>
    ensures { result ≡ decimal_of text.now }
{
    if text.is_empty() || text.len() > DIGITS || (text.len() > 1 && text[0] == b'0') {
        return None;
    }
    number(text)
}

/// The number that at most 10 digits write, None if a byte is no digit.
fn number(text: &[u8]) -> Option<u64>
    requires { length text.now ≤ 10 }
    ensures { result ≡ (if list_all is_ascii_digit text.now then Some (sum_of_digits text.now) else None) }
{
    let mut number = 0;
    for byte in text {
        if !byte.is_ascii_digit() {
            return None;
        }
        number = number * 10 + u64::from(*byte - b'0');
    }
    Some(number)
}

/// Whether each byte is allowed in a path.
fn is_path(text: &[u8]) -> bool
    ensures { result ≡ list_all is_path_byte text.now }
{
    text.iter().all(|byte| 0x21 <= *byte && *byte <= 0x7e)
}

/// A path of bytes 0x21 to 0x7e. Otherwise BadLine, or Memory if memory ran out.
pub(crate) fn path(alloc: Global, text: &[u8]) -> Result<String, Cause>
    ensures { GivesValue string_bytes result (path_of text.now) }
{
    if !is_path(text) {
        return Err(Cause::BadLine);
    }
    match str::from_utf8(text) {
        Ok(path) => Ok(String::from_str(alloc, path)?),
        Err(_) => unreachable!(),
    }
}

/// Whether each byte is a hex digit, in lower case.
pub fn is_lower_hex(text: &[u8]) -> bool
    ensures { result ≡ list_all is_lower_digit text.now }
{
    text.iter().all(|byte| byte.is_ascii_digit() || (b'a' <= *byte && *byte <= b'f'))
}

/// The bytes that a text gives in lower-case hex; `-` gives none. Otherwise BadHex, or Memory if memory ran out.
pub(crate) fn hex_bytes(alloc: Global, text: &[u8]) -> Result<Vec<u8>, Cause>
    ensures { GivesValue (λ v. v.items) result (field_bytes text.now) }
{
    if text == b"-".as_slice() {
        return Ok(Vec::new(alloc));
    }
    if text.len() % 2 != 0 {
        return Err(Cause::BadHex);
    }
    let mut bytes = vec![in alloc; 0; text.len() / 2]?;
    if !hex_text::decode(text, bytes.as_mut_slice()) {
        return Err(Cause::BadHex);
    }
    Ok(bytes)
}

/// The value that a text gives in lower-case hex; `-` gives the empty one, and None stands for more than 256 bytes.
/// BadHex if the text is no such hex.
pub(crate) fn value(text: &[u8]) -> Result<Option<Value>, Cause>
    ensures { result ≡ result_map_both (λ bytes. if nat_lt 256 (length bytes) then None else Some bytes) (λ cause. cause) (field_bytes text.now) }
{
    if text == b"-".as_slice() {
        return Ok(Some(Value::empty()));
    }
    if text.len() % 2 != 0 {
        return Err(Cause::BadHex);
    }
    if text.len() <= 2 * VALUE_LIMIT {
        return short_value(text);
    }
    if !is_lower_hex(text) {
        return Err(Cause::BadHex);
    }
    Ok(None)
}

/// The value of at most 256 bytes that pairs of lower-case hex digits give, BadHex if a byte is no such digit.
fn short_value(text: &[u8]) -> Result<Option<Value>, Cause>
    requires even { length text.now % 2 ≡ 0 }
    requires short { length text.now ≤ 512 }
    ensures value { result ≡ result_map_both Some (λ cause. cause) (hex_of text.now) }
    ensures fits { IfOk result (λ value. IfSome value (λ bytes. length bytes ≤ 256)) }
{
    let count = text.len() / 2;
    let mut room = [0; VALUE_LIMIT];
    if !hex_text::decode(text, &mut room[..count]) {
        return Err(Cause::BadHex);
    }
    Ok(Value::of(&room[..count]))
}

/// The key that 64 lower-case hex digits give, BadHex for any other text.
pub fn key(text: &[u8]) -> Result<Key, Cause>
    ensures { result ≡ field_key text.now }
{
    let mut bytes = [0; 32];
    if text.len() != 64 || !hex_text::decode(text, &mut bytes) {
        return Err(Cause::BadHex);
    }
    Ok(Key::new(bytes))
}
