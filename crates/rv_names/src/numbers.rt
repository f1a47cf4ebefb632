//! Numbers in source.

ghost use Rattle.std.specs.Prelude.{◌≡◌, ◌<◌, ◌≤◌, ◌^◌, IfSome, IsTrue, length};
ghost use Rattle.std.specs.List.{list_all};
ghost use Rattle.std.specs.Char.{is_digit};
ghost use Rattle.std.specs.Str.Parse.{digits_value};
ghost use Rattle.rv_names.specs.Numbers.{is_numeral, numeral_of, number_of};

use std::str;

/// Whether each byte is a digit in the radix.
fn are_digits(radix: u32, digits: &[u8]) -> bool
    requires low { 2 ≤ radix }
    requires high { radix ≤ 16 }
    ensures { result ≡ list_all (λ c. is_digit c radix) digits.now }
{
    digits.iter().all(|byte| char::from(*byte).is_digit(radix))
}

/// The number that 1 to 10 digits write; it is never `None`.
fn value(radix: u32, digits: &[u8]) -> Option<u64>
    requires low { 2 ≤ radix }
    requires high { radix ≤ 16 }
    requires digits { IsTrue (list_all (λ c. is_digit c radix) digits.now) }
    requires some { 0 < length digits.now }
    requires short { length digits.now ≤ 10 }
    ensures value { result ≡ Some (digits_value radix digits.now) }
    ensures small { digits_value radix digits.now < 2 ^ 40 }
{
    let Ok(text) = str::from_utf8(digits) else {
        return None;
    };
    u64::from_str_radix(text, radix).ok()
}

/// The number that 1 to `most` digits write; `None` for any other text.
#[tactic(auto, unfolding(crate::specs::Numbers::numeral_of))]
fn numeral(radix: u32, most: usize, digits: &[u8]) -> Option<u64>
    requires low { 2 ≤ radix }
    requires high { radix ≤ 16 }
    requires most { most ≤ 10 }
    ensures value { result ≡ numeral_of radix most digits.now }
    ensures small { IfSome result (λ n. n < 2 ^ 40) }
{
    if digits.is_empty() || digits.len() > most || !are_digits(radix, digits) {
        return None;
    }
    value(radix, digits)
}

/// The number that a text writes: 1 to 10 decimal digits, with or without `-` before them, or `0x` and
/// 1 to 8 hex digits of either case. `None` for any other text.
#[tactic(auto, unfolding(crate::specs::Numbers::number_of))]
pub fn number(text: &[u8]) -> Option<i64>
    ensures { result ≡ number_of text.now }
{
    if text.starts_with(b"0x".as_slice()) {
        return Some(numeral(16, 8, &text[2..])? as i64);
    }
    if text.starts_with(b"-".as_slice()) {
        return Some(-(numeral(10, 10, &text[1..])? as i64));
    }
    Some(numeral(10, 10, text)? as i64)
}
