//! Numbers and bytes in digits, at the end of a text.

ghost use Rattle.std.specs.Prelude.{◌≡◌, ◌≤◌, ◌+◌, ◌/◌, ◌%◌, ◌∷◌, ◌++◌, [], drop, length, map, replicate, slice_index, take};
ghost use Rattle.std.specs.Fmt.{decimal};
ghost use Rattle.std.specs.Int.{to_be_bytes, w32};
ghost use Rattle.std.specs.List.{flat_map};
ghost use Rattle.hex.specs.Hex.{encode_lower, lower_digits};
ghost use Rattle.receipts.specs.Buffer.{Appended};
ghost use Rattle.receipts.specs.Text.{bytes_text, word_text};

use crate::buffer::TextBuffer;
use byte_streams::Destination;
use std::simd::prelude::*;

/// The hex digits, by their values.
const DIGITS: &[u8; 16] = b"0123456789abcdef";

/// The hex digit of a byte's high four bits.
fn high_digit(byte: u8) -> u8
    ensures { result ≡ slice_index lower_digits (byte / 16) }
{
    DIGITS[(byte / 16) as usize]
}

/// The hex digit of a byte's low four bits.
fn low_digit(byte: u8) -> u8
    ensures { result ≡ slice_index lower_digits (byte % 16) }
{
    DIGITS[(byte % 16) as usize]
}

/// A byte in two hex digits.
fn two_digits(byte: u8) -> [u8; 2]
    ensures { result ≡ encode_lower (byte ∷ []) }
{
    [high_digit(byte), low_digit(byte)]
}

/// The hex digits of the high four bits of sixteen bytes.
fn high_digits(bytes: u8x16) -> u8x16
    ensures { result ≡ map (λ b. slice_index lower_digits (b / 16)) bytes }
{
    u8x16::from_array(*DIGITS).swizzle_dyn(bytes >> u8x16::splat(4))
}

/// The hex digits of the low four bits of sixteen bytes.
fn low_digits(bytes: u8x16) -> u8x16
    ensures { result ≡ map (λ b. slice_index lower_digits (b % 16)) bytes }
{
    u8x16::from_array(*DIGITS).swizzle_dyn(bytes & u8x16::splat(15))
}

/// Sixteen bytes in 32 hex digits.
fn digits_of(bytes: u8x16) -> (u8x16, u8x16)
    ensures front { result.0 ≡ take 16 (encode_lower bytes) }
    ensures back { result.1 ≡ drop 16 (encode_lower bytes) }
{
    high_digits(bytes).interleave(low_digits(bytes))
}

/// Appends sixteen bytes in 32 hex digits.
#[inline(always)]
fn push_sixteen<W: Destination>(text: &mut TextBuffer, bytes: &[u8], out: &mut W)
    requires { length bytes.now ≡ 16 }
    ensures { Appended W.Destination text.old out.old text.new out.new (encode_lower bytes.now) }
{
    let (front, back) = digits_of(u8x16::from_slice(bytes));
    text.push(front.to_array().as_slice(), out);
    text.push(back.to_array().as_slice(), out);
}

/// Four bytes in eight hex digits, and eight zeros after them.
fn digits_of_four(a: u8, b: u8, c: u8, d: u8) -> u8x16
    ensures { result ≡ take 16 (encode_lower (a ∷ b ∷ c ∷ d ∷ replicate 12 0)) }
{
    let bytes = [a, b, c, d, 0, 0, 0, 0, 0, 0, 0, 0, 0, 0, 0, 0];
    digits_of(u8x16::from_array(bytes)).0
}

/// A space and the first eight of sixteen digits; what follows them has no meaning.
#[inline(always)]
fn front_field(digits: u8x16) -> u8x16
    ensures { take 9 result ≡ 32 ∷ take 8 digits }
{
    digits.shuffle(
        u8x16::splat(b' '),
        [16, 0, 1, 2, 3, 4, 5, 6, 7, 8, 9, 10, 11, 12, 13, 14],
    )
}

/// A space and the last eight of sixteen digits; what follows them has no meaning.
#[inline(always)]
fn back_field(digits: u8x16) -> u8x16
    ensures { take 9 result ≡ 32 ∷ drop 8 digits }
{
    digits.shuffle(
        u8x16::splat(b' '),
        [16, 8, 9, 10, 11, 12, 13, 14, 15, 16, 16, 16, 16, 16, 16, 16],
    )
}

/// A space and a word in eight hex digits, the highest first; what follows them has no meaning.
fn word_field(word: u32) -> [u8; 16]
    ensures { take 9 result ≡ 32 ∷ word_text word }
{
    let [a, b, c, d] = word.to_be_bytes();
    front_field(digits_of_four(a, b, c, d)).to_array()
}

/// The bytes of four words, the highest byte of each word first.
#[inline(always)]
fn word_bytes(words: &[u32]) -> u8x16
    requires { length words.now ≡ 4 }
    ensures { result ≡ flat_map (to_be_bytes w32) words.now }
{
    u32x4::from_slice(words)
        .to_le_bytes()
        .swizzle([3, 2, 1, 0, 7, 6, 5, 4, 11, 10, 9, 8, 15, 14, 13, 12])
}

/// Puts a field of nine bytes into a line, at a place that has room for sixteen.
#[inline(always)]
fn put_field(line: &mut [u8], at: usize, field: u8x16)
    requires { at + 16 ≤ length line.old }
    ensures { take (at + 9) line.new ≡ take at line.old ++ take 9 field }
{
    field.copy_to_slice(&mut line[at..]);
}

/// Puts four words into a line, each after a space, at a place that has room for 43 bytes.
#[inline(always)]
fn put_four_words(line: &mut [u8], at: usize, words: &[u32])
    requires words { length words.now ≡ 4 }
    requires room { at + 43 ≤ length line.old }
    ensures { take (at + 36) line.new ≡ take at line.old ++ flat_map (λ word. 32 ∷ word_text word) words.now }
{
    let (front, back) = digits_of(word_bytes(words));
    put_field(line, at, front_field(front));
    put_field(line, at + 9, back_field(front));
    put_field(line, at + 18, front_field(back));
    put_field(line, at + 27, back_field(back));
}

/// Puts 32 words into a line that has room for 300 bytes, each after a space: 288 bytes after the first four.
pub(crate) fn put_words(line: &mut [u8], words: &[u32; 32])
    requires { 300 ≤ length line.old }
    ensures { take 292 line.new ≡ take 4 line.old ++ flat_map (λ word. 32 ∷ word_text word) words.now }
{
    for i in 0..8 {
        put_four_words(line, 4 + 36 * i, &words[4 * i..4 * i + 4]);
    }
}

/// Appends a space and a word in eight hex digits.
pub(crate) fn push_word_field<W: Destination>(text: &mut TextBuffer, word: u32, out: &mut W)
    ensures { Appended W.Destination text.old out.old text.new out.new (32 ∷ word_text word) }
{
    text.push(&word_field(word)[..9], out);
}

/// Appends the 32 bytes of a key in 64 hex digits.
pub fn push_key<W: Destination>(text: &mut TextBuffer, bytes: &[u8; 32], out: &mut W)
    ensures { Appended W.Destination text.old out.old text.new out.new (encode_lower bytes.now) }
{
    let (front, back) = bytes.as_slice().split_at(16);
    push_sixteen(text, front, out);
    push_sixteen(text, back, out);
}

/// Appends bytes in hex, two digits each.
fn push_hex<W: Destination>(text: &mut TextBuffer, bytes: &[u8], out: &mut W)
    ensures { Appended W.Destination text.old out.old text.new out.new (encode_lower bytes.now) }
{
    let mut rest = bytes;
    while rest.len() >= 16 {
        let (front, more) = rest.split_at(16);
        push_sixteen(text, front, out);
        rest = more;
    }
    push_fours(text, rest, out);
}

/// Appends bytes in hex, as `push_hex` does, but four at a time.
fn push_fours<W: Destination>(text: &mut TextBuffer, bytes: &[u8], out: &mut W)
    ensures { Appended W.Destination text.old out.old text.new out.new (encode_lower bytes.now) }
{
    let mut rest = bytes;
    while let [a, b, c, d, more @ ..] = rest {
        text.push(&digits_of_four(*a, *b, *c, *d).to_array()[..8], out);
        rest = more;
    }
    push_pairs(text, rest, out);
}

/// Appends bytes in hex, as `push_hex` does, but one at a time.
fn push_pairs<W: Destination>(text: &mut TextBuffer, bytes: &[u8], out: &mut W)
    ensures { Appended W.Destination text.old out.old text.new out.new (encode_lower bytes.now) }
{
    let mut rest = bytes;
    while let [byte, more @ ..] = rest {
        text.push(two_digits(*byte).as_slice(), out);
        rest = more;
    }
}

/// Appends bytes in hex, or a dash if there are none.
pub fn push_bytes<W: Destination>(text: &mut TextBuffer, bytes: &[u8], out: &mut W)
    ensures { Appended W.Destination text.old out.old text.new out.new (bytes_text bytes.now) }
{
    if bytes.is_empty() {
        text.push(b"-", out);
    } else {
        push_hex(text, bytes, out);
    }
}

/// Appends a number in decimal.
pub fn push_decimal<W: Destination>(text: &mut TextBuffer, number: u64, out: &mut W)
    ensures { Appended W.Destination text.old out.old text.new out.new (decimal number) }
{
    text.push(itoa::Buffer::new().format(number).as_bytes(), out);
}
