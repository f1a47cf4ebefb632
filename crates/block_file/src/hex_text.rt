//! Lower-case hex, read in one pass.

ghost use Rattle.std.specs.Prelude.{◌≡◌, ◌*◌, length, map, nat_le, Some, unwrap_or, None, Ok, Err, if◌then◌else◌};
ghost use Rattle.hex.specs.Hex.{hex_digit_value};
ghost use Rattle.block_file.specs.Line.{hex_of, is_lower_digit};
ghost use Rattle.block_file.specs.declared.fault.Cause.TheVariants.{BadHex};

use std::simd::prelude::*;

/// The greatest number that a digit stands for.
const GREATEST: u8 = 15;

/// For each byte the number that it stands for as a digit, 255 if it is no digit in lower case.
static NUMBERS: [u8; 256] = [
    255, 255, 255, 255, 255, 255, 255, 255, 255, 255, 255, 255, 255, 255, 255, 255, 255, 255, 255,
    255, 255, 255, 255, 255, 255, 255, 255, 255, 255, 255, 255, 255, 255, 255, 255, 255, 255, 255,
    255, 255, 255, 255, 255, 255, 255, 255, 255, 255, 0, 1, 2, 3, 4, 5, 6, 7, 8, 9, 255, 255, 255,
    255, 255, 255, 255, 255, 255, 255, 255, 255, 255, 255, 255, 255, 255, 255, 255, 255, 255, 255,
    255, 255, 255, 255, 255, 255, 255, 255, 255, 255, 255, 255, 255, 255, 255, 255, 255, 10, 11,
    12, 13, 14, 15, 255, 255, 255, 255, 255, 255, 255, 255, 255, 255, 255, 255, 255, 255, 255, 255,
    255, 255, 255, 255, 255, 255, 255, 255, 255, 255, 255, 255, 255, 255, 255, 255, 255, 255, 255,
    255, 255, 255, 255, 255, 255, 255, 255, 255, 255, 255, 255, 255, 255, 255, 255, 255, 255, 255,
    255, 255, 255, 255, 255, 255, 255, 255, 255, 255, 255, 255, 255, 255, 255, 255, 255, 255, 255,
    255, 255, 255, 255, 255, 255, 255, 255, 255, 255, 255, 255, 255, 255, 255, 255, 255, 255, 255,
    255, 255, 255, 255, 255, 255, 255, 255, 255, 255, 255, 255, 255, 255, 255, 255, 255, 255, 255,
    255, 255, 255, 255, 255, 255, 255, 255, 255, 255, 255, 255, 255, 255, 255, 255, 255, 255, 255,
    255, 255, 255, 255, 255, 255, 255, 255, 255, 255, 255, 255, 255, 255, 255, 255, 255, 255, 255,
    255, 255, 255, 255,
];

/// The number of a digit in lower case, 255 for any other byte.
#[inline]
fn number(byte: u8) -> u8
    ensures { result ≡ unwrap_or (if is_lower_digit byte then hex_digit_value byte else None) 255 }
{
    NUMBERS[byte as usize]
}

/// The numbers of sixteen digits; above 15 for a byte that is no digit in lower case.
#[inline(always)]
fn numbers(text: u8x16) -> u8x16
    ensures { map (λ n. if nat_le n 15 then Some n else None) result ≡ map (λ b. if is_lower_digit b then hex_digit_value b else None) text }
{
    // `0` to `9` become 246 to 255, and then 0 to 9; the bytes below 246 end above 15.
    let digits = (text + u8x16::splat(198)).saturating_sub(u8x16::splat(6)) - u8x16::splat(240);
    let letters = (text - u8x16::splat(b'a')).saturating_add(u8x16::splat(10));
    digits.simd_min(letters)
}

/// Writes the sixteen bytes of 32 digits, as `decode` does.
#[inline(always)]
fn decode_sixteen(text: &[u8], out: &mut [u8]) -> bool
    requires text { length text.now ≡ 32 }
    requires out { length out.old ≡ 16 }
    ensures { hex_of text.now ≡ (if result then Ok out.new else Err BadHex) }
{
    let front = numbers(u8x16::from_slice(text));
    let back = numbers(u8x16::from_slice(&text[16..]));
    let (high, low) = front.deinterleave(back);
    ((high << u8x16::splat(4)) + low).copy_to_slice(out);
    !high.simd_max(low).simd_gt(u8x16::splat(GREATEST)).any()
}

/// Writes the bytes of pairs of lower-case hex digits. False if a byte of the text is no such digit; then nothing is
/// said about what `out` holds.
pub fn decode(text: &[u8], out: &mut [u8]) -> bool
    requires { length text.now ≡ 2 * length out.old }
    ensures { hex_of text.now ≡ (if result then Ok out.new else Err BadHex) }
{
    let mut at = 0;
    while out.len() - at >= 16 {
        if !decode_sixteen(&text[2 * at..2 * at + 32], &mut out[at..at + 16]) {
            return false;
        }
        at += 16;
    }
    decode_rest(&text[2 * at..], &mut out[at..])
}

/// Writes the bytes of pairs of digits, as `decode` does, but one at a time.
fn decode_rest(text: &[u8], out: &mut [u8]) -> bool
    requires { length text.now ≡ 2 * length out.old }
    ensures { hex_of text.now ≡ (if result then Ok out.new else Err BadHex) }
{
    for i in 0..out.len() {
        let high = number(text[2 * i]);
        let low = number(text[2 * i + 1]);
        if high > GREATEST || low > GREATEST {
            return false;
        }
        out[i] = high * 16 + low;
    }
    true
}
