//! Where a byte occurs in a text.

ghost use Rattle.std.specs.Prelude.{◌≡◌, ◌<◌, ◌≤◌, ◌+◌, ◌==◌, ℕ, false, not, length, slice_index};
ghost use Rattle.std.specs.List.{position, prefix_len};
ghost use Rattle.std.specs.Simd.Lanes.{chunk};

use std::simd::prelude::*;

/// The number of bytes that are compared at once.
const LANES: usize = 16;

/// The place of the first occurrence of a byte.
pub fn place_of(text: &[u8], byte: u8) -> Option<usize>
    ensures { result ≡ position (λ b. b == byte) text.now }
{
    let mut from = 0;
    while LANES <= text.len() - from {
        let before = lanes_before(text, from, byte);
        if before < LANES {
            return Some(from + before);
        }
        from += LANES;
    }
    place_from(text, from, byte)
}

/// How many of the 16 bytes from a place on come before the first that is `byte`.
#[inline(always)]
fn lanes_before(text: &[u8], from: usize, byte: u8) -> usize
    requires { from + 16 ≤ length text.now }
    ensures { result ≡ prefix_len (λ b. not (b == byte)) (chunk from 16 text.now) }
{
    let hits = u8x16::from_slice(&text[from..])
        .simd_eq(u8x16::splat(byte))
        .to_bitmask();
    if hits == 0 {
        LANES
    } else {
        hits.trailing_zeros() as usize
    }
}

/// The place of the first occurrence of a byte that does not occur before `from`.
fn place_from(text: &[u8], from: usize, byte: u8) -> Option<usize>
    requires within { from ≤ length text.now }
    requires before { (k : ℕ) → k < from → (slice_index text.now k == byte) ≡ false }
    ensures { result ≡ position (λ b. b == byte) text.now }
{
    for place in from..text.len() {
        if text[place] == byte {
            return Some(place);
        }
    }
    None
}
