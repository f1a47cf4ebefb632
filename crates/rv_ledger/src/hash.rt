//! A hash of keys, for hints of their positions.

ghost use Rattle.std.specs.Prelude.{◌≡◌, ◌<◌};
ghost use Rattle.rv_ledger.specs.KeyHash.{key_hash, key_word, mixed};

use crate::key::Key;

/// An odd number near 2^64 over the golden ratio, whose product spreads numbers that differ little.
const MULTIPLIER: u64 = 0x9e37_79b9_7f4a_7c15;

/// The number of bytes of a word of a key.
const WORD_SIZE: usize = 8;

/// The number of such words in a key.
const WORD_COUNT: usize = 4;

/// A hash of a key, from all of its bytes. It has no secret, so keys with one hash are easy to make.
#[inline(always)]
pub fn key_hash(key: &Key) -> u64
    ensures { result ≡ key_hash key.now }
{
    let bytes = key.bytes();
    let sum = word_at(bytes, 0)
        .wrapping_add(word_at(bytes, 1))
        .wrapping_add(word_at(bytes, 2))
        .wrapping_add(word_at(bytes, 3));
    mix(mix(sum))
}

/// One round of mixing: the higher half of a number goes into the lower, and a product modulo 2^64 spreads both.
#[tactic(auto, unfolding(crate::specs::KeyHash::mixed))]
#[inline(always)]
fn mix(number: u64) -> u64
    ensures { result ≡ mixed number }
{
    (number ^ (number >> 32)).wrapping_mul(MULTIPLIER)
}

/// The eight bytes of a key from byte `word * 8` on, as a little-endian number.
#[inline(always)]
fn word_at(bytes: &[u8; 32], word: usize) -> u64
    requires { word < WORD_COUNT }
    ensures { result ≡ key_word bytes.now word }
{
    let start = word * WORD_SIZE;
    u64::from_le_bytes([
        bytes[start],
        bytes[start + 1],
        bytes[start + 2],
        bytes[start + 3],
        bytes[start + 4],
        bytes[start + 5],
        bytes[start + 6],
        bytes[start + 7],
    ])
}
