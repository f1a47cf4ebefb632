//! Keys of the storage.

ghost use Rattle.std.proofs.Common.{rules};
ghost use Rattle.std.specs.Prelude.{◌≡◌, ◌<◌, ◌*◌, drop, length, refl};
ghost use Rattle.std.specs.Cmp.{partial_order_from_own_ties};
ghost use Rattle.std.specs.Cmp.Rules.{comparing};
ghost use Rattle.std.specs.Cmp.Lexicographic.{slice_cmp};
ghost use Rattle.std.specs.Ordering.{nat_cmp, as_partial_cmp};
ghost use Rattle.std.specs.Str.{bytes_eq};
ghost use Rattle.byteorder.specs.Endian.{big_number};

use byteorder::{BigEndian, ByteOrder};
use std::cmp::Ordering;
use std::marker::Model;

/// The number of bytes of a key.
const KEY_SIZE: usize = 32;

/// The number of bytes that are compared at once.
const WORD_SIZE: usize = 8;

/// The number of such words in a key.
const WORD_COUNT: usize = 4;

/// A key of the storage: 32 bytes. Keys are ordered byte by byte, from the first byte on.
#[derive(Clone, Copy, Debug, Eq)]
pub struct Key {
    bytes: [u8; 32],
}

impl Model for Key {
    ghost use Rattle.std.specs.Prelude.{ℕ, List};

    ghost Value = { List ℕ };

    ghost view = { λ k. k.bytes };

    ghost inverse = { λ b. record { bytes = b } };
}

impl Key {
    /// The key of these bytes.
    pub fn new(bytes: [u8; 32]) -> Key
        ensures { result ≡ bytes }
    {
        Key { bytes }
    }

    /// The key's bytes.
    pub fn bytes(&self) -> &[u8; 32]
        ensures value { result.now ≡ self.now }
        ensures count { length self.now ≡ 32 }
    {
        &self.bytes
    }
}

impl PartialEq for Key {
    ghost eq = { bytes_eq };

    ghost laws = { Prim.search (comparing, rules) };

    fn eq(&self, other: &Key) -> bool {
        self.cmp(other).is_eq()
    }
}

impl PartialOrd for Key {
    ghost partial_cmp = { as_partial_cmp (slice_cmp nat_cmp) };

    ghost laws = { partial_order_from_own_ties (Prim.search (comparing, rules)) (Prim.search (comparing, rules)) };

    fn partial_cmp(&self, other: &Key) -> Option<Ordering> {
        Some(self.cmp(other))
    }
}

impl Ord for Key {
    ghost cmp = { slice_cmp nat_cmp };

    ghost total = { Prim.search (comparing, rules) };

    ghost matches_partial_cmp = { λ x y. refl };

    ghost matches_eq = { Prim.search (comparing, rules) };

    fn cmp(&self, other: &Key) -> Ordering {
        compared(&self.bytes, &other.bytes)
    }
}

/// The order of two keys by their bytes. Eight bytes at a time are compared as one big-endian number.
#[inline]
fn compared(left: &[u8; KEY_SIZE], right: &[u8; KEY_SIZE]) -> Ordering
    ensures { result ≡ slice_cmp nat_cmp left.now right.now }
{
    for word in 0..WORD_COUNT {
        let first = word_at(left, word);
        let second = word_at(right, word);
        if first != second {
            return first.cmp(&second);
        }
    }
    Ordering::Equal
}

/// The eight bytes of a key from byte `8 * word` on, as a big-endian number.
#[inline]
fn word_at(bytes: &[u8; KEY_SIZE], word: usize) -> u64
    requires { word < WORD_COUNT }
    ensures { result ≡ big_number 8 (drop (word * 8) bytes.now) }
{
    BigEndian::read_u64(&bytes[word * WORD_SIZE..])
}
