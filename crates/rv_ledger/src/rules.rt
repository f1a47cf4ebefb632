//! The rules that a call runs under.

ghost use Rattle.std.specs.Prelude.{◌≡◌, ◌≤◌};
ghost use Rattle.rv_ledger.specs.Rules.{longest_value, rules_number};

use crate::inline_bytes::VALUE_LIMIT;

/// The greatest length of a value under rules one, in bytes.
pub(crate) const SHORT_VALUE_LIMIT: usize = 64;

/// The rules of a call: how long its values may be, what its reads cost, and whether it may add.
#[derive(Clone, Copy, Debug, PartialEq, Eq)]
pub enum Rules {
    /// Values of at most 64 bytes; a read costs the same whatever it returns.
    One = 1,
    /// Values of at most 256 bytes; a read costs one more for each byte that it copies.
    Two = 2,
    /// Like rules two; and a call may add to a key without reading it.
    Three = 3,
}

impl Rules {
    /// The greatest length of a value that a call reads or writes, in bytes: 64 or 256.
    pub fn longest_value(self) -> usize
        ensures value { result ≡ longest_value self }
        ensures small { result ≤ 256 }
    {
        match self {
            Rules::One => SHORT_VALUE_LIMIT,
            Rules::Two | Rules::Three => VALUE_LIMIT,
        }
    }

    /// The number of the rules: 1, 2 or 3.
    pub fn number(self) -> u8
        ensures { result ≡ rules_number self }
    {
        self as u8
    }
}
