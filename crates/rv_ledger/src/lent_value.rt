//! A value, lent.

ghost use Rattle.std.specs.Prelude.{◌≤◌, length};

use crate::inline_bytes::Value;
use crate::stored_bytes::StoredValue;

/// The bytes of a value or of an output, at most 256, which are lent.
#[derive(Clone, Copy)]
pub struct LentValue<'a> {
    bytes: &'a [u8],
    ghost short: { length bytes.now ≤ 256 },
}

impl<'a> LentValue<'a> {
    ghost use Rattle.std.specs.Prelude.{◌≡◌, ◌≤◌, length};
    ghost use Rattle.std.specs.Option.{option_copied};
    ghost use Rattle.rv_ledger.specs.Lent.{lent_content};

    /// These bytes, at most 256.
    pub fn of(bytes: &'a [u8]) -> LentValue<'a>
        requires { length bytes.now ≤ 256 }
        ensures { result.bytes.now ≡ bytes.now }
    {
        LentValue { bytes }
    }

    /// A value that a map keeps, or None for None.
    pub fn of_stored(stored: Option<&'a StoredValue>) -> Option<LentValue<'a>>
        ensures { lent_content result ≡ option_copied stored.entry }
    {
        stored.map(|value| value.lend())
    }

    /// The bytes, at most 256.
    pub fn bytes(self) -> &'a [u8]
        ensures value { result.now ≡ self.entry.bytes.now }
        ensures short { length result.now ≤ 256 }
    {
        self.bytes
    }

    /// The same value with an array of its own. Takes no memory.
    pub fn value(self) -> Value
        ensures { result ≡ self.entry.bytes.now }
    {
        match Value::of(self.bytes) {
            Some(value) => value,
            None => unreachable!(),
        }
    }
}
