//! What a call sees of a key.

use read_set::Version;
use rv_ledger::{LentValue, Value};

/// What a call sees of a key, below the versions that a read passes.
#[derive(Debug, Drop)]
pub enum Answer {
    /// The storage before the block; and the sum of the amounts of the versions that were passed, if any was,
    /// modulo 2^64.
    Base(Option<u64>),
    /// A version, and the value of the key after the passed amounts are added; None if the key has no value.
    Found(Version, Option<Value>),
    /// An estimate: the call of this index is expected to write the key again.
    Estimate(u16),
}

/// What a call sees of a key, if the value of a version is lent: the passed amounts are not added yet.
#[derive(Drop)]
pub enum LentAnswer<'a> {
    /// The storage before the block; and the sum of the amounts of the versions that were passed, if any was,
    /// modulo 2^64.
    Base(Option<u64>),
    /// A version; its value, or None if it removes the key; and the sum of the amounts of the versions that were passed above it,
    /// if any was.
    Found(Version, Option<LentValue<'a>>, Option<u64>),
    /// An estimate: the call of this index is expected to write the key again.
    Estimate(u16),
}
