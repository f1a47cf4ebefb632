//! Answers from the storage.

use read_set::Origin;
use rv_ledger::{Key, StoredValue};

/// An answer that a run got.
#[derive(Debug, Drop)]
pub struct StorageAnswer {
    /// The key that it asked for.
    pub key: Key,
    /// The key's value, or None if it is absent.
    pub value: Option<StoredValue>,
    /// The source of the answer.
    pub origin: Origin,
}
