//! Waits of a call at one key.

use rv_ledger::Key;

/// The waits of a call at a key: it waits for each call that changes the key, from `from` on, up to the last one before itself.
#[derive(Clone, Copy, Debug, PartialEq, Eq)]
pub struct KeyWaits {
    /// The index of the earliest call that it waits for, below 1,024.
    pub from: u16,
    /// The key.
    pub key: Key,
}
