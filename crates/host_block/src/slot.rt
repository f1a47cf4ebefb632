//! What a block keeps of one key.

use rv_ledger::{Change, StoredValue};

/// What a block keeps of one key.
#[derive(Drop)]
pub(crate) struct Slot {
    /// What the host answered: a value, or None if the key is absent. None if it gave no answer.
    pub(crate) base: Option<Option<StoredValue>>,
    /// What the calls changed: a value, a removal, or an amount that is added to the base. None if they changed nothing.
    pub(crate) change: Option<Change<StoredValue>>,
}
