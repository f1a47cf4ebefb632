//! What the storage calls ask for.

use rv_ledger::{Key, Output, Write};

/// What a storage call asks for, with the bytes that it names in memory.
#[derive(Debug, Drop)]
pub enum StorageRequest {
    /// The value of a key.
    Read(Key),
    /// A write or a removal.
    Write(Write),
    /// To add this amount to a key, without reading it.
    Add(Key, u64),
    /// To return this output.
    Return(Output),
    /// To revert with this output.
    Revert(Output),
}
