//! The storage of a result, read back as the storage of a block file.

ghost use Rattle.std.specs.Prelude.{All};
ghost use Rattle.std.specs.FinMap.{entries};
ghost use Rattle.rv_ledger.specs.Key.{Storage};
ghost use Rattle.rv_ledger.specs.declared.rules.Rules.{Rules};
ghost use Rattle.rv_ledger.specs.declared.rules.Rules.TheVariants.{Two};
ghost use Rattle.receipts.specs.Ranges.{AreBytes};
ghost use Rattle.session_laws.specs.Chained.{AreShort, IsEntry, IsStorageReadBack, IsReadInBlocks};

use rv_ledger::{Key, Store, StoredValue};

/// A law, and no code: the `store` lines of a result, put into a block file, are read as the result's storage: alone after each
/// beginning of a block file, and between the programs and the calls of any block file without storage. This holds if the
/// storage's keys have 32 bytes and its values at most what the block file's rules allow, 64 or 256.
pub fn storage_is_read_back()
    ensures alone { (rules : Rules) (store : Storage) → All (IsEntry rules) (entries store) → IsStorageReadBack rules store }
    ensures between { (rules : Rules) (store : Storage) → All (IsEntry rules) (entries store) → IsReadInBlocks rules store }
{}

/// The same law for a storage that a program holds: rules two and three allow each such storage, and
/// rules one those whose values have at most 64 bytes. It walks over the storage and changes nothing.
pub fn storage_is_read_back_of(store: &Store)
    ensures short { AreShort Two store.now }
    ensures alone { (rules : Rules) → AreShort rules store.now → IsStorageReadBack rules store.now }
    ensures between { (rules : Rules) → AreShort rules store.now → IsReadInBlocks rules store.now }
{
    are_entries(store);
}

/// Each key has 32 bytes, and each value at most 256.
pub(crate) fn are_entries(store: &Store)
    ensures { All (IsEntry Two) (entries store.now) }
{
    for (key, value) in store.iter() {
        is_entry(key, value);
    }
}

/// The numbers of a byte slice are bytes.
fn are_bytes(_bytes: &[u8])
    ensures { AreBytes _bytes.now }
{}

/// A key has 32 bytes, and a value at most 256.
fn is_entry(key: &Key, value: &StoredValue)
    ensures { IsEntry Two (key.now, value.now) }
{
    are_bytes(key.bytes().as_slice());
    are_bytes(value.bytes());
}
