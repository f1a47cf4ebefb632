//! What a call reads.

ghost use Rattle.std.specs.FinMap as map;
ghost use Rattle.std.specs.Option.{option_copied};
ghost use Rattle.std.specs.Prelude.{◌≡◌};
ghost use Rattle.rv_ledger.specs.Key.{Storage};

use crate::key::Key;
use crate::store::Store;
use crate::stored_bytes::StoredValue;

/// What a call reads: a storage, or what stands for one.
pub trait Contents {
    ghost storage: { Self → Storage };

    /// The value at a key, or None if the key is absent.
    fn get(&self, key: &Key) -> Option<&StoredValue>
        ensures { option_copied result ≡ map.get (storage self.now) key.now };
}

impl Contents for Store {
    ghost storage = { λ s. s };

    fn get(&self, key: &Key) -> Option<&StoredValue> {
        Store::get(self, key)
    }
}
