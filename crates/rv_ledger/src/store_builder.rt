//! A storage that is made in one pass.

use crate::inline_bytes::Value;
use crate::key::Key;
use crate::store::Store;
use crate::stored_bytes::StoredValue;
use std::alloc::{AllocError, Global};
use std::marker::Model;

/// The entries of a storage, taken one after another. The storage is made of them in one pass. If the keys ascend, this
/// is faster than inserting each.
#[derive(Drop)]
pub struct StoreBuilder {
    alloc: Global,
    entries: Vec<(Key, StoredValue)>,
}

impl Model for StoreBuilder {
    ghost use Rattle.std.specs.FinMap as map;
    ghost use Rattle.std.specs.Coded.{coded_list, coded_ℕ};
    ghost use Rattle.rv_ledger.specs.Inserted.{inserted};
    ghost use Rattle.rv_ledger.specs.Key.{Storage};

    ghost Value = { Storage };

    ghost coded = { map.code (coded_list coded_ℕ) (coded_list coded_ℕ) };

    ghost view = { λ s. inserted s.entries.items };
}

impl StoreBuilder {
    ghost use Rattle.std.specs.Prelude.{◌≡◌, OnOk, OnErr, IfOk};
    ghost use Rattle.std.specs.FinMap as map;

    /// No entries.
    pub fn new(alloc: Global) -> StoreBuilder
        ensures { result ≡ map.empty }
    {
        StoreBuilder {
            alloc,
            entries: Vec::new(alloc),
        }
    }

    /// Takes the next entry; of two with the same key the later one counts. Refused if memory ran out, and then nothing
    /// changes.
    pub fn insert(&mut self, key: Key, value: &Value) -> Result<(), AllocError>
        ensures ok { OnOk result (self.new ≡ map.insert self.old key value.now) }
        ensures err { OnErr result (self.new ≡ self.old) }
    {
        let value = StoredValue::of(self.alloc, value.lend())?;
        self.entries.push((key, value))?;
        Ok(())
    }

    /// The storage of the entries; refused if memory ran out.
    pub fn finish(self) -> Result<Store, AllocError>
        ensures { IfOk result (λ s. s ≡ self) }
    {
        Store::of_entries(self.alloc, self.entries)
    }
}
