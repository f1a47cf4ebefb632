//! The storage of a block.

ghost use Rattle.std.specs.Prelude.{IsTrue};
ghost use Rattle.rv_ledger.specs.Entries.{AreAscending};

use crate::change::add;
use crate::entry_table::{ENTRY_LIMIT, EntryTable};
use crate::inline_bytes::Value;
use crate::key::Key;
use crate::lent_value::LentValue;
use crate::store_iter::{StoreIter, StoreRange};
use crate::stored_bytes::StoredValue;
use std::alloc::{AllocError, Global};
use std::cmp::Ordering;
use std::marker::Model;

/// A storage: a finite map from keys to values, of any number of keys.
#[derive(Drop)]
pub struct Store {
    alloc: Global,
    table: EntryTable,
}

impl Model for Store {
    ghost use Rattle.std.specs.FinMap as map;
    ghost use Rattle.std.specs.Coded.{coded_list, coded_ℕ};
    ghost use Rattle.rv_ledger.specs.Key.{Storage};
    ghost use Rattle.rv_ledger.specs.Positions.{IsIndexed, by_key};

    ghost Value = { Storage };

    ghost coded = { map.code (coded_list coded_ℕ) (coded_list coded_ℕ) };

    ghost view = { λ s. map.from_entries (by_key s.table) };

    ghost invariant = { λ s. IsIndexed s.table };
}

impl Store {
    ghost use Rattle.std.specs.Prelude.{◌≡◌, None, OnOk, OnErr, IfOk};
    ghost use Rattle.std.specs.Option.{option_copied};
    ghost use Rattle.std.specs.FinMap as map;
    ghost use Rattle.std.specs.List.{filter};
    ghost use Rattle.rv_ledger.specs.Change.{add};
    ghost use Rattle.rv_ledger.specs.Inserted.{inserted};
    ghost use Rattle.rv_ledger.specs.Ranges.{is_from};

    /// An empty storage.
    pub fn new(alloc: Global) -> Store
        ensures { result ≡ map.empty }
    {
        Store {
            alloc,
            table: EntryTable::new(alloc),
        }
    }

    /// The storage that inserting the entries in turn gives; refused if memory ran out. If the keys ascend, the list of
    /// entries is taken as it is.
    #[tactic(auto, using(std::proofs::lemmas::List::Sums::fold_push))]
    pub(crate) fn of_entries(
        alloc: Global,
        entries: Vec<(Key, StoredValue)>,
    ) -> Result<Store, AllocError>
        ensures { IfOk result (λ s. s ≡ inserted entries.items) }
    {
        if entries.len() <= ENTRY_LIMIT && do_ascend(entries.as_slice()) {
            let table = EntryTable::of_ascending(alloc, entries)?;
            return Ok(Store { alloc, table });
        }
        let mut store = Store::new(alloc);
        for (key, value) in entries {
            store.put(key, value)?;
        }
        Ok(store)
    }

    /// The value at a key, or None if the key is absent.
    pub fn get(&self, key: &Key) -> Option<&StoredValue>
        ensures { option_copied result ≡ map.get self.now key.now }
    {
        match self.table.find(key) {
            Some(position) => Some(&self.table.list[position].1),
            None => None,
        }
    }

    /// Sets the value at a key; refused if memory ran out, and then nothing changes.
    pub fn insert(&mut self, key: Key, value: Value) -> Result<(), AllocError>
        ensures ok { OnOk result (self.new ≡ map.insert self.old key value) }
        ensures err { OnErr result (self.new ≡ self.old) }
    {
        self.insert_lent(key, value.lend())
    }

    /// Sets the value at a key to a copy of one that is lent; refused if memory ran out, and then nothing changes.
    pub fn insert_lent(&mut self, key: Key, value: LentValue) -> Result<(), AllocError>
        ensures ok { OnOk result (self.new ≡ map.insert self.old key value.entry.bytes.now) }
        ensures err { OnErr result (self.new ≡ self.old) }
    {
        self.put(key, StoredValue::of(self.alloc, value)?)
    }

    /// Adds an amount to the number at a key, modulo 2^64; the key then has a value of eight bytes. Refused if memory ran
    /// out, and then nothing changes.
    pub fn add(&mut self, key: &Key, amount: u64) -> Result<(), AllocError>
        ensures ok { OnOk result (self.new ≡ map.insert self.old key.now (add (map.get self.old key.now) amount)) }
        ensures err { OnErr result (self.new ≡ self.old) }
    {
        let value = add(LentValue::of_stored(self.get(key)), amount);
        self.insert(*key, value)
    }

    /// Sets the value at a key, which is moved in. Refused if memory ran out, and then nothing changes. Only an absent
    /// key takes memory.
    pub fn put(&mut self, key: Key, value: StoredValue) -> Result<(), AllocError>
        ensures ok { OnOk result (self.new ≡ map.insert self.old key value) }
        ensures err { OnErr result (self.new ≡ self.old) }
        ensures absent { OnErr result (map.get self.old key ≡ None) }
    {
        self.table.put(key, value)
    }

    /// Removes a key; nothing changes if it is absent.
    pub fn remove(&mut self, key: &Key)
        ensures { self.new ≡ map.remove self.old key.now }
    {
        self.table.remove(key);
    }

    /// The keys, ascending, each with its value.
    pub fn iter(&self) -> StoreIter<'_>
        ensures { result ≡ map.entries self.now }
    {
        self.table.iter()
    }

    /// The keys from one on, itself included, ascending, each with its value. Takes no memory. The first key is found in time
    /// that grows with the logarithm of the number of keys.
    pub fn iter_from(&self, from: &Key) -> StoreRange<'_>
        ensures { result ≡ filter (is_from from.now) (map.entries self.now) }
    {
        self.table.iter_from(from)
    }

    /// An equal storage; refused if memory ran out.
    pub fn copy(&self) -> Result<Store, AllocError>
        ensures { IfOk result (λ s. s ≡ self.now) }
    {
        let table = self.table.copy()?;
        Ok(Store {
            alloc: self.alloc,
            table,
        })
    }
}

/// Whether the keys of entries ascend.
fn do_ascend(entries: &[(Key, StoredValue)]) -> bool
    ensures { IsTrue result → AreAscending entries.now }
{
    for i in 1..entries.len() {
        match entries[i - 1].0.cmp(&entries[i].0) {
            Ordering::Less => {}
            _ => return false,
        }
    }
    true
}
