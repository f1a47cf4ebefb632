//! Sets of keys.

use rv_ledger::Key;
use std::alloc::{AllocError, Global};
use std::collections::BTreeMap;
use std::collections::btree_map::Iter;
use std::marker::Model;

/// A set of keys.
#[derive(Drop)]
pub(crate) struct KeySet {
    entries: BTreeMap<Key, ()>,
}

impl Model for KeySet {
    ghost use Rattle.std.specs.FinMap as map;
    ghost use Rattle.std.specs.FinSet as set;
    ghost use Rattle.std.specs.Coded.{coded_list, coded_ℕ};
    ghost use Rattle.conflicts.specs.Reads.{Keys};

    ghost Value = { Keys };

    ghost coded = { set.code (coded_list coded_ℕ) };

    ghost view = { λ s. map.from_entries s.entries.entries };
}

impl KeySet {
    ghost use Rattle.std.specs.Prelude.{◌≡◌, OnOk};
    ghost use Rattle.std.specs.FinMap as map;

    /// No keys.
    pub(crate) fn new(alloc: Global) -> KeySet
        ensures { result ≡ map.empty }
    {
        KeySet {
            entries: BTreeMap::new(alloc),
        }
    }

    /// Adds a key; refused if memory ran out.
    pub(crate) fn insert(&mut self, key: Key) -> Result<(), AllocError>
        ensures { OnOk result (self.new ≡ map.insert self.old key tt) }
    {
        self.entries.insert(key, ())?;
        Ok(())
    }

    /// The keys, ascending.
    pub(crate) fn iter(&self) -> Iter<'_, Key, ()>
        ensures { result ≡ map.entries self.now }
    {
        self.entries.iter()
    }
}
