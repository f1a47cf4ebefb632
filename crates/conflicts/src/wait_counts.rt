//! How many waits there are at each key.

use rv_ledger::Key;
use std::alloc::{AllocError, Global};
use std::collections::BTreeMap;
use std::collections::btree_map::Iter;
use std::marker::Model;

/// How many waits there are at each key.
#[derive(Drop)]
pub(crate) struct WaitCounts {
    entries: BTreeMap<Key, u64>,
}

impl Model for WaitCounts {
    ghost use Rattle.std.specs.FinMap as map;
    ghost use Rattle.std.specs.Coded.{coded_list, coded_ℕ};
    ghost use Rattle.conflicts.specs.Calls.{Counts};

    ghost Value = { Counts };

    ghost coded = { map.code (coded_list coded_ℕ) coded_ℕ };

    ghost view = { λ c. map.from_entries c.entries.entries };
}

impl WaitCounts {
    ghost use Rattle.std.specs.FinMap as map;
    ghost use Rattle.std.specs.Prelude.{◌≡◌, ◌<◌, ◌+◌, ◌^◌, OnOk};
    ghost use Rattle.conflicts.specs.Calls.{count_at, with_more};

    /// No waits.
    pub(crate) fn new(alloc: Global) -> WaitCounts
        ensures { result ≡ map.empty }
    {
        WaitCounts {
            entries: BTreeMap::new(alloc),
        }
    }

    /// Counts more waits at a key. Refused if memory ran out.
    pub(crate) fn add(&mut self, key: Key, more: u64) -> Result<(), AllocError>
        requires { count_at self.old key + more < 2 ^ 64 }
        ensures { OnOk result (self.new ≡ with_more self.old key more) }
    {
        let count = self.at(&key) + more;
        self.entries.insert(key, count)?;
        Ok(())
    }

    /// How many waits there are at a key.
    pub(crate) fn at(&self, key: &Key) -> u64
        ensures { result ≡ count_at self.now key.now }
    {
        match self.entries.get(key) {
            Some(count) => *count,
            None => 0,
        }
    }

    /// The keys with a wait, ascending, each with their number.
    pub(crate) fn iter(&self) -> Iter<'_, Key, u64>
        ensures { result ≡ map.entries self.now }
    {
        self.entries.iter()
    }
}
