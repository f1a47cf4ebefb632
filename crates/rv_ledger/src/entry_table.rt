//! The entries of a storage: a list of them, a tree with the position of each key in the list, and hints of the same
//! positions.

ghost use Rattle.std.specs.Prelude.{◌≡◌, ◌<◌, ◌↔◌, ◌^◌, [], IfOk, IsTrue, None, OnErr, OnOk, Some, length};
ghost use Rattle.std.specs.FinMap.{from_entries};
ghost use Rattle.std.specs.List.{filter};
ghost use Rattle.rv_ledger.specs.Entries.{AreAscending};
ghost use Rattle.rv_ledger.specs.Inserted.{inserted};
ghost use Rattle.rv_ledger.specs.Ranges.{is_from};
ghost use Rattle.rv_ledger.specs.Positions.{IsGoneAt, IsIndexed, IsSetAt, by_key, key_at, position_of};

use crate::hash::key_hash;
use crate::hints::{Hints, position_in};
use crate::key::Key;
use crate::store_iter::{StoreIter, StoreRange};
use crate::stored_bytes::StoredValue;
use std::alloc::{AllocError, Global};
use std::collections::BTreeMap;

/// The most entries that a table has.
pub(crate) const ENTRY_LIMIT: usize = u32::MAX as usize;

/// How many keys are noted as hints when one is added. So noting all of them again makes no pause.
const NOTED_AT_ONCE: usize = 16;

/// Keys with their values. Most keys are found by a hint, with few misses of the processor's cache.
#[derive(Drop)]
pub(crate) struct EntryTable {
    /// The entries. Their order has no meaning.
    pub(crate) list: Vec<(Key, StoredValue)>,
    /// The position of each key in the list.
    tree: BTreeMap<Key, u32>,
    /// For most keys, a hint of the same.
    hints: Hints,
}

impl EntryTable {
    /// No entries. Takes no memory.
    pub(crate) fn new(alloc: Global) -> EntryTable
        ensures none { by_key result ≡ [] }
        ensures indexed { IsIndexed result }
    {
        EntryTable {
            list: Vec::new(alloc),
            tree: BTreeMap::new(alloc),
            hints: Hints::new(alloc),
        }
    }

    /// The table of entries whose keys ascend; refused if memory ran out.
    pub(crate) fn of_ascending(
        alloc: Global,
        list: Vec<(Key, StoredValue)>,
    ) -> Result<EntryTable, AllocError>
        requires ascending { AreAscending list.items }
        requires few { length list.items < 2 ^ 32 }
        ensures all { IfOk result (λ table. from_entries (by_key table) ≡ inserted list.items) }
        ensures indexed { IfOk result (λ table. IsIndexed table) }
    {
        let mut positions = Vec::with_capacity(alloc, list.len())?;
        for position in 0..list.len() {
            positions.push((list[position].0, position as u32))?;
        }
        let tree = positions.into_iter().collect(alloc)?;
        let mut hints = Hints::new(alloc);
        hints.note(list.as_slice(), list.len());
        Ok(EntryTable { list, tree, hints })
    }

    /// The position of a key.
    #[inline(always)]
    pub(crate) fn find(&self, key: &Key) -> Option<usize>
        requires { IsIndexed self.now }
        ensures { result ≡ position_of self.now.tree.entries key.now }
    {
        let hash = key_hash(key);
        if let Some(row) = self.hints.row(hash) {
            for hint in row {
                match position_in(*hint, hash) {
                    Some(position) if self.stands_at(key, position) => return Some(position),
                    _ => {}
                }
            }
        }
        self.search(key)
    }

    /// Whether a key is at a position of the list.
    #[inline(always)]
    fn stands_at(&self, key: &Key, position: usize) -> bool
        ensures { IsTrue result ↔ (key_at self.now.list.items position ≡ Some key.now) }
    {
        match self.list.as_slice().get(position) {
            Some(entry) => entry.0 == *key,
            None => false,
        }
    }

    /// The position of a key by the tree.
    #[inline(never)]
    fn search(&self, key: &Key) -> Option<usize>
        ensures { result ≡ position_of self.now.tree.entries key.now }
    {
        match self.tree.get(key) {
            Some(position) => Some(*position as usize),
            None => None,
        }
    }

    /// Sets the value at a key. Refused if memory ran out or the table is full, and then nothing changes. Only an absent
    /// key takes memory.
    pub(crate) fn put(&mut self, key: Key, value: StoredValue) -> Result<(), AllocError>
        requires { IsIndexed self.old }
        ensures indexed { IsIndexed self.new }
        ensures set { OnOk result (IsSetAt (by_key self.old) (by_key self.new) key value) }
        ensures unchanged { OnErr result (by_key self.new ≡ by_key self.old) }
        ensures absent { OnErr result (position_of self.old.tree.entries key ≡ None) }
    {
        match self.find(&key) {
            Some(position) => {
                self.list[position].1 = value;
                Ok(())
            }
            None => self.add(key, value),
        }
    }

    /// Adds a key that is not there. Refused if memory ran out or the table is full, and then nothing changes: room in
    /// the list is made first.
    #[inline(never)]
    fn add(&mut self, key: Key, value: StoredValue) -> Result<(), AllocError>
        requires indexed { IsIndexed self.old }
        requires absent { position_of self.old.tree.entries key ≡ None }
        ensures indexed { IsIndexed self.new }
        ensures set { OnOk result (IsSetAt (by_key self.old) (by_key self.new) key value) }
        ensures unchanged { OnErr result (by_key self.new ≡ by_key self.old) }
    {
        let position = self.list.len();
        let Ok(_) = u32::try_from(position) else {
            return Err(AllocError);
        };
        self.list.reserve(1)?;
        self.tree.insert(key, position as u32)?;
        self.list.push_reserved((key, value));
        self.hints.note(self.list.as_slice(), NOTED_AT_ONCE);
        Ok(())
    }

    /// Removes a key; nothing changes if it is absent. The last entry takes its position. Takes no memory.
    pub(crate) fn remove(&mut self, key: &Key)
        requires { IsIndexed self.old }
        ensures indexed { IsIndexed self.new }
        ensures gone { IsGoneAt (by_key self.old) (by_key self.new) key.now }
    {
        let Some(position) = self.tree.remove(key) else {
            return;
        };
        let _ = self.list.swap_remove(position as usize);
        if (position as usize) < self.list.len() {
            let moved = self.list[position as usize].0;
            if let Some(place) = self.tree.get_mut(&moved) {
                *place = position;
            }
        }
        self.hints
            .note_removal(key, position as usize, self.list.as_slice());
    }

    /// The keys, ascending, each with its value.
    pub(crate) fn iter(&self) -> StoreIter<'_>
        requires { IsIndexed self.now }
        ensures all { result ≡ by_key self.now }
        ensures ascending { AreAscending (by_key self.now) }
    {
        StoreIter::new(self.tree.iter(), self.list.as_slice())
    }

    /// The keys from one on, ascending, each with its value. The first is found by the tree.
    pub(crate) fn iter_from(&self, from: &Key) -> StoreRange<'_>
        requires { IsIndexed self.now }
        ensures all { result ≡ filter (is_from from.now) (by_key self.now) }
        ensures ascending { AreAscending (by_key self.now) }
    {
        StoreRange::new(self.tree.range(*from..), self.list.as_slice())
    }

    /// An equal table; refused if memory ran out.
    pub(crate) fn copy(&self) -> Result<EntryTable, AllocError>
        requires { IsIndexed self.now }
        ensures all { IfOk result (λ table. by_key table ≡ by_key self.now) }
        ensures indexed { IfOk result (λ table. IsIndexed table) }
    {
        let list = self.list.clone()?;
        let tree = self.tree.clone()?;
        let hints = self.hints.copy()?;
        Ok(EntryTable { list, tree, hints })
    }
}
