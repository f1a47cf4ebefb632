//! The slots of a block: a list of them, a tree with the position of each key in the list, and hints of the same positions.

ghost use Rattle.std.specs.Prelude.{◌≡◌, ◌↔◌, [], IfOk, IsTrue, None, OnErr, OnOk, Some};
ghost use Rattle.std.specs.Option.{option_copied};
ghost use Rattle.rv_ledger.specs.Entries.{AreAscending};
ghost use Rattle.rv_ledger.specs.Positions.{position_of};
ghost use Rattle.host_block.specs.Positions.{IsTableIndexed, IsSlotPlaced, IsSlotSetAt, table_slots, listed_key_at, slot_at_key, with_base, with_change};

use crate::hints::Hints;
use crate::slot::Slot;
use crate::slot_iter::SlotIter;
use rv_ledger::{Change, Key, StoredValue};
use std::alloc::{AllocError, Global};
use std::collections::BTreeMap;

/// Keys with their slots. Most keys are found by a hint. The tree finds the others, so no choice of keys makes a search slow.
#[derive(Drop)]
pub(crate) struct SlotTable {
    /// The slots, in the order in which they were added.
    pub(crate) list: Vec<(Key, Slot)>,
    /// The position of each key in the list.
    tree: BTreeMap<Key, usize>,
    /// For most keys, a hint of the same.
    pub(crate) hints: Hints,
}

impl SlotTable {
    /// No slots. Takes no memory.
    pub(crate) fn new(alloc: Global) -> SlotTable
        ensures none { table_slots result ≡ [] }
        ensures indexed { IsTableIndexed result }
    {
        SlotTable {
            list: Vec::new(alloc),
            tree: BTreeMap::new(alloc),
            hints: Hints::new(alloc),
        }
    }

    /// The slot of a key.
    pub(crate) fn get(&self, key: &Key) -> Option<&Slot>
        requires { IsTableIndexed self.now }
        ensures { option_copied result ≡ slot_at_key (table_slots self.now) key.now }
    {
        match self.find(key) {
            Some(position) => Some(&self.list[position].1),
            None => None,
        }
    }

    /// The same, soonest found if the key is at this position.
    #[inline(always)]
    pub(crate) fn get_at(&self, key: &Key, position: usize) -> Option<&Slot>
        requires { IsTableIndexed self.now }
        ensures { option_copied result ≡ slot_at_key (table_slots self.now) key.now }
    {
        if self.stands_at(key, position) {
            return Some(&self.list[position].1);
        }
        self.get(key)
    }

    /// The position of a key.
    #[inline(always)]
    fn find(&self, key: &Key) -> Option<usize>
        requires { IsTableIndexed self.now }
        ensures { result ≡ position_of self.now.tree.entries key.now }
    {
        match self.hints.position(key) {
            Some(position) if self.stands_at(key, position) => Some(position),
            _ => self.search(key),
        }
    }

    /// Whether a key is at a position of the list.
    #[inline(always)]
    fn stands_at(&self, key: &Key, position: usize) -> bool
        ensures { IsTrue result ↔ (listed_key_at self.now.list.items position ≡ Some key.now) }
    {
        match self.list.as_slice().get(position) {
            Some(entry) => entry.0 == *key,
            None => false,
        }
    }

    /// The position of a key by the tree.
    #[inline(never)]
    fn search(&self, key: &Key) -> Option<usize>
        ensures { result ≡ position_of self.now.tree.entries key.now }
    {
        match self.tree.get(key) {
            Some(position) => Some(*position),
            None => None,
        }
    }

    /// Keeps what the host answered to a key. Refused if memory ran out, and then nothing changes.
    pub(crate) fn set_base(
        &mut self,
        key: &Key,
        content: Option<StoredValue>,
    ) -> Result<(), AllocError>
        requires { IsTableIndexed self.old }
        ensures indexed { IsTableIndexed self.new }
        ensures set { OnOk result (IsSlotSetAt (table_slots self.old) (table_slots self.new) key.now (with_base content (slot_at_key (table_slots self.old) key.now))) }
        ensures unchanged { OnErr result (table_slots self.new ≡ table_slots self.old) }
    {
        let position = self.place(key)?;
        self.list[position].1.base = Some(content);
        Ok(())
    }

    /// Gives a key a change, whatever it had. Refused if memory ran out, and then nothing changes.
    pub(crate) fn set_change(
        &mut self,
        key: &Key,
        change: Change<StoredValue>,
    ) -> Result<(), AllocError>
        requires { IsTableIndexed self.old }
        ensures indexed { IsTableIndexed self.new }
        ensures set { OnOk result (IsSlotSetAt (table_slots self.old) (table_slots self.new) key.now (with_change change (slot_at_key (table_slots self.old) key.now))) }
        ensures unchanged { OnErr result (table_slots self.new ≡ table_slots self.old) }
    {
        let position = self.place(key)?;
        self.list[position].1.change = Some(change);
        Ok(())
    }

    /// The position of a key. It gets a slot with nothing in it, if it has none. Refused if memory ran out, and then nothing changes.
    #[inline(always)]
    pub(crate) fn place(&mut self, key: &Key) -> Result<usize, AllocError>
        requires { IsTableIndexed self.old }
        ensures indexed { IsTableIndexed self.new }
        ensures at { IfOk result (λ position. position_of self.new.tree.entries key.now ≡ Some position) }
        ensures stays { OnOk result (IsSlotPlaced (table_slots self.old) (table_slots self.new) key.now) }
        ensures unchanged { OnErr result (table_slots self.new ≡ table_slots self.old) }
    {
        match self.hints.position(key) {
            Some(position) if self.stands_at(key, position) => Ok(position),
            _ => self.place_by_tree(key),
        }
    }

    /// The same by the tree. Room in the list is made first.
    #[inline(never)]
    fn place_by_tree(&mut self, key: &Key) -> Result<usize, AllocError>
        requires { IsTableIndexed self.old }
        ensures indexed { IsTableIndexed self.new }
        ensures at { IfOk result (λ position. position_of self.new.tree.entries key.now ≡ Some position) }
        ensures stays { OnOk result (IsSlotPlaced (table_slots self.old) (table_slots self.new) key.now) }
        ensures unchanged { OnErr result (table_slots self.new ≡ table_slots self.old) }
    {
        let last = self.list.len();
        self.list.reserve(1)?;
        match self.tree.insert(*key, last)? {
            None => {
                let slot = Slot {
                    base: None,
                    change: None,
                };
                self.list.push_reserved((*key, slot));
                self.hints.note(self.list.as_slice());
                Ok(last)
            }
            Some(position) => match self.tree.insert(*key, position) {
                Ok(_) => Ok(position),
                Err(_) => unreachable!(),
            },
        }
    }

    /// The keys, ascending, each with its slot.
    pub(crate) fn iter(&self) -> SlotIter<'_>
        requires { IsTableIndexed self.now }
        ensures all { result ≡ table_slots self.now }
        ensures ascending { AreAscending (table_slots self.now) }
    {
        SlotIter::new(self.tree.iter(), self.list.as_slice())
    }
}
