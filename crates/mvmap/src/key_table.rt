//! The slots at each key, in a list. Hints say the positions of most keys in it, and a tree says those of the others.

ghost use Rattle.std.specs.Prelude.{◌≡◌, ◌≤◌, ◌↔◌, ◌⊎◌, ℕ, [], IfOk, IsTrue, List, None, OnErr, OnOk, Some};
ghost use Rattle.rv_ledger.specs.Positions.{position_of};
ghost use Rattle.mvmap.specs.Hints.{hint_of, noted};
ghost use Rattle.mvmap.specs.KeyTable.{AreSlotsSetAt, IsKeyTableIndexed, positions_of, slot_key_at, slots_by_key, slots_in, writers_at};
ghost use Rattle.mvmap.specs.Writers.{AreWritersAscending};
ghost use Rattle.mvmap.specs.declared.hints.Hint.TheVariants.{At, Nothing};

use crate::hints::{Hint, Hints};
use crate::slot::Slot;
use crate::writers::WriterSlots;
use rv_ledger::Key;
use std::alloc::{AllocError, Global};
use std::collections::BTreeMap;

/// The number of keys that the list gets room for with its first key. So the keys of most blocks are never moved.
const FIRST_ROOM: usize = 1024;

/// A key with its slots.
#[derive(Drop)]
pub(crate) struct KeySlots {
    pub(crate) key: Key,
    pub(crate) writers: WriterSlots,
}

/// Keys with their slots.
#[derive(Drop)]
pub(crate) struct KeyTable {
    /// The slots, in the order in which their keys came first.
    pub(crate) list: Vec<KeySlots>,
    /// For most keys, their position in the list.
    hints: Hints,
    /// The position of each key that the hints do not find.
    others: BTreeMap<Key, usize>,
    alloc: Global,
}

impl KeyTable {
    /// No keys. Takes no memory.
    #[tactic(auto, using(crate::proofs::KeyTables::no_positions))]
    pub(crate) fn new(alloc: Global) -> KeyTable
        ensures none { slots_by_key result ≡ [] }
        ensures indexed { IsKeyTableIndexed result }
    {
        KeyTable {
            list: Vec::new(alloc),
            hints: Hints::new(alloc),
            others: BTreeMap::new(alloc),
            alloc,
        }
    }

    /// The slots at a position, each after the index of its call, and ascending by it; none past the end.
    #[tactic(auto, using(crate::proofs::Searches::no_writers))]
    pub(crate) fn slots_at(&self, position: usize) -> &[(u16, Slot)]
        ensures all { result.now ≡ slots_in self.now.list.items position }
        ensures ascending { AreWritersAscending result.now }
    {
        match self.list.as_slice().get(position) {
            Some(slots) => slots.writers.as_slice(),
            None => &[],
        }
    }

    /// The position of a key.
    #[inline(always)]
    pub(crate) fn find(&self, key: &Key) -> Option<usize>
        requires { IsKeyTableIndexed self.now }
        ensures { result ≡ position_of (positions_of self.now.list.items) key.now }
    {
        match self.hints.of(key) {
            Hint::Nothing => None,
            Hint::At(position) if self.stands_at(key, position) => Some(position),
            _ => self.search(key),
        }
    }

    /// Whether a key is at a position of the list.
    #[inline(always)]
    fn stands_at(&self, key: &Key, position: usize) -> bool
        ensures { IsTrue result ↔ (slot_key_at self.now.list.items position ≡ Some key.now) }
    {
        match self.list.as_slice().get(position) {
            Some(slots) => slots.key == *key,
            None => false,
        }
    }

    /// The position that the tree says for a key.
    #[inline(never)]
    fn search(&self, key: &Key) -> Option<usize>
        ensures { result ≡ position_of self.now.others.entries key.now }
    {
        match self.others.get(key) {
            Some(position) => Some(*position),
            None => None,
        }
    }

    /// The position of a key. A new key is added without slots. Refused if memory ran out, and then nothing changes.
    pub(crate) fn position_for(&mut self, key: &Key) -> Result<usize, AllocError>
        requires { IsKeyTableIndexed self.old }
        ensures indexed { IsKeyTableIndexed self.new }
        ensures position { IfOk result (λ position. position_of (positions_of self.new.list.items) key.now ≡ Some position) }
        ensures set { OnOk result (AreSlotsSetAt (slots_by_key self.old) (slots_by_key self.new) key.now (writers_at (slots_by_key self.old) key.now)) }
        ensures absent { OnErr result (position_of (positions_of self.old.list.items) key.now ≡ None) }
        ensures unchanged { OnErr result (slots_by_key self.new ≡ slots_by_key self.old) }
    {
        match self.find(key) {
            Some(position) => Ok(position),
            None => self.add(key),
        }
    }

    /// Adds a key that is not there, without slots, and returns its position. Room in the list is made first, so that nothing
    /// changes if memory ran out. The buckets of hints are made only with the first key, so that no key of the table has an empty
    /// bucket. If memory for them is refused, the tree has all keys until the table is cleared.
    #[inline(never)]
    fn add(&mut self, key: &Key) -> Result<usize, AllocError>
        requires indexed { IsKeyTableIndexed self.old }
        requires absent { position_of (positions_of self.old.list.items) key.now ≡ None }
        ensures indexed { IsKeyTableIndexed self.new }
        ensures position { IfOk result (λ position. position_of (positions_of self.new.list.items) key.now ≡ Some position) }
        ensures set { OnOk result (AreSlotsSetAt (slots_by_key self.old) (slots_by_key self.new) key.now []) }
        ensures unchanged { OnErr result (slots_by_key self.new ≡ slots_by_key self.old) }
    {
        self.list
            .reserve(if self.list.is_empty() { FIRST_ROOM } else { 1 })?;
        let position = self.list.len();
        if position == 0 {
            self.hints.open();
        }
        self.note_position(key, position)?;
        self.list.push_reserved(KeySlots {
            key: *key,
            writers: WriterSlots::new(self.alloc),
        });
        Ok(position)
    }

    /// Notes the position that a key will have: as the hint of its bucket, or in the tree. The position goes into the tree if the
    /// bucket has a hint already, if there are no buckets, or if the position is past the last that a hint can say. Refused if
    /// memory for the tree ran out.
    #[inline(always)]
    fn note_position(&mut self, key: &Key, position: usize) -> Result<(), AllocError>
        ensures list { self.new.list ≡ self.old.list }
        ensures buckets { self.new.hints.buckets.items ≡ noted self.old.hints.buckets.items key.now position }
        ensures found { OnOk result ((hint_of self.new.hints.buckets.items key.now ≡ At position) ⊎ (position_of self.new.others.entries key.now ≡ Some position)) }
        ensures others { (q : List ℕ) → (position_of self.new.others.entries q ≡ position_of self.old.others.entries q) ⊎ ((key.now ≡ q) × (position_of self.new.others.entries q ≡ Some position)) }
        ensures spared { hint_of self.old.hints.buckets.items key.now ≡ Nothing → position ≤ 65534 → self.new.others.entries ≡ self.old.others.entries }
        ensures unchanged { OnErr result (self.new.others.entries ≡ self.old.others.entries) }
    {
        if !self.hints.note(key, position) {
            self.others.insert(*key, position)?;
        }
        Ok(())
    }

    /// Removes all keys. Room in the list stays. Takes no memory.
    #[tactic(auto, using(crate::proofs::KeyTables::no_positions))]
    pub(crate) fn clear(&mut self)
        ensures none { slots_by_key self.new ≡ [] }
        ensures indexed { IsKeyTableIndexed self.new }
    {
        self.list.clear();
        self.hints.clear();
        self.others.clear();
    }
}
