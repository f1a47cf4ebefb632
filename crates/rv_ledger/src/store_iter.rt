//! The iterators of a storage: over all of its keys, and over those from one key on.

ghost use Rattle.std.specs.Prelude.{◌≡◌, length};
ghost use Rattle.std.specs.Iterator.{at_most};
ghost use Rattle.std.specs.Map.Iter.{TakesFirst, deref_pair};
ghost use Rattle.rv_ledger.specs.Positions.{AreWithin, in_order};

use crate::key::Key;
use crate::stored_bytes::StoredValue;
use std::collections::btree_map::{Iter, Range};
use std::iter::FusedIterator;
use std::marker::Model;

/// The keys of a storage that are left, ascending, each with its value.
#[derive(Drop)]
pub struct StoreIter<'a> {
    positions: Iter<'a, Key, u32>,
    list: &'a [(Key, StoredValue)],
}

impl<'a> Model for StoreIter<'a> {
    ghost use Rattle.std.specs.Prelude.{ℕ, List};
    ghost use Rattle.rv_ledger.specs.Positions.{AreWithin, EntryList, in_order};

    ghost Value = { EntryList };

    ghost view = { λ e. in_order e.positions e.list.now };

    ghost invariant = { λ e. AreWithin e.positions e.list.now };
}

impl<'a> StoreIter<'a> {
    /// The entries at these positions of a list.
    pub(crate) fn new(
        positions: Iter<'a, Key, u32>,
        list: &'a [(Key, StoredValue)],
    ) -> StoreIter<'a>
        requires { AreWithin positions list.now }
        ensures { result ≡ in_order positions.entry list.now }
    {
        StoreIter { positions, list }
    }
}

impl<'a> Iterator for StoreIter<'a> {
    type Item = (&'a Key, &'a StoredValue);

    ghost next_gives = { TakesFirst deref_pair };

    ghost remaining = { λ s. at_most (length s) };

    fn next(&mut self) -> Option<(&'a Key, &'a StoredValue)> {
        match self.positions.next() {
            Some((key, position)) => Some((key, &self.list[*position as usize].1)),
            None => None,
        }
    }

    fn size_hint(&self) -> (usize, Option<usize>) {
        let len = self.len();
        (len, Some(len))
    }
}

impl<'a> ExactSizeIterator for StoreIter<'a> {
    fn len(&self) -> usize {
        self.positions.len()
    }
}

impl<'a> FusedIterator for StoreIter<'a> {}

/// The keys of a storage from one key on that are left, ascending, each with its value.
#[derive(Drop)]
pub struct StoreRange<'a> {
    positions: Range<'a, Key, u32>,
    list: &'a [(Key, StoredValue)],
}

impl<'a> Model for StoreRange<'a> {
    ghost use Rattle.std.specs.Prelude.{ℕ, List};
    ghost use Rattle.rv_ledger.specs.Positions.{AreWithin, EntryList, in_order};

    ghost Value = { EntryList };

    ghost view = { λ e. in_order e.positions e.list.now };

    ghost invariant = { λ e. AreWithin e.positions e.list.now };
}

impl<'a> StoreRange<'a> {
    /// The entries at these positions of a list.
    pub(crate) fn new(
        positions: Range<'a, Key, u32>,
        list: &'a [(Key, StoredValue)],
    ) -> StoreRange<'a>
        requires { AreWithin positions list.now }
        ensures { result ≡ in_order positions.entry list.now }
    {
        StoreRange { positions, list }
    }
}

impl<'a> Iterator for StoreRange<'a> {
    type Item = (&'a Key, &'a StoredValue);

    ghost next_gives = { TakesFirst deref_pair };

    ghost remaining = { λ s. at_most (length s) };

    fn next(&mut self) -> Option<(&'a Key, &'a StoredValue)> {
        match self.positions.next() {
            Some((key, position)) => Some((key, &self.list[*position as usize].1)),
            None => None,
        }
    }
}

impl<'a> FusedIterator for StoreRange<'a> {}
