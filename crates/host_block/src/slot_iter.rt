//! The iterator over the slots of a block.

ghost use Rattle.std.specs.Prelude.{◌≡◌, length};
ghost use Rattle.std.specs.Iterator.{at_most};
ghost use Rattle.std.specs.Map.Iter.{TakesFirst, deref_pair};
ghost use Rattle.host_block.specs.Positions.{AreSlotsWithin, ascending_slots};

use crate::slot::Slot;
use rv_ledger::Key;
use std::collections::btree_map::Iter;
use std::iter::FusedIterator;
use std::marker::Model;

/// The keys that are left, ascending, each with its slot.
#[derive(Drop)]
pub(crate) struct SlotIter<'a> {
    positions: Iter<'a, Key, usize>,
    list: &'a [(Key, Slot)],
}

impl<'a> Model for SlotIter<'a> {
    ghost use Rattle.std.specs.Prelude.{ℕ, List};
    ghost use Rattle.host_block.specs.Positions.{AreSlotsWithin, SlotList, ascending_slots};

    ghost Value = { SlotList };

    ghost view = { λ e. ascending_slots e.positions e.list.now };

    ghost invariant = { λ e. AreSlotsWithin e.positions e.list.now };
}

impl<'a> SlotIter<'a> {
    /// The slots at these positions of a list.
    pub(crate) fn new(positions: Iter<'a, Key, usize>, list: &'a [(Key, Slot)]) -> SlotIter<'a>
        requires { AreSlotsWithin positions list.now }
        ensures { result ≡ ascending_slots positions.entry list.now }
    {
        SlotIter { positions, list }
    }
}

impl<'a> Iterator for SlotIter<'a> {
    type Item = (&'a Key, &'a Slot);

    ghost next_gives = { TakesFirst deref_pair };

    ghost remaining = { λ s. at_most (length s) };

    fn next(&mut self) -> Option<(&'a Key, &'a Slot)> {
        match self.positions.next() {
            Some((key, position)) => Some((key, &self.list[*position].1)),
            None => None,
        }
    }
}

impl<'a> FusedIterator for SlotIter<'a> {}
