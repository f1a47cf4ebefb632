//! The slots of a map. They are made in advance, so that writing into one takes no memory.

ghost use Rattle.std.specs.Prelude.{◌≡◌, ◌≢◌, ℕ, [], IsSome, Ok, OnOk, cond};
ghost use Rattle.std.specs.Option.{option_map};
ghost use Rattle.std.specs.List.{All};
ghost use Rattle.std.specs.BTreeMap.{is_at};
ghost use Rattle.mvmap.specs.Versions.{Place, place_cmp};
ghost use Rattle.mvmap.specs.Slots.{AreSlotsOpened, slot_at};
ghost use Rattle.mvmap.specs.Writers.{AreWritersAscending, slot_of};

use crate::key_table::KeyTable;
use crate::slot::Slot;
use rv_ledger::{Change, Key, StoredValue};
use std::alloc::{AllocError, Global};
use std::marker::Model;

/// The slots by key, and then by the index of the call.
#[derive(Drop)]
pub(crate) struct Slots {
    pub(crate) table: KeyTable,
}

impl Model for Slots {
    ghost use Rattle.mvmap.specs.KeyTable.{IsKeyTableIndexed, slots_by_key};
    ghost use Rattle.mvmap.specs.Slots.{SlotsByPlace, flat};

    ghost Value = { SlotsByPlace };

    ghost view = { λ s. flat (slots_by_key s.table) };

    ghost invariant = { λ s. IsKeyTableIndexed s.table };
}

impl Slots {
    /// No slots. Takes no memory.
    pub(crate) fn new(alloc: Global) -> Slots
        ensures { result ≡ [] }
    {
        Slots {
            table: KeyTable::new(alloc),
        }
    }

    /// The slots at a key, each after the index of its call, and ascending by it.
    #[tactic(auto, using(crate::proofs::Searches::no_writers))]
    #[inline(always)]
    pub(crate) fn at(&self, key: &Key) -> &[(u16, Slot)]
        ensures slots { (w : ℕ) → slot_at self.now (key.now, w) ≡ slot_of result.now w }
        ensures ascending { AreWritersAscending result.now }
    {
        match self.table.find(key) {
            Some(position) => self.table.slots_at(position),
            None => &[],
        }
    }

    /// Makes a slot of a call at the key of each of these writes, if it has none there. Refused if memory ran out: then some of
    /// the slots may have been made.
    pub(crate) fn open_all(
        &mut self,
        writes: &[(Key, Change<StoredValue>)],
        writer: u16,
    ) -> Result<(), AllocError>
        ensures opened { AreSlotsOpened self.old self.new }
        ensures ok { OnOk result (All (λ write. IsSome (slot_at self.new (write.0, writer))) writes.now) }
        ensures elsewhere { (place : Place) → All (λ write. (write.0, writer) ≢ place) writes.now → slot_at self.new place ≡ slot_at self.old place }
        ensures succeeds { All (λ write. IsSome (slot_at self.old (write.0, writer))) writes.now → result ≡ Ok tt }
    {
        for (key, _) in writes {
            self.open(key, writer)?;
        }
        Ok(())
    }

    /// Makes a vacant slot of a call at a key, if none is there. Refused if memory ran out.
    fn open(&mut self, key: &Key, writer: u16) -> Result<(), AllocError>
        ensures opened { AreSlotsOpened self.old self.new }
        ensures ok { OnOk result (IsSome (slot_at self.new (key.now, writer))) }
        ensures elsewhere { (place : Place) → (key.now, writer) ≢ place → slot_at self.new place ≡ slot_at self.old place }
        ensures succeeds { IsSome (slot_at self.old (key.now, writer)) → result ≡ Ok tt }
    {
        let position = self.table.position_for(key)?;
        self.table.list[position].writers.open(writer)
    }

    /// Writes into the slot of a call at a key; nothing changes if there is none.
    #[inline(always)]
    pub(crate) fn put(&mut self, key: &Key, writer: u16, slot: Slot)
        ensures { (place : Place) → slot_at self.new place ≡ cond (is_at (place_cmp (key.now, writer)) place) (option_map (λ _. slot) (slot_at self.old place)) (slot_at self.old place) }
    {
        match self.table.find(key) {
            Some(position) => self.table.list[position].writers.put(writer, slot),
            None => {}
        }
    }

    /// Removes all slots. Takes no memory.
    pub(crate) fn clear(&mut self)
        ensures { self.new ≡ [] }
    {
        self.table.clear();
    }
}
