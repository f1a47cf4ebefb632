//! The keys that the calls of a block touched.

ghost use Rattle.std.specs.Prelude.{◌≡◌, IfOk};
ghost use Rattle.std.specs.Option.{option_copied};
ghost use Rattle.host_block.specs.Changes.{change_after};

use crate::slot::Slot;
use crate::slot_iter::SlotIter;
use crate::slot_table::SlotTable;
use rv_ledger::{Change, Key, StoredValue, add, wrapping_sum};
use std::alloc::{AllocError, Global};
use std::marker::Model;

/// The keys that the calls of a block touched: what the host answered, and what the calls changed.
#[derive(Drop)]
pub struct TouchedKeys {
    alloc: Global,
    table: SlotTable,
}

impl Model for TouchedKeys {
    ghost use Rattle.std.specs.FinMap as map;
    ghost use Rattle.std.specs.Coded.{codes, coded_list, coded_option, coded_ℕ};
    ghost use Rattle.rv_ledger.specs.Change.{coded_change};
    ghost use Rattle.rv_ledger.specs.Key.{key_cmp};
    ghost use Rattle.host_block.specs.Positions.{IsTableIndexed, table_slots};
    ghost use Rattle.host_block.specs.Slots.{TouchedView, touched_view};

    ghost Value = { TouchedView };

    ghost coded = { Prim.hlevel (codes, map.code {R = key_cmp} (coded_list coded_ℕ) coded_change, map.code {R = key_cmp} (coded_list coded_ℕ) (coded_option (coded_list coded_ℕ))) };

    ghost view = { λ t. touched_view (map.from_entries (table_slots t.table)) };

    ghost invariant = { λ t. IsTableIndexed t.table };
}

impl TouchedKeys {
    ghost use Rattle.std.specs.Prelude.{◌≡◌, OnErr, OnOk};
    ghost use Rattle.std.specs.FinMap as map;
    ghost use Rattle.std.specs.Option.{option_copied};
    ghost use Rattle.host_block.specs.Changes.{change_after};
    ghost use Rattle.host_block.specs.Slots.{AreSlots, slot_base, slot_change};

    /// No keys. Takes no memory.
    pub(crate) fn new(alloc: Global) -> TouchedKeys
        ensures { result ≡ record { bases = map.empty; changes = map.empty } }
    {
        TouchedKeys {
            alloc,
            table: SlotTable::new(alloc),
        }
    }

    /// What is kept of a key.
    pub(crate) fn get(&self, key: &Key) -> Option<&Slot>
        ensures base { slot_base (option_copied result) ≡ map.get self.now.bases key.now }
        ensures change { slot_change (option_copied result) ≡ map.get self.now.changes key.now }
    {
        self.table.get(key)
    }

    /// The same, soonest found if the key is at this position.
    #[inline(always)]
    pub(crate) fn get_at(&self, key: &Key, position: usize) -> Option<&Slot>
        ensures base { slot_base (option_copied result) ≡ map.get self.now.bases key.now }
        ensures change { slot_change (option_copied result) ≡ map.get self.now.changes key.now }
    {
        self.table.get_at(key, position)
    }

    /// Makes room for what will be kept of a key, which changes nothing that is seen. Returns the position of that room. Refused if
    /// memory ran out.
    #[inline(always)]
    pub(crate) fn touch(&mut self, key: &Key) -> Result<usize, AllocError>
        ensures { self.new ≡ self.old }
    {
        self.table.place(key)
    }

    /// Makes room for this many keys if there are none yet, which changes nothing that is seen. Refused if memory ran out.
    pub(crate) fn reserve_first(&mut self, count: usize) -> Result<(), AllocError>
        ensures { self.new ≡ self.old }
    {
        if self.table.list.is_empty() {
            self.table.list.reserve(count)?;
            self.table.hints.reserve(count);
        }
        Ok(())
    }

    /// How many keys there are.
    pub(crate) fn len(&self) -> usize {
        self.table.list.len()
    }

    /// The keys, ascending, each with what is kept of it.
    pub(crate) fn iter(&self) -> SlotIter<'_>
        ensures { AreSlots result self.now }
    {
        self.table.iter()
    }

    /// The allocator of what it keeps.
    pub(crate) fn allocator(&self) -> Global {
        self.alloc
    }

    /// Keeps what the host answered to a key. Refused if memory ran out, and then nothing changes.
    pub(crate) fn set_base(
        &mut self,
        key: Key,
        content: Option<StoredValue>,
    ) -> Result<(), AllocError>
        ensures ok { OnOk result (self.new ≡ record self.old { bases = map.insert self.old.bases key content }) }
        ensures err { OnErr result (self.new ≡ self.old) }
    {
        self.table.set_base(&key, content)
    }

    /// Adds a write of a call to the changes of its key. Refused if memory ran out, and then nothing changes.
    pub(crate) fn add_write(
        &mut self,
        key: &Key,
        write: &Change<StoredValue>,
    ) -> Result<(), AllocError>
        ensures ok { OnOk result (self.new ≡ record self.old { changes = map.insert self.old.changes key.now (change_after (map.get self.old.changes key.now) write.now) }) }
        ensures err { OnErr result (self.new ≡ self.old) }
    {
        let change = match write {
            Change::Value(value) => Change::Value(value.clone()?),
            Change::Gone => Change::Gone,
            Change::Sum(amount) => change_after_sum(self.alloc, self.change(key), *amount)?,
        };
        self.set_change(*key, change)
    }

    /// What the calls changed at a key.
    fn change(&self, key: &Key) -> Option<&Change<StoredValue>>
        ensures { option_copied result ≡ map.get self.now.changes key.now }
    {
        match self.get(key) {
            Some(slot) => slot.change.as_ref(),
            None => None,
        }
    }

    /// Gives a key a change, whatever it had. Refused if memory ran out, and then nothing changes.
    fn set_change(&mut self, key: Key, change: Change<StoredValue>) -> Result<(), AllocError>
        ensures ok { OnOk result (self.new ≡ record self.old { changes = map.insert self.old.changes key change }) }
        ensures err { OnErr result (self.new ≡ self.old) }
    {
        self.table.set_change(&key, change)
    }
}
/// The change of a key after an amount is added to it; refused if memory ran out.
fn change_after_sum(
    alloc: Global,
    before: Option<&Change<StoredValue>>,
    amount: u64,
) -> Result<Change<StoredValue>, AllocError>
    ensures { IfOk result (λ change. change ≡ change_after (option_copied before.entry) (Change.Sum amount)) }
{
    match before {
        None => Ok(Change::Sum(amount)),
        Some(Change::Sum(sum)) => Ok(Change::Sum(wrapping_sum(*sum, amount))),
        Some(Change::Value(value)) => {
            let sum = add(Some(value.lend()), amount);
            Ok(Change::Value(StoredValue::of(alloc, sum.lend())?))
        }
        Some(Change::Gone) => {
            let sum = add(None, amount);
            Ok(Change::Value(StoredValue::of(alloc, sum.lend())?))
        }
    }
}
