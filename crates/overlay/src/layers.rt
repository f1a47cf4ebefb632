//! A storage with changes over it.

ghost use Rattle.std.specs.Prelude.{◌≡◌, IfOk, OnErr, OnOk};
ghost use Rattle.std.specs.FinMap as map;
ghost use Rattle.std.specs.Option.{option_copied};
ghost use Rattle.rv_ledger.specs.Applied.{apply_write, apply_writes};
ghost use Rattle.rv_ledger.specs.Applied.{apply_receipts, set_content};
ghost use Rattle.overlay.specs.Overlay.{with_changes};

use crate::overlay::Overlay;
use rv_ledger::{Change, Contents, Key, LentValue, Receipt, Store, StoredValue, Writes, add};
use std::alloc::AllocError;

/// A storage with changes over it. It stands for the storage that has them.
#[derive(Drop)]
pub struct Layers<'a> {
    /// The storage.
    pub base: &'a Store,
    /// The changes.
    pub over: &'a Overlay,
}

impl Contents for Layers<'_> {
    ghost storage = { λ l. with_changes l.base.now l.over.now };

    fn get(&self, key: &Key) -> Option<&StoredValue> {
        content(self.base, self.over, key)
    }
}

/// The value at a key of a storage with changes over it, or None if the key is absent.
#[tactic(auto, using(crate::proofs::WithChanges::get_with_changes))]
fn content<'a>(base: &'a Store, over: &'a Overlay, key: &Key) -> Option<&'a StoredValue>
    ensures { option_copied result ≡ map.get (with_changes base.now over.now) key.now }
{
    match over.get(key) {
        Some(content) => content.as_ref(),
        None => base.get(key),
    }
}

/// Adds the writes of receipts, one after another, to the changes over a storage. Refused if memory ran out, and then
/// nothing changes.
pub fn apply_receipts(
    base: &Store,
    over: &mut Overlay,
    receipts: &[Receipt],
) -> Result<(), AllocError>
    ensures ok { OnOk result (with_changes base.now over.new ≡ apply_receipts (with_changes base.now over.old) receipts.now) }
    ensures err { OnErr result (over.new ≡ over.old) }
{
    let mut changes = over.copy()?;
    for receipt in receipts {
        apply_writes(base, &mut changes, &receipt.writes)?;
    }
    *over = changes;
    Ok(())
}

/// A copy of a storage after the writes of receipts, one after another. Refused if memory ran out.
pub fn copy_with_receipts(store: &Store, receipts: &[Receipt]) -> Result<Store, AllocError>
    ensures { IfOk result (λ s. s ≡ apply_receipts store.now receipts.now) }
{
    let mut after = store.copy()?;
    for receipt in receipts {
        rv_ledger::apply_writes(&mut after, &receipt.writes)?;
    }
    Ok(after)
}

/// Adds the writes of a call to the changes over a storage. Refused if memory ran out, and then some of them may be
/// added.
#[tactic(auto, unfolding(rv_ledger::specs::Applied::apply_writes))]
pub fn apply_writes(base: &Store, over: &mut Overlay, writes: &Writes) -> Result<(), AllocError>
    ensures { OnOk result (with_changes base.now over.new ≡ apply_writes (with_changes base.now over.old) writes.now) }
{
    for (key, change) in writes.as_slice() {
        apply_write(base, over, key, change)?;
    }
    Ok(())
}

/// Adds one write. Refused if memory ran out.
#[tactic(auto, using(crate::proofs::WithChanges::one_more_change))]
fn apply_write(
    base: &Store,
    over: &mut Overlay,
    key: &Key,
    change: &Change<StoredValue>,
) -> Result<(), AllocError>
    ensures { OnOk result (with_changes base.now over.new ≡ apply_write (with_changes base.now over.old) key.now change.now) }
{
    match change {
        Change::Value(value) => over.set(*key, Some(value.clone()?)),
        Change::Gone => over.set(*key, None),
        Change::Sum(amount) => {
            let value = add(LentValue::of_stored(content(base, over, key)), *amount);
            over.set(*key, Some(StoredValue::of(over.allocator(), value.lend())?))
        }
    }
}
