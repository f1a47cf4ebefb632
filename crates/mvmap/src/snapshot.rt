//! The storage after a block.

ghost use Rattle.std.specs.Prelude.{◌≡◌, ℕ, List, OnOk, cond};
ghost use Rattle.std.specs.FinMap as map;
ghost use Rattle.rv_ledger.specs.Change.{apply_change};
ghost use Rattle.rv_ledger.specs.Lent.{lent_change};
ghost use Rattle.std.specs.List.Sorted.{IsStrictlySortedBy};
ghost use Rattle.std.specs.Map.{keys_of};
ghost use Rattle.std.specs.Ordering.{eq_by_cmp};
ghost use Rattle.rv_ledger.specs.Key.{key_cmp};
ghost use Rattle.mvmap.specs.Versions.{place_cmp};
ghost use Rattle.mvmap.specs.Slots.{at_places, entry_of, value_over, value_over_slots};

use crate::slot::Slot;
use crate::slots::Slots;
use rv_ledger::{Change, Key, LentValue, Store};
use std::alloc::AllocError;
use version_arena::Arena;

/// Applies the versions to a storage, key by key, and at each key by writer. Refused if memory ran out: then the storage must be
/// dropped.
pub(crate) fn apply_slots(slots: &Slots, arena: &Arena, store: &mut Store) -> Result<(), AllocError>
    ensures values { OnOk result ((key : List ℕ) → map.get store.new key ≡ value_over_slots arena.now.records slots.now key (map.get store.old key)) }
    ensures ordered { OnOk result (IsStrictlySortedBy place_cmp (keys_of slots.now)) }
{
    let table = &slots.table;
    for at_key in &table.list {
        apply_at_key(at_key.writers.as_slice(), arena, &at_key.key, store)?;
    }
    Ok(())
}

/// Applies the versions of the slots at a key to a storage. Refused if memory ran out: then the storage must be dropped.
fn apply_at_key(
    at_key: &[(u16, Slot)],
    arena: &Arena,
    key: &Key,
    store: &mut Store,
) -> Result<(), AllocError>
    ensures { OnOk result ((k : List ℕ) → map.get store.new k ≡ value_over_slots arena.now.records (at_places key.now at_key.now) k (map.get store.old k)) }
{
    for (_, slot) in at_key {
        apply_slot(slot, arena, key, store)?;
    }
    Ok(())
}

/// Applies the version of a slot to a storage; a vacant slot or an estimate changes nothing. Refused if memory ran out: then the
/// storage must be dropped.
fn apply_slot(slot: &Slot, arena: &Arena, key: &Key, store: &mut Store) -> Result<(), AllocError>
    ensures { OnOk result ((k : List ℕ) → map.get store.new k ≡ cond (eq_by_cmp key_cmp k key.now) (value_over (map.get store.old k) (entry_of arena.now.records slot.now)) (map.get store.old k)) }
{
    let Slot::Placed(id) = slot else {
        return Ok(());
    };
    let Some(record) = arena.get(*id) else {
        return Ok(());
    };
    write(key, &record.change, store)
}

/// Makes a change to a key of a storage. Refused if memory ran out: then the storage must be dropped.
fn write(key: &Key, change: &Change<LentValue>, store: &mut Store) -> Result<(), AllocError>
    ensures { OnOk result ((k : List ℕ) → map.get store.new k ≡ cond (eq_by_cmp key_cmp k key.now) (apply_change (lent_change change.now) (map.get store.old k)) (map.get store.old k)) }
{
    match change {
        Change::Value(value) => store.insert_lent(*key, *value)?,
        Change::Gone => store.remove(key),
        Change::Sum(amount) => store.add(key, *amount)?,
    }
    Ok(())
}
