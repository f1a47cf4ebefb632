//! Applying the writes of a call to a storage.

ghost use Rattle.std.specs.Prelude.{◌≡◌, OnErr, OnOk};
ghost use Rattle.rv_ledger.specs.Applied.{ArePartlyApplied, apply_writes};

use crate::change::Change;
use crate::store::Store;
use crate::writes::Writes;
use std::alloc::AllocError;

/// Applies the writes of a call to a storage in the order of their keys: a key that the call removed is removed, and a
/// sum is added to the key's number. Refused if memory ran out for one of them, and then those before it are applied.
#[tactic(auto, unfolding(crate::specs::Applied::apply_writes))]
pub fn apply_writes(store: &mut Store, writes: &Writes) -> Result<(), AllocError>
    ensures ok { OnOk result (store.new ≡ apply_writes store.old writes.now) }
    ensures err { OnErr result (ArePartlyApplied store.old writes.now store.new) }
{
    for (key, change) in writes.as_slice() {
        match change {
            Change::Value(value) => store.insert_lent(*key, value.lend())?,
            Change::Gone => store.remove(key),
            Change::Sum(amount) => store.add(key, *amount)?,
        }
    }
    Ok(())
}
