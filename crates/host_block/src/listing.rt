//! The changes of a block, as its result lists them.

ghost use Rattle.std.specs.Prelude.{◌≡◌, IfOk};
ghost use Rattle.std.specs.FinMap as map;
ghost use Rattle.std.specs.Option.{option_copied};
ghost use Rattle.host_block.specs.Changes.{listed_changes, resolved};
ghost use Rattle.host_block.specs.Ordered.{sum_keys};

use crate::touched_keys::TouchedKeys;
use rv_ledger::{Change, Key, LentValue, StoredValue, add};
use std::alloc::{AllocError, Global};

/// The keys to which the calls only add, ascending; refused if memory ran out.
pub(crate) fn sum_keys(touched: &TouchedKeys) -> Result<Vec<Key>, AllocError>
    ensures { IfOk result (λ keys. keys.items ≡ sum_keys (map.entries touched.now.changes)) }
{
    let mut keys = Vec::new(touched.allocator());
    for (key, slot) in touched.iter() {
        if let Some(Change::Sum(_)) = &slot.change {
            keys.push(*key)?;
        }
    }
    Ok(keys)
}

/// The changed keys, ascending, each with what it has after the block. Added amounts are resolved over what is known. Refused if
/// memory ran out.
pub(crate) fn listed(touched: &TouchedKeys) -> Result<Vec<(Key, Option<StoredValue>)>, AllocError>
    ensures { IfOk result (λ list. list.items ≡ listed_changes touched.now.bases touched.now.changes) }
{
    let alloc = touched.allocator();
    let mut list = Vec::with_capacity(alloc, touched.len())?;
    for (key, slot) in touched.iter() {
        if let Some(change) = &slot.change {
            list.push((*key, resolved(alloc, change, slot.base.as_ref())?))?;
        }
    }
    Ok(list)
}

/// What a key has after its change, over what is known of it before; refused if memory ran out.
fn resolved(
    alloc: Global,
    change: &Change<StoredValue>,
    base: Option<&Option<StoredValue>>,
) -> Result<Option<StoredValue>, AllocError>
    ensures { IfOk result (λ content. content ≡ resolved change.now (option_copied base.entry)) }
{
    match change {
        Change::Value(value) => Ok(Some(value.clone()?)),
        Change::Gone => Ok(None),
        Change::Sum(amount) => {
            let content = match base {
                Some(content) => LentValue::of_stored(content.as_ref()),
                None => None,
            };
            let sum = add(content, *amount);
            Ok(Some(StoredValue::of(alloc, sum.lend())?))
        }
    }
}
