//! The keys at which calls wait, with the calls that change each and how many waits there are at it.

ghost use Rattle.std.specs.Prelude.{◌≡◌, IfOk};
ghost use Rattle.conflicts.specs.Calls.{hot_key, hot_keys};

use crate::call_lists::CallLists;
use crate::hot_key::HotKey;
use crate::wait_counts::WaitCounts;
use rv_ledger::Key;
use std::alloc::{AllocError, Global};

/// The keys with a wait, ascending, each with its writers and the number of its waits. Refused if memory ran out.
pub(crate) fn hot_keys(
    alloc: Global,
    writers: &CallLists,
    waits: &WaitCounts,
) -> Result<Vec<HotKey>, AllocError>
    ensures { IfOk result (λ keys. keys.items ≡ hot_keys writers.now waits.now) }
{
    let mut keys = Vec::new(alloc);
    for (key, _) in waits.iter() {
        let hot = hot_key(alloc, *key, writers, waits)?;
        keys.push(hot)?;
    }
    Ok(keys)
}

/// A key with its writers and the number of its waits. Refused if memory ran out.
fn hot_key(
    alloc: Global,
    key: Key,
    writers: &CallLists,
    waits: &WaitCounts,
) -> Result<HotKey, AllocError>
    ensures { IfOk result (λ hot. hot ≡ hot_key writers.now waits.now key) }
{
    let mut calls = Vec::new(alloc);
    calls.extend_from_slice(writers.at(&key))?;
    Ok(HotKey {
        key,
        writers: calls,
        waits: waits.at(&key),
    })
}
