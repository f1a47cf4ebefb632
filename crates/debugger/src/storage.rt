//! The storage before a call.

ghost use Rattle.std.specs.Prelude.{◌≡◌, take, IfOk};
ghost use Rattle.debugger.specs.Replay.{store_with_receipts};

use rv_ledger::{Receipt, Store, apply_writes};
use std::alloc::AllocError;

/// The first `count` receipts, or all if there are fewer.
pub(crate) fn first_receipts(receipts: &[Receipt], count: usize) -> &[Receipt]
    ensures { result.now ≡ take count receipts.now }
{
    if count < receipts.len() {
        &receipts[..count]
    } else {
        receipts
    }
}

/// The storage that receipts leave. Refused if memory ran out.
#[tactic(auto, unfolding(crate::specs::Replay::store_with_receipts))]
pub(crate) fn store_left(store: &Store, receipts: &[Receipt]) -> Result<Store, AllocError>
    ensures { IfOk result (λ s. s ≡ store_with_receipts store.now receipts.now) }
{
    let mut left = store.copy()?;
    for receipt in receipts {
        apply_writes(&mut left, &receipt.writes)?;
    }
    Ok(left)
}
