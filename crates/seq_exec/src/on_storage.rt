//! Running calls on a storage that stays, at a cost in proportion to what the calls do.

ghost use Rattle.std.specs.Prelude.{◌≡◌, IfOk, OnOk};
ghost use Rattle.rv_step.specs.Fold.{receipts_of, store_after};
ghost use Rattle.overlay.specs.Overlay.{with_changes};

use crate::counted_layers::CountedLayers;
use overlay::{Layers, Overlay, apply_writes};
use rv_ledger::{Call, Receipt, Store};
use rv_step::{SpareMachine, receipt_over};
use std::alloc::{AllocError, Global};
use std::cell::Cell;

/// Runs calls in order on a storage with changes over it, and adds their writes to the changes. Refused if memory ran
/// out, and then some of them may be added.
pub fn run_over(
    alloc: Global,
    base: &Store,
    over: &mut Overlay,
    calls: &[Call],
) -> Result<Vec<Receipt>, AllocError>
    ensures receipts { IfOk result (λ r. r.items ≡ receipts_of calls.now (with_changes base.now over.old)) }
    ensures store { OnOk result (with_changes base.now over.new ≡ store_after calls.now (with_changes base.now over.old)) }
{
    let (receipts, _reads) = run_counted(alloc, base, over, calls)?;
    Ok(receipts)
}

/// Like `run_over`; returns beside the receipts how often the calls read the storage. Promises nothing about that number.
#[tactic(auto, unfolding(rv_step::specs::Fold::receipts_of, rv_step::specs::Fold::store_after))]
pub fn run_counted(
    alloc: Global,
    base: &Store,
    over: &mut Overlay,
    calls: &[Call],
) -> Result<(Vec<Receipt>, u64), AllocError>
    ensures receipts { IfOk result (λ ran. ran.0.items ≡ receipts_of calls.now (with_changes base.now over.old)) }
    ensures store { OnOk result (with_changes base.now over.new ≡ store_after calls.now (with_changes base.now over.old)) }
{
    let mut receipts = Vec::with_capacity(alloc, calls.len())?;
    let mut spare = SpareMachine::new();
    let reads = Cell::new(0);
    for call in calls {
        let contents = CountedLayers {
            layers: Layers { base, over },
            reads: &reads,
        };
        // A `?` would copy the receipt, which is large, once more.
        let Ok(receipt) = receipt_over(alloc, &mut spare, call, &contents) else {
            return Err(AllocError);
        };
        apply_writes(base, over, &receipt.writes)?;
        receipts.push(receipt)?;
    }
    Ok((receipts, reads.get()))
}
