//! Runs the calls of a block one after another, in block order.
#![tactic(auto)]

mod counted_layers;
mod on_storage;

ghost use Rattle.std.specs.Prelude.{◌≡◌, [], IfOk, OnOk};
ghost use Rattle.rv_step.specs.Fold.{receipts_of, store_after};

pub use on_storage::{run_counted, run_over};
use rv_ledger::{Call, Job, Outcome, Receipt, Store, apply_writes};
use rv_step::{SpareMachine, receipt_over};
use std::alloc::{AllocError, Global};

/// Runs the calls of a job one after another on one storage, which starts as the job's. The outcome has no counts.
/// Refused if memory ran out.
pub fn run_in_order(alloc: Global, job: &Job) -> Result<Outcome, AllocError>
    ensures job { IfOk result (λ o. o.job ≡ job.now) }
    ensures receipts { IfOk result (λ o. o.receipts.items ≡ receipts_of job.now.block job.now.store) }
    ensures store { IfOk result (λ o. o.store ≡ store_after job.now.block job.now.store) }
    ensures counts { IfOk result (λ o. o.counts.items ≡ []) }
{
    let mut store = job.store.copy()?;
    let receipts = run_all(alloc, job.block.calls(), &mut store)?;
    Ok(Outcome {
        job: job.copy()?,
        receipts,
        store,
        counts: Vec::new(alloc),
    })
}

/// What the calls of a job did, in block order, and the storage after the last one.
#[derive(Drop)]
pub struct JobResult {
    /// What each call did.
    pub receipts: Vec<Receipt>,
    /// The storage after the last call.
    pub store: Store,
}

/// Runs the calls of a job one after another on its own storage, without a copy of it. Refused if memory ran out.
pub fn into_result(alloc: Global, job: Job) -> Result<JobResult, AllocError>
    ensures receipts { IfOk result (λ r. r.receipts.items ≡ receipts_of job.block job.store) }
    ensures store { IfOk result (λ r. r.store ≡ store_after job.block job.store) }
{
    let Job { block, mut store } = job;
    let receipts = run_all(alloc, block.calls(), &mut store)?;
    Ok(JobResult { receipts, store })
}

/// Runs calls in order, each on the storage that the ones before it left. Refused if memory ran out, and then the storage
/// may have some of their writes.
#[tactic(auto, unfolding(rv_step::specs::Fold::receipts_of, rv_step::specs::Fold::store_after))]
fn run_all(alloc: Global, calls: &[Call], store: &mut Store) -> Result<Vec<Receipt>, AllocError>
    ensures receipts { IfOk result (λ r. r.items ≡ receipts_of calls.now store.old) }
    ensures store { OnOk result (store.new ≡ store_after calls.now store.old) }
{
    let mut receipts = Vec::with_capacity(alloc, calls.len())?;
    let mut spare = SpareMachine::new();
    for call in calls {
        // A `?` would copy the receipt, which is large, once more.
        let Ok(receipt) = receipt_over(alloc, &mut spare, call, store) else {
            return Err(AllocError);
        };
        apply_writes(store, &receipt.writes)?;
        receipts.push(receipt)?;
    }
    Ok(receipts)
}
