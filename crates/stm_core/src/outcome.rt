//! What the run of a job leaves.

ghost use Rattle.std.specs.Option.{option_copied};
ghost use Rattle.std.specs.Prelude.{◌≡◌, ◌≤◌, ℕ, List, None, length, option_and_then, slice_get, IfOk};
ghost use Rattle.std.specs.List.{filter_map};
ghost use Rattle.std.specs.FinMap.{get};
ghost use Rattle.mvmap.specs.Versions.{HasNoEstimate, entry_at};
ghost use Rattle.mvmap.specs.Reading.{value_seen, reading};
ghost use Rattle.stm_state.specs.Done.{last_receipt};

use mvmap::MvMap;
use rv_ledger::{Counts, Job, Outcome, Receipt};
use scheduler::Scheduler;
use std::alloc::{AllocError, Global};
use stm_state::{CallState, Recorded};

/// What the run of a job leaves beside the storage.
#[derive(Drop)]
pub struct Finished {
    /// The calls' receipts, in block order.
    pub receipts: Vec<Receipt>,
    /// What each worker did.
    pub counts: Vec<Counts>,
}

/// What the run of a job leaves: the job, its receipts, the storage after it and the workers' counts. No entry may be an
/// estimate. Refused if memory ran out.
pub(crate) fn outcome_of(
    alloc: Global,
    job: &Job,
    map: &MvMap,
    scheduler: &Scheduler,
) -> Result<Outcome, AllocError>
    requires versions { HasNoEstimate map.now.versions }
    requires counts { length scheduler.now.counts ≡ length scheduler.now.tasks }
    ensures job { IfOk result (λ o. o.job ≡ job.now) }
    ensures receipts { IfOk result (λ o. o.receipts.items ≡ filter_map last_receipt scheduler.now.calls) }
    ensures store { IfOk result (λ o. (key : List ℕ) (i : ℕ) → ((w : ℕ) → i ≤ w → entry_at map.now.versions key w ≡ None) → get o.store key ≡ value_seen (get job.now.store key) (reading map.now.versions key i)) }
    ensures counts { IfOk result (λ o. o.counts.items ≡ scheduler.now.counts) }
{
    let mut store = job.store.copy()?;
    map.snapshot_into(&mut store)?;
    Ok(Outcome {
        job: job.copy()?,
        receipts: receipts_in(alloc, scheduler.calls())?,
        store,
        counts: counts_in(alloc, scheduler)?,
    })
}

/// Like `outcome_of`, but the job and the receipts are moved.
pub(crate) fn moved_outcome(
    alloc: Global,
    job: Job,
    map: &MvMap,
    scheduler: Scheduler,
) -> Result<Outcome, AllocError>
    requires versions { HasNoEstimate map.now.versions }
    requires counts { length scheduler.counts ≡ length scheduler.tasks }
    ensures job { IfOk result (λ o. o.job ≡ job) }
    ensures receipts { IfOk result (λ o. o.receipts.items ≡ filter_map last_receipt scheduler.calls) }
    ensures store { IfOk result (λ o. (key : List ℕ) (i : ℕ) → ((w : ℕ) → i ≤ w → entry_at map.now.versions key w ≡ None) → get o.store key ≡ value_seen (get job.store key) (reading map.now.versions key i)) }
    ensures counts { IfOk result (λ o. o.counts.items ≡ scheduler.counts) }
{
    let mut store = job.store.copy()?;
    map.snapshot_into(&mut store)?;
    let Finished { receipts, counts } = finished_of(alloc, scheduler)?;
    Ok(Outcome {
        job,
        receipts,
        store,
        counts,
    })
}

/// The receipts, moved out, and the workers' counts; refused if memory ran out.
pub(crate) fn finished_of(alloc: Global, scheduler: Scheduler) -> Result<Finished, AllocError>
    requires { length scheduler.counts ≡ length scheduler.tasks }
    ensures receipts { IfOk result (λ f. f.receipts.items ≡ filter_map last_receipt scheduler.calls) }
    ensures counts { IfOk result (λ f. f.counts.items ≡ scheduler.counts) }
{
    let counts = counts_in(alloc, &scheduler)?;
    let receipts = moved_receipts(alloc, scheduler.into_calls())?;
    Ok(Finished { receipts, counts })
}

/// The receipts of the calls' last recorded runs, moved out of them; refused if memory ran out.
fn moved_receipts(alloc: Global, calls: Vec<CallState>) -> Result<Vec<Receipt>, AllocError>
    ensures { IfOk result (λ receipts. receipts.items ≡ filter_map last_receipt calls.items) }
{
    let mut receipts = Vec::with_capacity(alloc, calls.len())?;
    for call in calls {
        let CallState { last, .. } = call;
        if let Some(run) = last {
            let Recorded { receipt, .. } = run;
            receipts.push(receipt)?;
        }
    }
    Ok(receipts)
}

/// The receipt of the last recorded run of the call at an index; None if there is none.
pub(crate) fn receipt_at(calls: &[CallState], index: usize) -> Option<&Receipt>
    ensures { option_copied result ≡ option_and_then last_receipt (slice_get calls.now index) }
{
    match calls.get(index) {
        Some(call) => match &call.last {
            Some(run) => Some(&run.receipt),
            None => None,
        },
        None => None,
    }
}

/// The receipts of the calls' last recorded runs; refused if memory ran out.
fn receipts_in(alloc: Global, calls: &[CallState]) -> Result<Vec<Receipt>, AllocError>
    ensures { IfOk result (λ receipts. receipts.items ≡ filter_map last_receipt calls.now) }
{
    let mut receipts = Vec::with_capacity(alloc, calls.len())?;
    for call in calls {
        if let Some(run) = &call.last {
            receipts.push(run.receipt.copy()?)?;
        }
    }
    Ok(receipts)
}

/// What each worker did; refused if memory ran out.
fn counts_in(alloc: Global, scheduler: &Scheduler) -> Result<Vec<Counts>, AllocError>
    requires { length scheduler.now.counts ≡ length scheduler.now.tasks }
    ensures { IfOk result (λ counts. counts.items ≡ scheduler.now.counts) }
{
    let workers = scheduler.workers();
    let mut counts = Vec::with_capacity(alloc, workers)?;
    for worker in 0..workers {
        counts.push(scheduler.counts(worker))?;
    }
    Ok(counts)
}
