//! The answer to a job after the join, by its book and the shares that came back.

ghost use Rattle.std.specs.Prelude.{◌≡◌, ◌<◌, ◌↔◌, [], IfSome, None, length, true};
ghost use Rattle.stm_state.specs.State.{is_done};
ghost use Rattle.workers.specs.Settle.{AreSettled, IsFaultAfter, IsFinishedAfter, IsFinishedOf, IsOutcomeOrMemory, IsSettled, IsSettledAfter, IsShareOf, IsThatOrMemory};
ghost use Rattle.workers.specs.declared.fault.RunFault.TheVariants as faults;

use crate::book::{Book, JobName, Share};
use crate::fault::RunFault;
use rv_ledger::{Job, Outcome, same_job};
use std::alloc::{AllocError, Global};
use stm_core::{Core, Finished, JobSource};
use version_arena::Arena;

/// The answer to a job, by its book and the shares that came back in the order of their workers; and the core's arena, without
/// records. The answer is the first of these that applies: Foreign if the core has another job; the fault that was written;
/// Foreign if workers are not done, if there is not one share per worker, if a worker does not have exactly one ask that was
/// answered Done, or if a share has other counts than the core; Memory if memory ran out; otherwise the core's outcome.
pub fn settle<J: JobName>(
    alloc: Global,
    book: Book<J>,
    shares: Vec<Share>,
    job: &Job,
) -> (Result<Outcome, RunFault>, Arena)
    ensures answer { IsSettled job.now shares.items book result.0 }
    ensures arena { result.1.records ≡ [] }
{
    if !same_job(book.core().job(), job) {
        return (Err(RunFault::Foreign), book.into_core().into_arena());
    }
    settle_shares(alloc, book, shares.as_slice())
}

/// The same for a core that has that job.
fn settle_shares<J: JobName>(
    alloc: Global,
    book: Book<J>,
    shares: &[Share],
) -> (Result<Outcome, RunFault>, Arena)
    ensures answer { IsSettledAfter book.fault book.core shares.now result.0 }
    ensures arena { result.1.records ≡ [] }
{
    match fault_of(&book, shares) {
        Some(fault) => (Err(fault), book.into_core().into_arena()),
        None => outcome_of(alloc, book.into_core()),
    }
}

/// The same without the storage, whoever has the job.
pub(crate) fn finish<J: JobName, H: JobSource>(
    alloc: Global,
    book: Book<J, H>,
    shares: &[Share],
) -> (Result<Finished, RunFault>, Arena)
    ensures answer { IsFinishedAfter book.fault book.core shares.now result.0 }
    ensures arena { result.1.records ≡ [] }
{
    match fault_of(&book, shares) {
        Some(fault) => (Err(fault), book.into_core().into_arena()),
        None => finished_of(alloc, book.into_core()),
    }
}

/// The fault that answers a job; None if the core's outcome answers it, provided that memory suffices.
fn fault_of<J: JobName, H: JobSource>(book: &Book<J, H>, shares: &[Share]) -> Option<RunFault>
    ensures found { IfSome result (λ found. IsFaultAfter book.now.fault book.now.core shares.now found) }
    ensures none { result ≡ None → (book.now.fault ≡ None) × AreSettled book.now.core shares.now }
{
    if let Some(found) = book.fault() {
        return Some(found);
    }
    if !are_settled(book.core(), shares) {
        return Some(RunFault::Foreign);
    }
    None
}

/// The outcome of a core that is done, or Memory if memory ran out; and its arena, without records.
fn outcome_of(alloc: Global, core: Core) -> (Result<Outcome, RunFault>, Arena)
    requires { is_done core.state ≡ true }
    ensures answer { IsOutcomeOrMemory core result.0 }
    ensures arena { result.1.records ≡ [] }
{
    let (outcome, arena) = core.into_outcome(alloc);
    match outcome {
        Ok(outcome) => (Ok(outcome), arena),
        Err(AllocError) => (Err(RunFault::Memory), arena),
    }
}

/// What a core that is done leaves apart from the storage, or Memory if memory ran out; and its arena, without records.
fn finished_of<H: JobSource>(alloc: Global, core: Core<H>) -> (Result<Finished, RunFault>, Arena)
    requires { is_done core.state ≡ true }
    ensures answer { IsThatOrMemory (IsFinishedOf core) result.0 }
    ensures arena { result.1.records ≡ [] }
{
    let (finished, arena) = core.into_finished(alloc);
    match finished {
        Ok(finished) => (Ok(finished), arena),
        Err(AllocError) => (Err(RunFault::Memory), arena),
    }
}

/// Whether workers are done, and there is one share of each, in their order, which agrees with the core.
fn are_settled<H: JobSource>(core: &Core<H>, shares: &[Share]) -> bool
    ensures { (result ≡ true) ↔ AreSettled core.now shares.now }
{
    if !core.done() || shares.len() != core.workers() {
        return false;
    }
    for worker in 0..shares.len() {
        if !is_share_of(core, worker, &shares[worker]) {
            return false;
        }
    }
    true
}

/// Whether a share is that of a worker, agrees with the core on its counts, and has exactly one ask that was
/// answered Done.
fn is_share_of<H: JobSource>(core: &Core<H>, worker: usize, share: &Share) -> bool
    requires { worker < length core.now.state.tasks }
    ensures { (result ≡ true) ↔ IsShareOf worker core.now share.now }
{
    share.worker() == worker
        && share.dones() == 1
        && core.dones(worker) == share.dones()
        && core.counts(worker) == share.counts()
}
