//! The engine of `rvstm run`, over any reader, programs, writer and threads.

ghost use Rattle.std.specs.Prelude.{◌≡◌, ◌≤◌, map, IfErr, IfOk, IfSome, IsOkAnd, OnOk};
ghost use Rattle.std.specs.Io.KnownBytes.{Appends};
ghost use Rattle.block_file.specs.Block.{parsed_block};
ghost use Rattle.engines.specs.Counts.{AreCountsOfRun};
ghost use Rattle.engines.specs.Engine.{answer_of, loaded_job, text_of, IsRefusedJob};
ghost use Rattle.engines.specs.Run.{IsRefusalOf, IsWorkersFault};
ghost use Rattle.rv_step.specs.Fold.{receipts_of, store_after};

use crate::counts::RunCounts;
use crate::fault::Refusal;
use crate::loading::load_job;
use crate::program_source::Programs;
use crate::results::write_run;
use byte_streams::{Destination, Source};
use rv_ledger::{Counts, Job, Receipt, Store};
use std::alloc::{AllocError, Global};
use std::sync::Wait;
use std::thread::Threads;
use workers::{Executor, RunFault, Share};

/// Reads a block file to its end and parses it. Opens, reads and loads its programs in the order of their numbers. Then runs
/// the calls on `workers` workers, each on a thread of its own, and writes the result, which is that of the calls in order. The
/// first refusal ends it. If the output is refused, a beginning of the result was written; before any other refusal nothing was
/// written. If nothing is refused, returns what the workers did.
pub fn run_to<T: Threads + Wait + Sync, R: Source, P: Programs, W: Destination>(
    threads: &T,
    alloc: Global,
    block: &mut R,
    programs: &mut P,
    workers: usize,
    out: &mut W,
) -> Result<RunCounts, Refusal>
    ensures written { OnOk result (IfSome (R.remaining block.old) (λ input.
        IfSome (answer_of (P.content programs.old) (parsed_block input)) (λ answer.
        IsOkAnd answer (Appends (W.contents out.old) (W.contents out.new))))) }
    ensures refused { IfErr result (IsRefusedJob (Refusal.Run RunFault.Memory) (IsWorkersFault (W.may_refuse out.old) workers)
        (R.may_fail block.old) (R.remaining block.old) (P.content programs.old) (W.contents out.old) (W.contents out.new)) }
    ensures workers { OnOk result ((1 ≤ workers) × (workers ≤ 32)) }
    ensures history { IfOk result (λ counts. IfSome (R.remaining block.old) (λ input.
        IfSome (loaded_job (P.content programs.old) (parsed_block input)) (λ wanted. IsOkAnd wanted (λ job. AreCountsOfRun job workers counts)))) }
{
    let job = load_job(alloc, block, programs, Refusal::Run(RunFault::Memory))?;
    run_threads(threads, alloc, job, workers, out)
}

/// Runs a job on workers and writes the result.
fn run_threads<T: Threads + Wait + Sync, W: Destination>(
    threads: &T,
    alloc: Global,
    job: Job,
    workers: usize,
    out: &mut W,
) -> Result<RunCounts, Refusal>
    ensures written { OnOk result (Appends (W.contents out.old) (W.contents out.new) (text_of job)) }
    ensures refused { IfErr result (IsWorkersFault (W.may_refuse out.old) workers (W.contents out.old) (W.contents out.new) job) }
    ensures workers { OnOk result ((1 ≤ workers) × (workers ≤ 32)) }
    ensures history { IfOk result (AreCountsOfRun job workers) }
{
    let ran = match run_job(threads, alloc, job, workers) {
        Ok(ran) => ran,
        Err(fault) => return Err(Refusal::Run(fault)),
    };
    match write_run(alloc, ran.receipts.as_slice(), &ran.store, out) {
        Ok(()) => Ok(ran.counts),
        Err(refusal) => Err(refusal),
    }
}

/// What a run by workers leaves.
#[derive(Drop)]
struct ThreadsResult {
    /// What each call did.
    receipts: Vec<Receipt>,
    /// The storage after the last call.
    store: Store,
    /// What the workers did.
    counts: RunCounts,
}

/// Runs a job on this many workers, each on a thread of its own, on the job's own storage.
fn run_job<T: Threads + Wait + Sync>(
    threads: &T,
    alloc: Global,
    job: Job,
    workers: usize,
) -> Result<ThreadsResult, RunFault>
    ensures receipts { IfOk result (λ r. r.receipts.items ≡ receipts_of job.block job.store) }
    ensures store { IfOk result (λ r. r.store ≡ store_after job.block job.store) }
    ensures history { IfOk result (λ r. AreCountsOfRun job workers r.counts) }
    ensures refused { IfErr result (λ e. IsRefusalOf job workers e) }
    ensures workers { OnOk result ((1 ≤ workers) × (workers ≤ 32)) }
{
    let Job { block, mut store } = job;
    let calls = block.calls().len();
    let mut executor = Executor::new(alloc);
    let receipts = executor.run_on(threads, alloc, &mut store, block, workers)?;
    let Ok(did) = counts_by_share(alloc, executor.shares()) else {
        return Err(RunFault::Memory);
    };
    let counts = RunCounts {
        calls,
        workers: did,
    };
    Ok(ThreadsResult {
        receipts,
        store,
        counts,
    })
}

/// What each worker did, by its share. Refused if memory ran out.
fn counts_by_share(alloc: Global, shares: &[Share]) -> Result<Vec<Counts>, AllocError>
    ensures { IfOk result (λ did. did.items ≡ map (λ share. share.counts) shares.now) }
{
    let mut did = Vec::with_capacity(alloc, shares.len())?;
    for share in shares {
        did.push(share.counts())?;
    }
    Ok(did)
}
