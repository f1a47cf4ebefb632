//! Runs the calls of a session's frames by threads if that pays.

ghost use Rattle.std.specs.Prelude.{◌≡◌, [], IfOk, IfSome, None, OnOk, OnSome};
ghost use Rattle.std.specs.Thread.{IsSync};
ghost use Rattle.overlay.specs.Overlay.{with_changes};
ghost use Rattle.rv_step.specs.Fold.{receipts_of, store_after};

use crate::batches::{Batches, FIRST_CALLS};
use overlay::Overlay;
use rv_ledger::{Call, LentBlock, Receipt, Store};
use seq_exec::{run_counted, run_over};
use session_turns::CallRunner;
use std::alloc::{AllocError, Global};
use std::sync::Wait;
use std::thread::Threads;
use workers::Executor;

/// Runs the first calls of a frame in order, and the others by threads if that pays by what the calls before took: a batch at a
/// time, with a limit for the steps of each thread and for the versions that all pass. A run by threads is refused, for example, by
/// its limit or if it wants more memory than there is. Then its calls and all after them run in order. So calls that read much cost
/// by threads the work of one batch (`engines/src/batches.rt`), and what that batch computed if its reads come last.
#[derive(Drop)]
pub struct ByThreads<'a, R: Threads + Wait + Sync> {
    /// What starts the threads.
    pub threads: &'a R,
    /// What runs blocks by threads.
    pub executor: Executor,
    /// The number of threads. If it is not 1 to 32, all calls run in order.
    pub workers: usize,
}

impl<'a, R: Threads + Wait + Sync> ByThreads<'a, R> {
    /// What runs calls by this many threads. No call was run yet.
    pub fn new(threads: &'a R, alloc: Global, workers: usize) -> ByThreads<'a, R>
        ensures workers { result.workers ≡ workers }
        ensures shares { result.executor.shares.items ≡ [] }
    {
        ByThreads {
            threads,
            executor: Executor::new(alloc),
            workers,
        }
    }

    /// Runs the calls of a frame after the first ones: some in order if the first ones used little gas, and the others by
    /// threads if that pays.
    #[tactic(auto, using(rv_step::proofs::CallsInOrder::receipts_append, rv_step::proofs::CallsInOrder::after_append))]
    fn run_after_first(
        &mut self,
        alloc: Global,
        base: &Store,
        over: &mut Overlay,
        shown: Batches,
        calls: &[Call],
    ) -> Result<Vec<Receipt>, AllocError>
        ensures receipts { IfOk result (λ r. r.items ≡ receipts_of calls.now (with_changes base.now over.old)) }
        ensures store { OnOk result (with_changes base.now over.new ≡ store_after calls.now (with_changes base.now over.old)) }
    {
        let (next, others) = calls.split_at(calls.len().min(shown.calls_in_order()));
        let (mut receipts, reads) = run_counted(alloc, base, over, next)?;
        let shown = shown.with(receipts.as_slice(), reads);
        let mut more = self.run_others(alloc, base, over, shown, others)?;
        receipts.append(&mut more)?;
        Ok(receipts)
    }

    /// Runs the calls of a frame after those that ran in order, by threads if that pays.
    fn run_others(
        &mut self,
        alloc: Global,
        base: &Store,
        over: &mut Overlay,
        shown: Batches,
        calls: &[Call],
    ) -> Result<Vec<Receipt>, AllocError>
        ensures receipts { IfOk result (λ r. r.items ≡ receipts_of calls.now (with_changes base.now over.old)) }
        ensures store { OnOk result (with_changes base.now over.new ≡ store_after calls.now (with_changes base.now over.old)) }
    {
        let mut batches = shown;
        let mut receipts = Vec::new(alloc);
        let mut left = calls;
        while let Some(batch) = batches.next(left.len()) {
            let (now, later) = left.split_at(batch.calls);
            let Some(mut more) = self.run_batch(alloc, base, over, now, batch.work_limit) else {
                break;
            };
            batches.note(more.as_slice());
            receipts.append(&mut more)?;
            left = later;
        }
        let mut more = run_over(alloc, base, over, left)?;
        receipts.append(&mut more)?;
        Ok(receipts)
    }

    /// Runs calls by threads, on a storage with changes over it, and adds theirs to the changes. None if that is refused; then
    /// the changes stay as they are.
    fn run_batch(
        &mut self,
        alloc: Global,
        base: &Store,
        over: &mut Overlay,
        calls: &[Call],
        work_limit: u64,
    ) -> Option<Vec<Receipt>>
        ensures receipts { IfSome result (λ r. r.items ≡ receipts_of calls.now (with_changes base.now over.old)) }
        ensures store { OnSome result (with_changes base.now over.new ≡ store_after calls.now (with_changes base.now over.old)) }
        ensures none { result ≡ None → over.new ≡ over.old }
    {
        let block = LentBlock::of(calls)?;
        match self.executor.run_over_changes_within(
            self.threads,
            alloc,
            base,
            over,
            block,
            self.workers,
            Some(work_limit),
        ) {
            Ok(receipts) => Some(receipts),
            Err(_) => None,
        }
    }
}

impl<R: Threads + Wait + Sync> CallRunner for ByThreads<'_, R> {
    ghost ready = { IsSync R.row };

    #[tactic(auto, using(rv_step::proofs::CallsInOrder::receipts_append, rv_step::proofs::CallsInOrder::after_append))]
    fn run_calls(
        &mut self,
        alloc: Global,
        base: &Store,
        over: &mut Overlay,
        calls: &[Call],
    ) -> Result<Vec<Receipt>, AllocError> {
        let (first, others) = calls.split_at(calls.len().min(FIRST_CALLS));
        let (mut receipts, reads) = run_counted(alloc, base, over, first)?;
        let shown = Batches::new(self.workers, receipts.as_slice(), reads);
        let mut more = self.run_after_first(alloc, base, over, shown, others)?;
        receipts.append(&mut more)?;
        Ok(receipts)
    }
}
