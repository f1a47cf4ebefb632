//! Blocks run one after another, each over the storage that the last one answered Ok left.

use crate::executor::Executor;
use crate::fault::RunFault;
use rv_ledger::{CALL_LIMIT, Call, Job, Receipt, Store};
use std::alloc::{AllocError, Global};
use std::fmt;
use std::sync::Wait;
use std::thread::Threads;
use stm_core::WORKER_LIMIT;
use thiserror::Error;

/// Why a block of a chain has no receipts.
#[derive(Clone, Copy, Debug, PartialEq, Eq, Error)]
pub enum ChainFault {
    /// Its run was refused.
    Run(RunFault),
    /// There are more than 1,024 calls.
    TooManyCalls,
}

impl fmt::Display for ChainFault {
    ghost use Rattle.std.specs.Prelude.{Some};
    ghost use Rattle.workers.specs.Faults.{chain_fault_text};

    ghost output = { λ fault. Some (chain_fault_text fault) };

    /// The name and the number.
    fn fmt<W: fmt::Write>(&self, f: &mut fmt::Formatter<W>) -> fmt::Result {
        match self {
            ChainFault::Run(fault) => fault.fmt(f),
            ChainFault::TooManyCalls => f.write_str("TooManyCalls 8"),
        }
    }
}

/// What running a chain of blocks leaves.
#[derive(Drop)]
pub struct Chain {
    /// The answer to each block, in their order: the receipts of its calls, or why there are none.
    pub blocks: Vec<Result<Vec<Receipt>, ChainFault>>,
    /// The storage after the last block answered Ok.
    pub store: Store,
}

impl Executor {
    ghost use Rattle.std.specs.Prelude.{◌≡◌, ◌≤◌, ◌⊎◌, Err, IfOk, OnErr};
    ghost use Rattle.rv_step.specs.Fold.{store_after};
    ghost use Rattle.workers.specs.Chain.{IsBlockAnswer, IsChain, calls_run, store_left};
    ghost use Rattle.workers.specs.declared.chain.ChainFault.TheVariants.{Run, TooManyCalls};
    ghost use Rattle.workers.specs.declared.fault.RunFault.TheVariants as faults;

    /// Runs blocks in their order, each with its own number of workers. Each block runs over the storage that the last block
    /// answered Ok left. A block of more than 1,024 calls is answered TooManyCalls, whatever its number of workers. Any other
    /// block is answered as by `run_block`. A refused block leaves the storage as it was, and the chain continues. The chain is
    /// refused if memory ran out before the first block; then no block is run, and the executor stays as it was.
    #[tactic(auto, using(crate::proofs::Chains::no_blocks, crate::proofs::Chains::one_block_more, crate::proofs::Chains::chain_store))]
    pub fn run_chain<R: Threads + Wait + Sync>(
        &mut self,
        rt: &R,
        alloc: Global,
        store: Store,
        blocks: Vec<(Vec<Call>, usize)>,
    ) -> Result<Chain, AllocError>
        ensures chain { IfOk result (λ chain. IsChain store blocks.items chain.blocks.items chain.store) }
        ensures store { IfOk result (λ chain. chain.store ≡ store_after (calls_run blocks.items chain.blocks.items) store) }
        ensures kept { OnErr result (self.new ≡ self.old) }
    {
        let mut answers = Vec::with_capacity(alloc, blocks.len())?;
        let mut left = store;
        for block in blocks {
            let (calls, workers) = block;
            let (answer, after) = self.run_next_block(rt, alloc, left, calls, workers);
            answers.push_reserved(answer);
            left = after;
        }
        Ok(Chain {
            blocks: answers,
            store: left,
        })
    }

    /// Runs one block of a chain over a storage. Returns its answer and the storage that it leaves. A block that is
    /// refused as TooManyCalls or BadCount leaves the executor as it was.
    fn run_next_block<R: Threads + Wait + Sync>(
        &mut self,
        rt: &R,
        alloc: Global,
        store: Store,
        calls: Vec<Call>,
        workers: usize,
    ) -> (Result<Vec<Receipt>, ChainFault>, Store)
        ensures answer { IsBlockAnswer store calls.items workers result.0 }
        ensures left { result.1 ≡ store_left store calls.items result.0 }
        ensures kept { (result.0 ≡ Err TooManyCalls) ⊎ (result.0 ≡ Err (Run faults.BadCount)) → self.new ≡ self.old }
    {
        if calls.len() > CALL_LIMIT {
            return (Err(ChainFault::TooManyCalls), store);
        }
        if workers == 0 || workers > WORKER_LIMIT {
            return (Err(ChainFault::Run(RunFault::BadCount)), store);
        }
        let Ok(job) = Job::new(calls, store) else {
            unreachable!()
        };
        self.run_next_job(rt, alloc, job, workers)
    }

    /// Runs the job of a block of a chain. Returns its answer, which is neither TooManyCalls nor BadCount, and the
    /// storage that it leaves.
    fn run_next_job<R: Threads + Wait + Sync>(
        &mut self,
        rt: &R,
        alloc: Global,
        job: Job,
        workers: usize,
    ) -> (Result<Vec<Receipt>, ChainFault>, Store)
        requires { (1 ≤ workers) × (workers ≤ 32) }
        ensures answer { IsBlockAnswer job.store job.block workers result.0 }
        ensures left { result.1 ≡ store_left job.store job.block result.0 }
    {
        let Job { block, mut store } = job;
        match self.run_on(rt, alloc, &mut store, block, workers) {
            Ok(receipts) => (Ok(receipts), store),
            Err(fault) => (Err(ChainFault::Run(fault)), store),
        }
    }
}
