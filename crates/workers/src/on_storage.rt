//! Running a block by threads on a storage that stays.

use crate::executor::Executor;
use crate::fault::RunFault;
use crate::gate::Open;
use overlay::{Layers, Overlay, apply_receipts, commit};
use rv_ledger::{Block, LentBlock, Receipt, Store};
use std::alloc::{AllocError, Global};
use std::sync::Wait;
use std::thread::Threads;
use stm_core::Finished;

impl Executor {
    ghost use Rattle.std.specs.Prelude.{◌≡◌, ◌≢◌, ◌<◌, ◌⊎◌, ◌↔◌, All, Err, IfErr, IfOk, None, OnErr, OnOk};
    ghost use Rattle.overlay.specs.Overlay.{with_changes};
    ghost use Rattle.rv_step.specs.Fold.{receipts_of, store_after};
    ghost use Rattle.stm_state.specs.Steps as steps;
    ghost use Rattle.workers.specs.declared.fault.RunFault.TheVariants as faults;
    ghost use Rattle.workers.specs.Book.{KeepsLimit};
    ghost use Rattle.workers.specs.History.{HasLimit, HasStepLimit, HasWorkLimit, IsRunWithShares};
    ghost use Rattle.workers.specs.Settle.{AreLeft};

    /// Runs the calls of a block by 1 to 32 threads on a storage, and changes it as they do in order. Refused as
    /// `run_block` refuses their job, and then the storage is as it was. The threads search the storage itself: it is not copied.
    #[tactic(auto, using(overlay::proofs::WithChanges::without_changes))]
    pub fn run_on<R: Threads + Wait + Sync>(
        &mut self,
        rt: &R,
        alloc: Global,
        store: &mut Store,
        block: Block,
        workers: usize,
    ) -> Result<Vec<Receipt>, RunFault>
        ensures bad_count { (result ≡ Err faults.BadCount) ↔ ((workers ≡ 0) ⊎ (32 < workers)) }
        ensures receipts { IfOk result (λ r. r.items ≡ receipts_of block store.old) }
        ensures store { OnOk result (store.new ≡ store_after block store.old) }
        ensures err { OnErr result (store.new ≡ store.old) }
        ensures history { OnOk result (IsRunWithShares (record { block = block; store = store.old }) workers self.new.shares.items) }
        ensures full { IfErr result (λ e. e ≡ faults.ArenaFull → HasLimit (record { block = block; store = store.old }) workers steps.ArenaFull) }
        ensures limit { IfErr result (λ e. e ≡ faults.IncarnationLimit → HasLimit (record { block = block; store = store.old }) workers steps.IncarnationLimit) }
        ensures step_limit { IfErr result (λ e. e ≡ faults.StepLimit → HasStepLimit (record { block = block; store = store.old }) workers None) }
        ensures left { result ≢ Err faults.BadCount → AreLeft None workers self.new.shares.items }
        ensures kept { result ≡ Err faults.BadCount → self.new ≡ self.old }
    {
        let mut changes = Overlay::new(alloc);
        let receipts = self.run_over_changes_within(
            rt,
            alloc,
            store,
            &mut changes,
            block.lent(),
            workers,
            None,
        )?;
        match commit(store, changes) {
            Ok(()) => Ok(receipts),
            Err(AllocError) => Err(RunFault::Memory),
        }
    }

    /// The same with calls that are lent, on a storage with changes over it. It adds the changes of the calls to these; if it is
    /// refused, it leaves these as they were. If there is a limit, it is also refused as StepLimit if a worker has made this many
    /// steps, not counting asks. If it answers Ok, each worker has made no more steps, not counting asks, than the limit.
    #[tactic(auto, using(rv_step::proofs::CallsInOrder::receipts_applied, crate::proofs::Runs::run_with_shares))]
    pub fn run_over_changes_within<R: Threads + Wait + Sync>(
        &mut self,
        rt: &R,
        alloc: Global,
        base: &Store,
        over: &mut Overlay,
        block: LentBlock<'_>,
        workers: usize,
        work_limit: Option<u64>,
    ) -> Result<Vec<Receipt>, RunFault>
        ensures bad_count { (result ≡ Err faults.BadCount) ↔ ((workers ≡ 0) ⊎ (32 < workers)) }
        ensures receipts { IfOk result (λ r. r.items ≡ receipts_of block.entry.calls.now (with_changes base.now over.old)) }
        ensures store { OnOk result (with_changes base.now over.new ≡ store_after block.entry.calls.now (with_changes base.now over.old)) }
        ensures err { OnErr result (over.new ≡ over.old) }
        ensures history { OnOk result (IsRunWithShares (record { block = block.entry.calls.now; store = with_changes base.now over.old }) workers self.new.shares.items) }
        ensures within { OnOk result (All (λ share. KeepsLimit work_limit share.counts) self.new.shares.items) }
        ensures full { IfErr result (λ e. e ≡ faults.ArenaFull → HasLimit (record { block = block.entry.calls.now; store = with_changes base.now over.old }) workers steps.ArenaFull) }
        ensures limit { IfErr result (λ e. e ≡ faults.IncarnationLimit → HasLimit (record { block = block.entry.calls.now; store = with_changes base.now over.old }) workers steps.IncarnationLimit) }
        ensures step_limit { IfErr result (λ e. e ≡ faults.StepLimit → HasWorkLimit (record { block = block.entry.calls.now; store = with_changes base.now over.old }) workers work_limit) }
        ensures left { result ≢ Err faults.BadCount → AreLeft work_limit workers self.new.shares.items }
        ensures kept { result ≡ Err faults.BadCount → self.new ≡ self.old }
    {
        let Finished { receipts, .. } = self.run_lent(
            rt,
            alloc,
            block,
            &Layers { base, over },
            workers,
            work_limit,
            &Open,
        )?;
        match apply_receipts(base, over, receipts.as_slice()) {
            Ok(()) => Ok(receipts),
            Err(AllocError) => Err(RunFault::Memory),
        }
    }
}
