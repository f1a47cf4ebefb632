//! A block that its caller drives.

ghost use Rattle.std.specs.Prelude.{◌≡◌};
ghost use Rattle.block_driver.specs.Block.{kept_fault};

use crate::fault::StepFault;
use crate::hold::Owed;
use crate::host_job::{HostJob, HostState};
use crate::stepping::step;
use crate::worker::Worker;
use rv_ledger::{Block, Receipt};
use std::alloc::{AllocError, Global};
use stm_core::Core;
use version_arena::Arena;

/// A block that its caller drives, and the first fault that a step met.
#[derive(Drop)]
pub struct SharedBlock {
    /// Its state.
    pub core: Core<HostJob>,
    /// The first fault other than Memory. It answers each further step.
    pub fault: Option<StepFault>,
}

impl SharedBlock {
    ghost use Rattle.std.specs.Prelude.{◌≡◌, ◌≤◌, IfOk, None, Some, cond, length, slice_get, unwrap_or};
    ghost use Rattle.std.specs.Option.{option_copied};
    ghost use Rattle.rv_step.specs.Fold.{receipts_of};
    ghost use Rattle.stm_state.specs.State.{is_done, start_state};
    ghost use Rattle.block_driver.specs.Block.{IsBlockStep};
    ghost use Rattle.block_driver.specs.Progress.{HasBaseOf};
    ghost use Rattle.block_driver.specs.declared.fault.StepFault.TheVariants as fault;

    /// The calls of a block over a caller's storage, before the first step; refused if memory ran out.
    pub fn new(
        alloc: Global,
        block: Block,
        state: HostState,
        workers: usize,
    ) -> Result<SharedBlock, AllocError>
        requires { (1 ≤ workers) × (workers ≤ 32) }
        ensures job { IfOk result (λ b. b.core.job ≡ record { block = block; store = state.storage }) }
        ensures start { IfOk result (λ b. b.core.state ≡ start_state (length block) workers) }
        ensures none { IfOk result (λ b. b.fault ≡ None) }
    {
        let Ok(core) = Core::of(alloc, Arena::new(alloc), HostJob { block, state }, workers) else {
            return Err(AllocError);
        };
        Ok(SharedBlock { core, fault: None })
    }

    /// `step` of a worker. The first fault other than Memory is kept: it answers each further step, and then nothing changes.
    pub fn step(&mut self, worker: &mut Worker, most: u32) -> Result<Owed, StepFault>
        requires { HasBaseOf self.old.core.job.store worker.old.progress }
        ensures number { worker.new.number ≡ worker.old.number }
        ensures step { IsBlockStep self.old.fault worker.old.number most worker.old.progress worker.new.progress self.old self.new result }
    {
        if let Some(fault) = self.fault {
            return Err(fault);
        }
        let told = step(&mut self.core, worker, most);
        self.fault = kept_fault(told);
        told
    }

    /// The caller gives the block up: each further step is refused as GivenUp, or with the fault that is kept.
    pub fn give_up(&mut self)
        ensures core { self.new.core ≡ self.old.core }
        ensures fault { self.new.fault ≡ Some (unwrap_or self.old.fault fault.GivenUp) }
    {
        self.fault = Some(self.fault.unwrap_or(StepFault::GivenUp));
    }

    /// The receipt of the call at an index, once all is done; None before, and past the last call. Takes no memory.
    pub fn receipt(&self, index: usize) -> Option<&Receipt>
        ensures { option_copied result ≡ cond (is_done self.now.core.state) (slice_get (receipts_of self.now.core.job.block self.now.core.job.store) index) None }
    {
        if self.core.done() {
            self.core.receipt(index)
        } else {
            None
        }
    }
}

/// The fault that a block keeps after a step.
fn kept_fault(told: Result<Owed, StepFault>) -> Option<StepFault>
    ensures { result ≡ kept_fault told }
{
    match told {
        Ok(_) | Err(StepFault::Memory) => None,
        Err(fault) => Some(fault),
    }
}
