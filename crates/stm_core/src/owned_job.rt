//! A run's state that owns its job.

use crate::outcome::{moved_outcome, outcome_of};
use crate::state::Core;
use rv_ledger::{Job, Outcome};
use std::alloc::{AllocError, Global};
use version_arena::Arena;

impl Core {
    ghost use Rattle.std.specs.Prelude.{◌≡◌, ◌≤◌, true, length, [], IfOk, IfErr};
    ghost use Rattle.version_arena.specs.ArenaState.{emptied};
    ghost use Rattle.rv_step.specs.Fold.{receipts_of, store_after};
    ghost use Rattle.stm_state.specs.State.{is_done, start_state};

    /// The state at the start of a job; refused if memory ran out.
    pub fn new(alloc: Global, job: Job, workers: usize) -> Result<Core, AllocError>
        requires { (1 ≤ workers) × (workers ≤ 32) }
        ensures job { IfOk result (λ c. c.job ≡ job) }
        ensures state { IfOk result (λ c. c.state ≡ start_state (length job.block) workers) }
    {
        let Ok(core) = Core::over(alloc, Arena::new(alloc), job, workers) else {
            return Err(AllocError);
        };
        Ok(core)
    }

    /// Like `new`, over an arena that is used again: its records are dropped. If memory ran out, the arena is returned
    /// without records.
    pub fn over(alloc: Global, arena: Arena, job: Job, workers: usize) -> Result<Core, Arena>
        requires { (1 ≤ workers) × (workers ≤ 32) }
        ensures job { IfOk result (λ c. c.job ≡ job) }
        ensures state { IfOk result (λ c. c.state ≡ start_state (length job.block) workers) }
        ensures back { IfErr result (λ a. a ≡ emptied arena) }
    {
        Core::of(alloc, arena, job, workers)
    }

    /// The block and the storage before it, as the core was made.
    pub fn job(&self) -> &Job
        ensures { result.now ≡ self.now.job }
    {
        &self.job
    }

    /// What the run of the job leaves, once all is done; refused if memory ran out.
    pub fn outcome(&self, alloc: Global) -> Result<Outcome, AllocError>
        requires { is_done self.now.state ≡ true }
        ensures job { IfOk result (λ o. o.job ≡ self.now.job) }
        ensures receipts { IfOk result (λ o. o.receipts.items ≡ receipts_of self.now.job.block self.now.job.store) }
        ensures store { IfOk result (λ o. o.store ≡ store_after self.now.job.block self.now.job.store) }
        ensures counts { IfOk result (λ o. o.counts.items ≡ self.now.state.counts) }
    {
        outcome_of(alloc, &self.job, &self.map, &self.scheduler)
    }

    /// The same outcome, once all is done, and the arena, without records. The job and the receipts are moved.
    pub fn into_outcome(self, alloc: Global) -> (Result<Outcome, AllocError>, Arena)
        requires { is_done self.state ≡ true }
        ensures job { IfOk result.0 (λ o. o.job ≡ self.job) }
        ensures receipts { IfOk result.0 (λ o. o.receipts.items ≡ receipts_of self.job.block self.job.store) }
        ensures store { IfOk result.0 (λ o. o.store ≡ store_after self.job.block self.job.store) }
        ensures counts { IfOk result.0 (λ o. o.counts.items ≡ self.state.counts) }
        ensures arena { result.1.records ≡ [] }
    {
        let Core {
            job,
            map,
            scheduler,
            ..
        } = self;
        let outcome = moved_outcome(alloc, job, &map, scheduler);
        (outcome, map.into_arena())
    }
}
