//! How a book takes a run that is handed in.

ghost use Rattle.std.specs.Prelude.{◌≡◌};
ghost use Rattle.workers.specs.Book.{run_fault};

use crate::book::{Book, JobName, Share, WrittenFault};
use crate::fault::RunFault;
use rv_step::EndedRun;
use std::alloc::Global;
use stm_core::{JobSource, NextStep, ReadyRecord, RecordFault};

impl<J: JobName, H: JobSource> Book<J, H> {
    ghost use Rattle.std.specs.Prelude.{◌≡◌, Some, true, length, slice_get, IfErr, IfOk, OnOk};
    ghost use Rattle.stm_state.specs.State.{task_at};
    ghost use Rattle.stm_state.specs.Steps as steps;
    ghost use Rattle.rv_step.specs.declared.ended_run.EndedRun.{EndedRun};
    ghost use Rattle.stm_core.specs.CoreState.{IsOwn, IsReadyOf, IsTaken, IsWithin, next_step_of};
    ghost use Rattle.stm_core.specs.declared.next_step.NextStep.TheVariants as next_step;
    ghost use Rattle.workers.specs.Book.{IsCause, IsMade, LeavesWritten};

    /// A worker hands in the ended run of a call at an incarnation. Returns the step that the worker owes now. Refused as `read`
    /// is for a step, and as Foreign if the run is not of that call or its answers are not those that were given. Otherwise refused as
    /// ArenaFull, IncarnationLimit or Memory, tested in this order.
    #[tactic(auto, using(crate::proofs::Stays::stays, crate::proofs::Causes::unready_cause))]
    pub fn record(
        &mut self,
        alloc: Global,
        share: &mut Share,
        call: u16,
        incarnation: u16,
        run: EndedRun,
    ) -> Result<NextStep, WrittenFault>
        ensures made { OnOk result (IsMade (next_step.Run call incarnation) steps.Record self.old self.new share.old share.new) }
        ensures next { IfOk result (λ next. next ≡ next_step_of self.new.core.state (task_at self.new.core.state share.new.worker)) }
        ensures own { OnOk result (IsOwn share.old.worker run self.old.core) }
        ensures dones { OnOk result (share.new.dones ≡ share.old.dones) }
        ensures refused { IfErr result (λ e. LeavesWritten e self.old self.new share.old share.new) }
        ensures cause { IfErr result (λ e. IsCause (next_step.Run call incarnation) share.old (IsOwn share.old.worker run self.old.core) (IsTaken share.old.worker steps.Record self.old.core) steps.Record self.old e) }
    {
        self.ready(share, NextStep::Run { call, incarnation })?;
        stm_state::dones_grow_at_done();
        match self.core.record(alloc, share.worker, run) {
            Ok(_) => {
                self.update(share, 0);
                Ok(self.core.doing(share.worker))
            }
            Err(refused) => Err(self.write(run_fault(refused.fault))),
        }
    }

    /// The same for a run that is ready to be recorded and known to be of that call. Afterwards `ready` holds what the record
    /// left over, so that it is dropped after the lock is released.
    #[tactic(auto, using(crate::proofs::Stays::stays, crate::proofs::Causes::unready_cause))]
    pub(crate) fn take_run(
        &mut self,
        share: &mut Share,
        call: u16,
        incarnation: u16,
        ready: &mut ReadyRecord,
    ) -> Result<NextStep, WrittenFault>
        requires ready { (run : EndedRun) × IsReadyOf run ready.old }
        requires call { slice_get J.job.block call ≡ Some ready.old.call }
        ensures made { OnOk result (IsMade (next_step.Run call incarnation) steps.Record self.old self.new share.old share.new) }
        ensures next { IfOk result (λ next. next ≡ next_step_of self.new.core.state (task_at self.new.core.state share.new.worker)) }
        ensures within { IfOk result (λ next. IsWithin (length J.job.block) next) }
        ensures own { (run : EndedRun) → IsReadyOf run ready.old → OnOk result (IsOwn share.old.worker run self.old.core) }
        ensures dones { OnOk result (share.new.dones ≡ share.old.dones) }
        ensures refused { IfErr result (λ e. LeavesWritten e self.old self.new share.old share.new) }
        ensures cause { (run : EndedRun) → IsReadyOf run ready.old → IfErr result (λ e. IsCause (next_step.Run call incarnation) share.old (IsOwn share.old.worker run self.old.core) (IsTaken share.old.worker steps.Record self.old.core) steps.Record self.old e) }
    {
        self.ready(share, NextStep::Run { call, incarnation })?;
        stm_state::dones_grow_at_done();
        match self.core.record_ready(share.worker, ready) {
            Ok(()) => {
                self.update(share, 0);
                Ok(self.core.doing(share.worker))
            }
            Err(fault) => Err(self.write(run_fault(fault))),
        }
    }
}

/// The fault of a record that was refused.
fn run_fault(fault: RecordFault) -> RunFault
    ensures { result ≡ run_fault fault }
{
    match fault {
        RecordFault::Foreign => RunFault::Foreign,
        RecordFault::ArenaFull => RunFault::ArenaFull,
        RecordFault::IncarnationLimit => RunFault::IncarnationLimit,
        RecordFault::Memory => RunFault::Memory,
    }
}
