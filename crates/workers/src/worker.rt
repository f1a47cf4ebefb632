//! What one thread does: it asks for work, runs calls outside the lock, and makes their steps under it.

mod asking;
mod ended;
mod running;

ghost use Rattle.std.specs.Prelude.{◌≡◌, ◌+◌, IfErr, IfOk};
ghost use Rattle.crossbeam_utils.specs.Seq.{cell_view};
ghost use Rattle.workers.specs.Book.{KeepsLimit};
ghost use Rattle.workers.specs.DoneCell.{IsPassOf};
ghost use Rattle.workers.specs.Work.{IsWorkersEnd};

use crate::book::{JobName, Share, WrittenFault};
use crate::gate::{Gate, Spin};
use crate::patience::Patience;
use crate::shared::Shared;
use ended::WorkFault;
use rv_step::SpareRun;
use std::alloc::Global;
use std::sync::Wait;
use stm_core::{JobSource, NextStep, StepKind, StoredJob};

/// The work of one thread. It makes the steps of its share's worker until an ask is answered Done, and then returns the share;
/// the cell shows done then. It is refused as the call for its next step was refused, or as Memory if memory ran out outside the
/// lock. The fault is written, and the steps that were made stay made. If the share kept the limit before, the worker has made no
/// more steps, not counting asks, than the limit.
pub fn work<J: JobName, H: StoredJob, R: Wait, G: Gate>(
    rt: &R,
    alloc: Global,
    shared: &Shared<J, H>,
    share: Share,
    gate: &G,
) -> Result<Share, WrittenFault>
    requires cell { IsPassOf shared.now.cell share.pass }
    ensures worker { IfOk result (λ back. back.worker ≡ share.worker) }
    ensures dones { IfOk result (λ back. back.dones ≡ share.dones + 1) }
    ensures shown { IfOk result (λ back. cell_view back.pass ≡ 1) }
    ensures keeps { IfOk result (λ back. KeepsLimit J.work_limit share.counts → KeepsLimit J.work_limit back.counts) }
    ensures fault { IfErr result (λ e. IsWorkersEnd J.job J.work_limit share e) }
{
    let patience = Patience::of(share.worker());
    work_spinning(rt, alloc, shared, share, gate, patience)
}

/// `work`, with `spin` deciding how long a worker without a task stays away from the lock.
pub fn work_spinning<J: JobName, H: StoredJob, R: Wait, G: Gate, S: Spin + Drop>(
    rt: &R,
    alloc: Global,
    shared: &Shared<J, H>,
    share: Share,
    gate: &G,
    spin: S,
) -> Result<Share, WrittenFault>
    requires cell { IsPassOf shared.now.cell share.pass }
    ensures worker { IfOk result (λ back. back.worker ≡ share.worker) }
    ensures dones { IfOk result (λ back. back.dones ≡ share.dones + 1) }
    ensures shown { IfOk result (λ back. cell_view back.pass ≡ 1) }
    ensures keeps { IfOk result (λ back. KeepsLimit J.work_limit share.counts → KeepsLimit J.work_limit back.counts) }
    ensures fault { IfErr result (λ e. IsWorkersEnd J.job J.work_limit share e) }
{
    let mut worker = Worker {
        rt,
        alloc,
        shared,
        gate,
        share,
        spin,
        spare: SpareRun::new(alloc),
    };
    match worker.make_steps() {
        Ok(()) => Ok(worker.into_share()),
        Err(fault) => Err(fault.written_fault()),
    }
}

/// A worker on its thread: what it shares with the others, and what it keeps from one step to the next. Its share has a pass of
/// the cell that they share.
#[derive(Drop)]
struct Worker<'a, J: JobName, H: JobSource, R, G, S: Drop> {
    rt: &'a R,
    alloc: Global,
    shared: &'a Shared<J, H>,
    gate: &'a G,
    share: Share,
    /// How long it stays away from the lock without a task.
    spin: S,
    /// What one run leaves to the next one.
    spare: SpareRun,
    ghost has_pass: { IsPassOf shared.now.cell share.pass },
}

impl<J: JobName, H: StoredJob, R: Wait, G: Gate, S: Spin + Drop> Worker<'_, J, H, R, G, S> {
    ghost use Rattle.std.specs.Prelude.{◌≡◌, ◌+◌, None, Ok, length, IfErr, IfOk, IfSome, OnOk};
    ghost use Rattle.crossbeam_utils.specs.Seq.{cell_view};
    ghost use Rattle.stm_core.specs.CoreState.{IsWithin};
    ghost use Rattle.stm_core.specs.declared.next_step.NextStep.TheVariants as next_step;
    ghost use Rattle.workers.specs.Work.{IsMakeAnswer, IsStepAnswer, IsStepFault, IsWorkersEnd, LeavesShare, Steps, StepsOrEnds, run_fault_of};

    /// Its share.
    fn into_share(self) -> Share
        ensures { result ≡ self.entry.share }
    {
        let Worker { share, .. } = self;
        share
    }

    /// Makes steps until an ask is answered Done. Refused as `work` is.
    #[tactic(auto, using(crate::proofs::Steps::first_step, crate::proofs::Steps::step_after))]
    fn make_steps(&mut self) -> Result<(), WorkFault>
        ensures steps { LeavesShare J.work_limit (λ _. self.old.share.dones + 1) self.old.share self.new.share result }
        ensures shown { OnOk result (cell_view self.new.share.pass ≡ 1) }
        ensures fault { IfErr result (λ e. IsWorkersEnd J.job J.work_limit self.old.share (run_fault_of e)) }
    {
        let mut next = NextStep::Ask;
        for _ in self.rt.forever() {
            match self.make_step(next) {
                Ok(Some(owed)) => next = owed,
                Ok(None) => return Ok(()),
                Err(fault) => return Err(fault),
            }
        }
        unreachable!()
    }

    /// Makes a step that the worker owes, and returns the step that it owes then. Returns None if an ask is answered Done, and
    /// then the cell shows it.
    fn make_step(&mut self, step: NextStep) -> Result<Option<NextStep>, WorkFault>
        requires within { IsWithin (length J.job.block) step }
        ensures answer { IfOk result (λ next. IsStepAnswer J.job J.work_limit step self.old.share self.new.share next) }
        ensures within { IfOk result (λ next. IfSome next (λ owed. IsWithin (length J.job.block) owed)) }
        ensures steps { StepsOrEnds J.work_limit self.old.share self.new.share result }
        ensures shown { IfOk result (λ next. next ≡ None → cell_view self.new.share.pass ≡ 1) }
        ensures fault { IfErr result (λ e. IsStepFault J.job J.work_limit step self.new.share e) }
    {
        match step {
            NextStep::Ask => self.ask_for_work(),
            NextStep::Run { call, incarnation } => {
                let next = self.run_call(call, incarnation)?;
                self.spin.learn(next);
                Ok(Some(next))
            }
            NextStep::Make {
                kind,
                call,
                incarnation,
            } => {
                let next = self.make_task_step(kind, call, incarnation)?;
                self.spin.learn(next);
                Ok(Some(next))
            }
        }
    }

    /// Makes a step of the worker's task that takes nothing else. Returns the step that it owes then.
    fn make_task_step(
        &mut self,
        kind: StepKind,
        call: u16,
        incarnation: u16,
    ) -> Result<NextStep, WorkFault>
        ensures answer { IfOk result (λ next. IsMakeAnswer J.job J.work_limit kind call incarnation self.old.share self.new.share (Ok next)) }
        ensures within { IfOk result (λ next. IsWithin (length J.job.block) next) }
        ensures steps { Steps J.work_limit self.old.share self.new.share result }
        ensures fault { IfErr result (λ e. IsStepFault J.job J.work_limit (next_step.Make kind call incarnation) self.new.share e) }
    {
        match self.make_under_lock(kind, call, incarnation) {
            Ok(next) => Ok(next),
            Err(written) => Err(WorkFault::Refused(written)),
        }
    }

    /// Makes the same step on the book under the lock, and returns its answer.
    fn make_under_lock(
        &mut self,
        kind: StepKind,
        call: u16,
        incarnation: u16,
    ) -> Result<NextStep, WrittenFault>
        ensures answer { IsMakeAnswer J.job J.work_limit kind call incarnation self.old.share self.new.share result }
        ensures within { IfOk result (λ next. IsWithin (length J.job.block) next) }
    {
        let mut guard = self.shared.hold(self.rt, &mut self.spin);
        let book = &mut *guard;
        book.holds();
        book.make_owed(&mut self.share, kind, call, incarnation)
    }
}
