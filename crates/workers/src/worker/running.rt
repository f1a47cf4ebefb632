//! How a worker runs a call: its run and its reads outside the lock, and its record under it.

use crate::book::{JobName, WrittenFault};
use crate::fault::OutsideFault;
use crate::gate::{Gate, Spin};
use crate::worker::Worker;
use crate::worker::ended::WorkFault;
use rv_ledger::{Key, LentValue};
use rv_step::{EndedRun, Pause, Run, SpareRun};
use std::alloc::AllocError;
use std::mem::replace;
use std::sync::Wait;
use stm_core::{NextStep, ReadResult, ReadyRecord, StepKind, StoredJob, reads_made};

impl<J: JobName, H: StoredJob, R: Wait, G: Gate, S: Spin + Drop> Worker<'_, J, H, R, G, S> {
    ghost use Rattle.std.specs.FinMap as finite;
    ghost use Rattle.std.specs.Prelude.{◌≡◌, ◌≢◌, ◌<◌, Ok, Some, false, true, length, slice_get, IfErr, IfOk};
    ghost use Rattle.rv_ledger.specs.Lent.{lent_content};
    ghost use Rattle.rv_step.specs.Run.{IsEnded};
    ghost use Rattle.rv_step.specs.declared.ended_run.EndedRun.{EndedRun};
    ghost use Rattle.rv_step.specs.declared.stage.Stage.TheVariants as stages;
    ghost use Rattle.stm_core.specs.CoreState.{IsReadyOf, IsWithin};
    ghost use Rattle.stm_core.specs.declared.next_step.NextStep.{NextStep};
    ghost use Rattle.stm_core.specs.declared.next_step.NextStep.TheVariants as next_step;
    ghost use Rattle.workers.specs.declared.book.share.Share.{Share};
    ghost use Rattle.workers.specs.Work.{IsBlocked, IsReadAnswer, IsRecordAnswer, IsRunAnswer, IsStepFault, Steps};

    /// Runs a call outside the lock up to a read that meets an estimate, or up to its end. At the end the worker passes the gate,
    /// and hands the run in. Returns the step that it owes then. A run is large, so it stays here until it is finished.
    pub(super) fn run_call(&mut self, call: u16, incarnation: u16) -> Result<NextStep, WorkFault>
        requires within { call < length J.job.block }
        ensures answer { IfOk result (λ next. IsRunAnswer J.job J.work_limit call incarnation self.new.share next) }
        ensures within { IfOk result (λ next. IsWithin (length J.job.block) next) }
        ensures steps { Steps J.work_limit self.old.share self.new.share result }
        ensures fault { IfErr result (λ e. IsStepFault J.job J.work_limit (next_step.Run call incarnation) self.new.share e) }
    {
        let (alloc, shared) = (self.alloc, self.shared);
        let own = shared.call(call);
        let Ok(mut run) = Run::start_in(alloc, replace(&mut self.spare, SpareRun::new(alloc)), own)
        else {
            return Err(self.refuse_memory());
        };
        match self.run_to_end(call, incarnation, &mut run) {
            Ok(true) => {}
            Ok(false) => {
                self.spare = run.into_spare();
                return Ok(NextStep::Make {
                    kind: StepKind::Park,
                    call,
                    incarnation,
                });
            }
            Err(fault) => {
                self.spare = run.into_spare();
                return Err(fault);
            }
        }
        self.gate.held(self.share.worker());
        let ended = run.finish_in(&mut self.spare);
        let Ok(reads) = reads_made(alloc, &ended) else {
            return Err(self.refuse_run(ended));
        };
        let mut ready = ReadyRecord::of(ended, reads);
        let next = self.hand_in(call, incarnation, &mut ready);
        // The rest of what the record left over in `ready` is dropped here, after the lock is released.
        self.spare.keep_answers(ready.take_answers());
        next
    }

    /// Continues a call's run to its end. Returns false if it meets an estimate before that.
    fn run_to_end(&mut self, call: u16, incarnation: u16, run: &mut Run) -> Result<bool, WorkFault>
        ensures call { run.new.call ≡ run.old.call }
        ensures ended { IfOk result (λ ended. ended ≡ true → IsEnded run.new.stage) }
        ensures blocked { IfOk result (λ ended. ended ≡ false → IsBlocked J.job J.work_limit call incarnation self.new.share) }
        ensures steps { Steps J.work_limit self.old.share self.new.share result }
        ensures fault { IfErr result (λ e. IsStepFault J.job J.work_limit (next_step.Run call incarnation) self.new.share e) }
    {
        for _ in self.rt.forever() {
            let Ok(pause) = run.go() else {
                return Err(self.refuse_memory());
            };
            let Pause::Ask(key) = pause else {
                return Ok(true);
            };
            if !self.read_key(call, incarnation, run, &key)? {
                return Ok(false);
            }
        }
        unreachable!()
    }

    /// Reads the key that a call's run asks for, and answers the run. Returns false if the read meets an estimate. The storage
    /// before the block is searched before the lock is taken.
    fn read_key(
        &mut self,
        call: u16,
        incarnation: u16,
        run: &mut Run,
        key: &Key,
    ) -> Result<bool, WorkFault>
        requires { run.old.stage ≡ stages.Asked key.now }
        ensures call { run.new.call ≡ run.old.call }
        ensures given { IfOk result (λ given. given ≡ true → run.new.stage ≢ stages.Asked key.now) }
        ensures blocked { IfOk result (λ given. given ≡ false → IsBlocked J.job J.work_limit call incarnation self.new.share) }
        ensures steps { Steps J.work_limit self.old.share self.new.share result }
        ensures fault { IfErr result (λ e. IsStepFault J.job J.work_limit (next_step.Run call incarnation) self.new.share e) }
    {
        let shared = self.shared;
        let base = LentValue::of_stored(shared.job.content(key));
        match self.read_under_lock(call, incarnation, key, base) {
            Ok(ReadResult::Given(value, origin)) => match run.answer_stored(value, origin) {
                Ok(()) => Ok(true),
                Err(AllocError) => Err(self.refuse_memory()),
            },
            Ok(ReadResult::Blocked) => Ok(false),
            Err(written) => Err(WorkFault::Refused(written)),
        }
    }

    /// Asks the book under the lock what a call's run reads at a key. The storage before the block has `base` there.
    fn read_under_lock(
        &mut self,
        call: u16,
        incarnation: u16,
        key: &Key,
        base: Option<LentValue>,
    ) -> Result<ReadResult, WrittenFault>
        requires { lent_content base ≡ finite.get J.job.store key.now }
        ensures { IsReadAnswer J.job J.work_limit key.now call incarnation self.old.share self.new.share result }
    {
        let mut guard = self.shared.hold(self.rt, &mut self.spin);
        let book = &mut *guard;
        book.holds();
        book.read_with_base(&mut self.share, call, incarnation, key, base)
    }

    /// Writes that memory ran out outside the lock. It ends the worker, whatever step it owes.
    fn refuse_memory(&self) -> WorkFault
        ensures { (step : NextStep) (left : Share) → IsStepFault J.job J.work_limit step left result }
    {
        WorkFault::Met(self.shared.refuse(self.rt, OutsideFault::Memory))
    }

    /// Drops a run that can't be handed in because memory ran out, and writes that.
    #[cold]
    fn refuse_run(&self, run: EndedRun) -> WorkFault
        ensures { (step : NextStep) (left : Share) → IsStepFault J.job J.work_limit step left result }
    {
        drop(run);
        self.refuse_memory()
    }

    /// Hands in the ended run of a call. Returns the step that it owes then.
    fn hand_in(
        &mut self,
        call: u16,
        incarnation: u16,
        ready: &mut ReadyRecord,
    ) -> Result<NextStep, WorkFault>
        requires ready { (run : EndedRun) × IsReadyOf run ready.old }
        requires call { slice_get J.job.block call ≡ Some ready.old.call }
        ensures answer { IfOk result (λ next. IsRecordAnswer J.job J.work_limit call incarnation self.old.share self.new.share (Ok next)) }
        ensures within { IfOk result (λ next. IsWithin (length J.job.block) next) }
        ensures steps { Steps J.work_limit self.old.share self.new.share result }
        ensures fault { IfErr result (λ e. IsStepFault J.job J.work_limit (next_step.Run call incarnation) self.new.share e) }
    {
        match self.record_under_lock(call, incarnation, ready) {
            Ok(next) => Ok(next),
            Err(written) => Err(WorkFault::Refused(written)),
        }
    }

    /// Hands in the ended run of a call to the book under the lock, and returns its answer. Afterwards `ready` holds what is left
    /// over of the run.
    fn record_under_lock(
        &mut self,
        call: u16,
        incarnation: u16,
        ready: &mut ReadyRecord,
    ) -> Result<NextStep, WrittenFault>
        requires ready { (run : EndedRun) × IsReadyOf run ready.old }
        requires call { slice_get J.job.block call ≡ Some ready.old.call }
        ensures answer { IsRecordAnswer J.job J.work_limit call incarnation self.old.share self.new.share result }
        ensures within { IfOk result (λ next. IsWithin (length J.job.block) next) }
    {
        let mut guard = self.shared.hold(self.rt, &mut self.spin);
        let book = &mut *guard;
        book.holds();
        book.take_run(&mut self.share, call, incarnation, ready)
    }
}
