//! How a worker asks for work, and how it waits for some.

use crate::book::{Asked, JobName, WrittenFault};
use crate::gate::{Gate, Spin};
use crate::worker::Worker;
use crate::worker::ended::WorkFault;
use std::sync::Wait;
use stm_core::{JobSource, NextStep};

impl<J: JobName, H: JobSource, R: Wait, G: Gate, S: Spin + Drop> Worker<'_, J, H, R, G, S> {
    ghost use Rattle.std.specs.Prelude.{◌≡◌, None, length, IfErr, IfOk, IfSome};
    ghost use Rattle.crossbeam_utils.specs.Seq.{cell_view};
    ghost use Rattle.stm_core.specs.CoreState.{IsWithin};
    ghost use Rattle.stm_core.specs.declared.next_step.NextStep.TheVariants as next_step;
    ghost use Rattle.workers.specs.Book.{IsAskWithin, owed_by};
    ghost use Rattle.workers.specs.Work.{IsAskAnswer, IsStepAnswer, IsStepFault, Looks, StepsOrEnds};

    /// Asks for work, and returns the step that the worker owes then. Returns None if all is done, and then the cell shows it. A
    /// worker that gets no task looks at the cell before it asks again. One that backs off looks at it before this ask, too.
    pub(super) fn ask_for_work(&mut self) -> Result<Option<NextStep>, WorkFault>
        ensures answer { IfOk result (λ next. IsStepAnswer J.job J.work_limit next_step.Ask self.old.share self.new.share next) }
        ensures within { IfOk result (λ next. IfSome next (λ owed. IsWithin (length J.job.block) owed)) }
        ensures steps { StepsOrEnds J.work_limit self.old.share self.new.share result }
        ensures shown { IfOk result (λ next. next ≡ None → cell_view self.new.share.pass ≡ 1) }
        ensures fault { IfErr result (λ e. IsStepFault J.job J.work_limit next_step.Ask self.new.share e) }
    {
        self.back_off();
        match self.ask_under_lock() {
            Ok(asked) => {
                self.heed(asked);
                Ok(asked.owed())
            }
            Err(written) => Err(WorkFault::Refused(written)),
        }
    }

    /// Asks the book under the lock for work.
    fn ask_under_lock(&mut self) -> Result<Asked, WrittenFault>
        ensures answer { IsAskAnswer J.job J.work_limit self.old.share self.new.share result }
        ensures within { IfOk result (λ asked. IsAskWithin (length J.job.block) asked) }
    {
        let mut guard = self.shared.hold(self.rt, &mut self.spin);
        let book = &mut *guard;
        book.holds();
        book.ask(&mut self.share)
    }

    /// What a worker does after an ask: if all is done, it makes the cell show it; if it gets no task, it looks at the cell.
    fn heed(&mut self, asked: Asked)
        ensures looks { Looks self.old.share self.new.share }
        ensures shown { owed_by asked ≡ None → cell_view self.new.share.pass ≡ 1 }
    {
        match asked {
            Asked::Done(is_done) => self
                .shared
                .cell
                .set_done(self.rt, &mut self.share.pass, is_done),
            Asked::Owes(NextStep::Ask) => self.look_at_cell(),
            Asked::Owes(next) => self.spin.learn(next),
        }
    }

    /// Looks at the cell as often as `spin` says.
    fn look_at_cell(&mut self)
        ensures { Looks self.old.share self.new.share }
    {
        let _ = self
            .shared
            .cell
            .look(self.rt, &mut self.share.pass, &mut self.spin);
    }

    /// Looks at the cell if the worker backs off before an ask.
    fn back_off(&mut self)
        ensures { Looks self.old.share self.new.share }
    {
        if self.spin.backs_off() {
            self.look_at_cell();
        }
    }
}
