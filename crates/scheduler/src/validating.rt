//! The scheduler's calls for a validation: a read is checked, the validation is decided, and a call that is
//! taken back is readied.

use crate::calls;
use crate::scheduler::Scheduler;
use crate::worker::TaskKind;

impl Scheduler {
    ghost use Rattle.std.specs.Prelude.{◌≡◌, ◌<◌, ◌+◌, ℕ, false, get_or, length};
    ghost use Rattle.mvmap.specs.Versions.{Versions};
    ghost use Rattle.stm_state.specs.State.{fresh};
    ghost use Rattle.stm_state.specs.Steps.{after_finish_abort, after_check_read, counted, after_decide, next_stands, one_step, one_validation};
    ghost use Rattle.stm_state.specs.declared.state.Task.TheVariants as Task;
    ghost use Rattle.scheduler.specs.Schedule.{KeepsRooms, MayCount, state_of};

    /// Ends a worker's check of the next read of a call that it validates. `stands` says whether the read stands, and `left` is
    /// the number of reads after it. If the call is no longer EXECUTED at the incarnation, the worker's task ends. Otherwise a
    /// read that does not stand fails the validation. Takes no memory.
    #[inline(always)]
    pub fn finish_validation(
        &mut self,
        worker: usize,
        call: u16,
        incarnation: u16,
        left: usize,
        stands: bool,
    )
        requires counts { MayCount worker self.old }
        requires within { call < length self.old.calls }
        requires checking { get_or self.old.tasks worker Task.Idle ≡ Task.Validating call incarnation (left + 1) false }
        ensures state { (v : Versions) (p : ℕ) → next_stands call (left + 1) (state_of v p self.old) ≡ stands → state_of v p self.new ≡ counted one_step worker (after_check_read worker call incarnation left (state_of v p self.old)) }
        ensures rooms { KeepsRooms worker self.old.rooms self.new.rooms }
    {
        self.count_step(worker);
        if !calls::is_executed_at(self.call(call), incarnation) {
            self.begin(worker, TaskKind::Idle);
        } else if stands {
            let task_kind = TaskKind::Validating {
                call,
                incarnation,
                left,
                failed: false,
            };
            self.begin(worker, task_kind);
        } else {
            self.fail_check(worker);
        }
    }

    /// Decides a worker's validation of a call (Block-STM, `try_validation_abort`). If a read did not stand and the call is
    /// EXECUTED at the incarnation, the call is taken back, and the worker gets the keys that the call wrote, to mark them.
    /// Otherwise the worker's task ends. Takes no memory.
    #[inline(always)]
    pub fn try_abort(&mut self, worker: usize, call: u16, incarnation: u16, failed: bool)
        requires counts { MayCount worker self.old }
        requires within { call < length self.old.calls }
        ensures state { (v : Versions) (p : ℕ) → state_of v p self.new ≡ counted one_validation worker (after_decide worker call incarnation failed (state_of v p self.old)) }
        ensures rooms { KeepsRooms worker self.old.rooms self.new.rooms }
    {
        self.count_validation(worker);
        if failed && calls::is_executed_at(self.call(call), incarnation) {
            self.begin_abort(worker, call);
        } else {
            self.begin(worker, TaskKind::Idle);
        }
    }

    /// Readies a call whose keys a worker has marked, and lowers the validation index to the next call (Block-STM,
    /// `finish_validation`). The worker runs the call if the execution index is past it. Takes no memory.
    pub fn finish_abort(&mut self, worker: usize, call: u16)
        requires counts { MayCount worker self.old }
        requires within { call < length self.old.calls }
        requires incarnation { (get_or self.old.calls call fresh).incarnation < 65535 }
        ensures state { (v : Versions) (p : ℕ) → state_of v p self.new ≡ counted one_step worker (after_finish_abort worker call (state_of v p self.old)) }
        ensures rooms { KeepsRooms worker self.old.rooms self.new.rooms }
    {
        self.count_step(worker);
        self.lower_validation(call);
        if self.is_execution_past(call) {
            self.restart(call);
            self.run_again(worker, call);
        } else {
            self.ready(call);
            self.begin(worker, TaskKind::Idle);
        }
    }
}
