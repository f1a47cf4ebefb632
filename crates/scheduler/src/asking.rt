//! The scheduler's call for a worker that asks for work.

use crate::calls;
use crate::scheduler::Scheduler;
use crate::worker::TaskKind;
use stm_state::Status;

impl Scheduler {
    ghost use Rattle.std.specs.Prelude.{◌≡◌, ◌≤◌, ◌<◌, ℕ, [], None, get_or, length};
    ghost use Rattle.mvmap.specs.Versions.{Versions};
    ghost use Rattle.stm_state.specs.State.{with_task};
    ghost use Rattle.stm_state.specs.Steps.{ask_execution, ask_validation, after_ask, counted, one_asking};
    ghost use Rattle.stm_state.specs.declared.state.Task.TheVariants as Task;
    ghost use Rattle.scheduler.specs.Schedule.{KeepsRooms, MayCount, state_of};

    /// Answers the asking of a worker without a task (Block-STM, `next_task`). If all is done, this counts an asking answered
    /// Done. Otherwise the validation index goes up if it is below the execution index; if not, the execution index goes up if a
    /// call is left. The worker gets the call there to validate or to run, or no task if that call needs neither now. Takes no
    /// memory.
    #[inline(always)]
    pub fn ask(&mut self, worker: usize)
        requires counts { MayCount worker self.old }
        requires idle { get_or self.old.tasks worker Task.Idle ≡ Task.Idle }
        requires execution { self.old.execution ≤ length self.old.calls }
        ensures state { (v : Versions) (p : ℕ) → state_of v p self.new ≡ counted one_asking worker (after_ask worker (state_of v p self.old)) }
        ensures rooms { KeepsRooms worker self.old.rooms self.new.rooms }
    {
        self.count_asking(worker);
        if self.done() {
            self.count_done(worker);
        } else if self.is_validation_behind() {
            self.ask_validation(worker);
        } else if self.is_execution_behind() {
            self.ask_execution(worker);
        }
    }

    /// Moves the validation index past its call; the worker validates that call if it is EXECUTED.
    #[tactic(auto, unfolding(stm_state::specs::Steps::ask_validation))]
    fn ask_validation(&mut self, worker: usize)
        requires idle { worker < length self.old.tasks }
        requires behind { self.old.validation < self.old.execution }
        requires within { self.old.execution ≤ length self.old.calls }
        ensures state { (v : Versions) (p : ℕ) → state_of v p self.new ≡ ask_validation worker (state_of v p self.old) }
        ensures rooms { KeepsRooms worker self.old.rooms self.new.rooms }
    {
        let index = self.next_validation();
        if calls::is_executed(self.call(index)) {
            let task_kind = calls::validation_of(self.call(index), index);
            self.begin(worker, task_kind);
        }
    }

    /// Moves the execution index past its call; the worker runs that call if it is READY.
    #[tactic(auto, unfolding(stm_state::specs::Steps::ask_execution))]
    fn ask_execution(&mut self, worker: usize)
        requires idle { worker < length self.old.tasks }
        requires behind { self.old.execution < length self.old.calls }
        ensures state { (v : Versions) (p : ℕ) → state_of v p self.new ≡ ask_execution worker (state_of v p self.old) }
        ensures rooms { KeepsRooms worker self.old.rooms self.new.rooms }
    {
        let index = self.next_execution();
        if calls::is_ready(self.call(index)) {
            self.set_status(index, Status::Executing);
            self.run_again(worker, index);
        }
    }

    /// Gives a worker a call to run from its start, without answers.
    pub(crate) fn run_again(&mut self, worker: usize, call: u16)
        requires { worker < length self.old.tasks }
        ensures state { (v : Versions) (p : ℕ) → state_of v p self.new ≡ with_task worker (Task.Running call [] None) (state_of v p self.old) }
        ensures rooms { KeepsRooms worker self.old.rooms self.new.rooms }
    {
        let task_kind = TaskKind::Running {
            call,
            blocked: None,
        };
        self.begin(worker, task_kind);
    }
}
