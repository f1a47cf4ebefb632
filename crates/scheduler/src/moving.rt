//! The scheduler's calls for a run that is handed in: the run is kept, its keys are moved, and then its
//! call is EXECUTED.

use crate::calls;
use crate::calls::LAST_INCARNATION;
use crate::scheduler::Scheduler;
use crate::worker::TaskKind;
use stm_state::Recorded;

impl Scheduler {
    ghost use Rattle.std.specs.Prelude.{◌≡◌, ◌≤◌, ◌<◌, ◌+◌, ◌∷◌, ℕ, [], Bool, List, IsSome, map, get_or, length};
    ghost use Rattle.std.specs.FinMap.{len};
    ghost use Rattle.std.specs.Option.{ForSome};
    ghost use Rattle.mvmap.specs.Versions.{Versions};
    ghost use Rattle.rv_step.specs.declared.answer.StorageAnswer.{StorageAnswer};
    ghost use Rattle.stm_state.specs.State.{fresh, with_task};
    ghost use Rattle.stm_state.specs.Steps.{counted, after_finish_execution, one_execution, one_step, read_of, after_record, to_validate, written_by};
    ghost use Rattle.stm_state.specs.declared.state.Status.TheVariants as Status;
    ghost use Rattle.stm_state.specs.declared.state.Task.TheVariants as Task;
    ghost use Rattle.scheduler.specs.Schedule.{KeepsRooms, MayCount, state_of};
    ghost use Rattle.scheduler.specs.Workers.{HasKeyLeft, HasNoKeys, NobodyMoves, task_with};

    /// Keeps the run of a call that a worker hands in, and gives the worker its keys to move: those that the
    /// run wrote, then those that only the call's run before it wrote. That run is handed out. Takes no memory.
    pub fn keep_run(&mut self, worker: usize, call: u16, run: &mut Option<Recorded>)
        requires counts { MayCount worker self.old }
        requires within { call < length self.old.calls }
        requires executing { (get_or self.old.calls call fresh).status ≡ Status.Executing }
        requires nobody { NobodyMoves call self.old.tasks }
        requires run { IsSome run.old }
        requires room { ForSome run.old (λ run. len run.receipt.writes + length (written_by (get_or self.old.calls call fresh).last) ≤ self.old.key_room) }
        ensures state { ForSome run.old (λ run. (answers : List StorageAnswer) → run.reads ≡ map read_of answers → (v : Versions) (p : ℕ) → state_of v (p + len run.receipt.writes) self.new ≡ counted one_execution worker (after_record worker call answers run.receipt (state_of v p self.old))) }
        ensures before { run.new ≡ (get_or self.old.calls call fresh).last }
        ensures rooms { KeepsRooms worker self.old.rooms self.new.rooms }
    {
        self.count_execution(worker);
        let Some(kept) = run else {
            unreachable!();
        };
        let new_key = calls::has_new_key(&self.call(call).last, &kept.receipt.writes);
        self.keep(call, run);
        self.begin_moving(worker, call, new_key, run);
    }

    /// Drops the next key of a worker, which the worker has moved or marked. Takes no memory.
    pub fn drop_key(&mut self, worker: usize)
        requires counts { MayCount worker self.old }
        requires left { HasKeyLeft (get_or self.old.tasks worker Task.Idle) }
        ensures moving { (i : ℕ) (key : List ℕ) (keys : List (List ℕ)) (new : Bool) → get_or self.old.tasks worker Task.Idle ≡ Task.Moving i (key ∷ keys) new → (v : Versions) (p : ℕ) → state_of v p self.new ≡ counted one_step worker (with_task worker (Task.Moving i keys new) (state_of v p self.old)) }
        ensures marking { (i : ℕ) (key : List ℕ) (keys : List (List ℕ)) → get_or self.old.tasks worker Task.Idle ≡ Task.Marking i (key ∷ keys) → (v : Versions) (p : ℕ) → state_of v p self.new ≡ counted one_step worker (with_task worker (Task.Marking i keys) (state_of v p self.old)) }
        ensures rooms { KeepsRooms worker self.old.rooms self.new.rooms }
    {
        self.count_step(worker);
        self.drop_next_key(worker);
    }

    /// Ends the record of a call whose keys a worker has moved (Block-STM, `finish_execution`): the call is
    /// EXECUTED, all calls that are parked on it are readied, and it is settled what is validated again.
    /// Takes no memory.
    #[inline(always)]
    pub fn finish_execution(&mut self, worker: usize, call: u16, new_key: bool)
        requires counts { MayCount worker self.old }
        requires within { call < length self.old.calls }
        requires moving { get_or self.old.tasks worker Task.Idle ≡ Task.Moving call [] new_key }
        requires incarnations { (i : ℕ) → (get_or self.old.calls i fresh).status ≡ Status.Aborting → (get_or self.old.calls i fresh).incarnation ≤ LAST_INCARNATION }
        ensures state { (v : Versions) (p : ℕ) → state_of v p self.new ≡ counted one_step worker (after_finish_execution worker call new_key (state_of v p self.old)) }
        ensures rooms { KeepsRooms worker self.old.rooms self.new.rooms }
    {
        self.count_step(worker);
        let task_kind = calls::validation_of(self.call(call), call);
        self.end_moving(worker, call);
        self.resume_dependents(call);
        self.to_validate(worker, call, new_key, task_kind);
    }

    /// Settles what is validated again after a run of a call. If the validation index is past the call: all calls from that call
    /// on if the run wrote a new key, otherwise only the call, as this worker's task. If not: nothing, since the index still
    /// reaches the call.
    #[tactic(auto, unfolding(stm_state::specs::Steps::to_validate))]
    #[inline(always)]
    fn to_validate(&mut self, worker: usize, call: u16, new_key: bool, task_kind: TaskKind)
        requires within { worker < length self.old.tasks }
        requires no_keys { HasNoKeys task_kind }
        ensures state { (v : Versions) (p : ℕ) → state_of v p self.new ≡ to_validate worker call new_key (task_with task_kind [] []) (state_of v p self.old) }
        ensures rooms { KeepsRooms worker self.old.rooms self.new.rooms }
    {
        if !self.is_validation_past(call) {
            self.begin(worker, TaskKind::Idle);
        } else if new_key {
            self.set_validation(call);
            self.begin(worker, TaskKind::Idle);
        } else {
            self.begin(worker, task_kind);
        }
    }
}
