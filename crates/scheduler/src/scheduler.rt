//! The scheduler: what it keeps, what it answers, and its smaller changes.

use crate::calls::{INCARNATION_LIMIT, LAST_INCARNATION};
use crate::counting::COUNT_LIMIT;
use crate::worker::{TaskKind, Worker};
use crate::{calls, worker};
use rv_ledger::{CALL_LIMIT, Counts, Key};
use rv_step::StorageAnswer;
use std::alloc::{AllocError, Global};
use std::marker::Model;
use std::mem;
use stm_state::{CallState, Recorded, Status};

/// The scheduler of a block's run, of at most 1,024 calls.
#[derive(Drop)]
pub struct Scheduler {
    execution: u16,
    validation: u16,
    calls: Vec<CallState>,
    workers: Vec<Worker>,
    /// For each call, whether another may be parked on it. If this is false, none is.
    awaited: Vec<bool>,
    /// Each worker's list has room for at least this number of keys. No recorded run wrote more.
    key_room: usize,
}

impl Model for Scheduler {
    ghost use Rattle.std.specs.Prelude.{◌≤◌, length};
    ghost use Rattle.std.specs.Coded.{codes};
    ghost use Rattle.stm_state.specs.contracts.state.CallState.{the_row as call_row};
    ghost use Rattle.stm_state.specs.contracts.state.Task.{the_row as task_row};
    ghost use Rattle.scheduler.specs.Awaited.{IsAwaited};
    ghost use Rattle.scheduler.specs.KeyRoom.{HasKeyRoom};
    ghost use Rattle.scheduler.specs.Schedule.{Schedule, schedule_of};

    ghost Value = { Schedule };

    ghost coded = { Prim.hlevel (codes, call_row.coded, task_row.coded) };

    ghost view = { λ s. schedule_of s.calls.items s.execution s.validation s.key_room s.workers.items };

    ghost invariant = { λ s. (length s.calls.items ≤ 1024) × IsAwaited s.calls.items s.awaited.items × HasKeyRoom s.key_room s.calls.items s.workers.items };
}

impl Scheduler {
    ghost use Rattle.std.specs.Prelude.{◌≡◌, ◌≢◌, ◌≤◌, ◌<◌, ◌+◌, ◌∷◌, ℕ, [], Bool, List, Option, Some, None, IsSome, IfOk, OnErr, OnOk, Ok, nat_lt, min, map, set, get_or, length, slice_get, ◌-◌, ◌==◌, ◌&&◌, vec_capacity, vec_len};
    ghost use Rattle.std.specs.List.{list_all};
    ghost use Rattle.std.specs.Option.{ForSome, option_copied};
    ghost use Rattle.mvmap.specs.Versions.{Versions};
    ghost use Rattle.rv_step.specs.declared.answer.StorageAnswer.{StorageAnswer};
    ghost use Rattle.stm_state.specs.State.{fresh, is_done, is_idle, no_counts, start_state, with_call, with_task};
    ghost use Rattle.stm_state.specs.Steps.{counted, keys_of, keys_to_move, least_parked_call, one_step, after_park, next_incarnation, resume_if_parked, written_by};
    ghost use Rattle.stm_state.specs.declared.state.Status.TheVariants as Status;
    ghost use Rattle.stm_state.specs.declared.state.Task.TheVariants as Task;
    ghost use Rattle.scheduler.specs.Schedule.{KeepsRooms, MayCount, state_of};
    ghost use Rattle.scheduler.specs.Workers.{HasKeyLeft, HasKeys, HasNoKeys, IsTaskKindOf, IsRunning, NobodyMoves, with_answer, with_answers, blocked_on, failed_check, task_with};

    /// The scheduler of `calls` calls, each READY at incarnation 0, and of `workers` workers without a task. Both indices are 0.
    /// Refused if memory ran out.
    pub fn new(alloc: Global, calls: usize, workers: usize) -> Result<Scheduler, AllocError>
        requires { calls ≤ 1024 }
        ensures { IfOk result (λ s. (v : Versions) (p : ℕ) → state_of v p s ≡ record (start_state calls workers) { versions = v; record_count = p }) }
    {
        Ok(Scheduler {
            calls: calls::fresh_calls(alloc, calls)?,
            execution: 0,
            validation: 0,
            workers: worker::idle_workers(alloc, workers)?,
            awaited: calls::none_awaited(alloc, calls)?,
            key_room: 0,
        })
    }

    /// Swaps the answers of a worker's run with a list, whose owner can then make room in them. This is not
    /// a step. Takes no memory.
    pub fn swap_answers(&mut self, worker: usize, list: &mut Vec<StorageAnswer>)
        requires { worker < length self.old.tasks }
        ensures answers { (i : ℕ) (answers : List StorageAnswer) (blocked : Option ℕ) → get_or self.old.tasks worker Task.Idle ≡ Task.Running i answers blocked → list.new.items ≡ answers }
        ensures room { vec_capacity list.new - vec_len list.new ≡ get_or self.old.rooms worker 0 }
        ensures own_room { get_or self.new.rooms worker 0 ≡ vec_capacity list.old - vec_len list.old }
        ensures schedule { self.new ≡ record self.old { tasks = set self.old.tasks worker (with_answers list.old.items (get_or self.old.tasks worker Task.Idle)); rooms = set self.old.rooms worker (vec_capacity list.old - vec_len list.old) } }
    {
        self.workers[worker].swap_answers(list);
    }

    /// Makes room in each worker's list for `count` keys to move or to mark. This is not a step. Refused if memory ran out, and
    /// then nothing changes.
    pub fn reserve_keys(&mut self, count: usize) -> Result<(), AllocError>
        ensures room { OnOk result (count ≤ self.new.key_room) }
        ensures same { self.new ≡ record self.old { key_room = self.new.key_room } }
        ensures unchanged { OnErr result (self.new ≡ self.old) }
        ensures succeeds { count ≤ self.old.key_room → result ≡ Ok tt }
    {
        if count > self.key_room {
            worker::reserve_keys(&mut self.workers, count)?;
            self.key_room = count;
        }
        Ok(())
    }

    /// Whether there is room for one more answer to a worker's run.
    #[inline(always)]
    pub fn has_answer_room(&self, worker: usize) -> bool
        requires { worker < length self.now.tasks }
        ensures { result ≡ nat_lt 0 (get_or self.now.rooms worker 0) }
    {
        self.workers[worker].has_room()
    }

    /// Adds an answer to those of a worker's run, in room that was made. Takes no memory.
    pub fn answer(&mut self, worker: usize, answer: StorageAnswer)
        requires counts { MayCount worker self.old }
        requires room { 1 ≤ get_or self.old.rooms worker 0 }
        ensures state { (v : Versions) (p : ℕ) → state_of v p self.new ≡ counted one_step worker (with_task worker (with_answer answer (get_or self.old.tasks worker Task.Idle)) (state_of v p self.old)) }
        ensures rooms { KeepsRooms worker self.old.rooms self.new.rooms }
    {
        self.count_step(worker);
        self.push(worker, answer);
    }

    /// Blocks a worker's run on the call whose estimate it met. Takes no memory.
    pub fn block(&mut self, worker: usize, on: u16)
        requires counts { MayCount worker self.old }
        ensures state { (v : Versions) (p : ℕ) → state_of v p self.new ≡ counted one_step worker (with_task worker (blocked_on on (get_or self.old.tasks worker Task.Idle)) (state_of v p self.old)) }
        ensures rooms { KeepsRooms worker self.old.rooms self.new.rooms }
    {
        self.count_step(worker);
        self.set_blocked(worker, on);
    }

    /// Parks `call`, whose run is blocked, on the call `on`, and ends the worker's task. If `on` is EXECUTED
    /// by now, the run starts again without answers instead (Block-STM, `add_dependency`). Takes no memory.
    pub fn add_dependency(&mut self, worker: usize, call: u16, on: u16)
        requires counts { MayCount worker self.old }
        requires within { (call < length self.old.calls) × (on < length self.old.calls) }
        ensures state { (v : Versions) (p : ℕ) → state_of v p self.new ≡ counted one_step worker (after_park worker call on (state_of v p self.old)) }
        ensures rooms { KeepsRooms worker self.old.rooms self.new.rooms }
    {
        self.count_step(worker);
        if calls::is_executed(self.call(on)) {
            self.run_again(worker, call);
        } else {
            self.park(call, on);
            self.begin(worker, TaskKind::Idle);
        }
    }

    /// Whether all is done: no worker has a task, and both indices are past the last call. Takes no memory.
    #[tactic(auto, unfolding(stm_state::specs::State::is_done))]
    pub fn done(&self) -> bool
        ensures { (v : Versions) (p : ℕ) → result ≡ is_done (state_of v p self.now) }
    {
        self.is_all_executed() && self.is_all_validated()
    }

    /// What a worker is doing, without the answers and the keys of its task.
    pub fn task_kind(&self, worker: usize) -> TaskKind
        requires { worker < length self.now.tasks }
        ensures { IsTaskKindOf result (get_or self.now.tasks worker Task.Idle) }
    {
        self.workers[worker].task_kind()
    }

    /// The answers that a worker's run was given, in order.
    pub fn answers(&self, worker: usize) -> &[StorageAnswer]
        requires within { worker < length self.now.tasks }
        requires running { IsRunning (get_or self.now.tasks worker Task.Idle) }
        ensures { (i : ℕ) (answers : List StorageAnswer) (blocked : Option ℕ) → get_or self.now.tasks worker Task.Idle ≡ Task.Running i answers blocked → result.now ≡ answers }
    {
        self.workers[worker].answers()
    }

    /// The next key that a worker must move or mark; None if no key is left.
    pub fn next_key(&self, worker: usize) -> Option<&Key>
        requires within { worker < length self.now.tasks }
        requires keys { HasKeys (get_or self.now.tasks worker Task.Idle) }
        ensures moving { (i : ℕ) (keys : List (List ℕ)) (new : Bool) → get_or self.now.tasks worker Task.Idle ≡ Task.Moving i keys new → option_copied result ≡ slice_get keys 0 }
        ensures marking { (i : ℕ) (keys : List (List ℕ)) → get_or self.now.tasks worker Task.Idle ≡ Task.Marking i keys → option_copied result ≡ slice_get keys 0 }
    {
        self.workers[worker].next_key()
    }

    /// What the scheduler keeps of the call of an index.
    pub fn call(&self, index: u16) -> &CallState
        requires { index < length self.now.calls }
        ensures { result.now ≡ get_or self.now.calls index fresh }
    {
        &self.calls[usize::from(index)]
    }

    /// All calls in block order.
    pub fn calls(&self) -> &[CallState]
        ensures { result.now ≡ self.now.calls }
    {
        self.calls.as_slice()
    }

    /// All calls in block order, moved out. Takes no memory.
    pub fn into_calls(self) -> Vec<CallState>
        ensures { result.items ≡ self.calls }
    {
        let Scheduler { calls, .. } = self;
        calls
    }

    /// The number of workers.
    pub fn workers(&self) -> usize
        ensures { result ≡ length self.now.tasks }
    {
        self.workers.len()
    }

    /// What a worker did.
    pub fn counts(&self, worker: usize) -> Counts
        requires { worker < length self.now.tasks }
        ensures { result ≡ get_or self.now.counts worker no_counts }
    {
        self.workers[worker].counts()
    }

    /// The number of a worker's askings that were answered Done.
    pub fn dones(&self, worker: usize) -> u64
        requires { worker < length self.now.tasks }
        ensures { result ≡ get_or self.now.dones worker 0 }
    {
        self.workers[worker].dones()
    }

    /// Whether the execution index is past the last call.
    fn is_all_executed(&self) -> bool
        ensures { result ≡ (self.now.execution == length self.now.calls) }
    {
        usize::from(self.execution) == self.calls.len()
    }

    /// Whether the validation index is past the last call, and no worker has a task.
    fn is_all_validated(&self) -> bool
        ensures { result ≡ (self.now.validation == length self.now.calls && list_all is_idle self.now.tasks) }
    {
        usize::from(self.validation) == self.calls.len() && worker::all_idle(&self.workers)
    }

    /// Whether the validation index is below the execution index.
    pub(crate) fn is_validation_behind(&self) -> bool
        ensures { result ≡ nat_lt self.now.validation self.now.execution }
    {
        self.validation < self.execution
    }

    /// Whether the execution index is not past the last call.
    pub(crate) fn is_execution_behind(&self) -> bool
        ensures { result ≡ nat_lt self.now.execution (length self.now.calls) }
    {
        usize::from(self.execution) < self.calls.len()
    }

    /// Whether the execution index is past a call.
    pub(crate) fn is_execution_past(&self, call: u16) -> bool
        ensures { result ≡ nat_lt call self.now.execution }
    {
        call < self.execution
    }

    /// Raises the validation index by one, and returns its value before that.
    pub(crate) fn next_validation(&mut self) -> u16
        requires { self.old.validation < self.old.execution }
        ensures index { result ≡ self.old.validation }
        ensures state { self.new ≡ record self.old { validation = self.old.validation + 1 } }
    {
        let index = self.validation;
        self.validation += 1;
        index
    }

    /// Raises the execution index by one, and returns its value before that.
    pub(crate) fn next_execution(&mut self) -> u16
        requires { self.old.execution < length self.old.calls }
        ensures index { result ≡ self.old.execution }
        ensures state { self.new ≡ record self.old { execution = self.old.execution + 1 } }
    {
        let index = self.execution;
        self.execution += 1;
        index
    }

    /// Sets the validation index.
    pub(crate) fn set_validation(&mut self, to: u16)
        ensures { self.new ≡ record self.old { validation = to } }
    {
        self.validation = to;
    }

    /// Lowers the validation index to the call after this one.
    pub(crate) fn lower_validation(&mut self, call: u16)
        requires { call < length self.old.calls }
        ensures { self.new ≡ record self.old { validation = min self.old.validation (call + 1) } }
    {
        // There are at most 1,024 calls, so `call + 1` does not overflow.
        let _ = &self.calls;
        self.validation = self.validation.min(call + 1);
    }

    /// Whether the validation index is past a call.
    pub(crate) fn is_validation_past(&self, call: u16) -> bool
        ensures { result ≡ nat_lt call self.now.validation }
    {
        call < self.validation
    }

    /// Sets the status of a call, to one other than EXECUTED.
    pub(crate) fn set_status(&mut self, call: u16, status: Status)
        requires within { call < length self.old.calls }
        requires status { status ≢ Status.Executed }
        ensures { self.new ≡ record self.old { calls = set self.old.calls call (record (get_or self.old.calls call fresh) { status = status }) } }
    {
        self.calls[usize::from(call)].status = status;
    }

    /// Parks a call on the call `on`: it is ABORTING.
    fn park(&mut self, call: u16, on: u16)
        requires within { call < length self.old.calls }
        requires on { on < length self.old.calls }
        ensures { self.new ≡ record self.old { calls = set self.old.calls call (record (get_or self.old.calls call fresh) { status = Status.Aborting; parked = Some on }) } }
    {
        self.awaited[usize::from(on)] = true;
        let parked = &mut self.calls[usize::from(call)];
        parked.status = Status::Aborting;
        parked.parked = Some(on);
    }

    /// Swaps the last run of a call with the one to keep; the call's status stays.
    pub(crate) fn keep(&mut self, call: u16, run: &mut Option<Recorded>)
        requires within { call < length self.old.calls }
        requires executing { (get_or self.old.calls call fresh).status ≡ Status.Executing }
        requires nobody { NobodyMoves call self.old.tasks }
        requires room { length (written_by run.old) ≤ self.old.key_room }
        ensures kept { self.new ≡ record self.old { calls = set self.old.calls call (record (get_or self.old.calls call fresh) { last = run.old }) } }
        ensures before { run.new ≡ (get_or self.old.calls call fresh).last }
    {
        let last = &mut self.calls[usize::from(call)].last;
        if last.is_none() {
            *last = run.take();
        } else {
            mem::swap(last, run);
        }
    }

    /// Readies a call.
    pub(crate) fn ready(&mut self, call: u16)
        requires within { call < length self.old.calls }
        requires incarnation { (get_or self.old.calls call fresh).incarnation < INCARNATION_LIMIT }
        ensures { self.new ≡ record self.old { calls = set self.old.calls call (next_incarnation (get_or self.old.calls call fresh)) } }
    {
        calls::make_ready(&mut self.calls[usize::from(call)]);
    }

    /// Readies a call and makes it EXECUTING at once.
    pub(crate) fn restart(&mut self, call: u16)
        requires within { call < length self.old.calls }
        requires incarnation { (get_or self.old.calls call fresh).incarnation < INCARNATION_LIMIT }
        ensures { self.new ≡ record self.old { calls = set self.old.calls call (record (next_incarnation (get_or self.old.calls call fresh)) { status = Status.Executing }) } }
    {
        let restarted = &mut self.calls[usize::from(call)];
        calls::make_ready(restarted);
        restarted.status = Status::Executing;
    }

    /// Readies all calls that are parked on the call `on`, and lowers the execution index to the least of them. It goes through
    /// the calls only if one may be parked on `on`.
    pub(crate) fn resume_dependents(&mut self, on: u16)
        requires within { on < length self.old.calls }
        requires incarnations { (i : ℕ) → (get_or self.old.calls i fresh).status ≡ Status.Aborting → (get_or self.old.calls i fresh).incarnation ≤ LAST_INCARNATION }
        ensures { self.new ≡ record self.old { calls = map (resume_if_parked on) self.old.calls; execution = least_parked_call on self.old.execution 0 self.old.calls } }
    {
        let awaited = &mut self.awaited[usize::from(on)];
        if *awaited {
            *awaited = calls::resume_parked(&mut self.calls, on, &mut self.execution);
        }
    }

    /// Gives a worker a task without answers and keys.
    pub(crate) fn begin(&mut self, worker: usize, task_kind: TaskKind)
        requires within { worker < length self.old.tasks }
        requires no_keys { HasNoKeys task_kind }
        ensures state { (v : Versions) (p : ℕ) → state_of v p self.new ≡ with_task worker (task_with task_kind [] []) (state_of v p self.old) }
        ensures rooms { KeepsRooms worker self.old.rooms self.new.rooms }
    {
        self.workers[worker].begin(task_kind);
    }

    /// Gives a worker the keys of a call's last run to move, and drops its answers. `before` is the run that the
    /// call had before.
    pub(crate) fn begin_moving(
        &mut self,
        worker: usize,
        call: u16,
        new_key: bool,
        before: &Option<Recorded>,
    )
        requires within { (worker < length self.old.tasks) × (call < length self.old.calls) }
        requires run { IsSome (get_or self.old.calls call fresh).last }
        requires room { length (written_by (get_or self.old.calls call fresh).last) + length (written_by before.now) ≤ self.old.key_room }
        ensures state { ForSome (get_or self.old.calls call fresh).last (λ run. (v : Versions) (p : ℕ) → state_of v p self.new ≡ with_task worker (Task.Moving call (keys_to_move before.now run.receipt.writes) new_key) (state_of v p self.old)) }
        ensures rooms { KeepsRooms worker self.old.rooms self.new.rooms }
    {
        let Some(run) = &self.calls[usize::from(call)].last else {
            unreachable!();
        };
        self.workers[worker].begin_moving(call, new_key, &run.receipt.writes, before);
    }

    /// Drops the next key of a worker.
    pub(crate) fn drop_next_key(&mut self, worker: usize)
        requires within { worker < length self.old.tasks }
        requires left { HasKeyLeft (get_or self.old.tasks worker Task.Idle) }
        ensures moving { (i : ℕ) (key : List ℕ) (keys : List (List ℕ)) (new : Bool) → get_or self.old.tasks worker Task.Idle ≡ Task.Moving i (key ∷ keys) new → (v : Versions) (p : ℕ) → state_of v p self.new ≡ with_task worker (Task.Moving i keys new) (state_of v p self.old) }
        ensures marking { (i : ℕ) (key : List ℕ) (keys : List (List ℕ)) → get_or self.old.tasks worker Task.Idle ≡ Task.Marking i (key ∷ keys) → (v : Versions) (p : ℕ) → state_of v p self.new ≡ with_task worker (Task.Marking i keys) (state_of v p self.old) }
        ensures rooms { KeepsRooms worker self.old.rooms self.new.rooms }
    {
        self.workers[worker].drop_key();
    }

    /// Ends a worker's moving of a call's keys: the call is EXECUTED, and the worker has no task.
    pub(crate) fn end_moving(&mut self, worker: usize, call: u16)
        requires within { (worker < length self.old.tasks) × (call < length self.old.calls) }
        ensures state { (v : Versions) (p : ℕ) → state_of v p self.new ≡ with_task worker Task.Idle (with_call call (record (get_or self.old.calls call fresh) { status = Status.Executed }) (state_of v p self.old)) }
        ensures rooms { KeepsRooms worker self.old.rooms self.new.rooms }
    {
        self.calls[usize::from(call)].status = Status::Executed;
        self.workers[worker].begin(TaskKind::Idle);
    }

    /// Takes an EXECUTED call back: it is ABORTING, and a worker gets the keys that the call's run wrote, to
    /// mark them.
    pub(crate) fn begin_abort(&mut self, worker: usize, call: u16)
        requires within { (worker < length self.old.tasks) × (call < length self.old.calls) }
        requires executed { (get_or self.old.calls call fresh).status ≡ Status.Executed }
        ensures state { (v : Versions) (p : ℕ) → state_of v p self.new ≡ with_task worker (Task.Marking call (keys_of (written_by (get_or self.old.calls call fresh).last))) (with_call call (record (get_or self.old.calls call fresh) { status = Status.Aborting }) (state_of v p self.old)) }
        ensures rooms { KeepsRooms worker self.old.rooms self.new.rooms }
    {
        let aborted = &mut self.calls[usize::from(call)];
        aborted.status = Status::Aborting;
        self.workers[worker].begin_marking(call, &aborted.last);
    }

    /// Adds an answer to those of a worker's run, without counting a step. Takes no memory.
    fn push(&mut self, worker: usize, answer: StorageAnswer)
        requires within { worker < length self.old.tasks }
        requires room { 1 ≤ get_or self.old.rooms worker 0 }
        ensures state { (v : Versions) (p : ℕ) → state_of v p self.new ≡ with_task worker (with_answer answer (get_or self.old.tasks worker Task.Idle)) (state_of v p self.old) }
        ensures rooms { KeepsRooms worker self.old.rooms self.new.rooms }
    {
        self.workers[worker].push(answer);
    }

    /// Blocks a worker's run on a call.
    fn set_blocked(&mut self, worker: usize, on: u16)
        requires { worker < length self.old.tasks }
        ensures state { (v : Versions) (p : ℕ) → state_of v p self.new ≡ with_task worker (blocked_on on (get_or self.old.tasks worker Task.Idle)) (state_of v p self.old) }
        ensures rooms { KeepsRooms worker self.old.rooms self.new.rooms }
    {
        self.workers[worker].block(on);
    }

    /// Fails a worker's validation, since a read did not stand.
    pub(crate) fn fail_check(&mut self, worker: usize)
        requires { worker < length self.old.tasks }
        ensures state { (v : Versions) (p : ℕ) → state_of v p self.new ≡ with_task worker (failed_check (get_or self.old.tasks worker Task.Idle)) (state_of v p self.old) }
        ensures rooms { KeepsRooms worker self.old.rooms self.new.rooms }
    {
        self.workers[worker].fail_check();
    }

    /// Counts one more asking of a worker that was answered Done.
    pub(crate) fn count_done(&mut self, worker: usize)
        requires within { worker < length self.old.tasks }
        requires below { get_or self.old.dones worker 0 < COUNT_LIMIT }
        ensures { self.new ≡ record self.old { dones = set self.old.dones worker (get_or self.old.dones worker 0 + 1) } }
    {
        self.workers[worker].count_done();
    }

    /// Sets what a worker did.
    pub(crate) fn put_counts(&mut self, worker: usize, counts: Counts)
        requires { worker < length self.old.tasks }
        ensures { self.new ≡ record self.old { counts = set self.old.counts worker counts } }
    {
        self.workers[worker].set_counts(counts);
    }
}
