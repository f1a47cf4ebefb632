//! The state of a job's run, and its steps.

ghost use Rattle.std.specs.Prelude.{◌≡◌};
ghost use Rattle.stm_state.specs.declared.state.Task.{Task};
ghost use Rattle.scheduler.specs.Workers.{IsTaskKindOf};
ghost use Rattle.stm_core.specs.CoreState.{ask_result_of};

use crate::fault::{IncarnationLimit, RecordFault, Refused};
use crate::job_source::JobSource;
use crate::next_step::{AskResult, NextStep, StepKind};
use crate::outcome::{Finished, finished_of, receipt_at};
use crate::owed_step::{check_of, next_step_of};
use crate::read_room::ReadRoom;
use crate::reads::{next_passed, next_stands};
use crate::ready_record::{ReadyRecord, reads_made};
use crate::recording::{SpentRun, check_limits, has_own_answers, is_call_at, record_run};
use crate::versions::{mark_key, move_key};
use mvmap::MvMap;
use rv_ledger::{Counts, Job, Receipt};
use rv_step::EndedRun;
use scheduler::{INCARNATION_LIMIT, Scheduler, TaskKind};
use std::alloc::{AllocError, Global};
use std::marker::Model;
use version_arena::Arena;

/// The state of the speculative run of a job on 1 to 32 workers. Some list of worker steps always leads
/// to it from the job's start, so the scheduler's invariant holds.
#[derive(Drop)]
pub struct Core<H: JobSource = Job> {
    // What changes with each step comes first, side by side: a thread that takes the lock finds it in another processor's
    // cache, line by line.
    pub(crate) scheduler: Scheduler,
    /// The number of records that are promised to runs whose keys are being moved.
    promised: usize,
    pub(crate) map: MvMap,
    pub(crate) read_room: ReadRoom,
    pub(crate) job: H,
}

impl<H: JobSource> Model for Core<H> {
    ghost use Rattle.std.specs.Prelude.{length};
    ghost use Rattle.std.specs.Coded.{codes};
    ghost use Rattle.std.specs.FinMap as finite;
    ghost use Rattle.mvmap.specs.Versions.{coded_entry, coded_place, place_cmp};
    ghost use Rattle.rv_ledger.specs.contracts.job.Job.{the_row as job_row};
    ghost use Rattle.stm_state.specs.contracts.state.CallState.{the_row as call_row};
    ghost use Rattle.stm_state.specs.contracts.state.Task.{the_row as task_row};
    ghost use Rattle.stm_core.specs.CoreState.{CoreState};
    ghost use Rattle.stm_core.specs.Inner.{IsReached, core_state_of};

    ghost Value = { CoreState };

    ghost coded = { Prim.hlevel (codes, job_row.coded, call_row.coded, task_row.coded, finite.code {R = place_cmp} coded_place coded_entry) };

    ghost view = { λ c. core_state_of (H.job c.job) c.map c.promised c.scheduler c.read_room };

    ghost invariant = { λ c. IsReached (H.job c.job) c.map c.promised c.scheduler };
}

impl<H: JobSource> Core<H> {
    ghost use Rattle.std.specs.Option.{option_copied};
    ghost use Rattle.std.specs.Prelude.{◌≡◌, ◌≢◌, ◌<◌, ◌≤◌, ◌↔◌, ℕ, Some, true, length, get_or, slice_get, [], IfOk, IfErr, OnOk, OnErr, Ok};
    ghost use Rattle.version_arena.specs.ArenaState.{emptied};
    ghost use Rattle.rv_step.specs.Fold.{receipts_of, store_after};
    ghost use Rattle.rv_step.specs.declared.ended_run.EndedRun.{EndedRun};
    ghost use Rattle.stm_state.specs.State.{call_at, is_done, no_counts, start_state, task_at};
    ghost use Rattle.stm_state.specs.Steps as steps;
    ghost use Rattle.stm_state.specs.Done.{Reached};
    ghost use Rattle.stm_state.specs.Parts.{CallsAreAttended, IsStateSized, OthersHaveEstimates, ReadsAreWatched, RunsAreBorneOut};
    ghost use Rattle.stm_core.specs.declared.fault.RecordFault.TheVariants as fault;
    ghost use Rattle.stm_core.specs.CoreState.{IsDue, IsOwn, IsReadyOf, IsRefused, IsTaken, IsWithin, Makes, ask_result_of, block_in, next_step_of, runs, step_of};
    ghost use Rattle.stm_core.specs.Passed.{passed_by_check};

    /// The state at the start of a job, from any source, over an arena that is used again: its records are dropped. If
    /// memory ran out, the arena is returned without records.
    pub fn of(alloc: Global, arena: Arena, job: H, workers: usize) -> Result<Core<H>, Arena>
        requires { (1 ≤ workers) × (workers ≤ 32) }
        ensures job { IfOk result (λ c. c.job ≡ H.job job) }
        ensures state { IfOk result (λ c. c.state ≡ start_state (length (H.job job).block) workers) }
        ensures back { IfErr result (λ a. a ≡ emptied arena) }
    {
        let map = MvMap::over(alloc, arena);
        match Scheduler::new(alloc, job.calls().len(), workers) {
            Ok(scheduler) => Ok(Core {
                job,
                map,
                scheduler,
                promised: 0,
                read_room: ReadRoom::new(alloc),
            }),
            Err(AllocError) => Err(map.into_arena()),
        }
    }

    /// Whether both indices are past the last call and no worker has a task.
    pub fn done(&self) -> bool
        ensures { result ≡ is_done self.now.state }
    {
        self.scheduler.done()
    }

    /// For a caller's proof: some list of worker steps leads to the state, its numbers of calls and workers
    /// are those of the start, and the four parts of the scheduler's invariant hold. Does nothing when it
    /// runs.
    pub fn holds(&self)
        ensures reached { Reached (block_in self.now) (length self.now.state.tasks) self.now.state }
        ensures sized { IsStateSized (length self.now.job.block) (length self.now.state.tasks) self.now.state }
        ensures attended { CallsAreAttended (block_in self.now) self.now.state }
        ensures estimates { OthersHaveEstimates (block_in self.now) self.now.state }
        ensures watched { ReadsAreWatched (block_in self.now) self.now.state }
        ensures borne_out { RunsAreBorneOut (block_in self.now) self.now.state }
    {
        let _ = &self.scheduler;
    }

    /// What a worker did.
    pub fn counts(&self, worker: usize) -> Counts
        requires { worker < length self.now.state.tasks }
        ensures { result ≡ get_or self.now.state.counts worker no_counts }
    {
        self.scheduler.counts(worker)
    }

    /// The number of workers.
    pub fn workers(&self) -> usize
        ensures { result ≡ length self.now.state.tasks }
    {
        self.scheduler.workers()
    }

    /// How often a worker's `ask` was answered Done.
    pub fn dones(&self, worker: usize) -> u64
        requires { worker < length self.now.state.tasks }
        ensures { result ≡ get_or self.now.state.dones worker 0 }
    {
        self.scheduler.dones(worker)
    }

    /// How many versions were passed by the read that a worker checks next; 0 if its next step is no check. Takes no memory.
    #[inline(always)]
    pub fn passed_by_check(&self, worker: usize) -> usize
        requires { worker < length self.now.state.tasks }
        ensures { result ≡ passed_by_check self.now.state (task_at self.now.state worker) }
    {
        match check_of(self.scheduler.task_kind(worker)) {
            Some((call, left)) => next_passed(&self.scheduler.call(call).last, left),
            None => 0,
        }
    }

    /// What holds the job.
    pub fn source(&self) -> &H
        ensures { H.job result.now ≡ self.now.job }
    {
        &self.job
    }

    /// The step that a worker owes.
    pub fn doing(&self, worker: usize) -> NextStep
        requires { worker < length self.now.state.tasks }
        ensures doing { result ≡ next_step_of self.now.state (task_at self.now.state worker) }
        ensures within { IsWithin (length self.now.job.block) result }
    {
        next_step_of(&self.scheduler, worker)
    }

    /// A worker without a task asks for work. Takes no memory.
    pub fn ask(&mut self, worker: usize) -> AskResult
        requires { IsDue worker steps.Ask self.old }
        ensures makes { Makes worker steps.Ask self.old self.new }
        ensures answer { result ≡ ask_result_of (is_done self.old.state) (task_at self.new.state worker) }
    {
        let done = self.scheduler.done();
        self.scheduler.ask(worker);
        ask_result(done, self.scheduler.task_kind(worker))
    }

    /// A worker makes a step of its task that takes nothing else: `park`, `move_key`, `finish_execution`,
    /// `check_read`, `decide`, `mark_estimate` or `finish_abort`. Refused as `park` is, and then nothing
    /// changes. Takes no memory.
    pub fn make(&mut self, worker: usize, kind: StepKind) -> Result<(), IncarnationLimit>
        requires { IsDue worker (step_of kind) self.old }
        ensures makes { OnOk result (Makes worker (step_of kind) self.old self.new) }
        ensures refused { OnErr result (IsRefused worker (step_of kind) steps.IncarnationLimit self.old × (self.new ≡ self.old)) }
    {
        match kind {
            StepKind::Park => return self.park(worker),
            StepKind::MoveKey => self.move_key(worker),
            StepKind::FinishExecution => self.finish_execution(worker),
            StepKind::CheckRead => self.check_read(worker),
            StepKind::Decide => self.decide(worker),
            StepKind::MarkEstimate => self.mark_estimate(worker),
            StepKind::FinishAbort => self.finish_abort(worker),
        }
        Ok(())
    }

    /// A worker's run that met an estimate is parked. If the call that it waits for is EXECUTED by now, the run starts
    /// again instead. Refused at incarnation 65,535, and then nothing changes. Takes no memory.
    pub fn park(&mut self, worker: usize) -> Result<(), IncarnationLimit>
        requires { IsDue worker steps.Park self.old }
        ensures makes { OnOk result (Makes worker steps.Park self.old self.new) }
        ensures refused { OnErr result (IsRefused worker steps.Park steps.IncarnationLimit self.old × (self.new ≡ self.old)) }
    {
        let TaskKind::Running {
            call,
            blocked: Some(on),
        } = self.scheduler.task_kind(worker)
        else {
            unreachable!();
        };
        if self.scheduler.call(call).incarnation == INCARNATION_LIMIT {
            return Err(IncarnationLimit);
        }
        self.scheduler.add_dependency(worker, call, on);
        Ok(())
    }

    /// A worker hands in its ended run, and next moves its keys. Refused as Foreign exactly if the run's call is not the
    /// job's call at that index or its answers are not those that were given. Otherwise refused as ArenaFull,
    /// IncarnationLimit or Memory, tested in this order. A refusal returns the run and changes nothing. What the record
    /// leaves over is returned, so that it can be dropped after a lock.
    pub fn record(
        &mut self,
        alloc: Global,
        worker: usize,
        run: EndedRun,
    ) -> Result<SpentRun, Refused>
        requires { IsDue worker steps.Record self.old }
        ensures makes { OnOk result (Makes worker steps.Record self.old self.new) }
        ensures own { (IfErr result (λ e. e.fault ≢ fault.Foreign)) ↔ IsOwn worker run self.old }
        ensures full { IfErr result (λ e. e.fault ≡ fault.ArenaFull → IsRefused worker steps.Record steps.ArenaFull self.old) }
        ensures limit { IfErr result (λ e. e.fault ≡ fault.IncarnationLimit → IsRefused worker steps.Record steps.IncarnationLimit self.old) }
        ensures memory { IfErr result (λ e. e.fault ≡ fault.Memory → IsTaken worker steps.Record self.old) }
        ensures back { IfErr result (λ e. (e.run ≡ run) × (self.new ≡ self.old)) }
    {
        let TaskKind::Running { call, .. } = self.scheduler.task_kind(worker) else {
            unreachable!();
        };
        if !is_call_at(self.job.calls(), call, &run.call)
            || !has_own_answers(&self.scheduler, worker, &run.answers)
        {
            return Err(Refused {
                fault: RecordFault::Foreign,
                run,
            });
        }
        let incarnation = self.scheduler.call(call).incarnation;
        let writes = &run.receipt.writes;
        if let Err(fault) = check_limits(&self.map, self.promised, incarnation, writes) {
            return Err(Refused { fault, run });
        }
        let Ok(reads) = reads_made(alloc, &run) else {
            return Err(Refused {
                fault: RecordFault::Memory,
                run,
            });
        };
        let mut ready = ReadyRecord::of(run, reads);
        match self.record_ready(worker, &mut ready) {
            Ok(()) => Ok(SpentRun { left: ready }),
            Err(fault) => Err(Refused {
                fault,
                run: ready.into_run(),
            }),
        }
    }

    /// Like `record`, for a run that is ready to be recorded and is known to be a run of the job's call at that index.
    /// Refused as `record` is, but the calls are not compared; then the run is still ready. Otherwise `ready` gets the
    /// run of the call that was kept before.
    pub fn record_ready(
        &mut self,
        worker: usize,
        ready: &mut ReadyRecord,
    ) -> Result<(), RecordFault>
        requires due { IsDue worker steps.Record self.old }
        requires ready { (run : EndedRun) × IsReadyOf run ready.old }
        requires call { (i : ℕ) → runs (task_at self.old.state worker) i ≡ true → slice_get self.old.job.block i ≡ Some ready.old.call }
        ensures makes { OnOk result (Makes worker steps.Record self.old self.new) }
        ensures own { (run : EndedRun) → IsReadyOf run ready.old → (IfErr result (λ e. e ≢ fault.Foreign)) ↔ IsOwn worker run self.old }
        ensures full { IfErr result (λ e. e ≡ fault.ArenaFull → IsRefused worker steps.Record steps.ArenaFull self.old) }
        ensures limit { IfErr result (λ e. e ≡ fault.IncarnationLimit → IsRefused worker steps.Record steps.IncarnationLimit self.old) }
        ensures memory { IfErr result (λ e. e ≡ fault.Memory → IsTaken worker steps.Record self.old) }
        ensures back { OnErr result (self.new ≡ self.old) }
        ensures kept { (run : EndedRun) → IsReadyOf run ready.old → OnErr result (IsReadyOf run ready.new) }
        ensures before { OnOk result ((i : ℕ) → runs (task_at self.old.state worker) i ≡ true → ready.new.recorded ≡ (call_at self.old.state i).last) }
    {
        let TaskKind::Running { call, .. } = self.scheduler.task_kind(worker) else {
            unreachable!();
        };
        if !has_own_answers(&self.scheduler, worker, &ready.answers) {
            return Err(RecordFault::Foreign);
        }
        record_run(
            &mut self.map,
            &mut self.promised,
            &mut self.scheduler,
            worker,
            call,
            ready,
        )
    }

    /// Like `record_ready`, for a run of any call. It is refused as Foreign, too, if its call is not the job's call at that
    /// index.
    pub fn record_checked(
        &mut self,
        worker: usize,
        ready: &mut ReadyRecord,
    ) -> Result<(), RecordFault>
        requires due { IsDue worker steps.Record self.old }
        requires ready { (run : EndedRun) × IsReadyOf run ready.old }
        ensures makes { OnOk result (Makes worker steps.Record self.old self.new) }
        ensures own { (run : EndedRun) → IsReadyOf run ready.old → (IfErr result (λ e. e ≢ fault.Foreign)) ↔ IsOwn worker run self.old }
        ensures full { IfErr result (λ e. e ≡ fault.ArenaFull → IsRefused worker steps.Record steps.ArenaFull self.old) }
        ensures limit { IfErr result (λ e. e ≡ fault.IncarnationLimit → IsRefused worker steps.Record steps.IncarnationLimit self.old) }
        ensures memory { IfErr result (λ e. e ≡ fault.Memory → IsTaken worker steps.Record self.old) }
        ensures back { OnErr result (self.new ≡ self.old) }
        ensures kept { (run : EndedRun) → IsReadyOf run ready.old → OnErr result (IsReadyOf run ready.new) }
    {
        let TaskKind::Running { call, .. } = self.scheduler.task_kind(worker) else {
            unreachable!();
        };
        if !is_call_at(self.job.calls(), call, &ready.call) {
            return Err(RecordFault::Foreign);
        }
        self.record_ready(worker, ready)
    }

    /// A worker moves the next key of the run that it handed in. What the run wrote there is published. A
    /// key that only the call's earlier run wrote is withdrawn. Takes no memory.
    pub fn move_key(&mut self, worker: usize)
        requires { IsDue worker steps.MoveKey self.old }
        ensures { Makes worker steps.MoveKey self.old self.new }
    {
        let TaskKind::Moving { call, .. } = self.scheduler.task_kind(worker) else {
            unreachable!();
        };
        let Some(key) = self.scheduler.next_key(worker) else {
            unreachable!();
        };
        move_key(
            &mut self.map,
            &mut self.promised,
            key,
            call,
            self.scheduler.call(call),
        );
        self.scheduler.drop_key(worker);
    }

    /// The call whose keys a worker has moved becomes EXECUTED, and all calls that are parked on it are readied. If the
    /// validation index is past the call and the run wrote a new key, the index goes back to the call. If it is past the
    /// call and there is no new key, the worker validates the call next (Block-STM, `finish_execution`). Takes no memory.
    pub fn finish_execution(&mut self, worker: usize)
        requires { IsDue worker steps.FinishExecution self.old }
        ensures { Makes worker steps.FinishExecution self.old self.new }
    {
        let TaskKind::Moving { call, new_key } = self.scheduler.task_kind(worker) else {
            unreachable!();
        };
        self.scheduler.finish_execution(worker, call, new_key);
    }

    /// A worker checks the next read of the run that it validates. The check fails if the map now answers the read
    /// differently. If the call is no longer EXECUTED at that incarnation, the task ends (Block-STM, a read of
    /// `validate_read_set`). Takes no memory.
    pub fn check_read(&mut self, worker: usize)
        requires { IsDue worker steps.CheckRead self.old }
        ensures { Makes worker steps.CheckRead self.old self.new }
    {
        let TaskKind::Validating {
            call,
            incarnation,
            left,
            ..
        } = self.scheduler.task_kind(worker)
        else {
            unreachable!();
        };
        let stands = next_stands(&self.map, call, &self.scheduler.call(call).last, left);
        self.scheduler
            .finish_validation(worker, call, incarnation, left - 1, stands);
    }

    /// A worker decides the validation whose reads it has checked. If a read did not stand and the call is still EXECUTED
    /// at that incarnation, the call becomes ABORTING, and the worker next marks the keys that the call wrote (Block-STM,
    /// `try_validation_abort`). Otherwise the task ends. Takes no memory.
    pub fn decide(&mut self, worker: usize)
        requires { IsDue worker steps.Decide self.old }
        ensures { Makes worker steps.Decide self.old self.new }
    {
        let TaskKind::Validating {
            call,
            incarnation,
            failed,
            ..
        } = self.scheduler.task_kind(worker)
        else {
            unreachable!();
        };
        self.scheduler.try_abort(worker, call, incarnation, failed);
    }

    /// A worker marks the next key of the call that it aborts: the version there becomes an estimate
    /// (Block-STM, a write of `convert_writes_to_estimates`). Takes no memory.
    pub fn mark_estimate(&mut self, worker: usize)
        requires { IsDue worker steps.MarkEstimate self.old }
        ensures { Makes worker steps.MarkEstimate self.old self.new }
    {
        let TaskKind::Marking { call } = self.scheduler.task_kind(worker) else {
            unreachable!();
        };
        let Some(key) = self.scheduler.next_key(worker) else {
            unreachable!();
        };
        mark_key(&mut self.map, key, call);
        self.scheduler.drop_key(worker);
    }

    /// The call whose keys a worker has marked is readied, and the calls after it are validated again. If the execution
    /// index is past the call, the worker runs it next (Block-STM, `finish_validation`). Takes no memory.
    pub fn finish_abort(&mut self, worker: usize)
        requires { IsDue worker steps.FinishAbort self.old }
        ensures { Makes worker steps.FinishAbort self.old self.new }
    {
        let TaskKind::Marking { call } = self.scheduler.task_kind(worker) else {
            unreachable!();
        };
        self.scheduler.finish_abort(worker, call);
    }

    /// The receipt of the call at an index, once all is done; None past the last call. Takes no memory.
    pub fn receipt(&self, index: usize) -> Option<&Receipt>
        requires { is_done self.now.state ≡ true }
        ensures { option_copied result ≡ slice_get (receipts_of self.now.job.block self.now.job.store) index }
    {
        receipt_at(self.scheduler.calls(), index)
    }

    /// What the run of the job leaves beside the storage, once all is done, moved out; and the arena, without records.
    /// Refused if memory ran out.
    pub fn into_finished(self, alloc: Global) -> (Result<Finished, AllocError>, Arena)
        requires { is_done self.state ≡ true }
        ensures receipts { IfOk result.0 (λ f. f.receipts.items ≡ receipts_of self.job.block self.job.store) }
        ensures counts { IfOk result.0 (λ f. f.counts.items ≡ self.state.counts) }
        ensures arena { result.1.records ≡ [] }
    {
        let Core { map, scheduler, .. } = self;
        let finished = finished_of(alloc, scheduler);
        (finished, map.into_arena())
    }

    /// The arena, without records. Takes no memory.
    pub fn into_arena(self) -> Arena
        ensures { result.records ≡ [] }
    {
        let Core { map, .. } = self;
        map.into_arena()
    }
}

/// The answer to `ask`, by whether all was done before it and the task that the worker has now.
fn ask_result(done: bool, task: TaskKind) -> AskResult
    ensures { (t : Task) → IsTaskKindOf task t → result ≡ ask_result_of done t }
{
    match task {
        _ if done => AskResult::Done,
        TaskKind::Idle => AskResult::Nothing,
        TaskKind::Running { .. }
        | TaskKind::Moving { .. }
        | TaskKind::Validating { .. }
        | TaskKind::Marking { .. } => AskResult::Task,
    }
}
