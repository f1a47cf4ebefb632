//! What is under the lock: a core, and the first fault that was written.

pub mod asked;
mod recording;
pub mod share;
pub mod written;

ghost use Rattle.std.specs.Prelude.{◌≡◌, ℕ, [], List, None, Option};
ghost use Rattle.std.specs.FinMap as finite;
ghost use Rattle.rv_ledger.specs.Key.{Storage};
ghost use Rattle.rv_ledger.specs.declared.job.Job.{Job};
ghost use Rattle.mvmap.specs.Reading.{Visible};
ghost use Rattle.stm_core.specs.CoreState.{read_result_of};
ghost use Rattle.stm_core.specs.Passed.{passed_by_seen};

use crate::fault::{OutsideFault, RunFault};
pub use asked::{AllDone, Asked};
use rv_ledger::{Job, Key, LentValue, StoredValue};
pub use share::Share;
use share::counts_are_spent;
use std::marker::{Brand, Model, PhantomData};
use stm_core::{AskResult, Core, JobSource, NextStep, ReadResult, StepKind, StoredJob};
pub(crate) use written::MetFault;
pub use written::WrittenFault;

/// A name of a job and of its limit of work, for contracts alone. Whoever starts the job's threads picks it.
pub trait JobName {
    ghost job: { Job };

    /// After this many steps, not counting asks, a worker is stopped, and after this many passed versions all are; None if none is.
    ghost work_limit: { Option ℕ };
}

impl JobName for Brand {
    ghost job = { record { block = []; store = finite.empty } };

    ghost work_limit = { None };
}

/// A core with the job that `J` names, and the first fault that was written beside it. A written ArenaFull or IncarnationLimit is
/// true of the core: some worker's due step is refused for this limit. A written StepLimit is true of it too: some worker has
/// made 2^64 - 1 steps, or as many steps, not counting asks, as the limit allows, or as many versions were passed. A written fault is
/// never BadCount.
#[derive(Drop)]
pub struct Book<J: JobName = Brand, H: JobSource = Job> {
    /// Unused bytes, so that the word of the lock has a line of the processor's cache to itself: threads that wait for the
    /// lock take that line away from the thread that has it.
    apart: [u64; 16],
    fault: Option<RunFault>,
    /// How many versions the steps of all workers passed.
    passed: u64,
    work_limit: Option<u64>,
    core: Core<H>,
    of: PhantomData<J>,
}

impl<J: JobName, H: JobSource> Model for Book<J, H> {
    ghost use Rattle.std.specs.Prelude.{◌≡◌};
    ghost use Rattle.std.specs.Coded.{codes};
    ghost use Rattle.std.specs.FinMap as finite;
    ghost use Rattle.mvmap.specs.Versions.{coded_entry, coded_place, place_cmp};
    ghost use Rattle.rv_ledger.specs.contracts.job.Job.{the_row as job_row};
    ghost use Rattle.stm_state.specs.contracts.state.CallState.{the_row as call_row};
    ghost use Rattle.stm_state.specs.contracts.state.Task.{the_row as task_row};
    ghost use Rattle.workers.specs.Book.{BookState, FaultFits, IsOnTheWay};

    ghost Value = { BookState };

    ghost coded = { Prim.hlevel (codes, job_row.coded, call_row.coded, task_row.coded, finite.code {R = place_cmp} coded_place coded_entry) };

    ghost view = { λ b. record { core = b.core; fault = b.fault; passed = b.passed; work_limit = b.work_limit } };

    ghost invariant = { λ b. FaultFits b.work_limit b.passed b.core b.fault × (b.core.job ≡ J.job) × IsOnTheWay b.passed b.core × (b.work_limit ≡ J.work_limit) };
}

impl<J: JobName, H: JobSource> Book<J, H> {
    ghost use Rattle.std.specs.Prelude.{◌≡◌, ◌<◌, ◌↔◌, ⊤, None, Some, false, true, length, get_or, slice_get, IfErr, IfOk, OnOk};
    ghost use Rattle.rv_ledger.specs.Lent.{lent_content};
    ghost use Rattle.mvmap.specs.Reading.{reading};
    ghost use Rattle.stm_state.specs.Done.{Reached};
    ghost use Rattle.stm_state.specs.Parts.{CallsAreAttended, IsStateSized, OthersHaveEstimates, ReadsAreWatched, RunsAreBorneOut};
    ghost use Rattle.stm_state.specs.Steps as steps;
    ghost use Rattle.scheduler.specs.Schedule.{count_limit};
    ghost use Rattle.stm_core.specs.CoreState.{HasReadRoom, IsOwn, IsTaken, IsWithin, block_in, step_of};
    ghost use Rattle.stm_core.specs.Passed.{passed_by_step};
    ghost use Rattle.stm_core.specs.declared.next_step.NextStep.TheVariants as next_step;
    ghost use Rattle.workers.specs.Book.{AgreesWith, AreAllPassed, FaultFits, IsAsked, IsAskWithin, IsCause, IsMade, IsMakeCall, IsOnTheWay, IsReadCall, IsSpent, IsUnready, LeavesWritten, MayCountStep, MayWrite, Owes, first_fault, limit_before, outside_fault, passed_with};

    /// A core, and no fault. No worker is stopped before it has made 2^64 - 1 steps.
    pub fn new(core: Core<H>) -> Book<J, H>
        requires job { core.job ≡ J.job }
        requires limit { J.work_limit ≡ None }
        ensures { result ≡ record { core = core; fault = None; passed = 0; work_limit = None } }
    {
        Book::within(core, None)
    }

    /// A core, and no fault, with the limit of work that `J` names.
    pub(crate) fn within(core: Core<H>, work_limit: Option<u64>) -> Book<J, H>
        requires job { core.job ≡ J.job }
        requires limit { work_limit ≡ J.work_limit }
        ensures { result ≡ record { core = core; fault = None; passed = 0; work_limit = work_limit } }
    {
        core.holds();
        Book {
            apart: [0; 16],
            fault: None,
            passed: 0,
            work_limit,
            core,
            of: PhantomData,
        }
    }

    /// The core.
    pub(crate) fn core(&self) -> &Core<H>
        ensures { result.now ≡ self.now.core }
    {
        &self.core
    }

    /// The first fault that was written, if any.
    pub fn fault(&self) -> Option<RunFault>
        ensures { result ≡ self.now.fault }
    {
        self.fault
    }

    /// For a caller's proof: the core has the job that `J` names, some list of worker steps leads to its state,
    /// its numbers of calls and workers are those of the start, the four parts of the scheduler's invariant
    /// hold, the written fault is true of the core, and the limit is the one that `J` names. Does nothing when it runs.
    pub fn holds(&self)
        ensures job { self.now.core.job ≡ J.job }
        ensures limit { self.now.work_limit ≡ J.work_limit }
        ensures reached { Reached (block_in self.now.core) (length self.now.core.state.tasks) self.now.core.state }
        ensures sized { IsStateSized (length self.now.core.job.block) (length self.now.core.state.tasks) self.now.core.state }
        ensures attended { CallsAreAttended (block_in self.now.core) self.now.core.state }
        ensures estimates { OthersHaveEstimates (block_in self.now.core) self.now.core.state }
        ensures watched { ReadsAreWatched (block_in self.now.core) self.now.core.state }
        ensures borne_out { RunsAreBorneOut (block_in self.now.core) self.now.core.state }
        ensures fits { FaultFits self.now.work_limit self.now.passed self.now.core self.now.fault }
        ensures way { IsOnTheWay self.now.passed self.now.core }
    {
        self.core.holds();
    }

    /// Writes a fault, unless one was written before. Returns the first one that was written.
    fn write(&mut self, fault: RunFault) -> WrittenFault
        requires { MayWrite fault self.old.work_limit self.old.passed self.old.core }
        ensures first { result ≡ first_fault self.old.fault fault }
        ensures written { self.new ≡ record self.old { fault = Some result } }
    {
        match self.fault {
            Some(first) => WrittenFault::of(first),
            None => {
                self.fault = Some(fault);
                WrittenFault::of(fault)
            }
        }
    }

    /// Writes a fault that was met outside the lock, unless one was written before. Returns it with the first one
    /// that was written.
    pub(crate) fn write_outside(&mut self, fault: OutsideFault) -> MetFault
        ensures met { result.met ≡ fault }
        ensures first { result.written ≡ first_fault self.old.fault (outside_fault fault) }
        ensures written { self.new ≡ record self.old { fault = Some result.written } }
    {
        match fault {
            OutsideFault::Memory => MetFault::of(fault, self.write(RunFault::Memory)),
            OutsideFault::Spawn => MetFault::of(fault, self.write(RunFault::Spawn)),
        }
    }

    /// The core, without the fault.
    pub(crate) fn into_core(self) -> Core<H>
        ensures { result ≡ self.core }
    {
        let Book { core, .. } = self;
        core
    }

    /// A worker without a task asks for work. The answer is that all is done, or the step that the worker owes now. If a fault
    /// was written before, the call is refused with it. Otherwise it is refused as Foreign if the worker owes another step or its
    /// share has other counts than the core, and as StepLimit if the worker has made 2^64 - 1 steps, or if there is a limit and as
    /// many versions were passed. A refusal is written, and core and share stay as they were. Takes no memory.
    #[tactic(auto, using(crate::proofs::Stays::stays, crate::proofs::Causes::unready_cause))]
    pub fn ask(&mut self, share: &mut Share) -> Result<Asked, WrittenFault>
        ensures made { OnOk result (IsMade next_step.Ask steps.Ask self.old self.new share.old share.new) }
        ensures asked { IfOk result (λ asked. IsAsked asked self.old.core self.new.core share.old share.new) }
        ensures within { IfOk result (λ asked. IsAskWithin (length J.job.block) asked) }
        ensures refused { IfErr result (λ e. LeavesWritten e self.old self.new share.old share.new) }
        ensures cause { IfErr result (λ e. IsCause next_step.Ask share.old ⊤ ⊥ steps.Ask self.old e) }
    {
        self.ready(share, NextStep::Ask)?;
        self.core.holds();
        stm_state::dones_grow_at_done();
        stm_state::done_stays();
        let answer = self.core.ask(share.worker);
        self.update(share, 0);
        Ok(match answer {
            AskResult::Done => Asked::Done(AllDone::of(&self.core)),
            AskResult::Nothing | AskResult::Task => Asked::Owes(self.core.doing(share.worker)),
        })
    }

    /// `read` for a caller that has looked up what the storage before the block has at the key, and lends it.
    #[tactic(auto, using(crate::proofs::Stays::stays, crate::proofs::Causes::unready_cause))]
    pub(crate) fn read_with_base(
        &mut self,
        share: &mut Share,
        call: u16,
        incarnation: u16,
        key: &Key,
        base: Option<LentValue>,
    ) -> Result<ReadResult, WrittenFault>
        requires { lent_content base ≡ finite.get J.job.store key.now }
        ensures { IsReadCall key.now call incarnation self.old self.new share.old share.new result }
    {
        self.ready(share, NextStep::Run { call, incarnation })?;
        stm_state::dones_grow_at_done();
        if self.core.room_for_read(share.worker).is_err() {
            return Err(self.write(RunFault::Memory));
        }
        let answer = self.core.read_sharing(share.worker, key, base);
        self.update(share, passed_by_answer(&answer));
        Ok(answer)
    }

    /// A worker makes a step of its task that takes nothing else, for a call at an incarnation. Returns the step that the worker
    /// owes now. Refused as `read` is for a step, and as IncarnationLimit if the core refuses the step. Takes no memory.
    #[tactic(auto, using(crate::proofs::Stays::stays, crate::proofs::Causes::unready_cause, crate::proofs::Askings::no_asking))]
    pub fn make_owed(
        &mut self,
        share: &mut Share,
        kind: StepKind,
        call: u16,
        incarnation: u16,
    ) -> Result<NextStep, WrittenFault>
        ensures call { IsMakeCall kind call incarnation self.old self.new share.old share.new result }
        ensures within { IfOk result (λ next. IsWithin (length J.job.block) next) }
    {
        self.ready(
            share,
            NextStep::Make {
                kind,
                call,
                incarnation,
            },
        )?;
        stm_state::dones_grow_at_done();
        let passed = self.passed_by(share.worker, kind);
        match self.core.make(share.worker, kind) {
            Ok(()) => {
                self.update(share, passed);
                Ok(self.core.doing(share.worker))
            }
            Err(_) => Err(self.write(RunFault::IncarnationLimit)),
        }
    }

    /// The run of a call at an incarnation met an estimate: it is parked, or starts again. Refused as `ask` is,
    /// and as IncarnationLimit at incarnation 65,535.
    pub fn park(
        &mut self,
        share: &mut Share,
        call: u16,
        incarnation: u16,
    ) -> Result<NextStep, WrittenFault>
        ensures { IsMakeCall StepKind.Park call incarnation self.old self.new share.old share.new result }
    {
        self.make_owed(share, StepKind::Park, call, incarnation)
    }

    /// A worker moves the next key of the run that it handed in.
    pub fn move_key(
        &mut self,
        share: &mut Share,
        call: u16,
        incarnation: u16,
    ) -> Result<NextStep, WrittenFault>
        ensures { IsMakeCall StepKind.MoveKey call incarnation self.old self.new share.old share.new result }
    {
        self.make_owed(share, StepKind::MoveKey, call, incarnation)
    }

    /// The call whose keys a worker has moved becomes EXECUTED.
    pub fn finish_execution(
        &mut self,
        share: &mut Share,
        call: u16,
        incarnation: u16,
    ) -> Result<NextStep, WrittenFault>
        ensures { IsMakeCall StepKind.FinishExecution call incarnation self.old self.new share.old share.new result }
    {
        self.make_owed(share, StepKind::FinishExecution, call, incarnation)
    }

    /// A worker checks the next read of the call that it validates at an incarnation.
    pub fn check_read(
        &mut self,
        share: &mut Share,
        call: u16,
        incarnation: u16,
    ) -> Result<NextStep, WrittenFault>
        ensures { IsMakeCall StepKind.CheckRead call incarnation self.old self.new share.old share.new result }
    {
        self.make_owed(share, StepKind::CheckRead, call, incarnation)
    }

    /// A worker decides its validation of a call at an incarnation.
    pub fn decide(
        &mut self,
        share: &mut Share,
        call: u16,
        incarnation: u16,
    ) -> Result<NextStep, WrittenFault>
        ensures { IsMakeCall StepKind.Decide call incarnation self.old self.new share.old share.new result }
    {
        self.make_owed(share, StepKind::Decide, call, incarnation)
    }

    /// A worker marks the next key of the call that it aborts: the version there becomes an estimate.
    pub fn mark_estimate(
        &mut self,
        share: &mut Share,
        call: u16,
        incarnation: u16,
    ) -> Result<NextStep, WrittenFault>
        ensures { IsMakeCall StepKind.MarkEstimate call incarnation self.old self.new share.old share.new result }
    {
        self.make_owed(share, StepKind::MarkEstimate, call, incarnation)
    }

    /// The call that a worker has aborted is readied.
    pub fn finish_abort(
        &mut self,
        share: &mut Share,
        call: u16,
        incarnation: u16,
    ) -> Result<NextStep, WrittenFault>
        ensures { IsMakeCall StepKind.FinishAbort call incarnation self.old self.new share.old share.new result }
    {
        self.make_owed(share, StepKind::FinishAbort, call, incarnation)
    }

    /// Checks that the share's worker may make a step now. Refused as the step calls are before their step; the fault is written.
    #[inline(always)]
    fn ready(&mut self, share: &Share, owed: NextStep) -> Result<(), WrittenFault>
        ensures ready { OnOk result (Owes owed share.now self.old.core × (self.old.fault ≡ None) × (share.now.counts.steps < count_limit) × (self.new ≡ self.old)) }
        ensures left { OnOk result (MayCountStep owed share.now self.old) }
        ensures refused { IfErr result (λ e. self.new ≡ record self.old { fault = Some e }) }
        ensures cause { IfErr result (λ e. IsUnready self.old.fault owed share.now self.old e) }
    {
        if let Some(fault) = self.fault {
            return Err(WrittenFault::of(fault));
        }
        if !self.is_owed(share, owed) {
            return Err(self.write(RunFault::Foreign));
        }
        if self.is_spent(share, owed) || self.are_all_passed() {
            return Err(self.write(RunFault::StepLimit));
        }
        Ok(())
    }

    /// Whether the share's worker has made as many steps as it may before this one. The limit does not count asks.
    #[inline(always)]
    fn is_spent(&self, share: &Share, owed: NextStep) -> bool
        ensures spent { (result ≡ true) ↔ IsSpent (limit_before owed self.now.work_limit) share.now.counts }
        ensures below { result ≡ false → share.now.counts.steps < count_limit }
    {
        let work_limit = match owed {
            NextStep::Ask => None,
            NextStep::Run { .. } | NextStep::Make { .. } => self.work_limit,
        };
        counts_are_spent(work_limit, share.counts)
    }

    /// Whether at least as many versions were passed as the limit, if there is one.
    #[inline(always)]
    fn are_all_passed(&self) -> bool
        ensures { (result ≡ true) ↔ AreAllPassed self.now.work_limit self.now.passed }
    {
        match self.work_limit {
            Some(limit) => self.passed >= limit,
            None => false,
        }
    }

    /// How many versions the next step of a worker passes, if it is of this kind.
    #[inline(always)]
    fn passed_by(&self, worker: usize, kind: StepKind) -> usize
        requires { worker < length self.now.core.state.tasks }
        ensures { result ≡ passed_by_step worker (step_of kind) self.now.core.state }
    {
        match kind {
            StepKind::CheckRead => self.core.passed_by_check(worker),
            _ => 0,
        }
    }

    /// Whether the share's worker owes a step, and the share agrees with the core on its counts.
    #[inline(always)]
    fn is_owed(&self, share: &Share, owed: NextStep) -> bool
        ensures { (result ≡ true) ↔ Owes owed share.now self.now.core }
    {
        self.agrees(share) && self.core.doing(share.worker) == owed
    }

    /// Whether a share is one of the core's workers, and agrees with the core on its counts.
    #[inline(always)]
    fn agrees(&self, share: &Share) -> bool
        ensures { (result ≡ true) ↔ AgreesWith share.now self.now.core }
    {
        share.worker < self.core.workers()
            && self.core.counts(share.worker) == share.counts
            && self.core.dones(share.worker) == share.dones
    }

    /// Copies the core's counts of a worker to its share, and counts the versions that its step passed.
    #[inline(always)]
    fn update(&mut self, share: &mut Share, passed: usize)
        requires worker { share.old.worker < length self.old.core.state.tasks }
        requires way { IsOnTheWay (passed_with self.old.passed passed) self.old.core }
        requires none { self.old.fault ≡ None }
        ensures agrees { AgreesWith share.new self.old.core }
        ensures worker { share.new.worker ≡ share.old.worker }
        ensures pass { share.new.pass ≡ share.old.pass }
        ensures counted { self.new ≡ record self.old { passed = passed_with self.old.passed passed } }
    {
        share.counts = self.core.counts(share.worker);
        share.dones = self.core.dones(share.worker);
        self.passed = self.passed.saturating_add(passed as u64);
    }
}

impl<J: JobName, H: StoredJob> Book<J, H> {
    ghost use Rattle.workers.specs.Book.{IsReadCall};

    /// The run of a call at an incarnation reads the key that it asks for. Refused as `ask` is, as StepLimit also if there is a
    /// limit and the worker has made as many steps, not counting asks; and as Memory if memory ran out.
    pub fn read(
        &mut self,
        share: &mut Share,
        call: u16,
        incarnation: u16,
        key: &Key,
    ) -> Result<ReadResult, WrittenFault>
        ensures { IsReadCall key.now call incarnation self.old self.new share.old share.new result }
    {
        let base = StoredValue::value_of(self.core.source().content(key));
        self.read_with_base(
            share,
            call,
            incarnation,
            key,
            base.as_ref().map(|base| base.lend()),
        )
    }
}

/// How many versions an answer to a read names.
#[inline(always)]
fn passed_by_answer(answer: &ReadResult) -> usize
    ensures { (base : Storage) (key : List ℕ) (seen : Visible) → answer.now ≡ read_result_of base key seen → result ≡ passed_by_seen seen }
{
    match answer {
        ReadResult::Given(_, origin) => origin.passed().len(),
        ReadResult::Blocked => 0,
    }
}
