//! A job's run along a list of worker numbers.

ghost use Rattle.std.specs.Prelude.{◌≡◌, ◌<◌, ◌≤◌, None, Ok, Some, [], length, get_or, replicate, IfErr, IfOk, OnOk};
ghost use Rattle.rv_step.specs.Fold.{receipts_of, store_after};
ghost use Rattle.rv_step.specs.Run.{IsEnded};
ghost use Rattle.rv_step.specs.declared.stage.Stage.TheVariants.{Asked};
ghost use Rattle.stm_state.specs.State.{State, no_counts, start_state, task_at};
ghost use Rattle.stm_state.specs.Steps.{IncarnationLimit, ReadKey, Record, worker_step};
ghost use Rattle.stm_state.specs.Drive.{drive_of, driven, due_result};
ghost use Rattle.stm_state.specs.declared.state.Task.TheVariants.{Running};
ghost use Rattle.stm_core.specs.CoreState.{IsDue, IsRefused, Makes, answers_of, block_in, step_of};
ghost use Rattle.stm_core.specs.Driving.{FitsTask, IsRefusal, IsStepRefusal};
ghost use Rattle.stm_core.specs.declared.driving.DriveFault.TheVariants.{Memory};

use crate::fault::RecordFault;
use crate::next_step::{NextStep, ReadResult, StepKind};
use crate::ready_record::{ReadyRecord, reads_made};
use crate::state::Core;
use rv_ledger::{Job, Key, Outcome, StoredValue};
use rv_step::{Pause, Run};
use scheduler::COUNT_LIMIT;
use std::alloc::{AllocError, AllocFailed, Global};
use std::fmt;
use thiserror::Error;

/// The greatest number of workers.
pub const WORKER_LIMIT: usize = 32;

/// Why a run along a list of worker numbers has no outcome.
#[derive(Clone, Copy, Debug, PartialEq, Eq, Error)]
pub enum DriveFault {
    /// The schedule ends before the workers are done.
    NotDone = 1,
    /// A number in the schedule is not below the number of workers, or that number is not 1 to 32.
    BadWorker = 2,
    /// The runs of calls, repeated ones included, would have more than 1,048,576 writes.
    ArenaFull = 3,
    /// A run at incarnation 65,535, the 65,536th of its call, would be parked or recorded.
    IncarnationLimit = 4,
    /// Memory ran out.
    Memory = 5,
}

impl DriveFault {
    ghost use Rattle.std.specs.Prelude.{◌≡◌};
    ghost use Rattle.stm_core.specs.Faults.{name_of, number_of};

    /// The number in what is printed, 1 to 5.
    pub fn number(self) -> u8
        ensures { result ≡ number_of self }
    {
        self as u8
    }

    /// The name in what is printed.
    pub fn name(self) -> &'static str
        ensures { result.now ≡ name_of self }
    {
        match self {
            DriveFault::NotDone => "NotDone",
            DriveFault::BadWorker => "BadWorker",
            DriveFault::ArenaFull => "ArenaFull",
            DriveFault::IncarnationLimit => "IncarnationLimit",
            DriveFault::Memory => "Memory",
        }
    }
}

impl fmt::Display for DriveFault {
    ghost use Rattle.std.specs.Prelude.{Some};
    ghost use Rattle.stm_core.specs.Faults.{fault_text};

    ghost output = { λ fault. Some (fault_text fault) };

    /// The name and the number.
    fn fmt<W: fmt::Write>(&self, f: &mut fmt::Formatter<W>) -> fmt::Result {
        write!(f, "{} {}", self.name(), self.number())
    }
}

impl From<AllocError> for DriveFault {
    ghost from_gives = { λ _ e. e ≡ Memory };

    fn from(_e: AllocError) -> DriveFault {
        DriveFault::Memory
    }
}

impl<T: Drop> From<AllocFailed<T>> for DriveFault {
    ghost from_gives = { λ _ e. e ≡ Memory };

    fn from(_e: AllocFailed<T>) -> DriveFault {
        DriveFault::Memory
    }
}

/// Runs a job on 1 to 32 workers along a list of worker numbers. Each entry makes the one step that this worker owes.
/// Refused as BadWorker if the number of workers is not 1 to 32; this is tested first. Otherwise the first entry that
/// fails decides: BadWorker if it is not a worker, ArenaFull or IncarnationLimit if its step meets that limit. Refused as
/// NotDone if the list is used up and workers are not done. Refused as Memory if memory runs out before any of these.
pub fn drive(
    alloc: Global,
    job: &Job,
    workers: usize,
    schedule: &[u16],
) -> Result<Outcome, DriveFault>
    ensures counts { IfOk result (λ o. (s : State) × (drive_of job.now.block job.now.store workers schedule.now ≡ Ok s) × (o.counts.items ≡ s.counts)) }
    ensures job { IfOk result (λ o. o.job ≡ job.now) }
    ensures receipts { IfOk result (λ o. o.receipts.items ≡ receipts_of job.now.block job.now.store) }
    ensures store { IfOk result (λ o. o.store ≡ store_after job.now.block job.now.store) }
    ensures refused { IfErr result (λ e. IsRefusal e (drive_of job.now.block job.now.store workers schedule.now)) }
    ensures memory { IfErr result (λ e. e ≡ Memory → (1 ≤ workers) × (workers ≤ 32)) }
{
    if workers == 0 || workers > WORKER_LIMIT {
        return Err(DriveFault::BadWorker);
    }
    match core_of(alloc, job, workers) {
        Ok(mut core) => drive_core(alloc, &mut core, workers, schedule),
        Err(AllocError) => Err(DriveFault::Memory),
    }
}

/// The state at the start of a copy of a job; refused if memory ran out.
fn core_of(alloc: Global, job: &Job, workers: usize) -> Result<Core, AllocError>
    requires { (1 ≤ workers) × (workers ≤ 32) }
    ensures job { IfOk result (λ c. c.job ≡ job.now) }
    ensures state { IfOk result (λ c. c.state ≡ start_state (length job.now.block) workers) }
{
    Core::new(alloc, job.copy()?, workers)
}

/// Runs a core that is at its start along a list of worker numbers; refused as `drive` is.
fn drive_core(
    alloc: Global,
    core: &mut Core,
    workers: usize,
    schedule: &[u16],
) -> Result<Outcome, DriveFault>
    requires workers { (1 ≤ workers) × (workers ≤ 32) }
    requires start { core.old.state ≡ start_state (length core.old.job.block) workers }
    ensures counts { IfOk result (λ o. (s : State) × (drive_of core.old.job.block core.old.job.store workers schedule.now ≡ Ok s) × (o.counts.items ≡ s.counts)) }
    ensures job { IfOk result (λ o. o.job ≡ core.old.job) }
    ensures receipts { IfOk result (λ o. o.receipts.items ≡ receipts_of core.old.job.block core.old.job.store) }
    ensures store { IfOk result (λ o. o.store ≡ store_after core.old.job.block core.old.job.store) }
    ensures refused { IfErr result (λ e. IsRefusal e (drive_of core.old.job.block core.old.job.store workers schedule.now)) }
{
    follow(alloc, core, workers, schedule)?;
    if !core.done() {
        return Err(DriveFault::NotDone);
    }
    Ok(core.outcome(alloc)?)
}

/// A list without a run under way, one entry per worker; refused if memory ran out.
fn no_runs(alloc: Global, workers: usize) -> Result<Vec<Option<Run>>, AllocError>
    ensures { IfOk result (λ v. v.items ≡ replicate workers None) }
{
    let mut runs = Vec::with_capacity(alloc, workers)?;
    for _ in 0..workers {
        runs.push(None)?;
    }
    Ok(runs)
}

/// Makes the steps of a list of worker numbers, from the start of the job, until one is refused.
fn follow(
    alloc: Global,
    core: &mut Core,
    workers: usize,
    schedule: &[u16],
) -> Result<(), DriveFault>
    requires start { core.old.state ≡ start_state (length core.old.job.block) workers }
    ensures job { OnOk result (core.new.job ≡ core.old.job) }
    ensures driven { OnOk result (driven core.old.job.block core.old.job.store workers schedule.now core.old.state ≡ driven core.old.job.block core.old.job.store workers [] core.new.state) }
    ensures refused { IfErr result (λ e. IsRefusal e (driven core.old.job.block core.old.job.store workers schedule.now core.old.state)) }
{
    let mut runs = no_runs(alloc, workers)?;
    step_along(alloc, core, &mut runs, workers, schedule)
}

/// Like `follow`; `runs` holds each worker's run under way.
fn step_along(
    alloc: Global,
    core: &mut Core,
    runs: &mut Vec<Option<Run>>,
    workers: usize,
    schedule: &[u16],
) -> Result<(), DriveFault>
    requires start { core.old.state ≡ start_state (length core.old.job.block) workers }
    requires runs { runs.old.items ≡ replicate workers None }
    ensures job { OnOk result (core.new.job ≡ core.old.job) }
    ensures driven { OnOk result (driven core.old.job.block core.old.job.store workers schedule.now core.old.state ≡ driven core.old.job.block core.old.job.store workers [] core.new.state) }
    ensures refused { IfErr result (λ e. IsRefusal e (driven core.old.job.block core.old.job.store workers schedule.now core.old.state)) }
{
    for entry in schedule {
        let worker = usize::from(*entry);
        if worker >= workers {
            return Err(DriveFault::BadWorker);
        }
        step(alloc, core, worker, &mut runs[worker])?;
    }
    Ok(())
}

/// Makes the step that a worker owes. `run` is its run under way.
fn step(
    alloc: Global,
    core: &mut Core,
    worker: usize,
    run: &mut Option<Run>,
) -> Result<(), DriveFault>
    requires worker { worker < length core.old.state.tasks }
    requires steps { (get_or core.old.state.counts worker no_counts).steps < COUNT_LIMIT }
    requires fits { FitsTask core.old.job.block run.old (task_at core.old.state worker) }
    ensures job { OnOk result (core.new.job ≡ core.old.job) }
    ensures due { OnOk result (due_result core.old.job.block core.old.job.store worker core.old.state ≡ Some (Ok core.new.state)) }
    ensures fits { OnOk result (FitsTask core.old.job.block run.new (task_at core.new.state worker)) }
    ensures refused { IfErr result (λ e. IsStepRefusal e (due_result core.old.job.block core.old.job.store worker core.old.state)) }
{
    match core.doing(worker) {
        NextStep::Ask => {
            let _ = core.ask(worker);
        }
        NextStep::Run { call, .. } => *run = continue_run(alloc, core, worker, call, run.take())?,
        NextStep::Make { kind, .. } => make(core, worker, kind)?,
    }
    Ok(())
}

/// Makes a step of a worker's task that takes nothing else; refused as `Core::make` is.
fn make(core: &mut Core, worker: usize, kind: StepKind) -> Result<(), DriveFault>
    requires { IsDue worker (step_of kind) core.old }
    ensures makes { OnOk result (Makes worker (step_of kind) core.old core.new) }
    ensures refused { IfErr result (λ e. (e ≡ DriveFault.IncarnationLimit) × IsRefused worker (step_of kind) IncarnationLimit core.old) }
{
    match core.make(worker, kind) {
        Ok(()) => Ok(()),
        Err(_) => Err(DriveFault::IncarnationLimit),
    }
}

/// Continues a worker's run to its next read or its end, and makes that step. Starts the run if none is under way.
/// Returns the run that is under way after the step.
fn continue_run(
    alloc: Global,
    core: &mut Core,
    worker: usize,
    call: u16,
    run: Option<Run>,
) -> Result<Option<Run>, DriveFault>
    requires worker { worker < length core.old.state.tasks }
    requires within { call < length core.old.job.block }
    requires steps { (get_or core.old.state.counts worker no_counts).steps < COUNT_LIMIT }
    requires running { task_at core.old.state worker ≡ Running call (answers_of (task_at core.old.state worker)) None }
    requires fits { FitsTask core.old.job.block run (task_at core.old.state worker) }
    ensures job { OnOk result (core.new.job ≡ core.old.job) }
    ensures due { OnOk result (due_result core.old.job.block core.old.job.store worker core.old.state ≡ Some (Ok core.new.state)) }
    ensures fits { IfOk result (λ next. FitsTask core.old.job.block next (task_at core.new.state worker)) }
    ensures refused { IfErr result (λ e. IsStepRefusal e (due_result core.old.job.block core.old.job.store worker core.old.state)) }
{
    let mut run = run_of(alloc, core, worker, call, run)?;
    match run.go()? {
        Pause::Ask(key) => read(core, worker, run, &key),
        Pause::Ended => {
            hand_in(alloc, core, worker, run)?;
            Ok(None)
        }
    }
}

/// A worker's run of its call: the one that is under way, otherwise a run before its first instruction.
fn run_of(
    alloc: Global,
    core: &Core,
    worker: usize,
    call: u16,
    run: Option<Run>,
) -> Result<Run, AllocError>
    requires within { call < length core.now.job.block }
    requires running { task_at core.now.state worker ≡ Running call (answers_of (task_at core.now.state worker)) None }
    requires fits { FitsTask core.now.job.block run (task_at core.now.state worker) }
    ensures { IfOk result (λ run. FitsTask core.now.job.block (Some run) (task_at core.now.state worker)) }
{
    match run {
        Some(run) => Ok(run),
        None => Run::start(alloc, &core.job().block.calls()[usize::from(call)]),
    }
}

/// Reads the key that a worker's run asks for. Returns the run with its answer, or None if it met an estimate. Refused if
/// memory ran out.
fn read(core: &mut Core, worker: usize, mut run: Run, key: &Key) -> Result<Option<Run>, DriveFault>
    requires due { IsDue worker (ReadKey key.now) core.old }
    requires asked { run.stage ≡ Asked key.now }
    requires fits { FitsTask core.old.job.block (Some run) (task_at core.old.state worker) }
    ensures makes { OnOk result (Makes worker (ReadKey key.now) core.old core.new) }
    ensures fits { IfOk result (λ next. FitsTask core.old.job.block next (task_at core.new.state worker)) }
    ensures memory { IfErr result (λ e. e ≡ Memory) }
{
    core.room_for_read(worker)?;
    let base = StoredValue::value_of(core.job().store.get(key));
    match core.read_sharing(worker, key, base.as_ref().map(|base| base.lend())) {
        ReadResult::Given(value, origin) => {
            run.answer_stored(value, origin)?;
            Ok(Some(run))
        }
        ReadResult::Blocked => Ok(None),
    }
}

/// Hands in a worker's ended run.
fn hand_in(alloc: Global, core: &mut Core, worker: usize, run: Run) -> Result<(), DriveFault>
    requires due { IsDue worker Record core.old }
    requires ended { IsEnded run.stage }
    requires fits { FitsTask core.old.job.block (Some run) (task_at core.old.state worker) }
    ensures makes { OnOk result (Makes worker Record core.old core.new) }
    ensures refused { IfErr result (λ e. IsStepRefusal e (worker_step (block_in core.old) worker Record core.old.state)) }
{
    let run = run.finish();
    let reads = reads_made(alloc, &run)?;
    let mut ready = ReadyRecord::of(run, reads);
    match core.record_ready(worker, &mut ready) {
        Ok(()) => Ok(()),
        Err(fault) => Err(match fault {
            RecordFault::ArenaFull => DriveFault::ArenaFull,
            RecordFault::IncarnationLimit => DriveFault::IncarnationLimit,
            RecordFault::Memory => DriveFault::Memory,
            RecordFault::Foreign => unreachable!(),
        }),
    }
}
