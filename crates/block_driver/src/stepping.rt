//! A step call: what a worker makes of its block in one hold of the caller's lock.

ghost use Rattle.std.specs.Prelude.{◌≡◌, ◌<◌, IfErr, IfOk, OnOk, length};
ghost use Rattle.std.specs.FinMap as map;
ghost use Rattle.std.specs.Option.{option_copied};
ghost use Rattle.block_driver.specs.Owed.{IsRunBegun, IsReadBase, IsRunStep, IsStepped, IsWithinBlock, MayNotStep, OwesRunStep, run_steps, step_fault};
ghost use Rattle.block_driver.specs.Progress.{HasBaseOf};
ghost use Rattle.block_driver.specs.declared.progress.Progress.TheVariants as progress;

use crate::fault::StepFault;
use crate::hold::{Owed, make_steps};
use crate::progress::{AskingRun, Leftover, Progress, ReadyRun};
use crate::worker::Worker;
use rv_ledger::{Key, LentValue, StoredValue};
use scheduler::COUNT_LIMIT;
use std::alloc::AllocError;
use std::mem::replace;
use stm_core::{Core, JobSource, NextStep, ReadResult, RecordFault};

/// Makes at most `most` steps of a worker: the step that its run is at, if it has one, which is the read of the key that it was
/// answered or the record of its end, and then those of its block. It stops as soon as the worker owes a run, gets no task, or all
/// is done. A step that is refused ends it, and the steps before it stay made. Refused as Foreign if the worker is not one of the
/// block or its run is not that of its task, as ArenaFull, IncarnationLimit or StepLimit if a step meets that limit, or as Memory
/// if memory ran out.
pub fn step<H: JobSource>(
    core: &mut Core<H>,
    worker: &mut Worker,
    most: u32,
) -> Result<Owed, StepFault>
    requires { HasBaseOf core.old.job.store worker.old.progress }
    ensures number { worker.new.number ≡ worker.old.number }
    ensures stepped { IsStepped worker.old.number most worker.old.progress worker.new.progress core.old core.new result }
{
    if worker.number >= core.workers() {
        return Err(StepFault::Foreign);
    }
    let progress = replace(&mut worker.progress, Progress::Idle(Leftover::Nothing));
    let (progress, told) = step_on(core, worker.number, progress, most);
    worker.progress = progress;
    told
}

/// `step` for a worker of the block, by what it has. Returns what it has then.
fn step_on<H: JobSource>(
    core: &mut Core<H>,
    worker: usize,
    progress: Progress,
    most: u32,
) -> (Progress, Result<Owed, StepFault>)
    requires within { worker < length core.old.state.tasks }
    requires base { HasBaseOf core.old.job.store progress }
    ensures { IsStepped worker most progress result.0 core.old core.new result.1 }
{
    if most == 0 {
        return (progress, Ok(Owed::Again));
    }
    let left = most - run_steps(&progress);
    let (progress, made) = make_run_step(core, worker, progress);
    if let Err(fault) = made {
        return (progress, Err(fault));
    }
    let told = make_steps(core, worker, left);
    begin_run(core, progress, told)
}

/// How many steps of its run a worker makes at once.
fn run_steps(progress: &Progress) -> u32
    ensures { result ≡ run_steps progress.now }
{
    match progress {
        Progress::Answered(_, _) | Progress::Ready(_) => 1,
        _ => 0,
    }
}

/// Makes the step that a worker's run is at, if there is one. Returns what the worker has then.
fn make_run_step<H: JobSource>(
    core: &mut Core<H>,
    worker: usize,
    progress: Progress,
) -> (Progress, Result<(), StepFault>)
    requires within { worker < length core.old.state.tasks }
    requires base { HasBaseOf core.old.job.store progress }
    ensures { IsRunStep worker progress result.0 core.old core.new result.1 }
{
    match progress {
        Progress::Answered(asking, base) => read(core, worker, asking, base),
        Progress::Ready(ready) => hand_in(core, worker, ready),
        other => (other, Ok(())),
    }
}

/// The read of the key that a worker's run asks for. The storage before the block has `base` there.
fn read<H: JobSource>(
    core: &mut Core<H>,
    worker: usize,
    asking: AskingRun,
    base: Option<StoredValue>,
) -> (Progress, Result<(), StepFault>)
    requires within { worker < length core.old.state.tasks }
    requires base { base ≡ map.get core.old.job.store asking.key }
    ensures { IsRunStep worker (progress.Answered asking base) result.0 core.old core.new result.1 }
{
    match read_base(core, worker, &asking.key, base.as_ref()) {
        Ok(ReadResult::Given(value, origin)) => (Progress::Given(asking, value, origin), Ok(())),
        Ok(ReadResult::Blocked) => (give_up(asking), Ok(())),
        Err(fault) => (Progress::Answered(asking, base), Err(fault)),
    }
}

/// A run that met an estimate is given up.
fn give_up(asking: AskingRun) -> Progress
    ensures { run_steps result ≡ 0 }
{
    let AskingRun { run, .. } = asking;
    Progress::Idle(Leftover::Run(run))
}

/// The read of a key by a worker's run. The storage before the block has `base` there.
fn read_base<H: JobSource>(
    core: &mut Core<H>,
    worker: usize,
    key: &Key,
    base: Option<&StoredValue>,
) -> Result<ReadResult, StepFault>
    requires within { worker < length core.old.state.tasks }
    requires base { option_copied base ≡ map.get core.old.job.store key.now }
    ensures { IsReadBase worker core.old core.new result }
{
    if let Err(fault) = may_step(core, worker) {
        return Err(fault);
    }
    if core.room_for_read(worker).is_err() {
        return Err(StepFault::Memory);
    }
    Ok(core.read_sharing(worker, key, LentValue::of_stored(base)))
}

/// Checks that a worker owes a step of a run, and may count one. Refused as Foreign or StepLimit.
fn may_step<H: JobSource>(core: &Core<H>, worker: usize) -> Result<(), StepFault>
    requires { worker < length core.now.state.tasks }
    ensures owes { OnOk result (OwesRunStep worker core.now) }
    ensures cause { IfErr result (λ e. MayNotStep e worker core.now) }
{
    let NextStep::Run { .. } = core.doing(worker) else {
        return Err(StepFault::Foreign);
    };
    if core.counts(worker).steps == COUNT_LIMIT {
        return Err(StepFault::StepLimit);
    }
    Ok(())
}

/// The record of a worker's run.
fn hand_in<H: JobSource>(
    core: &mut Core<H>,
    worker: usize,
    ready: ReadyRun,
) -> (Progress, Result<(), StepFault>)
    requires { worker < length core.old.state.tasks }
    ensures { IsRunStep worker (progress.Ready ready) result.0 core.old core.new result.1 }
{
    if let Err(fault) = may_step(core, worker) {
        return (Progress::Ready(ready), Err(fault));
    }
    let ReadyRun { mut ready } = ready;
    match core.record_checked(worker, &mut ready) {
        Ok(()) => (Progress::Idle(Leftover::Record(ready)), Ok(())),
        Err(fault) => (Progress::Ready(ReadyRun { ready }), Err(step_fault(fault))),
    }
}

/// The fault of a record that was refused.
fn step_fault(fault: RecordFault) -> StepFault
    ensures { result ≡ step_fault fault }
{
    match fault {
        RecordFault::Foreign => StepFault::Foreign,
        RecordFault::ArenaFull => StepFault::ArenaFull,
        RecordFault::IncarnationLimit => StepFault::IncarnationLimit,
        RecordFault::Memory => StepFault::Memory,
    }
}

/// The call to run, if a worker owes a run and has none yet. Refused as Memory if memory ran out for a copy of the call.
fn begin_run<H: JobSource>(
    core: &Core<H>,
    progress: Progress,
    told: Result<Owed, StepFault>,
) -> (Progress, Result<Owed, StepFault>)
    requires within { IfOk told (λ owed. IsWithinBlock owed core.now) }
    requires steps { run_steps progress ≡ 0 }
    ensures { IsRunBegun progress result.0 told result.1 }
{
    let Ok(Owed::Run { call, .. }) = told else {
        return (progress, told);
    };
    let Progress::Idle(leftover) = progress else {
        return (progress, told);
    };
    match core.source().calls()[usize::from(call)].copy() {
        Ok(call) => (Progress::Start(call, leftover), told),
        Err(AllocError) => (Progress::Idle(leftover), Err(StepFault::Memory)),
    }
}
