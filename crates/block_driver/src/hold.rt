//! The steps that a worker makes in one hold of the lock.

ghost use Rattle.std.specs.Prelude.{◌<◌, length};
ghost use Rattle.block_driver.specs.Owed.{IsHeld, OwesAsk, OwesMake, IsOneHeld};

use crate::fault::StepFault;
use scheduler::COUNT_LIMIT;
use stm_core::{AskResult, Core, JobSource, NextStep, StepKind};

/// What a worker owes after its steps.
#[derive(Clone, Copy, Debug, PartialEq, Eq)]
pub enum Owed {
    /// The run of a call at an incarnation, without the lock.
    Run {
        /// The call's index.
        call: u16,
        /// The call's incarnation.
        incarnation: u16,
    },
    /// Nothing now; it may ask again.
    Nothing,
    /// Nothing, since all is done.
    Done,
    /// More steps: it has made as many as it may.
    Again,
}

/// Makes at most this many steps of a worker, until it owes a run, gets no task, or all is done. A step that meets a limit is
/// refused as IncarnationLimit or StepLimit; the steps before it stay made. Takes no memory.
pub fn make_steps<H: JobSource>(
    core: &mut Core<H>,
    worker: usize,
    most: u32,
) -> Result<Owed, StepFault>
    requires { worker < length core.old.state.tasks }
    ensures { IsHeld worker most core.old core.new result }
{
    for _ in 0..most {
        match make_one(core, worker) {
            Ok(None) => {}
            Ok(Some(owed)) => return Ok(owed),
            Err(fault) => return Err(fault),
        }
    }
    Ok(Owed::Again)
}

/// Makes the step that a worker owes, if it is no step of a run. Returns what ends the steps, if anything does.
fn make_one<H: JobSource>(core: &mut Core<H>, worker: usize) -> Result<Option<Owed>, StepFault>
    requires { worker < length core.old.state.tasks }
    ensures { IsOneHeld worker core.old core.new result }
{
    match core.doing(worker) {
        NextStep::Run { call, incarnation } => Ok(Some(Owed::Run { call, incarnation })),
        NextStep::Ask => ask(core, worker),
        NextStep::Make { kind, .. } => make(core, worker, kind),
    }
}

/// A worker without a task asks for work.
fn ask<H: JobSource>(core: &mut Core<H>, worker: usize) -> Result<Option<Owed>, StepFault>
    requires due { OwesAsk worker core.old }
    ensures { IsOneHeld worker core.old core.new result }
{
    if core.counts(worker).steps == COUNT_LIMIT {
        return Err(StepFault::StepLimit);
    }
    stm_state::done_stays();
    match core.ask(worker) {
        AskResult::Done => Ok(Some(Owed::Done)),
        AskResult::Nothing => Ok(Some(Owed::Nothing)),
        AskResult::Task => Ok(None),
    }
}

/// Makes a step of a worker's task that takes nothing else.
fn make<H: JobSource>(
    core: &mut Core<H>,
    worker: usize,
    kind: StepKind,
) -> Result<Option<Owed>, StepFault>
    requires due { OwesMake worker kind core.old }
    ensures { IsOneHeld worker core.old core.new result }
{
    if core.counts(worker).steps == COUNT_LIMIT {
        return Err(StepFault::StepLimit);
    }
    match core.make(worker, kind) {
        Ok(()) => Ok(None),
        Err(_) => Err(StepFault::IncarnationLimit),
    }
}
