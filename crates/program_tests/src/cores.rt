//! The steps of workers on a core, one at a time.

ghost use Rattle.std.specs.Prelude.{◌≤◌};

use crate::calls::job_of;
use crate::rows::ECHO;
use scheduler::COUNT_LIMIT;
use std::alloc::Global;
use std::process::Abort;
use std::test::Fail;
use stm_core::{AskResult, Core, NextStep};

/// Three calls of ECHO.
const THREE_CALLS: &str = "call 0 1000 -\ncall 0 1000 -\ncall 0 1000 -\n";

/// The answer to a worker without a task that asks for work; None if the worker owes another step.
fn asked(core: &mut Core, worker: usize) -> Option<AskResult> {
    if worker >= core.workers() || core.counts(worker).steps >= COUNT_LIMIT {
        return None;
    }
    match core.doing(worker) {
        NextStep::Ask => Some(core.ask(worker)),
        _ => None,
    }
}

/// A core of calls of ECHO, for some workers.
fn core_of(alloc: Global, calls: &str, workers: usize) -> Result<Core, Fail>
    requires { (1 ≤ workers) × (workers ≤ 32) }
{
    let job = job_of(alloc, &[ECHO], calls)?;
    Ok(Core::new(alloc, job, workers)?)
}

/// Whether worker 1 of two gets call 1 when it asks again: first it meets call 0, which is not run yet.
fn is_second_met(core: &mut Core) -> bool {
    let wanted = NextStep::Run {
        call: 1,
        incarnation: 0,
    };
    asked(core, 0) == Some(AskResult::Task)
        && asked(core, 1) == Some(AskResult::Nothing)
        && asked(core, 1) == Some(AskResult::Task)
        && 1 < core.workers()
        && core.doing(1) == wanted
}

/// The same for a core of three calls.
fn is_second_of_three_met(alloc: Global) -> Result<bool, Fail> {
    Ok(is_second_met(&mut core_of(alloc, THREE_CALLS, 2)?))
}

#[test]
fn a_worker_meets_a_call_that_is_not_run_yet(rt: HostRuntime) -> Result<(), Fail> {
    assert!(rt; is_second_of_three_met(rt.alloc())?);
    Ok(())
}

/// The answer to the worker of a block without calls.
fn asked_of_none(alloc: Global) -> Result<Option<AskResult>, Fail> {
    Ok(asked(&mut core_of(alloc, "", 1)?, 0))
}

#[test]
fn empty_block(rt: HostRuntime) -> Result<(), Fail> {
    assert!(rt; asked_of_none(rt.alloc())? == Some(AskResult::Done));
    Ok(())
}
