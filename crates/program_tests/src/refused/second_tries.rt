//! Calls for which `rvstm-developers growths` refuses one request for memory, and which are made once more then.

use crate::refused::exhausted::attempts::Way;
use crate::refused::exhausted::{assert_come_right, runs_counts, runs_echo};
use crate::refused::images::{COUNT, KEY, NotMade, job_of};
use crate::refused::rows::are_counts;
use std::alloc::Global;
use std::sync::Wait;
use std::thread::Threads;
use workers::{Executor, RunFault};

/// The number of threads.
const WORKERS: usize = 4;

/// The row `growths`. What the calls are made of is also made once more if it is refused.
#[test]
fn growths(rt: HostRuntime) {
    if assert_come_right(&rt, rt.alloc(), Way::OneRequest).is_err() {
        assert!(rt; assert_come_right(&rt, rt.alloc(), Way::OneRequest).is_ok());
    }
}

/// Whether eight calls of COUNT by four threads have the right outcome. If they are refused as Memory or as Spawn, the executor
/// runs another block, and then these calls once more.
fn counts<R: Threads + Wait + Sync>(
    rt: &R,
    alloc: Global,
    executor: &mut Executor,
) -> Result<bool, NotMade> {
    let job = job_of(alloc, &[(COUNT, KEY); 8])?;
    match executor.run_block(rt, alloc, job, WORKERS) {
        Ok(outcome) => Ok(are_counts(&outcome, 8)),
        Err(RunFault::Memory | RunFault::Spawn) => Ok(
            runs_echo(rt, alloc, executor)?
                && runs_counts(rt, alloc, executor, &[(COUNT, KEY); 8], WORKERS)?,
        ),
        Err(_) => Ok(false),
    }
}

#[test]
fn run_block_growths_refused(rt: HostRuntime) {
    let is_right = match counts(&rt, rt.alloc(), &mut Executor::new(rt.alloc())) {
        Ok(is_right) => is_right,
        Err(_) => matches!(
            counts(&rt, rt.alloc(), &mut Executor::new(rt.alloc())),
            Ok(true)
        ),
    };
    assert!(rt; is_right);
}
