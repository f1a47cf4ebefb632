//! What is printed of the workers' counts.

use engines::{RunCounts, write_counts};
use rv_ledger::Counts;
use std::alloc::{AllocError, Global};
use std::process::Abort;
use std::test::Fail;

/// What is printed of a run of two calls. The sum of the steps has more than 64 bits.
const TEXT: &str = "worker 0 steps 18446744073709551615 asks 1 executions 2 validations 3\n\
    worker 1 steps 1 asks 0 executions 1 validations 0\n\
    all steps 18446744073709551616 asks 1 executions 3 validations 3 repeated 1\n";

/// The counts of that run.
fn counts(alloc: Global) -> Result<RunCounts, AllocError> {
    let mut workers = Vec::new(alloc);
    workers.push(Counts {
        steps: u64::MAX,
        asks: 1,
        executions: 2,
        validations: 3,
    })?;
    workers.push(Counts {
        steps: 1,
        asks: 0,
        executions: 1,
        validations: 0,
    })?;
    Ok(RunCounts { calls: 2, workers })
}

#[test]
fn counts_are_printed(rt: HostRuntime) -> Result<(), Fail> {
    let counts = counts(rt.alloc())?;
    let mut out = Vec::new(rt.alloc());
    write_counts(rt.alloc(), &counts, &mut out)?;
    assert!(rt; out.as_slice() == TEXT.as_bytes());
    Ok(())
}
