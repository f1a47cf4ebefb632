//! The names and numbers of refusals that no printed row shows.

use rv_ledger::{CallFault, JobFault};
use rv_mem::Fault;
use std::alloc::{AllocError, Global};
use std::process::Abort;
use std::test::Fail;

/// What the refusals of calls and jobs print.
fn of_calls_and_jobs(alloc: Global) -> Result<String, AllocError> {
    let (gas, input) = (CallFault::BadGas, CallFault::InputTooLong);
    format!(in alloc; "{gas}, {input}, {}", JobFault::TooManyCalls)
}

/// What the refusals of accesses print.
fn of_accesses(alloc: Global) -> Result<String, AllocError> {
    let (misaligned, outside) = (Fault::Misaligned, Fault::MemoryFault);
    let (fetch, memory) = (Fault::FetchFault, Fault::Memory);
    format!(in alloc; "{misaligned}, {outside}, {fetch}, {memory}")
}

/// The numbers of the same.
fn numbers() -> [u8; 7] {
    [
        CallFault::BadGas as u8,
        CallFault::InputTooLong as u8,
        JobFault::TooManyCalls as u8,
        Fault::Misaligned as u8,
        Fault::MemoryFault as u8,
        Fault::FetchFault as u8,
        Fault::Memory as u8,
    ]
}

#[test]
fn names_and_numbers(rt: HostRuntime) -> Result<(), Fail> {
    let calls = of_calls_and_jobs(rt.alloc())?;
    assert!(rt; calls.as_str() == "BadGas 1, InputTooLong 2, TooManyCalls 1");
    let accesses = of_accesses(rt.alloc())?;
    assert!(rt; accesses.as_str() == "Misaligned 1, MemoryFault 2, FetchFault 3, Memory 4");
    assert!(rt; numbers() == [1, 2, 1, 1, 2, 3, 4]);
    Ok(())
}
