//! Runs with a limit, of calls whose reads pass versions that add.

use crate::calls::image_of;
use elf32::Image;
use overlay::Overlay;
use rv_ledger::{Call, LentBlock, Rules, Store};
use std::alloc::Global;
use std::sync::{Arc, Wait};
use std::test::Fail;
use std::thread::Threads;
use workers::{Executor, RunFault};

/// Adds 1 to the key that is its input.
const ADD_ONE: &[u32] = &[
    0x0010_0593,
    0x0000_0613,
    0x0050_0893,
    0x0000_0073,
    0x0030_0893,
    0x0000_0593,
    0x0000_0073,
];

/// Reads the key that is its input forty times.
const READ_FORTY_TIMES: &[u32] = &[
    0x0005_0433,
    0x0280_0293,
    0x0010_f5b7,
    0x0004_0533,
    0x0400_0613,
    0x0000_0893,
    0x0000_0073,
    0x0010_f5b7,
    0xfff2_8293,
    0xfe02_94e3,
    0x0030_0893,
    0x0000_0593,
    0x0000_0073,
];

/// How many calls add to the key.
const ADDING_CALLS: usize = 60;

/// How many versions are passed: forty reads and the forty checks of them look through the version of each call that adds. One
/// worker makes 323 steps for that, not counting asks.
const PASSED: u64 = 4_800;

/// A call at one key under rules three.
fn call_of(alloc: Global, image: &Arc<Image>) -> Result<Call, Fail> {
    let input = [0; 32].to_vec(alloc)?;
    Ok(Call::under(Rules::Three, Arc::try_clone(image)?, 100_000, input)?)
}

/// The calls that add to the key, and one that reads it.
fn calls(alloc: Global) -> Result<Vec<Call>, Fail> {
    let adding = image_of(alloc, ADD_ONE)?;
    let reading = image_of(alloc, READ_FORTY_TIMES)?;
    let mut calls = Vec::new(alloc);
    for _ in 0..ADDING_CALLS {
        calls.push(call_of(alloc, &adding)?)?;
    }
    calls.push(call_of(alloc, &reading)?)?;
    Ok(calls)
}

/// How many calls run on one thread within a limit; None if the limit ends the run.
fn run_within<R: Threads + Wait + Sync>(
    rt: &R,
    alloc: Global,
    limit: u64,
) -> Result<Option<usize>, Fail> {
    let calls = calls(alloc)?;
    let Some(block) = LentBlock::of(calls.as_slice()) else {
        return Ok(None);
    };
    let base = Store::new(alloc);
    let mut changes = Overlay::new(alloc);
    let mut executor = Executor::new(alloc);
    match executor.run_over_changes_within(rt, alloc, &base, &mut changes, block, 1, Some(limit)) {
        Ok(receipts) => Ok(Some(receipts.len())),
        Err(RunFault::StepLimit) => Ok(None),
        Err(_) => Ok(Some(0)),
    }
}

#[test]
fn passed_versions_meet_the_limit(rt: HostRuntime) -> Result<(), Fail> {
    assert!(rt; run_within(&rt, rt.alloc(), PASSED)? == None);
    assert!(rt; run_within(&rt, rt.alloc(), PASSED + 1)? == Some(ADDING_CALLS + 1));
    Ok(())
}
