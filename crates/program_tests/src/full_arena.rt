//! A block whose run by threads is refused, because the arena is full.

use crate::calls::image_of;
use rv_ledger::{Call, Job, Store};
use std::alloc::Global;
use std::sync::atomic::{AtomicU64, Ordering};
use std::sync::{Arc, Wait};
use std::test::Fail;
use std::thread::{Threads, yield_now};
use workers::{Executor, Gate, RunFault};

/// Reads the keys 0 to 4, and writes an empty value at each key from the first word of its input on, up to the second.
const FLOOD: &[u32] = &[
    0xfc01_0413, // addi x8,x2,-64
    0x0005_2483, // lw x9,0(x10)
    0x0045_2903, // lw x18,4(x10)
    0x0000_0993, // addi x19,x0,0
    0x0050_0a13, // addi x20,x0,5
    0x0134_2e23, // sw x19,28(x8)
    0x0004_0513, // addi x10,x8,0
    0x0004_0593, // addi x11,x8,0
    0x0000_0613, // addi x12,x0,0
    0x0000_0893, // addi x17,x0,0
    0x0000_0073, // ecall
    0x0019_8993, // addi x19,x19,1
    0xff49_92e3, // bne x19,x20,-28
    0x0094_2e23, // sw x9,28(x8)
    0x0004_0513, // addi x10,x8,0
    0x0004_0593, // addi x11,x8,0
    0x0000_0613, // addi x12,x0,0
    0x0010_0893, // addi x17,x0,1
    0x0000_0073, // ecall
    0x0014_8493, // addi x9,x9,1
    0xff24_92e3, // bne x9,x18,-28
    0x0000_0593, // addi x11,x0,0
    0x0030_0893, // addi x17,x0,3
    0x0000_0073, // ecall
];

/// The gas limit of each call.
const GAS: u32 = 200_000;

/// The first key that each call after the first ones writes, and the key past the last: each of them writes 256 keys.
const MANY: (u32, u32) = (256, 512);

/// How many workers there are. There are as many first calls, and each of them writes one of the keys that all calls read. So
/// each worker first reaches the gate with one of the first calls.
const WORKERS: u32 = 5;

/// How many workers are held, each until the later calls have run once more. The last one continues before the arena is full: a
/// worker that was held then would look in vain.
const HELD: u64 = 4;

/// How many calls of 256 writes come after the first ones. They run again whenever a worker that was held continues, so they
/// write 1,280,000 versions by their fifth run.
const ROUND: usize = 1_000;

/// How many runs they have made in total when the arena is full: it has room for 1,048,576 versions.
const RUNS: u64 = 4_096;

/// How often they run at most.
const MOST_RUNS: usize = 10_000;

/// How often a worker that is held looks in vain for another run before it continues.
const WAITS: usize = 1_000_000;

/// A gate at which the first workers are held, each until the later calls have run once more.
#[derive(Drop)]
struct Rounds {
    /// How many runs came to the gate.
    arrived: AtomicU64,
    /// How many of them were not held.
    passed: AtomicU64,
}

impl Rounds {
    /// A gate at which nobody was yet.
    fn new() -> Rounds {
        Rounds {
            arrived: AtomicU64::new(0),
            passed: AtomicU64::new(0),
        }
    }

    /// Whether another run comes by before a worker has looked often enough.
    fn goes_on(&self, before: u64) -> bool {
        for _ in 0..WAITS {
            if self.passed.load(Ordering::SeqCst) != before {
                return true;
            }
            yield_now();
        }
        false
    }
}

impl Gate for Rounds {
    fn held(&self, _worker: usize) {
        let arrived = self.arrived.fetch_add(1, Ordering::SeqCst);
        if arrived >= HELD {
            let _ = self.passed.fetch_add(1, Ordering::SeqCst);
            return;
        }
        let wanted = arrived.wrapping_add(1).wrapping_mul(ROUND as u64);
        for _ in 0..MOST_RUNS {
            let passed = self.passed.load(Ordering::SeqCst);
            if passed >= wanted || !self.goes_on(passed) {
                return;
            }
        }
    }
}

/// Calls that write the keys 0 to 4, and a thousand calls of 256 writes.
fn flood(alloc: Global) -> Result<Job, Fail> {
    let image = image_of(alloc, FLOOD)?;
    let mut calls = Vec::new(alloc);
    for call in 0..WORKERS + ROUND as u32 {
        let (first, end) = if call < WORKERS {
            (call, call + 1)
        } else {
            MANY
        };
        let mut input = first.to_le_bytes().to_vec(alloc)?;
        input.extend_from_slice(&end.to_le_bytes())?;
        calls.push(Call::new(Arc::try_clone(&image)?, GAS, input)?)?;
    }
    Ok(Job::new(calls, Store::new(alloc))?)
}

/// Whether a run by threads, one more than are held, is refused because the arena is full.
fn is_refused<R: Threads + Wait + Sync>(rt: &R, alloc: Global, job: Job) -> bool {
    let mut executor = Executor::new(alloc);
    let gate = Rounds::new();
    let answer = executor.run_block_with(rt, alloc, job, WORKERS as usize, &gate);
    let is_full = matches!(answer, Err(RunFault::ArenaFull));
    is_full && executor.shares().is_empty() && gate.passed.load(Ordering::SeqCst) >= RUNS
}

#[test]
fn a_block_of_too_many_versions(rt: HostRuntime) -> Result<(), Fail> {
    let job = flood(rt.alloc())?;
    assert!(rt; is_refused(&rt, rt.alloc(), job));
    Ok(())
}
