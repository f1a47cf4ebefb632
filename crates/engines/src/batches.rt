//! Which calls of a frame run in order, and which by threads together.

ghost use Rattle.std.specs.Prelude.{◌≡◌, ◌≤◌, IfSome};

use crate::thread_costs::{Shown, WORKER_COST, pays};
use rv_ledger::Receipt;

/// How many calls of a frame run in order first.
pub(crate) const FIRST_CALLS: usize = 2;

/// How many more calls run in order if the first ones used little gas: all of them show what a call takes.
const NEXT_CALLS: usize = 6;

/// The least gas that a batch is expected to use, if enough calls are left: threads take some hundred microseconds to begin,
/// and this gas a few milliseconds. If the first calls used this much, no others run in order.
const LEAST_GAS: u64 = 1_000_000;

/// The most gas that a batch is expected to use: if later calls begin to read, only the calls of one batch are run again.
const MOST_GAS: u64 = 160_000_000;

/// How many steps under the lock a call of a batch is allowed on average, besides those for its gas.
const STEPS_OF_A_CALL: u64 = 16;

/// How many steps under the lock a call makes on average, besides its reads: those of its record and of its validation.
const STEPS_BESIDE_READS: u64 = 8;

/// For how much gas a call is allowed one more step.
const GAS_A_STEP: u64 = 512;

/// How many steps the threads of a batch are allowed together at most. Each read that they keep is one of them.
const MOST_STEPS: u64 = 131_072;

/// For how much gas of the calls before a batch its threads are allowed one step. A read takes some 1.6 microseconds when four
/// threads want the lock, so all steps take a twentieth of the time of those calls in order.
const GAS_BEFORE_A_STEP: u64 = 6_400;

/// How many steps the threads of a batch may be allowed, however little gas was used before: some 26 milliseconds of reads.
const LEAST_STEPS: u64 = 16_384;

/// How many more each thread is allowed.
const STEPS_OF_A_THREAD: u64 = 64;

/// The calls that run next by threads.
#[derive(Clone, Copy)]
pub(crate) struct Batch {
    /// How many.
    pub(crate) calls: usize,
    /// How many steps, not counting asks, each thread makes at most, and how many versions all of them pass.
    pub(crate) work_limit: u64,
}

/// What the calls of a frame took so far. It sets how many of the others run by threads next. No result depends on it.
#[derive(Clone, Copy)]
pub(crate) struct Batches {
    workers: usize,
    /// What the calls of the last batch took.
    last: Shown,
    /// The gas of all calls that were run.
    gas: u64,
    /// The gas that threads have saved: that of the calls that they ran, less one thread's part of it and what threads cost.
    saved: u64,
}

impl Batches {
    /// The first calls were run in order: their receipts, and how often they read the storage.
    pub(crate) fn new(workers: usize, first: &[Receipt], reads: u64) -> Batches {
        let last = Shown::of(first, reads);
        Batches {
            workers,
            last,
            gas: last.gas,
            saved: 0,
        }
    }

    /// How many calls run in order after the first ones.
    pub(crate) fn calls_in_order(&self) -> usize {
        if self.gas < LEAST_GAS { NEXT_CALLS } else { 0 }
    }

    /// Other calls were run in order, too.
    pub(crate) fn with(self, others: &[Receipt], reads: u64) -> Batches {
        let last = self.last.and(Shown::of(others, reads));
        Batches {
            workers: self.workers,
            last,
            gas: last.gas,
            saved: 0,
        }
    }

    /// The next batch if this many calls are left. None if they run in order, as threads do not pay.
    ///
    /// By what the calls before it took, the batch is expected to take no longer than threads have saved, plus one call, or to
    /// use a million gas if that is more; and at most 160 million. So a batch that is given up costs what threads have saved
    /// and the time of one call. It is expected to make half of the steps that its threads are allowed. Each worker has the
    /// same number of its calls, unless too few are left.
    pub(crate) fn next(&self, left: usize) -> Option<Batch>
        ensures { IfSome result (λ batch. (1 ≤ batch.calls) × (batch.calls ≤ left)) }
    {
        if left == 0 || !pays(self.workers, self.last, left) {
            return None;
        }
        let gas_of_each = self.last.gas_of_each().max(1);
        let steps = (self.gas / GAS_BEFORE_A_STEP)
            .max(LEAST_STEPS)
            .min(MOST_STEPS);
        let calls = self.most_calls(gas_of_each, steps).max(1).min(left);
        Some(Batch {
            calls,
            work_limit: work_limit(self.workers, gas_of_each, calls, steps),
        })
    }

    /// The most calls of this gas in a batch whose threads are allowed this many steps together: the same number for each
    /// worker.
    fn most_calls(&self, gas_of_each: u64, steps: u64) -> usize {
        let workers = self.workers.max(1);
        let gas_of_each = gas_of_each.max(1);
        let time_of_each = (gas_of_each / workers as u64).saturating_add(self.last.cost_of_each());
        let steps_of_each = self.last.reads_of_each().saturating_add(STEPS_BESIDE_READS);
        let calls = (self.saved.saturating_add(gas_of_each) / time_of_each.max(1))
            .max(LEAST_GAS / gas_of_each)
            .min(MOST_GAS / gas_of_each)
            .min(steps / 2 / steps_of_each.max(1));
        let rounds = (calls as usize).saturating_add(workers - 1) / workers;
        rounds.max(1).saturating_mul(workers)
    }

    /// A batch was run by threads, and these are its receipts.
    pub(crate) fn note(&mut self, receipts: &[Receipt]) {
        let reads = self
            .last
            .reads_of_each()
            .saturating_mul(receipts.len() as u64);
        self.last = Shown::of(receipts, reads);
        let gas = self.last.gas;
        self.gas = self.gas.saturating_add(gas);
        let workers = (self.workers as u64).max(1);
        let costs = self
            .last
            .cost_of_each()
            .saturating_mul(receipts.len() as u64)
            .saturating_add(WORKER_COST.saturating_mul(workers));
        self.saved = self
            .saved
            .saturating_add(gas - gas / workers)
            .saturating_sub(costs);
    }
}

/// How many steps, not counting asks, each of some threads makes at most in this many calls of this gas. `most` is a limit for all
/// threads together. One thread may make twice its part.
fn work_limit(workers: usize, gas_of_each: u64, calls: usize, most: u64) -> u64 {
    let steps_of_each = STEPS_OF_A_CALL.saturating_add(gas_of_each / GAS_A_STEP);
    let steps = steps_of_each.saturating_mul(2).saturating_mul(calls as u64);
    let part = steps.min(most) / (workers as u64).max(1);
    part.saturating_add(STEPS_OF_A_THREAD)
}
