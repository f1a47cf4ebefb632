//! When calls run faster by threads.

use rv_ledger::{Change, Receipt, Writes};

/// What a call costs by threads besides its own steps, in gas: its steps under the lock, one after the other. A transfer's gas,
/// at most 1,828, goes into storage calls, which are no faster by threads; so by this cost such calls run in order.
const CALL_COST: u64 = 1_500;

/// What a read costs by threads, in gas: it is made and checked under the lock.
const READ_COST: u64 = 300;

/// What an addition costs by threads, in gas, besides its call. It was chosen so that the frames of
/// rvstm-developers sums run no slower by threads than in order; it is not a time that was measured by itself.
const SUM_COST: u64 = 600;

/// What a worker costs, in gas: its thread.
pub(crate) const WORKER_COST: u64 = 10_000;

/// What some calls took.
#[derive(Clone, Copy)]
pub(crate) struct Shown {
    /// How many they were.
    calls: u64,
    /// Their gas.
    pub(crate) gas: u64,
    /// How often they read the storage.
    reads: u64,
    /// To how many keys they added, each call counted by itself.
    sums: u64,
}

impl Shown {
    /// What calls with these receipts took.
    pub(crate) fn of(receipts: &[Receipt], reads: u64) -> Shown {
        let mut gas: u64 = 0;
        let mut sums: u64 = 0;
        for receipt in receipts {
            gas = gas.saturating_add(u64::from(receipt.gas));
            sums = sums.saturating_add(sums_in(&receipt.writes));
        }
        Shown {
            calls: receipts.len() as u64,
            gas,
            reads,
            sums,
        }
    }

    /// What these calls and others took.
    pub(crate) fn and(self, others: Shown) -> Shown {
        Shown {
            calls: self.calls.saturating_add(others.calls),
            gas: self.gas.saturating_add(others.gas),
            reads: self.reads.saturating_add(others.reads),
            sums: self.sums.saturating_add(others.sums),
        }
    }

    /// The gas of a call on average; 0 if there is no call.
    pub(crate) fn gas_of_each(self) -> u64 {
        self.gas.checked_div(self.calls).unwrap_or(0)
    }

    /// What a call costs by threads besides its own steps, on average, in gas.
    pub(crate) fn cost_of_each(self) -> u64 {
        let sums = self.sums.saturating_mul(SUM_COST);
        let reads = self.reads_of_each().saturating_mul(READ_COST);
        sums.checked_div(self.calls)
            .unwrap_or(0)
            .saturating_add(reads)
            .saturating_add(CALL_COST)
    }

    /// How often a call read the storage on average; 0 if there is no call.
    pub(crate) fn reads_of_each(self) -> u64 {
        self.reads.checked_div(self.calls).unwrap_or(0)
    }
}

/// To how many keys a call added.
fn sums_in(writes: &Writes) -> u64 {
    let mut sums: u64 = 0;
    for (_, change) in writes.as_slice() {
        if let Change::Sum(_) = change {
            sums = sums.saturating_add(1);
        }
    }
    sums
}

/// Whether this many calls, if they are like those in `shown`, run faster by threads. Threads save the gas of the calls, less
/// one worker's part of it. The costs are estimates from the times of blocks by the length of a call, compared with `seq`
/// (bench/README.md). The storage costs nothing, since threads read it in place. No result depends on the answer.
pub(crate) fn pays(workers: usize, shown: Shown, calls: usize) -> bool {
    let (workers, calls) = (workers as u64, calls as u64);
    let work = shown.gas_of_each().saturating_mul(calls);
    let saved = work - work / workers.max(1);
    let costs = calls
        .saturating_mul(shown.cost_of_each())
        .saturating_add(workers.saturating_mul(WORKER_COST));
    saved > costs
}
