//! What a worker owns: its share of the counts, and its pass of the block's cell.

ghost use Rattle.std.specs.Prelude.{◌≡◌, ◌<◌, ◌↔◌, false, true};
ghost use Rattle.scheduler.specs.Schedule.{count_limit};
ghost use Rattle.workers.specs.Book.{IsSpent};

use crate::done_cell::DonePass;
use rv_ledger::Counts;

/// A worker's share of the counts, with its pass of the block's cell. The counts start at zero, and only the step calls of `Book`
/// change them.
#[derive(Drop)]
pub struct Share {
    pub(super) worker: usize,
    pub(super) counts: Counts,
    pub(super) dones: u64,
    pub(crate) pass: DonePass,
}

impl Share {
    ghost use Rattle.std.specs.Prelude.{◌≡◌};
    ghost use Rattle.workers.specs.Book.{zero_counts, counts_of_share};

    /// The share of a worker that has done nothing yet, with its pass.
    pub(crate) fn new(worker: usize, pass: DonePass) -> Share
        ensures counts { counts_of_share result ≡ zero_counts worker }
        ensures pass { result.pass ≡ pass }
    {
        Share {
            worker,
            counts: Counts {
                steps: 0,
                asks: 0,
                executions: 0,
                validations: 0,
            },
            dones: 0,
            pass,
        }
    }

    /// The worker's number, from 0 on.
    pub fn worker(&self) -> usize
        ensures { result ≡ self.now.worker }
    {
        self.worker
    }

    /// What the worker did.
    pub fn counts(&self) -> Counts
        ensures { result ≡ self.now.counts }
    {
        self.counts
    }

    /// How many asks of the worker were answered Done.
    pub fn dones(&self) -> u64
        ensures { result ≡ self.now.dones }
    {
        self.dones
    }
}

/// Whether a worker with these counts makes no further step. This holds if it has made 2^64 - 1 steps, or if there is a limit and
/// it has made at least this many steps that are not asks.
#[inline(always)]
pub(super) fn counts_are_spent(work_limit: Option<u64>, counts: Counts) -> bool
    ensures spent { (result ≡ true) ↔ IsSpent work_limit counts }
    ensures below { result ≡ false → counts.steps < count_limit }
{
    match work_limit {
        None => counts.steps == u64::MAX,
        Some(limit) => counts.steps >= limit.saturating_add(counts.asks),
    }
}
