//! What running a job leaves.

use crate::job::Job;
use crate::receipt::Receipt;
use crate::store::Store;

/// What one worker did.
#[derive(Clone, Copy, Debug, PartialEq, Eq)]
pub struct Counts {
    /// Its steps of every kind.
    pub steps: u64,
    /// The number of times that it asked for work.
    pub asks: u64,
    /// Its runs that were recorded.
    pub executions: u64,
    /// Its validations that reached a decision.
    pub validations: u64,
}

/// What running a job leaves.
#[derive(Drop)]
pub struct Outcome {
    /// The job.
    pub job: Job,
    /// What each call did, in block order.
    pub receipts: Vec<Receipt>,
    /// The storage after the last call.
    pub store: Store,
    /// What each worker did; empty if the calls were run one after another, without workers.
    pub counts: Vec<Counts>,
}
