//! The step that a worker owes, and the answers to `ask` and to a read.

use read_set::Origin;
use rv_ledger::StoredValue;

/// The step that a worker owes, with its call's index and incarnation if it has a task.
#[derive(Clone, Copy, Debug, PartialEq, Eq)]
pub enum NextStep {
    /// `ask`.
    Ask,
    /// `read` if its run asks for a key, `record` if it has ended.
    Run {
        /// The call's index.
        call: u16,
        /// The call's incarnation.
        incarnation: u16,
    },
    /// `make`.
    Make {
        /// Which step it makes.
        kind: StepKind,
        /// The call's index.
        call: u16,
        /// The call's incarnation; in a validation, the one whose reads are checked.
        incarnation: u16,
    },
}

/// A step of a worker's task that takes nothing but the worker.
#[derive(Clone, Copy, Debug, PartialEq, Eq)]
pub enum StepKind {
    /// `park`.
    Park,
    /// `move_key`.
    MoveKey,
    /// `finish_execution`.
    FinishExecution,
    /// `check_read`.
    CheckRead,
    /// `decide`.
    Decide,
    /// `mark_estimate`.
    MarkEstimate,
    /// `finish_abort`.
    FinishAbort,
}

/// The answer to `ask`.
#[derive(Clone, Copy, Debug, PartialEq, Eq)]
pub enum AskResult {
    /// All is done: both indices are past the last call, and no worker has a task.
    Done,
    /// There is no task for the worker now; it may ask again.
    Nothing,
    /// The worker has a task.
    Task,
}

/// The answer to a read of a key.
#[derive(Drop)]
pub enum ReadResult {
    /// The key's value, or None if it is absent, and the origin of the answer.
    Given(Option<StoredValue>, Origin),
    /// Nothing yet: the run met an estimate.
    Blocked,
}
