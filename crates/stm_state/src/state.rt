//! What the scheduler stores for each call and for each worker.

use read_set::ReadSet;
use rv_ledger::{Key, Receipt};
use rv_step::StorageAnswer;
use std::marker::Model;

/// The status of a call.
#[derive(Clone, Copy, Debug, PartialEq, Eq)]
pub enum Status {
    /// It is ready to be run.
    Ready,
    /// A worker runs it, or moves the keys that its run wrote.
    Executing,
    /// Its last run is recorded, and the keys of that run are moved.
    Executed,
    /// It is parked until a lower call is EXECUTED, or a worker turns its versions into estimates.
    Aborting,
}

/// A recorded run of a call.
#[derive(Drop)]
pub struct Recorded {
    /// What the call did.
    pub receipt: Receipt,
    /// What it read, in order.
    pub reads: ReadSet,
}

/// What the scheduler stores for a call.
#[derive(Drop)]
pub struct CallState {
    /// The call's status.
    pub status: Status,
    /// How often it was made READY again, 0 to 65,535.
    pub incarnation: u16,
    /// The index of the call that it is parked on, or None.
    pub parked: Option<u16>,
    /// The run that was last recorded, or None.
    pub last: Option<Recorded>,
}

/// The answers that a run got, in order.
#[derive(Drop)]
pub struct Answers {
    items: Vec<StorageAnswer>,
}

impl Model for Answers {
    ghost use Rattle.std.specs.Prelude.{List};
    ghost use Rattle.rv_step.specs.declared.answer.StorageAnswer.{StorageAnswer};

    ghost Value = { List StorageAnswer };

    ghost view = { λ a. a.items.items };
}

/// The keys that must still be moved or marked, in order.
#[derive(Drop)]
pub struct Keys {
    items: Vec<Key>,
}

impl Model for Keys {
    ghost use Rattle.std.specs.Prelude.{List, ℕ};

    ghost Value = { List (List ℕ) };

    ghost view = { λ k. k.items.items };
}

/// The task of a worker.
#[derive(Drop)]
pub enum Task {
    /// Nothing: it asks for work.
    Idle,
    /// It runs a call.
    Running {
        /// The call's index.
        call: u16,
        /// The answers that the run got so far.
        answers: Answers,
        /// The index of the call whose estimate the run met, or None.
        blocked: Option<u16>,
    },
    /// It moves the keys of a run that it recorded. First it publishes the keys that the run wrote. Then it withdraws those that
    /// only the previous run wrote.
    Moving {
        /// The call's index.
        call: u16,
        /// The keys that must still be moved.
        keys: Keys,
        /// Whether the run wrote a key that the previous run did not write.
        new_key: bool,
    },
    /// It validates a call.
    Validating {
        /// The call's index.
        call: u16,
        /// The incarnation whose reads it checks.
        incarnation: u16,
        /// The number of reads that it still has to check.
        left: usize,
        /// Whether a read that it checked did not stand.
        failed: bool,
    },
    /// It aborts a call: it turns the call's versions into estimates.
    Marking {
        /// The call's index.
        call: u16,
        /// The keys that must still be marked.
        keys: Keys,
    },
}
