//! What a worker has of a run.

ghost use Rattle.std.specs.Prelude.{◌≡◌, Some};
ghost use Rattle.rv_step.specs.Run.{asked_key};

use read_set::Origin;
use rv_ledger::{Call, Key, StoredValue};
use rv_step::{EndedRun, Run};
use std::marker::Model;
use stm_core::ReadyRecord;

/// A run that asks for a key.
#[derive(Drop)]
pub struct AskingRun {
    /// The run.
    pub run: Run,
    /// The key.
    pub key: Key,
    pub ghost asks: { asked_key run.stage ≡ Some key },
}

/// A run that has ended and is ready to be recorded.
#[derive(Drop)]
pub struct ReadyRun {
    pub(crate) ready: ReadyRecord,
}

impl Model for ReadyRun {
    ghost use Rattle.rv_step.specs.declared.ended_run.EndedRun.{EndedRun};
    ghost use Rattle.stm_core.specs.CoreState.{IsReadyOf};
    ghost use Rattle.stm_core.specs.contracts.ready_record.ReadyRecord.{the_row as ready_row};
    ghost use Rattle.stm_core.specs.declared.ready_record.ReadyRecord.{ReadyRecord};

    ghost Value = { ReadyRecord };

    ghost coded = { ready_row.coded };

    ghost view = { λ r. r.ready };

    ghost invariant = { λ r. (run : EndedRun) × IsReadyOf run r.ready };
}

/// What a run leaves over. It is kept until the worker's next run, so that the lock is released before it is dropped.
#[derive(Drop)]
pub enum Leftover {
    /// Nothing.
    Nothing,
    /// A run that is given up.
    Run(Run),
    /// What the record of a run left.
    Record(ReadyRecord),
}

/// What a worker has of a run.
#[derive(Drop)]
pub enum Progress {
    /// No run. The worker owes steps of its block.
    Idle(Leftover),
    /// A call whose run has not begun.
    Start(Call, Leftover),
    /// A run that goes on.
    Running(Run),
    /// A run that asks for a key.
    Asking(AskingRun),
    /// A run that asks for a key, with what the storage before the block has there.
    Answered(AskingRun, Option<StoredValue>),
    /// A run that asks for a key, with what its call reads there and the origin of that.
    Given(AskingRun, Option<StoredValue>, Origin),
    /// A run that has ended.
    Ended(EndedRun),
    /// A run that has ended and is ready to be recorded.
    Ready(ReadyRun),
}
