//! An ended run that is ready to be recorded, made before the lock.

ghost use Rattle.std.specs.Prelude.{◌≡◌, IfOk, map};
ghost use Rattle.stm_state.specs.Steps.{read_of};

use crate::reads::reads_in;
use read_set::ReadSet;
use rv_ledger::Call;
use rv_step::{EndedRun, StorageAnswer};
use std::alloc::{AllocError, Global};
use std::mem::replace;
use stm_state::Recorded;

/// The reads that an ended run made, as its record keeps them; refused if memory ran out.
#[inline(always)]
pub fn reads_made(alloc: Global, run: &EndedRun) -> Result<ReadSet, AllocError>
    ensures { IfOk result (λ reads. reads ≡ map read_of run.now.answers.items) }
{
    reads_in(alloc, run.answers.as_slice())
}

/// An ended run that is ready to be recorded. A worker makes it before it takes the lock, and lends it to the record. The
/// record swaps what it keeps with what the call had before, so that is dropped after the lock.
#[derive(Drop)]
pub struct ReadyRecord {
    pub(crate) call: Call,
    pub(crate) answers: Vec<StorageAnswer>,
    /// The run that the record will keep; after the record, the one that was kept before, or None.
    pub(crate) recorded: Option<Recorded>,
}

impl ReadyRecord {
    ghost use Rattle.std.specs.Prelude.{◌≡◌, map};
    ghost use Rattle.rv_step.specs.declared.ended_run.EndedRun.{EndedRun};
    ghost use Rattle.stm_state.specs.Steps.{read_of};
    ghost use Rattle.stm_core.specs.CoreState.{IsReadyOf};

    /// A run with the reads that it made. Takes no memory.
    #[inline(always)]
    pub fn of(run: EndedRun, reads: ReadSet) -> ReadyRecord
        requires { reads ≡ map read_of run.answers.items }
        ensures { IsReadyOf run result }
    {
        let EndedRun {
            call,
            answers,
            receipt,
            ..
        } = run;
        let recorded = Some(Recorded { receipt, reads });
        ReadyRecord {
            call,
            answers,
            recorded,
        }
    }

    /// Takes the run's answers, whose room can be used again.
    pub fn take_answers(&mut self) -> Vec<StorageAnswer> {
        let alloc = *self.answers.allocator();
        replace(&mut self.answers, Vec::new(alloc))
    }

    /// The run, if it was not recorded. Takes no memory.
    pub(crate) fn into_run(self) -> EndedRun
        requires { (run : EndedRun) × IsReadyOf run self }
        ensures { (run : EndedRun) → IsReadyOf run self → result ≡ run }
    {
        let ReadyRecord {
            call,
            answers,
            recorded,
            ..
        } = self;
        let Some(Recorded { receipt, .. }) = recorded else {
            unreachable!();
        };
        EndedRun {
            call,
            answers,
            receipt,
        }
    }
}
