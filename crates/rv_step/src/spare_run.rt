//! What one run leaves to the next.

ghost use Rattle.std.specs.Prelude.{◌≡◌, []};

use crate::answer::StorageAnswer;
use crate::spare_machine::SpareMachine;
use std::alloc::Global;

/// The machine and the list of an earlier run, which the next run uses, so that the allocator has less to do.
#[derive(Drop)]
pub struct SpareRun {
    /// Its machine.
    pub(crate) machine: SpareMachine,
    /// The list of its answers, which has none.
    pub(crate) answers: Vec<StorageAnswer>,
    ghost none: { answers.items ≡ [] },
}

impl SpareRun {
    /// No machine and no list yet. Takes no memory.
    pub fn new(alloc: Global) -> SpareRun {
        SpareRun {
            machine: SpareMachine::new(),
            answers: Vec::new(alloc),
        }
    }

    /// Keeps the list of answers that nobody needs any more. They are dropped.
    pub fn keep_answers(&mut self, answers: Vec<StorageAnswer>) {
        let mut answers = answers;
        answers.clear();
        self.answers = answers;
    }
}
