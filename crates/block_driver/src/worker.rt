//! What the thread of a worker owns.

ghost use Rattle.std.specs.Prelude.{◌≡◌};
ghost use Rattle.block_driver.specs.Progress.{IsNeed, IsStalled, progress_with_base};

use crate::progress::{Leftover, Progress};
use crate::running::{begin, get_ready, go};
use rv_ledger::{Key, StoredValue};
use rv_step::SpareRun;
use std::alloc::Global;
use std::mem::replace;

/// What the thread of a worker owns. Its block is elsewhere.
#[derive(Drop)]
pub struct Worker {
    /// The worker's number, from 0 on.
    pub number: usize,
    /// What it has of a run.
    pub progress: Progress,
    /// What one run leaves to the next one.
    pub spare: SpareRun,
}

/// What a worker needs to go on.
#[derive(Clone, Copy, Debug, PartialEq, Eq)]
pub enum Need {
    /// A step of its block.
    Step,
    /// What the storage before the block has at this key.
    Key(Key),
}

impl Worker {
    ghost use Rattle.std.specs.Prelude.{◌≡◌, true};
    ghost use Rattle.block_driver.specs.Progress.{IsNeed, run_given, has_asked, is_without_run, progress_with_base};

    /// A worker that has no run.
    pub fn new(alloc: Global, number: usize) -> Worker
        ensures number { result.number ≡ number }
        ensures idle { is_without_run result.progress ≡ true }
    {
        Worker {
            number,
            progress: Progress::Idle(Leftover::Nothing),
            spare: SpareRun::new(alloc),
        }
    }

    /// Continues the worker's run, without its block, until it asks for a key or is ready to be recorded. None if memory ran out;
    /// then the run is kept, and may be continued.
    pub fn run(&mut self, alloc: Global) -> Option<Need>
        ensures number { self.new.number ≡ self.old.number }
        ensures given { run_given self.new.progress ≡ run_given self.old.progress }
        ensures need { IsNeed result self.new.progress }
    {
        let progress = replace(&mut self.progress, Progress::Idle(Leftover::Nothing));
        let begun = begin(alloc, progress, &mut self.spare);
        let gone = go(begun, &mut self.spare);
        self.progress = get_ready(alloc, gone);
        need_of(&self.progress)
    }

    /// Takes what the storage before the block has at the key that the run asks for. Returns false if it asks for none, and then
    /// nothing changes.
    pub fn take_base(&mut self, base: Option<StoredValue>) -> bool
        ensures number { self.new.number ≡ self.old.number }
        ensures base { self.new.progress ≡ progress_with_base base self.old.progress }
        ensures asked { result ≡ has_asked self.old.progress }
    {
        let asks = matches!(&self.progress, Progress::Asking(_));
        let progress = replace(&mut self.progress, Progress::Idle(Leftover::Nothing));
        self.progress = with_base(progress, base);
        asks
    }
}

/// A run that asks for a key, with what the storage before the block has there. Others stay as they are.
fn with_base(progress: Progress, base: Option<StoredValue>) -> Progress
    ensures { result ≡ progress_with_base base progress }
{
    match progress {
        Progress::Asking(asking) => Progress::Answered(asking, base),
        other => other,
    }
}

/// What a worker needs to go on; None if its run can go on.
fn need_of(progress: &Progress) -> Option<Need>
    requires { IsStalled progress.now }
    ensures { IsNeed result progress.now }
{
    match progress {
        Progress::Idle(_) | Progress::Answered(_, _) | Progress::Ready(_) => Some(Need::Step),
        Progress::Asking(asking) => Some(Need::Key(asking.key)),
        Progress::Start(_, _)
        | Progress::Running(_)
        | Progress::Given(_, _, _)
        | Progress::Ended(_) => None,
    }
}
