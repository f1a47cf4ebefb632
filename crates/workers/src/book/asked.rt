//! What an ask of a worker is answered.

ghost use Rattle.std.specs.Prelude.{◌≡◌, true};
ghost use Rattle.stm_state.specs.State.{is_done};

use stm_core::{Core, JobSource, NextStep};

/// What an ask is answered.
#[derive(Clone, Copy, Debug)]
pub enum Asked {
    /// All is done.
    Done(AllDone),
    /// The worker owes this step now.
    Owes(NextStep),
}

impl Asked {
    ghost use Rattle.std.specs.Prelude.{◌≡◌};
    ghost use Rattle.workers.specs.Book.{owed_by};

    /// The step that the worker owes now; None if all is done.
    pub(crate) fn owed(self) -> Option<NextStep>
        ensures { result ≡ owed_by self }
    {
        match self {
            Asked::Done(_) => None,
            Asked::Owes(next) => Some(next),
        }
    }
}

/// That all is done. Only a book makes one, when its core is done.
#[derive(Clone, Copy, Debug)]
pub struct AllDone {
    by_book: (),
}

impl AllDone {
    /// Of a core that is done.
    pub(super) fn of<H: JobSource>(_core: &Core<H>) -> AllDone
        requires { is_done _core.now.state ≡ true }
    {
        AllDone { by_book: () }
    }
}
