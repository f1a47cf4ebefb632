//! What a thread does outside the lock at two places: after a run, and between two looks at the cell. Tests put
//! something of their own there.

ghost use Rattle.std.specs.Prelude.{◌≤◌};

use stm_core::NextStep;

/// What a thread does between the end of a run and its record, outside the lock. Tests hold a worker there.
pub trait Gate {
    /// A worker has reached the end of a run. Promises nothing.
    fn held(&self, worker: usize);
}

/// A gate that holds nobody.
#[derive(Clone, Copy, Debug)]
pub struct Open;

impl Gate for Open {
    /// Returns at once.
    fn held(&self, _worker: usize) {}
}

/// How long a worker without a task stays away from the lock: how often it looks at its block's cell, how it spins between two
/// looks that do not show done, and what it learns from its steps and from the lock. Tests count its looks there.
pub trait Spin {
    /// How often it looks now that an ask gave no task, before it asks again.
    fn looks(&mut self) -> usize
        ensures { result ≤ 64 };

    /// The cell did not show done. Promises nothing.
    fn spin(&self);

    /// Whether it looks before the ask that it makes next. Promises nothing.
    fn backs_off(&self) -> bool;

    /// Another thread has the lock, so it waits for it. Promises nothing.
    fn meet_lock(&mut self);

    /// The worker made a step, and owes this one now. Promises nothing.
    fn learn(&mut self, owed: NextStep);
}
