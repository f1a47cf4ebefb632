//! Counting of what a worker did.

ghost use Rattle.std.specs.Prelude.{◌≡◌, ◌<◌};
ghost use Rattle.stm_state.specs.Steps.{one_asking, one_execution, one_step, one_validation};

use crate::scheduler::Scheduler;
use rv_ledger::Counts;

/// The greatest value of a count.
pub const COUNT_LIMIT: u64 = u64::MAX;

impl Scheduler {
    ghost use Rattle.std.specs.Prelude.{set, get_or};
    ghost use Rattle.stm_state.specs.State.{no_counts};
    ghost use Rattle.scheduler.specs.Schedule.{MayCount};

    /// Counts a step of a worker.
    pub(crate) fn count_step(&mut self, worker: usize)
        requires { MayCount worker self.old }
        ensures { self.new ≡ record self.old { counts = set self.old.counts worker (one_step (get_or self.old.counts worker no_counts)) } }
    {
        let counts = self.counts(worker);
        self.put_counts(worker, one_step(counts));
    }

    /// Counts an asking of a worker for work, and its step.
    pub(crate) fn count_asking(&mut self, worker: usize)
        requires { MayCount worker self.old }
        ensures { self.new ≡ record self.old { counts = set self.old.counts worker (one_asking (get_or self.old.counts worker no_counts)) } }
    {
        let counts = self.counts(worker);
        self.put_counts(worker, one_asking(counts));
    }

    /// Counts a run of a worker that is recorded, and its step.
    pub(crate) fn count_execution(&mut self, worker: usize)
        requires { MayCount worker self.old }
        ensures { self.new ≡ record self.old { counts = set self.old.counts worker (one_execution (get_or self.old.counts worker no_counts)) } }
    {
        let counts = self.counts(worker);
        self.put_counts(worker, one_execution(counts));
    }

    /// Counts a validation of a worker that is decided, and its step.
    pub(crate) fn count_validation(&mut self, worker: usize)
        requires { MayCount worker self.old }
        ensures { self.new ≡ record self.old { counts = set self.old.counts worker (one_validation (get_or self.old.counts worker no_counts)) } }
    {
        let counts = self.counts(worker);
        self.put_counts(worker, one_validation(counts));
    }
}

/// One more step.
fn one_step(counts: Counts) -> Counts
    requires { counts.steps < COUNT_LIMIT }
    ensures { result ≡ one_step counts }
{
    Counts {
        steps: counts.steps + 1,
        ..counts
    }
}

/// One more asking for work, and one more step.
fn one_asking(counts: Counts) -> Counts
    requires steps { counts.steps < COUNT_LIMIT }
    requires asks { counts.asks < COUNT_LIMIT }
    ensures { result ≡ one_asking counts }
{
    Counts {
        steps: counts.steps + 1,
        asks: counts.asks + 1,
        ..counts
    }
}

/// One more recorded run, and one more step.
fn one_execution(counts: Counts) -> Counts
    requires steps { counts.steps < COUNT_LIMIT }
    requires executions { counts.executions < COUNT_LIMIT }
    ensures { result ≡ one_execution counts }
{
    Counts {
        steps: counts.steps + 1,
        executions: counts.executions + 1,
        ..counts
    }
}

/// One more decided validation, and one more step.
fn one_validation(counts: Counts) -> Counts
    requires steps { counts.steps < COUNT_LIMIT }
    requires validations { counts.validations < COUNT_LIMIT }
    ensures { result ≡ one_validation counts }
{
    Counts {
        steps: counts.steps + 1,
        validations: counts.validations + 1,
        ..counts
    }
}
