//! How long a worker stays away from the lock: one that gets no task, and one that found it taken.

ghost use Rattle.std.specs.Prelude.{◌≤◌};

use crate::done_cell::LOOK_LIMIT;
use crate::gate::Spin;
use std::hint::spin_loop;
use stm_core::{NextStep, StepKind};

/// Spins this many times, with the processor's hint for a thread that spins.
pub(crate) fn spin_for(times: u32)
    requires { times ≤ 512 }
{
    for _ in 0..times {
        spin_loop();
    }
}

/// How often a worker looks after the first ask that gives no task. It is soon back, because such an ask often only moves the
/// validation index past a call that still runs, and the next ask gives a task.
const FIRST_LOOKS: usize = 2;

/// How often a worker spins between two looks, at least.
const LEAST_SPINS: u32 = 8;

/// How often a worker spins between two looks, at most.
const MOST_SPINS: u32 = 512;

/// How often a worker spins between two looks when it begins to back off.
const FIRST_BACKOFF: u32 = LEAST_SPINS;

/// How often a worker spins between two looks when it backs off, at most.
const MOST_BACKOFF: u32 = 256;

/// What a step adds to the count if the worker waited for the lock before it. The end of a task takes a quarter of the count
/// away, so the count approaches 256 if each task has one such step.
const WAIT: u32 = 64;

/// From this count on a worker backs off after a task.
const CROWDED: u32 = 448;

/// How long a worker without a task stays away from the lock: how often it looks at the block's cell, and how often it spins
/// between two looks. It stays away for longer if one ask after the other gives no task. If runs meet one another's writes, a
/// worker that comes back soon runs calls that must be run again, so it stays away for longer then, too.
///
/// If it often waits for the lock, the calls are short, and each additional worker makes the others slower. So it then backs off
/// after each task: it stays away before it asks for the next one. Worker 0 never backs off, so that one worker keeps working.
#[derive(Clone, Copy)]
pub(crate) struct Patience {
    looks: usize,
    spins: u32,
    waits: u32,
    backoff: u32,
    most_backoff: u32,
    has_looked: bool,
    ghost looks_within: { looks ≤ 64 },
    ghost spins_within: { spins ≤ 512 },
    ghost backoff_within: { backoff ≤ 512 },
    ghost most_within: { most_backoff ≤ 512 },
}

impl Patience {
    /// The least patience, for a worker with this number.
    pub(crate) fn of(worker: usize) -> Patience {
        Patience {
            looks: FIRST_LOOKS,
            spins: LEAST_SPINS,
            waits: 0,
            backoff: 0,
            most_backoff: if worker == 0 { 0 } else { MOST_BACKOFF },
            has_looked: false,
        }
    }
}

impl Spin for Patience {
    /// As often as its patience says, and twice as often the next time, at most 64 times, unless it gets a call to run before
    /// that. As long as it spins more often than the minimum, or backs off, it looks 64 times.
    fn looks(&mut self) -> usize {
        self.has_looked = true;
        if self.spins > LEAST_SPINS || self.backoff > 0 {
            return LOOK_LIMIT;
        }
        let looks = self.looks;
        self.looks = looks.saturating_mul(2).min(LOOK_LIMIT);
        looks
    }

    /// Spins as often as its patience says.
    fn spin(&self) {
        spin_for(self.spins.max(self.backoff));
    }

    /// If it often waited for the lock lately, and has not looked since its last task.
    fn backs_off(&self) -> bool {
        self.backoff > 0 && !self.has_looked
    }

    /// Counts how often it waited lately.
    fn meet_lock(&mut self) {
        self.waits = self.waits.saturating_add(WAIT);
    }

    /// If it gets a call to run, it looks as seldom as at first. From now on it spins four times as often if a run met an
    /// estimate or a call is aborted, and a quarter less often if a run was recorded. After a task it backs off four times as
    /// long as after the one before if it often waited for the lock, and otherwise half as long.
    fn learn(&mut self, owed: NextStep) {
        match owed {
            NextStep::Ask => self.end_task(),
            NextStep::Run { .. } => self.looks = FIRST_LOOKS,
            NextStep::Make { kind, .. } => self.learn_of(kind),
        }
    }
}

impl Patience {
    /// What it learns of a step of a task.
    fn learn_of(&mut self, kind: StepKind) {
        match kind {
            StepKind::Park | StepKind::FinishAbort => {
                self.spins = self.spins.saturating_mul(4).min(MOST_SPINS);
            }
            StepKind::FinishExecution => {
                self.spins = self.spins.saturating_sub(self.spins / 4).max(LEAST_SPINS);
            }
            _ => {}
        }
    }

    /// A task of the worker has ended.
    #[inline(never)]
    fn end_task(&mut self) {
        self.has_looked = false;
        self.backoff = if self.waits >= CROWDED {
            let longer = self.backoff.saturating_mul(4).max(FIRST_BACKOFF);
            longer.min(self.most_backoff)
        } else if self.backoff > FIRST_BACKOFF {
            self.backoff / 2
        } else {
            0
        };
        self.waits -= self.waits / 4;
    }
}
