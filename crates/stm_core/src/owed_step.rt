//! The step that a worker owes.

ghost use Rattle.std.specs.Prelude.{◌≡◌, ◌<◌, ℕ, Bool, List, length, get_or, Option};
ghost use Rattle.rv_step.specs.declared.answer.StorageAnswer.{StorageAnswer};
ghost use Rattle.mvmap.specs.Versions.{Versions};
ghost use Rattle.stm_state.specs.declared.state.Task.TheVariants as task;
ghost use Rattle.stm_state.specs.declared.state.Task.{Task};
ghost use Rattle.stm_state.specs.State.{State};
ghost use Rattle.scheduler.specs.Schedule.{state_of};
ghost use Rattle.scheduler.specs.Workers.{HasKeys, IsTaskKindOf};
ghost use Rattle.stm_core.specs.CoreState.{index_run, next_step_of};
ghost use Rattle.stm_core.specs.Passed.{check_of};

use crate::next_step::{NextStep, StepKind};
use scheduler::{Scheduler, TaskKind};

/// The step that a worker owes.
pub(crate) fn next_step_of(scheduler: &Scheduler, worker: usize) -> NextStep
    requires worker { worker < length scheduler.now.tasks }
    requires running { (i : ℕ) (answers : List StorageAnswer) (blocked : Option ℕ) → get_or scheduler.now.tasks worker task.Idle ≡ task.Running i answers blocked → i < length scheduler.now.calls }
    requires moving { (i : ℕ) (keys : List (List ℕ)) (new : Bool) → get_or scheduler.now.tasks worker task.Idle ≡ task.Moving i keys new → i < length scheduler.now.calls }
    requires marking { (i : ℕ) (keys : List (List ℕ)) → get_or scheduler.now.tasks worker task.Idle ≡ task.Marking i keys → i < length scheduler.now.calls }
    ensures { (v : Versions) (p : ℕ) → result ≡ next_step_of (state_of v p scheduler.now) (get_or scheduler.now.tasks worker task.Idle) }
{
    match scheduler.task_kind(worker) {
        TaskKind::Idle => NextStep::Ask,
        TaskKind::Running {
            call,
            blocked: None,
        } => NextStep::Run {
            call,
            incarnation: scheduler.call(call).incarnation,
        },
        TaskKind::Running {
            call,
            blocked: Some(_),
        } => NextStep::Make {
            kind: StepKind::Park,
            call,
            incarnation: scheduler.call(call).incarnation,
        },
        TaskKind::Moving { call, .. } => moving_step(scheduler, worker, call),
        TaskKind::Validating {
            call,
            incarnation,
            left,
            failed,
        } => validating_step(call, incarnation, left, failed),
        TaskKind::Marking { call } => marking_step(scheduler, worker, call),
    }
}

/// The step that a worker owes while it moves the keys of a call's run.
fn moving_step(scheduler: &Scheduler, worker: usize, call: u16) -> NextStep
    requires worker { worker < length scheduler.now.tasks }
    requires keys { HasKeys (get_or scheduler.now.tasks worker task.Idle) }
    requires within { call < length scheduler.now.calls }
    ensures { (keys : List (List ℕ)) (new : Bool) → get_or scheduler.now.tasks worker task.Idle ≡ task.Moving call keys new → (v : Versions) (p : ℕ) → result ≡ next_step_of (state_of v p scheduler.now) (task.Moving call keys new) }
{
    let incarnation = scheduler.call(call).incarnation;
    let kind = match scheduler.next_key(worker) {
        Some(_) => StepKind::MoveKey,
        None => StepKind::FinishExecution,
    };
    NextStep::Make {
        kind,
        call,
        incarnation,
    }
}

/// The step that a worker owes while it validates a call's incarnation, with `left` reads to check.
fn validating_step(call: u16, incarnation: u16, left: usize, failed: bool) -> NextStep
    ensures { (s : State) → result ≡ next_step_of s (task.Validating call incarnation left failed) }
{
    let kind = if failed || left == 0 {
        StepKind::Decide
    } else {
        StepKind::CheckRead
    };
    NextStep::Make {
        kind,
        call,
        incarnation,
    }
}

/// The step that a worker owes while it marks the keys of a call.
fn marking_step(scheduler: &Scheduler, worker: usize, call: u16) -> NextStep
    requires worker { worker < length scheduler.now.tasks }
    requires keys { HasKeys (get_or scheduler.now.tasks worker task.Idle) }
    requires within { call < length scheduler.now.calls }
    ensures { (keys : List (List ℕ)) → get_or scheduler.now.tasks worker task.Idle ≡ task.Marking call keys → (v : Versions) (p : ℕ) → result ≡ next_step_of (state_of v p scheduler.now) (task.Marking call keys) }
{
    let incarnation = scheduler.call(call).incarnation;
    let kind = match scheduler.next_key(worker) {
        Some(_) => StepKind::MarkEstimate,
        None => StepKind::FinishAbort,
    };
    NextStep::Make {
        kind,
        call,
        incarnation,
    }
}

/// The call that a worker validates, and the number of its reads that are left to check; None if it validates none.
#[inline(always)]
pub(crate) fn check_of(kind: TaskKind) -> Option<(u16, usize)>
    ensures { (t : Task) → IsTaskKindOf kind t → result ≡ check_of t }
{
    match kind {
        TaskKind::Validating { call, left, .. } => Some((call, left)),
        _ => None,
    }
}

/// The index of the call that a worker runs; 0 if it runs none.
pub(crate) fn index_run(kind: TaskKind) -> usize
    ensures { (t : Task) → IsTaskKindOf kind t → result ≡ index_run t }
{
    match kind {
        TaskKind::Running { call, .. } => usize::from(call),
        _ => 0,
    }
}
