//! Steps of the run inside a replay.

ghost use Rattle.std.specs.Prelude.{◌≡◌, ◌<◌, ℕ, false, IfOk, IsSome, OnErr, OnOk};
ghost use Rattle.rv_step.specs.Run.{asked_key};
ghost use Rattle.rv_step.specs.Moment.{moment_over};
ghost use Rattle.rv_step.specs.Step.{Going};
ghost use Rattle.debugger.specs.Further.{GoesOver};
ghost use Rattle.debugger.specs.ReplayMoment.{GoesOnUntil, IsAnswered, IsRunAt, advance_over};

use read_set::Origin;
use rv_ledger::{Call, LentValue, Store};
use rv_step::{Run, Stage};
use std::alloc::{AllocError, Global};

/// Makes one step over a storage, in a run whose call is not over. Refused if memory ran out; the run then stays at its moment.
pub(crate) fn step_run(alloc: Global, run: &mut Run, store: &Store) -> Result<(), AllocError>
    requires { IsRunAt (Going run.old.machine) run.old }
    ensures ok { OnOk result (IsRunAt (advance_over store.now (Going run.old.machine)) run.new) }
    ensures err { OnErr result (IsRunAt (Going run.old.machine) run.new) }
{
    if run.is_running() {
        run.step_one()?;
    }
    answer_from(alloc, run, store)
}

/// Makes steps over a storage, in a run whose call is not over: at least one, at most `most`, and none past the first moment at
/// which the call is over or its pc is `stop`. Returns the number of steps. Refused if memory ran out before the first of them
/// was made; the run then stays at its moment.
pub(crate) fn go_run(
    alloc: Global,
    run: &mut Run,
    store: &Store,
    stop: Option<u32>,
    most: u64,
) -> Result<u64, AllocError>
    requires going { IsRunAt (Going run.old.machine) run.old }
    requires some { 0 < most }
    ensures ok { IfOk result (λ made. GoesOver store.now stop most made (Going run.old.machine) run.new) }
    ensures err { OnErr result (IsRunAt (Going run.old.machine) run.new) }
{
    if !run.is_running() {
        answer_from(alloc, run, store)?;
        return Ok(1);
    }
    let made = run.go_until(stop, most)?;
    match answer_from(alloc, run, store) {
        Ok(()) => Ok(made),
        Err(AllocError) => {
            if made == 1 {
                return Err(AllocError);
            }
            Ok(made - 1)
        }
    }
}

/// Answers a run that asks for a key, from a storage. A run that does not ask stays as it is. Refused if memory ran out; then
/// nothing changes.
fn answer_from(alloc: Global, run: &mut Run, store: &Store) -> Result<(), AllocError>
    ensures ok { OnOk result (IsAnswered store.now run.old run.new) }
    ensures err { OnErr result (run.new ≡ run.old) }
    ensures asked { OnErr result (IsSome (asked_key run.old.stage)) }
{
    if let Stage::Asked(key) = run.stage() {
        let key = *key;
        let content = LentValue::of_stored(store.get(&key));
        run.answer_lent(content, Origin::base(alloc))?;
    }
    Ok(())
}

/// The run of a call over a storage after `steps` steps. The call is not over at any moment before. Refused if memory ran out.
#[tactic(auto, unfolding(rv_step::specs::Moment::moment_from))]
pub(crate) fn run_after(
    alloc: Global,
    call: &Call,
    store: &Store,
    steps: u64,
) -> Result<Run, AllocError>
    requires { GoesOnUntil call.now store.now steps }
    ensures { IfOk result (λ run. IsRunAt (moment_over call.now store.now steps) run) }
{
    let mut run = Run::start(alloc, call)?;
    let mut made = 0;
    while made < steps {
        let more = go_run(alloc, &mut run, store, None, steps - made)?;
        made += more;
    }
    Ok(run)
}
