//! How a worker goes on with its run, without its block. Where memory runs out, the run is kept.

ghost use Rattle.std.specs.Prelude.{◌≡◌, [], IfSome, IsSome, OnErr, OnOk, Some};
ghost use Rattle.std.specs.Option.{option_copied};
ghost use Rattle.rv_step.specs.Run.{after_answer, asked_key};
ghost use Rattle.block_driver.specs.Progress.{IsStalled, run_given};

use crate::progress::{AskingRun, Leftover, Progress, ReadyRun};
use read_set::Origin;
use rv_ledger::{Call, LentValue, StoredValue};
use rv_step::{EndedRun, Pause, Run, SpareRun};
use std::alloc::{AllocError, Global};
use std::mem::replace;
use stm_core::{ReadyRecord, reads_made};

/// Begins the run of a call, or gives a run what it reads.
pub(crate) fn begin(alloc: Global, progress: Progress, spare: &mut SpareRun) -> Progress
    ensures { run_given result ≡ run_given progress }
{
    match progress {
        Progress::Start(call, leftover) => start(alloc, call, leftover, spare),
        Progress::Given(asking, value, origin) => give(asking, value, origin),
        other => other,
    }
}

/// Begins the run of a call, in the room of an earlier one.
fn start(alloc: Global, call: Call, leftover: Leftover, spare: &mut SpareRun) -> Progress
    ensures { run_given result ≡ Some (call, []) }
{
    reuse(leftover, spare);
    let used = replace(spare, SpareRun::new(alloc));
    match Run::start_in(alloc, used, &call) {
        Ok(run) => Progress::Running(run),
        Err(AllocError) => Progress::Start(call, Leftover::Nothing),
    }
}

/// KeepsProgress the room of what an earlier run left over, and drops the rest.
fn reuse(leftover: Leftover, spare: &mut SpareRun) {
    match leftover {
        Leftover::Nothing => {}
        Leftover::Run(run) => *spare = run.into_spare(),
        Leftover::Record(record) => {
            let mut record = record;
            spare.keep_answers(record.take_answers());
        }
    }
}

/// Gives a run what it reads at the key that it asks for.
fn give(asking: AskingRun, value: Option<StoredValue>, origin: Origin) -> Progress
    ensures { run_given result ≡ run_given (Progress.Given asking value origin) }
{
    let AskingRun { mut run, key, .. } = asking;
    match answer(&mut run, value.as_ref(), &origin) {
        Ok(()) => Progress::Running(run),
        Err(AllocError) => Progress::Given(AskingRun { run, key }, value, origin),
    }
}

/// Answers a run with copies of a value and an origin. Refused if memory ran out, and then nothing changes.
fn answer(run: &mut Run, value: Option<&StoredValue>, origin: &Origin) -> Result<(), AllocError>
    requires { IsSome (asked_key run.old.stage) }
    ensures ok { OnOk result (IfSome (asked_key run.old.stage) (λ key. run.new ≡ after_answer key (option_copied value.entry) origin.now run.old)) }
    ensures err { OnErr result (run.new ≡ run.old) }
{
    let origin = origin.copy()?;
    run.answer_lent(LentValue::of_stored(value), origin)
}

/// Continues a run that goes on, until it asks for a key or has ended.
pub(crate) fn go(progress: Progress, spare: &mut SpareRun) -> Progress
    ensures given { run_given result ≡ run_given progress }
    ensures stalled { IsStalled result }
{
    match progress {
        Progress::Running(run) => go_on(run, spare),
        other => other,
    }
}

/// Continues a run until it asks for a key or has ended.
fn go_on(run: Run, spare: &mut SpareRun) -> Progress
    ensures given { run_given result ≡ Some (run.call, run.answers) }
    ensures stalled { IsStalled result }
{
    let mut run = run;
    let Ok(pause) = run.go() else {
        return Progress::Running(run);
    };
    let Pause::Ask(key) = pause else {
        return Progress::Ended(run.finish_in(spare));
    };
    Progress::Asking(AskingRun { run, key })
}

/// Makes a run that has ended ready to be recorded.
pub(crate) fn get_ready(alloc: Global, progress: Progress) -> Progress
    ensures given { run_given result ≡ run_given progress }
    ensures stalled { IsStalled progress → IsStalled result }
{
    match progress {
        Progress::Ended(run) => make_ready(alloc, run),
        other => other,
    }
}

/// Makes a run ready to be recorded.
fn make_ready(alloc: Global, run: EndedRun) -> Progress
    ensures given { run_given result ≡ Some (run.call, run.answers.items) }
    ensures stalled { IsStalled result }
{
    match reads_made(alloc, &run) {
        Ok(reads) => Progress::Ready(ReadyRun {
            ready: ReadyRecord::of(run, reads),
        }),
        Err(AllocError) => Progress::Ended(run),
    }
}
