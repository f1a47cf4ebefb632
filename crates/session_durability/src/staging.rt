//! Staging what is pending.

ghost use Rattle.std.specs.Prelude.{◌≡◌, ℕ, List, Option, IsSome, map};
ghost use Rattle.overlay.specs.Overlay.{Changes};
ghost use Rattle.rv_ledger.specs.Key.{Storage};
ghost use Rattle.session_file.specs.Kept.{Kept};
ghost use Rattle.session_file.specs.Limits.{IsLongAnswer};
ghost use Rattle.session_file.specs.Staging.{GivesUp, StagesKept as StagesAll, StagesIn};
ghost use Rattle.session_states.specs.States.{kept_text};
ghost use Rattle.session_turns.specs.Pending.{after_run_of};
ghost use Rattle.session_turns.specs.Stages.{left_of};
ghost use Rattle.session_turns.specs.declared.pending.Pending.TheVariants as pending;
ghost use Rattle.session_serving.specs.Asking.{IsStorable};
ghost use Rattle.session_durability.specs.Keeping.{StagesPending, StagesRun};

use rv_ledger::Rules;
use session_file::SessionFile;
use session_states::row_of;
use session_turns::{
    KeptAnswer, Left, Pending, PendingBegin, PendingFrame, PendingRun, Settings, State,
    bytes_of_kept, line_of_kept,
};
use sqlite_trees::error::StoreError;
use sqlite_trees::store::Store;

/// Stages what is pending of a request with these bytes after its line. Refused if the store fails. Then nothing is staged.
pub(crate) fn stage<S: Store>(
    file: &mut SessionFile<S>,
    settings: Settings,
    state: &State,
    body: &[u8],
    pending: &Pending,
) -> Result<(), StoreError>
    requires { IsStorable body.now pending.now }
    ensures { StagesPending S.Store settings state.now pending.now file.old file.new result }
{
    match pending {
        Pending::Nothing(_) => Ok(()),
        Pending::Program(name, _, _) => file.stage_program(name, body),
        Pending::Forget(name) => file.stage_no_program(name),
        Pending::Frame(frame) => stage_frame(file, settings, state, frame),
        Pending::Begin(begin) => stage_begin(file, settings, state, begin),
    }
}

/// Stages a frame that counts. A session over a file keeps a digest.
fn stage_frame<S: Store>(
    file: &mut SessionFile<S>,
    settings: Settings,
    state: &State,
    frame: &PendingFrame,
) -> Result<(), StoreError>
    ensures { StagesPending S.Store settings state.now (pending.Frame frame.now) file.old file.new result }
{
    let Some(digest) = frame.digest else {
        return Err(StoreError::Unstorable);
    };
    stage_run(file, &state.store, &frame.run)?;
    let rules = rules_after(state.rules, &frame.run);
    file.stage_session(row_of(settings, rules, frame.height, digest))?;
    stage_kept(file, &frame.answer)
}

/// Stages the answer that is kept of a frame.
fn stage_kept<S: Store>(file: &mut SessionFile<S>, kept: &KeptAnswer) -> Result<(), StoreError>
    ensures { StagesIn S.Store (StagesAll (λ next. record next { answer = Some (kept_text kept.now) })) GivesUp (IsLongAnswer (kept_text kept.now)) file.old file.new result }
{
    let line = line_of_kept(kept);
    file.stage_answer(line.as_str().as_bytes(), bytes_of_kept(kept))
}

/// The rules after a frame.
fn rules_after(rules: Rules, run: &Option<PendingRun>) -> Rules
    ensures { (s : State) → s.rules ≡ rules → result ≡ (after_run_of s run.now).rules }
{
    match run {
        Some(run) => run.rules,
        None => rules,
    }
}

/// Stages what a run leaves of a storage, if there was one.
fn stage_run<S: Store>(
    file: &mut SessionFile<S>,
    base: &rv_ledger::Store,
    run: &Option<PendingRun>,
) -> Result<(), StoreError>
    ensures { StagesIn S.Store (StagesRun base.now run.now) GivesUp ⊥ file.old file.new result }
{
    let Some(run) = run else {
        return Ok(());
    };
    match &run.left {
        Left::Changed(changes) => file.stage_changes(base, changes),
        Left::Begun(storage) => file.stage_storage(base, storage),
    }
}

/// Stages a session that begins again. A session over a file keeps a digest.
fn stage_begin<S: Store>(
    file: &mut SessionFile<S>,
    settings: Settings,
    state: &State,
    begin: &PendingBegin,
) -> Result<(), StoreError>
    ensures { StagesPending S.Store settings state.now (pending.Begin begin.now) file.old file.new result }
{
    let Some(digest) = begin.digest else {
        return Err(StoreError::Unstorable);
    };
    file.stage_storage(&state.store, &begin.store)?;
    file.stage_session(row_of(settings, begin.rules, begin.height, digest))?;
    file.stage_no_answer()
}
