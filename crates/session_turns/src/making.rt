//! Making what is pending.

ghost use Rattle.std.specs.Prelude.{◌≡◌};
ghost use Rattle.session_turns.specs.Pending.{HasRoomFor, HasRoomForLeft, HasRoomForRun, IsPendingMade, turn_of};
ghost use Rattle.session_turns.specs.Ready.{left_without, store_without, without_room};
ghost use Rattle.session_turns.specs.Stages.{left_of};
ghost use Rattle.session_turns.specs.declared.pending.Pending.TheVariants as pending;

use crate::answer::Answer;
use crate::pending::{Pending, PendingBegin, PendingFrame, PendingRun};
use crate::run::Left;
use crate::state::State;
use overlay::make as make_changes;
use rv_ledger::Key;
use std::alloc::Global;

/// Makes what is pending, for which these keys were put in, and answers it. Takes no memory.
pub(crate) fn make_pending(
    alloc: Global,
    state: &mut State,
    pending: Pending,
    keys: &Option<Vec<Key>>,
) -> Answer
    requires { HasRoomFor (without_room pending keys.now state.old) pending keys.now state.old }
    ensures { IsPendingMade (without_room pending keys.now state.old) pending result state.new }
{
    match pending {
        Pending::Nothing(answer) => answer,
        Pending::Program(_, _, text) => Answer::Done(text),
        Pending::Forget(name) => {
            state.programs.remove(&name);
            Answer::Done(Vec::new(alloc))
        }
        Pending::Frame(frame) => make_frame(state, frame, keys),
        Pending::Begin(begin) => make_begin(alloc, state, begin),
    }
}

/// Counts a frame, and makes what its run leaves.
pub(crate) fn make_frame(state: &mut State, frame: PendingFrame, keys: &Option<Vec<Key>>) -> Answer
    requires { HasRoomForRun (store_without frame.run keys.now state.old.store) frame.run keys.now state.old.store }
    ensures answer { result ≡ Answer.Last }
    ensures state { state.new ≡ (turn_of (record state.old { store = store_without frame.run keys.now state.old.store }) (pending.Frame frame)).after }
{
    let PendingFrame {
        run,
        height,
        digest,
        answer,
    } = frame;
    match run {
        Some(run) => make_run(state, run, keys),
        None => {}
    }
    state.height = height;
    state.digest = digest;
    state.last = Some(answer);
    Answer::Last
}

/// Makes what a run leaves.
fn make_run(state: &mut State, run: PendingRun, _keys: &Option<Vec<Key>>)
    requires { HasRoomForLeft (left_without run.left _keys.now state.old.store) run.left _keys.now state.old.store }
    ensures { state.new ≡ record state.old { store = left_of (left_without run.left _keys.now state.old.store) run.left; rules = run.rules } }
{
    let PendingRun { left, rules } = run;
    match left {
        Left::Changed(changes) => make_changes(&mut state.store, changes),
        Left::Begun(begun) => state.store = begun,
    }
    state.rules = rules;
}

/// Continues from another storage.
pub(crate) fn make_begin(alloc: Global, state: &mut State, begin: PendingBegin) -> Answer
    ensures { IsPendingMade state.old (pending.Begin begin) result state.new }
{
    let PendingBegin {
        store,
        rules,
        height,
        digest,
    } = begin;
    state.store = store;
    state.rules = rules;
    state.height = height;
    state.digest = digest;
    state.last = None;
    Answer::Done(Vec::new(alloc))
}
