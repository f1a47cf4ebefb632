//! The turn of a request.

ghost use Rattle.std.specs.Prelude.{◌≡◌, ◌<◌, IfOk, List, OnErr, false, length, true, ℕ};
ghost use Rattle.session_requests.specs.Reading.{ask_of, is_too_long};
ghost use Rattle.session_requests.specs.Requests.{Dump, body_length, with_body};
ghost use Rattle.session_turns.specs.Pending.{IsPendingDue, IsPending, IsPendingRefusal, IsReadRequest, IsUndone};
ghost use Rattle.session_turns.specs.Stages.{IsRequestAnswered, IsTurn};
ghost use Rattle.session_turns.specs.Turn.{last_reply, told};
ghost use Rattle.session_turns.specs.declared.settings.Settings.{Settings};

use crate::answer::Answer;
use crate::begin::begin;
use crate::bodies::take_try;
use crate::dump::EmptyBuffer;
use crate::frame::{frame, long_frame, long_try, unkept_frame};
use crate::handed_in::{forget, hand_in, names};
use crate::pending::Pending;
use crate::ready::take_pending;
use crate::refusal::{Failure, FrameRefusal};
use crate::runner::CallRunner;
use crate::settings::Settings;
use crate::state::State;
use crate::telling::{content, listed, state_text};
use rv_ledger::Key;
use session_requests::{Request, RequestLine};
use std::alloc::{AllocError, Global};

/// Does what a request asks for, and answers it. A request that is refused or fails changes nothing, except that a refused frame
/// counts, unless as TooHigh.
pub fn take_turn<C: CallRunner>(
    alloc: Global,
    runner: &mut C,
    settings: Settings,
    state: &mut State,
    request: &Request,
) -> Answer
    requires ready { C.ready }
    ensures { IsTurn settings state.old (ask_of request.now) result state.new }
{
    let pending = pending_turn(alloc, runner, settings, state, request);
    take_pending(alloc, state, pending)
}

/// What a request asks for, with its answer, before the change is made: the state is as it was.
pub fn pending_turn<C: CallRunner>(
    alloc: Global,
    runner: &mut C,
    settings: Settings,
    state: &State,
    request: &Request,
) -> Pending
    requires ready { C.ready }
    ensures pending { IsPending settings state.now (ask_of request.now) result }
    ensures due { IsPendingDue state.now (ask_of request.now) result }
{
    match request {
        Request::Program(file) => hand_in(alloc, state, file.as_slice()),
        Request::Forget(name) => forget(state, Key::new(*name)),
        Request::Frame(bytes) => frame(alloc, runner, settings, state, bytes.as_slice()),
        Request::Try(bytes) => Pending::Nothing(take_try(
            alloc,
            runner,
            settings,
            state,
            bytes.as_slice(),
        )),
        Request::Begin(height, digest, bytes) => begin(
            alloc,
            state,
            *height,
            *digest,
            bytes.as_slice(),
        ),
        other => Pending::Nothing(told(alloc, settings, state, other)),
    }
}

/// The answer to a request that only reads the state.
fn told(alloc: Global, settings: Settings, state: &State, request: &Request) -> Answer
    requires { IsReadRequest (ask_of request.now) }
    ensures { IsTurn settings state.now (ask_of request.now) result state.now }
{
    match request {
        Request::Programs => text_answer(names(alloc, &state.programs)),
        Request::Last => last(state),
        Request::Get(key) => text_answer(content(alloc, &state.store, &Key::new(*key))),
        Request::List(from, count) => {
            text_answer(listed(alloc, &state.store, &Key::new(*from), *count))
        }
        Request::Dump => dump(alloc, state),
        Request::State => text_answer(state_text(alloc, settings, state)),
        _ => Answer::Done(Vec::new(alloc)),
    }
}

/// The answer that a text is.
fn text_answer(text: Result<Vec<u8>, AllocError>) -> Answer
    ensures ok { IfOk text (λ bytes. result ≡ Answer.Done bytes) }
    ensures err { OnErr text (result ≡ Answer.Failed Failure.Answer) }
{
    match text {
        Ok(text) => Answer::Done(text),
        Err(AllocError) => Answer::Failed(Failure::Answer),
    }
}

/// The answer that is the text of the storage. Fails if memory for its buffer runs out.
fn dump(alloc: Global, state: &State) -> Answer
    ensures { (settings : Settings) → IsTurn settings state.now Dump result state.now }
{
    match EmptyBuffer::new(alloc) {
        Ok(buffer) => Answer::Storage(buffer),
        Err(AllocError) => Answer::Failed(Failure::Answer),
    }
}

/// The last answer again. Refused before the first one.
fn last(state: &State) -> Answer
    ensures { IsRequestAnswered (λ _. ⊥) state.now (told state.now (last_reply state.now.last)) result state.now }
{
    match state.last {
        Some(_) => Answer::Last,
        None => Answer::Refused(FrameRefusal::NoFrame),
    }
}

/// What is pending of a request with more bytes after its line than it may have. The bytes were passed over. The request is
/// refused, and a frame counts, unless it is refused as TooHigh.
pub fn pending_long(alloc: Global, state: &State, line: RequestLine) -> Pending
    ensures pending { (settings : Settings) (bytes : List ℕ) → length bytes ≡ body_length line → is_too_long settings.frame_limit line ≡ true
        → IsPending settings state.now (with_body line bytes) result }
    ensures refusal { IsPendingRefusal result }
    ensures due { (bytes : List ℕ) → IsPendingDue state.now (with_body line bytes) result }
{
    match line {
        RequestLine::Frame(_) => long_frame(alloc, state),
        RequestLine::Try(_) => Pending::Nothing(Answer::Refused(long_try(state))),
        _ => Pending::Nothing(Answer::Refused(FrameRefusal::FileTooLong)),
    }
}

/// Answers a request if memory for its bytes ran out. The bytes were passed over. Nothing changes.
pub fn fail_unkept(state: &State, line: RequestLine) -> Answer
    ensures turn { (settings : Settings) (bytes : List ℕ) → length bytes ≡ body_length line → is_too_long settings.frame_limit line ≡ false → 0 < body_length line
        → IsTurn settings state.now (with_body line bytes) result state.now }
    ensures undone { IsUndone result }
{
    match line {
        RequestLine::Frame(_) | RequestLine::Try(_) => unkept_frame(state),
        RequestLine::Program(_) => Answer::Failed(Failure::Program),
        _ => Answer::Failed(Failure::Block),
    }
}
