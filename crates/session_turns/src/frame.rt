//! Frames that are run, and those that are only tried.

ghost use Rattle.std.specs.Prelude.{◌≡◌, ◌<◌, ◌⊎◌, IfErr, IfOk, nat_le, if◌then◌else◌};
ghost use Rattle.rv_ledger.specs.Height.{greatest_height};
ghost use Rattle.session_requests.specs.Requests.{Frame};
ghost use Rattle.session_turns.specs.Failures.{MayFailFrame};
ghost use Rattle.session_turns.specs.Pending.{IsPendingDue, IsPending, counting, long_frame, stopped_frame};
ghost use Rattle.session_turns.specs.Replies.{Refused, done_answer};
ghost use Rattle.session_turns.specs.Stages.{StageGives, FailsOnlyWhere, IsRequestAnswered, IsRan, accepted_value};
ghost use Rattle.session_turns.specs.Turn.{accepted, refused_frame, try_turn};

use crate::accepting::accepted;
use crate::answer::Answer;
use crate::digest::next_digest;
use crate::kept::{KeptAnswer, KeptBytes};
use crate::pending::{Pending, PendingFrame, PendingRun};
use crate::refusal::{Failure, FrameRefusal};
use crate::run::{Left, run_beside};
use crate::runner::CallRunner;
use crate::settings::Settings;
use crate::stages::{AcceptedFrame, Stop};
use crate::state::State;
use block_file::BlockText;
use programs::calls_over;
use rv_ledger::{GREATEST_HEIGHT, Rules};
use std::alloc::{AllocError, Global};

/// What a frame that ran gives: the text of its receipts, its rules, and what it leaves.
type Ran = (Vec<u8>, Rules, Left);

/// Runs a frame beside the session, and returns what will change. A frame that is done or refused counts, and its answer is kept
/// as the session's last one. Nothing changes if the frame fails, or is refused as TooHigh.
pub(crate) fn frame<C: CallRunner>(
    alloc: Global,
    runner: &mut C,
    settings: Settings,
    state: &State,
    bytes: &[u8],
) -> Pending
    requires ready { C.ready }
    ensures pending { IsPending settings state.now (Frame bytes.now) result }
    ensures due { IsPendingDue state.now (Frame bytes.now) result }
{
    if state.height >= GREATEST_HEIGHT {
        return Pending::Nothing(Answer::Refused(FrameRefusal::TooHigh));
    }
    match ran(alloc, runner, settings, state, bytes) {
        Ok(ran) => kept_frame(state, ran),
        Err(stop) => stopped_frame(alloc, state, stop),
    }
}

/// Runs a frame beside the session and answers it. Nothing changes.
pub(crate) fn try_frame<C: CallRunner>(
    alloc: Global,
    runner: &mut C,
    settings: Settings,
    state: &State,
    bytes: &[u8],
) -> Answer
    requires ready { C.ready }
    ensures { IsRequestAnswered (λ failure. (state.now.height < greatest_height) × MayFailFrame settings state.now bytes.now failure) state.now (try_turn settings state.now bytes.now) result state.now }
{
    if state.height >= GREATEST_HEIGHT {
        return Answer::Refused(FrameRefusal::TooHigh);
    }
    match ran(alloc, runner, settings, state, bytes) {
        Ok((text, _, left)) => {
            drop(left);
            Answer::Done(text)
        }
        Err(stop) => stop.answer(),
    }
}

/// The text of a frame's receipts, its rules, and what it leaves; or its first fault.
fn ran<C: CallRunner>(
    alloc: Global,
    runner: &mut C,
    settings: Settings,
    state: &State,
    bytes: &[u8],
) -> Result<Ran, Stop>
    requires ready { C.ready }
    ensures says { StageGives (IsRan settings state.now) (accepted settings state.now bytes.now) result }
    ensures fails { FailsOnlyWhere (MayFailFrame settings state.now bytes.now) result }
{
    match accepted(alloc, settings, state, bytes) {
        Ok(frame) => match ran_accepted(alloc, runner, settings, state, frame) {
            Ok(ran) => Ok(ran),
            Err(failure) => Err(Stop::Failed(failure)),
        },
        Err(stop) => Err(stop),
    }
}

/// The same for a frame that may run.
fn ran_accepted<C: CallRunner>(
    alloc: Global,
    runner: &mut C,
    settings: Settings,
    state: &State,
    frame: AcceptedFrame,
) -> Result<Ran, Failure>
    requires ready { C.ready }
    ensures ran { IfOk result (IsRan settings state.now (accepted_value frame)) }
    ensures failure { IfErr result (λ failure. (failure ≡ Failure.Run) ⊎ (failure ≡ Failure.Answer)) }
{
    let AcceptedFrame { block, images } = frame;
    let BlockText {
        rules,
        programs: _,
        store,
        calls,
    } = block;
    let calls = match calls_over(alloc, rules, images.as_slice(), calls) {
        Ok(calls) => calls,
        Err(AllocError) => return Err(Failure::Run),
    };
    match run_beside(
        alloc,
        runner,
        settings.is_brief,
        &state.store,
        store,
        calls.as_slice(),
    ) {
        Ok((text, left)) => Ok((text, rules, left)),
        Err(failure) => Err(failure),
    }
}

/// A frame that ran: it will count, and what it leaves will be made.
fn kept_frame(state: &State, ran: Ran) -> Pending
    requires { state.now.height < greatest_height }
    ensures { result ≡ Pending.Frame (counting state.now (Some (record { left = ran.2; rules = ran.1 })) (done_answer ran.0.items)) }
{
    let (text, rules, left) = ran;
    let run = PendingRun { left, rules };
    counting(state, Some(run), None, KeptBytes::of(text))
}

/// A frame that stopped: it will count if it is refused. If it fails, nothing changes.
fn stopped_frame(alloc: Global, state: &State, stop: Stop) -> Pending
    requires { state.now.height < greatest_height }
    ensures { result ≡ stopped_frame state.now stop }
{
    match stop {
        Stop::Refused(refusal) => counting(state, None, Some(refusal), KeptBytes::none(alloc)),
        Stop::Failed(failure) => Pending::Nothing(Answer::Failed(failure)),
    }
}

/// A frame that will count: the height goes up by one, the digest is continued, and the answer is kept.
fn counting(
    state: &State,
    run: Option<PendingRun>,
    refusal: Option<FrameRefusal>,
    bytes: KeptBytes,
) -> Pending
    requires { state.now.height < greatest_height }
    ensures { result ≡ Pending.Frame (counting state.now run (record { refusal = refusal; bytes = bytes })) }
{
    let answer = KeptAnswer { refusal, bytes };
    Pending::Frame(PendingFrame {
        run,
        height: state.height + 1,
        digest: next_digest(state.digest, &answer),
        answer,
    })
}

/// A frame with more bytes than the settings allow: it will count, unless it is refused as TooHigh.
pub(crate) fn long_frame(alloc: Global, state: &State) -> Pending
    ensures { result ≡ long_frame state.now }
{
    if state.height >= GREATEST_HEIGHT {
        return Pending::Nothing(Answer::Refused(FrameRefusal::TooHigh));
    }
    counting(
        state,
        None,
        Some(FrameRefusal::TooLong),
        KeptBytes::none(alloc),
    )
}

/// Why such a frame is refused if it is only tried.
pub(crate) fn long_try(state: &State) -> FrameRefusal
    ensures { Refused result ≡ (refused_frame state.now FrameRefusal.TooLong).reply }
{
    if state.height >= GREATEST_HEIGHT {
        return FrameRefusal::TooHigh;
    }
    FrameRefusal::TooLong
}

/// The answer to a frame if memory for its bytes ran out.
pub(crate) fn unkept_frame(state: &State) -> Answer
    ensures { result ≡ (if nat_le greatest_height state.now.height then Answer.Refused FrameRefusal.TooHigh else Answer.Failed Failure.Block) }
{
    if state.height >= GREATEST_HEIGHT {
        return Answer::Refused(FrameRefusal::TooHigh);
    }
    Answer::Failed(Failure::Block)
}
