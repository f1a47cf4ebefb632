//! The turns of the requests that have bytes after their line. The bytes are lent.

ghost use Rattle.std.specs.Prelude.{◌≡◌};
ghost use Rattle.session_requests.specs.Requests.{Begin, Frame, Program, Try};
ghost use Rattle.session_turns.specs.Stages.{IsTurn};
ghost use Rattle.session_turns.specs.declared.settings.Settings.{Settings};

use crate::answer::Answer;
use crate::begin::begin;
use crate::frame::{frame, try_frame};
use crate::handed_in::hand_in;
use crate::ready::take_pending;
use crate::runner::CallRunner;
use crate::settings::Settings;
use crate::state::State;
use std::alloc::Global;

/// Loads the program of a file, as `take_turn` does.
pub fn take_program(alloc: Global, state: &mut State, file: &[u8]) -> Answer
    ensures { (settings : Settings) → IsTurn settings state.old (Program file.now) result state.new }
{
    let pending = hand_in(alloc, state, file);
    take_pending(alloc, state, pending)
}

/// Runs a frame and keeps what it leaves, as `take_turn` does.
pub fn take_frame<C: CallRunner>(
    alloc: Global,
    runner: &mut C,
    settings: Settings,
    state: &mut State,
    bytes: &[u8],
) -> Answer
    requires ready { C.ready }
    ensures { IsTurn settings state.old (Frame bytes.now) result state.new }
{
    let pending = frame(alloc, runner, settings, state, bytes);
    take_pending(alloc, state, pending)
}

/// Runs a frame and keeps nothing of it, as `take_turn` does.
pub fn take_try<C: CallRunner>(
    alloc: Global,
    runner: &mut C,
    settings: Settings,
    state: &State,
    bytes: &[u8],
) -> Answer
    requires ready { C.ready }
    ensures { IsTurn settings state.now (Try bytes.now) result state.now }
{
    try_frame(alloc, runner, settings, state, bytes)
}

/// Puts the storage of a text in the place of the session's, as `take_turn` does.
pub fn take_begin(
    alloc: Global,
    state: &mut State,
    height: u64,
    digest: Option<[u8; 32]>,
    bytes: &[u8],
) -> Answer
    ensures { (settings : Settings) → IsTurn settings state.old (Begin height digest bytes.now) result state.new }
{
    let pending = begin(alloc, state, height, digest, bytes);
    take_pending(alloc, state, pending)
}
