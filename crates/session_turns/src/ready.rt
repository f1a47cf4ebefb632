//! What is pending, with the room for it.

ghost use Rattle.std.specs.Prelude.{◌≡◌, IfErr, IfOk, OnErr};
ghost use Rattle.session_requests.specs.Requests.{Ask};
ghost use Rattle.session_turns.specs.Pending.{IsNewProgram, IsPending, IsPendingMade, IsPendingTaken, MayWantRoom};
ghost use Rattle.session_turns.specs.Ready.{IsReady, without};
ghost use Rattle.session_turns.specs.Stages.{IsTurn};
ghost use Rattle.session_turns.specs.declared.settings.Settings.{Settings};

use crate::answer::Answer;
use crate::making::make_pending;
use crate::pending::Pending;
use crate::refusal::Failure;
use crate::room::{give_back_run, make_room};
use crate::state::State;
use rv_ledger::Key;
use std::alloc::Global;

/// What is pending of a state that has the room for it: all the memory that making it takes.
#[derive(Drop)]
pub struct Ready {
    /// What is pending.
    pub pending: Pending,
    keys: Option<Vec<Key>>,
}

/// Makes the room that what is pending needs, so that making it takes no memory. Fails if memory runs out, and then nothing
/// changes. The room of a program is its place in the table, so the program is put there already.
pub fn make_ready(state: &mut State, pending: Pending) -> Result<Ready, Failure>
    requires { IsNewProgram state.old pending }
    ensures ready { IfOk result (λ ready. IsReady ready state.new) }
    ensures before { IfOk result (λ ready. without ready state.new ≡ state.old) }
    ensures pending { IfOk result (λ ready. ready.pending ≡ pending) }
    ensures err { OnErr result (state.new ≡ state.old) }
    ensures failure { IfErr result (MayWantRoom pending) }
{
    match make_room(state, &pending) {
        Ok(keys) => Ok(Ready { pending, keys }),
        Err(failure) => Err(failure),
    }
}

impl Ready {
    /// Makes what is pending, and answers it. Takes no memory.
    pub fn make(self, alloc: Global, state: &mut State) -> Answer
        requires { IsReady self state.old }
        ensures { IsPendingMade (without self state.old) self.pending result state.new }
    {
        let Ready { pending, keys } = self;
        make_pending(alloc, state, pending, &keys)
    }

    /// Frees the room: the state is as it was before.
    pub fn give_back(self, state: &mut State)
        ensures { IsReady self state.old → state.new ≡ without self state.old }
    {
        let Ready { pending, keys } = self;
        match pending {
            Pending::Program(name, _, _) => state.programs.remove(&name),
            Pending::Frame(frame) => give_back_run(&mut state.store, &frame.run, keys),
            _ => {}
        }
    }
}

/// Makes the room for what is pending, then makes what is pending. Fails if memory for the room runs out, and then nothing
/// changes.
pub fn take_pending(alloc: Global, state: &mut State, pending: Pending) -> Answer
    requires { IsNewProgram state.old pending }
    ensures taken { IsPendingTaken state.old pending result state.new }
    ensures turn { (settings : Settings) (ask : Ask) → IsPending settings state.old ask pending → IsTurn settings state.old ask result state.new }
{
    match make_ready(state, pending) {
        Ok(ready) => ready.make(alloc, state),
        Err(failure) => Answer::Failed(failure),
    }
}
