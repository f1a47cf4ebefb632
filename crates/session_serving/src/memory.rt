//! A session in memory.

ghost use Rattle.session_turns.specs.Failures.{IsAnswer};
ghost use Rattle.session_turns.specs.Replies.{turn_reply_text};
ghost use Rattle.session_turns.specs.Stages.{reply_in};

use crate::session::Session;
use crate::writing::write_answer;
use byte_streams::{Destination, WriteFault};
use session_turns::{Answer, Pending, Settings, State, take_pending};
use std::alloc::Global;
use std::convert::Infallible;

/// Only memory keeps it, and nothing shuts it.
impl Session for State {
    type Reply = Answer;

    type Fault = Infallible;

    ghost state = { λ s. s };

    ghost is_kept = { λ _ _. Unit {0} };

    ghost is_open = { λ _. Unit {0} };

    ghost answers = { IsAnswer };

    ghost shuts = { λ _ _ _ _ _. ⊥ };

    ghost leaves = { λ _ _ _ _. Unit {0} };

    ghost text_of = { λ s answer. turn_reply_text (reply_in s answer) };

    ghost settled = { λ _ _ _ _ _. tt };

    fn state(&self) -> &State {
        self
    }

    fn last(&self) -> Answer {
        Answer::Last
    }

    fn keep(
        &mut self,
        alloc: Global,
        _settings: Settings,
        _body: &[u8],
        pending: Pending,
    ) -> Result<Answer, Infallible> {
        Ok(take_pending(alloc, self, pending))
    }

    fn write<W: Destination>(&self, reply: Answer, out: &mut W) -> Result<(), WriteFault> {
        write_answer(self, reply, out)
    }
}
