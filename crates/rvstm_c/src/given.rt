//! The answer to the last request of a session.

ghost use Rattle.std.specs.Prelude.{◌≡◌};
ghost use Rattle.session_turns.specs.Replies.{answer_bytes};
ghost use Rattle.session_turns.specs.Turn.{last_reply};
ghost use Rattle.rvstm_c.specs.Given.{bytes_given, status_given};
ghost use Rattle.rvstm_c.specs.Statuses.{status_of};

use crate::session::EmbeddedSession;
use crate::status::{DONE, FAILED, REFUSED};
use session_turns::{Answer, KeptAnswer, State, bytes_of_kept};

/// The answer to the last request of a session.
#[derive(Drop)]
pub enum Given {
    /// A request that a line may have. Its answer is in memory.
    Answered(Answer),
    /// No answer of a session: no line has such a form. The request is refused, and changed nothing.
    BadLine,
}

/// What the call returns whose answer this is.
pub(crate) fn status_of(state: &State, given: &Given) -> u32
    ensures { result ≡ status_given state.now given.now }
{
    match given {
        Given::Answered(Answer::Done(_) | Answer::Storage(_)) => DONE,
        Given::Answered(Answer::Last) => status_of_last(&state.last),
        Given::Answered(Answer::Refused(_)) | Given::BadLine => REFUSED,
        Given::Answered(Answer::Failed(_)) => FAILED,
    }
}

/// The same for the answer that is kept of a frame.
fn status_of_last(last: &Option<KeptAnswer>) -> u32
    ensures { result ≡ status_of (last_reply last.now) }
{
    match last {
        Some(kept) => match kept.refusal {
            Some(_) => REFUSED,
            None => DONE,
        },
        None => REFUSED,
    }
}

/// The bytes after the line of the answer.
pub(crate) fn bytes_of(session: &EmbeddedSession) -> &[u8]
    ensures { result.now ≡ bytes_given session.now.state session.now.given }
{
    match &session.given {
        Given::Answered(Answer::Done(bytes)) => bytes.as_slice(),
        Given::Answered(Answer::Last) => bytes_of_last(&session.state.last),
        Given::Answered(Answer::Storage(_)) => unreachable!(),
        Given::Answered(Answer::Refused(_) | Answer::Failed(_)) | Given::BadLine => &[],
    }
}

/// The same for the answer that is kept of a frame.
fn bytes_of_last(last: &Option<KeptAnswer>) -> &[u8]
    ensures { result.now ≡ answer_bytes (last_reply last.now) }
{
    match last {
        Some(kept) => bytes_of_kept(kept),
        None => &[],
    }
}
