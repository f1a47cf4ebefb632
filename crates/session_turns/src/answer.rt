//! What a request is answered.

ghost use Rattle.std.specs.Prelude.{◌≡◌, ◌++◌, codes};
ghost use Rattle.std.specs.Fmt.{decimal};
ghost use Rattle.session_turns.specs.Replies.{Done, Failed, Refused, answer_bytes, answer_line, kept_reply};

use crate::dump::EmptyBuffer;
use crate::kept::KeptAnswer;
use crate::refusal::{Failure, FrameRefusal};
use arrayvec::ArrayString;
use byte_streams::{LINE_ROOM, refusal_line};

/// What a request is answered.
#[derive(Drop)]
pub enum Answer {
    /// It is done, and these are the answer's bytes.
    Done(Vec<u8>),
    /// What the session keeps as its last answer.
    Last,
    /// It is done, and the answer's bytes are the text of the session's storage, which goes through this buffer.
    Storage(EmptyBuffer),
    /// It is refused.
    Refused(FrameRefusal),
    /// This machine ran out of memory.
    Failed(Failure),
}

/// The line of an answer.
pub type AnswerLine = ArrayString<LINE_ROOM>;

/// The line of an answer of this many bytes.
pub fn done_line(length: u128) -> AnswerLine
    ensures { result.bytes ≡ codes "ok " ++ decimal length ++ codes "\n" }
{
    let mut line = ArrayString::new();
    line.push_str("ok ");
    line.push_str(itoa::Buffer::new().format(length));
    line.push_str("\n");
    line
}

/// The line of a refusal.
pub fn refused_line(refusal: FrameRefusal) -> AnswerLine
    ensures { result.bytes ≡ answer_line (Refused refusal) }
{
    refusal_line("refused ", refusal.parts())
}

/// The line of a failure.
pub fn failed_line(failure: Failure) -> AnswerLine
    ensures { result.bytes ≡ answer_line (Failed failure) }
{
    refusal_line("failed ", failure.parts())
}

/// The line of an answer that is kept.
pub fn line_of_kept(kept: &KeptAnswer) -> AnswerLine
    ensures { result.bytes ≡ answer_line (kept_reply kept.now) }
{
    match kept.refusal {
        Some(refusal) => refused_line(refusal),
        None => done_line(kept.bytes.as_slice().len() as u128),
    }
}

/// The bytes after that line.
pub fn bytes_of_kept(kept: &KeptAnswer) -> &[u8]
    ensures { result.now ≡ answer_bytes (kept_reply kept.now) }
{
    match kept.refusal {
        Some(_) => &[],
        None => kept.bytes.as_slice(),
    }
}
