//! What a session over a file answers.

ghost use Rattle.std.specs.Option.{option_map};
ghost use Rattle.session_serving.specs.Writing.{PrintsText};
ghost use Rattle.session_file.specs.Opening.{answer_parts};
ghost use Rattle.session_states.specs.States.{last_of};
ghost use Rattle.session_durability.specs.Durable.{last_text};
ghost use Rattle.session_durability.specs.Keeping.{reply_text};

use crate::session::FileSession;
use byte_streams::{Destination, WriteFault, refusal_line};
use session_serving::{write_answer, write_both};
use session_states::StoreFault;
use session_turns::{Answer, FrameRefusal};
use sqlite_trees::store::Store;

/// What a request is answered.
#[derive(Drop)]
pub enum FileReply {
    /// As its turn says.
    Turn(Answer),
    /// By the last answer.
    Last,
    /// The file did not take what it changes.
    Failed(StoreFault),
}

/// Writes an answer in the session that it leaves, and flushes it. Refused if a write failed; a beginning of the answer was written.
pub(crate) fn write_reply<S: Store, W: Destination>(
    session: &FileSession<S>,
    reply: FileReply,
    out: &mut W,
) -> Result<(), WriteFault>
    ensures { PrintsText W.Destination result out.old out.new (reply_text session.now.state session.now.found reply) }
{
    match reply {
        FileReply::Turn(answer) => write_answer(&session.state, answer, out),
        FileReply::Last => print_last(session, out),
        FileReply::Failed(fault) => {
            let line = refusal_line("failed ", fault.parts());
            write_both(line.as_str().as_bytes(), &[], out)
        }
    }
}

/// Writes the last answer: that of this run, or the one that was found in the file, or the refusal if there is none.
fn print_last<S: Store, W: Destination>(
    session: &FileSession<S>,
    out: &mut W,
) -> Result<(), WriteFault>
    ensures { PrintsText W.Destination result out.old out.new (last_text (last_of session.now.state.last (option_map answer_parts session.now.found))) }
{
    match &session.state.last {
        Some(_) => write_answer(&session.state, Answer::Last, out),
        None => match &session.found {
            Some(found) => write_both(found.line.as_slice(), found.bytes.as_slice(), out),
            None => {
                let none = Answer::Refused(FrameRefusal::NoFrame);
                write_answer(&session.state, none, out)
            }
        },
    }
}
