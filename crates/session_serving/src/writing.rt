//! Writing an answer.

ghost use Rattle.std.specs.Prelude.{◌++◌, IfErr, OnOk, Some};
ghost use Rattle.std.specs.Io.KnownBytes.{Keeps};
ghost use Rattle.byte_streams.specs.Written.{AtMostAs};
ghost use Rattle.session_serving.specs.Serving.{end_text};
ghost use Rattle.session_serving.specs.Writing.{PrintsText};
ghost use Rattle.session_turns.specs.Replies.{Done, turn_reply_text, kept_reply};
ghost use Rattle.session_turns.specs.Stages.{reply_in};
ghost use Rattle.session_turns.specs.Telling.{dump_text};
ghost use Rattle.session_turns.specs.Turn.{last_reply};

use crate::request_parts::parts_of;
use byte_streams::{Destination, WriteFault, refusal_line, write_whole};
use session_requests::RequestFault;
use session_turns::{
    Answer, EmptyBuffer, FrameRefusal, KeptAnswer, State, bytes_of_kept, done_line, dump_length,
    failed_line, line_of_kept, refused_line, write_dump,
};
use std::io;

/// Writes an answer in the state that it leaves, and flushes it. Refused if a write failed: a beginning of the answer was
/// written. Takes no memory.
pub fn write_answer<W: Destination>(
    state: &State,
    answer: Answer,
    out: &mut W,
) -> Result<(), WriteFault>
    ensures { PrintsText W.Destination result out.old out.new (turn_reply_text (reply_in state.now answer)) }
{
    match answer {
        Answer::Done(bytes) => {
            let line = done_line(bytes.len() as u128);
            write_both(line.as_str().as_bytes(), bytes.as_slice(), out)
        }
        Answer::Last => print_last(state, out),
        Answer::Storage(buffer) => print_storage(state, buffer, out),
        Answer::Refused(refusal) => {
            let line = refused_line(refusal);
            print(line.as_str().as_bytes(), out)
        }
        Answer::Failed(failure) => {
            let line = failed_line(failure);
            print(line.as_str().as_bytes(), out)
        }
    }
}

/// Writes the answer that is kept of the last frame, or the refusal if there is none.
fn print_last<W: Destination>(state: &State, out: &mut W) -> Result<(), WriteFault>
    ensures { PrintsText W.Destination result out.old out.new (turn_reply_text (last_reply state.now.last)) }
{
    match &state.last {
        Some(kept) => print_kept(kept, out),
        None => {
            let line = refused_line(FrameRefusal::NoFrame);
            print(line.as_str().as_bytes(), out)
        }
    }
}

/// Writes an answer that is kept.
fn print_kept<W: Destination>(kept: &KeptAnswer, out: &mut W) -> Result<(), WriteFault>
    ensures { PrintsText W.Destination result out.old out.new (turn_reply_text (kept_reply kept.now)) }
{
    let line = line_of_kept(kept);
    write_both(line.as_str().as_bytes(), bytes_of_kept(kept), out)
}

/// Writes the text of the session's storage after a line with its length.
fn print_storage<W: Destination>(
    state: &State,
    buffer: EmptyBuffer,
    out: &mut W,
) -> Result<(), WriteFault>
    ensures { PrintsText W.Destination result out.old out.new (turn_reply_text (Done (dump_text state.now.rules state.now.store))) }
{
    let line = done_line(dump_length(state.rules, &state.store));
    write_whole(line.as_str().as_bytes(), out)?;
    write_dump(buffer, state.rules, &state.store, out)?;
    flush(out)
}

/// Answers bytes that are no request: writes the refusal, and flushes it. Refused if a write failed.
pub(crate) fn print_end<W: Destination>(fault: RequestFault, out: &mut W) -> Result<(), WriteFault>
    ensures { PrintsText W.Destination result out.old out.new (end_text (Some fault)) }
{
    let line = refusal_line("refused ", parts_of(fault));
    print(line.as_str().as_bytes(), out)
}

/// Writes a line and the bytes after it, and flushes them.
pub fn write_both<W: Destination>(line: &[u8], bytes: &[u8], out: &mut W) -> Result<(), WriteFault>
    ensures { PrintsText W.Destination result out.old out.new (line.now ++ bytes.now) }
{
    write_whole(line, out)?;
    print(bytes, out)
}

/// Writes a text and flushes it, so that it is seen before the next request is read.
fn print<W: Destination>(text: &[u8], out: &mut W) -> Result<(), WriteFault>
    ensures { PrintsText W.Destination result out.old out.new text.now }
{
    write_whole(text, out)?;
    flush(out)
}

/// Flushes a writer.
fn flush<W: Destination>(out: &mut W) -> Result<(), WriteFault>
    ensures keeps { Keeps (W.contents out.old) (W.contents out.new) }
    ensures flushed { OnOk result (W.is_flushed out.new) }
    ensures refused { IfErr result (W.may_refuse out.old) }
    ensures no_worse { AtMostAs (W.may_refuse out.new) (W.may_refuse out.old) }
{
    match out.flush_written() {
        Ok(()) => Ok(()),
        Err(io::Error { .. }) => Err(WriteFault::Io),
    }
}
