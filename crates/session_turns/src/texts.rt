//! Texts in memory.

ghost use Rattle.std.specs.Prelude.{IfOk};
ghost use Rattle.session_turns.specs.Stages.{IsFinished};

use byte_streams::WriteFault;
use receipts::TextBuffer;
use std::alloc::AllocError;

/// The whole of a text whose end waits in a buffer. Refused if memory ran out.
pub(crate) fn finished(waiting: TextBuffer, text: Vec<u8>) -> Result<Vec<u8>, AllocError>
    ensures { IfOk result (λ whole. IsFinished waiting text whole) }
{
    let mut text = text;
    match waiting.finish(&mut text) {
        Ok(()) => Ok(text),
        Err(WriteFault::Io | WriteFault::WroteNothing | WriteFault::Memory) => Err(AllocError),
    }
}
