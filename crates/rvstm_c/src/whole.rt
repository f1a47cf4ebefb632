//! Answers whose bytes are in memory.

ghost use Rattle.std.specs.Prelude.{◌≡◌, IfOk, true};
ghost use Rattle.session_turns.specs.Telling.{dump_text};
ghost use Rattle.rvstm_c.specs.Given.{IsMadeWhole, is_in_memory};
ghost use Rattle.rvstm_c.specs.declared.given.Given.TheVariants.{Answered};

use byte_streams::WriteFault;
use rv_ledger::{Rules, Store};
use session_turns::{Answer, EmptyBuffer, Failure, State, dump_length, write_dump};
use std::alloc::{AllocError, Global};

/// An answer with its bytes in memory: that of a storage becomes a text. Fails if memory for that runs out.
pub(crate) fn made_whole(alloc: Global, state: &State, answer: Answer) -> Answer
    ensures memory { is_in_memory (Answered result) ≡ true }
    ensures same { IsMadeWhole state.now answer result }
{
    match answer {
        Answer::Storage(buffer) => {
            match text_of_storage(alloc, buffer, state.rules, &state.store) {
                Ok(text) => Answer::Done(text),
                Err(AllocError) => Answer::Failed(Failure::Answer),
            }
        }
        Answer::Done(bytes) => Answer::Done(bytes),
        Answer::Last => Answer::Last,
        Answer::Refused(refusal) => Answer::Refused(refusal),
        Answer::Failed(failure) => Answer::Failed(failure),
    }
}

/// The text of a storage. Refused if memory ran out.
fn text_of_storage(
    alloc: Global,
    buffer: EmptyBuffer,
    rules: Rules,
    store: &Store,
) -> Result<Vec<u8>, AllocError>
    ensures { IfOk result (λ text. text.items ≡ dump_text rules store.now) }
{
    let Ok(length) = usize::try_from(dump_length(rules, store)) else {
        return Err(AllocError);
    };
    let mut text = Vec::with_capacity(alloc, length)?;
    match write_dump(buffer, rules, store, &mut text) {
        Ok(()) => Ok(text),
        Err(WriteFault::Io | WriteFault::WroteNothing | WriteFault::Memory) => Err(AllocError),
    }
}
