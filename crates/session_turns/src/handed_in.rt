//! Programs that are handed in, forgotten and named.

ghost use Rattle.std.specs.Prelude.{◌≡◌, ◌∷◌, [], Err, IfErr, IfOk, false, map};
ghost use Rattle.std.specs.Arc.{arc_value};
ghost use Rattle.std.specs.FinMap as fin;
ghost use Rattle.std.specs.Option.{option_map};
ghost use Rattle.elf32.specs.Image.{Gives, image_of};
ghost use Rattle.receipts.specs.Buffer.{Appended};
ghost use Rattle.session_requests.specs.Requests.{Forget, Program};
ghost use Rattle.session_turns.specs.Pending.{IsPending};
ghost use Rattle.session_turns.specs.Stages.{IsLoaded};
ghost use Rattle.session_turns.specs.Telling.{names_text};
ghost use Rattle.session_turns.specs.declared.settings.Settings.{Settings};

use crate::answer::Answer;
use crate::pending::Pending;
use crate::program_table::ProgramTable;
use crate::refusal::{Failure, FrameRefusal};
use crate::state::State;
use crate::texts::finished;
use byte_streams::Destination;
use elf32::{ElfError, Image};
use programs::{FILE_LIMIT, load_image};
use receipts::{TextBuffer, push_key};
use rv_ledger::Key;
use sha2::{Digest, Sha256};
use std::alloc::{AllocError, Global};
use std::sync::Arc;

/// A program that will be put under its name, the SHA-256 of its file. The answer is the name. A program that is here is not
/// loaded again. Refused if the file has more than 131,072 bytes or is no program.
pub(crate) fn hand_in(alloc: Global, state: &State, file: &[u8]) -> Pending
    ensures { (settings : Settings) → IsPending settings state.now (Program file.now) result }
{
    if file.len() > FILE_LIMIT {
        return Pending::Nothing(Answer::Refused(FrameRefusal::FileTooLong));
    }
    let name = Key::new(Sha256::digest(file));
    let loaded = match loaded(alloc, &state.programs, &name, file) {
        Ok(loaded) => loaded,
        Err(ElfError::Memory) => return Pending::Nothing(Answer::Failed(Failure::Program)),
        Err(fault) => return Pending::Nothing(Answer::Refused(FrameRefusal::Elf(fault))),
    };
    let text = match name_line(alloc, &name) {
        Ok(text) => text,
        Err(AllocError) => return Pending::Nothing(Answer::Failed(Failure::Answer)),
    };
    match loaded {
        Some(image) => Pending::Program(name, image, text),
        None => Pending::Nothing(Answer::Done(text)),
    }
}

/// The program of a file, or None if a program of its name is here already. Refused by the fault of the file if there is none,
/// or as Memory if the file is a program and memory for it ran out.
fn loaded(
    alloc: Global,
    programs: &ProgramTable,
    name: &Key,
    file: &[u8],
) -> Result<Option<Arc<Image>>, ElfError>
    ensures says { IfOk result (λ image. IsLoaded programs.now name.now file.now (option_map arc_value image)) }
    ensures err { IfErr result (λ fault. (fin.contains_key programs.now name.now ≡ false) × Gives (Err fault) (image_of file.now)) }
{
    if programs.get(name).is_some() {
        return Ok(None);
    }
    Ok(Some(load_image(alloc, file)?))
}

/// A program that will be removed. Refused if no program of that name is here.
pub(crate) fn forget(state: &State, name: Key) -> Pending
    ensures { (settings : Settings) → IsPending settings state.now (Forget name) result }
{
    match state.programs.get(&name) {
        Some(_) => Pending::Forget(name),
        None => Pending::Nothing(Answer::Refused(FrameRefusal::NoProgram)),
    }
}

/// The names of the programs that are here, ascending, a line each.
pub(crate) fn names(alloc: Global, programs: &ProgramTable) -> Result<Vec<u8>, AllocError>
    ensures { IfOk result (λ text. text.items ≡ names_text (map (λ e. e.0) (fin.entries programs.now))) }
{
    let mut waiting = TextBuffer::new(alloc)?;
    let mut text = Vec::new(alloc);
    push_names(&mut waiting, programs, &mut text);
    finished(waiting, text)
}

/// Appends the names, ascending, a line each.
fn push_names<W: Destination>(text: &mut TextBuffer, programs: &ProgramTable, out: &mut W)
    ensures { Appended W.Destination text.old out.old text.new out.new (names_text (map (λ e. e.0) (fin.entries programs.now))) }
{
    for (name, _) in programs.iter() {
        push_name(text, name, out);
    }
}

/// The line of a name.
fn name_line(alloc: Global, name: &Key) -> Result<Vec<u8>, AllocError>
    ensures { IfOk result (λ text. text.items ≡ names_text (name.now ∷ [])) }
{
    let mut waiting = TextBuffer::new(alloc)?;
    let mut text = Vec::new(alloc);
    push_name(&mut waiting, name, &mut text);
    finished(waiting, text)
}

/// Appends the line of a name.
fn push_name<W: Destination>(text: &mut TextBuffer, name: &Key, out: &mut W)
    ensures { Appended W.Destination text.old out.old text.new out.new (names_text (name.now ∷ [])) }
{
    push_key(text, name.bytes(), out);
    text.push(b"\n", out);
}
