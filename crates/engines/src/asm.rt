//! The engine of `rvstm asm`, over any reader.

ghost use Rattle.std.specs.Prelude.{◌≡◌, Ok, IfErr, IfOk, IfSome, IsUtf8};
ghost use Rattle.engines.specs.Dis.{IsSourceFault, file_of_source};

use crate::fault::{FileFault, Refusal};
use crate::reading::read_text;
use byte_streams::Source;
use rv_text::{AsmCause, AsmError, assemble};
use std::alloc::Global;
use std::str;

/// Want of memory for the bytes of a source or of its file.
pub(crate) const SOURCE_MEMORY: AsmError = AsmError {
    line: 1,
    cause: AsmCause::Memory,
};

/// Reads a source to its end and returns the ELF file of its program. Refused with the source's first fault, as BadEntry if it
/// has no text words, as Unreadable if a read failed or the source is not UTF-8, and as Memory if memory ran out.
pub fn file_of_source<R: Source>(alloc: Global, source: &mut R) -> Result<Vec<u8>, Refusal>
    ensures ok { IfOk result (λ file. IfSome (R.remaining source.old) (λ bytes. IsUtf8 bytes × (file_of_source bytes ≡ Ok file.items))) }
    ensures err { IfErr result (λ e. IfSome (R.remaining source.old) (λ bytes. IsSourceFault (R.may_fail source.old) bytes e)) }
{
    let bytes = read_text(alloc, source, Refusal::Asm(SOURCE_MEMORY))?;
    let Ok(text) = str::from_utf8(bytes.as_slice()) else {
        return Err(Refusal::File(FileFault::Unreadable));
    };
    let program = assemble(alloc, text).map_err(Refusal::Asm)?;
    match elf32::write(alloc, &program) {
        Ok(file) => Ok(file),
        Err(fault) => Err(Refusal::Elf(fault)),
    }
}
