//! How files are read to their end.

ghost use Rattle.std.specs.Prelude.{◌≡◌, ◌⊎◌, ◌<◌, ◌≤◌, length, vec_len, IfOk, IfErr, IfSome};
ghost use Rattle.std.specs.Option.{option_map};
ghost use Rattle.engines.specs.Engine.{IsFileFault};
ghost use Rattle.programs.specs.Programs.{program_of_file};

use crate::fault::{FileFault, Refusal};
use byte_streams::Source;
use elf32::ElfError;
use programs::{FILE_LIMIT, ProgramFault};
use std::alloc::Global;

/// The greatest number of bytes that one read asks for.
const PART_BYTES: usize = 32_768;

/// Why a file is not read.
#[derive(Clone, Copy, PartialEq, Eq)]
enum ReadFault {
    /// A read failed.
    Unreadable,
    /// There are more bytes than allowed.
    TooLong,
    /// Memory ran out.
    Memory,
}

/// All the bytes that a reader has left. Refused as TooLong if there are more than `limit`, as Unreadable if a read failed, and
/// as Memory if memory ran out.
fn read_whole<R: Source>(alloc: Global, reader: &mut R, limit: usize) -> Result<Vec<u8>, ReadFault>
    ensures ok { IfOk result (λ v. IfSome (R.remaining reader.old) (λ bytes. v.items ≡ bytes)) }
    ensures short { IfOk result (λ v. vec_len v ≤ limit) }
    ensures long { IfErr result (λ e. e ≡ ReadFault.TooLong → IfSome (R.remaining reader.old) (λ bytes. limit < length bytes)) }
    ensures unreadable { IfErr result (λ e. e ≡ ReadFault.Unreadable → R.may_fail reader.old) }
{
    let mut all = Vec::new(alloc);
    let mut part = [0u8; PART_BYTES];
    loop {
        let Ok(count) = reader.read_part(&mut part) else {
            return Err(ReadFault::Unreadable);
        };
        if count == 0 {
            return Ok(all);
        }
        if count > limit - all.len() {
            return Err(ReadFault::TooLong);
        }
        if all.extend_from_slice(&part[..count]).is_err() {
            return Err(ReadFault::Memory);
        }
    }
}

/// All the bytes that a reader of a text has left. Refused as Unreadable if a read failed, and as `memory` if memory ran out.
pub(crate) fn read_text<R: Source>(
    alloc: Global,
    reader: &mut R,
    memory: Refusal,
) -> Result<Vec<u8>, Refusal>
    ensures ok { IfOk result (λ v. IfSome (R.remaining reader.old) (λ bytes. v.items ≡ bytes)) }
    ensures err { IfErr result (λ e. (e ≡ memory) ⊎ ((e ≡ Refusal.File FileFault.Unreadable) × R.may_fail reader.old)) }
{
    match read_whole(alloc, reader, usize::MAX) {
        Ok(bytes) => Ok(bytes),
        Err(ReadFault::Memory | ReadFault::TooLong) => Err(memory),
        Err(ReadFault::Unreadable) => Err(Refusal::File(FileFault::Unreadable)),
    }
}

/// All the bytes that a reader of a program file has left. Refused as TooLong if there are more than 131,072, as Unreadable if
/// a read failed, and as Memory if memory ran out.
pub(crate) fn read_program<R: Source>(
    alloc: Global,
    reader: &mut R,
) -> Result<Vec<u8>, ProgramFault>
    ensures ok { IfOk result (λ v. IfSome (R.remaining reader.old) (λ bytes. v.items ≡ bytes)) }
    ensures err { IfErr result (λ fault. IsFileFault (R.may_fail reader.old) (option_map program_of_file (R.remaining reader.old)) fault) }
{
    match read_whole(alloc, reader, FILE_LIMIT) {
        Ok(bytes) => Ok(bytes),
        Err(ReadFault::Memory) => Err(ProgramFault::Elf(ElfError::Memory)),
        Err(ReadFault::TooLong) => Err(ProgramFault::TooLong),
        Err(ReadFault::Unreadable) => Err(ProgramFault::Unreadable),
    }
}
