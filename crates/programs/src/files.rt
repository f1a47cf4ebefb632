//! The programs of files.

ghost use Rattle.std.specs.Prelude.{◌≡◌, Err, Ok, Some, IfErr, IfOk, IsOk};
ghost use Rattle.std.specs.Arc.{arc_value};
ghost use Rattle.elf32.specs.Image.{Gives, image_of};
ghost use Rattle.programs.specs.Programs.{IsProgramFault, program_of_file};

use crate::fault::ProgramFault;
use elf32::{ElfError, Image, load};
use std::alloc::{AllocFailed, Global};
use std::sync::Arc;

/// The greatest length of a program's file, in bytes.
pub const FILE_LIMIT: usize = 131_072;

/// The program of a file that has these bytes. Refused as TooLong above 131,072 bytes, otherwise by the fault of the
/// bytes. Refused as Memory if they are a program and memory for it ran out.
pub fn load_file(alloc: Global, bytes: &[u8]) -> Result<Arc<Image>, ProgramFault>
    ensures ok { IfOk result (λ image. program_of_file bytes.now ≡ Ok (arc_value image)) }
    ensures err { IfErr result (λ fault. IsProgramFault (Some (program_of_file bytes.now)) fault) }
    ensures memory { IfErr result (λ fault. fault ≡ ProgramFault.Elf ElfError.Memory → IsOk (program_of_file bytes.now)) }
{
    if bytes.len() > FILE_LIMIT {
        return Err(ProgramFault::TooLong);
    }
    Ok(load_image(alloc, bytes)?)
}

/// The program of some bytes, however many they are. Refused by the fault of the bytes, or as Memory if they are a
/// program and memory for it ran out.
pub fn load_image(alloc: Global, bytes: &[u8]) -> Result<Arc<Image>, ElfError>
    ensures ok { IfOk result (λ image. image_of bytes.now ≡ Ok (arc_value image)) }
    ensures err { IfErr result (λ fault. Gives (Err fault) (image_of bytes.now)) }
{
    let image = load(alloc, bytes)?;
    match Arc::new(alloc, image) {
        Ok(image) => Ok(image),
        Err(AllocFailed { .. }) => Err(ElfError::Memory),
    }
}
