//! Why a program is refused.

ghost use Rattle.std.specs.Prelude.{◌≡◌};
ghost use Rattle.elf32.specs.declared.error.ElfError.TheVariants.{Memory};
ghost use Rattle.programs.specs.declared.fault.ProgramFault.TheVariants as fault;

use elf32::ElfError;
use std::alloc::{AllocError, AllocFailed};

/// Why a program is refused.
#[derive(Clone, Copy, Debug, PartialEq, Eq)]
pub enum ProgramFault {
    /// Its file can't be opened or read.
    Unreadable,
    /// Its file has more than 131,072 bytes.
    TooLong,
    /// Its bytes are no program, or memory ran out.
    Elf(ElfError),
}

impl From<ElfError> for ProgramFault {
    ghost from_gives = { λ error e. e ≡ fault.Elf error };

    fn from(error: ElfError) -> ProgramFault {
        ProgramFault::Elf(error)
    }
}

impl From<AllocError> for ProgramFault {
    ghost from_gives = { λ _ e. e ≡ fault.Elf Memory };

    fn from(_e: AllocError) -> ProgramFault {
        ProgramFault::Elf(ElfError::Memory)
    }
}

impl<T: Drop> From<AllocFailed<T>> for ProgramFault {
    ghost from_gives = { λ _ e. e ≡ fault.Elf Memory };

    fn from(_e: AllocFailed<T>) -> ProgramFault {
        ProgramFault::Elf(ElfError::Memory)
    }
}
