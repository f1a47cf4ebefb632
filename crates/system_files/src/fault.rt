//! Why a file is not put at a path.

ghost use Rattle.std.specs.Prelude.{◌≡◌};
ghost use Rattle.std_io.specs.IoError.{error_kind};
ghost use Rattle.system_files.specs.Faults.{fault_of};

use std::alloc::AllocError;
use std::io;

/// Why a file is not put at a path.
#[derive(Clone, Copy, Debug, PartialEq, Eq)]
pub enum ReplaceFault {
    /// It can't be made, written or renamed.
    Unwritable,
    /// Memory ran out.
    Memory,
}

impl From<io::Error> for ReplaceFault {
    ghost from_gives = { λ error fault. fault ≡ fault_of (error_kind error) };

    /// Memory if memory ran out, otherwise Unwritable.
    fn from(error: io::Error) -> ReplaceFault {
        match error.kind() {
            io::ErrorKind::OutOfMemory => ReplaceFault::Memory,
            _ => ReplaceFault::Unwritable,
        }
    }
}

impl From<AllocError> for ReplaceFault {
    ghost use Rattle.system_files.specs.declared.fault.ReplaceFault.TheVariants.{Memory};

    ghost from_gives = { λ _ fault. fault ≡ Memory };

    fn from(_error: AllocError) -> ReplaceFault {
        ReplaceFault::Memory
    }
}
