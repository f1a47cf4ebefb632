//! An image that a handle has.

ghost use Rattle.std.specs.Prelude.{◌≡◌};
ghost use Rattle.rvstm_c.specs.Images.{file_refusal};

use elf32::{ElfError, Image};
use programs::ProgramFault;
use session_turns::FrameRefusal;
use std::sync::Arc;

/// An image that a handle has.
#[derive(Drop)]
pub struct EmbeddedImage {
    /// The program.
    pub program: Arc<Image>,
}

/// The refusal of a file, or None if memory ran out.
pub(crate) fn refusal_of(fault: ProgramFault) -> Option<FrameRefusal>
    ensures { result ≡ file_refusal fault }
{
    match fault {
        ProgramFault::TooLong => Some(FrameRefusal::FileTooLong),
        ProgramFault::Elf(ElfError::Memory) | ProgramFault::Unreadable => None,
        ProgramFault::Elf(fault) => Some(FrameRefusal::Elf(fault)),
    }
}
