//! The ways to use a byte of memory.

ghost use Rattle.std.specs.Prelude.{◌≡◌};
ghost use Rattle.rv_mem.specs.Space.{allows, access_fault, as_fault};

use crate::fault::Fault;
use elf32::Rights;

/// A way to use a byte of memory. Each needs a right of the byte's page.
#[derive(Clone, Copy, Debug, PartialEq, Eq)]
pub enum Access {
    /// A load.
    Read,
    /// A store.
    Write,
    /// A fetch of an instruction.
    Execute,
}

impl Access {
    /// Whether a page with these rights allows this access.
    #[inline(always)]
    pub(crate) fn is_allowed_by(self, rights: Rights) -> bool
        ensures { result ≡ allows self rights }
    {
        match self {
            Access::Read => rights.readable,
            Access::Write => rights.writable,
            Access::Execute => rights.executable,
        }
    }

    /// The fault of an access without the right.
    pub(crate) fn fault(self) -> Fault
        ensures { result ≡ as_fault (access_fault self) }
    {
        match self {
            Access::Read | Access::Write => Fault::MemoryFault,
            Access::Execute => Fault::FetchFault,
        }
    }
}
