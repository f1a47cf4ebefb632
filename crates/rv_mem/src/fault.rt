//! Why memory refuses.

use thiserror::Error;

/// Why memory refuses an access. The causes are tested in this order, and the first that holds is returned.
#[derive(Clone, Copy, Debug, PartialEq, Eq, Error)]
pub enum Fault {
    /// The address is not a multiple of the number of bytes.
    #[error("Misaligned 1")]
    Misaligned = 1,
    /// A byte of a load, a store or a copy is outside memory or in a page without the right.
    #[error("MemoryFault 2")]
    MemoryFault = 2,
    /// A byte of an instruction is outside memory or in a page that may not be executed.
    #[error("FetchFault 3")]
    FetchFault = 3,
    /// Memory ran out when a page had to be copied.
    #[error("Memory 4")]
    Memory = 4,
}
