//! Faults of memory, and what they mean for a call.

ghost use Rattle.std.specs.Prelude.{◌≡◌};
ghost use Rattle.rv_mem.specs.Space.{AccessFault, as_fault};
ghost use Rattle.rv_step.specs.Meets.{refusal_of};
ghost use Rattle.rv_step.specs.Step.{trap_of};

use rv_ledger::{End, Trap};
use rv_mem::Fault;
use std::alloc::AllocError;

/// The trap that the refusal of an access causes. `refusal` returns Memory as an error, and does not ask for its trap.
pub(crate) fn trap_of(fault: Fault) -> Trap
    ensures { (cause : AccessFault) → fault ≡ as_fault cause → result ≡ trap_of cause }
{
    match fault {
        Fault::Misaligned => Trap::Misaligned,
        Fault::FetchFault => Trap::FetchFault,
        Fault::MemoryFault | Fault::Memory => Trap::MemoryFault,
    }
}

/// What a refused change of memory means for a call: it ends with a trap. Running out of memory is not a trap, and is returned
/// as an error.
pub(crate) fn refusal(fault: Fault) -> Result<End, AllocError>
    ensures { result ≡ refusal_of fault }
{
    match fault {
        Fault::Memory => Err(AllocError),
        fault => Ok(End::Trapped(trap_of(fault))),
    }
}
