//! Why a worker ends before all is done.

ghost use Rattle.std.specs.Prelude.{◌≡◌};

use crate::book::{MetFault, WrittenFault};

/// Why a worker makes no further step. The fault is written.
#[derive(Clone, Copy)]
pub(crate) enum WorkFault {
    /// A step call was refused.
    Refused(WrittenFault),
    /// A fault was met outside the lock.
    Met(MetFault),
}

impl WorkFault {
    ghost use Rattle.std.specs.Prelude.{◌≡◌};
    ghost use Rattle.workers.specs.Work.{run_fault_of};

    /// The fault that the book has.
    pub(super) fn written_fault(self) -> WrittenFault
        ensures { result ≡ run_fault_of self }
    {
        match self {
            WorkFault::Refused(written) => written,
            WorkFault::Met(fault) => fault.written(),
        }
    }
}
