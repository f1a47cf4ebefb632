//! A fault that is written in a book, alone and with one that was met outside the lock.

ghost use Rattle.std.specs.Prelude.{◌≡◌};

use crate::fault::{OutsideFault, RunFault};
use std::marker::Model;

/// A fault that is written in a book: whoever has one need not write it. Only a book makes one.
#[derive(Clone, Copy, Debug, PartialEq, Eq)]
pub struct WrittenFault {
    fault: RunFault,
}

impl Model for WrittenFault {
    ghost use Rattle.workers.specs.declared.fault.RunFault.{RunFault};
    ghost use Rattle.workers.specs.contracts.fault.RunFault.{the_row as fault_row};

    ghost Value = { RunFault };

    ghost coded = { fault_row.coded };

    ghost view = { λ written. written.fault };

    ghost inverse = { λ fault. record { fault = fault } };
}

impl WrittenFault {
    ghost use Rattle.std.specs.Prelude.{◌≡◌};

    /// Of the fault that a book has.
    pub(super) fn of(fault: RunFault) -> WrittenFault
        ensures { result ≡ fault }
    {
        WrittenFault { fault }
    }

    /// Why the write was refused.
    pub fn fault(self) -> RunFault
        ensures { result ≡ self }
    {
        self.fault
    }
}

/// A fault that was met outside the lock, and the one that the book has since: this one, or an earlier one. Only a book makes
/// one, when it gets the fault.
#[derive(Clone, Copy)]
pub(crate) struct MetFault {
    met: OutsideFault,
    written: WrittenFault,
}

impl MetFault {
    /// Of the fault that a book got, and the one that it has.
    pub(super) fn of(met: OutsideFault, written: WrittenFault) -> MetFault
        ensures met { result.met ≡ met }
        ensures written { result.written ≡ written }
    {
        MetFault { met, written }
    }

    /// The fault that the book has.
    pub(crate) fn written(self) -> WrittenFault
        ensures { result ≡ self.written }
    {
        self.written
    }
}

impl From<MetFault> for WrittenFault {
    fn from(fault: MetFault) -> WrittenFault {
        fault.written()
    }
}
