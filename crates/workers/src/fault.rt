//! Why the run of a block by threads has no outcome.

use std::fmt;
use thiserror::Error;

/// Why the run of a block by threads has no outcome.
#[derive(Clone, Copy, Debug, PartialEq, Eq, Error)]
pub enum RunFault {
    /// The number of workers is not 1 to 32. The command line refuses such a number first.
    BadCount = 1,
    /// An internal check failed: a worker, its share, its run or the job is not the one that the core has.
    Foreign = 2,
    /// The runs of calls, repeated ones included, would have more than 1,048,576 writes.
    ArenaFull = 3,
    /// A run at incarnation 65,535, the 65,536th of its call, would be parked or recorded.
    IncarnationLimit = 4,
    /// Memory ran out.
    Memory = 5,
    /// The system refused to start a thread.
    Spawn = 6,
    /// A worker made 2^64 - 1 steps. With a limit also: it made as many steps, not counting asks, or all passed as many versions.
    /// The command line sets no limit.
    StepLimit = 7,
}

impl RunFault {
    ghost use Rattle.std.specs.Prelude.{◌≡◌};
    ghost use Rattle.workers.specs.Faults.{name_of, number_of};

    /// The number in what is printed, 1 to 7.
    pub fn number(self) -> u8
        ensures { result ≡ number_of self }
    {
        self as u8
    }

    /// The name in what is printed.
    pub fn name(self) -> &'static str
        ensures { result.now ≡ name_of self }
    {
        match self {
            RunFault::BadCount => "BadCount",
            RunFault::Foreign => "Foreign",
            RunFault::ArenaFull => "ArenaFull",
            RunFault::IncarnationLimit => "IncarnationLimit",
            RunFault::Memory => "Memory",
            RunFault::Spawn => "Spawn",
            RunFault::StepLimit => "StepLimit",
        }
    }
}

impl fmt::Display for RunFault {
    ghost use Rattle.std.specs.Prelude.{Some};
    ghost use Rattle.workers.specs.Faults.{fault_text};

    ghost output = { λ fault. Some (fault_text fault) };

    /// The name and the number.
    fn fmt<W: fmt::Write>(&self, f: &mut fmt::Formatter<W>) -> fmt::Result {
        write!(f, "{} {}", self.name(), self.number())
    }
}

/// A fault that shows outside the lock, and is then written under it.
#[derive(Clone, Copy)]
pub(crate) enum OutsideFault {
    /// Memory ran out.
    Memory,
    /// The system refused a thread.
    Spawn,
}
