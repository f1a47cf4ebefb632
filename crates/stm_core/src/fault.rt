//! Why steps are refused.

use rv_step::EndedRun;
use std::fmt;
use thiserror::Error;

/// Why a run that is handed in is refused.
#[derive(Clone, Copy, Debug, PartialEq, Eq, Error)]
pub enum RecordFault {
    /// Its call is not the job's call at that index, or its answers are not those that were given.
    Foreign = 1,
    /// There would be more than 1,048,576 records of versions.
    ArenaFull = 2,
    /// Memory ran out.
    Memory = 3,
    /// The call is at incarnation 65,535.
    IncarnationLimit = 4,
}

impl RecordFault {
    ghost use Rattle.std.specs.Prelude.{◌≡◌};
    ghost use Rattle.stm_core.specs.Faults.{record_name, record_number};

    /// Its number, 1 to 4.
    pub fn number(self) -> u8
        ensures { result ≡ record_number self }
    {
        self as u8
    }

    /// The name that a refusal prints, such as `ArenaFull`.
    pub fn name(self) -> &'static str
        ensures { result.now ≡ record_name self }
    {
        match self {
            RecordFault::Foreign => "Foreign",
            RecordFault::ArenaFull => "ArenaFull",
            RecordFault::Memory => "Memory",
            RecordFault::IncarnationLimit => "IncarnationLimit",
        }
    }
}

impl fmt::Display for RecordFault {
    ghost use Rattle.std.specs.Prelude.{Some};
    ghost use Rattle.stm_core.specs.Faults.{record_text};

    ghost output = { λ fault. Some (record_text fault) };

    /// The name and the number.
    fn fmt<W: fmt::Write>(&self, f: &mut fmt::Formatter<W>) -> fmt::Result {
        write!(f, "{} {}", self.name(), self.number())
    }
}

/// A run that was refused.
#[derive(Drop)]
pub struct Refused {
    /// Why.
    pub fault: RecordFault,
    /// The run.
    pub run: EndedRun,
}

/// The call is at incarnation 65,535.
#[derive(Clone, Copy, Debug, PartialEq, Eq, Error)]
pub struct IncarnationLimit;

impl fmt::Display for IncarnationLimit {
    ghost use Rattle.std.specs.Prelude.{Some};
    ghost use Rattle.stm_core.specs.Faults.{record_text};
    ghost use Rattle.stm_core.specs.declared.fault.RecordFault.TheVariants as fault;

    ghost output = { λ _. Some (record_text fault.IncarnationLimit) };

    /// The text of the record's fault of that name.
    fn fmt<W: fmt::Write>(&self, f: &mut fmt::Formatter<W>) -> fmt::Result {
        RecordFault::IncarnationLimit.fmt(f)
    }
}
