//! Why a command is refused.

ghost use Rattle.std.specs.Prelude.{◌≡◌, ◌≤◌, length};
ghost use Rattle.engines.specs.Faults.{file_name, file_number, input_name, input_number, seq_name, seq_number};

use block_file::BlockFault;
use byte_streams::WriteFault;
use debugger::ReplayFault;
use elf32::ElfError;
use rv_text::AsmError;
use session_states::StoreFault;
use std::fmt;
use stm_core::DriveFault;
use thiserror::Error;
use workers::RunFault;

/// Why a file is refused.
#[derive(Clone, Copy, Debug, PartialEq, Eq, Error)]
pub enum FileFault {
    /// A file can't be opened or read to its end, or a source is not UTF-8.
    Unreadable = 1,
    /// `--out` names the file that is read, its file can't be made, written or renamed, or `rvstm` can't resolve its path.
    Unwritable = 2,
    /// A program file has more than 131,072 bytes.
    TooLong = 3,
}

impl FileFault {
    /// The number in the refusal's line, 1 to 3.
    pub(crate) fn number(self) -> u8
        ensures { result ≡ file_number self }
    {
        self as u8
    }

    /// The name in the refusal's line.
    pub(crate) fn name(self) -> &'static str
        ensures text { result.now ≡ file_name self }
        ensures short { length result.now ≤ 16 }
    {
        match self {
            FileFault::Unreadable => "Unreadable",
            FileFault::Unwritable => "Unwritable",
            FileFault::TooLong => "TooLong",
        }
    }
}

impl fmt::Display for FileFault {
    ghost use Rattle.std.specs.Prelude.{Some};
    ghost use Rattle.engines.specs.Faults.{file_text};

    ghost output = { λ fault. Some (file_text fault) };

    /// The name and the number.
    #[tactic(auto, unfolding(crate::specs::Faults::file_text))]
    fn fmt<W: fmt::Write>(&self, f: &mut fmt::Formatter<W>) -> fmt::Result {
        write!(f, "{} {}", self.name(), self.number())
    }
}

/// Why a run in order is refused.
#[derive(Clone, Copy, Debug, PartialEq, Eq, Error)]
pub enum SeqFault {
    /// Memory ran out for a run in order, or for the buffer of a session's input before its first request.
    Memory = 1,
}

impl SeqFault {
    /// The number in the refusal's line, 1.
    pub(crate) fn number(self) -> u8
        ensures { result ≡ seq_number self }
    {
        self as u8
    }

    /// The name in the refusal's line.
    pub(crate) fn name(self) -> &'static str
        ensures text { result.now ≡ seq_name self }
        ensures short { length result.now ≤ 16 }
    {
        match self {
            SeqFault::Memory => "Memory",
        }
    }
}

impl fmt::Display for SeqFault {
    ghost use Rattle.std.specs.Prelude.{Some};
    ghost use Rattle.engines.specs.Faults.{seq_text};

    ghost output = { λ fault. Some (seq_text fault) };

    /// The name and the number.
    #[tactic(auto, unfolding(crate::specs::Faults::seq_text))]
    fn fmt<W: fmt::Write>(&self, f: &mut fmt::Formatter<W>) -> fmt::Result {
        write!(f, "{} {}", self.name(), self.number())
    }
}

/// Why the input of a session ends it.
#[derive(Clone, Copy, Debug, PartialEq, Eq, Error)]
pub enum InputFault {
    /// The next line has none of the forms of a request, has no LF, or has none among its first 128 bytes.
    BadLine = 1,
    /// The input ends before the last byte of a request's body.
    Cut = 2,
    /// A read of standard input failed.
    Unreadable = 3,
}

impl InputFault {
    /// The number in the refusal's line, 1 to 3.
    pub(crate) fn number(self) -> u8
        ensures { result ≡ input_number self }
    {
        self as u8
    }

    /// The name in the refusal's line.
    pub(crate) fn name(self) -> &'static str
        ensures text { result.now ≡ input_name self }
        ensures short { length result.now ≤ 16 }
    {
        match self {
            InputFault::BadLine => "BadLine",
            InputFault::Cut => "Cut",
            InputFault::Unreadable => "Unreadable",
        }
    }
}

impl fmt::Display for InputFault {
    ghost use Rattle.std.specs.Prelude.{Some};
    ghost use Rattle.engines.specs.Faults.{input_text};

    ghost output = { λ fault. Some (input_text fault) };

    /// The name and the number.
    #[tactic(auto, unfolding(crate::specs::Faults::input_text))]
    fn fmt<W: fmt::Write>(&self, f: &mut fmt::Formatter<W>) -> fmt::Result {
        write!(f, "{} {}", self.name(), self.number())
    }
}

/// Why a command is refused: the area, and the refusal in it. A refusal of a block file, a schedule
/// file or a source has a line too.
#[derive(Clone, Copy, Debug, PartialEq, Eq)]
pub enum Refusal {
    /// A file.
    File(FileFault),
    /// The text of a block file.
    Block(BlockFault),
    /// A program's bytes.
    Elf(ElfError),
    /// The text of a source.
    Asm(AsmError),
    /// The run in order.
    Seq(SeqFault),
    /// The text of a schedule file.
    Schedule(BlockFault),
    /// The run by workers.
    Run(RunFault),
    /// The run along a schedule.
    Drive(DriveFault),
    /// The replay of a call.
    Debug(ReplayFault),
    /// The input of a session.
    Request(InputFault),
    /// The file of a session.
    Store(StoreFault),
    /// The output.
    Output(WriteFault),
}
