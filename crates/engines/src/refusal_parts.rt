//! The parts of what a refusal prints.

ghost use Rattle.std.specs.Prelude.{◌≡◌, ◌≤◌, length};
ghost use Rattle.byte_streams.specs.Refusals.{parts_in};
ghost use Rattle.engines.specs.Faults.{asm_line, block_line, block_parts, elf_parts, parts_of};

use crate::fault::Refusal;
use block_file::{BlockFault, Cause};
use byte_streams::LineParts;
use elf32::ElfError;
use rv_text::{AsmCause, AsmError};

impl Refusal {
    /// The parts of what it prints.
    #[tactic(auto, using(crate::proofs::ShortNames::short_run, crate::proofs::ShortNames::short_drive))]
    pub(crate) fn parts(self) -> LineParts
        ensures { parts_in result ≡ parts_of self }
    {
        match self {
            Refusal::File(fault) => LineParts::without_line("file", fault.name(), fault.number()),
            Refusal::Block(fault) => block_parts("block", fault),
            Refusal::Elf(fault) => elf_parts(fault),
            Refusal::Asm(fault) => asm_parts(fault),
            Refusal::Seq(fault) => LineParts::without_line("seq", fault.name(), fault.number()),
            Refusal::Schedule(fault) => block_parts("schedule", fault),
            Refusal::Run(fault) => LineParts::without_line("run", fault.name(), fault.number()),
            Refusal::Drive(fault) => LineParts::without_line("drive", fault.name(), fault.number()),
            Refusal::Debug(fault) => LineParts::without_line("debug", fault.name(), fault.number()),
            Refusal::Request(fault) => LineParts::without_line(
                "request",
                fault.name(),
                fault.number(),
            ),
            Refusal::Store(fault) => fault.parts(),
            Refusal::Output(fault) => LineParts::without_line(
                "output",
                fault.name(),
                fault.number(),
            ),
        }
    }
}

/// The parts of a fault of a text, in its area. Running out of memory has no line.
#[tactic(auto, using(session_turns::proofs::ShortNames::short_cause))]
fn block_parts(area: &'static str, fault: BlockFault) -> LineParts
    requires { length area.now ≤ 8 }
    ensures { parts_in result ≡ block_parts area.now fault }
{
    LineParts {
        area,
        line: block_line(fault),
        name: fault.cause.name(),
        number: fault.cause.number(),
    }
}

/// The number of the line of a fault of a text.
fn block_line(fault: BlockFault) -> Option<usize>
    ensures { result ≡ block_line fault.line fault.cause }
{
    match fault.cause {
        Cause::Memory => None,
        _ => Some(fault.line),
    }
}

/// The parts of a fault of a program.
#[tactic(auto, using(session_turns::proofs::ShortNames::short_elf))]
fn elf_parts(fault: ElfError) -> LineParts
    ensures { parts_in result ≡ elf_parts fault }
{
    LineParts::without_line("elf", fault.name(), fault.number())
}

/// The parts of a fault of a source. Running out of memory has no line.
#[tactic(auto, using(crate::proofs::ShortNames::short_asm))]
fn asm_parts(fault: AsmError) -> LineParts
    ensures { parts_in result ≡ parts_of (Refusal.Asm fault) }
{
    LineParts {
        area: "asm",
        line: asm_line(fault),
        name: fault.cause.name(),
        number: fault.cause.number(),
    }
}

/// The number of the line of a fault of a source.
fn asm_line(fault: AsmError) -> Option<usize>
    ensures { result ≡ asm_line fault.line fault.cause }
{
    match fault.cause {
        AsmCause::Memory => None,
        _ => Some(fault.line),
    }
}
