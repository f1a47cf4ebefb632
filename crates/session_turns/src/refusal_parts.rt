//! What a refusal or a failure prints.

ghost use Rattle.std.specs.Prelude.{◌≡◌};
ghost use Rattle.byte_streams.specs.Refusals.{parts_in};
ghost use Rattle.session_turns.specs.Replies.{frame_refusal_parts, parts_of_failure};

use crate::refusal::{Failure, FrameRefusal};
use byte_streams::LineParts;

impl FrameRefusal {
    /// The parts of what it prints.
    #[tactic(auto, using(crate::proofs::ShortNames::short_cause, crate::proofs::ShortNames::short_elf))]
    pub fn parts(self) -> LineParts
        ensures { parts_in result ≡ frame_refusal_parts self }
    {
        match self {
            FrameRefusal::Block(fault) => LineParts {
                area: "block",
                line: Some(fault.line),
                name: fault.cause.name(),
                number: fault.cause.number(),
            },
            FrameRefusal::Elf(fault) => LineParts::without_line(
                "elf",
                fault.name(),
                fault.number(),
            ),
            FrameRefusal::FileTooLong => LineParts::without_line("file", "TooLong", 3),
            FrameRefusal::OlderRules => LineParts::without_line("frame", "OlderRules", 2),
            FrameRefusal::NoProgram => LineParts::without_line("frame", "NoProgram", 3),
            FrameRefusal::TooLong => LineParts::without_line("frame", "TooLong", 4),
            FrameRefusal::TooMuchGas => LineParts::without_line("frame", "TooMuchGas", 5),
            FrameRefusal::NotADump => LineParts::without_line("frame", "NotADump", 6),
            FrameRefusal::NoFrame => LineParts::without_line("frame", "NoFrame", 7),
            FrameRefusal::OtherDigest => LineParts::without_line("frame", "OtherDigest", 8),
            FrameRefusal::TooHigh => LineParts::without_line("frame", "TooHigh", 9),
        }
    }
}

impl Failure {
    /// The parts of what it prints.
    pub fn parts(self) -> LineParts
        ensures { parts_in result ≡ parts_of_failure self }
    {
        match self {
            Failure::Block => LineParts::without_line("block", "Memory", 8),
            Failure::Program => LineParts::without_line("elf", "Memory", 16),
            Failure::Run => LineParts::without_line("seq", "Memory", 1),
            Failure::Answer => LineParts::without_line("output", "Memory", 3),
        }
    }
}
