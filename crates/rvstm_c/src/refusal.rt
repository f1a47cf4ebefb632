//! The parts of a refusal or a failure, as C gets them.

ghost use Rattle.std.specs.Prelude.{◌≡◌};
ghost use Rattle.byte_streams.specs.Refusals.{parts_in};
ghost use Rattle.session_turns.specs.Turn.{last_reply};
ghost use Rattle.rvstm_c.specs.Refusals.{handed_out, parts_given, parts_of_reply};

use crate::given::Given;
use crate::padding::padded;
use byte_streams::LineParts;
use session_turns::{Answer, FrameRefusal, KeptAnswer, State};

/// The room for an area, in bytes: no area has more than 7.
const AREA_ROOM: usize = 8;

/// The room for a name, in bytes: no name has more than 16.
const NAME_ROOM: usize = 24;

/// The parts of a refusal or a failure; zeros if a request is done.
#[repr(C)]
#[derive(Clone, Copy)]
pub struct RefusalParts {
    /// The number of the block's line, from 1; 0 if there is none.
    pub line: usize,
    /// The number within the area, from 1.
    pub number: u32,
    /// The area, and zeros after it.
    pub area: [u8; AREA_ROOM],
    /// The name, and zeros after it.
    pub name: [u8; NAME_ROOM],
}

/// What is handed out if a request is done.
pub(crate) const NO_PARTS: RefusalParts = RefusalParts {
    line: 0,
    number: 0,
    area: [0; AREA_ROOM],
    name: [0; NAME_ROOM],
};

/// The parts of the answer to the last request.
pub(crate) fn parts_of(state: &State, given: &Given) -> RefusalParts
    ensures { result ≡ parts_given state.now given.now }
{
    match given {
        Given::Answered(Answer::Done(_) | Answer::Storage(_)) => NO_PARTS,
        Given::Answered(Answer::Last) => parts_of_last(&state.last),
        Given::Answered(Answer::Refused(refusal)) => handed_out(refusal.parts()),
        Given::Answered(Answer::Failed(failure)) => handed_out(failure.parts()),
        Given::BadLine => handed_out(LineParts::without_line("request", "BadLine", 1)),
    }
}

/// The same for the answer that is kept of a frame.
fn parts_of_last(last: &Option<KeptAnswer>) -> RefusalParts
    ensures { result ≡ parts_of_reply (last_reply last.now) }
{
    match last {
        Some(kept) => match kept.refusal {
            Some(refusal) => handed_out(refusal.parts()),
            None => NO_PARTS,
        },
        None => handed_out(FrameRefusal::NoFrame.parts()),
    }
}

/// The parts of a refusal.
pub(crate) fn handed_out(parts: LineParts) -> RefusalParts
    ensures { result ≡ handed_out (parts_in parts) }
{
    RefusalParts {
        line: parts.line.unwrap_or(0),
        number: u32::from(parts.number),
        area: padded(parts.area.as_bytes()),
        name: padded(parts.name.as_bytes()),
    }
}
