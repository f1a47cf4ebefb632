//! What the stages of a frame give.

ghost use Rattle.std.specs.Prelude.{◌≡◌, vec_len};

use crate::answer::Answer;
use crate::refusal::{Failure, FrameRefusal};
use block_file::BlockText;
use elf32::Image;
use std::sync::Arc;

/// Why a stage gave nothing: the request is refused, or this machine ran out of memory.
#[derive(Clone, Copy, Debug, PartialEq, Eq)]
pub(crate) enum Stop {
    /// The request is refused.
    Refused(FrameRefusal),
    /// Memory ran out.
    Failed(Failure),
}

impl Stop {
    ghost use Rattle.std.specs.Prelude.{◌≡◌};
    ghost use Rattle.session_turns.specs.Stages.{stopped_answer};

    /// The answer to the request.
    pub(crate) fn answer(self) -> Answer
        ensures { result ≡ stopped_answer self }
    {
        match self {
            Stop::Refused(refusal) => Answer::Refused(refusal),
            Stop::Failed(failure) => Answer::Failed(failure),
        }
    }
}

/// A frame that may run: its text, and the programs that it names.
#[derive(Drop)]
pub(crate) struct AcceptedFrame {
    /// The text.
    pub(crate) block: BlockText,
    /// The programs, in the order of their numbers.
    pub(crate) images: Vec<Arc<Image>>,
    ghost whole: { vec_len images ≡ vec_len block.programs },
}
