//! A session that continues from another session's storage.

ghost use Rattle.session_requests.specs.Requests.{Begin};
ghost use Rattle.session_turns.specs.Pending.{IsPendingDue, IsPending};
ghost use Rattle.session_turns.specs.declared.settings.Settings.{Settings};

use crate::accepting::parsed;
use crate::answer::Answer;
use crate::pending::{Pending, PendingBegin};
use crate::refusal::FrameRefusal;
use crate::state::State;
use block_file::BlockText;
use std::alloc::Global;

/// The storage of a text, its rules, a height and a digest, which will take the place of the session's. The programs stay, and
/// there is no last answer. Refused by the text's first fault, or if the text has programs or calls. Refused also if there is a
/// digest and the session keeps none, or the other way round.
pub(crate) fn begin(
    alloc: Global,
    state: &State,
    height: u64,
    digest: Option<[u8; 32]>,
    bytes: &[u8],
) -> Pending
    ensures pending { (settings : Settings) → IsPending settings state.now (Begin height digest bytes.now) result }
    ensures due { IsPendingDue state.now (Begin height digest bytes.now) result }
{
    let block = match parsed(alloc, bytes) {
        Ok(block) => block,
        Err(stop) => return Pending::Nothing(stop.answer()),
    };
    let BlockText {
        rules,
        programs,
        store,
        calls,
    } = block;
    if !programs.is_empty() || !calls.is_empty() {
        return Pending::Nothing(Answer::Refused(FrameRefusal::NotADump));
    }
    if digest.is_none() != state.digest.is_none() {
        return Pending::Nothing(Answer::Refused(FrameRefusal::OtherDigest));
    }
    Pending::Begin(PendingBegin {
        store,
        rules,
        height,
        digest,
    })
}
