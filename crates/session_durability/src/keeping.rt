//! Keeping what is pending: on the disk first, and then in memory.

ghost use Rattle.session_turns.specs.Pending.{IsNewProgram};
ghost use Rattle.session_serving.specs.Asking.{IsStorable};
ghost use Rattle.session_durability.specs.Keeping.{IsFoundBehind, IsKeptIn, KeepsPending};

use crate::session::FileSession;
use crate::staging::stage;
use session_file::AnswerRow;
use session_turns::{Answer, Failure, Pending, Settings, make_ready};
use sqlite_trees::error::StoreError;
use sqlite_trees::store::Store;
use std::alloc::Global;

/// Why a change is not kept.
#[derive(Clone, Copy, Debug, PartialEq, Eq)]
pub(crate) enum KeepFault {
    /// Memory for it ran out.
    Room(Failure),
    /// The file did not take it.
    Store(StoreError),
}

/// Keeps what is pending of a request with these bytes after its line, and returns the request's answer. Refused if memory runs
/// out or the file fails. Then the session is as it was, and so is the file, unless it is shut.
pub(crate) fn keep<S: Store>(
    alloc: Global,
    session: &mut FileSession<S>,
    settings: Settings,
    body: &[u8],
    pending: Pending,
) -> Result<Answer, KeepFault>
    requires storable { IsStorable body.now pending }
    requires new { IsNewProgram session.old.state pending }
    requires kept { IsKeptIn S.Store settings session.old }
    ensures { KeepsPending S.Store settings pending session.old session.new result }
{
    match stage(&mut session.file, settings, &session.state, body, &pending) {
        Ok(()) => {}
        Err(error) => return Err(KeepFault::Store(error)),
    }
    let ready = match make_ready(&mut session.state, pending) {
        Ok(ready) => ready,
        Err(failure) => {
            session.file.rollback();
            return Err(KeepFault::Room(failure));
        }
    };
    match session.file.commit() {
        Ok(()) => {}
        Err(error) => {
            ready.give_back(&mut session.state);
            return Err(KeepFault::Store(error));
        }
    }
    drop_found(&mut session.found, &ready.pending);
    Ok(ready.make(alloc, &mut session.state))
}

/// Drops the answer that was found, if the session begins again.
fn drop_found(found: &mut Option<AnswerRow>, pending: &Pending)
    ensures { IsFoundBehind pending.now found.old found.new }
{
    if let Pending::Begin(_) = pending {
        *found = None;
    }
}
