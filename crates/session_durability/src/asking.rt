//! A session over a file, as requests meet it.

ghost use Rattle.std.proofs.Common.{inl};
ghost use Rattle.std.specs.Prelude.{◌≡◌, ◌≤◌, OnOk};
ghost use Rattle.session_requests.specs.Requests.{Ask};
ghost use Rattle.session_serving.specs.Asking.{AsksPending, IsStorable};
ghost use Rattle.sqlite_trees.specs.View.{doubt};
ghost use Rattle.session_turns.specs.Pending.{IsNewProgram};
ghost use Rattle.session_durability.specs.Durable.{IsFileAnswer, IsShutBy};
ghost use Rattle.session_durability.specs.Keeping.{IsDoneIn, IsKeptIn, IsUnbroken, MayLeave, file_moment_of, unkept_reply, reply_text, state_kept};
ghost use Rattle.session_durability.specs.Settled.{leaves_kept};

use crate::keeping::{KeepFault, keep};
use crate::reply::{FileReply, write_reply};
use crate::session::FileSession;
use byte_streams::{Destination, WriteFault};
use session_serving::Session;
use session_states::StoreFault;
use session_turns::{Answer, Pending, Settings, State};
use sqlite_trees::store::Store;
use std::alloc::Global;

/// A file keeps it, and a failure of the file that only another open mends shuts it.
impl<S: Store> Session for FileSession<S> {
    type Reply = FileReply;

    type Fault = StoreFault;

    ghost state = { λ s. s.state };

    ghost is_kept = { IsKeptIn S.Store };

    ghost is_open = { IsUnbroken S.Store };

    ghost answers = { λ settings s ask text t. IsFileAnswer settings (file_moment_of S.Store s) ask text (file_moment_of S.Store t) };

    ghost shuts = { λ settings s ask fault t. IsShutBy settings (file_moment_of S.Store s) ask fault (file_moment_of S.Store t) };

    ghost leaves = { MayLeave S.Store };

    ghost text_of = { λ s reply. reply_text s.state s.found reply };

    ghost settled = { λ settings s rest kept sound clean db left.
        inl (leaves_kept settings (S.Store.view s.file) (state_kept s) (S.Store.recovers s.file) (S.Store.broken_if_shut s.file) (S.Store.settled s.file) (sound clean) kept db left) };

    fn state(&self) -> &State {
        &self.state
    }

    fn last(&self) -> FileReply {
        FileReply::Last
    }

    fn keep(
        &mut self,
        alloc: Global,
        settings: Settings,
        body: &[u8],
        pending: Pending,
    ) -> Result<FileReply, StoreFault> {
        take_pending(alloc, settings, self, body, pending)
    }

    fn write<W: Destination>(&self, reply: FileReply, out: &mut W) -> Result<(), WriteFault> {
        write_reply(self, reply, out)
    }
}

/// Keeps what is pending of a request with these bytes after its line, and answers the request. Refused if the file is shut.
fn take_pending<S: Store>(
    alloc: Global,
    settings: Settings,
    session: &mut FileSession<S>,
    body: &[u8],
    pending: Pending,
) -> Result<FileReply, StoreFault>
    requires kept { IsKeptIn S.Store settings session.old }
    requires sound { IsUnbroken S.Store session.old }
    requires new { IsNewProgram session.old.state pending }
    requires storable { IsStorable body.now pending }
    ensures says { (ask : Ask) → AsksPending settings session.old.state ask pending → IsDoneIn S.Store settings session.old ask result session.new }
    ensures kept { IsKeptIn S.Store settings session.new }
    ensures sound { OnOk result (IsUnbroken S.Store session.new) }
    ensures clean { doubt (S.Store.view session.old.file).is_clean ≤ doubt (S.Store.view session.new.file).is_clean }
{
    match pending {
        Pending::Nothing(answer) => Ok(FileReply::Turn(answer)),
        pending => match keep(alloc, session, settings, body, pending) {
            Ok(answer) => Ok(FileReply::Turn(answer)),
            Err(fault) => reply_of(session.file.is_shut(), fault),
        },
    }
}

/// What comes of a change that was not kept.
fn reply_of(is_shut: bool, fault: KeepFault) -> Result<FileReply, StoreFault>
    ensures { result ≡ unkept_reply is_shut fault }
{
    match fault {
        KeepFault::Room(_) if is_shut => Err(StoreFault::Memory),
        KeepFault::Room(failure) => Ok(FileReply::Turn(Answer::Failed(failure))),
        KeepFault::Store(error) if is_shut => Err(StoreFault::from(error)),
        KeepFault::Store(error) => Ok(FileReply::Failed(StoreFault::from(error))),
    }
}
