//! A law of a session over a file whose machine stopped.

ghost use Rattle.std.specs.Prelude.{ℕ, List, Option};
ghost use Rattle.sqlite_trees.specs.Tree.{Trees};
ghost use Rattle.session_states.specs.States.{FileState};
ghost use Rattle.session_turns.specs.declared.settings.Settings.{Settings};
ghost use Rattle.session_durability.specs.Durable.{FileMoment, IsFileSessionStopped};
ghost use Rattle.session_durability.specs.Opened.{IsFoundIn};
ghost use Rattle.session_durability.specs.Resumed.{IsResumed};

use crate::session::FileSession;
use sqlite_trees::store::Store;

/// A law, and no code: of a session that stopped, each of the outcomes that the crash allows holds the session that the requests
/// which were answered in whole left, or the next one too. So the next open continues that session.
pub fn stopped_session_goes_on<S: Store>(session: &FileSession<S>)
    ensures { (settings : Settings) (old : FileMoment) (bytes : List ℕ) (before now : Option (List ℕ)) (db : Trees) (found : FileState) → IsFileSessionStopped settings old bytes before now (S.Store.recovers session.now.file)
        → S.Store.recovers session.now.file db → IsFoundIn settings db found → IsResumed settings old bytes before now found }
{
    let _ = session;
}
